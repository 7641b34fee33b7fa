//! A part of an extent.
ghost use Rattle.std.specs.Prelude.{◌≡◌, ◌+◌, ◌-◌, ◌*◌, ◌/◌, ◌%◌, ◌^◌, ◌<◌, ◌≤◌, ◌++◌, false, length, replicate, IfSome, IsTrue, vec_len, vec_capacity};
ghost use Rattle.std.specs.List.{range_with_len};
ghost use Rattle.aff_model.specs.Content.{IsBlock, IsRead, Touches};
ghost use Rattle.aff_outside.specs.Kept.{IsSameDevice};
ghost use Rattle.aff_device.specs.Around.{IsPartRead, IsRange, RoseBy};

use aff_model::SECTOR;
use aff_outside::Device;

/// Bytes of a sector, as a length in memory.
const SECTOR_LEN: usize = SECTOR as usize;

/// Marks the sectors of a block, from `first` on, as unreadable.
fn mark(first: u32, buf: &mut [u8], bad: &mut Vec<u32>)
    requires room { vec_len bad.old + length buf.old / SECTOR ≤ vec_capacity bad.old }
    requires few { first + length buf.old / SECTOR ≤ 2 ^ 32 }
    ensures bad { bad.new.items ≡ bad.old.items ++ range_with_len first (length buf.old / SECTOR) }
    ensures room { vec_capacity bad.new ≡ vec_capacity bad.old }
    ensures zero { buf.new ≡ replicate (length buf.old) 0 }
{
    buf.fill(0);
    for sector in 0..buf.len() / SECTOR_LEN {
        bad.push_reserved(first + sector as u32);
    }
}

/// Reads at once, and says whether that could be done.
fn could_read(device: &mut dyn Device, at: u64, buf: &mut [u8]) -> bool
    requires whole { at % device_block device.old ≡ 0 }
    requires whole_len { length buf.old % device_block device.old ≡ 0 }
    requires inside { at + length buf.old ≤ device_size device.old }
    ensures bytes { IsTrue result → IfSome (device_content device.old) (λ c. IsRead c at buf.new) }
    ensures good { IsTrue result → IfSome (device_content device.old) (λ c. ¬ (Touches c.bad at (length buf.old))) }
    ensures weak { result ≡ false → IfSome (device_content device.old) (λ c. Touches c.weak at (length buf.old)) }
    ensures rose { result ≡ false → RoseBy 1 (device_faults device.old) (device_faults device.new) }
    ensures kept { IsSameDevice (λ d. device_content d) (λ d. device_block d) (λ d. device_size d) (λ d. device_faults d) device.old device.new }
{
    device.read_at(at, buf).is_ok()
}

/// How many blocks a length has.
fn blocks_of(len: usize, block: u32) -> usize
    requires { IsBlock block }
    ensures { result ≡ len / block }
{
    len / block as usize
}

/// The bytes of the first half of the blocks, rounded down.
fn half_of(len: usize, block: u32) -> usize
    requires block { IsBlock block }
    requires whole { len % block ≡ 0 }
    requires more { 2 ≤ len / block }
    ensures half { result / block ≡ len / block / 2 }
    ensures whole { result % block ≡ 0 }
    ensures rest { (len - result) % block ≡ 0 }
    ensures sectors { result % SECTOR ≡ 0 }
    ensures some { 0 < result }
    ensures less { result < len }
{
    len / block as usize / 2 * block as usize
}

/// Reads the part of an extent that begins with its sector `first`. The extent begins at offset `start`.
pub fn read_part(
    device: &mut dyn Device,
    block: u32,
    start: u64,
    first: u32,
    buf: &mut [u8],
    bad: &mut Vec<u32>,
)
    requires block { IsBlock block }
    requires own { device_block device.old ≡ block }
    requires told { IfSome (device_content device.old) (λ c. c.block ≡ block) }
    requires whole { IsRange block start first (length buf.old) }
    requires room { vec_len bad.old + length buf.old / SECTOR ≤ vec_capacity bad.old }
    requires few { first + length buf.old / SECTOR ≤ 2 ^ 32 }
    requires inside { start + SECTOR * first + length buf.old ≤ device_size device.old }
    requires fits { start + SECTOR * first + length buf.old < 2 ^ 64 }
    ensures read { IsPartRead (device_content device.old) block start first buf.new bad.old.items bad.new.items (device_faults device.old) (device_faults device.new) }
    ensures room { vec_capacity bad.new ≡ vec_capacity bad.old }
    ensures kept { IsSameDevice (λ d. device_content d) (λ d. device_block d) (λ d. device_size d) (λ d. device_faults d) device.old device.new }
{
    let at = start + SECTOR * u64::from(first);
    if could_read(device, at, buf) {
        return;
    }
    match blocks_of(buf.len(), block) {
        0 => {}
        1 => mark(first, buf, bad),
        _ => {
            let half = half_of(buf.len(), block);
            let second = first + (half / SECTOR_LEN) as u32;
            let (front, rest) = buf.split_at_mut(half);
            read_part(device, block, start, first, front, bad);
            read_part(device, block, start, second, rest, bad);
        }
    }
}
