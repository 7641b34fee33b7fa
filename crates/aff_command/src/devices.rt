//! Which devices are taken.
ghost use Rattle.std.specs.Prelude.{◌≡◌, ◌<◌, ◌↔◌, false, IsTrue, All, map, length, slice_index_or, IfSome, IfNone};
ghost use Rattle.aff_model.specs.Content.{IsBlock};
ghost use Rattle.aff_command.specs.Devices.{AreAlike, IsDeviceSize, IsFit, ShownDevice, shown};
ghost use Rattle.aff_command.specs.Refusals.{AreRefused, IsFirst};

use aff_model::{LARGE_BLOCK, MAX_DEVICES, MAX_SIZE, SECTOR};
use aff_outside::Device;

/// Why devices that were handed in are refused. Devices are numbered from 0.
#[derive(Clone, Copy, Debug, PartialEq, Eq)]
pub enum Refusal {
    /// There is none.
    Missing,
    /// There are this many, which is more than 16.
    Many(usize),
    /// This device's block has this number of bytes, which is neither 512 nor 4,096.
    Block(usize, u32),
    /// This device has this number of bytes: 0, no whole blocks, or more than 2^44.
    Size(usize, u64),
    /// This device's size or block is not that of device 0.
    Differs(usize),
}

fn size_of(devices: &[Box<dyn Device>], number: usize) -> u64
    requires { number < length devices.now }
    ensures { (d : _) → result ≡ device_size (slice_index_or devices.now number d) }
{
    devices[number].size()
}

fn block_of(devices: &[Box<dyn Device>], number: usize) -> u32
    requires { number < length devices.now }
    ensures { (d : _) → result ≡ device_block (slice_index_or devices.now number d) }
{
    devices[number].block()
}

/// The number of bytes of the first device.
pub fn first_size(devices: &[Box<dyn Device>]) -> u64
    requires { 0 < length devices.now }
    ensures { (d : _) → result ≡ device_size (slice_index_or devices.now 0 d) }
{
    size_of(devices, 0)
}

/// The number of bytes of a block of the first device.
pub fn first_block(devices: &[Box<dyn Device>]) -> u32
    requires { 0 < length devices.now }
    ensures { (d : _) → result ≡ device_block (slice_index_or devices.now 0 d) }
{
    block_of(devices, 0)
}

fn is_block(block: u32) -> bool
    ensures { IsTrue result ↔ IsBlock block }
{
    block as u64 == SECTOR || block as u64 == LARGE_BLOCK
}

fn is_device_size(block: u32, size: u64) -> bool
    requires { IsBlock block }
    ensures { IsTrue result ↔ IsDeviceSize block size }
{
    size != 0 && size.is_multiple_of(block as u64) && size <= MAX_SIZE
}

// The first device with another block than one may have, with that block.
fn strange_block(devices: &[Box<dyn Device>]) -> Option<(usize, u32)>
    ensures some { IfSome result (λ r. (d : ShownDevice) × IsFirst (λ e. ¬ (IsBlock e.block)) (map (λ d. shown (device_content d) (device_block d) (device_size d) (device_faults d)) devices.now) r.0 d × (r.1 ≡ d.block)) }
    ensures none { IfNone result (All (λ e. IsBlock e.block) (map (λ d. shown (device_content d) (device_block d) (device_size d) (device_faults d)) devices.now)) }
{
    for number in 0..devices.len() {
        let block = block_of(devices, number);
        if !is_block(block) {
            return Some((number, block));
        }
    }
    None
}

// The first device of another size than one may have, with that size.
fn strange_size(devices: &[Box<dyn Device>]) -> Option<(usize, u64)>
    requires { All (λ e. IsBlock e.block) (map (λ d. shown (device_content d) (device_block d) (device_size d) (device_faults d)) devices.now) }
    ensures some { IfSome result (λ r. (d : ShownDevice) × IsFirst (λ e. ¬ (IsDeviceSize e.block e.size)) (map (λ d. shown (device_content d) (device_block d) (device_size d) (device_faults d)) devices.now) r.0 d × (r.1 ≡ d.size)) }
    ensures none { IfNone result (All (λ e. IsDeviceSize e.block e.size) (map (λ d. shown (device_content d) (device_block d) (device_size d) (device_faults d)) devices.now)) }
{
    for number in 0..devices.len() {
        let size = size_of(devices, number);
        if !is_device_size(block_of(devices, number), size) {
            return Some((number, size));
        }
    }
    None
}

// Whether a device has this block and this size.
fn is_like(devices: &[Box<dyn Device>], number: usize, block: u32, size: u64) -> bool
    requires { number < length devices.now }
    ensures like { IsTrue result → (d : _) → (device_block (slice_index_or devices.now number d) ≡ block) × (device_size (slice_index_or devices.now number d) ≡ size) }
    ensures other { result ≡ false → (d : _) → ¬ ((device_block (slice_index_or devices.now number d) ≡ block) × (device_size (slice_index_or devices.now number d) ≡ size)) }
{
    block_of(devices, number) == block && size_of(devices, number) == size
}

// The first device of another block or size than this.
fn other_device(devices: &[Box<dyn Device>], block: u32, size: u64) -> Option<usize>
    ensures some { IfSome result (λ r. (f : ShownDevice) → f.block ≡ block → f.size ≡ size → (d : ShownDevice) × IsFirst (λ e. ¬ (AreAlike e f)) (map (λ d. shown (device_content d) (device_block d) (device_size d) (device_faults d)) devices.now) r d) }
    ensures none { IfNone result ((f : ShownDevice) → f.block ≡ block → f.size ≡ size → All (λ e. AreAlike e f) (map (λ d. shown (device_content d) (device_block d) (device_size d) (device_faults d)) devices.now)) }
{
    for number in 0..devices.len() {
        if !is_like(devices, number, block, size) {
            return Some(number);
        }
    }
    None
}

/// Why devices are refused that were handed in, by the first of these that holds: there is none; there are too many;
/// one has a block that it may not have; one has a size that it may not have; one is not like the first.
pub fn refused(devices: &[Box<dyn Device>]) -> Option<Refusal>
    ensures some { IfSome result (AreRefused (map (λ d. shown (device_content d) (device_block d) (device_size d) (device_faults d)) devices.now)) }
    ensures none { IfNone result (IsFit (map (λ d. shown (device_content d) (device_block d) (device_size d) (device_faults d)) devices.now)) }
{
    if devices.is_empty() {
        return Some(Refusal::Missing);
    }
    if devices.len() > MAX_DEVICES {
        return Some(Refusal::Many(devices.len()));
    }
    if let Some((number, block)) = strange_block(devices) {
        return Some(Refusal::Block(number, block));
    }
    if let Some((number, size)) = strange_size(devices) {
        return Some(Refusal::Size(number, size));
    }
    match other_device(devices, first_block(devices), first_size(devices)) {
        Some(number) => Some(Refusal::Differs(number)),
        None => None,
    }
}
