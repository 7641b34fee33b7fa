//! A whole extent.
ghost use Rattle.std.specs.Prelude.{◌≡◌, ℕ, ◌+◌, ◌/◌, ◌%◌, ◌^◌, ◌<◌, ◌≤◌, [], length, All, IfSome, OnOk, OnErr, vec_len, vec_capacity};
ghost use Rattle.aff_model.specs.Content.{IsBlock};
ghost use Rattle.aff_model.specs.Legal.{Fits, blocks_in};
ghost use Rattle.aff_outside.specs.Kept.{IsSameDevice};
ghost use Rattle.aff_outside.specs.Seen.{IsZeroSector};
ghost use Rattle.aff_device.specs.Around.{IsKnown, RoseBy};

use crate::part::read_part;
use aff_model::{Memory, SECTOR};
use aff_outside::Device;

/// Makes room in `bad` for the numbers of so many sectors more. Where there is that room, it cannot fail.
pub fn reserve_bad(bad: &mut Vec<u32>, sectors: u32) -> Result<(), Memory>
    ensures same { bad.new.items ≡ bad.old.items }
    ensures room { OnOk result (vec_len bad.old + sectors ≤ vec_capacity bad.new) }
    ensures missing { OnErr result (vec_capacity bad.old < vec_len bad.old + sectors) }
{
    bad.reserve(sectors as usize).map_err(|_| Memory)
}

/// Reads an extent from its first byte `at` on, as long as `buf`. What cannot be read at once is read in
/// two parts, the first half of the blocks, rounded down, before the rest. The sectors of a single block that
/// cannot be read go to `bad` by their numbers in the extent, and have bytes of 0.
pub fn read_extent(device: &mut dyn Device, at: u64, buf: &mut [u8], bad: &mut Vec<u32>)
    requires empty { bad.old.items ≡ [] }
    requires room { length buf.old / SECTOR ≤ vec_capacity bad.old }
    requires block { IsBlock (device_block device.old) }
    requires whole { at % device_block device.old ≡ 0 }
    requires whole_len { length buf.old % device_block device.old ≡ 0 }
    requires few { length buf.old / SECTOR ≤ 2 ^ 32 }
    requires inside { at + length buf.old ≤ device_size device.old }
    ensures fits { (priority : ℕ) → Fits (device_content device.old) (device_block device.old) (record { at = at; len = length buf.old; priority = priority }) bad.new.items }
    ensures known { IfSome (device_content device.old) (λ c. IsKnown c at buf.new bad.new.items) }
    ensures zero { All (IsZeroSector buf.new) bad.new.items }
    ensures room { vec_capacity bad.new ≡ vec_capacity bad.old }

    // The device's count shows a failed reading for each block of unreadable sectors.
    ensures faults { RoseBy (blocks_in (device_block device.old) bad.new.items) (device_faults device.old) (device_faults device.new) }
    ensures kept { IsSameDevice (λ d. device_content d) (λ d. device_block d) (λ d. device_size d) (λ d. device_faults d) device.old device.new }
{
    // The size is a `u64`, and so is the end of each part.
    let _size = device.size();
    let block = device.block();
    read_part(device, block, at, 0, buf, bad);
}
