//! An extent that is read.
ghost use Rattle.std.specs.Prelude.{◌≡◌, ◌+◌, ◌/◌, ◌%◌, ◌≤◌, ◌<◌, [], All, length, IfOk, OnOk, vec_capacity};
ghost use Rattle.aff_model.specs.Content.{IsBlock};
ghost use Rattle.aff_model.specs.Legal.{blocks_in};
ghost use Rattle.aff_model.specs.Plan.{IsExtent};
ghost use Rattle.aff_outside.specs.Kept.{IsSameDevice};
ghost use Rattle.aff_device.specs.Around.{RoseBy};
ghost use Rattle.aff_chunk.specs.Cut.{AreCuts};
ghost use Rattle.aff_hash.specs.Chosen.{chosen_sums};
ghost use Rattle.aff_extent.specs.Drafts.{IsDraft, IsReadAround, stored_from};

use crate::Draft;
use crate::chosen::stored_numbers;
use aff_chunk::cut;
use aff_device::{read_extent, reserve_bad};
use aff_hash::sums_of_chosen;
use aff_model::{Extent, MAX_EXTENT, Memory, SECTOR};
use aff_outside::Device;
use std::alloc::Global;
use std::marker::Model;

/// Reads extents one after another, and keeps the bytes of the one that was read last. Clauses see these bytes.
#[derive(Drop)]
pub struct ExtentReader {
    alloc: Global,
    bytes: Vec<u8>,
    unreadable: Vec<u32>,
}

impl Model for ExtentReader {
    ghost use Rattle.std.specs.Prelude.{ℕ, List};

    ghost Value = { List ℕ };

    ghost view = { λ r. r.bytes.items };
}

impl ExtentReader {
    /// Takes the room for the longest of the extents, so that no later reading needs more.
    pub fn new(alloc: Global, extents: &[Extent]) -> Result<ExtentReader, Memory>
        requires short { All (λ e. e.len ≤ MAX_EXTENT) extents.now }
        ensures { IfOk result (λ r. r ≡ []) }
    {
        let longest = longest(extents);
        let bytes = room(alloc, longest as usize)?;
        let mut unreadable = Vec::new(alloc);
        reserve_bad(&mut unreadable, (longest / SECTOR) as u32)?;
        Ok(ExtentReader {
            alloc,
            bytes,
            unreadable,
        })
    }

    /// The bytes of the extent that was read last, 0 in each sector that could not be.
    pub fn bytes(&self) -> &[u8]
        ensures { result.now ≡ self.now }
    {
        &self.bytes
    }

    /// Reads an extent around the sectors that cannot be read, cuts it, and takes the digests of the chunks that are
    /// to be stored. The device's count of faults rises by one at least for each block of unreadable sectors.
    pub fn read(&mut self, device: &mut dyn Device, extent: &Extent) -> Result<Draft, Memory>
        requires planned { IsExtent (device_size device.old) (device_block device.old) extent.now }
        requires block { IsBlock (device_block device.old) }
        ensures draft { IfOk result (λ d. IsDraft (device_content device.old) (device_block device.old) extent.now self.new d) }
        ensures faults { IfOk result (λ d. RoseBy (blocks_in (device_block device.old) d.unreadable) (device_faults device.old) (device_faults device.new)) }
        ensures kept { IsSameDevice (λ d. device_content d) (λ d. device_block d) (λ d. device_size d) (λ d. device_faults d) device.old device.new }
    {
        read_around(device, extent, &mut self.bytes, &mut self.unreadable)?;
        draft_of(self.alloc, &self.bytes, &self.unreadable)
    }
}

fn room(alloc: Global, count: usize) -> Result<Vec<u8>, Memory>
    ensures { IfOk result (λ bytes. bytes.items ≡ []) }
{
    Vec::with_capacity(alloc, count).map_err(|_| Memory)
}

// The length of the longest extent.
fn longest(extents: &[Extent]) -> u64
    requires { All (λ e. e.len ≤ MAX_EXTENT) extents.now }
    ensures most { All (λ e. e.len ≤ result) extents.now }
    ensures short { result ≤ MAX_EXTENT }
{
    let mut most = 0;
    for extent in extents {
        most = most.max(extent.len);
    }
    most
}

// Makes the bytes as many as an extent has, and room for the numbers of its sectors.
fn make_room(bytes: &mut Vec<u8>, unreadable: &mut Vec<u32>, len: u64) -> Result<(), Memory>
    requires { len ≤ MAX_EXTENT }
    ensures long { OnOk result (length bytes.new.items ≡ len) }
    ensures room { OnOk result (len / SECTOR ≤ vec_capacity unreadable.new) }
    ensures none { OnOk result (unreadable.new.items ≡ []) }
{
    unreadable.clear();
    reserve_bad(unreadable, (len / SECTOR) as u32)?;
    bytes.resize(len as usize, 0).map_err(|_| Memory)
}

// Reads an extent around the sectors that cannot be read, whose numbers are kept.
fn read_around(
    device: &mut dyn Device,
    extent: &Extent,
    bytes: &mut Vec<u8>,
    unreadable: &mut Vec<u32>,
) -> Result<(), Memory>
    requires planned { IsExtent (device_size device.old) (device_block device.old) extent.now }
    requires block { IsBlock (device_block device.old) }
    ensures read { OnOk result (IsReadAround (device_content device.old) (device_block device.old) extent.now bytes.new.items unreadable.new.items) }
    ensures faults { OnOk result (RoseBy (blocks_in (device_block device.old) unreadable.new.items) (device_faults device.old) (device_faults device.new)) }
    ensures kept { IsSameDevice (λ d. device_content d) (λ d. device_block d) (λ d. device_size d) (λ d. device_faults d) device.old device.new }
{
    make_room(bytes, unreadable, extent.len)?;
    read_extent(device, extent.at, bytes.as_mut_slice(), unreadable);
    Ok(())
}

// What is known of an extent with these bytes and unreadable sectors.
fn draft_of(alloc: Global, bytes: &[u8], unreadable: &[u32]) -> Result<Draft, Memory>
    requires { length bytes.now % SECTOR ≡ 0 }
    ensures unreadable { IfOk result (λ d. d.unreadable ≡ unreadable.now) }
    ensures cut { IfOk result (λ d. AreCuts bytes.now unreadable.now d.cuts) }
    ensures chosen { IfOk result (λ d. d.stored ≡ stored_from 0 d.cuts) }
    ensures digests { IfOk result (λ d. d.sums ≡ chosen_sums bytes.now d.stored) }
{
    let cuts = cut(alloc, bytes, unreadable)?;
    let stored = stored_numbers(alloc, &cuts)?;
    let sums = sums_of_chosen(alloc, bytes, &stored)?;
    let unreadable = copied(alloc, unreadable)?;
    Ok(Draft {
        unreadable,
        cuts,
        stored,
        sums,
    })
}

fn copied(alloc: Global, numbers: &[u32]) -> Result<Vec<u32>, Memory>
    ensures { IfOk result (λ copy. copy.items ≡ numbers.now) }
{
    Vec::from_slice(alloc, numbers).map_err(|_| Memory)
}
