//! A map that was opened.
ghost use Rattle.std.specs.Prelude.{◌≡◌, ◌≢◌, ℕ, ◌+◌, ◌-◌, ◌%◌, ◌^◌, ◌<◌, ◌≤◌, ◌⊎◌, nat_lt, min, length, find, IfOk, IfErr, OnOk, IsOkUnless, if◌then◌else◌};
ghost use Rattle.aff_fields.specs.Entry.{entries_of};
ghost use Rattle.aff_spec.specs.Runs.{covers, lookup};
ghost use Rattle.aff_map.specs.Targets.{targets_of};
ghost use Rattle.aff_map.specs.Mapped.{IsSound};
ghost use Rattle.aff_map.specs.Refusals.{IsMapFault, fault_of};
ghost use Rattle.aff_map.specs.Finding.{EndsAt, GoesOn, IsGapEnd, LeadsTo, ReachesInto};

use crate::entry::{check_entries, numbered_target};
use crate::idx::read_targets;
use crate::overlap::first_overlap;
use crate::{MapError, Target};
use aff_fields::{Entry, FieldsError, read_entries};
use aff_names::Urn;
use std::alloc::Global;
use std::marker::Model;

/// Where a byte of an image comes from: a target, the place in it, and how many bytes from there on lie one after
/// another in the image too.
#[derive(Clone, Copy, Debug, PartialEq, Eq)]
pub struct Spot {
    pub target: Target,
    pub target_at: u64,
    pub len: u64,
}

/// The map of an image: where each of its bytes comes from.
#[derive(Drop)]
pub struct Map {
    entries: Vec<Entry>,
    targets: Vec<Target>,
    size: u64,
    stream_size: u64,
    gap: Target,
}

impl Model for Map {
    ghost use Rattle.aff_map.specs.Mapped.{IsMap, Mapped};

    ghost Value = { Mapped };

    ghost view = { λ m. record { entries = m.entries.items; targets = m.targets.items; size = m.size; stream_size = m.stream_size; gap = m.gap } };

    ghost invariant = { λ m. IsMap (record { entries = m.entries.items; targets = m.targets.items; size = m.size; stream_size = m.stream_size; gap = m.gap }) };
}

impl Map {
    /// Reads the map of an image of `size` bytes and the list of its targets. `stream` is the image's stream of
    /// `stream_size` bytes, and `gap` what the image has where no entry is. The entries may stand in any order, and
    /// the last line needs no line feed.
    ///
    /// The first refusal decides: the map's length, then the lines, then the entries one by one, each first by its
    /// length, then its end, its target and its end in the target, and last two entries that share a byte.
    pub fn open(
        alloc: Global,
        map: &[u8],
        idx: &[u8],
        size: u64,
        stream: &Urn,
        stream_size: u64,
        gap: Target,
    ) -> Result<Map, MapError>
        ensures map { IfOk result (λ m. m ≡ record { entries = entries_of map.now; targets = targets_of stream.now idx.now; size = size; stream_size = stream_size; gap = gap }) }
        ensures sound { OnOk result (IsSound map.now idx.now size stream.now stream_size) }
        ensures refused { IfErr result (λ e. e ≢ MapError.Memory → IsMapFault map.now idx.now size stream.now stream_size e) }

        // Want of memory aside, each sound map is opened and each refusal is told.
        ensures taken { IsSound map.now idx.now size stream.now stream_size → IsOkUnless result MapError.Memory }
        ensures told { (e : MapError) → IsMapFault map.now idx.now size stream.now stream_size e → (result ≡ Err e) ⊎ (result ≡ Err MapError.Memory) }
    {
        read(alloc, map, idx, size, stream, stream_size, gap)
    }

    /// Where the byte at a place of the image comes from. It looks at the entries one after another.
    pub fn find(&self, at: u64) -> Spot
        requires { at < self.now.size }
        ensures leads { LeadsTo self.now at (lookup self.now.entries at) result }
        ensures ends { EndsAt self.now at (find (covers at) self.now.entries) (at + result.len) }

        // The run has the byte itself, stays in the image and in its target, and goes on byte by byte.
        ensures some { 0 < result.len }
        ensures inside { at + result.len ≤ self.now.size }
        ensures reaches { ReachesInto self.now (lookup self.now.entries at) result }
        ensures goes_on { GoesOn self.now.entries at result.len }
    {
        // The end of an entry in its target is a number of 64 bits, as the stream's size is.
        let _stream_size = self.stream_size;
        match covering(&self.entries, at) {
            Some(entry) => spot_in(entry, at, numbered_target(&self.targets, entry.target)),
            None => spot_of_gap(self.gap, at, gap_end(&self.entries, at, self.size)),
        }
    }
}

// Reads a map.
fn read(
    alloc: Global,
    map: &[u8],
    idx: &[u8],
    size: u64,
    stream: &Urn,
    stream_size: u64,
    gap: Target,
) -> Result<Map, MapError>
    ensures map { IfOk result (λ m. m ≡ record { entries = entries_of map.now; targets = targets_of stream.now idx.now; size = size; stream_size = stream_size; gap = gap }) }
    ensures sound { OnOk result (IsSound map.now idx.now size stream.now stream_size) }
    ensures refused { IfErr result (λ e. e ≢ MapError.Memory → IsMapFault map.now idx.now size stream.now stream_size e) }
{
    let entries = match whole_entries(alloc, map) {
        Ok(entries) => entries,
        Err(fault) => return Err(fault),
    };
    let targets = match read_targets(alloc, idx, stream) {
        Ok(targets) => targets,
        Err(fault) => return Err(fault),
    };
    if let Err(fault) = check_entries(&entries, &targets, size, stream_size) {
        return Err(fault);
    }
    if let Some((earlier, later)) = first_overlap(alloc, &entries)? {
        return Err(MapError::Overlap(earlier as u64, later as u64));
    }
    Ok(Map {
        entries,
        targets,
        size,
        stream_size,
        gap,
    })
}

// The entries of a map, where its length is that of whole ones.
fn whole_entries(alloc: Global, map: &[u8]) -> Result<Vec<Entry>, MapError>
    ensures entries { IfOk result (λ v. v.items ≡ entries_of map.now) }
    ensures whole { OnOk result (length map.now % 28 ≡ 0) }
    ensures refused { IfErr result (λ e. e ≢ MapError.Memory → (length map.now % 28 ≢ 0) × (e ≡ MapError.Ragged (length map.now))) }
{
    match read_entries(alloc, map) {
        Ok(entries) => Ok(entries),
        Err(fault) => Err(fault_of(fault)),
    }
}

// The same refusal, of a map.
fn fault_of(fault: FieldsError) -> MapError
    ensures { result ≡ fault_of fault }
{
    match fault {
        FieldsError::Ragged(len) => MapError::Ragged(len),
        FieldsError::Memory => MapError::Memory,
    }
}

// The first entry that covers a place of the image.
fn covering(entries: &[Entry], at: u64) -> Option<Entry>
    ensures { result ≡ find (covers at) entries.now }
{
    entries.iter().find(|entry| covers(entry, at)).copied()
}

// Whether an entry covers a place of the image.
fn covers(entry: &Entry, at: u64) -> bool
    ensures { result ≡ covers at entry.now }
{
    entry.at <= at && at - entry.at < entry.len
}

// Where an entry leads from a place that it covers.
fn spot_in(entry: Entry, at: u64, target: Target) -> Spot
    requires from { entry.at ≤ at }
    requires to { at < entry.at + entry.len }
    requires fits { entry.target_at + entry.len ≤ 2 ^ 64 }
    ensures target { result.target ≡ target }
    ensures place { result.target_at ≡ entry.target_at + (at - entry.at) }
    ensures end { at + result.len ≡ entry.at + entry.len }
{
    let passed = at - entry.at;
    Spot {
        target,
        target_at: entry.target_at + passed,
        len: entry.len - passed,
    }
}

// Where a gap leads from a place of it.
fn spot_of_gap(gap: Target, at: u64, end: u64) -> Spot
    requires { at < end }
    ensures target { result.target ≡ gap }
    ensures place { result.target_at ≡ at }
    ensures end { at + result.len ≡ end }
{
    Spot {
        target: gap,
        target_at: at,
        len: end - at,
    }
}

// Where the next entry behind a place begins, or the image ends.
fn gap_end(entries: &[Entry], at: u64, size: u64) -> u64
    requires { at < size }
    ensures { IsGapEnd entries.now size at result }
{
    let mut end = size;
    for entry in entries {
        end = nearer(entry, at, end);
    }
    end
}

// The nearer of two ends behind a place: where an entry begins, if it is behind the place, and another.
fn nearer(entry: &Entry, at: u64, end: u64) -> u64
    ensures { result ≡ (if nat_lt at entry.now.at then min end entry.now.at else end) }
{
    if at < entry.at {
        end.min(entry.at)
    } else {
        end
    }
}

#[cfg(test)]
mod tests;
