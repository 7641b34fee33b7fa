//! The runs of one extent.
ghost use Rattle.std.specs.Prelude.{◌≡◌, ℕ, ◌+◌, ◌-◌, ◌*◌, ◌/◌, ◌%◌, ◌^◌, ◌<◌, ◌≤◌, ◌==◌, ◌↔◌, IsTrue, OnOk, Some, All, Contains, min, length, if◌then◌else◌};
ghost use Rattle.aff_model.specs.declared.publication.Place.TheVariants.{Nothing};
ghost use Rattle.std.specs.List.{list_any};
ghost use Rattle.std.specs.List.Sorted.{IsStrictlyIncreasing};
ghost use Rattle.aff_model.specs.Plan.{chunk_count};
ghost use Rattle.aff_fields.specs.Entry.{FitsEntry};
ghost use Rattle.aff_spec.specs.Runs.{place_spot, spot_in};
ghost use Rattle.aff_map.specs.Building.{Adds, extent_spot, sector_spot};
ghost use Rattle.aff_map.specs.Mappable.{IsNumbered};

use crate::run::push_run;
use aff_fields::Entry;
use aff_model::{Extent, MAX_EXTENT, Place};
use std::alloc::AllocError;

// Adds the runs of an extent, chunk by chunk.
pub(crate) fn push_extent(
    entries: &mut Vec<Entry>,
    extent: Extent,
    bad: &[u32],
    places: &[Place],
) -> Result<(), AllocError>
    requires whole { (extent.at % 512 ≡ 0) × (extent.len % 512 ≡ 0) }
    requires short { extent.len ≤ MAX_EXTENT }
    requires fits { extent.at + extent.len < 2 ^ 64 }
    requires rising { IsStrictlyIncreasing bad.now }
    requires count { length places.now ≡ chunk_count extent.len }
    requires numbered { All IsNumbered places.now }
    ensures { OnOk result (Adds extent.at (extent.at + extent.len) (extent_spot extent bad.now places.now) entries.old.items entries.new.items) }
{
    let sectors = (extent.len / 512) as u32;
    for (j, place) in places.iter().enumerate() {
        let first = 64 * j as u32;
        let last = sectors.min(first + 64);
        push_chunk(entries, extent, bad, *place, first, last)?;
    }
    Ok(())
}

// Adds the runs of sectors of one chunk: one run where none of them is unreadable, else sector by sector.
fn push_chunk(
    entries: &mut Vec<Entry>,
    extent: Extent,
    bad: &[u32],
    place: Place,
    first: u32,
    last: u32,
) -> Result<(), AllocError>
    requires whole { extent.at % 512 ≡ 0 }
    requires fits { extent.at + extent.len < 2 ^ 64 }
    requires rising { IsStrictlyIncreasing bad.now }
    requires numbered { IsNumbered place }
    requires some { first < last }
    requires inside { 512 * last ≤ extent.len }
    requires of_a_chunk { last ≤ first / 64 * 64 + 64 }
    ensures { OnOk result (Adds (extent.at + 512 * first) (extent.at + 512 * last) (sector_spot extent bad.now (Some place)) entries.old.items entries.new.items) }
{
    if is_clean(bad, first, last) {
        push_run(entries, run_of(extent, place, first, last))
    } else {
        push_sectors(entries, extent, bad, place, first, last)
    }
}

// Adds the runs of sectors of one chunk, sector by sector.
fn push_sectors(
    entries: &mut Vec<Entry>,
    extent: Extent,
    bad: &[u32],
    place: Place,
    first: u32,
    last: u32,
) -> Result<(), AllocError>
    requires whole { extent.at % 512 ≡ 0 }
    requires fits { extent.at + extent.len < 2 ^ 64 }
    requires rising { IsStrictlyIncreasing bad.now }
    requires numbered { IsNumbered place }
    requires some { first < last }
    requires inside { 512 * last ≤ extent.len }
    requires of_a_chunk { last ≤ first / 64 * 64 + 64 }
    ensures { OnOk result (Adds (extent.at + 512 * first) (extent.at + 512 * last) (sector_spot extent bad.now (Some place)) entries.old.items entries.new.items) }
{
    for sector in first..last {
        let kept = kept(bad, sector, place);
        push_run(entries, run_of(extent, kept, sector, sector + 1))?;
    }
    Ok(())
}

// Where a sector of a chunk is kept.
fn kept(bad: &[u32], sector: u32, place: Place) -> Place
    requires rising { IsStrictlyIncreasing bad.now }
    requires numbered { IsNumbered place }
    ensures value { result ≡ (if list_any (λ s. s == sector) bad.now then Nothing else place) }
    ensures numbered { IsNumbered result }
{
    if is_bad(bad, sector) {
        Place::Nothing
    } else {
        place
    }
}

// The run of sectors of one chunk that are all kept alike.
fn run_of(extent: Extent, place: Place, first: u32, last: u32) -> Entry
    requires fits { extent.at + extent.len < 2 ^ 64 }
    requires numbered { IsNumbered place }
    requires some { first < last }
    requires inside { 512 * last ≤ extent.len }
    requires of_a_chunk { last ≤ first / 64 * 64 + 64 }
    ensures fits { FitsEntry result }
    ensures at { result.at ≡ extent.at + 512 * first }
    ensures end { result.at + result.len ≡ extent.at + 512 * last }
    ensures spots { (i : ℕ) → result.at ≤ i → i < result.at + result.len → place_spot (Some place) extent i ≡ Some (spot_in i result) }
{
    let at = extent.at + 512 * u64::from(first);
    let len = 512 * u64::from(last - first);
    let (target, target_at) = match place {
        Place::Chunk(chunk) => (0, 32_768 * chunk + 512 * u64::from(first % 64)),
        Place::Zero => (1, at),
        Place::Nothing => (2, at),
    };
    Entry {
        at,
        len,
        target_at,
        target,
    }
}

// Whether a sector is unreadable.
fn is_bad(bad: &[u32], sector: u32) -> bool
    requires { IsStrictlyIncreasing bad.now }
    ensures { result ≡ list_any (λ s. s == sector) bad.now }
{
    bad.binary_search(&sector).is_ok()
}

// Whether no sector of a range is unreadable.
fn is_clean(bad: &[u32], first: u32, last: u32) -> bool
    requires rising { IsStrictlyIncreasing bad.now }
    requires some { first < last }
    ensures { IsTrue result ↔ ((s : ℕ) → first ≤ s → s < last → ¬ (Contains bad.now s)) }
{
    match bad.binary_search(&first) {
        Ok(_) => false,
        Err(next) => next == bad.len() || last <= bad[next],
    }
}
