//! The runs of a map.
ghost use Rattle.std.specs.Prelude.{◌≡◌, ◌+◌, ◌-◌, ◌^◌, ◌<◌, ◌↔◌, IsTrue, OnOk, Some, length, slice_index_or};
ghost use Rattle.std.specs.Bool.{OnFalse, OnTrue};
ghost use Rattle.aff_fields.specs.Entry.{FitsEntry};
ghost use Rattle.aff_spec.specs.Runs.{AreJoined, spot_in};
ghost use Rattle.aff_map.specs.Building.{Adds};

use aff_fields::Entry;
use std::alloc::AllocError;

// Adds a run at the end of a map. It makes the last entry longer where the two are one run.
pub(crate) fn push_run(entries: &mut Vec<Entry>, run: Entry) -> Result<(), AllocError>
    requires some { 0 < run.len }
    requires end { run.at + run.len < 2 ^ 64 }
    requires fits { FitsEntry run }
    ensures { OnOk result (Adds run.at (run.at + run.len) (λ i. Some (spot_in i run)) entries.old.items entries.new.items) }
{
    if goes_on(entries, &run) {
        let last = entries.len() - 1;
        entries[last].len += run.len;
        return Ok(());
    }
    entries.push(run)?;
    Ok(())
}

// Whether the run goes on where the last entry ends.
fn goes_on(entries: &[Entry], run: &Entry) -> bool
    ensures joined { OnTrue result ((0 < length entries.now) × ((d : Entry) → AreJoined (slice_index_or entries.now (length entries.now - 1) d) run.now)) }
    ensures split { OnFalse result ((d : Entry) → 0 < length entries.now → ¬ (AreJoined (slice_index_or entries.now (length entries.now - 1) d) run.now)) }
{
    match entries.last() {
        Some(last) => joins(last, run),
        None => false,
    }
}

// Whether the run goes on where the other ends, in the image and in the target.
fn joins(last: &Entry, run: &Entry) -> bool
    ensures { IsTrue result ↔ AreJoined last.now run.now }
{
    let Entry {
        at,
        len,
        target_at,
        target,
    } = *last;
    run.target == target
        && run.at.checked_sub(at) == Some(len)
        && run.target_at.checked_sub(target_at) == Some(len)
}
