//! Reading a plan.
ghost use Rattle.std.specs.Prelude.{◌≡◌, ◌≢◌, ◌⊎◌, ℕ, List, IfOk, IfErr, IsOk, slice_index};
ghost use Rattle.aff_model.specs.Content.{IsBlock};
ghost use Rattle.aff_model.specs.Faults.{IsFirstFault};
ghost use Rattle.aff_model.specs.Plan.{IsPlan};
ghost use Rattle.aff_model.specs.declared.extent.Extent.{Extent};
ghost use Rattle.aff_spec.specs.PlanText.{plan_text};
ghost use Rattle.aff_plan.specs.Reading.{IsReading};
ghost use Rattle.aff_plan.specs.Refused.{AreRefused, IsPlanRefused, IsTextOf};
ghost use Rattle.aff_plan.specs.Text.{NumberedLine};

use crate::error::PlanError;
use crate::lines::Lines;
use aff_model::{MAX_EXTENTS, Plan, PlanFault};
use std::alloc::Global;

/// Reads the plan of a text, for a device of this size and block in bytes. The lines are looked at from the first on,
/// up to the one with which a script begins; overlaps are looked for after that.
pub fn read_plan(alloc: Global, text: &[u8], size: u64, block: u32) -> Result<Plan, PlanError>
    requires block { IsBlock block }
    ensures plan { IfOk result (λ p. IsTextOf size block text.now p.extents × (p.size ≡ size) × (p.block ≡ block)) }
    ensures refused { IfErr result (λ e. e ≢ PlanError.Memory → IsPlanRefused size block text.now e) }

    // Want of memory aside, each text of a plan is taken, a written one too, and each refusal is told.
    ensures taken { (extents : List Extent) → IsTextOf size block text.now extents
        → IfOk result (λ p. p.extents ≡ extents) × (IsOk result ⊎ (result ≡ Err PlanError.Memory)) }
    ensures written { (extents : List Extent) → IsPlan size block extents → text.now ≡ plan_text extents
        → IfOk result (λ p. p.extents ≡ extents) × (IsOk result ⊎ (result ≡ Err PlanError.Memory)) }
    ensures told { (e : PlanError) → IsPlanRefused size block text.now e → (result ≡ Err e) ⊎ (result ≡ Err PlanError.Memory) }
{
    let mut lines = Lines::new(alloc);
    let stop = lines.read(text)?;
    let Lines { extents, numbers } = lines;
    match Plan::of(alloc, extents, size, block) {
        Ok(plan) => match stop {
            Some(error) => Err(error),
            None => Ok(plan),
        },
        Err(fault) => Err(refusal(fault, &numbers, stop)),
    }
}

// The refusal of a list of extents whose lines have these numbers. A line that could not be read goes before an overlap.
fn refusal(fault: PlanFault, numbers: &[u64], stop: Option<PlanError>) -> PlanError
    ensures memory { fault ≡ PlanFault.Memory → result ≡ PlanError.Memory }
    ensures refused { (size block : ℕ) (lines : List NumberedLine) (kept : List Extent) → IsReading lines numbers.now kept stop
        → IsFirstFault size block kept fault → AreRefused size block lines result }
{
    match fault {
        PlanFault::Sector(extent) => PlanError::Sector(number_of(numbers, extent as usize)),
        PlanFault::TooLong(extent) => PlanError::TooLong(number_of(numbers, extent as usize)),
        PlanFault::TooMany => PlanError::TooMany(number_of(numbers, MAX_EXTENTS)),
        PlanFault::PastEnd(extent) => PlanError::PastEnd(number_of(numbers, extent as usize)),
        PlanFault::Priority(extent) => PlanError::Priority(number_of(numbers, extent as usize)),
        PlanFault::Total(extent) => PlanError::Total(number_of(numbers, extent as usize)),
        PlanFault::Overlap(later, earlier) => match stop {
            Some(error) => error,
            None => PlanError::Overlap(
                number_of(numbers, later as usize),
                number_of(numbers, earlier as usize),
            ),
        },
        PlanFault::Memory => PlanError::Memory,
    }
}

// The number of the line of an extent.
fn number_of(numbers: &[u64], extent: usize) -> u64
    ensures { result ≡ slice_index numbers.now extent }
{
    match numbers.get(extent) {
        Some(number) => *number,
        None => 0,
    }
}
