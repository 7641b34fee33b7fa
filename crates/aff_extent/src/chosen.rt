//! Which chunks are to be stored.
ghost use Rattle.std.specs.Prelude.{◌≡◌, ◌+◌, ◌++◌, IfOk, OnOk};
ghost use Rattle.aff_extent.specs.Drafts.{stored_from, stores};

use aff_chunk::Cut;
use aff_model::Memory;
use std::alloc::{AllocError, Global};

// The numbers of the chunks that are to be stored, in their order.
pub(crate) fn stored_numbers(alloc: Global, cuts: &[Cut]) -> Result<Vec<usize>, Memory>
    ensures { IfOk result (λ numbers. numbers.items ≡ stored_from 0 cuts.now) }
{
    numbers(alloc, cuts).map_err(|_| Memory)
}

fn numbers(alloc: Global, cuts: &[Cut]) -> Result<Vec<usize>, AllocError>
    ensures { IfOk result (λ numbers. numbers.items ≡ stored_from 0 cuts.now) }
{
    let mut numbers = Vec::with_capacity(alloc, cuts.len())?;
    for (number, cut) in cuts.iter().enumerate() {
        if is_stored(*cut) {
            numbers.push(number)?;
        }
    }
    Ok(numbers)
}

fn is_stored(cut: Cut) -> bool
    ensures { result ≡ stores cut }
{
    matches!(cut, Cut::Stored)
}
