//! The order in which a plan's extents are wanted.
ghost use Rattle.std.specs.Prelude.{◌≡◌, ℕ, IfOk, length};
ghost use Rattle.std.specs.List.{range_with_len};
ghost use Rattle.aff_model.specs.Plan.{IsPlan};
ghost use Rattle.aff_plan.specs.Order.{IsOrderOf, rank_of};

use aff_model::{Extent, Memory, Plan};
use std::alloc::{AllocError, Global};
use std::cmp::Reverse;

/// The numbers of a plan's extents, by falling priority and then by rising place.
pub fn order(alloc: Global, plan: &Plan) -> Result<Vec<u32>, Memory>
    ensures { IfOk result (λ order. IsOrderOf plan.now.extents order.items) }
{
    sorted(alloc, plan.extents()).map_err(|_| Memory)
}

fn sorted(alloc: Global, extents: &[Extent]) -> Result<Vec<u32>, AllocError>
    requires { (size : ℕ) × (block : ℕ) × IsPlan size block extents.now }
    ensures { IfOk result (λ order. IsOrderOf extents.now order.items) }
{
    let mut order = numbers_below(alloc, extents.len() as u32)?;
    order.sort_unstable_by_key(|number| rank(extents, *number));
    Ok(order)
}

fn numbers_below(alloc: Global, count: u32) -> Result<Vec<u32>, AllocError>
    ensures { IfOk result (λ numbers. numbers.items ≡ range_with_len 0 count) }
{
    let mut numbers = Vec::with_capacity(alloc, count as usize)?;
    for number in 0..count {
        numbers.push(number)?;
    }
    Ok(numbers)
}

// What an extent is sorted by.
fn rank(extents: &[Extent], number: u32) -> (Reverse<u8>, u64)
    ensures { result ≡ rank_of extents.now number }
{
    match extents.get(number as usize) {
        Some(extent) => (Reverse(extent.priority), extent.at),
        None => (Reverse(0), 0),
    }
}
