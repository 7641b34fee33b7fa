//! The extents of a plan by place, and those of them that a range meets.
ghost use Rattle.std.specs.Prelude.{◌≡◌, ℕ, ◌<◌, ◌≤◌, ◌+◌, AllPairs, All, IfOk, length, slice_index};
ghost use Rattle.std.specs.List.{range_with_len};
ghost use Rattle.aff_model.specs.declared.limits.TheConstants as limits;
ghost use Rattle.aff_model.specs.Index.{HasBytes, IsIndex, end_of as end_at, start_of as start_at};
ghost use Rattle.aff_model.specs.Plan.{AreApart};

use aff_model::Extent;
use std::alloc::{AllocError, Global};

/// The numbers of extents, by their first bytes.
pub fn index_of(alloc: Global, extents: &[Extent]) -> Result<Vec<u32>, AllocError>
    requires { length extents.now ≤ limits.MAX_EXTENTS }
    ensures { IfOk result (λ v. IsIndex extents.now v.items) }
{
    let mut index = numbers_below(alloc, extents.len() as u32)?;
    index.sort_unstable_by_key(|number| start_of(extents, *number));
    Ok(index)
}

fn numbers_below(alloc: Global, count: u32) -> Result<Vec<u32>, AllocError>
    ensures { IfOk result (λ v. v.items ≡ range_with_len 0 count) }
{
    let mut numbers = Vec::with_capacity(alloc, count as usize)?;
    for number in 0..count {
        numbers.push(number)?;
    }
    Ok(numbers)
}

/// The place in the index of the first extent that ends behind an offset.
pub fn first_behind(extents: &[Extent], index: &[u32], at: u64) -> usize
    requires bytes { All HasBytes extents.now }
    requires apart { AllPairs AreApart extents.now }
    requires sorted { IsIndex extents.now index.now }
    ensures inside { result ≤ length index.now }
    ensures before { (k : ℕ) → k < result → end_at extents.now (slice_index index.now k) ≤ at }
    ensures behind { (k : ℕ) → result ≤ k → k < length index.now → at < end_at extents.now (slice_index index.now k) }
{
    index.partition_point(|number| end_of(extents, *number) <= at)
}

/// The first byte of an extent.
pub fn start_of(extents: &[Extent], number: u32) -> u64
    ensures { result ≡ start_at extents.now number }
{
    match extents.get(number as usize) {
        Some(extent) => extent.at,
        None => 0,
    }
}

fn end_of(extents: &[Extent], number: u32) -> u64
    requires { All HasBytes extents.now }
    ensures { result ≡ end_at extents.now number }
{
    match extents.get(number as usize) {
        Some(extent) => extent.at + extent.len,
        None => 0,
    }
}
