//! Extents by falling priority.
ghost use Rattle.std.specs.Prelude.{◌≡◌, ◌<◌, ◌≤◌, IfOk, IsTrue, length, map, slice_index};
ghost use Rattle.std.specs.List.{range_with_len};
ghost use Rattle.aff_claim.specs.Ranking.{IsRanking};

use aff_model::{Extent, Plan};
use std::alloc::{AllocError, Global};
use std::marker::Model;

/// The priorities of a plan's extents, and their numbers by falling priority, then by rising place.
#[derive(Drop)]
pub(crate) struct Ranking {
    priorities: Vec<u8>,
    falling: Vec<u32>,
}

impl Model for Ranking {
    ghost use Rattle.aff_claim.specs.Ranking.{IsRanking, Ranked};

    ghost Value = { Ranked };

    ghost view = { λ r. record { priorities = r.priorities.items; falling = r.falling.items } };

    ghost invariant = { λ r. IsRanking record { priorities = r.priorities.items; falling = r.falling.items } };
}

impl Ranking {
    pub(crate) fn of(alloc: Global, plan: &Plan) -> Result<Ranking, AllocError>
        ensures { IfOk result (λ r. (r.priorities ≡ map (λ e. e.priority) plan.now.extents) × (length r.priorities ≤ 65536)) }
    {
        let extents = plan.extents();
        let priorities = priorities_of(alloc, extents)?;
        let falling = falling_order(alloc, extents, &priorities)?;
        Ok(Ranking {
            priorities,
            falling,
        })
    }

    /// How many extents there are.
    pub(crate) fn len(&self) -> usize
        ensures priorities { result ≡ length self.now.priorities }
        ensures falling { result ≡ length self.now.falling }
        ensures ranking { IsRanking self.now }
    {
        self.falling.len()
    }

    /// The extent at a place of the order.
    pub(crate) fn at(&self, place: usize) -> u32
        requires { place < length self.now.falling }
        ensures extent { result ≡ slice_index self.now.falling place }
        ensures planned { result < length self.now.priorities }
    {
        self.falling[place]
    }

    /// The priority of an extent.
    pub(crate) fn priority(&self, extent: u32) -> u8
        requires { extent < length self.now.priorities }
        ensures { result ≡ slice_index self.now.priorities extent }
    {
        self.priorities[extent as usize]
    }

    /// Whether no extent from a place of the order on is more urgent than this one.
    pub(crate) fn leads(&self, extent: u32, front: usize) -> bool
        requires planned { extent < length self.now.priorities }
        requires within { front ≤ length self.now.falling }
        ensures leads { IsTrue result → front < length self.now.falling → slice_index self.now.priorities (slice_index self.now.falling front) ≤ slice_index self.now.priorities extent }
        ensures ranking { IsRanking self.now }
    {
        front == self.len() || self.priority(extent) >= self.priority(self.at(front))
    }
}

fn priorities_of(alloc: Global, extents: &[Extent]) -> Result<Vec<u8>, AllocError>
    ensures { IfOk result (λ v. v.items ≡ map (λ e. e.priority) extents.now) }
{
    extents.iter().map(|extent| extent.priority).collect(alloc)
}

// The numbers of extents, sorted by place and then by priority, where equal ones stay as they were.
fn falling_order(
    alloc: Global,
    extents: &[Extent],
    priorities: &[u8],
) -> Result<Vec<u32>, AllocError>
    requires same { length priorities.now ≡ length extents.now }
    requires few { length extents.now ≤ 65536 }
    ensures { IfOk result (λ v. IsRanking record { priorities = priorities.now; falling = v.items }) }
{
    let mut numbers = numbers_below(alloc, extents.len() as u32)?;
    numbers.sort_unstable_by_key(|number| start_of(extents, *number));
    numbers.sort_by_key(|number| u8::MAX - priority_of(priorities, *number))?;
    Ok(numbers)
}

fn numbers_below(alloc: Global, count: u32) -> Result<Vec<u32>, AllocError>
    ensures { IfOk result (λ v. v.items ≡ range_with_len 0 count) }
{
    let mut numbers = Vec::with_capacity(alloc, count as usize)?;
    for number in 0..count {
        numbers.push(number)?;
    }
    Ok(numbers)
}

fn start_of(extents: &[Extent], number: u32) -> u64 {
    match extents.get(number as usize) {
        Some(extent) => extent.at,
        None => 0,
    }
}

fn priority_of(priorities: &[u8], number: u32) -> u8
    ensures { result ≡ slice_index priorities.now number }
{
    match priorities.get(number as usize) {
        Some(priority) => *priority,
        None => 0,
    }
}
