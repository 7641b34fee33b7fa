//! A valid plan: which extents are to be read, none of which shares a byte with another.
ghost use Rattle.std.specs.Prelude.{◌≡◌, ℕ, ◌+◌, ◌-◌, ◌<◌, ◌≤◌, ◌≢◌, ◌↔◌, ◌^◌, ◌⊎◌, IsTrue, length, take, All, AllPairs, IfOk, IfErr, OnErr, IfSome, IsSomeAnd, IsOk, is_some, MatchResult, slice_index, slice_get};
ghost use Rattle.std.specs.List.{range_with_len, list_any};
ghost use Rattle.aff_model.specs.Faults.{Breaks, KeepsRules, IsFirstFault, IsFirstOverlap, IsOwnFault};
ghost use Rattle.aff_model.specs.Index.{HasBytes, IsIndex, end_of, extent_at, start_of};
ghost use Rattle.aff_model.specs.Plan.{AreApart, IsExtent, IsPlan, bytes_in, has_place};
ghost use Rattle.aff_model.specs.Content.{IsBlock};

use crate::{Extent, MAX_EXTENT, MAX_EXTENTS, MAX_PRIORITY, MAX_TOTAL};
use std::alloc::{AllocError, Global};
use std::marker::Model;

/// Why a list of extents is no plan. Numbers are places in the list, from 0.
#[derive(Clone, Copy, Debug, PartialEq, Eq)]
pub enum PlanFault {
    /// The extent's offset or length is no multiple of the block, or its length is 0.
    Sector(u32),
    /// The extent is longer than 67,108,864 bytes.
    TooLong(u32),
    /// There are more than 65,536 extents.
    TooMany,
    /// The extent ends behind the device's end.
    PastEnd(u32),
    /// The extent's priority is over 9.
    Priority(u32),
    /// The lengths up to this extent's add up to more than 2^40 bytes.
    Total(u32),
    /// The first extent shares a byte with the second, which stands before it.
    Overlap(u32, u32),
    /// There was no memory to look for overlaps.
    Memory,
}

impl From<AllocError> for PlanFault {
    ghost use Rattle.aff_model.specs.declared.plan.PlanFault.TheVariants.{Memory};

    ghost from_gives = { λ _ fault. fault ≡ Memory };

    fn from(_error: AllocError) -> PlanFault {
        PlanFault::Memory
    }
}

/// A list of extents that meets all rules of a plan, and the size and the block of the device that it is for, in
/// bytes.
#[derive(Drop)]
pub struct Plan {
    extents: Vec<Extent>,
    /// The numbers of the extents, by their first bytes.
    index: Vec<u32>,
    size: u64,
    block: u32,
}

impl Model for Plan {
    ghost use Rattle.std.specs.Prelude.{All};
    ghost use Rattle.aff_model.specs.Plan.{IsPlan, Planned};
    ghost use Rattle.aff_model.specs.Index.{HasBytes, IsIndex};

    ghost Value = { Planned };

    ghost view = { λ p. record { extents = p.extents.items; size = p.size; block = p.block } };

    ghost invariant = { λ p. IsPlan p.size p.block p.extents.items × All HasBytes p.extents.items × IsIndex p.extents.items p.index.items };
}

impl Plan {
    /// Takes the extents in their order, if they are a plan for a device of this size and block in bytes. Each
    /// extent is looked at from the first on, with the lengths of those before it; overlaps are looked for after
    /// that.
    pub fn of(alloc: Global, extents: Vec<Extent>, size: u64, block: u32) -> Result<Plan, PlanFault>
        requires block { IsBlock block }
        ensures plan { IfOk result (λ p. IsPlan size block extents.items × (p.extents ≡ extents.items) × (p.size ≡ size) × (p.block ≡ block)) }
        ensures fault { IfErr result (λ f. f ≢ PlanFault.Memory → IsFirstFault size block extents.items f) }

        // Want of memory aside, each plan is taken and each fault is told.
        ensures taken { IsPlan size block extents.items → IsOk result ⊎ (result ≡ Err PlanFault.Memory) }
        ensures told { (f : PlanFault) → IsFirstFault size block extents.items f → (result ≡ Err f) ⊎ (result ≡ Err PlanFault.Memory) }
    {
        let index = index_of_plan(alloc, &extents, size, block)?;
        Ok(Plan {
            extents,
            index,
            size,
            block,
        })
    }

    /// The extents by their numbers.
    pub fn extents(&self) -> &[Extent]
        ensures extents { result.now ≡ self.now.extents }
        ensures plan { IsPlan self.now.size self.now.block self.now.extents }
    {
        &self.extents
    }

    /// The size of the device in bytes.
    pub fn size(&self) -> u64
        ensures { result ≡ self.now.size }
    {
        self.size
    }

    /// The block of the device in bytes.
    pub fn block(&self) -> u32
        ensures block { result ≡ self.now.block }
        ensures is_block { IsBlock result }
    {
        self.block
    }

    /// The number of the extent that has a byte.
    pub fn find(&self, at: u64) -> Option<u32>
        ensures has_it { IfSome result (λ k. IsSomeAnd (slice_get self.now.extents k) (λ e. IsTrue (has_place at e))) }
        ensures some { is_some result ≡ list_any (has_place at) self.now.extents }
    {
        find_in(&self.extents, &self.index, at)
    }
}

// The number of the one extent that has a byte, by halving the index.
fn find_in(extents: &[Extent], index: &[u32], at: u64) -> Option<u32>
    requires bytes { All HasBytes extents.now }
    requires apart { AllPairs AreApart extents.now }
    requires sorted { IsIndex extents.now index.now }
    ensures has_it { IfSome result (λ k. IsSomeAnd (slice_get extents.now k) (λ e. IsTrue (has_place at e))) }
    ensures some { is_some result ≡ list_any (has_place at) extents.now }
{
    let begun = index.partition_point(|number| start_of(extents, *number) <= at);
    if begun == 0 {
        return None;
    }
    let number = index[begun - 1];
    if at < end_of(extents, number) {
        Some(number)
    } else {
        None
    }
}

// The sorted index of extents that are a plan.
fn index_of_plan(
    alloc: Global,
    extents: &[Extent],
    size: u64,
    block: u32,
) -> Result<Vec<u32>, PlanFault>
    requires { IsBlock block }
    ensures plan { IfOk result (λ v. IsPlan size block extents.now × All HasBytes extents.now × IsIndex extents.now v.items) }
    ensures fault { IfErr result (λ f. f ≢ PlanFault.Memory → IsFirstFault size block extents.now f) }
{
    check_extents(extents, size, block)?;
    let index = sorted_index(alloc, extents)?;
    if !rises(extents, &index) {
        let (later, earlier) = first_overlap(alloc, extents)?;
        return Err(PlanFault::Overlap(later, earlier));
    }
    Ok(index)
}

// What an extent breaks, if anything, where those before it have so many bytes. Else the bytes with its own.
fn check_extent(
    extents: &[Extent],
    number: usize,
    size: u64,
    block: u32,
    before: u64,
) -> Result<u64, PlanFault>
    requires block { IsBlock block }
    requires there { number < length extents.now }
    requires few { number ≤ MAX_EXTENTS }
    requires before { before ≡ bytes_in (take number extents.now) }
    requires small { before ≤ MAX_TOTAL }
    ensures { MatchResult result
        (λ total. KeepsRules size block extents.now number × (total ≡ bytes_in (take (number + 1) extents.now)))
        (Breaks size block extents.now number) }
{
    let Extent { at, len, priority } = extents[number];
    let (number, block) = (number as u32, u64::from(block));
    if at % block != 0 || len % block != 0 || len == 0 {
        return Err(PlanFault::Sector(number));
    }
    if len > MAX_EXTENT {
        return Err(PlanFault::TooLong(number));
    }
    if number as usize >= MAX_EXTENTS {
        return Err(PlanFault::TooMany);
    }
    if at > size || len > size - at {
        return Err(PlanFault::PastEnd(number));
    }
    if priority > MAX_PRIORITY {
        return Err(PlanFault::Priority(number));
    }
    if before + len > MAX_TOTAL {
        return Err(PlanFault::Total(number));
    }
    Ok(before + len)
}

fn check_extents(extents: &[Extent], size: u64, block: u32) -> Result<(), PlanFault>
    requires { IsBlock block }
    ensures { MatchResult result
        (λ _. ((k : ℕ) → k < length extents.now → KeepsRules size block extents.now k) × (length extents.now ≤ MAX_EXTENTS) × (bytes_in extents.now ≤ MAX_TOTAL))
        (IsOwnFault size block extents.now) }
{
    let mut total = 0;
    for number in 0..extents.len() {
        total = check_extent(extents, number, size, block, total)?;
    }
    Ok(())
}

fn start_of(extents: &[Extent], number: u32) -> u64
    ensures { result ≡ start_of extents.now number }
{
    match extents.get(number as usize) {
        Some(extent) => extent.at,
        None => 0,
    }
}

fn end_of(extents: &[Extent], number: u32) -> u64
    requires { All HasBytes extents.now }
    ensures { result ≡ end_of extents.now number }
{
    match extents.get(number as usize) {
        Some(extent) => extent.at + extent.len,
        None => 0,
    }
}

fn numbers_below(alloc: Global, count: u32) -> Result<Vec<u32>, AllocError>
    ensures { IfOk result (λ v. v.items ≡ range_with_len 0 count) }
{
    let mut numbers = Vec::with_capacity(alloc, count as usize)?;
    for number in 0..count {
        numbers.push(number)?;
    }
    Ok(numbers)
}

fn sorted_index(alloc: Global, extents: &[Extent]) -> Result<Vec<u32>, AllocError>
    requires { length extents.now ≤ MAX_EXTENTS }
    ensures { IfOk result (λ v. IsIndex extents.now v.items) }
{
    let mut index = numbers_below(alloc, extents.len() as u32)?;
    index.sort_unstable_by_key(|number| start_of(extents, *number));
    Ok(index)
}

// Whether each extent ends before the next one by place begins.
fn rises(extents: &[Extent], index: &[u32]) -> bool
    requires bytes { All HasBytes extents.now }
    requires sorted { IsIndex extents.now index.now }
    ensures { IsTrue result ↔ AllPairs AreApart extents.now }
{
    for k in 1..index.len() {
        if start_of(extents, index[k]) < end_of(extents, index[k - 1]) {
            return false;
        }
    }
    true
}

fn are_apart(alloc: Global, extents: &[Extent]) -> Result<bool, AllocError>
    requires few { length extents.now ≤ MAX_EXTENTS }
    requires bytes { All HasBytes extents.now }
    ensures { IfOk result (λ b. IsTrue b ↔ AllPairs AreApart extents.now) }
{
    let index = sorted_index(alloc, extents)?;
    Ok(rises(extents, &index))
}

// The first extent that shares a byte with an earlier one, and the first such earlier one.
fn first_overlap(alloc: Global, extents: &[Extent]) -> Result<(u32, u32), AllocError>
    requires few { length extents.now ≤ MAX_EXTENTS }
    requires bytes { All HasBytes extents.now }
    requires some { ¬ (AllPairs AreApart extents.now) }
    ensures { IfOk result (λ p. IsFirstOverlap extents.now p.0 p.1) }
{
    let later = first_later(alloc, extents)?;
    Ok((later as u32, first_earlier(extents, later) as u32))
}

// How many extents from the first on share no byte. All prefixes up to that one are apart, and no longer one is.
fn first_later(alloc: Global, extents: &[Extent]) -> Result<usize, AllocError>
    requires few { length extents.now ≤ MAX_EXTENTS }
    requires bytes { All HasBytes extents.now }
    requires some { ¬ (AllPairs AreApart extents.now) }
    ensures { IfOk result
        (λ j. (j < length extents.now) × AllPairs AreApart (take j extents.now)
        × (¬ (AllPairs AreApart (take (j + 1) extents.now)))) }
{
    let mut low = 0;
    let mut high = extents.len();
    while high - low > 1 {
        let middle = low + (high - low) / 2;
        if are_apart(alloc, &extents[..middle])? {
            low = middle;
        } else {
            high = middle;
        }
    }
    Ok(low)
}

fn first_earlier(extents: &[Extent], later: usize) -> usize
    requires there { later < length extents.now }
    requires bytes { All HasBytes extents.now }
    requires before { AllPairs AreApart (take later extents.now) }
    requires some { ¬ (AllPairs AreApart (take (later + 1) extents.now)) }
    ensures { IsFirstOverlap extents.now later result }
{
    let Extent { at, len, .. } = extents[later];
    for (i, extent) in extents[..later].iter().enumerate() {
        if at < extent.at + extent.len && extent.at < at + len {
            return i;
        }
    }
    unreachable!()
}

#[cfg(test)]
mod tests {
    use super::*;
    use std::test::Fail;

    fn fault_of(
        alloc: Global,
        rows: &[(u64, u64, u8)],
        size: u64,
        block: u32,
    ) -> Result<Option<PlanFault>, AllocError>
        requires { IsBlock block }
    {
        let mut extents = Vec::new(alloc);
        for (at, len, priority) in rows {
            extents.push(Extent {
                at: *at,
                len: *len,
                priority: *priority,
            })?;
        }
        Ok(Plan::of(alloc, extents, size, block).err())
    }

    #[test]
    fn refusals(rt: HostRuntime) -> Result<(), Fail> {
        let alloc = rt.alloc();
        let rows: [(&[(u64, u64, u8)], u64, Option<PlanFault>); 6] = [
            (&[(0, 512, 0), (1024, 512, 9)], 1536, None),
            (
                &[(0, 1024, 0), (512, 512, 0)],
                1024,
                Some(PlanFault::Overlap(1, 0)),
            ),
            (&[(512, 512, 0)], 512, Some(PlanFault::PastEnd(0))),
            (&[(512, 513, 0)], 512, Some(PlanFault::Sector(0))),
            (&[(0, 512, 10)], 512, Some(PlanFault::Priority(0))),
            (
                &[(0, 67_109_376, 0)],
                134_217_728,
                Some(PlanFault::TooLong(0)),
            ),
        ];
        for (extents, size, fault) in rows {
            assert_eq!(rt; fault_of(alloc, extents, size, 512)?, fault);
        }
        assert_eq!(rt;
            fault_of(alloc, &[(0, 512, 0)], 12_288, 4_096)?,
            Some(PlanFault::Sector(0))
        );
        assert_eq!(rt; fault_of(alloc, &[(4_096, 8_192, 0)], 12_288, 4_096)?, None);
        Ok(())
    }

    // Extents of the greatest length, and one of a length of its own behind them.
    fn long(alloc: Global, count: u32, len: u64) -> Result<Option<PlanFault>, AllocError>
        requires { count ≤ 65536 }
    {
        let mut extents = Vec::new(alloc);
        for number in 0..count {
            extents.push(Extent {
                at: MAX_EXTENT * u64::from(number),
                len: MAX_EXTENT,
                priority: 0,
            })?;
        }
        extents.push(Extent {
            at: MAX_EXTENT * u64::from(count),
            len,
            priority: 0,
        })?;
        Ok(Plan::of(alloc, extents, 1 << 44, 4_096).err())
    }

    #[test]
    fn totals(rt: HostRuntime) -> Result<(), Fail> {
        assert_eq!(rt; long(rt.alloc(), 16_383, MAX_EXTENT)?, None);
        assert_eq!(rt;
            long(rt.alloc(), 16_384, 4_096)?,
            Some(PlanFault::Total(16_384))
        );
        Ok(())
    }

    // `count` extents of a sector, from the last one by place to the first.
    fn falling(alloc: Global, count: u32) -> Result<Vec<Extent>, AllocError> {
        let mut extents = Vec::new(alloc);
        for number in (0..count).rev() {
            extents.push(Extent {
                at: 512 * u64::from(number),
                len: 512,
                priority: 0,
            })?;
        }
        Ok(extents)
    }

    #[test]
    fn greatest(rt: HostRuntime) -> Result<(), Fail> {
        let plan = Plan::of(rt.alloc(), falling(rt.alloc(), 65_536)?, 1 << 25, 512)?;
        assert_eq!(rt; plan.extents().len(), 65_536);
        assert_eq!(rt; plan.size(), 1 << 25);
        assert_eq!(rt; plan.find(1023), Some(65_534));
        assert_eq!(rt; plan.find(1 << 25), None);
        let longer = falling(rt.alloc(), 65_537)?;
        assert_eq!(rt;
            Plan::of(rt.alloc(), longer, 1 << 26, 512).err(),
            Some(PlanFault::TooMany)
        );
        Ok(())
    }

    #[test]
    fn last_overlap(rt: HostRuntime) -> Result<(), Fail> {
        let mut extents = falling(rt.alloc(), 65_535)?;
        extents.push(Extent {
            at: 512,
            len: 1024,
            priority: 0,
        })?;
        let fault = Plan::of(rt.alloc(), extents, 1 << 25, 512).err();
        assert_eq!(rt; fault, Some(PlanFault::Overlap(65_535, 65_532)));
        Ok(())
    }
}
