//! Entries that share a byte.
ghost use Rattle.std.specs.Prelude.{◌≡◌, ℕ, ◌+◌, ◌-◌, ◌<◌, ◌↔◌, IsTrue, length, take, All, AllPairs, IfOk, MatchOption};
ghost use Rattle.std.specs.List.Sorted.{IsNonDecreasingBy};
ghost use Rattle.aff_map.specs.Mapped.{AreApart, HasBytes};
ghost use Rattle.aff_map.specs.Refusals.{IsFirstOverlap, entry_at};

use aff_fields::Entry;
use std::alloc::{AllocError, Global};

// The first entry that shares a byte with one before it, as the second number, and the first such entry.
pub(crate) fn first_overlap(
    alloc: Global,
    entries: &[Entry],
) -> Result<Option<(usize, usize)>, AllocError>
    requires { All HasBytes entries.now }
    ensures { IfOk result (λ o. MatchOption o (AllPairs AreApart entries.now) (λ p. IsFirstOverlap entries.now p.0 p.1)) }
{
    if are_apart(alloc, entries)? {
        return Ok(None);
    }
    let later = first_later(alloc, entries)?;
    Ok(Some((first_earlier(entries, later), later)))
}

// Whether no two entries share a byte: sorted by their places, each ends before the next one begins.
fn are_apart(alloc: Global, entries: &[Entry]) -> Result<bool, AllocError>
    requires { All HasBytes entries.now }
    ensures { IfOk result (λ b. IsTrue b ↔ AllPairs AreApart entries.now) }
{
    let mut sorted = Vec::from_slice(alloc, entries)?;
    sorted.sort_unstable_by_key(|entry| entry.at);
    Ok(rises(&sorted))
}

// Whether each entry ends before the next one begins.
fn rises(entries: &[Entry]) -> bool
    requires bytes { All HasBytes entries.now }
    requires sorted { IsNonDecreasingBy (λ e. e.at) entries.now }
    ensures { IsTrue result ↔ AllPairs AreApart entries.now }
{
    for k in 1..entries.len() {
        if begins_early(entries, k) {
            return false;
        }
    }
    true
}

// Whether an entry begins before the one in front of it ends.
fn begins_early(entries: &[Entry], k: usize) -> bool
    requires bytes { All HasBytes entries.now }
    requires second { 0 < k }
    requires there { k < length entries.now }
    ensures { IsTrue result ↔ ((entry_at entries.now k).at < (entry_at entries.now (k - 1)).at + (entry_at entries.now (k - 1)).len) }
{
    let Entry { at, len, .. } = entries[k - 1];
    entries[k].at < at + len
}

// The first entry that shares a byte with one before it: those before it are apart, and with it they are not.
fn first_later(alloc: Global, entries: &[Entry]) -> Result<usize, AllocError>
    requires bytes { All HasBytes entries.now }
    requires some { ¬ (AllPairs AreApart entries.now) }
    ensures { IfOk result
        (λ j. (j < length entries.now) × AllPairs AreApart (take j entries.now)
        × (¬ (AllPairs AreApart (take (j + 1) entries.now)))) }
{
    let mut low = 0;
    let mut high = entries.len();
    while high - low > 1 {
        let middle = low + (high - low) / 2;
        if are_apart(alloc, &entries[..middle])? {
            low = middle;
        } else {
            high = middle;
        }
    }
    Ok(low)
}

// The first entry that a later one shares a byte with.
fn first_earlier(entries: &[Entry], later: usize) -> usize
    requires there { later < length entries.now }
    requires bytes { All HasBytes entries.now }
    requires before { AllPairs AreApart (take later entries.now) }
    requires some { ¬ (AllPairs AreApart (take (later + 1) entries.now)) }
    ensures { IsFirstOverlap entries.now result later }
{
    let Entry { at, len, .. } = entries[later];
    for (i, entry) in entries[..later].iter().enumerate() {
        if at < entry.at + entry.len && entry.at < at + len {
            return i;
        }
    }
    unreachable!()
}
