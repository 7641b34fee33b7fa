//! What an entry of a map must keep by itself.
ghost use Rattle.std.specs.Prelude.{◌≡◌, ℕ, ◌<◌, length, All, MatchResult};
ghost use Rattle.aff_map.specs.Mapped.{IsEntry, numbered_target, target_end};
ghost use Rattle.aff_map.specs.Refusals.{Breaks, IsOwnFault, entry_at};

use crate::{MapError, Target};
use aff_fields::Entry;

// Refuses the first entry that does not lie in the image and in its target.
pub(crate) fn check_entries(
    entries: &[Entry],
    targets: &[Target],
    size: u64,
    stream_size: u64,
) -> Result<(), MapError>
    ensures { MatchResult result (λ _. All (IsEntry size stream_size targets.now) entries.now) (IsOwnFault size stream_size targets.now entries.now) }
{
    for number in 0..entries.len() {
        check_entry(entries, number, targets, size, stream_size)?;
    }
    Ok(())
}

// What an entry breaks first, if anything.
fn check_entry(
    entries: &[Entry],
    number: usize,
    targets: &[Target],
    size: u64,
    stream_size: u64,
) -> Result<(), MapError>
    requires { number < length entries.now }
    ensures { MatchResult result (λ _. IsEntry size stream_size targets.now (entry_at entries.now number)) (Breaks size stream_size targets.now number (entry_at entries.now number)) }
{
    let Entry {
        at,
        len,
        target_at,
        target,
    } = entries[number];
    let number = number as u64;
    if len == 0 {
        return Err(MapError::Empty(number));
    }
    if u128::from(at) + u128::from(len) > u128::from(size) {
        return Err(MapError::PastEnd(number));
    }
    if target as usize >= targets.len() {
        return Err(MapError::NoTarget(number));
    }
    if u128::from(target_at) + u128::from(len) > target_end(targets, target, stream_size) {
        return Err(MapError::PastTarget(number));
    }
    Ok(())
}

// The place behind the last byte of the target of a number: a symbolic stream has a byte at each place.
fn target_end(targets: &[Target], number: u32, stream_size: u64) -> u128
    requires { number < length targets.now }
    ensures { result ≡ target_end stream_size (numbered_target targets.now number) }
{
    match numbered_target(targets, number) {
        Target::Stored => u128::from(stream_size),
        Target::Zero | Target::Unknown | Target::Unreadable => u128::from(u64::MAX) + 1,
    }
}

// The target of a number.
pub(crate) fn numbered_target(targets: &[Target], number: u32) -> Target
    requires { number < length targets.now }
    ensures { result ≡ numbered_target targets.now number }
{
    targets[number as usize]
}
