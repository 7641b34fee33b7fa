//! The words of a command line.
ghost use Rattle.std.specs.Prelude.{◌≡◌, ◌==◌, ℕ, length, map, IfSome, IfNone};
ghost use Rattle.std.specs.List.{list_any};
ghost use Rattle.aff_command.specs.CommandLine.{IsAcquire, IsCommand, uuid_of};
ghost use Rattle.aff_command.specs.Wanted.{IsFor};

use crate::finished::offline;
use crate::wanted::Outside;
use aff_model::{LARGE_BLOCK, SECTOR};
use aff_names::Uuid;

/// The place of the first device among the words of an acquisition.
const FIRST_DEVICE: usize = 3;

// The bytes of a block by which a command acquires.
fn block_of(command: &str) -> Option<u32>
    ensures some { IfSome result (λ block. IsCommand block command.now) }
    ensures none { IfNone result ((block : ℕ) → ¬ (IsCommand block command.now)) }
{
    if command == "acquire" {
        Some(SECTOR as u32)
    } else if command == "acquire4k" {
        Some(LARGE_BLOCK as u32)
    } else {
        None
    }
}

/// Whether a word is empty.
pub(crate) fn has_empty(words: &[&str]) -> bool
    ensures { result ≡ list_any (λ w. length w.now == 0) words.now }
{
    words.iter().any(|word| word.is_empty())
}

/// The block, in bytes, and the UUID of `acquire FOLDER UUID DEVICE..` or `acquire4k FOLDER UUID DEVICE..`, whose
/// devices are one or more words. It takes no memory.
pub fn acquisition(words: &[&str]) -> Option<(u32, Uuid)>
    ensures some { IfSome result (λ a. IsAcquire a.0 (map (λ w. w.now) words.now) × (a.1 ≡ uuid_of (map (λ w. w.now) words.now))) }
    ensures none { IfNone result ((block : ℕ) → ¬ (IsAcquire block (map (λ w. w.now) words.now))) }
{
    if words.len() < 4 {
        return None;
    }
    if has_empty(words) {
        return None;
    }
    let Some(block) = block_of(words[0]) else {
        return None;
    };
    let Some(uuid) = Uuid::read(words[2]) else {
        return None;
    };
    Some((block, uuid))
}

/// What main is to make for these words: devices for an acquisition, none for what is asked of a finished volume. It
/// takes no memory.
pub fn outside(words: &[&str]) -> Option<Outside>
    ensures some { IfSome result (λ o. IsFor o (map (λ w. w.now) words.now)) }
    ensures none { IfNone result ((o : Outside) → ¬ (IsFor o (map (λ w. w.now) words.now))) }
{
    if let Some((block, _)) = acquisition(words) {
        return Some(Outside::Acquire {
            first_device: FIRST_DEVICE,
            block,
        });
    }
    match offline(words) {
        Some(_) => Some(Outside::Offline),
        None => None,
    }
}
