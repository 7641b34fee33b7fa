//! The words of the commands over a finished volume.
ghost use Rattle.std.specs.Prelude.{◌≡◌, map, IfSome, IfNone};
ghost use Rattle.aff_command.specs.Finished.{AreOffline, IsNamed, IsOffline, IsRange};

use crate::wanted::Offline;
use crate::words::has_empty;
use aff_plan::number;

// The command that has a folder alone behind it.
fn named(command: &str) -> Option<Offline>
    ensures some { IfSome result (λ asked. IsNamed asked command.now) }
    ensures none { IfNone result ((asked : Offline) → ¬ (IsNamed asked command.now)) }
{
    if command == "info" {
        Some(Offline::Info)
    } else if command == "verify" {
        Some(Offline::Verify)
    } else {
        None
    }
}

// The command that has a folder and two numbers behind it.
fn range(command: &str, at: &str, len: &str) -> Option<Offline>
    ensures some { IfSome result (λ asked. IsRange asked command.now at.now len.now) }
    ensures none { IfNone result ((asked : Offline) → ¬ (IsRange asked command.now at.now len.now)) }
{
    if command != "read" {
        return None;
    }
    let Some(at) = number(at.as_bytes()) else {
        return None;
    };
    let Some(len) = number(len.as_bytes()) else {
        return None;
    };
    Some(Offline::Read { at, len })
}

/// What the words ask of a finished volume: `read FOLDER AT LEN`, `info FOLDER` or `verify FOLDER`. AT and LEN are
/// numbers of 64 bits in decimal, without a sign and without leading zeros; no word is empty. It takes no memory.
pub fn offline(words: &[&str]) -> Option<Offline>
    ensures some { IfSome result (λ asked. IsOffline asked (map (λ w. w.now) words.now)) }
    ensures none { IfNone result (¬ (AreOffline (map (λ w. w.now) words.now))) }
{
    if has_empty(words) {
        return None;
    }
    match words.len() {
        2 => named(words[0]),
        4 => range(words[0], words[2], words[3]),
        _ => None,
    }
}
