//! The list of targets of a map.
ghost use Rattle.std.specs.Prelude.{◌≡◌, ◌≢◌, ℕ, All, IfOk, IfErr, OnOk};
ghost use Rattle.std.specs.List.{filter_map};
ghost use Rattle.std.specs.String.{string_bytes};
ghost use Rattle.aff_spec.specs.Lines.{lines_of};
ghost use Rattle.aff_spec.specs.Volumes.{targets_text};
ghost use Rattle.aff_map.specs.Targets.{IsFirstUnnamed, IsNamed, target_lines, target_of, targets_of, without_last_feed};

use crate::{MapError, Target};
use aff_model::Memory;
use aff_names::Urn;
use std::alloc::{AllocError, Global};

const ZERO: &str = "http://aff4.org/Schema#Zero";

const UNKNOWN: &str = "http://aff4.org/Schema#UnknownData";

const UNREADABLE: &str = "http://aff4.org/Schema#UnreadableData";

/// The list of targets that a map made by `entries_of` goes with: the stream, zeros and unreadable bytes, each on
/// a line.
pub fn idx_text(alloc: Global, stream: &Urn) -> Result<String, Memory>
    ensures { IfOk result (λ text. string_bytes text ≡ targets_text stream.now) }
{
    written(alloc, stream.text()).map_err(|_| Memory)
}

// The lines of the targets.
fn written(alloc: Global, stream: &str) -> Result<String, AllocError>
    ensures { IfOk result (λ text. string_bytes text ≡ targets_text stream.now) }
{
    format!(in alloc;
        "{stream}\nhttp://aff4.org/Schema#Zero\nhttp://aff4.org/Schema#UnreadableData\n"
    )
}

// The targets that the lines of a list name.
pub(crate) fn read_targets(alloc: Global, idx: &[u8], stream: &Urn) -> Result<Vec<Target>, MapError>
    ensures targets { IfOk result (λ v. v.items ≡ targets_of stream.now idx.now) }
    ensures named { OnOk result (All (IsNamed stream.now) (target_lines idx.now)) }
    ensures refused { IfErr result (λ e. e ≢ MapError.Memory → (line : ℕ) × (e ≡ MapError.BadTarget line) × IsFirstUnnamed stream.now (target_lines idx.now) line) }
{
    if idx.is_empty() {
        return Ok(Vec::new(alloc));
    }
    read_lines(alloc, without_last_feed(idx), stream)
}

// A text without a line feed at its end.
fn without_last_feed(text: &[u8]) -> &[u8]
    ensures { result.now ≡ without_last_feed text.now }
{
    match text.split_last() {
        Some((b'\n', front)) => front,
        _ => text,
    }
}

// The targets that the pieces between line feeds name.
fn read_lines(alloc: Global, text: &[u8], stream: &Urn) -> Result<Vec<Target>, MapError>
    ensures targets { IfOk result (λ v. v.items ≡ filter_map (target_of stream.now) (lines_of text.now)) }
    ensures named { OnOk result (All (IsNamed stream.now) (lines_of text.now)) }
    ensures refused { IfErr result (λ e. e ≢ MapError.Memory → (line : ℕ) × (e ≡ MapError.BadTarget line) × IsFirstUnnamed stream.now (lines_of text.now) line) }
{
    let mut targets = Vec::new(alloc);
    for line in text.split(|byte| *byte == b'\n') {
        let Some(target) = target_of(line, stream) else {
            return Err(MapError::BadTarget(targets.len() as u64 + 1));
        };
        targets.push(target)?;
    }
    Ok(targets)
}

// The target that a line names.
fn target_of(line: &[u8], stream: &Urn) -> Option<Target>
    ensures { result ≡ target_of stream.now line.now }
{
    if line == stream.text().as_bytes() {
        Some(Target::Stored)
    } else if line == ZERO.as_bytes() {
        Some(Target::Zero)
    } else if line == UNKNOWN.as_bytes() {
        Some(Target::Unknown)
    } else if line == UNREADABLE.as_bytes() {
        Some(Target::Unreadable)
    } else {
        None
    }
}
