//! One line of a plan's text.
ghost use Rattle.std.specs.Prelude.{◌≡◌, ◌∷◌, ◌<◌, ◌↔◌, ℕ, IsTrue, MatchOption, MatchResult, length, slice_index};
ghost use Rattle.aff_plan.specs.Line.{HasFields, HasShape, IsNoNumber, IsNumber, words_of};
ghost use Rattle.aff_plan.specs.Reading.{IsKeptLine, IsMisread, parts_behind};
ghost use Rattle.aff_plan.specs.Text.{is_skipped};

use crate::cut::cut_at;
use aff_model::Extent;
use std::str;

/// What is wrong with a line by itself.
#[derive(Clone, Copy, Debug, PartialEq, Eq)]
pub enum Misread {
    /// It is not `extent` and three fields.
    Shape,
    /// A field is no number.
    Number,
}

/// Whether a line is empty or a comment.
pub fn is_skipped(line: &[u8]) -> bool
    ensures { result ≡ is_skipped line.now }
{
    match line.first() {
        Some(first) => *first == b'#',
        None => true,
    }
}

// The first word of a line, and what is behind the space that follows it.
fn next_word(line: &[u8]) -> (&[u8], Option<&[u8]>)
    ensures { words_of line.now ≡ result.0.now ∷ parts_behind 32 result.1 }
{
    cut_at(line, b' ')
}

/// The fields of `extent AT LEN PRIORITY`.
fn fields(line: &[u8]) -> Option<(&[u8], &[u8], &[u8])>
    ensures { MatchOption result (¬ (HasShape line.now)) (λ f. HasFields line.now f.0.now f.1.now f.2.now) }
{
    let (word, rest) = next_word(line);
    let (at, rest) = next_word(rest?);
    let (len, rest) = next_word(rest?);
    let (priority, rest) = next_word(rest?);
    if rest.is_some() {
        return None;
    }
    if word != b"extent".as_slice() || at.is_empty() || len.is_empty() || priority.is_empty() {
        return None;
    }
    Some((at, len, priority))
}

fn has_sign(field: &[u8]) -> bool
    ensures { IsTrue result ↔ (slice_index field.now 0 ≡ 43) }
{
    !field.is_empty() && field[0] == b'+'
}

fn has_leading_zero(field: &[u8]) -> bool
    ensures { IsTrue result ↔ ((slice_index field.now 0 ≡ 48) × (1 < length field.now)) }
{
    field.len() > 1 && field[0] == b'0'
}

/// The number that a field is: 64 bits, in decimal, without a sign and without leading zeros.
pub fn number(field: &[u8]) -> Option<u64>
    ensures { MatchOption result (IsNoNumber field.now) (IsNumber field.now) }
{
    if has_sign(field) {
        return None;
    }
    if has_leading_zero(field) {
        return None;
    }
    match str::from_utf8(field) {
        Ok(text) => match text.parse::<u64>() {
            Ok(number) => Some(number),
            Err(_) => None,
        },
        Err(_) => None,
    }
}

/// The extent of a line. A priority that no byte has is kept as the greatest one that a byte has: no plan has either.
pub fn read_extent(line: &[u8]) -> Result<Extent, Misread>
    ensures { MatchResult result (IsKeptLine line.now) (IsMisread line.now) }
{
    let Some((at, len, priority)) = fields(line) else {
        return Err(Misread::Shape);
    };
    let Some(at) = number(at) else {
        return Err(Misread::Number);
    };
    let Some(len) = number(len) else {
        return Err(Misread::Number);
    };
    let Some(priority) = number(priority) else {
        return Err(Misread::Number);
    };
    Ok(Extent {
        at,
        len,
        priority: priority.min(255) as u8,
    })
}
