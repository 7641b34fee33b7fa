//! The lines from the volume to the last publication.
ghost use Rattle.std.specs.Prelude.{◌≡◌, IfOk, codes, if◌then◌else◌, map};
ghost use Rattle.std.specs.String.{string_bytes};
ghost use Rattle.aff_model.specs.History.{publication_of};
ghost use Rattle.aff_model.specs.Pieces.{published};
ghost use Rattle.aff_spec.specs.Report.{header_text, publication_line, report_text};
ghost use Rattle.aff_report.specs.Words.{line_of_words, numbers_text};

use crate::places::places_text;
use crate::sectors::bad_text;
use aff_model::{Memory, Piece};
use std::alloc::{AllocError, Global};
use std::sync::Arc;

/// The lines from `volume` to the last `publication`. The device's size is in bytes, `extents` is how many
/// the plan has, and the pieces are the history, in its order: the first of them has front 1. Pieces with
/// any sectors and places have a line. Want of memory is the only error.
pub fn report<R: Drop>(
    alloc: Global,
    uuid: &str,
    size: u64,
    extents: usize,
    pieces: &[Arc<Piece<R>>],
) -> Result<String, Memory>
    ensures { IfOk result (λ text. string_bytes text ≡ report_text uuid.now size extents (map published pieces.now)) }
{
    lines(alloc, uuid, size, extents, pieces).map_err(|_| Memory)
}

fn lines<R: Drop>(
    alloc: Global,
    uuid: &str,
    size: u64,
    extents: usize,
    pieces: &[Arc<Piece<R>>],
) -> Result<String, AllocError>
    ensures { IfOk result (λ text. string_bytes text ≡ report_text uuid.now size extents (map published pieces.now)) }
{
    let mut text = header(alloc, uuid, size, extents, pieces.len())?;
    for (number, piece) in pieces.iter().enumerate() {
        let line = publication_line(alloc, number + 1, piece)?;
        text.push_str(&line)?;
    }
    Ok(text)
}

// The lines before the publications.
fn header(
    alloc: Global,
    uuid: &str,
    size: u64,
    extents: usize,
    publications: usize,
) -> Result<String, AllocError>
    ensures { IfOk result (λ text. string_bytes text ≡ header_text uuid.now size extents publications) }
{
    format!(in alloc;
        "volume aff4://{uuid}\nsize {size}\nextents {extents}\npublications {publications}\n"
    )
}

// The line of a piece.
fn publication_line<R: Drop>(
    alloc: Global,
    front: usize,
    piece: &Piece<R>,
) -> Result<String, AllocError>
    ensures { IfOk result (λ text. string_bytes text ≡ publication_line front (publication_of piece.now)) }
{
    let numbers = numbers(alloc, front, piece.extent, piece.claimant)?;
    let bad = bad_text(alloc, &piece.bad)?;
    let places = places_text(alloc, &piece.places)?;
    line_of_words(alloc, &numbers, how(piece.swept), &bad, &places)
}

// A line up to its third number.
fn numbers(alloc: Global, front: usize, extent: u32, claimant: u32) -> Result<String, AllocError>
    ensures { IfOk result (λ text. string_bytes text ≡ numbers_text front extent claimant) }
{
    format!(in alloc; "publication {front} {extent} {claimant}")
}

// A line from the words that it has.
fn line_of_words(
    alloc: Global,
    numbers: &str,
    how: &str,
    bad: &str,
    places: &str,
) -> Result<String, AllocError>
    ensures { IfOk result (λ text. string_bytes text ≡ line_of_words numbers.now how.now bad.now places.now) }
{
    format!(in alloc; "{numbers} {how} {bad} {places}\n")
}

// Who published an extent: the sweep, or the one who claimed it.
fn how(swept: bool) -> &'static str
    ensures { result.now ≡ (if swept then codes "swept" else codes "own") }
{
    if swept { "swept" } else { "own" }
}
