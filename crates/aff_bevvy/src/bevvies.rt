//! Whether the bevvies of a stream are listed, with their indexes.
ghost use Rattle.std.specs.Prelude.{◌≡◌, ◌≤◌, ◌<◌, Some, IfOk, IfErr, IsTrue, OnOk};
ghost use Rattle.aff_spec.specs.Bevvies.{bevvy_count};
ghost use Rattle.aff_spec.specs.BlockHashes.{chunks_in as chunks_of_bevvy};
ghost use Rattle.aff_spec.specs.Names.{bevvy_name};
ghost use Rattle.aff_bevvy.specs.Checks.{IsBevvyFault, IsOfSegments};
ghost use Rattle.aff_bevvy.specs.Faults.{IsListFault};
ghost use Rattle.aff_bevvy.specs.Segments.{AreBevvies, AreSorted, HaveLengths, IsBevvy, listed_length};

use crate::StreamError;
use crate::listed::{are_sorted, numbered_length};
use aff_model::{BEVVY, Memory};
use aff_names::Urn;
use aff_outside::Segment;
use std::alloc::Global;

/// How many chunks a bevvy has in a stream of so many.
pub fn chunks_in(chunks: u64, bevvy: u32) -> u32
    ensures { result ≡ chunks_of_bevvy chunks bevvy }
{
    chunks.saturating_sub(BEVVY * bevvy as u64).min(BEVVY) as u32
}

/// The length of a bevvy, whose index has a point for each chunk.
fn bevvy_length(
    alloc: Global,
    segments: &[Segment],
    is_sorted: bool,
    stream: &Urn,
    chunks: u64,
    bevvy: u32,
) -> Result<u64, StreamError>
    requires number { bevvy < 100000000 }
    requires sorted { IsTrue is_sorted → AreSorted segments.now }
    ensures length { IfOk result (λ len. listed_length segments.now (bevvy_name stream.now bevvy) ≡ Some len) }
    ensures bevvy { OnOk result (IsBevvy (listed_length segments.now) stream.now chunks bevvy) }
    ensures fault { IfErr result (IsBevvyFault (listed_length segments.now) stream.now chunks bevvy) }
{
    let len = match numbered_length(alloc, segments, is_sorted, stream, bevvy, "") {
        Ok(Some(len)) => len,
        Ok(None) => return Err(StreamError::NoSegment(bevvy)),
        Err(Memory) => return Err(StreamError::Memory),
    };
    let index = match numbered_length(alloc, segments, is_sorted, stream, bevvy, ".index") {
        Ok(Some(len)) => len,
        Ok(None) => return Err(StreamError::NoSegment(bevvy)),
        Err(Memory) => return Err(StreamError::Memory),
    };
    if index != 12 * chunks_in(chunks, bevvy) as u64 {
        return Err(StreamError::Ragged(bevvy));
    }
    Ok(len)
}

/// The lengths of the bevvies of a stream of so many chunks. In a list that is sorted by name, as folders give it, each is found
/// by halving the list.
pub fn bevvy_lengths(
    alloc: Global,
    segments: &[Segment],
    stream: &Urn,
    chunks: u64,
) -> Result<Vec<u64>, StreamError>
    requires { chunks ≤ 536870912 }
    ensures lengths { IfOk result (λ lens. HaveLengths (listed_length segments.now) stream.now (bevvy_count chunks) lens.items) }
    ensures bevvies { OnOk result (AreBevvies (listed_length segments.now) stream.now chunks) }
    ensures fault { IfErr result (IsListFault (listed_length segments.now) stream.now chunks) }
    ensures early { IfErr result IsOfSegments }
{
    let is_sorted = are_sorted(segments);
    let mut lens = Vec::new(alloc);
    for bevvy in 0..chunks.div_ceil(BEVVY) as u32 {
        let len = match bevvy_length(alloc, segments, is_sorted, stream, chunks, bevvy) {
            Ok(len) => len,
            Err(fault) => return Err(fault),
        };
        match lens.push(len) {
            Ok(()) => {}
            Err(_) => return Err(StreamError::Memory),
        }
    }
    Ok(lens)
}
