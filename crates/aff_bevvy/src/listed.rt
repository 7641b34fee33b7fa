//! The lengths of listed segments.
ghost use Rattle.std.specs.Prelude.{◌≡◌, ◌<◌, ◌++◌, ◌^◌, IfOk, IfSome, IsTrue};
ghost use Rattle.std.specs.Ordering.{nat_cmp, eq_by_cmp};
ghost use Rattle.std.specs.Cmp.Lexicographic.{slice_cmp};
ghost use Rattle.aff_spec.specs.Names.{eight_digits, segment_in};
ghost use Rattle.aff_bevvy.specs.Segments.{AreSorted, listed_length};

use aff_model::Memory;
use aff_names::{Urn, segment_name};
use aff_outside::Segment;
use std::alloc::Global;
use std::cmp::Ordering;

fn has_name(segment: &Segment, name: &str) -> bool
    ensures { result ≡ eq_by_cmp (slice_cmp nat_cmp) name.now segment.now.0 }
{
    name == segment.name.as_str()
}

fn len(segment: &Segment) -> u64
    ensures { result ≡ segment.now.1 }
{
    segment.len
}

// How a name stands to a segment's.
fn compare(name: &str, segment: &Segment) -> Ordering
    ensures { result ≡ slice_cmp nat_cmp name.now segment.now.0 }
{
    name.cmp(&segment.name.as_str())
}

// How the names of two segments stand to each other.
fn compare_two(a: &Segment, b: &Segment) -> Ordering
    ensures { result ≡ slice_cmp nat_cmp a.now.0 b.now.0 }
{
    a.name.as_str().cmp(&b.name.as_str())
}

/// Whether the names rise, each once. One pass finds it out.
pub(crate) fn are_sorted(segments: &[Segment]) -> bool
    ensures { IsTrue result → AreSorted segments.now }
{
    for place in 1..segments.len() {
        match compare_two(&segments[place - 1], &segments[place]) {
            Ordering::Less => {}
            Ordering::Equal | Ordering::Greater => return false,
        }
    }
    true
}

/// The length of the segment with this name, in a list that is sorted by name. It halves the list until it is found.
pub fn length_of(segments: &[Segment], name: &str) -> Option<u64>
    ensures length { AreSorted segments.now → result ≡ listed_length segments.now name.now }
    ensures small { IfSome result (λ len. len < 2 ^ 64) }
{
    let mut low = 0;
    let mut high = segments.len();
    while low < high {
        let middle = low + (high - low) / 2;
        let segment = &segments[middle];
        match compare(name, segment) {
            Ordering::Less => high = middle,
            Ordering::Equal => return Some(len(segment)),
            Ordering::Greater => low = middle + 1,
        }
    }
    None
}

/// The length of the first segment with this name, in any list.
fn length_by_scan(segments: &[Segment], name: &str) -> Option<u64>
    ensures length { result ≡ listed_length segments.now name.now }
    ensures small { IfSome result (λ len. len < 2 ^ 64) }
{
    for segment in segments {
        if has_name(segment, name) {
            return Some(len(segment));
        }
    }
    None
}

/// The length of the segment of a stream with this number and suffix.
pub(crate) fn numbered_length(
    alloc: Global,
    segments: &[Segment],
    is_sorted: bool,
    stream: &Urn,
    number: u32,
    suffix: &str,
) -> Result<Option<u64>, Memory>
    requires number { number < 100000000 }
    requires sorted { IsTrue is_sorted → AreSorted segments.now }
    ensures length { IfOk result (λ len. len ≡ listed_length segments.now (segment_in stream.now (eight_digits number ++ suffix.now))) }
    ensures small { IfOk result (λ len. IfSome len (λ len. len < 2 ^ 64)) }
{
    let name = segment_name(alloc, stream, number, suffix)?;
    if is_sorted {
        Ok(length_of(segments, name.as_str()))
    } else {
        Ok(length_by_scan(segments, name.as_str()))
    }
}
