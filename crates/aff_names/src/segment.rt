//! Names of folders and segments.
ghost use Rattle.std.specs.Prelude.{◌≡◌, ◌+◌, ◌%◌, ◌++◌, ◌<◌, IfOk};
ghost use Rattle.std.specs.String.{string_bytes};
ghost use Rattle.aff_spec.specs.Names as names;

use crate::Urn;
use aff_model::Memory;
use percent_encoding::{AsciiSet, NON_ALPHANUMERIC, ascii_set, ascii_str, utf8_percent_encode};
use std::alloc::{AllocError, Global};

// What a folder's name has percent_encoded: all but letters, digits, `-`, `.` and `_`.
const ESCAPED: AsciiSet = ascii_set!(NON_ALPHANUMERIC.remove(b'-').remove(b'.').remove(b'_'));

/// The name of the folder in which the segments of a URN lie.
pub fn folder_name(alloc: Global, urn: &Urn) -> Result<String, Memory>
    ensures { IfOk result (λ name. string_bytes name ≡ names.folder_name urn.now) }
{
    percent_encoded(alloc, urn.text()).map_err(|_| Memory)
}

/// The name of a numbered segment of a stream: a bevvy, or with a suffix what belongs to it.
pub fn segment_name(
    alloc: Global,
    stream: &Urn,
    number: u32,
    suffix: &str,
) -> Result<String, Memory>
    requires { number < 100000000 }
    ensures { IfOk result (λ name. string_bytes name ≡ names.segment_in stream.now (names.eight_digits number ++ suffix.now)) }
{
    numbered(alloc, stream.text(), number, suffix).map_err(|_| Memory)
}

/// The name of a segment of an image that has no number: its `map`, or `idx`, the list of the map's targets.
pub fn named_segment(alloc: Global, image: &Urn, name: &str) -> Result<String, Memory>
    ensures { IfOk result (λ segment. string_bytes segment ≡ names.segment_in image.now name.now) }
{
    named(alloc, image.text(), name).map_err(|_| Memory)
}

// A text as a folder is named by it.
fn percent_encoded(alloc: Global, text: &str) -> Result<String, AllocError>
    ensures { IfOk result (λ name. string_bytes name ≡ names.folder_name text.now) }
{
    let mut name = String::new(alloc);
    utf8_percent_encode(text, ESCAPED).append_to(&mut name)?;
    Ok(name)
}

// A numbered segment in the folder that a text names.
fn numbered(alloc: Global, text: &str, number: u32, suffix: &str) -> Result<String, AllocError>
    requires { number < 100000000 }
    ensures { IfOk result (λ name. string_bytes name ≡ names.segment_in text.now (names.eight_digits number ++ suffix.now)) }
{
    let folder = percent_encoded(alloc, text)?;
    let digits = eight_digits(number);
    let digits = ascii_str(&digits);
    format!(in alloc; "{folder}/{digits}{suffix}")
}

// A segment in the folder that a text names.
fn named(alloc: Global, text: &str, name: &str) -> Result<String, AllocError>
    ensures { IfOk result (λ segment. string_bytes segment ≡ names.segment_in text.now name.now) }
{
    let folder = percent_encoded(alloc, text)?;
    format!(in alloc; "{folder}/{name}")
}

// Eight decimal digits, with zeros in front.
fn eight_digits(number: u32) -> [u8; 8]
    ensures { result ≡ names.eight_digits number }
{
    [
        digit(number / 10_000_000),
        digit(number / 1_000_000),
        digit(number / 100_000),
        digit(number / 10_000),
        digit(number / 1_000),
        digit(number / 100),
        digit(number / 10),
        digit(number),
    ]
}

// The last decimal digit.
fn digit(number: u32) -> u8
    ensures { result ≡ 48 + number % 10 }
{
    b'0' + (number % 10) as u8
}
