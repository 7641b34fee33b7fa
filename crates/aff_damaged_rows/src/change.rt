//! Changes of a segment in one place.
use std::alloc::Global;
use std::test::Fail;

/// What was done to a segment.
#[derive(Clone, Copy)]
pub enum Change {
    Gone,
    Empty,
    /// It has not its last bytes, so many.
    Cut(usize),
    /// It has not its last line.
    LastLineGone,
    /// It has another byte at this offset.
    Byte(usize, u8),
    /// It has the second text where the first stood.
    Text(&'static str, &'static str),
    /// It stands twice, one behind the other.
    Twice,
}

/// Two parts, one after the other.
fn joined(alloc: Global, first: &[u8], second: &[u8]) -> Result<Vec<u8>, Fail> {
    let mut bytes = Vec::new(alloc);
    bytes.extend_from_slice(first)?;
    bytes.extend_from_slice(second)?;
    Ok(bytes)
}

/// The bytes with the second text where the first stood.
fn with_text(alloc: Global, bytes: &[u8], old: &str, new: &str) -> Result<Vec<u8>, Fail> {
    let old = old.as_bytes();
    for at in 0..bytes.len() {
        if bytes[at..].starts_with(old) {
            let front = joined(alloc, &bytes[..at], new.as_bytes())?;
            return joined(alloc, &front, &bytes[at + old.len()..]);
        }
    }
    Err("no such text")?
}

/// How many bytes a text has before its last line.
fn before_last_line(bytes: &[u8]) -> usize {
    let mut before = 0;
    for at in 1..bytes.len() {
        if bytes[at - 1] == b'\n' {
            before = at;
        }
    }
    before
}

/// The bytes of a segment after a change; none where it is gone.
pub fn changed(alloc: Global, bytes: &[u8], change: Change) -> Result<Option<Vec<u8>>, Fail> {
    let rest = match change {
        Change::Gone => return Ok(None),
        Change::Empty => Vec::new(alloc),
        Change::Cut(count) => joined(alloc, &bytes[..bytes.len().saturating_sub(count)], &[])?,
        Change::LastLineGone => joined(
            alloc,
            &bytes[..before_last_line(bytes).min(bytes.len())],
            &[],
        )?,
        Change::Byte(at, byte) => with_byte(alloc, bytes, at, byte)?,
        Change::Text(old, new) => with_text(alloc, bytes, old, new)?,
        Change::Twice => joined(alloc, bytes, bytes)?,
    };
    Ok(Some(rest))
}

/// The bytes with another one at an offset.
fn with_byte(alloc: Global, bytes: &[u8], at: usize, byte: u8) -> Result<Vec<u8>, Fail> {
    let mut bytes = joined(alloc, bytes, &[])?;
    if at >= bytes.len() {
        return Err("no such byte")?;
    }
    bytes[at] = byte;
    Ok(bytes)
}
