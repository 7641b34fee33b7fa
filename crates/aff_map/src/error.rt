//! Why segments are no map.
ghost use Rattle.std.specs.Prelude.{◌≡◌};
ghost use Rattle.aff_map.specs.declared.error.MapError.TheVariants.{Memory};

use std::alloc::{AllocError, AllocFailed};

/// Why the segments of a map are not opened. Entries are counted from 0, lines from 1.
#[derive(Clone, Copy, Debug, PartialEq, Eq)]
pub enum MapError {
    /// The map's length in bytes, which is no multiple of an entry's.
    Ragged(u64),
    /// The entry has no bytes.
    Empty(u64),
    /// The entry ends behind the image's end.
    PastEnd(u64),
    /// The second entry is the first one that shares a byte with an entry before it, and the first entry is the
    /// first of those.
    Overlap(u64, u64),
    /// The entry's target has no line.
    NoTarget(u64),
    /// The line is neither the stream's URN nor the IRI of a symbolic stream.
    BadTarget(u64),
    /// The entry leads behind the end of its target.
    PastTarget(u64),
    /// There was no memory for the map.
    Memory,
}

impl From<AllocError> for MapError {
    ghost from_gives = { λ _ e. e ≡ Memory };

    fn from(_: AllocError) -> Self {
        MapError::Memory
    }
}

impl<T: Drop> From<AllocFailed<T>> for MapError {
    ghost from_gives = { λ _ e. e ≡ Memory };

    fn from(_: AllocFailed<T>) -> Self {
        MapError::Memory
    }
}
