//! Why a text is refused.
ghost use Rattle.std.specs.Prelude.{◌≡◌};
ghost use Rattle.aff_turtle.specs.declared.error.TurtleError.TheVariants.{Memory};

use std::alloc::{AllocError, AllocFailed};

/// Why a text is not read. The first token that does not continue the grammar decides; the number is the line on which
/// it begins, from 1. For an end too early it is the last line, which stands behind a last line feed.
#[derive(Clone, Copy, Debug, PartialEq, Eq)]
pub enum TurtleError {
    /// That token is none of the following, or the text ends too early.
    Syntax(u64),
    /// That token is a prefixed name whose prefix is not declared before it.
    NoPrefix(u64),
    /// That token belongs to a part of Turtle that is left out here.
    Unsupported(u64),
    /// The first byte place, from 0, at which the text is not UTF-8. This comes before all others.
    Utf8(u64),
    /// There was no memory for the triples.
    Memory,
}

impl From<AllocError> for TurtleError {
    ghost from_gives = { λ _ e. e ≡ Memory };

    fn from(_: AllocError) -> Self {
        TurtleError::Memory
    }
}

impl<T: Drop> From<AllocFailed<T>> for TurtleError {
    ghost from_gives = { λ _ e. e ≡ Memory };

    fn from(_: AllocFailed<T>) -> Self {
        TurtleError::Memory
    }
}
