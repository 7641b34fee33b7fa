//! Why a text is no script.
ghost use Rattle.std.specs.Prelude.{◌≡◌};
ghost use Rattle.aff_script.specs.declared.error.ScriptError.TheVariants.{Memory};

use std::alloc::AllocError;

/// Why a text is no script. A number is that of a line in the whole text, plan and script together; comments and
/// empty lines count.
#[derive(Clone, Copy, Debug, PartialEq, Eq)]
pub enum ScriptError {
    /// The line is of none of the five forms, or of one that may not stand there: all but `session` need a `session`
    /// before them, and behind an `after` of its session only `read` may stand.
    Shape(u64),
    /// A field of the line is no number of 64 bits in decimal without leading zeros.
    Number(u64),
    /// The line begins the 17th session, or is the 1,025th request of its session.
    TooMany(u64),
    /// The read or the raise ends behind the device's end.
    PastEnd(u64),
    /// The read is longer than 1,048,576 bytes.
    TooLong(u64),
    /// There was no memory for the script.
    Memory,
}

impl From<AllocError> for ScriptError {
    ghost from_gives = { λ _ error. error ≡ Memory };

    fn from(_: AllocError) -> Self {
        ScriptError::Memory
    }
}
