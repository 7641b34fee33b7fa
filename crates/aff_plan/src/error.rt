//! Why a text is no plan.
ghost use Rattle.std.specs.Prelude.{◌≡◌};
ghost use Rattle.aff_plan.specs.declared.error.PlanError.TheVariants.{Memory};

use std::alloc::AllocError;

/// Why a text is no plan. A number is that of a line of the text, from 1; comments and empty lines count.
#[derive(Clone, Copy, Debug, PartialEq, Eq)]
pub enum PlanError {
    /// The line is not `extent` and three fields with one space between two of them.
    Shape(u64),
    /// A field of the line is no number of 64 bits in decimal without leading zeros.
    Number(u64),
    /// The offset or the length is no multiple of the block, or the length is 0.
    Sector(u64),
    /// The extent is longer than 67,108,864 bytes.
    TooLong(u64),
    /// The line is that of the 65,537th extent.
    TooMany(u64),
    /// The extent ends behind the device's end.
    PastEnd(u64),
    /// The extent of the first line shares a byte with that of the second, which stands before it.
    Overlap(u64, u64),
    /// The priority is over 9.
    Priority(u64),
    /// The lengths up to this line's add up to more than 2^40 bytes.
    Total(u64),
    /// There was no memory for the plan.
    Memory,
}

impl From<AllocError> for PlanError {
    ghost from_gives = { λ _ error. error ≡ Memory };

    fn from(_: AllocError) -> Self {
        PlanError::Memory
    }
}
