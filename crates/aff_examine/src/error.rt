//! Why an examiner is not shown all.
ghost use Rattle.std.specs.Prelude.{◌≢◌};
ghost use Rattle.aff_examine.specs.Faults.{IsFaultOf};

use aff_analyst::ReadError;

/// Why an examiner is not shown a piece. It has seen those before it.
#[derive(Clone, Copy, Debug, PartialEq, Eq)]
pub enum FollowError {
    /// A fetch failed.
    Failed,
    /// The bytes that were fetched for a chunk have another SHA-256 than its piece records.
    Damaged {
        chunk: u64,
        recorded: [u8; 32],
        found: [u8; 32],
    },
    /// The examiner had no memory for it, or what was seen could not be tied to the finished list.
    Memory,
}

// The fault that an error of a read is, where the range may be read.
pub(crate) fn fault_of(error: ReadError) -> FollowError
    requires short { error ≢ ReadError.TooLong }
    requires inside { error ≢ ReadError.PastEnd }
    ensures { IsFaultOf error result }
{
    match error {
        ReadError::TooLong | ReadError::PastEnd => unreachable!(),
        ReadError::Failed => FollowError::Failed,
        ReadError::Damaged {
            chunk,
            recorded,
            found,
        } => FollowError::Damaged {
            chunk,
            recorded,
            found,
        },
    }
}
