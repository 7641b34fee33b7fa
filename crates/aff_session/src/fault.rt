//! Why a session is not answered.
ghost use Rattle.std.specs.Prelude.{◌≢◌};
ghost use Rattle.aff_session.specs.Faults.{IsFaultOf};

use aff_analyst::ReadError;

/// Why a session is not answered: its first fault.
#[derive(Clone, Copy, Debug, PartialEq, Eq)]
pub enum SessionFault {
    /// A fetch failed.
    Failed,
    /// The bytes that were fetched for a chunk have another SHA-256 than its piece records.
    Damaged {
        chunk: u64,
        recorded: [u8; 32],
        found: [u8; 32],
    },
    /// There was no memory for an answer, or what was seen could not be tied to the finished list.
    Memory,
}

// The fault that an error of a read is, where the range may be asked.
pub(crate) fn fault_of(error: ReadError) -> SessionFault
    requires short { error ≢ ReadError.TooLong }
    requires inside { error ≢ ReadError.PastEnd }
    ensures { IsFaultOf error result }
{
    match error {
        ReadError::TooLong | ReadError::PastEnd => unreachable!(),
        ReadError::Failed => SessionFault::Failed,
        ReadError::Damaged {
            chunk,
            recorded,
            found,
        } => SessionFault::Damaged {
            chunk,
            recorded,
            found,
        },
    }
}
