//! What a comparison with a recorded digest gives.

use aff_hash::Digest;

/// Whether some bytes have a recorded digest.
#[derive(Clone, Copy, Debug, PartialEq, Eq)]
pub enum Check {
    /// Their digest is the recorded one.
    Match,
    /// Their digest is another one.
    Differs { recorded: Digest, found: Digest },
}
