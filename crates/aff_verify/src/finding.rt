//! What a verification finds.

use aff_hash::{Digest, Hash};

/// A recorded digest that is not that of what is held.
#[derive(Clone, Copy, Debug, PartialEq, Eq)]
pub enum Finding {
    /// A block hash of a chunk.
    Block {
        kind: Hash,
        chunk: u64,
        recorded: Digest,
        found: Digest,
    },
    /// A linear hash of the image.
    Linear {
        kind: Hash,
        recorded: Digest,
        found: Digest,
    },
    /// The block map hash.
    BlockMap {
        recorded: Digest,
        found: Digest,
    },
}

/// What a volume is found to be.
#[derive(Clone, Copy, Debug, PartialEq, Eq)]
pub enum Verdict {
    /// Everything that it records agrees.
    Sound,
    /// The first that does not.
    Unsound(Finding),
}
