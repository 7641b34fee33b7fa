//! The hashes of a volume.
use aff_hash::Digests;

/// The hashes of a finished volume: the linear hashes, which are the digests of all bytes of its image one after
/// another, and the block map hash.
#[derive(Clone, Copy, Debug, PartialEq, Eq)]
pub struct Hashes {
    pub linear: Digests,
    pub block_map: [u8; 64],
}
