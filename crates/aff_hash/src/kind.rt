//! The hash functions, and digests under them.

/// A hash function: MD5 (RFC 1321), and SHA-1, SHA-256 and SHA-512 (FIPS 180-4).
#[derive(Clone, Copy, Debug, PartialEq, Eq)]
pub enum Hash {
    Md5,
    Sha1,
    Sha256,
    Sha512,
}

/// A digest under one hash function. It is the first bytes of `bytes`, as many as that function gives:
/// 16 for MD5, 20 for SHA-1, 32 for SHA-256 and 64 for SHA-512. The bytes behind it are 0.
#[derive(Clone, Copy, Debug, PartialEq, Eq)]
pub struct Digest {
    pub kind: Hash,
    pub bytes: [u8; 64],
}

/// The digests of one list of bytes under every hash function.
#[derive(Clone, Copy, Debug, PartialEq, Eq)]
pub struct Digests {
    pub md5: [u8; 16],
    pub sha1: [u8; 20],
    pub sha256: [u8; 32],
    pub sha512: [u8; 64],
}

/// The digests of a chunk under the three hash functions that are kept for each chunk.
#[derive(Clone, Copy, Debug, PartialEq, Eq)]
pub struct ChunkSums {
    pub md5: [u8; 16],
    pub sha1: [u8; 20],
    pub sha256: [u8; 32],
}
