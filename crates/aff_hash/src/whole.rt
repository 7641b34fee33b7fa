//! The digests of bytes that lie in one piece.
ghost use Rattle.std.specs.Prelude.{◌≡◌, ◌≤◌, ◌-◌, ◌++◌, length, replicate};
ghost use Rattle.aff_hash.specs.Digest.{digest_of, filled_digest_of};

use crate::{ChunkSums, Digest, Hash};
use aff_lanes::Sha256Hasher;
use md5::{Digest as Md5Hasher, Md5};
use sha1::Sha1;
use sha2::{Digest as Sha2Hasher, Sha256, Sha512};

/// The digest of some bytes. It takes no memory.
pub fn digest(kind: Hash, bytes: &[u8]) -> Digest
    ensures kind { result.kind ≡ kind }
    ensures bytes { result.bytes ≡ filled_digest_of kind bytes.now }
{
    let bytes = match kind {
        Hash::Md5 => filled(&Md5::digest(bytes)),
        Hash::Sha1 => filled(&Sha1::digest(bytes)),
        Hash::Sha256 => filled(&Sha256::digest(bytes)),
        Hash::Sha512 => Sha512::digest(bytes),
    };
    Digest { kind, bytes }
}

/// The three digests that are kept of a chunk. It takes no memory.
pub fn chunk_sums(bytes: &[u8]) -> ChunkSums
    ensures md5 { result.md5 ≡ digest_of Hash.Md5 bytes.now }
    ensures sha1 { result.sha1 ≡ digest_of Hash.Sha1 bytes.now }
    ensures sha256 { result.sha256 ≡ digest_of Hash.Sha256 bytes.now }
{
    let mut sha256 = Sha256Hasher::new();
    sha256.update(bytes);
    ChunkSums {
        md5: Md5::digest(bytes),
        sha1: Sha1::digest(bytes),
        sha256: sha256.finish(),
    }
}

// A digest, and zeros behind it.
fn filled(digest: &[u8]) -> [u8; 64]
    requires { length digest.now ≤ 64 }
    ensures { result ≡ digest.now ++ replicate (64 - length digest.now) 0 }
{
    let mut bytes = [0; 64];
    bytes[..digest.len()].copy_from_slice(digest);
    bytes
}
