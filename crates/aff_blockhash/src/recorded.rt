//! A chunk against the digest that is recorded of it.
ghost use Rattle.std.specs.Prelude.{◌≡◌, ◌+◌, ◌*◌, ◌≤◌, ◌↔◌, ◌++◌, ◌-◌, length, replicate};
ghost use Rattle.aff_hash.specs.Digest.{digest_of, digest_size, filled_digest_of};
ghost use Rattle.aff_blockhash.specs.Recorded.{digest_at, filled, IfDiffers};

use crate::Check;
use aff_hash::{Digest, Hash, digest};

/// Compares the digest of some bytes with the recorded digest of a place, counted from 0. It takes no memory.
pub fn check(kind: Hash, recorded: &[u8], place: usize, bytes: &[u8]) -> Check
    requires { digest_size kind * (place + 1) ≤ length recorded.now }
    ensures same { (result ≡ Check.Match) ↔ (digest_at kind recorded.now place ≡ digest_of kind bytes.now) }
    ensures differs { IfDiffers result kind (digest_at kind recorded.now place) (digest_of kind bytes.now) }
{
    let size = size_of(kind);
    let kept = &recorded[size * place..size * (place + 1)];
    let found = digest(kind, bytes);
    if kept == &found.bytes[..size] {
        Check::Match
    } else {
        Check::Differs {
            recorded: Digest {
                kind,
                bytes: padded(kept),
            },
            found,
        }
    }
}

// How many bytes a digest has.
fn size_of(kind: Hash) -> usize
    ensures { result ≡ digest_size kind }
{
    match kind {
        Hash::Md5 => 16,
        Hash::Sha1 => 20,
        Hash::Sha256 => 32,
        Hash::Sha512 => 64,
    }
}

// A digest, and zeros behind it.
fn padded(digest: &[u8]) -> [u8; 64]
    requires { length digest.now ≤ 64 }
    ensures { result ≡ filled digest.now }
{
    let mut bytes = [0; 64];
    bytes[..digest.len()].copy_from_slice(digest);
    bytes
}
