//! Digests of a whole volume, against the recorded ones.
ghost use Rattle.std.specs.Prelude.{◌≡◌, ◌≤◌, length, MatchOption};
ghost use Rattle.aff_blockhash.specs.Recorded.{IsDigest, filled};
ghost use Rattle.aff_verify.specs.Differences.{IsLinearDifference, IsLinearOf, IsMapDifference, linear_in};

use crate::Finding;
use aff_hash::{Digest, Digests, Hash};

/// The first of the four linear hashes that differs.
pub(crate) fn first_linear(recorded: &Digests, found: &Digests) -> Option<Finding>
    ensures { MatchOption result ((kind : Hash) → linear_in recorded.now kind ≡ linear_in found.now kind) (IsLinearDifference recorded.now found.now) }
{
    if recorded.md5 != found.md5 {
        return Some(linear_finding(Hash::Md5, &recorded.md5, &found.md5));
    }
    if recorded.sha1 != found.sha1 {
        return Some(linear_finding(Hash::Sha1, &recorded.sha1, &found.sha1));
    }
    if recorded.sha256 != found.sha256 {
        return Some(linear_finding(Hash::Sha256, &recorded.sha256, &found.sha256));
    }
    if recorded.sha512 != found.sha512 {
        return Some(linear_finding(Hash::Sha512, &recorded.sha512, &found.sha512));
    }
    None
}

// Two linear hashes.
fn linear_finding(kind: Hash, recorded: &[u8], found: &[u8]) -> Finding
    requires recorded { length recorded.now ≤ 64 }
    requires found { length found.now ≤ 64 }
    ensures { IsLinearOf kind recorded.now found.now result }
{
    Finding::Linear {
        kind,
        recorded: digest_from(kind, recorded),
        found: digest_from(kind, found),
    }
}

/// The block map hash, where it differs.
pub(crate) fn map_finding(recorded: &[u8; 64], found: &[u8; 64]) -> Option<Finding>
    ensures { MatchOption result (recorded.now ≡ found.now) (IsMapDifference recorded.now found.now) }
{
    if recorded == found {
        return None;
    }
    Some(Finding::BlockMap {
        recorded: digest_from(Hash::Sha512, recorded),
        found: digest_from(Hash::Sha512, found),
    })
}

// A digest as it is answered.
fn digest_from(kind: Hash, digest: &[u8]) -> Digest
    requires { length digest.now ≤ 64 }
    ensures { IsDigest result kind digest.now }
{
    Digest {
        kind,
        bytes: padded(digest),
    }
}

// A digest, and zeros behind it.
fn padded(digest: &[u8]) -> [u8; 64]
    requires { length digest.now ≤ 64 }
    ensures { result ≡ filled digest.now }
{
    let mut bytes = [0; 64];
    bytes[..digest.len()].copy_from_slice(digest);
    bytes
}
