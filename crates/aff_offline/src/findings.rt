//! The lines of what is not as it was recorded.
ghost use Rattle.std.specs.Prelude.{◌≡◌, IfOk};
ghost use Rattle.std.specs.String.{string_bytes};
ghost use Rattle.aff_hash.specs.Digest.{digest_size};
ghost use Rattle.hex.specs.Hex.{encode_lower};
ghost use Rattle.aff_offline.specs.Findings.{digits_of, finding_line, kind_word};

use aff_hash::{Digest, Hash};
use aff_verify::Finding;
use std::alloc::{AllocError, Global};

// The name of a hash function.
fn kind_word(kind: Hash) -> &'static str
    ensures { result.now ≡ kind_word kind }
{
    match kind {
        Hash::Md5 => "md5",
        Hash::Sha1 => "sha1",
        Hash::Sha256 => "sha256",
        Hash::Sha512 => "sha512",
    }
}

// How many bytes a digest has.
fn digest_len(kind: Hash) -> usize
    ensures { result ≡ digest_size kind }
{
    match kind {
        Hash::Md5 => 16,
        Hash::Sha1 => 20,
        Hash::Sha256 => 32,
        Hash::Sha512 => 64,
    }
}

// A digest in hexadecimal digits.
fn digits(alloc: Global, digest: &Digest) -> Result<String, AllocError>
    ensures { IfOk result (λ text. string_bytes text ≡ digits_of digest.now) }
{
    let len = digest_len(digest.kind);
    hex::encode(alloc, &digest.bytes[..len])
}

/// The line of what a verification found.
pub fn finding_line(alloc: Global, finding: Finding) -> Result<String, AllocError>
    ensures { IfOk result (λ line. string_bytes line ≡ finding_line finding) }
{
    match finding {
        Finding::Block {
            kind,
            chunk,
            recorded,
            found,
        } => {
            let kind = kind_word(kind);
            let recorded = digits(alloc, &recorded)?;
            let found = digits(alloc, &found)?;
            format!(in alloc; "unsound block {kind} {chunk} {recorded} {found}\n")
        }
        Finding::Linear {
            kind,
            recorded,
            found,
        } => {
            let kind = kind_word(kind);
            let recorded = digits(alloc, &recorded)?;
            let found = digits(alloc, &found)?;
            format!(in alloc; "unsound linear {kind} {recorded} {found}\n")
        }
        Finding::BlockMap { recorded, found } => {
            let recorded = digits(alloc, &recorded)?;
            let found = digits(alloc, &found)?;
            format!(in alloc; "unsound blockmap {recorded} {found}\n")
        }
    }
}
