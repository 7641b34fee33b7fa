//! The lines that state the digests of an image.
ghost use Rattle.std.specs.Prelude.{◌≡◌, ◌++◌, IfOk};
ghost use Rattle.std.specs.String.{string_bytes};
ghost use Rattle.aff_spec.specs.Digests.{digest_lines};

use aff_hash::{Digests, hex_line};
use aff_model::Memory;
use std::alloc::{AllocError, Global};

/// The four lines of an image's digests, from `md5` to `sha512`. Want of memory is the only error.
pub fn digest_lines(alloc: Global, digests: &Digests) -> Result<String, Memory>
    ensures { IfOk result (λ text. string_bytes text ≡ digest_lines digests.now.md5 digests.now.sha1 digests.now.sha256 digests.now.sha512) }
{
    let md5 = hex_line(alloc, "md5", &digests.md5)?;
    let sha1 = hex_line(alloc, "sha1", &digests.sha1)?;
    let sha256 = hex_line(alloc, "sha256", &digests.sha256)?;
    let sha512 = hex_line(alloc, "sha512", &digests.sha512)?;
    joined(alloc, &md5, &sha1, &sha256, &sha512).map_err(|_| Memory)
}

// Four texts, one after another.
fn joined(
    alloc: Global,
    first: &str,
    second: &str,
    third: &str,
    fourth: &str,
) -> Result<String, AllocError>
    ensures { IfOk result (λ text. string_bytes text ≡ first.now ++ (second.now ++ (third.now ++ fourth.now))) }
{
    format!(in alloc; "{first}{second}{third}{fourth}")
}
