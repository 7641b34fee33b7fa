//! The line that states a digest.
ghost use Rattle.std.specs.Prelude.{◌≡◌, IfOk};
ghost use Rattle.std.specs.String.{string_bytes};
ghost use Rattle.aff_spec.specs.Digests.{digest_line};

use aff_model::Memory;
use std::alloc::{AllocError, Global};

/// The line of a digest: the hash function's name, a space, the bytes as hexadecimal digits in lower
/// case, and a line feed.
pub fn hex_line(alloc: Global, name: &str, bytes: &[u8]) -> Result<String, Memory>
    ensures { IfOk result (λ text. string_bytes text ≡ digest_line name.now bytes.now) }
{
    line(alloc, name, bytes).map_err(|_| Memory)
}

fn line(alloc: Global, name: &str, bytes: &[u8]) -> Result<String, AllocError>
    ensures { IfOk result (λ text. string_bytes text ≡ digest_line name.now bytes.now) }
{
    let digits = hex::encode(alloc, bytes)?;
    format!(in alloc; "{name} {digits}\n")
}
