//! The line of a damaged chunk.
ghost use Rattle.std.specs.Prelude.{◌≡◌, IfOk};
ghost use Rattle.std.specs.String.{string_bytes};
ghost use Rattle.aff_report.specs.Damage.{damaged_line};

use std::alloc::{AllocError, Global};

/// The line of a chunk whose bytes have another SHA-256 than was recorded of it. Want of memory is the only error.
pub fn damaged_line(
    alloc: Global,
    chunk: u64,
    recorded: &[u8; 32],
    found: &[u8; 32],
) -> Result<String, AllocError>
    ensures { IfOk result (λ line. string_bytes line ≡ damaged_line chunk recorded.now found.now) }
{
    let recorded = hex::encode(alloc, recorded)?;
    let found = hex::encode(alloc, found)?;
    format!(in alloc; "damaged {chunk} {recorded} {found}\n")
}
