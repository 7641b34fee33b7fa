//! The line of devices that are refused.
ghost use Rattle.std.specs.Prelude.{◌≡◌, IfOk};
ghost use Rattle.std.specs.String.{string_bytes};
ghost use Rattle.aff_command.specs.Refusals.{refusal_line};

use crate::devices::Refusal;
use std::alloc::{AllocError, Global};

/// The line of devices that are refused, with its line feed.
pub fn refusal_line(alloc: Global, refusal: Refusal) -> Result<String, AllocError>
    ensures { IfOk result (λ line. string_bytes line ≡ refusal_line refusal) }
{
    match refusal {
        Refusal::Missing => format!(in alloc; "error devices none\n"),
        Refusal::Many(count) => format!(in alloc; "error devices many {count}\n"),
        Refusal::Block(number, bytes) => format!(in alloc;
            "error devices sector {number} {bytes}\n"
        ),
        Refusal::Size(number, bytes) => format!(in alloc; "error devices size {number} {bytes}\n"),
        Refusal::Differs(number) => format!(in alloc; "error devices differ {number}\n"),
    }
}
