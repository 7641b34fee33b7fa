//! Runs of cells of one kind.
ghost use Rattle.std.specs.Prelude.{◌≡◌, ℕ, ◌+◌, ◌<◌, ◌^◌, ◌++◌, ◌↔◌, IsTrue, OnOk, length, replicate};
ghost use Rattle.aff_model.specs.Kinds.{AreGreatest, spread};

use aff_model::{Kind, Run};
use std::alloc::AllocError;

/// Puts cells of one kind behind the runs.
pub fn add_run(runs: &mut Vec<Run>, len: u64, kind: Kind) -> Result<(), AllocError>
    requires some { 0 < len }
    requires fits { length (spread runs.old.items) + len < 2 ^ 64 }
    requires greatest { AreGreatest runs.old.items }
    ensures kinds { OnOk result (spread runs.new.items ≡ spread runs.old.items ++ replicate len kind) }
    ensures greatest { OnOk result (AreGreatest runs.new.items) }
{
    let count = runs.len();
    if count > 0 && is_kind(kind, runs[count - 1].kind) {
        let before = runs[count - 1].len;
        runs[count - 1] = Run {
            len: before + len,
            kind,
        };
    } else {
        runs.push(Run { len, kind })?;
    }
    Ok(())
}

fn is_kind(kind: Kind, other: Kind) -> bool
    ensures { IsTrue result ↔ (other ≡ kind) }
{
    kind == other
}
