//! The runs of an answer.
ghost use Rattle.std.specs.Prelude.{◌≡◌, ℕ, ◌+◌, ◌<◌, ◌≤◌, ◌^◌, ◌++◌, ◌↔◌, IsTrue, IfOk, [], length, replicate};
ghost use Rattle.aff_model.specs.declared.limits.TheConstants as limits;
ghost use Rattle.aff_model.specs.Kinds.{AreGreatest, spread};

use aff_model::{Kind, MAX_RUNS, Memory, Run};
use std::alloc::Global;
use std::marker::Model;

/// Runs of one kind, one behind the other, with room for those of the longest read.
#[derive(Drop)]
pub struct RunList {
    runs: Vec<Run>,
}

impl Model for RunList {
    ghost use Rattle.std.specs.Prelude.{◌≤◌, List, vec_capacity};
    ghost use Rattle.aff_model.specs.declared.cell.Run as declared;
    ghost use Rattle.aff_model.specs.declared.limits.TheConstants as limits;

    ghost Value = { List declared.Run };

    ghost view = { λ l. l.runs.items };

    ghost invariant = { λ l. limits.MAX_RUNS ≤ vec_capacity l.runs };
}

impl RunList {
    /// No run, with the room taken.
    pub fn new(alloc: Global) -> Result<RunList, Memory>
        ensures { IfOk result (λ l. l ≡ []) }
    {
        let Ok(runs) = Vec::with_capacity(alloc, MAX_RUNS) else {
            return Err(Memory);
        };
        Ok(RunList { runs })
    }

    /// The runs, in the order of their bytes.
    pub fn runs(&self) -> &[Run]
        ensures { result.now ≡ self.now }
    {
        self.runs.as_slice()
    }

    pub(crate) fn clear(&mut self)
        ensures { self.new ≡ [] }
    {
        self.runs.clear();
    }

    /// Puts the run of some bytes of one kind behind the others.
    pub(crate) fn add(&mut self, bytes: &[u8], kind: Kind)
        requires some { 0 < length bytes.now }
        requires fits { length (spread self.old) + length bytes.now < 2 ^ 64 }
        requires room { length self.old < limits.MAX_RUNS }
        requires greatest { AreGreatest self.old }
        ensures kinds { spread self.new ≡ spread self.old ++ replicate (length bytes.now) kind }
        ensures greatest { AreGreatest self.new }
        ensures few { length self.new ≤ length self.old + 1 }
    {
        self.add_len(bytes.len() as u64, kind);
    }

    fn add_len(&mut self, len: u64, kind: Kind)
        requires some { 0 < len }
        requires fits { length (spread self.old) + len < 2 ^ 64 }
        requires room { length self.old < limits.MAX_RUNS }
        requires greatest { AreGreatest self.old }
        ensures kinds { spread self.new ≡ spread self.old ++ replicate len kind }
        ensures greatest { AreGreatest self.new }
        ensures few { length self.new ≤ length self.old + 1 }
    {
        let count = self.runs.len();
        if count > 0 && is_kind(kind, self.runs[count - 1].kind) {
            let before = self.runs[count - 1].len;
            self.runs[count - 1] = Run {
                len: before + len,
                kind,
            };
        } else {
            self.runs.push_reserved(Run { len, kind });
        }
    }
}

fn is_kind(kind: Kind, other: Kind) -> bool
    ensures { IsTrue result ↔ (other ≡ kind) }
{
    kind == other
}
