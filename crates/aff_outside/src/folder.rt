//! A folder of segments that grow at their ends.
ghost use Rattle.std.specs.Prelude.{◌≡◌, ◌⊎◌, ◌≤◌, ℕ, Bool, All, length, take, drop, IfOk, OnOk, OnErr, IsErrOf, IsTrue};
ghost use Rattle.std.specs.Ordering.{nat_cmp, eq_by_cmp};
ghost use Rattle.std.specs.Cmp.Lexicographic.{slice_cmp};
ghost use Rattle.aff_outside.specs.declared.folder.FolderError.TheVariants.{Memory};
ghost use Rattle.aff_model.specs.Causes.{HasCause};
ghost use Rattle.aff_model.specs.Held.{Held, appended, bytes_of, IsInside, lengths};

use crate::receipt::{Peek, Telling};
use std::alloc::{AllocError, AllocFailed};
use std::marker::Model;

/// Why a call of a folder gave nothing: the folder failed, or memory was refused.
#[derive(Clone, Copy, Debug, PartialEq, Eq)]
pub enum FolderError {
    Failed,
    Memory,
}

impl From<AllocError> for FolderError {
    ghost from_gives = { λ _ e. e ≡ Memory };

    fn from(_: AllocError) -> Self {
        FolderError::Memory
    }
}

impl<T: Drop> From<AllocFailed<T>> for FolderError {
    ghost from_gives = { λ _ e. e ≡ Memory };

    fn from(_: AllocFailed<T>) -> Self {
        FolderError::Memory
    }
}

/// A segment's name and its length in bytes.
#[derive(Drop)]
pub struct Segment {
    pub name: String,
    pub len: u64,
}

impl Model for Segment {
    ghost use Rattle.std.specs.Prelude.{List, ℕ};
    ghost use Rattle.std.specs.String.{string_bytes};

    ghost Value = { List ℕ × ℕ };

    ghost view = { λ s. (string_bytes s.name, s.len) };
}

impl Segment {
    /// Whether the segment has this name.
    pub(crate) fn has_name(&self, name: &str) -> bool
        ensures { result ≡ eq_by_cmp (slice_cmp nat_cmp) name.now self.now.0 }
    {
        name == self.name.as_str()
    }
}

pub trait Folder: Send + Drop {
    /// What an append gives.
    type Receipt: Telling;

    /// What fetches appended bytes again, beside the folder.
    type Peek: Peek<Self::Receipt>;

    /// Whether folders of this type tell what they hold.
    ghost tells: { Bool };

    /// What the folder holds, where it tells that.
    ghost held: { Self → Held };

    /// How often the folder has failed.
    ghost folder_faults: { Self → ℕ };

    /// Each segment once, with its length, sorted by the bytes of its name. What the folder holds stays,
    /// whatever the answer.
    fn list(&mut self) -> Result<Vec<Segment>, FolderError>
        ensures segments { IfOk result (λ segments. IsTrue tells → segments.items ≡ lengths (held self.old)) }
        ensures same { IsTrue tells → held self.new ≡ held self.old }
        ensures cause { HasCause (folder_faults self.old) (folder_faults self.new) (IsErrOf result FolderError.Failed) };

    /// Adds the bytes at the segment's end, and gives a receipt of them. A segment that is not there is made,
    /// also for no bytes. After `Failed` a part of the bytes may have been added, from their front; after
    /// `Memory` none was. Every other segment stays as it was.
    fn append(&mut self, name: &str, bytes: &[u8]) -> Result<Self::Receipt, FolderError>
        ensures ok { OnOk result (IsTrue tells → held self.new ≡ appended (held self.old) name.now bytes.now) }
        ensures receipt { IfOk result (λ receipt. IsTrue tells → Self.Receipt.told receipt ≡ bytes.now) }
        ensures part { OnErr result (IsTrue tells → (held self.new ≡ held self.old)
            ⊎ ((n : ℕ) × (n ≤ length bytes.now) × (held self.new ≡ appended (held self.old) name.now (take n bytes.now)))) }
        ensures memory { IsErrOf result FolderError.Memory → IsTrue tells → held self.new ≡ held self.old }
        ensures cause { HasCause (folder_faults self.old) (folder_faults self.new) (IsErrOf result FolderError.Failed) };

    /// Reads the segment's bytes from `at` on, as many as `out` has room for. What the folder holds stays,
    /// whatever the answer.
    fn read_at(&mut self, name: &str, at: u64, out: &mut [u8]) -> Result<(), FolderError>
        requires { IsTrue tells → IsInside (held self.old) name.now at (length out.old) }
        ensures bytes { OnOk result (IsTrue tells → out.new ≡ take (length out.old) (drop at (bytes_of (held self.old) name.now))) }
        ensures same { IsTrue tells → held self.new ≡ held self.old }
        ensures cause { HasCause (folder_faults self.old) (folder_faults self.new) (IsErrOf result FolderError.Failed) };

    /// Gives so many peeks, none of which has failed. What the folder holds stays, whatever the answer.
    fn peeks(&mut self, count: usize) -> Result<Vec<Self::Peek>, FolderError>
        ensures count { IfOk result (λ peeks. length peeks.items ≡ count) }
        ensures fresh { IfOk result (λ peeks. All (λ peek. Self.Peek.peek_faults peek ≡ 0) peeks.items) }
        ensures same { IsTrue tells → held self.new ≡ held self.old }
        ensures cause { HasCause (folder_faults self.old) (folder_faults self.new) (IsErrOf result FolderError.Failed) };

    /// Receipts tell exactly where the folder does.
    ghost receipts_tell: { Self.Receipt.receipt_tells ≡ tells };
}
