//! A folder in memory.
ghost use Rattle.std.specs.Prelude.{◌≡◌, ◌↔◌, ◌≤◌, true, All, length, take, drop, refl, IfOk, OnOk, OnErr, IsErrOf, IsTrue};
ghost use Rattle.std.specs.FinMap.{empty};
ghost use Rattle.aff_model.specs.Causes.{HasCause};
ghost use Rattle.aff_model.specs.Held.{appended, bytes_of, IsInside, lengths};
ghost use Rattle.aff_memory.specs.Counted.{fails, counted, uncalled};

use crate::calls::Calls;
use crate::peek::{MemoryPeek, MemoryReceipt, peeks_of};
use crate::shared_bytes::SharedBytes;
use crate::shelf::Shelf;
use aff_outside::{Folder, FolderError, Segment};
use std::alloc::Global;
use std::marker::Model;

/// Holds its segments in memory.
#[derive(Drop)]
pub struct MemoryFolder {
    alloc: Global,
    shelf: Shelf,
    calls: Calls,
    peek_fail: Vec<u64>,
}

impl Model for MemoryFolder {
    ghost use Rattle.aff_memory.specs.Shelf.{Shelved, shelved_code};

    ghost Value = { Shelved };

    ghost coded = { shelved_code };

    ghost view = { λ f. record { held = f.shelf; calls = f.calls; peek_fail = f.peek_fail.items } };
}

impl MemoryFolder {
    /// A folder with no segment. `fail` lists the calls that are to fail, from 1, and `peek_fail` those of each
    /// peek.
    pub fn new(alloc: Global, fail: Vec<u64>, peek_fail: Vec<u64>) -> MemoryFolder
        ensures { result ≡ record { held = empty; calls = uncalled fail.items; peek_fail = peek_fail.items } }
    {
        MemoryFolder {
            alloc,
            shelf: Shelf::new(alloc),
            calls: Calls::new(fail),
            peek_fail,
        }
    }

    /// How many calls of `list`, `append`, `read_at` and `peeks` there were.
    pub fn calls(&self) -> u64
        ensures { result ≡ self.now.calls.made }
    {
        self.calls.made()
    }
}

impl Folder for MemoryFolder {
    type Receipt = MemoryReceipt;

    type Peek = MemoryPeek;

    ghost tells = { true };

    ghost held = { λ f. f.held };

    ghost folder_faults = { λ f. f.calls.faults };

    fn list(&mut self) -> Result<Vec<Segment>, FolderError>
        ensures segments { IfOk result (λ segments. segments.items ≡ lengths self.old.held) }
        ensures same { self.new.held ≡ self.old.held }
        ensures cause { HasCause self.old.calls.faults self.new.calls.faults (IsErrOf result FolderError.Failed) }
        ensures failed { IsErrOf result FolderError.Failed ↔ IsTrue (fails self.old.calls) }
        ensures calls { self.new.calls ≡ counted self.old.calls }
        ensures peek_fail { self.new.peek_fail ≡ self.old.peek_fail }
    {
        if self.calls.fails() {
            return Err(FolderError::Failed);
        }
        Ok(self.shelf.list()?)
    }

    /// After any error the folder holds what it held.
    fn append(&mut self, name: &str, bytes: &[u8]) -> Result<MemoryReceipt, FolderError>
        ensures ok { OnOk result (self.new.held ≡ appended self.old.held name.now bytes.now) }
        ensures receipt { IfOk result (λ receipt. receipt ≡ bytes.now) }
        ensures cause { HasCause self.old.calls.faults self.new.calls.faults (IsErrOf result FolderError.Failed) }
        ensures same { OnErr result (self.new.held ≡ self.old.held) }
        ensures failed { IsErrOf result FolderError.Failed ↔ IsTrue (fails self.old.calls) }
        ensures calls { self.new.calls ≡ counted self.old.calls }
        ensures peek_fail { self.new.peek_fail ≡ self.old.peek_fail }
    {
        if self.calls.fails() {
            return Err(FolderError::Failed);
        }
        let shared = SharedBytes::new(self.alloc, bytes)?;
        let receipt = MemoryReceipt::new(shared.share()?);
        self.shelf.append(name, shared)?;
        Ok(receipt)
    }

    /// Takes no memory.
    fn read_at(&mut self, name: &str, at: u64, out: &mut [u8]) -> Result<(), FolderError>
        requires { IsInside self.old.held name.now at (length out.old) }
        ensures bytes { OnOk result (out.new ≡ take (length out.old) (drop at (bytes_of self.old.held name.now))) }
        ensures same { self.new.held ≡ self.old.held }
        ensures cause { HasCause self.old.calls.faults self.new.calls.faults (IsErrOf result FolderError.Failed) }
        ensures failed { IsErrOf result FolderError.Failed ↔ IsTrue (fails self.old.calls) }
        ensures memory { ¬ (IsErrOf result FolderError.Memory) }
        ensures calls { self.new.calls ≡ counted self.old.calls }
        ensures peek_fail { self.new.peek_fail ≡ self.old.peek_fail }
    {
        if self.calls.fails() {
            return Err(FolderError::Failed);
        }
        self.shelf.read_at(name, at, out);
        Ok(())
    }

    fn peeks(&mut self, count: usize) -> Result<Vec<MemoryPeek>, FolderError>
        ensures count { IfOk result (λ peeks. length peeks.items ≡ count) }
        ensures each { IfOk result (λ peeks. All (λ peek. peek ≡ uncalled self.old.peek_fail) peeks.items) }
        ensures fresh { IfOk result (λ peeks. All (λ peek. peek.faults ≡ 0) peeks.items) }
        ensures same { self.new.held ≡ self.old.held }
        ensures cause { HasCause self.old.calls.faults self.new.calls.faults (IsErrOf result FolderError.Failed) }
        ensures failed { IsErrOf result FolderError.Failed ↔ IsTrue (fails self.old.calls) }
        ensures calls { self.new.calls ≡ counted self.old.calls }
        ensures peek_fail { self.new.peek_fail ≡ self.old.peek_fail }
    {
        if self.calls.fails() {
            return Err(FolderError::Failed);
        }
        Ok(peeks_of(self.alloc, &self.peek_fail, count)?)
    }

    ghost receipts_tell = { refl };
}
