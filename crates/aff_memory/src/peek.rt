//! Receipts and peeks of a folder in memory.
ghost use Rattle.std.specs.Prelude.{◌≡◌, ◌↔◌, true, length, All, IfOk, IsErr, IsTrue, OnOk};
ghost use Rattle.aff_model.specs.Causes.{HasCause};
ghost use Rattle.aff_memory.specs.Counted.{fails, counted, uncalled};

use crate::calls::Calls;
use crate::shared_bytes::SharedBytes;
use aff_outside::{Peek, PeekFailed, Telling};
use std::alloc::{AllocError, Global};
use std::marker::Model;

/// Shares the appended bytes with the folder.
#[derive(Drop)]
pub struct MemoryReceipt {
    shared: SharedBytes,
}

impl Model for MemoryReceipt {
    ghost use Rattle.std.specs.Prelude.{List, ℕ};

    ghost Value = { List ℕ };

    ghost view = { λ r. r.shared };
}

impl MemoryReceipt {
    pub(crate) fn new(shared: SharedBytes) -> MemoryReceipt
        ensures { result ≡ shared }
    {
        MemoryReceipt { shared }
    }
}

impl Telling for MemoryReceipt {
    ghost receipt_tells = { true };

    ghost told = { λ bytes. bytes };
}

/// Copies the bytes that a receipt shares.
#[derive(Drop)]
pub struct MemoryPeek {
    calls: Calls,
}

impl Model for MemoryPeek {
    ghost use Rattle.aff_memory.specs.Counted.{Counted};

    ghost Value = { Counted };

    ghost view = { λ p. p.calls };
}

impl MemoryPeek {
    fn new(fail: Vec<u64>) -> MemoryPeek
        ensures { result ≡ uncalled fail.items }
    {
        MemoryPeek {
            calls: Calls::new(fail),
        }
    }

    /// How many fetches there were.
    pub fn calls(&self) -> u64
        ensures { result ≡ self.now.made }
    {
        self.calls.made()
    }
}

/// So many peeks, none of which was called.
pub fn peeks_of(alloc: Global, fail: &[u64], count: usize) -> Result<Vec<MemoryPeek>, AllocError>
    ensures count { IfOk result (λ peeks. length peeks.items ≡ count) }
    ensures each { IfOk result (λ peeks. All (λ peek. peek ≡ uncalled fail.now) peeks.items) }
    ensures fresh { IfOk result (λ peeks. All (λ peek. peek.faults ≡ 0) peeks.items) }
{
    let mut peeks = Vec::new(alloc);
    for _ in 0..count {
        peeks.push(MemoryPeek::new(fail.to_vec(alloc)?))?;
    }
    Ok(peeks)
}

impl Peek<MemoryReceipt> for MemoryPeek {
    ghost peek_faults = { λ p. p.faults };

    fn fetch(&mut self, receipt: &MemoryReceipt, out: &mut [u8]) -> Result<(), PeekFailed>
        requires { length out.old ≡ length receipt.now }
        ensures bytes { OnOk result (out.new ≡ receipt.now) }
        ensures cause { HasCause self.old.faults self.new.faults (IsErr result) }
        ensures failed { IsErr result ↔ IsTrue (fails self.old) }
        ensures calls { self.new ≡ counted self.old }
    {
        if self.calls.fails() {
            return Err(PeekFailed);
        }
        out.copy_from_slice(receipt.shared.bytes());
        Ok(())
    }
}
