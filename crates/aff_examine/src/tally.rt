//! An examiner that counts bytes.
ghost use Rattle.std.specs.Prelude.{◌≡◌, [], ◌∷◌, IfOk};
ghost use Rattle.aff_examine.specs.Tallies.{readable_in, tally_rule, tally_text, unreadable_in};

use aff_model::{Memory, SECTOR};
use aff_outside::{Examiner, Seen};
use std::alloc::Global;
use std::marker::Model;

/// Counts how many bytes were read and how many could not be. Contracts see it as its state, these two numbers.
#[derive(Drop)]
pub struct Tally {
    readable: u64,
    unreadable: u64,
    alloc: Global,
}

impl Model for Tally {
    ghost use Rattle.std.specs.Prelude.{List, ℕ, [], ◌∷◌};

    ghost Value = { List ℕ };

    ghost view = { λ t. t.readable ∷ t.unreadable ∷ [] };
}

impl Tally {
    /// Nothing is counted yet. Its findings are made by this allocator.
    pub fn new(alloc: Global) -> Tally
        ensures { result ≡ 0 ∷ 0 ∷ [] }
    {
        Tally {
            readable: 0,
            unreadable: 0,
            alloc,
        }
    }
}

impl Examiner for Tally {
    ghost use Rattle.aff_examine.specs.Tallies.{tally_rule, tally_text};

    ghost state = { λ t. t };

    ghost rule = { λ _. tally_rule };

    ghost text = { λ _. tally_text };

    fn see(&mut self, piece: &Seen, _bytes: &[u8]) -> Result<(), Memory> {
        let unreadable = SECTOR * piece.bad.len() as u64;
        self.readable = self.readable.saturating_add(piece.len - unreadable);
        self.unreadable = self.unreadable.saturating_add(unreadable);
        Ok(())
    }

    fn finding(&self) -> Result<Vec<u8>, Memory> {
        let readable = self.readable;
        let unreadable = self.unreadable;
        match format!(in self.alloc; "readable {readable} unreadable {unreadable}") {
            Ok(text) => Ok(text.into_bytes()),
            Err(_) => Err(Memory),
        }
    }
}
