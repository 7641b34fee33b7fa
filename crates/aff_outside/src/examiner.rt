//! What looks at the pieces as they come.
ghost use Rattle.std.specs.Prelude.{◌≡◌, ℕ, List, OnOk, OnErr, IfOk, Contains};
ghost use Rattle.aff_model.specs.Shown.{Shown};
ghost use Rattle.aff_outside.specs.Seen.{IsSeen};

use aff_model::Memory;
use std::marker::Model;

/// A published piece as it is shown: how many publications there are up to it, the extent's number, first
/// byte and length, and its unreadable sectors (numbers inside the extent, rising).
#[derive(Drop)]
pub struct Seen {
    pub front: u64,
    pub extent: u32,
    pub at: u64,
    pub len: u64,
    pub bad: Vec<u32>,
}

impl Model for Seen {
    ghost use Rattle.aff_model.specs.Shown.{Shown};

    ghost Value = { Shown };

    ghost view = { λ s. record { front = s.front; extent = s.extent; at = s.at; len = s.len; bad = s.bad.items } };
}

pub trait Examiner: Send + Drop {
    /// Its state, as numbers.
    ghost state: { Self → List ℕ };

    /// What a piece and its bytes make of a state.
    ghost rule: { Self → List ℕ → Shown → List ℕ → List ℕ };

    /// What is printed for a state.
    ghost text: { Self → List ℕ → List ℕ };

    /// Looks at a piece and its bytes, and follows the rule. After `Memory` the state is as it was.
    fn see(&mut self, piece: &Seen, bytes: &[u8]) -> Result<(), Memory>
        requires { IsSeen piece.now bytes.now }
        ensures seen { OnOk result (state self.new ≡ rule self.old (state self.old) piece.now bytes.now) }
        ensures memory { OnErr result (state self.new ≡ state self.old) }
        ensures rule { rule self.new ≡ rule self.old }
        ensures text { text self.new ≡ text self.old };

    /// What is printed for the state, with no line feed in it.
    fn finding(&self) -> Result<Vec<u8>, Memory>
        ensures text { IfOk result (λ bytes. bytes.items ≡ text self.now (state self.now)) }
        ensures one_line { IfOk result (λ bytes. ¬ (Contains bytes.items 10)) };
}
