//! Receipts of what was appended to a folder, and peeks, which fetch the bytes again.
ghost use Rattle.std.specs.Prelude.{◌≡◌, ℕ, Bool, List, length, IsErr, IsTrue, OnOk};
ghost use Rattle.aff_model.specs.Causes.{HasCause};

pub trait Telling: Send + Sync + Drop {
    /// Whether receipts of this type tell their bytes.
    ghost receipt_tells: { Bool };

    /// The bytes that were appended, where the receipt tells them.
    ghost told: { Self → List ℕ };
}

/// A fetch failed.
#[derive(Clone, Copy, Debug, PartialEq, Eq)]
pub struct PeekFailed;

pub trait Peek<R: Telling>: Send + Drop {
    /// How often the peek has failed.
    ghost peek_faults: { Self → ℕ };

    /// Gives the bytes of the append that the receipt is of, into as much room as they need. After a failure
    /// `out` may hold anything. Takes no memory.
    fn fetch(&mut self, receipt: &R, out: &mut [u8]) -> Result<(), PeekFailed>
        requires { IsTrue R.receipt_tells → length out.old ≡ length (R.told receipt.now) }
        ensures bytes { OnOk result (IsTrue R.receipt_tells → out.new ≡ R.told receipt.now) }
        ensures cause { HasCause (peek_faults self.old) (peek_faults self.new) (IsErr result) };
}
