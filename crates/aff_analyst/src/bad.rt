//! Which bytes of an extent could not be read.
ghost use Rattle.std.specs.Prelude.{◌≡◌, ◌==◌, ℕ, ◌+◌, ◌-◌, ◌<◌, false, length, None, IsTrue, IfSome};
ghost use Rattle.std.specs.List.{list_any};
ghost use Rattle.std.specs.List.Sorted.{IsStrictlyIncreasing};
ghost use Rattle.aff_model.specs.Cells.{is_bad_at, sector_in};
ghost use Rattle.aff_model.specs.History.{publication_of};
ghost use Rattle.aff_analyst.specs.Reads.{IsInside, IsWhole};

use aff_model::{Extent, Piece, SECTOR};
use aff_outside::Telling;

/// Whether a byte of a piece's extent could not be read.
pub fn is_bad<R: Telling>(extent: &Extent, piece: &Piece<R>, at: u64) -> bool
    requires whole { IsWhole extent.now }
    requires inside { IsInside extent.now at 1 }
    requires rising { IsStrictlyIncreasing piece.now.bad }
    ensures { result ≡ is_bad_at extent.now (publication_of piece.now) at }
{
    let sector = (at / SECTOR - extent.at / SECTOR) as u32;
    is_among(&piece.bad, sector)
}

fn is_among(rising: &[u32], sector: u32) -> bool
    requires { IsStrictlyIncreasing rising.now }
    ensures { result ≡ list_any (λ s. s == sector) rising.now }
{
    rising.binary_search(&sector).is_ok()
}

/// The first byte of a range of a piece's extent that could be read, if there is one, counted from the range's first.
pub fn first_read<R: Telling>(extent: &Extent, piece: &Piece<R>, at: u64, len: u64) -> Option<u64>
    requires whole { IsWhole extent.now }
    requires inside { IsInside extent.now at len }
    requires rising { IsStrictlyIncreasing piece.now.bad }
    ensures some { IfSome result (λ k. (k < len) × (is_bad_at extent.now (publication_of piece.now) (at + k) ≡ false)) }
    ensures none { result ≡ None → (k : ℕ) → k < len → IsTrue (is_bad_at extent.now (publication_of piece.now) (at + k)) }
{
    let mut done = 0;
    while done < len {
        if !is_bad(extent, piece, at + done) {
            return Some(done);
        }
        done += (SECTOR - (at + done) % SECTOR).min(len - done);
    }
    None
}
