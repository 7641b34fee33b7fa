//! The bytes and runs of sectors that could not be read, and of bytes that nobody has published.
ghost use Rattle.std.specs.Prelude.{◌≡◌, ℕ, ◌+◌, ◌-◌, ◌%◌, ◌<◌, ◌≤◌, ◌^◌, false, length, replicate, slice_index};
ghost use Rattle.aff_model.specs.declared.cell.Kind.TheVariants as cell;
ghost use Rattle.aff_model.specs.declared.limits.TheConstants as limits;
ghost use Rattle.aff_model.specs.Cells.{is_bad_at};
ghost use Rattle.aff_model.specs.History.{publication_of};
ghost use Rattle.aff_model.specs.Kinds.{AreGreatest, spread};
ghost use Rattle.aff_spec.specs.Symbols.{unknown_byte};
ghost use Rattle.aff_analyst.specs.Bytes.{Shows};
ghost use Rattle.aff_analyst.specs.Reads.{AreKept, HaveRoom, IsInside, IsReadTo, IsWhole, kind_in};
ghost use Rattle.std.specs.List.Sorted.{IsStrictlyIncreasing};

use crate::RunList;
use crate::bad::is_bad;
use crate::letters::fill_letters;
use aff_map::Target;
use aff_model::{Extent, Kind, Piece, SECTOR};
use aff_outside::Telling;

/// Puts the letters of a range of a piece's extent over what it keeps there, and the range's runs behind the others.
pub fn mark<R: Telling>(
    extent: &Extent,
    piece: &Piece<R>,
    at: u64,
    out: &mut [u8],
    runs: &mut RunList,
)
    requires whole { IsWhole extent.now }
    requires inside { IsInside extent.now at (length out.old) }
    requires rising { IsStrictlyIncreasing piece.now.bad }
    requires kept { AreKept R.receipt_tells R.told extent.now piece.now at out.old }
    requires runs { HaveRoom at (length out.old) runs.old }
    ensures { IsReadTo (kind_in extent.now piece.now) (Shows R.receipt_tells R.told extent.now piece.now) at out.new runs.old runs.new }
{
    let len = out.len();
    let mut done = 0;
    while done < len {
        let next = at + done as u64;
        let count = ((SECTOR - next % SECTOR) as usize).min(len - done);
        mark_sector(extent, piece, next, &mut out[done..done + count], runs);
        done += count;
    }
}

// The same for a range inside one sector.
fn mark_sector<R: Telling>(
    extent: &Extent,
    piece: &Piece<R>,
    at: u64,
    out: &mut [u8],
    runs: &mut RunList,
)
    requires whole { IsWhole extent.now }
    requires some { 0 < length out.old }
    requires inside { IsInside extent.now at (length out.old) }
    requires sector { length out.old ≤ limits.SECTOR - at % limits.SECTOR }
    requires rising { IsStrictlyIncreasing piece.now.bad }
    requires kept { AreKept R.receipt_tells R.told extent.now piece.now at out.old }
    requires runs { HaveRoom at (length out.old) runs.old }
    ensures { IsReadTo (kind_in extent.now piece.now) (Shows R.receipt_tells R.told extent.now piece.now) at out.new runs.old runs.new }
{
    if is_bad(extent, piece, at) {
        fill_letters(out, Target::Unreadable, at);
        runs.add(out, Kind::Unreadable);
    } else {
        runs.add(out, Kind::Known);
    }
}

/// Reads a range that nobody has published.
pub fn fill_unknown(at: u64, out: &mut [u8], runs: &mut RunList)
    requires some { 0 < length out.old }
    requires fits { at + length out.old < 2 ^ 64 }
    requires runs { HaveRoom at (length out.old) runs.old }
    ensures { IsReadTo (λ i. cell.Unknown) (λ i byte. byte ≡ unknown_byte i) at out.new runs.old runs.new }
{
    fill_letters(out, Target::Unknown, at);
    runs.add(out, Kind::Unknown);
}
