//! How a piece and its bytes are shown.
ghost use Rattle.std.specs.Prelude.{◌≡◌, ◌≢◌, ℕ, ◌+◌, ◌*◌, ◌/◌, ◌<◌, ◌≤◌, ◌^◌, All, length, slice_index, vec_capacity, OnErr, OnOk, Contains};
ghost use Rattle.aff_model.specs.declared.limits.TheConstants as limits;
ghost use Rattle.aff_model.specs.History.{publication_of};
ghost use Rattle.aff_outside.specs.Seen.{IsSeen};
ghost use Rattle.aff_examine.specs.Folds.{HasSameRule};
ghost use Rattle.aff_examine.specs.Sights.{shown_as};

use aff_model::{Extent, Memory, Piece, SECTOR};
use aff_outside::{Examiner, Seen, Telling};

/// Puts 0 over the sectors of a list.
pub(crate) fn blank(bytes: &mut [u8], bad: &[u32])
    requires inside { All (λ s. limits.SECTOR * s + limits.SECTOR ≤ length bytes.old) bad.now }
    ensures len { length bytes.new ≡ length bytes.old }
    ensures zero { (k : ℕ) → k < length bytes.old → Contains bad.now (k / limits.SECTOR) → slice_index bytes.new k ≡ 0 }
    ensures same { (k : ℕ) → k < length bytes.old → ¬ (Contains bad.now (k / limits.SECTOR)) → slice_index bytes.new k ≡ slice_index bytes.old k }
{
    for sector in bad {
        blank_sector(bytes, *sector as usize);
    }
}

// Puts 0 over a sector.
fn blank_sector(bytes: &mut [u8], sector: usize)
    requires { limits.SECTOR * sector + limits.SECTOR ≤ length bytes.old }
    ensures len { length bytes.new ≡ length bytes.old }
    ensures zero { (k : ℕ) → k < length bytes.old → k / limits.SECTOR ≡ sector → slice_index bytes.new k ≡ 0 }
    ensures same { (k : ℕ) → k < length bytes.old → k / limits.SECTOR ≢ sector → slice_index bytes.new k ≡ slice_index bytes.old k }
{
    let start = sector * SECTOR as usize;
    bytes[start..start + SECTOR as usize].fill(0);
}

/// Shows an examiner a piece of an extent, the `front`th of its list, with the extent's bytes, and gives the room back in which
/// its list of sectors was copied.
pub(crate) fn show_to<R: Telling>(
    examiner: &mut dyn Examiner,
    front: u64,
    extent: &Extent,
    piece: &Piece<R>,
    room: Vec<u32>,
    bytes: &[u8],
) -> (Vec<u32>, Result<(), Memory>)
    requires room { length piece.now.bad ≤ vec_capacity room }
    requires seen { IsSeen (shown_as extent.now front (publication_of piece.now)) bytes.now }
    ensures room { vec_capacity result.0 ≡ vec_capacity room }
    ensures seen { OnOk result.1 (state examiner.new ≡ rule examiner.old (state examiner.old) (shown_as extent.now front (publication_of piece.now)) bytes.now) }
    ensures memory { OnErr result.1 (state examiner.new ≡ state examiner.old) }
    ensures kept { HasSameRule (λ e. rule e) (λ e. text e) examiner.old examiner.new }
{
    let seen = Seen {
        front,
        extent: piece.extent,
        at: extent.at,
        len: extent.len,
        bad: copied(&piece.bad, room),
    };
    let answer = examiner.see(&seen, bytes);
    (seen.bad, answer)
}

// Numbers in room that is there.
fn copied(numbers: &[u32], room: Vec<u32>) -> Vec<u32>
    requires { length numbers.now ≤ vec_capacity room }
    ensures items { result.items ≡ numbers.now }
    ensures room { vec_capacity result ≡ vec_capacity room }
{
    let mut copy = room;
    copy.clear();
    for number in numbers {
        copy.push_reserved(*number);
    }
    copy
}
