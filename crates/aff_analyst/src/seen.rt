//! Which of some pieces is of an extent.
ghost use Rattle.std.specs.Prelude.{◌≡◌, ◌≢◌, ℕ, ◌<◌, Some, IfSome, None, map, slice_index, length};
ghost use Rattle.std.specs.Arc.{arc_value};
ghost use Rattle.aff_model.specs.History.{Part};
ghost use Rattle.aff_analyst.specs.Seen.{IsOfNone, extents_of};

use aff_model::Piece;
use aff_outside::Telling;
use std::sync::Arc;

/// The place of the first piece of an extent among some pieces. It goes through them from the first on.
pub fn first_of<R: Telling>(pieces: &[Arc<Piece<R>>], extent: u32) -> Option<usize>
    ensures inside { IfSome result (λ q. q < length pieces.now) }
    ensures is { IfSome result (λ q. slice_index (extents_of (map arc_value pieces.now)) q ≡ extent) }
    ensures first { IfSome result (λ q. (k : ℕ) → k < q → slice_index (extents_of (map arc_value pieces.now)) k ≢ extent) }
    ensures none { result ≡ None → IsOfNone (map arc_value pieces.now) extent }
{
    for (number, piece) in pieces.iter().enumerate() {
        if piece.extent == extent {
            return Some(number);
        }
    }
    None
}
