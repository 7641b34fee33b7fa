//! How a piece whose chunks are stored is published.
ghost use Rattle.std.specs.Prelude.{◌≡◌, ◌<◌, ◌∷◌, [], ◌++◌, Contains, length, map, true, MatchResult};
ghost use Rattle.std.specs.Arc.{arc_value};
ghost use Rattle.aff_claim.specs.Steps.{published_if};
ghost use Rattle.aff_snapshot.specs.Lists.{IsNew};
ghost use Rattle.aff_snapshot.specs.Sound.{IsSoundIn};

use aff_claim::{BookSeat, Claims};
use aff_model::{Case, Memory, Piece};
use aff_outside::Telling;
use aff_snapshot::Publisher;
use std::alloc::Global;
use std::sync::{Arc, Wait};

/// Publishes a piece whose claim the seat holds, and answers how many pieces there are then: the piece joins the list, then
/// the seat makes its step. All memory is taken before; where it is refused, nothing is published.
pub(crate) fn publish<C: Case, R: Telling, W: Wait>(
    rt: &W,
    alloc: Global,
    claims: &Claims,
    seat: &mut BookSeat,
    publisher: &mut Publisher<C, R>,
    pieces: &mut Vec<Arc<Piece<R>>>,
    piece: Piece<R>,
) -> Result<u64, Memory>
    requires table { seat.old.table ≡ claims.now.table }
    requires planned { piece.extent < claims.now.table.extents }
    requires held { Contains seat.old.view.held (piece.extent, piece.claimant) }
    requires unpublished { ¬ (Contains seat.old.view.out piece.extent) }
    requires new { IsNew publisher.old.pieces piece }
    requires sound { IsSoundIn C.content publisher.old.list.plan R.receipt_tells R.told piece }
    requires same { map arc_value pieces.old.items ≡ publisher.old.pieces }
    ensures table { seat.new.table ≡ seat.old.table }
    ensures list { publisher.new.list ≡ publisher.old.list }
    ensures same { map arc_value pieces.new.items ≡ publisher.new.pieces }
    ensures pieces { MatchResult result
        (λ front. (publisher.new.pieces ≡ publisher.old.pieces ++ piece ∷ []) × (front ≡ length publisher.new.pieces))
        (λ _. publisher.new.pieces ≡ publisher.old.pieces) }
    ensures seat { MatchResult result
        (λ _. seat.new.view ≡ published_if true seat.old.view piece.extent piece.claimant)
        (λ _. seat.new.view ≡ seat.old.view) }
{
    let extent = piece.extent;
    let claimant = piece.claimant;
    if pieces.reserve(1).is_err() {
        return Err(Memory);
    }
    let Ok(ours) = Arc::new(alloc, piece) else {
        return Err(Memory);
    };
    let Ok(theirs) = Arc::try_clone(&ours) else {
        return Err(Memory);
    };
    let front = publisher.publish(rt, theirs)?;
    pieces.push_reserved(ours);
    let Ok(()) = claims.publish_step(seat, extent, claimant) else {
        unreachable!();
    };
    Ok(front)
}
