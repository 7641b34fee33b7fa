//! How a viewer takes pieces over.
ghost use Rattle.std.specs.Prelude.{◌≡◌, map};
ghost use Rattle.std.specs.Arc.{arc_value};
ghost use mathlib.Core.List.{IsPrefix};
ghost use Rattle.aff_snapshot.specs.Sound.{AreSound};
ghost use Rattle.aff_snapshot.specs.Lists.{names_of, numbers_of};

use crate::front::Front;
use crate::listed::{Listed, Pieces};
use crate::name::Marked;
use aff_model::{Case, Piece};
use aff_outside::Telling;
use std::sync::Arc;

/// Takes pieces over up to what is published, as far as there is room.
pub(crate) fn take_over<C: Case, R: Telling + Marked>(
    list: &Pieces<C, R>,
    pieces: &mut Vec<Arc<Piece<R>>>,
    front: &mut Front,
    shown: &Front,
)
    requires list { (list.now.tag ≡ numbers_of front.old.list) × (shown.now.list ≡ front.old.list) }
    requires same { names_of R.marks (map arc_value pieces.old.items) ≡ front.old.names }
    requires sound { AreSound C.content front.old.list.plan R.receipt_tells R.told (map arc_value pieces.old.items) }
    requires published { IsPrefix front.old.names shown.now.names }
    ensures list { front.new.list ≡ front.old.list }
    ensures same { names_of R.marks (map arc_value pieces.new.items) ≡ front.new.names }
    ensures longer { IsPrefix (map arc_value pieces.old.items) (map arc_value pieces.new.items) }
    ensures sound { AreSound C.content front.new.list.plan R.receipt_tells R.told (map arc_value pieces.new.items) }
    ensures published { IsPrefix front.new.names shown.now.names }
{
    for place in pieces.len()..pieces.capacity() {
        let Some(listed) = list.get(place) else {
            break;
        };
        if !take_one(listed, pieces, front, shown) {
            break;
        }
    }
}

// Takes a piece over, where it is the next one, it is published and there is room.
fn take_one<C: Case, R: Telling + Marked>(
    listed: &Listed<C, R>,
    pieces: &mut Vec<Arc<Piece<R>>>,
    front: &mut Front,
    shown: &Front,
) -> bool
    requires list { (front.old.list ≡ listed.now.list) × (shown.now.list ≡ listed.now.list) }
    requires same { names_of R.marks (map arc_value pieces.old.items) ≡ front.old.names }
    requires sound { AreSound C.content front.old.list.plan R.receipt_tells R.told (map arc_value pieces.old.items) }
    requires published { IsPrefix front.old.names shown.now.names }
    ensures list { front.new.list ≡ front.old.list }
    ensures same { names_of R.marks (map arc_value pieces.new.items) ≡ front.new.names }
    ensures longer { IsPrefix (map arc_value pieces.old.items) (map arc_value pieces.new.items) }
    ensures sound { AreSound C.content front.new.list.plan R.receipt_tells R.told (map arc_value pieces.new.items) }
    ensures published { IsPrefix front.new.names shown.now.names }
{
    let next = &listed.front;
    if pieces.len() >= pieces.capacity() || next.len() != front.len() + 1 {
        return false;
    }
    if next.len() > shown.len() {
        return false;
    }
    let Ok(piece) = Arc::try_clone(&listed.piece) else {
        return false;
    };
    front.compare(next);
    next.compare(shown);
    pieces.push_reserved(piece);
    *front = next.again();
    true
}
