//! The publisher.
ghost use Rattle.std.specs.Prelude.{◌≡◌, [], ◌∷◌, ◌++◌, length, drop, MatchResult};
ghost use mathlib.Core.List.{IsPrefix};
ghost use Rattle.std.specs.Arc.{arc_value};
ghost use Rattle.left_right.specs.Sides.{view};
ghost use Rattle.aff_snapshot.specs.Lists.{IsNew, numbers_of};
ghost use Rattle.aff_snapshot.specs.Sound.{IsSoundIn};

use crate::Told;
use crate::front::{Count, Front};
use crate::listed::{Listed, Pieces};
use crate::name::Marked;
use crate::shown::{Desk, Hand, Look};
use aff_model::{Case, Memory, Piece};
use aff_outside::Telling;
use core::mem::replace_with;
use std::marker::{Model, PhantomData};
use std::snapshot::Snapshot;
use std::sync::{Arc, Wait};

/// Adds pieces to a list, and has them all. End it by `end`: one that is let go leaks the front that viewers look at.
/// Contracts see it as the list's name and its pieces.
#[derive(Drop)]
pub struct Publisher<C: Case, R: Telling + Marked> {
    pub(crate) count: Count,
    pub(crate) front: Front,
    pub(crate) pieces: Vec<Arc<Piece<R>>>,
    pub(crate) list: Arc<Pieces<C, R>>,
    pub(crate) desk: Desk,
}

impl<C: Case, R: Telling + Marked> Model for Publisher<C, R> {
    ghost use Rattle.std.specs.Prelude.{◌≡◌, map, drop, []};
    ghost use Rattle.std.specs.Arc.{arc_value};
    ghost use Rattle.aff_snapshot.specs.Sound.{AreSound};
    ghost use Rattle.aff_snapshot.specs.Lists.{Beginning, names_of, numbers_of};
    ghost use Rattle.aff_snapshot.specs.Log.{count_of};

    ghost Value = { Beginning R };

    ghost view = { λ p. record { list = p.front.list; pieces = map arc_value p.pieces.items } };

    // its pieces are what is shown to viewers, with nothing pending
    ghost invariant = { λ p. (names_of R.marks (map arc_value p.pieces.items) ≡ p.front.names)
        × AreSound C.content p.front.list.plan R.receipt_tells R.told (map arc_value p.pieces.items)
        × (p.count ≡ count_of p.front.list)
        × ((arc_value p.list).tag ≡ numbers_of p.front.list)
        × (p.desk.hand.desk.shown.value ≡ p.front)
        × (p.desk.hand.desk.place.me.0.client.list ≡ numbers_of p.front.list)
        × (drop p.desk.hand.behind p.desk.hand.log.items ≡ []) };
}

impl<C: Case, R: Telling + Marked> Publisher<C, R> {
    /// Appends a piece, and answers how many there are then. It may wait for a look to end. After `Memory` the list is
    /// unchanged; it may answer `Memory` from then on.
    pub fn publish<W: Wait>(&mut self, rt: &W, piece: Arc<Piece<R>>) -> Result<u64, Memory>
        requires sound { IsSoundIn C.content self.old.list.plan R.receipt_tells R.told (arc_value piece) }
        requires once { IsNew self.old.pieces (arc_value piece) }
        ensures list { self.new.list ≡ self.old.list }
        ensures pieces { MatchResult result
            (λ front. (self.new.pieces ≡ self.old.pieces ++ arc_value piece ∷ []) × (front ≡ length self.new.pieces))
            (λ _. self.new.pieces ≡ self.old.pieces) }
    {
        if self.pieces.len() >= self.pieces.capacity() {
            return Err(Memory);
        }
        let Ok(kept) = Arc::try_clone(&piece) else {
            return Err(Memory);
        };
        let mut front = self.front.again();
        if !front.add(&self.count, &piece) {
            return Err(Memory);
        }
        let listed = Listed {
            piece,
            front: front.again(),
            case: PhantomData,
        };
        if self.list.push(rt, listed).is_err() {
            return Err(Memory);
        }
        if self.desk.hand.append(front.again()).is_err() {
            return Err(Memory);
        }
        replace_with(&mut self.desk.hand, (rt, &front), show);
        let count = front.len();
        self.pieces.push_reserved(kept);
        self.front = front;
        Ok(count)
    }

    /// Tells the list as it is now. A told list serves one `learn`.
    pub fn tell(&mut self) -> Told<C, R>
        ensures told { result ≡ self.old }
        ensures same { self.new ≡ self.old }
    {
        Told {
            front: self.front.again(),
            pieces: Snapshot::of(&self.pieces),
            case: PhantomData,
        }
    }

    /// Ends the list. It may wait for a look to end. Viewers keep their pieces; they get no more, and learn nothing.
    pub fn end<W: Wait>(self, rt: &W) {
        let Publisher {
            count: _,
            front: _,
            pieces: _,
            list: _,
            desk,
        } = self;
        desk.into_hand().take(rt);
    }
}

// Shows the front that is pending.
pub(crate) fn show<W: Wait>(hand: Hand, to: (&W, &Front)) -> (Hand, ())
    requires pending { drop hand.behind hand.log.items ≡ to.1.now ∷ [] }
    requires longer { (to.1.now.list ≡ hand.desk.shown.value.list) × IsPrefix hand.desk.shown.value.names to.1.now.names }
    ensures shown { (result.0.desk.shown.value ≡ to.entry.1.now) × (drop result.0.behind result.0.log.items ≡ []) }
    ensures list { (view result.0.desk.place).list ≡ numbers_of to.entry.1.now.list }
{
    let (hand, shown) = hand.publish_as::<Look, W>(to.0);
    if shown.is_err() {
        unreachable!();
    }
    (hand, ())
}
