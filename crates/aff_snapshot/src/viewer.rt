//! The viewers.
ghost use Rattle.std.specs.Prelude.{◌≡◌, ◌≤◌, List, length, map, IsTrue, IfSome};
ghost use Rattle.std.specs.Arc.{arc_value};
ghost use mathlib.Core.List.{IsPrefix};
ghost use Rattle.left_right.specs.Sides.{view};
ghost use Rattle.aff_model.specs.History.{Part};
ghost use Rattle.aff_snapshot.specs.Sound.{AreSound};
ghost use Rattle.aff_snapshot.specs.Lists.{AreListed, HasEvery, numbers_of};

use crate::Told;
use crate::front::Front;
use crate::listed::Pieces;
use crate::name::Marked;
use crate::shown::{Eye, Look};
use crate::take::take_over;
use aff_model::{Case, Piece};
use aff_outside::Telling;
use core::mem::replace_with;
use std::marker::Model;
use std::sync::Arc;

/// Looks at a list while it grows, and keeps the pieces that it saw. Contracts see it as the list's name and these pieces.
#[derive(Drop)]
pub struct Viewer<C: Case, R: Telling + Marked> {
    pub(crate) list: Arc<Pieces<C, R>>,
    pub(crate) pieces: Vec<Arc<Piece<R>>>,
    pub(crate) front: Front,
    pub(crate) eye: Eye,
}

impl<C: Case, R: Telling + Marked> Model for Viewer<C, R> {
    ghost use Rattle.std.specs.Prelude.{◌≡◌, map};
    ghost use Rattle.std.specs.Arc.{arc_value};
    ghost use mathlib.Core.List.{IsPrefix};
    ghost use Rattle.aff_snapshot.specs.Sound.{AreSound};
    ghost use Rattle.aff_snapshot.specs.Lists.{Beginning, names_of, numbers_of};

    ghost Value = { Beginning R };

    ghost view = { λ v. record { list = v.front.list; pieces = map arc_value v.pieces.items } };

    // what it has is a beginning of what its reader saw published
    ghost invariant = { λ v. (names_of R.marks (map arc_value v.pieces.items) ≡ v.front.names)
        × AreSound C.content v.front.list.plan R.receipt_tells R.told (map arc_value v.pieces.items)
        × ((arc_value v.list).tag ≡ numbers_of v.front.list)
        × (v.eye.place.me.0.client.list ≡ numbers_of v.front.list)
        × IsPrefix v.front.names v.eye.place.me.0.client.names };
}

impl<C: Case, R: Telling + Marked> Viewer<C, R> {
    /// Takes the new pieces over, and answers the front, which is how many pieces there are then. Where the list has ended,
    /// or a place to enter it or to share a piece is refused, the viewer keeps what it has by then.
    pub fn look(&mut self) -> u64
        ensures front { result ≡ length self.new.pieces }
        ensures list { self.new.list ≡ self.old.list }
        ensures longer { IsPrefix self.old.pieces self.new.pieces }
        ensures sound { AreSound C.content self.new.list.plan R.receipt_tells R.told self.new.pieces }
    {
        if let Some(shown) = replace_with(&mut self.eye, &self.front, enter) {
            take_over(&self.list, &mut self.pieces, &mut self.front, &shown);
        }
        self.front.len()
    }

    /// The pieces, in the order of their publication.
    pub fn pieces(&self) -> &[Arc<Piece<R>>]
        ensures pieces { map arc_value result.now ≡ self.now.pieces }
        ensures sound { AreSound C.content self.now.list.plan R.receipt_tells R.told self.now.pieces }
    {
        self.pieces.as_slice()
    }

    /// Enters the list once, and answers whether it could: the viewer's pieces and the told list are then known to be
    /// beginnings of one list. The pieces stay. It cannot where the list has ended, or the entry is refused.
    pub fn learn(&mut self, told: Told<C, R>) -> bool
        requires { told.list ≡ self.old.list }
        ensures same { self.new ≡ self.old }
        ensures one_list { IsTrue result → (all : List (Part R)) × AreListed self.old.list.plan all × IsPrefix self.old.pieces all × IsPrefix told.pieces all }
        ensures begins { IsTrue result → length self.old.pieces ≤ length told.pieces → IsPrefix self.old.pieces told.pieces }
        ensures whole { IsTrue result → HasEvery self.old.list.plan told.pieces → IsPrefix self.old.pieces told.pieces }
    {
        match replace_with(&mut self.eye, &self.front, enter) {
            Some(shown) => {
                shown.compare(&told.front);
                true
            }
            None => false,
        }
    }
}

// Enters the list once, and answers what is published then, which begins with what the eye saw before. There is none
// where the list has ended.
fn enter(eye: Eye, mine: &Front) -> (Eye, Option<Front>)
    requires named { (view eye.place).list ≡ numbers_of mine.now.list }
    ensures seen { IfSome result.1 (λ f. (f.list ≡ mine.now.list) × IsPrefix (view eye.place).names f.names × ((view result.0.place).names ≡ f.names)) }
    ensures list { (view result.0.place).list ≡ (view eye.place).list }
    ensures longer { IsPrefix (view eye.place).names (view result.0.place).names }
{
    match eye.enter_as::<Look>() {
        Ok(reading) => {
            let front = reading.get().again();
            (reading.leave(), Some(front))
        }
        Err(eye) => (eye, None),
    }
}
