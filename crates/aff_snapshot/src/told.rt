//! The published list, told.
use crate::front::Front;
use crate::name::Marked;
use aff_model::{Case, Piece};
use aff_outside::Telling;
use std::marker::{Model, PhantomData};
use std::snapshot::Snapshot;
use std::sync::Arc;

/// The whole of a list as it was when the publisher told it. It has no pieces in memory. Contracts see it as the list's
/// name and its pieces.
#[derive(Drop)]
pub struct Told<C: Case, R: Telling + Marked> {
    pub(crate) front: Front,
    pub(crate) pieces: Snapshot<Vec<Arc<Piece<R>>>>,
    pub(crate) case: PhantomData<Snapshot<C>>,
}

impl<C: Case, R: Telling + Marked> Model for Told<C, R> {
    ghost use Rattle.std.specs.Prelude.{◌≡◌, map};
    ghost use Rattle.std.specs.Arc.{arc_value};
    ghost use Rattle.aff_snapshot.specs.Sound.{AreSound};
    ghost use Rattle.aff_snapshot.specs.Lists.{Beginning, names_of};

    ghost Value = { Beginning R };

    ghost view = { λ t. record { list = t.front.list; pieces = map arc_value t.pieces.value.items } };

    ghost invariant = { λ t. (names_of R.marks (map arc_value t.pieces.value.items) ≡ t.front.names)
        × AreSound C.content t.front.list.plan R.receipt_tells R.told (map arc_value t.pieces.value.items) };
}
