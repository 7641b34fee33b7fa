//! What the list holds.
use crate::front::Front;
use crate::name::Marked;
use aff_model::{Case, Piece};
use aff_outside::Telling;
use boxcar::Keeps;
use std::alloc::Global;
use std::marker::{Model, PhantomData};
use std::snapshot::Snapshot;
use std::sync::Arc;

/// A piece, with the front that it made. Contracts see it as that front. The case is marked by a snapshot, which may go
/// to any thread.
#[derive(Drop)]
pub struct Listed<C: Case, R: Telling + Marked> {
    pub piece: Arc<Piece<R>>,
    pub front: Front,
    pub case: PhantomData<Snapshot<C>>,
}

impl<C: Case, R: Telling + Marked> Model for Listed<C, R> {
    ghost use Rattle.std.specs.Prelude.{◌≡◌, List, [], ◌∷◌, ◌++◌};
    ghost use Rattle.std.specs.Arc.{arc_value};
    ghost use Rattle.aff_snapshot.specs.Codes.{Name, name_of};
    ghost use Rattle.aff_snapshot.specs.Lists.{Reached};
    ghost use Rattle.aff_snapshot.specs.Sound.{IsSoundIn};

    ghost Value = { Reached };

    ghost view = { λ l. l.front };

    // the piece is the last one of its front, and is sound
    ghost invariant = { λ l. ((before : List Name) × (l.front.names ≡ before ++ name_of R.marks (arc_value l.piece) ∷ []))
        × IsSoundIn C.content l.front.list.plan R.receipt_tells R.told (arc_value l.piece) };
}

/// Each piece is of the list that the tag names.
pub struct OfOneList;

impl<C: Case, R: Telling + Marked> Keeps<Listed<C, R>> for OfOneList {
    ghost use Rattle.std.specs.Prelude.{◌≡◌};
    ghost use Rattle.aff_snapshot.specs.Lists.{numbers_of};

    ghost holds = { λ tag place l. numbers_of l.list ≡ tag };
}

pub type Pieces<C, R> = boxcar::Vec<Listed<C, R>, Global, OfOneList>;
