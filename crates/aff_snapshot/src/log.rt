//! The rule of a list's log.
use crate::name::{Marked, Name};
use aff_model::Piece;
use aff_outside::Telling;
use logbook::{Gain, Plain, Play, Rule};

pub struct Log;

impl Rule<Name, u64> for Log {
    ghost use Rattle.std.specs.Prelude.{[]};
    ghost use base.Fml.{ftrue};
    ghost use Rattle.aff_snapshot.specs.Log.{IsLog};

    ghost holds = { λ cells names. IsLog cells names };

    ghost first = { [] };

    ghost hinted = { λ n names. Unit {0} };

    ghost shows = { λ names. [] };

    ghost keeps = { λ about names. ftrue };

    ghost moves = { λ ask before after answer. Unit {0} };
}

/// Nothing is traded for a step.
pub struct Nothing;

impl Gain<Name, u64> for Nothing {
    ghost use base.Fml.{ftrue};

    ghost after = { λ names about answer. ftrue };
}

/// The step that adds a piece.
pub struct Add;

impl Play<Name, u64> for Add {
    ghost use Rattle.aff_snapshot.specs.Log.{Adds};

    ghost then = { Adds };
}

impl<R: Telling + Marked> Plain<Piece<R>, Name, u64> for Add {
    ghost use Rattle.std.specs.Prelude.{None};
    ghost use Rattle.aff_snapshot.specs.Codes.{name_of};

    ghost ask = { λ piece. name_of R.marks piece };

    ghost state = { λ piece. None };
}
