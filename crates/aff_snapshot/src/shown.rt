//! What `left_right` shows: the front. No type here has a parameter.
ghost use Rattle.std.specs.Prelude.{◌≡◌};

use crate::front::Front;
use crate::name::Name;
use atomic_table::{Join, Split};
use crossbeam_utils::rule::{Outcome, Protocol};
use left_right::Absorb;
use left_right::reader::Reader;
use left_right::writer::Writer;
use std::alloc::AllocError;
use std::collections::LinkedList;
use std::mem::ManuallyDrop;

impl Absorb<Front> for Front {
    type State = Front;

    ghost state = { λ front. front };

    ghost applied = { λ front next. next };

    ghost never_fails = { Unit {0} };

    fn absorb_first(&mut self, operation: &Front, _other: &Front) -> Result<(), AllocError> {
        *self = operation.again();
        Ok(())
    }
}

/// What a seat has seen published: the numbers that name the list, once the seat knows them, and the names of the pieces.
/// No value of it is made.
pub struct Sight {
    pub list: LinkedList<u64>,
    pub names: LinkedList<Name>,
}

/// What each seat has seen is a beginning of what is published.
pub struct FrontRule;

impl Protocol<Front, Sight> for FrontRule {
    ghost use Rattle.aff_snapshot.specs.Sights.{HaveSeen, blind};

    ghost holds = { HaveSeen };

    ghost first = { blind };
}

/// A seat sees all that is published.
pub struct Look;

impl Outcome<Front, Sight> for Look {
    ghost use Rattle.aff_snapshot.specs.Sights.{Sees};

    ghost then = { Sees };
}

/// A seat tells another all that it has seen, and keeps it.
pub struct Hint;

impl Split<Sight> for Hint {
    ghost left = { λ seen. seen };

    ghost right = { λ seen. seen };
}

impl Join<Sight> for Hint {
    ghost use Rattle.aff_snapshot.specs.Sights.{blind};

    ghost both = { λ seen told. told };

    ghost spent = { blind };
}

pub type Eye = Reader<Front, Sight, FrontRule>;

pub type Hand = Writer<Front, Front, Sight, FrontRule>;

/// Holds the writer, so that a value with a writer in it may be let go, and so stand behind a lock. A writer ends by
/// `take`, which waits; one that is let go here is leaked, with its two fronts.
pub struct Desk {
    pub hand: Hand,
}

impl Desk {
    /// Takes the writer out.
    pub fn into_hand(self) -> Hand
        ensures { result ≡ self.hand }
    {
        let Self { hand } = self;
        hand
    }
}

impl Drop for Desk {
    fn drop(self) {
        let Self { hand } = self;
        let _leaked = unsafe { ManuallyDrop::new_unchecked(hand) };
    }
}
