//! How far a list was reached. No type here has a parameter.
ghost use Rattle.std.specs.Prelude.{◌≡◌, ◌+◌, ◌<◌, ◌≤◌, ◌-◌, ◌^◌, ◌++◌, ◌∷◌, [], List, length, MatchBool};
ghost use mathlib.Core.List.{IsPrefix};
ghost use Rattle.aff_snapshot.specs.Codes as codes;
ghost use Rattle.aff_snapshot.specs.Codes.{name_of};
ghost use Rattle.aff_snapshot.specs.Lists.{numbers_of};
ghost use Rattle.aff_snapshot.specs.Log.{AreOnce, IsFirst, count_of};

use crate::log::{Add, Log, Nothing};
use crate::name::{Marked, Name};
use aff_model::{Piece, Plan};
use aff_outside::Telling;
use boxcar::tag::{Names, Tag};
use logbook::{Offer, Seen, Start, Word};
use std::marker::Model;

/// The word that counts the pieces of a list.
pub type Count = Word<Name, u64, Log>;

/// A beginning of a list that was reached. Contracts see it as the list's name and the names of its pieces.
#[derive(Drop)]
pub struct Front {
    plan: Tag,
    count: u64,
    seen: Seen<Name, u64, Log>,
}

impl Model for Front {
    ghost use Rattle.std.specs.Prelude.{◌≡◌, length};
    ghost use Rattle.aff_snapshot.specs.Lists.{Reached};
    ghost use Rattle.aff_snapshot.specs.Log.{AreOnce};
    ghost use Rattle.aff_snapshot.specs.Numbers.{plan_in};

    ghost Value = { Reached };

    ghost view = { λ f. record { list = record { book = f.seen.book; plan = plan_in f.plan.numbers }; names = f.seen.log } };

    ghost invariant = { λ f. (f.count ≡ length f.seen.log) × AreOnce f.seen.log };
}

struct ByPlan;

impl Names<Plan> for ByPlan {
    ghost use Rattle.aff_snapshot.specs.Numbers.{plan_numbers};

    ghost numbers = { plan_numbers };
}

struct ByItsPlan;

impl Names<Front> for ByItsPlan {
    ghost use Rattle.aff_snapshot.specs.Numbers.{plan_numbers};

    ghost numbers = { λ f. plan_numbers f.list.plan };
}

struct ByList;

impl Names<Front> for ByList {
    ghost use Rattle.aff_snapshot.specs.Lists.{numbers_of};

    ghost numbers = { λ f. numbers_of f.list };
}

impl Front {
    /// A new list of a plan's extents, by the word that counts its pieces and its empty beginning.
    #[tactic(auto, using(crate::proofs::Once::once_none, crate::proofs::Plans::plan_back))]
    pub fn open(plan: &Plan) -> (Count, Front)
        ensures count { result.0 ≡ count_of result.1.list }
        ensures empty { result.1.names ≡ [] }
        ensures plan { result.1.list.plan ≡ plan.now }
    {
        let (seen, mut first, _second) = Seen::open(Start::alone(), 0, 0);
        let front = Front {
            plan: Tag::of::<Plan, ByPlan>(plan),
            count: 0,
            seen,
        };
        (Word::tracked(0, &mut first), front)
    }

    /// How many pieces it has.
    pub fn len(&self) -> u64
        ensures length { result ≡ length self.now.names }
        ensures once { AreOnce self.now.names }
    {
        self.count
    }

    /// The list's name as a tag.
    pub fn tag(&self) -> Tag
        ensures { result.numbers ≡ numbers_of self.now.list }
    {
        Tag::of::<Front, ByList>(self)
    }

    /// A copy.
    pub fn again(&self) -> Front
        ensures { result ≡ self.now }
    {
        Front {
            plan: Tag::of::<Front, ByItsPlan>(self),
            count: self.count,
            seen: self.seen.again(),
        }
    }

    /// Two beginnings of one list: the shorter begins the longer.
    pub fn compare(&self, other: &Front)
        requires { self.now.list ≡ other.now.list }
        ensures order { length self.now.names ≤ length other.now.names → IsPrefix self.now.names other.now.names }
        ensures one { (all : List codes.Name) × AreOnce all × IsPrefix self.now.names all × IsPrefix other.now.names all }
    {
        let _here = self.count;
        let _there = other.count;
        let mut both = self.seen.again();
        both.learn(&other.seen);
    }

    /// Adds a piece behind all that was reached, and says whether it did. It does not where the list is longer.
    pub fn add<R: Telling + Marked>(&mut self, count: &Count, piece: &Piece<R>) -> bool
        requires count { count.now ≡ count_of self.old.list }
        requires room { length self.old.names < 2 ^ 64 - 1 }
        requires first { IsFirst self.old.names (name_of R.marks piece.now) }
        ensures list { self.new.list ≡ self.old.list }
        ensures added { MatchBool result (self.new.names ≡ self.old.names ++ name_of R.marks piece.now ∷ []) (IsPrefix self.old.names self.new.names) }
    {
        let mut offer: Offer<Name, u64, Log, Nothing> = self
            .seen
            .plain::<Nothing, Piece<R>, Add>(piece);
        let mut pen = self.seen.no_pen();
        let old = self.count;
        let found = count.compare_exchange::<Add, Nothing>(
            old,
            old + 1,
            &mut self.seen,
            &mut offer,
            &mut pen,
        );
        self.count = if found == old { old + 1 } else { found };
        found == old
    }
}
