//! Asking for the extents of a range.
ghost use Rattle.std.specs.Prelude.{◌≡◌, ℕ, ◌+◌, ◌<◌, ◌≤◌, ◌^◌, All, AllPairs, length, map};
ghost use Rattle.std.specs.Arc.{arc_value};
ghost use Rattle.aff_model.specs.Index.{HasBytes, IsIndex};
ghost use Rattle.aff_model.specs.Plan.{AreApart, IsPlan};
ghost use Rattle.aff_analyst.specs.Raised.{HasRaised, IsMissed, Shares};

use crate::Analyst;
use crate::by_place::{first_behind, start_of};
use crate::seen::first_of;
use aff_claim::{Claims, Pass};
use aff_model::{Case, Extent, Piece, Plan};
use aff_outside::{Folder, Telling};
use std::sync::Arc;

impl<C: Case, F: Folder> Analyst<C, F> {
    /// Asks for each extent that shares a byte with a range. It takes no memory and waits for nobody; it finds the first of
    /// them by halving, and steps on their demand words alone.
    pub fn raise(&mut self, claims: &Claims, pass: &mut Pass, at: u64, len: u64)
        requires claims { pass.old.claims ≡ claims.now }
        requires extents { claims.now.table.extents ≡ length self.old.plan.extents }
        requires range { at + len ≤ self.old.plan.size }
        ensures same { self.new ≡ self.old }
        ensures claims { pass.new.claims ≡ pass.old.claims }
        ensures raised { HasRaised (Shares self.old.plan.extents at len) pass.old.view pass.new.view }
    {
        // a size of 64 bits
        let _size = self.plan.size();
        let none: Vec<Arc<Piece<F::Receipt>>> = Vec::new(self.alloc);
        raise_missed(claims, pass, &self.plan, &self.index, &none, at, len);
    }
}

/// Asks for each extent that shares a byte with a range and of which there is no piece. It goes through the pieces once
/// for each extent of the range.
pub(crate) fn raise_missed<R: Telling>(
    claims: &Claims,
    pass: &mut Pass,
    plan: &Plan,
    index: &[u32],
    pieces: &[Arc<Piece<R>>],
    at: u64,
    len: u64,
)
    requires claims { pass.old.claims ≡ claims.now }
    requires extents { claims.now.table.extents ≡ length plan.now.extents }
    requires range { at + len < 2 ^ 64 }
    requires small { plan.now.size < 2 ^ 64 }
    requires sorted { IsIndex plan.now.extents index.now }
    ensures claims { pass.new.claims ≡ pass.old.claims }
    ensures raised { HasRaised (IsMissed plan.now.extents (map arc_value pieces.now) at len) pass.old.view pass.new.view }
{
    if len == 0 {
        return;
    }
    let extents = plan.extents();
    for place in first_behind(extents, index, at)..index.len() {
        let number = index[place];
        if start_of(extents, number) >= at + len {
            return;
        }
        if first_of(pieces, number).is_none() {
            claims.raise(pass, number);
        }
    }
}
