//! The analyst: what it reads with.
ghost use Rattle.std.specs.Prelude.{◌≡◌, ◌<◌, ◌≤◌, ◌^◌, ℕ, List, length, true, None, Some, is_some, IfOk, IfSome, IsTrue};
ghost use mathlib.Core.List.{IsPrefix};
ghost use Rattle.aff_model.specs.History.{Part};
ghost use Rattle.aff_model.specs.Plan.{IsPlan};
ghost use Rattle.aff_snapshot.specs.Lists.{AreListed, Beginning, HasEvery};
ghost use Rattle.aff_analyst.specs.Values.{Analysis};

use crate::by_place::index_of;
use aff_fields::zeros;
use aff_model::{CHUNK, Case, Extent, Memory, Plan};
use aff_outside::Folder;
use aff_snapshot::{Told, Viewer};
use std::alloc::{AllocError, Global};
use std::marker::Model;

/// Reads the image while it grows. Contracts see it as the plan, what its viewer has seen, and its peek.
#[derive(Drop)]
pub struct Analyst<C: Case, F: Folder> {
    pub(crate) plan: Plan,
    pub(crate) viewer: Option<Viewer<C, F::Receipt>>,
    pub(crate) peek: F::Peek,
    /// The numbers of the plan's extents, by their first bytes.
    pub(crate) index: Vec<u32>,
    /// Room for a chunk.
    pub(crate) buffer: Vec<u8>,
    pub(crate) alloc: Global,
}

impl<C: Case, F: Folder> Model for Analyst<C, F> {
    ghost use Rattle.std.specs.Prelude.{◌≡◌, ◌<◌, ◌^◌, IfSome, length};
    ghost use Rattle.aff_model.specs.declared.limits.TheConstants as limits;
    ghost use Rattle.aff_model.specs.Index.{IsIndex};
    ghost use Rattle.aff_model.specs.Plan.{IsPlan};
    ghost use Rattle.aff_analyst.specs.Values.{Analysis};

    ghost Value = { Analysis F.Receipt F.Peek };

    ghost view = { λ a. record { plan = a.plan; viewer = a.viewer; peek = a.peek } };

    // the viewer's list is of the plan, a chunk has its room, and the plan is one
    ghost invariant = { λ a. IfSome a.viewer (λ v. v.list.plan ≡ a.plan) × (length a.buffer.items ≡ limits.CHUNK) × IsPlan a.plan.size a.plan.block a.plan.extents × (a.plan.size < 2 ^ 64) × IsIndex a.plan.extents a.index.items };
}

impl<C: Case, F: Folder> Analyst<C, F> {
    /// Takes all memory that reads need: a chunk's room, and the plan with its index.
    pub fn open(
        alloc: Global,
        viewer: Option<Viewer<C, F::Receipt>>,
        peek: F::Peek,
        plan: &Plan,
    ) -> Result<Analyst<C, F>, Memory>
        requires { IfSome viewer (λ v. v.list.plan ≡ plan.now) }
        ensures { IfOk result (λ a. a ≡ record { plan = plan.now; viewer = viewer; peek = peek }) }
    {
        let Ok(plan) = copy_of(alloc, plan) else {
            return Err(Memory);
        };
        let Ok(index) = index_of(alloc, plan.extents()) else {
            return Err(Memory);
        };
        let Ok(buffer) = zeros(alloc, CHUNK as usize) else {
            return Err(Memory);
        };
        Ok(Analyst {
            plan,
            viewer,
            peek,
            index,
            buffer,
            alloc,
        })
    }

    /// Whether it can look at the published list.
    pub fn has_viewer(&self) -> bool
        ensures { result ≡ is_some self.now.viewer }
    {
        self.viewer.is_some()
    }

    /// Hands a told list to the viewer, and gives its answer: where that is true, what was seen and the told list are known
    /// to be beginnings of one list. Without a viewer it does nothing and answers true.
    pub fn learn(&mut self, told: Told<C, F::Receipt>) -> bool
        requires { IfSome self.old.viewer (λ v. told.list ≡ v.list) }
        ensures same { self.new ≡ self.old }
        ensures without { self.old.viewer ≡ None → result ≡ true }
        ensures one_list { IsTrue result → IfSome self.old.viewer (λ v. (all : List (Part F.Receipt)) × AreListed v.list.plan all × IsPrefix v.pieces all × IsPrefix told.pieces all) }
        ensures begins { IsTrue result → IfSome self.old.viewer (λ v. length v.pieces ≤ length told.pieces → IsPrefix v.pieces told.pieces) }
        ensures whole { IsTrue result → IfSome self.old.viewer (λ v. HasEvery self.old.plan told.pieces → IsPrefix v.pieces told.pieces) }
    {
        match &mut self.viewer {
            Some(viewer) => viewer.learn(told),
            None => true,
        }
    }

    /// Gives the peek back.
    pub fn into_peek(self) -> F::Peek
        ensures { result ≡ self.peek }
    {
        self.peek
    }
}

// The same plan once more.
fn copy_of(alloc: Global, plan: &Plan) -> Result<Plan, Memory>
    ensures same { IfOk result (λ p. p ≡ plan.now) }
    ensures planned { IfOk result (λ p. IsPlan p.size p.block p.extents) }
    ensures small { IfOk result (λ p. p.size < 2 ^ 64) }
{
    let Ok(extents) = plan.extents().to_vec(alloc) else {
        return Err(Memory);
    };
    Plan::of(alloc, extents, plan.size(), plan.block()).map_err(|_| Memory)
}
