//! Who looks: an analyst with its pass, and room for what a read gives.
ghost use Rattle.std.specs.Prelude.{◌≡◌, ◌≤◌, ◌+◌, ℕ, Contains, None, Some, [], length, map, IfErr, IfOk, IfSome, IsErrOf, IsSome, IsTrue, OnOk, is_some};
ghost use Rattle.std.specs.Arc.{arc_value};
ghost use mathlib.Core.List.{IsPrefix};
ghost use Rattle.aff_model.specs.Causes.{HasCause};
ghost use Rattle.aff_model.specs.Kinds.{spread};
ghost use Rattle.aff_image.specs.Sound.{AreSound};
ghost use Rattle.aff_snapshot.specs.Lists.{HasEvery};
ghost use Rattle.aff_analyst.specs.Answers.{IsReadBy};
ghost use Rattle.aff_analyst.specs.Faults.{MayRead};
ghost use Rattle.aff_analyst.specs.Raised.{Shares};
ghost use Rattle.aff_session.specs.Faults.{IsSessionFault};
ghost use Rattle.aff_session.specs.Lines.{AreLinesOf};
ghost use Rattle.aff_session.specs.Looking.{HasLooked, IsWholeAnswer, Looking};

use crate::SessionFault;
use crate::fault::fault_of;
use crate::lines::lines_of;
use aff_analyst::{Analyst, RunList};
use aff_claim::{Claims, Pass};
use aff_fields::zeros;
use aff_model::{Case, MAX_READ, Memory, Piece, Plan, TURNS};
use aff_outside::{Folder, Gate, GateStep};
use aff_script::Answer;
use aff_snapshot::{Running, Told, Viewer};
use std::alloc::Global;
use std::marker::Model;
use std::sync::Arc;
use std::thread::yield_now;

/// An analyst with its pass, and room for what a read gives. Contracts see it as a `Looking`.
#[derive(Drop)]
pub(crate) struct Looker<C: Case, F: Folder> {
    analyst: Analyst<C, F>,
    pass: Pass,
    bytes: Vec<u8>,
    runs: RunList,
    alloc: Global,
}

impl<C: Case, F: Folder> Model for Looker<C, F> {
    ghost use Rattle.std.specs.Prelude.{◌≡◌, ◌<◌, ◌≤◌, ◌^◌, length};
    ghost use Rattle.aff_model.specs.declared.limits.TheConstants as limits;
    ghost use Rattle.aff_session.specs.Looking.{Looking};

    ghost Value = { Looking F.Receipt F.Peek };

    ghost view = { λ l. record { plan = l.analyst.plan; viewer = l.analyst.viewer; peek = l.analyst.peek; claims = l.pass.claims; raised = l.pass.view.raised; bytes = l.bytes.items; runs = l.runs } };

    ghost invariant = { λ l. (limits.MAX_READ ≤ length l.bytes.items) × (l.analyst.plan.size < 2 ^ 64) × (l.pass.claims.table.extents ≡ length l.analyst.plan.extents) };
}

impl<C: Case, F: Folder> Looker<C, F> {
    // Takes the room.
    pub(crate) fn new(
        alloc: Global,
        viewer: Option<Viewer<C, F::Receipt>>,
        peek: F::Peek,
        plan: &Plan,
        pass: Pass,
    ) -> Result<Looker<C, F>, Memory>
        requires viewer { IfSome viewer (λ v. v.list.plan ≡ plan.now) }
        requires extents { pass.claims.table.extents ≡ length plan.now.extents }
        ensures plan { IfOk result (λ l. l.plan ≡ plan.now) }
        ensures viewer { IfOk result (λ l. l.viewer ≡ viewer) }
        ensures peek { IfOk result (λ l. l.peek ≡ peek) }
        ensures claims { IfOk result (λ l. (l.claims ≡ pass.claims) × (l.raised ≡ pass.view.raised)) }
    {
        // a size of 64 bits
        let _size = plan.size();
        let Ok(bytes) = zeros(alloc, MAX_READ as usize) else {
            return Err(Memory);
        };
        Ok(Looker {
            analyst: Analyst::open(alloc, viewer, peek, plan)?,
            pass,
            bytes,
            runs: RunList::new(alloc)?,
            alloc,
        })
    }

    pub(crate) fn has_viewer(&self) -> bool
        ensures { result ≡ is_some self.now.viewer }
    {
        self.analyst.has_viewer()
    }

    // Hands a told list to the viewer, and gives its answer.
    pub(crate) fn learn(&mut self, told: Told<C, F::Receipt>) -> bool
        requires { IfSome self.old.viewer (λ v. told.list ≡ v.list) }
        ensures same { self.new ≡ self.old }
        ensures whole { IsTrue result → IfSome self.old.viewer (λ v. HasEvery self.old.plan told.pieces → IsPrefix v.pieces told.pieces) }
    {
        self.analyst.learn(told)
    }

    pub(crate) fn into_peek(self) -> F::Peek
        ensures { result ≡ self.peek }
    {
        self.analyst.into_peek()
    }

    // Looks once, and reads a range by what is published then; answers the front.
    fn look(&mut self, claims: &Claims, at: u64, len: u64) -> Result<u64, SessionFault>
        requires claims { self.old.claims ≡ claims.now }
        requires viewer { IsSome self.old.viewer }
        requires range { MayRead self.old.plan.size at len }
        ensures looked { HasLooked self.old self.new }
        ensures front { IfOk result (λ front. IfSome self.new.viewer (λ v. length v.pieces ≡ front)) }
        ensures read { OnOk result (IfSome self.new.viewer (λ v. IsReadBy self.old.plan F.Receipt.receipt_tells F.Receipt.told v.pieces at len self.new.bytes self.new.runs)) }
        ensures fault { IfErr result (λ f. IfSome self.new.viewer (λ v. IsSessionFault self.old.plan F.Receipt.receipt_tells v.pieces f)) }
        ensures cause { HasCause (F.Peek.peek_faults self.old.peek) (F.Peek.peek_faults self.new.peek) (IsErrOf result SessionFault.Failed) }
    {
        let runs = &mut self.runs;
        match self
            .analyst
            .read(claims, &mut self.pass, at, len, &mut self.bytes, runs)
        {
            Ok(front) => Ok(front),
            Err(error) => Err(fault_of(error)),
        }
    }

    // Asks for each extent that shares a byte with a range.
    pub(crate) fn raise(&mut self, claims: &Claims, at: u64, len: u64)
        requires claims { self.old.claims ≡ claims.now }
        requires range { at + len ≤ self.old.plan.size }
        ensures looked { HasLooked self.old self.new }
        ensures viewer { self.new.viewer ≡ self.old.viewer }
        ensures peek { self.new.peek ≡ self.old.peek }
        ensures asked { (e : ℕ) → Shares self.old.plan.extents at len e → Contains self.new.raised e }
    {
        self.analyst.raise(claims, &mut self.pass, at, len);
    }

    // Reads a range by given pieces.
    fn look_at(
        &mut self,
        pieces: &[Arc<Piece<F::Receipt>>],
        at: u64,
        len: u64,
    ) -> Result<(), SessionFault>
        requires sound { AreSound C.content self.old.plan F.Receipt.receipt_tells F.Receipt.told (map arc_value pieces.now) }
        requires range { MayRead self.old.plan.size at len }
        ensures looked { HasLooked self.old self.new }
        ensures viewer { self.new.viewer ≡ self.old.viewer }
        ensures read { OnOk result (IsReadBy self.old.plan F.Receipt.receipt_tells F.Receipt.told (map arc_value pieces.now) at len self.new.bytes self.new.runs) }
        ensures fault { IfErr result (IsSessionFault self.old.plan F.Receipt.receipt_tells (map arc_value pieces.now)) }
        ensures cause { HasCause (F.Peek.peek_faults self.old.peek) (F.Peek.peek_faults self.new.peek) (IsErrOf result SessionFault.Failed) }
    {
        let runs = &mut self.runs;
        match self
            .analyst
            .read_all(pieces, at, len, &mut self.bytes, runs)
        {
            Ok(()) => Ok(()),
            Err(error) => Err(fault_of(error)),
        }
    }

    // The answer that the last read gave, of a range by so many publications.
    fn answer(&self, at: u64, len: u64, front: u64) -> Result<Answer, Memory>
        requires whole { length (spread self.now.runs) ≡ len }
        requires range { MayRead self.now.plan.size at len }
        ensures range { IfOk result (λ a. (a.at ≡ at) × (a.len ≡ len) × (a.front ≡ front)) }
        ensures room { len ≤ length self.now.bytes }
        ensures lines { IfOk result (λ a. AreLinesOf at self.now.bytes self.now.runs a.runs) }
    {
        let runs = lines_of(self.alloc, at, &self.bytes, self.runs.runs())?;
        Ok(Answer {
            at,
            len,
            front,
            runs,
        })
    }

    // Looks once and answers a range, and tells the gate so.
    pub(crate) fn ask<G: Gate>(
        &mut self,
        claims: &Claims,
        gate: &G,
        number: u32,
        at: u64,
        len: u64,
    ) -> Result<Answer, SessionFault>
        requires claims { self.old.claims ≡ claims.now }
        requires viewer { IsSome self.old.viewer }
        requires range { MayRead self.old.plan.size at len }
        ensures looked { HasLooked self.old self.new }
        ensures answer { IfOk result (λ a. IfSome self.new.viewer (λ v. IsWholeAnswer self.old.plan F.Receipt.receipt_tells F.Receipt.told v.pieces at len a)) }
        ensures fault { IfErr result (λ f. IfSome self.new.viewer (λ v. IsSessionFault self.old.plan F.Receipt.receipt_tells v.pieces f)) }
        ensures cause { HasCause (F.Peek.peek_faults self.old.peek) (F.Peek.peek_faults self.new.peek) (IsErrOf result SessionFault.Failed) }
    {
        gate.at(GateStep::Asking(number));
        let front = self.look(claims, at, len)?;
        gate.at(GateStep::Answered(number, front));
        match self.answer(at, len, front) {
            Ok(answer) => Ok(answer),
            Err(Memory) => Err(SessionFault::Memory),
        }
    }

    // Answers a range by given pieces.
    pub(crate) fn ask_all(
        &mut self,
        pieces: &[Arc<Piece<F::Receipt>>],
        at: u64,
        len: u64,
    ) -> Result<Answer, SessionFault>
        requires sound { AreSound C.content self.old.plan F.Receipt.receipt_tells F.Receipt.told (map arc_value pieces.now) }
        requires range { MayRead self.old.plan.size at len }
        ensures looked { HasLooked self.old self.new }
        ensures viewer { self.new.viewer ≡ self.old.viewer }
        ensures answer { IfOk result (IsWholeAnswer self.old.plan F.Receipt.receipt_tells F.Receipt.told (map arc_value pieces.now) at len) }
        ensures fault { IfErr result (IsSessionFault self.old.plan F.Receipt.receipt_tells (map arc_value pieces.now)) }
        ensures cause { HasCause (F.Peek.peek_faults self.old.peek) (F.Peek.peek_faults self.new.peek) (IsErrOf result SessionFault.Failed) }
    {
        self.look_at(pieces, at, len)?;
        match self.answer(at, len, pieces.len() as u64) {
            Ok(answer) => Ok(answer),
            Err(Memory) => Err(SessionFault::Memory),
        }
    }

    // Looks until so many publications are seen, no worker runs, or the turns are used up.
    pub(crate) fn wait(
        &mut self,
        claims: &Claims,
        running: &Running,
        count: u64,
    ) -> Result<(), SessionFault>
        requires claims { self.old.claims ≡ claims.now }
        requires viewer { IsSome self.old.viewer }
        ensures looked { HasLooked self.old self.new }
        ensures fault { IfErr result (λ f. IfSome self.new.viewer (λ v. IsSessionFault self.old.plan F.Receipt.receipt_tells v.pieces f)) }
        ensures cause { HasCause (F.Peek.peek_faults self.old.peek) (F.Peek.peek_faults self.new.peek) (IsErrOf result SessionFault.Failed) }
    {
        for _ in 0..TURNS {
            if self.look(claims, 0, 0)? >= count || !running.any() {
                break;
            }
            yield_now();
        }
        Ok(())
    }
}
