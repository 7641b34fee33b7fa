//! The session.
ghost use Rattle.std.specs.Prelude.{◌≡◌, ◌⊎◌, [], None, Some, length, map, IfOk, IfSome, IsSome, MatchOption};
ghost use Rattle.std.specs.Arc.{arc_value};
ghost use mathlib.Core.List.{IsPrefix};
ghost use Rattle.aff_model.specs.Causes.{HasCause};
ghost use Rattle.aff_image.specs.Sound.{AreSound};
ghost use Rattle.aff_snapshot.specs.Lists.{HasEvery};
ghost use Rattle.aff_script.specs.Script.{IsSession};
ghost use Rattle.aff_session.specs.Answers.{live_of};
ghost use Rattle.aff_session.specs.Asked.{AreAskedFor};
ghost use Rattle.aff_session.specs.Faults.{IsSessionFault};
ghost use Rattle.aff_session.specs.Shown.{AreAnsweredBy, AreLive};
ghost use Rattle.aff_session.specs.Sittings.{HasSat, IsSameButFault, Sitting};

use crate::SessionFault;
use crate::asking::{ask_late, ask_live};
use crate::looker::Looker;
use crate::parts::{late_part, live_part};
use aff_claim::{Claims, Pass};
use aff_model::{Case, Memory, Piece, Plan};
use aff_outside::{Folder, Gate};
use aff_script::{Answer, Request};
use aff_snapshot::{Running, Told, Viewer};
use std::alloc::Global;
use std::marker::Model;
use std::sync::Arc;

/// An analyst with what it asks and what it was answered. Contracts see it as a `Sitting`.
#[derive(Drop)]
pub struct Session<C: Case, F: Folder> {
    looker: Looker<C, F>,
    requests: Vec<Request>,
    answers: Vec<Answer>,
    fault: Option<SessionFault>,
}

impl<C: Case, F: Folder> Model for Session<C, F> {
    ghost use Rattle.aff_script.specs.Script.{IsSession};
    ghost use Rattle.aff_session.specs.Sittings.{Sitting};

    ghost Value = { Sitting F.Receipt F.Peek };

    ghost view = { λ s. record { plan = s.looker.plan; viewer = s.looker.viewer; peek = s.looker.peek; claims = s.looker.claims; raised = s.looker.raised; requests = s.requests.items; answers = s.answers.items; fault = s.fault } };

    // what it asks may be asked of the plan's device
    ghost invariant = { λ s. IsSession s.looker.plan.size s.requests.items };
}

/// What a session leaves: its answers, its peek, and its fault.
#[derive(Drop)]
pub struct SessionParts<F: Folder> {
    pub answers: Vec<Answer>,
    pub peek: F::Peek,
    pub fault: Option<SessionFault>,
}

impl<C: Case, F: Folder> Session<C, F> {
    /// Takes the room that its answers need, but for their runs. The peek and the viewer are dropped where that is refused.
    pub fn new(
        alloc: Global,
        viewer: Option<Viewer<C, F::Receipt>>,
        peek: F::Peek,
        plan: &Plan,
        pass: Pass,
        requests: &[Request],
    ) -> Result<Session<C, F>, Memory>
        requires viewer { IfSome viewer (λ v. v.list.plan ≡ plan.now) }
        requires extents { pass.claims.table.extents ≡ length plan.now.extents }
        requires requests { IsSession plan.now.size requests.now }
        ensures { IfOk result (λ s. s ≡ record { plan = plan.now; viewer = viewer; peek = peek; claims = pass.claims; raised = pass.view.raised; requests = requests.now; answers = []; fault = None }) }
    {
        let Ok(requests) = requests.to_vec(alloc) else {
            return Err(Memory);
        };
        let Ok(answers) = Vec::with_capacity(alloc, requests.len()) else {
            return Err(Memory);
        };
        let looker = Looker::new(alloc, viewer, peek, plan, pass)?;
        Ok(Session {
            looker,
            requests,
            answers,
            fault: None,
        })
    }

    /// Asks what stands before `after`, while workers go on: before each read the gate is told that session `number` asks,
    /// and behind it at which front it was answered. `await` looks until so many publications are seen, no worker runs, or it
    /// has looked `TURNS` times in vain; `raise` asks for the extents of its range. Without a viewer nothing is asked. It waits
    /// for nobody but the gate.
    pub fn live<G: Gate>(&mut self, claims: &Claims, running: &Running, gate: &G, number: u32)
        requires claims { self.old.claims ≡ claims.now }
        requires fresh { (self.old.answers ≡ []) × (self.old.fault ≡ None) }
        ensures kept { HasSat self.old self.new }
        ensures answers { self.new.fault ≡ None → AreLive self.old.plan F.Receipt.receipt_tells F.Receipt.told self.new.viewer self.old.requests self.new.answers }
        ensures asked { self.new.fault ≡ None → IsSome self.old.viewer → AreAskedFor self.old.plan.extents self.new.raised (live_of self.old.requests) }
        ensures fault { IfSome self.new.fault (λ f. MatchOption self.new.viewer ⊥ (λ v. IsSessionFault self.old.plan F.Receipt.receipt_tells v.pieces f)) }
        ensures cause { HasCause (F.Peek.peek_faults self.old.peek) (F.Peek.peek_faults self.new.peek) (self.new.fault ≡ Some SessionFault.Failed) }
    {
        if !self.looker.has_viewer() {
            return;
        }
        let requests = live_part(&self.requests);
        let answers = &mut self.answers;
        let asked = ask_live(
            &mut self.looker,
            claims,
            running,
            gate,
            number,
            requests,
            answers,
        );
        self.fault = asked.err();
    }

    /// Hands a told list to the viewer: what was seen is known to begin it from then on, where it has every extent of the
    /// plan. A viewer that cannot learn that is a fault of its session, as want of memory is. A session with a fault keeps it.
    pub fn learn(&mut self, told: Told<C, F::Receipt>)
        requires list { IfSome self.old.viewer (λ v. told.list ≡ v.list) }
        ensures same { IsSameButFault self.old self.new }
        ensures fault { (self.new.fault ≡ self.old.fault) ⊎ ((self.old.fault ≡ None) × (self.new.fault ≡ Some SessionFault.Memory)) }
        ensures learned { self.new.fault ≡ None → HasEvery self.old.plan told.pieces → IfSome self.old.viewer (λ v. IsPrefix v.pieces told.pieces) }
    {
        if !self.looker.learn(told) && self.fault.is_none() {
            self.fault = Some(SessionFault::Memory);
        }
    }

    /// Asks what is left, of the whole list: what stands behind `after`, or everything where there is no viewer. A session
    /// with a fault stays as it is.
    pub fn close(&mut self, pieces: &[Arc<Piece<F::Receipt>>])
        requires sound { AreSound C.content self.old.plan F.Receipt.receipt_tells F.Receipt.told (map arc_value pieces.now) }
        requires seen { self.old.fault ≡ None → IfSome self.old.viewer (λ v. IsPrefix v.pieces (map arc_value pieces.now)) }
        requires live { self.old.fault ≡ None → AreLive self.old.plan F.Receipt.receipt_tells F.Receipt.told self.old.viewer self.old.requests self.old.answers }
        ensures kept { HasSat self.old self.new }
        ensures earlier { (f : SessionFault) → self.old.fault ≡ Some f → self.new ≡ self.old }
        ensures answers { self.new.fault ≡ None → AreAnsweredBy self.old.plan F.Receipt.receipt_tells F.Receipt.told (map arc_value pieces.now) self.old.requests self.new.answers }
        ensures fault { self.old.fault ≡ None → IfSome self.new.fault (IsSessionFault self.old.plan F.Receipt.receipt_tells (map arc_value pieces.now)) }
        ensures cause { HasCause (F.Peek.peek_faults self.old.peek) (F.Peek.peek_faults self.new.peek) ((self.old.fault ≡ None) × (self.new.fault ≡ Some SessionFault.Failed)) }
    {
        if self.fault.is_some() {
            return;
        }
        let requests = late_part(self.looker.has_viewer(), &self.requests);
        let asked = ask_late(&mut self.looker, pieces, requests, &mut self.answers);
        self.fault = asked.err();
    }

    /// Gives the answers, the peek and the fault.
    pub fn into_parts(self) -> SessionParts<F>
        ensures answers { result.answers.items ≡ self.answers }
        ensures peek { result.peek ≡ self.peek }
        ensures fault { result.fault ≡ self.fault }
    {
        SessionParts {
            answers: self.answers,
            peek: self.looker.into_peek(),
            fault: self.fault,
        }
    }
}
