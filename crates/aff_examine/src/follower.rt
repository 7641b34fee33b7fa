//! Who follows the list.
ghost use Rattle.std.specs.Prelude.{◌≡◌, ◌<◌, ◌≤◌, ◌↔◌, suc, false, true, IfErr, IfOk, IfSome, IsErrOf, IsTrue, MatchBool, OnOk, List, None, length, map};
ghost use Rattle.std.specs.Arc.{arc_value};
ghost use mathlib.Core.List.{IsPrefix};
ghost use Rattle.aff_model.specs.declared.limits.TheConstants as limits;
ghost use Rattle.aff_model.specs.Causes.{HasCause};
ghost use Rattle.aff_model.specs.History.{Part};
ghost use Rattle.aff_image.specs.Sound.{AreSound};
ghost use Rattle.aff_snapshot.specs.Lists.{AreListed, HasEvery};
ghost use Rattle.aff_examine.specs.Faults.{IsFollowFault};
ghost use Rattle.aff_examine.specs.Folds.{HasSameRule};
ghost use Rattle.aff_examine.specs.Following.{Following, HasGoneOn, MayEnd, between, seen_by};
ghost use Rattle.aff_examine.specs.Sights.{IsFold};

use crate::FollowError;
use crate::reader::{PieceReader, show_all};
use aff_model::{Case, Memory, Piece, Plan, TURNS};
use aff_outside::{Examiner, Folder};
use aff_snapshot::{Running, Told, Viewer};
use std::alloc::Global;
use std::marker::Model;
use std::sync::Arc;
use std::thread::yield_now;

/// Shows an examiner the pieces of a list, each once and in order. Contracts see it as a `Following`.
#[derive(Drop)]
pub struct Follower<C: Case, F: Folder> {
    viewer: Option<Viewer<C, F::Receipt>>,
    reader: PieceReader<C, F>,
    /// How many pieces it has shown.
    shown: usize,
    /// How many of its last looks gave nothing new.
    idle: u64,
    /// Whether no worker ran before its last look.
    alone: bool,
}

impl<C: Case, F: Folder> Model for Follower<C, F> {
    ghost use Rattle.std.specs.Prelude.{◌≡◌, ◌≤◌, IfSome};
    ghost use Rattle.aff_model.specs.declared.limits.TheConstants as limits;
    ghost use Rattle.aff_examine.specs.Following.{Following};

    ghost Value = { Following F.Receipt F.Peek };

    ghost view = { λ f. record { plan = f.reader.plan; viewer = f.viewer; peek = f.reader.peek; shown = f.shown; idle = f.idle; alone = f.alone } };

    // its viewer's list is of the plan
    ghost invariant = { λ f. IfSome f.viewer (λ v. v.list.plan ≡ f.reader.plan) };
}

impl<C: Case, F: Folder> Follower<C, F> {
    /// Takes all memory that it needs: room for the longest extent and for the plan. The peek and the viewer are dropped where
    /// that is refused.
    pub fn open(
        alloc: Global,
        viewer: Option<Viewer<C, F::Receipt>>,
        peek: F::Peek,
        plan: &Plan,
    ) -> Result<Follower<C, F>, Memory>
        requires { IfSome viewer (λ v. v.list.plan ≡ plan.now) }
        ensures { IfOk result (λ f. f ≡ record { plan = plan.now; viewer = viewer; peek = peek; shown = 0; idle = 0; alone = false }) }
    {
        let reader = PieceReader::new(alloc, peek, plan)?;
        Ok(Follower {
            viewer,
            reader,
            shown: 0,
            idle: 0,
            alone: false,
        })
    }

    /// Shows an examiner the pieces as they come, and answers how many have been shown since the opening. It ends where it has
    /// shown one of each extent, where no worker ran and nothing was new behind that, or where `TURNS` looks in a row gave nothing
    /// new; without a viewer it ends at once.
    pub fn follow(
        &mut self,
        examiner: &mut dyn Examiner,
        running: &Running,
    ) -> Result<u64, FollowError>
        requires { self.old.shown ≤ length (seen_by self.old) }
        ensures on { HasGoneOn self.old self.new }
        ensures inside { self.new.shown ≤ length (seen_by self.new) }
        ensures fold { IsFold self.old.plan F.Receipt.receipt_tells F.Receipt.told (rule examiner.old) self.old.shown (between self.old.shown self.new.shown (seen_by self.new)) (state examiner.old) (state examiner.new) }
        ensures kept { HasSameRule (λ e. rule e) (λ e. text e) examiner.old examiner.new }
        ensures count { IfOk result (λ n. n ≡ self.new.shown) }
        ensures ends { OnOk result (MayEnd self.new) }
        ensures fault { IfErr result (λ e. IsFollowFault self.old.plan F.Receipt.receipt_tells (seen_by self.new) self.new.shown e) }
        ensures cause { HasCause (F.Peek.peek_faults self.old.peek) (F.Peek.peek_faults self.new.peek) (IsErrOf result FollowError.Failed) }
    {
        while self.shown < self.reader.count() && self.await_news(running) {
            self.show_seen(examiner)?;
        }
        Ok(self.shown as u64)
    }

    /// Shows an examiner the rest of a list of which it has shown a beginning.
    pub fn drain(
        &mut self,
        examiner: &mut dyn Examiner,
        pieces: &[Arc<Piece<F::Receipt>>],
    ) -> Result<(), FollowError>
        requires sound { AreSound C.content self.old.plan F.Receipt.receipt_tells F.Receipt.told (map arc_value pieces.now) }
        requires inside { self.old.shown ≤ length pieces.now }
        ensures on { HasGoneOn self.old self.new }
        ensures viewer { self.new.viewer ≡ self.old.viewer }
        ensures inside { self.new.shown ≤ length pieces.now }
        ensures fold { IsFold self.old.plan F.Receipt.receipt_tells F.Receipt.told (rule examiner.old) self.old.shown (between self.old.shown self.new.shown (map arc_value pieces.now)) (state examiner.old) (state examiner.new) }
        ensures kept { HasSameRule (λ e. rule e) (λ e. text e) examiner.old examiner.new }
        ensures all { OnOk result (self.new.shown ≡ length pieces.now) }
        ensures fault { IfErr result (λ e. IsFollowFault self.old.plan F.Receipt.receipt_tells (map arc_value pieces.now) self.new.shown e) }
        ensures cause { HasCause (F.Peek.peek_faults self.old.peek) (F.Peek.peek_faults self.new.peek) (IsErrOf result FollowError.Failed) }
    {
        show_all(&mut self.reader, pieces, &mut self.shown, examiner)
    }

    /// Hands a told list to the viewer, and gives its answer: where that is true, what was seen and the told list are known
    /// to be beginnings of one list. Without a viewer it does nothing and answers true.
    pub fn learn(&mut self, told: Told<C, F::Receipt>) -> bool
        requires { IfSome self.old.viewer (λ v. told.list ≡ v.list) }
        ensures same { self.new ≡ self.old }
        ensures without { self.old.viewer ≡ None → result ≡ true }
        ensures one_list { IsTrue result → IfSome self.old.viewer (λ v. (all : List (Part F.Receipt)) × AreListed v.list.plan all × IsPrefix v.pieces all × IsPrefix told.pieces all) }
        ensures begins { IsTrue result → IfSome self.old.viewer (λ v. length v.pieces ≤ length told.pieces → IsPrefix v.pieces told.pieces) }
        ensures whole { IsTrue result → IfSome self.old.viewer (λ v. HasEvery self.old.plan told.pieces → IsPrefix v.pieces told.pieces) }
    {
        match &mut self.viewer {
            Some(viewer) => viewer.learn(told),
            None => true,
        }
    }

    /// Gives the peek back.
    pub fn into_peek(self) -> F::Peek
        ensures { result ≡ self.peek }
    {
        self.reader.into_peek()
    }

    // Looks until something is new, or no worker runs, or it has looked so often as it has patience for.
    fn await_news(&mut self, running: &Running) -> bool
        requires { self.old.shown ≤ length (seen_by self.old) }
        ensures on { HasGoneOn self.old self.new }
        ensures same { (self.new.peek ≡ self.old.peek) × (self.new.shown ≡ self.old.shown) }
        ensures news { MatchBool result (self.new.shown < length (seen_by self.new)) (MayEnd self.new) }
    {
        self.idle = 0;
        while self.idle < TURNS {
            if self.look(running) {
                return true;
            }
            if self.alone {
                return false;
            }
            yield_now();
        }
        false
    }

    // Looks once, and answers whether there is a piece that it has not shown.
    fn look(&mut self, running: &Running) -> bool
        requires inside { self.old.shown ≤ length (seen_by self.old) }
        requires patient { self.old.idle < limits.TURNS }
        ensures on { HasGoneOn self.old self.new }
        ensures same { (self.new.peek ≡ self.old.peek) × (self.new.shown ≡ self.old.shown) }
        ensures news { MatchBool result (self.new.shown < length (seen_by self.new)) (self.new.shown ≡ length (seen_by self.new)) }
        ensures idle { MatchBool result (self.new.idle ≡ 0) (self.new.idle ≡ suc self.old.idle) }
        ensures alone { self.old.viewer ≡ None → self.new.alone ≡ true }
    {
        self.alone = !running.any();
        let front = match &mut self.viewer {
            Some(viewer) => viewer.look(),
            None => {
                self.alone = true;
                0
            }
        };
        let news = self.shown < front as usize;
        self.idle = if news { 0 } else { self.idle + 1 };
        news
    }

    // Shows what it has seen and not shown.
    fn show_seen(&mut self, examiner: &mut dyn Examiner) -> Result<(), FollowError>
        requires { self.old.shown ≤ length (seen_by self.old) }
        ensures on { HasGoneOn self.old self.new }
        ensures viewer { self.new.viewer ≡ self.old.viewer }
        ensures inside { self.new.shown ≤ length (seen_by self.new) }
        ensures fold { IsFold self.old.plan F.Receipt.receipt_tells F.Receipt.told (rule examiner.old) self.old.shown (between self.old.shown self.new.shown (seen_by self.old)) (state examiner.old) (state examiner.new) }
        ensures kept { HasSameRule (λ e. rule e) (λ e. text e) examiner.old examiner.new }
        ensures all { OnOk result (self.new.shown ≡ length (seen_by self.old)) }
        ensures fault { IfErr result (λ e. IsFollowFault self.old.plan F.Receipt.receipt_tells (seen_by self.old) self.new.shown e) }
        ensures cause { HasCause (F.Peek.peek_faults self.old.peek) (F.Peek.peek_faults self.new.peek) (IsErrOf result FollowError.Failed) }
    {
        match &self.viewer {
            Some(viewer) => show_all(&mut self.reader, viewer.pieces(), &mut self.shown, examiner),
            None => Ok(()),
        }
    }
}
