//! An examiner of a run.
ghost use Rattle.std.specs.Prelude.{◌≡◌, ◌≤◌, ◌⊎◌, None, Some, IfErr, IfSome, IsErrOf, OnOk, length, map};
ghost use Rattle.std.specs.Arc.{arc_value};
ghost use mathlib.Core.List.{IsPrefix};
ghost use Rattle.aff_model.specs.Causes.{HasCause};
ghost use Rattle.aff_image.specs.Sound.{AreSound};
ghost use Rattle.aff_snapshot.specs.Lists.{HasEvery};
ghost use Rattle.aff_examine.specs.Faults.{IsFollowFault};
ghost use Rattle.aff_examine.specs.Folds.{HasSameRule};
ghost use Rattle.aff_examine.specs.Following.{HasGoneOn, between, seen_by, shown_by};
ghost use Rattle.aff_examine.specs.Sights.{FoldsOn, IsFold};

use crate::{FollowError, Follower};
use aff_model::{Case, Piece};
use aff_outside::{Examiner, Folder};
use aff_snapshot::{Running, Told};
use std::sync::Arc;

/// An examiner with who shows it the pieces, and its fault.
#[derive(Drop)]
pub struct Examination<C: Case, F: Folder> {
    pub follower: Follower<C, F>,
    pub examiner: Box<dyn Examiner>,
    pub fault: Option<FollowError>,
}

impl<C: Case, F: Folder> Examination<C, F> {
    /// Shows the examiner the pieces as they come, while workers go on. One with a fault stays as it is.
    pub fn live(&mut self, running: &Running)
        requires inside { self.old.follower.shown ≤ length (seen_by self.old.follower) }
        ensures on { HasGoneOn self.old.follower self.new.follower }
        ensures inside { self.new.follower.shown ≤ length (seen_by self.new.follower) }
        ensures fold { FoldsOn self.old.follower.plan F.Receipt.receipt_tells F.Receipt.told (rule self.old.examiner) (shown_by self.old.follower) (shown_by self.new.follower) (state self.old.examiner) (state self.new.examiner) }
        ensures kept { HasSameRule (λ e. rule e) (λ e. text e) self.old.examiner self.new.examiner }
        ensures earlier { (f : FollowError) → self.old.fault ≡ Some f → self.new ≡ self.old }
        ensures fault { self.old.fault ≡ None → IfSome self.new.fault (IsFollowFault self.old.follower.plan F.Receipt.receipt_tells (seen_by self.new.follower) self.new.follower.shown) }
        ensures cause { HasCause (F.Peek.peek_faults self.old.follower.peek) (F.Peek.peek_faults self.new.follower.peek) ((self.old.fault ≡ None) × (self.new.fault ≡ Some FollowError.Failed)) }
    {
        if self.fault.is_some() {
            return;
        }
        self.fault = follow(&mut self.follower, &mut self.examiner, running).err();
    }

    /// Hands a told list to the viewer: what was seen is known to begin it from then on, where it has every extent of the plan.
    /// A viewer that cannot learn that is a fault of its examiner, as want of memory is. One with a fault keeps it.
    pub fn learn(&mut self, told: Told<C, F::Receipt>)
        requires list { IfSome self.old.follower.viewer (λ v. told.list ≡ v.list) }
        ensures same { (self.new.follower ≡ self.old.follower) × (self.new.examiner ≡ self.old.examiner) }
        ensures fault { (self.new.fault ≡ self.old.fault) ⊎ ((self.old.fault ≡ None) × (self.new.fault ≡ Some FollowError.Memory)) }
        ensures learned { self.new.fault ≡ None → HasEvery self.old.follower.plan told.pieces → IfSome self.old.follower.viewer (λ v. IsPrefix v.pieces told.pieces) }
    {
        if !self.follower.learn(told) && self.fault.is_none() {
            self.fault = Some(FollowError::Memory);
        }
    }

    /// Shows the examiner the rest of the whole list. One with a fault stays as it is.
    pub fn close(&mut self, pieces: &[Arc<Piece<F::Receipt>>])
        requires sound { AreSound C.content self.old.follower.plan F.Receipt.receipt_tells F.Receipt.told (map arc_value pieces.now) }
        requires inside { self.old.follower.shown ≤ length (seen_by self.old.follower) }
        requires seen { self.old.fault ≡ None → IfSome self.old.follower.viewer (λ v. IsPrefix v.pieces (map arc_value pieces.now)) }
        ensures on { HasGoneOn self.old.follower self.new.follower }
        ensures fold { self.new.fault ≡ None → FoldsOn self.old.follower.plan F.Receipt.receipt_tells F.Receipt.told (rule self.old.examiner) (shown_by self.old.follower) (map arc_value pieces.now) (state self.old.examiner) (state self.new.examiner) }
        ensures kept { HasSameRule (λ e. rule e) (λ e. text e) self.old.examiner self.new.examiner }
        ensures earlier { (f : FollowError) → self.old.fault ≡ Some f → self.new ≡ self.old }
        ensures fault { self.old.fault ≡ None → IfSome self.new.fault (IsFollowFault self.old.follower.plan F.Receipt.receipt_tells (map arc_value pieces.now) self.new.follower.shown) }
        ensures cause { HasCause (F.Peek.peek_faults self.old.follower.peek) (F.Peek.peek_faults self.new.follower.peek) ((self.old.fault ≡ None) × (self.new.fault ≡ Some FollowError.Failed)) }
    {
        if self.fault.is_some() {
            return;
        }
        self.fault = drain(&mut self.follower, &mut self.examiner, pieces).err();
    }
}

// Lets a follower show a boxed examiner the pieces as they come.
fn follow<C: Case, F: Folder>(
    follower: &mut Follower<C, F>,
    examiner: &mut Box<dyn Examiner>,
    running: &Running,
) -> Result<u64, FollowError>
    requires { follower.old.shown ≤ length (seen_by follower.old) }
    ensures on { HasGoneOn follower.old follower.new }
    ensures inside { follower.new.shown ≤ length (seen_by follower.new) }
    ensures fold { IsFold follower.old.plan F.Receipt.receipt_tells F.Receipt.told (rule examiner.old) follower.old.shown (between follower.old.shown follower.new.shown (seen_by follower.new)) (state examiner.old) (state examiner.new) }
    ensures kept { HasSameRule (λ e. rule e) (λ e. text e) examiner.old examiner.new }
    ensures fault { IfErr result (IsFollowFault follower.old.plan F.Receipt.receipt_tells (seen_by follower.new) follower.new.shown) }
    ensures cause { HasCause (F.Peek.peek_faults follower.old.peek) (F.Peek.peek_faults follower.new.peek) (IsErrOf result FollowError.Failed) }
{
    follower.follow(&mut **examiner, running)
}

// Lets a follower show a boxed examiner the rest of the whole list.
fn drain<C: Case, F: Folder>(
    follower: &mut Follower<C, F>,
    examiner: &mut Box<dyn Examiner>,
    pieces: &[Arc<Piece<F::Receipt>>],
) -> Result<(), FollowError>
    requires sound { AreSound C.content follower.old.plan F.Receipt.receipt_tells F.Receipt.told (map arc_value pieces.now) }
    requires inside { follower.old.shown ≤ length pieces.now }
    ensures on { HasGoneOn follower.old follower.new }
    ensures fold { IsFold follower.old.plan F.Receipt.receipt_tells F.Receipt.told (rule examiner.old) follower.old.shown (between follower.old.shown follower.new.shown (map arc_value pieces.now)) (state examiner.old) (state examiner.new) }
    ensures kept { HasSameRule (λ e. rule e) (λ e. text e) examiner.old examiner.new }
    ensures all { OnOk result (follower.new.shown ≡ length pieces.now) }
    ensures fault { IfErr result (IsFollowFault follower.old.plan F.Receipt.receipt_tells (map arc_value pieces.now) follower.new.shown) }
    ensures cause { HasCause (F.Peek.peek_faults follower.old.peek) (F.Peek.peek_faults follower.new.peek) (IsErrOf result FollowError.Failed) }
{
    follower.drain(&mut **examiner, pieces)
}
