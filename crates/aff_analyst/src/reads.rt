//! Reads: the answer to a range.
ghost use Rattle.std.specs.Prelude.{◌≡◌, ◌+◌, ◌<◌, ◌≤◌, ◌^◌, ℕ, List, [], length, map, None, IfOk, IfSome, IfErr, IsErrOf, IsSome, OnOk, OnErr};
ghost use Rattle.std.specs.Arc.{arc_value};
ghost use Rattle.aff_model.specs.Causes.{HasCause};
ghost use Rattle.aff_model.specs.declared.limits.TheConstants as limits;
ghost use Rattle.aff_model.specs.History.{Part};
ghost use Rattle.aff_model.specs.Index.{IsIndex};
ghost use Rattle.aff_model.specs.Plan.{IsPlan};
ghost use Rattle.aff_image.specs.Sound.{AreSound};
ghost use Rattle.aff_snapshot.specs.Lists.{Beginning};
ghost use Rattle.aff_analyst.specs.Answers.{IsReadBy};
ghost use Rattle.aff_analyst.specs.Faults.{IsFault, IsRangeFault, MayRead};
ghost use Rattle.aff_analyst.specs.Raised.{HasRaised, IsMissed};
ghost use Rattle.aff_analyst.specs.Values.{HasGrown, MayHaveGrown};

use crate::raise::raise_missed;
use crate::range::read_range;
use crate::{Analyst, ReadError, RunList};
use aff_claim::{Claims, Pass};
use aff_model::{Case, MAX_READ, Piece, Plan};
use aff_outside::{Folder, Peek, Telling};
use aff_snapshot::Viewer;
use std::sync::Arc;

impl<C: Case, F: Folder> Analyst<C, F> {
    /// Looks once, and answers a range by the pieces that are published by then: their number, which is the front; the
    /// range's bytes, at the beginning of `out`; and its runs. The pieces of the range are found by going through all that
    /// were seen, once for each chunk.
    ///
    /// Between the look and the answer it asks for each extent of the range of which it saw no piece, also where the answer
    /// is then an error of the peek.
    pub fn read(
        &mut self,
        claims: &Claims,
        pass: &mut Pass,
        at: u64,
        len: u64,
        out: &mut [u8],
        runs: &mut RunList,
    ) -> Result<u64, ReadError>
        requires viewer { IsSome self.old.viewer }
        requires room { limits.MAX_READ ≤ length out.old }
        requires claims { pass.old.claims ≡ claims.now }
        requires extents { claims.now.table.extents ≡ length self.old.plan.extents }
        ensures plan { self.new.plan ≡ self.old.plan }
        ensures looked { MayHaveGrown self.old.viewer self.new.viewer }
        ensures front { IfOk result (λ front. IfSome self.new.viewer (λ v. length v.pieces ≡ front)) }
        ensures range { OnOk result (MayRead self.old.plan.size at len) }
        ensures read { OnOk result (IfSome self.new.viewer (λ v. IsReadBy self.old.plan F.Receipt.receipt_tells F.Receipt.told v.pieces at len out.new runs.new)) }
        ensures fault { IfErr result (λ e. IfSome self.new.viewer (λ v. IsFault self.old.plan F.Receipt.receipt_tells v.pieces at len e)) }
        ensures cause { HasCause (F.Peek.peek_faults self.old.peek) (F.Peek.peek_faults self.new.peek) (IsErrOf result ReadError.Failed) }
        ensures empty { OnErr result (runs.new ≡ []) }
        ensures claims { pass.new.claims ≡ pass.old.claims }
        ensures raised { MayRead self.old.plan.size at len → IfSome self.new.viewer (λ v. HasRaised (IsMissed self.old.plan.extents v.pieces at len) pass.old.view pass.new.view) }
        ensures unasked { ¬ (MayRead self.old.plan.size at len) → pass.new ≡ pass.old }
    {
        runs.clear();
        check_range(&self.plan, at, len)?;
        let Some(viewer) = &mut self.viewer else {
            unreachable!()
        };
        let front = look_and_raise(viewer, claims, pass, &self.plan, &self.index, at, len);
        let out = &mut out[..len as usize];
        answer_seen(
            viewer,
            &mut self.peek,
            &mut self.buffer,
            &self.plan,
            at,
            out,
            runs,
        )?;
        Ok(front)
    }

    /// Answers a range by given pieces: the range's bytes, at the beginning of `out`, and its runs. The pieces of the range
    /// are found by going through all, once for each chunk.
    pub fn read_all(
        &mut self,
        pieces: &[Arc<Piece<F::Receipt>>],
        at: u64,
        len: u64,
        out: &mut [u8],
        runs: &mut RunList,
    ) -> Result<(), ReadError>
        requires sound { AreSound C.content self.old.plan F.Receipt.receipt_tells F.Receipt.told (map arc_value pieces.now) }
        requires room { limits.MAX_READ ≤ length out.old }
        ensures plan { self.new.plan ≡ self.old.plan }
        ensures viewer { self.new.viewer ≡ self.old.viewer }
        ensures range { OnOk result (MayRead self.old.plan.size at len) }
        ensures read { OnOk result (IsReadBy self.old.plan F.Receipt.receipt_tells F.Receipt.told (map arc_value pieces.now) at len out.new runs.new) }
        ensures fault { IfErr result (IsFault self.old.plan F.Receipt.receipt_tells (map arc_value pieces.now) at len) }
        ensures cause { HasCause (F.Peek.peek_faults self.old.peek) (F.Peek.peek_faults self.new.peek) (IsErrOf result ReadError.Failed) }
        ensures empty { OnErr result (runs.new ≡ []) }
    {
        runs.clear();
        check_range(&self.plan, at, len)?;
        let out = &mut out[..len as usize];
        answer(
            &mut self.peek,
            &mut self.buffer,
            &self.plan,
            pieces,
            at,
            out,
            runs,
        )
    }
}

fn check_range(plan: &Plan, at: u64, len: u64) -> Result<(), ReadError>
    ensures may { OnOk result (MayRead plan.now.size at len) }
    ensures fault { IfErr result (IsRangeFault plan.now.size at len) }
{
    if len > MAX_READ {
        return Err(ReadError::TooLong);
    }
    let size = plan.size();
    if at > size || len > size - at {
        return Err(ReadError::PastEnd);
    }
    Ok(())
}

// Looks once, and asks for what was not seen of a range; answers the front.
fn look_and_raise<C: Case, R: Telling>(
    viewer: &mut Viewer<C, R>,
    claims: &Claims,
    pass: &mut Pass,
    plan: &Plan,
    index: &[u32],
    at: u64,
    len: u64,
) -> u64
    requires claims { pass.old.claims ≡ claims.now }
    requires extents { claims.now.table.extents ≡ length plan.now.extents }
    requires range { at + len < 2 ^ 64 }
    requires small { plan.now.size < 2 ^ 64 }
    requires sorted { IsIndex plan.now.extents index.now }
    ensures looked { HasGrown viewer.old viewer.new }
    ensures front { length viewer.new.pieces ≡ result }
    ensures claims { pass.new.claims ≡ pass.old.claims }
    ensures raised { HasRaised (IsMissed plan.now.extents viewer.new.pieces at len) pass.old.view pass.new.view }
{
    let front = viewer.look();
    raise_missed(claims, pass, plan, index, viewer.pieces(), at, len);
    front
}

// Reads a range by what a viewer has seen.
fn answer_seen<C: Case, R: Telling, P: Peek<R>>(
    viewer: &Viewer<C, R>,
    peek: &mut P,
    buffer: &mut [u8],
    plan: &Plan,
    at: u64,
    out: &mut [u8],
    runs: &mut RunList,
) -> Result<(), ReadError>
    requires list { viewer.now.list.plan ≡ plan.now }
    requires room { length buffer.old ≡ limits.CHUNK }
    requires range { MayRead plan.now.size at (length out.old) }
    requires planned { IsPlan plan.now.size plan.now.block plan.now.extents }
    requires small { plan.now.size < 2 ^ 64 }
    requires empty { runs.old ≡ [] }
    ensures read { OnOk result (IsReadBy plan.now R.receipt_tells R.told viewer.now.pieces at (length out.old) out.new runs.new) }
    ensures fault { IfErr result (IsFault plan.now R.receipt_tells viewer.now.pieces at (length out.old)) }
    ensures cause { HasCause (P.peek_faults peek.old) (P.peek_faults peek.new) (IsErrOf result ReadError.Failed) }
    ensures empty { OnErr result (runs.new ≡ []) }
{
    answer(peek, buffer, plan, viewer.pieces(), at, out, runs)
}

// Reads a range by pieces; the runs are the range's, and none after an error.
fn answer<R: Telling, P: Peek<R>>(
    peek: &mut P,
    buffer: &mut [u8],
    plan: &Plan,
    pieces: &[Arc<Piece<R>>],
    at: u64,
    out: &mut [u8],
    runs: &mut RunList,
) -> Result<(), ReadError>
    requires room { length buffer.old ≡ limits.CHUNK }
    requires sound { AreSound None plan.now R.receipt_tells R.told (map arc_value pieces.now) }
    requires range { MayRead plan.now.size at (length out.old) }
    requires planned { IsPlan plan.now.size plan.now.block plan.now.extents }
    requires small { plan.now.size < 2 ^ 64 }
    requires empty { runs.old ≡ [] }
    ensures read { OnOk result (IsReadBy plan.now R.receipt_tells R.told (map arc_value pieces.now) at (length out.old) out.new runs.new) }
    ensures fault { IfErr result (IsFault plan.now R.receipt_tells (map arc_value pieces.now) at (length out.old)) }
    ensures cause { HasCause (P.peek_faults peek.old) (P.peek_faults peek.new) (IsErrOf result ReadError.Failed) }
    ensures empty { OnErr result (runs.new ≡ []) }
{
    let result = read_range(peek, buffer, plan, pieces, at, out, runs);
    if result.is_err() {
        runs.clear();
    }
    result
}
