//! Who reads pieces whole, and shows them.
ghost use Rattle.std.specs.Prelude.{◌≡◌, ◌≢◌, ℕ, ◌+◌, ◌*◌, ◌<◌, ◌≤◌, ◌^◌, [], ◌∷◌, All, IfErr, IfOk, IsErrOf, OnErr, OnOk, length, map, slice_get, slice_index, Some, None};
ghost use Rattle.std.specs.Arc.{arc_value};
ghost use Rattle.aff_model.specs.declared.limits.TheConstants as limits;
ghost use Rattle.aff_model.specs.Causes.{HasCause};
ghost use Rattle.aff_model.specs.History.{Part};
ghost use Rattle.aff_model.specs.Plan.{IsPlan};
ghost use Rattle.aff_image.specs.Sound.{AreSound, IsSound};
ghost use Rattle.aff_examine.specs.Faults.{IsFollowFault, IsPieceFault};
ghost use Rattle.aff_examine.specs.Folds.{HasSameRule};
ghost use Rattle.aff_examine.specs.Following.{between};
ghost use Rattle.aff_examine.specs.Reading.{IsGathered, IsReadIn, IsShownTo, Reading};
ghost use Rattle.aff_examine.specs.Sights.{IsFold};

use crate::FollowError;
use crate::error::fault_of;
use crate::seeing::{blank, show_to};
use aff_analyst::{Analyst, RunList};
use aff_fields::zeros;
use aff_model::{Case, Extent, MAX_READ, Memory, Piece, Plan, SECTOR};
use aff_outside::{Examiner, Folder, Telling};
use std::alloc::Global;
use std::marker::Model;
use std::mem::replace;
use std::sync::Arc;

/// Reads pieces whole, and shows them. Contracts see it as its plan and its peek.
#[derive(Drop)]
pub(crate) struct PieceReader<C: Case, F: Folder> {
    analyst: Analyst<C, F>,
    extents: Vec<Extent>,
    /// Room for the longest extent, and for the longest read behind it.
    bytes: Vec<u8>,
    /// Room for the numbers of the longest extent's sectors.
    bad: Vec<u32>,
    runs: RunList,
    alloc: Global,
}

impl<C: Case, F: Folder> Model for PieceReader<C, F> {
    ghost use Rattle.std.specs.Prelude.{◌≡◌, ◌+◌, ◌*◌, ◌<◌, ◌≤◌, ◌^◌, All, length, vec_capacity};
    ghost use Rattle.aff_model.specs.declared.limits.TheConstants as limits;
    ghost use Rattle.aff_model.specs.Plan.{IsPlan};
    ghost use Rattle.aff_examine.specs.Reading.{Reading};

    ghost Value = { Reading F.Peek };

    ghost view = { λ r. record { plan = r.analyst.plan; peek = r.analyst.peek } };

    // each extent of the plan has its room
    ghost invariant = { λ r. (r.extents.items ≡ r.analyst.plan.extents)
        × IsPlan r.analyst.plan.size r.analyst.plan.block r.analyst.plan.extents × (r.analyst.plan.size < 2 ^ 64)
        × All (λ e. (e.len + limits.MAX_READ ≤ length r.bytes.items) × (e.len ≤ limits.SECTOR * vec_capacity r.bad)) r.extents.items };
}

impl<C: Case, F: Folder> PieceReader<C, F> {
    /// Takes all memory that it needs: an extent's room, a chunk's, and the plan's. The peek is dropped where that is refused.
    pub(crate) fn new(
        alloc: Global,
        peek: F::Peek,
        plan: &Plan,
    ) -> Result<PieceReader<C, F>, Memory>
        ensures { IfOk result (λ r. r ≡ record { plan = plan.now; peek = peek }) }
    {
        // a size of 64 bits
        let _size = plan.size();
        let Ok(extents) = plan.extents().to_vec(alloc) else {
            return Err(Memory);
        };
        let longest = longest_of(&extents);
        let Ok(bytes) = zeros(alloc, (longest + MAX_READ) as usize) else {
            return Err(Memory);
        };
        let Ok(bad) = Vec::with_capacity(alloc, (longest / SECTOR) as usize) else {
            return Err(Memory);
        };
        Ok(PieceReader {
            analyst: Analyst::open(alloc, None, peek, plan)?,
            extents,
            bytes,
            bad,
            runs: RunList::new(alloc)?,
            alloc,
        })
    }

    /// How many extents the plan has.
    pub(crate) fn count(&self) -> usize
        ensures { result ≡ length self.now.plan.extents }
    {
        self.extents.len()
    }

    pub(crate) fn into_peek(self) -> F::Peek
        ensures { result ≡ self.peek }
    {
        self.analyst.into_peek()
    }

    /// Shows an examiner the piece of a number.
    pub(crate) fn show(
        &mut self,
        pieces: &[Arc<Piece<F::Receipt>>],
        number: usize,
        examiner: &mut dyn Examiner,
    ) -> Result<(), FollowError>
        requires inside { number < length pieces.now }
        requires sound { AreSound C.content self.old.plan F.Receipt.receipt_tells F.Receipt.told (map arc_value pieces.now) }
        ensures plan { self.new.plan ≡ self.old.plan }
        ensures shown { OnOk result ((p : Part F.Receipt) × (slice_get (map arc_value pieces.now) number ≡ Some p) × IsShownTo self.old.plan F.Receipt.receipt_tells F.Receipt.told (rule examiner.old) (number + 1) p (state examiner.old) (state examiner.new)) }
        ensures same { OnErr result (state examiner.new ≡ state examiner.old) }
        ensures kept { HasSameRule (λ e. rule e) (λ e. text e) examiner.old examiner.new }
        ensures fault { IfErr result (λ e. IsFollowFault self.old.plan F.Receipt.receipt_tells (map arc_value pieces.now) number e) }
        ensures cause { HasCause (F.Peek.peek_faults self.old.peek) (F.Peek.peek_faults self.new.peek) (IsErrOf result FollowError.Failed) }
    {
        let piece: &Piece<F::Receipt> = &pieces[number];
        let extent = extent_of(&self.extents, piece);
        read_whole(
            &mut self.analyst,
            &mut self.runs,
            &pieces[number..number + 1],
            piece,
            &extent,
            &mut self.bytes,
        )?;
        let room = replace(&mut self.bad, Vec::new(self.alloc));
        let front = number as u64 + 1;
        let bytes = &self.bytes[..extent.len as usize];
        let (room, shown) = show_to(examiner, front, &extent, piece, room, bytes);
        self.bad = room;
        match shown {
            Ok(()) => Ok(()),
            Err(Memory) => Err(FollowError::Memory),
        }
    }
}

/// Shows an examiner the pieces behind the first `shown` of a list, and counts them.
pub(crate) fn show_all<C: Case, F: Folder>(
    reader: &mut PieceReader<C, F>,
    pieces: &[Arc<Piece<F::Receipt>>],
    shown: &mut usize,
    examiner: &mut dyn Examiner,
) -> Result<(), FollowError>
    requires inside { shown.old ≤ length pieces.now }
    requires sound { AreSound C.content reader.old.plan F.Receipt.receipt_tells F.Receipt.told (map arc_value pieces.now) }
    ensures plan { reader.new.plan ≡ reader.old.plan }
    ensures more { shown.old ≤ shown.new }
    ensures inside { shown.new ≤ length pieces.now }
    ensures all { OnOk result (shown.new ≡ length pieces.now) }
    ensures fold { IsFold reader.old.plan F.Receipt.receipt_tells F.Receipt.told (rule examiner.old) shown.old (between shown.old shown.new (map arc_value pieces.now)) (state examiner.old) (state examiner.new) }
    ensures kept { HasSameRule (λ e. rule e) (λ e. text e) examiner.old examiner.new }
    ensures fault { IfErr result (λ e. IsFollowFault reader.old.plan F.Receipt.receipt_tells (map arc_value pieces.now) shown.new e) }
    ensures cause { HasCause (F.Peek.peek_faults reader.old.peek) (F.Peek.peek_faults reader.new.peek) (IsErrOf result FollowError.Failed) }
{
    while *shown < pieces.len() {
        reader.show(pieces, *shown, examiner)?;
        *shown += 1;
    }
    Ok(())
}

// The length of the longest of some extents.
fn longest_of(extents: &[Extent]) -> u64
    requires { All (λ e. e.len ≤ limits.MAX_EXTENT) extents.now }
    ensures longest { All (λ e. e.len ≤ result) extents.now }
    ensures short { result ≤ limits.MAX_EXTENT }
{
    let mut longest = 0;
    for extent in extents {
        longest = extent.len.max(longest);
    }
    longest
}

// The extent of a piece.
fn extent_of<R: Telling>(extents: &[Extent], piece: &Piece<R>) -> Extent
    requires { piece.now.extent < length extents.now }
    ensures { slice_get extents.now piece.now.extent ≡ Some result }
{
    extents[piece.extent as usize]
}

// Reads the extent's bytes by its piece to the beginning of `out`, with 0 where they could not be read.
fn read_whole<C: Case, F: Folder>(
    analyst: &mut Analyst<C, F>,
    runs: &mut RunList,
    one: &[Arc<Piece<F::Receipt>>],
    piece: &Piece<F::Receipt>,
    extent: &Extent,
    out: &mut [u8],
) -> Result<(), FollowError>
    requires one { map arc_value one.now ≡ piece.now ∷ [] }
    requires planned { slice_get analyst.old.plan.extents piece.now.extent ≡ Some extent.now }
    requires sound { IsSound C.content analyst.old.plan.block extent.now F.Receipt.receipt_tells F.Receipt.told piece.now }
    requires plan { IsPlan analyst.old.plan.size analyst.old.plan.block analyst.old.plan.extents }
    requires small { analyst.old.plan.size < 2 ^ 64 }
    requires room { extent.now.len + limits.MAX_READ ≤ length out.old }
    ensures plan { analyst.new.plan ≡ analyst.old.plan }
    ensures len { length out.new ≡ length out.old }
    ensures read { OnOk result (IsReadIn analyst.old.plan.block F.Receipt.receipt_tells F.Receipt.told extent.now piece.now out.new) }
    ensures fault { IfErr result (IsPieceFault analyst.old.plan F.Receipt.receipt_tells piece.now) }
    ensures seen { IfErr result (λ e. e ≢ FollowError.Memory) }
    ensures cause { HasCause (F.Peek.peek_faults analyst.old.peek) (F.Peek.peek_faults analyst.new.peek) (IsErrOf result FollowError.Failed) }
{
    gather(analyst, runs, one, extent.at, extent.len as usize, out)?;
    blank(out, &piece.bad);
    Ok(())
}

// Reads a range by one piece to the beginning of `out`, one read after another.
fn gather<C: Case, F: Folder>(
    analyst: &mut Analyst<C, F>,
    runs: &mut RunList,
    piece: &[Arc<Piece<F::Receipt>>],
    at: u64,
    len: usize,
    out: &mut [u8],
) -> Result<(), FollowError>
    requires one { (p : Part F.Receipt) × (map arc_value piece.now ≡ p ∷ []) }
    requires sound { AreSound C.content analyst.old.plan F.Receipt.receipt_tells F.Receipt.told (map arc_value piece.now) }
    requires inside { at + len ≤ analyst.old.plan.size }
    requires small { analyst.old.plan.size < 2 ^ 64 }
    requires room { len + limits.MAX_READ ≤ length out.old }
    ensures plan { analyst.new.plan ≡ analyst.old.plan }
    ensures len { length out.new ≡ length out.old }
    ensures bytes { OnOk result ((p : Part F.Receipt) → map arc_value piece.now ≡ p ∷ [] → IsGathered analyst.old.plan F.Receipt.receipt_tells F.Receipt.told p at len out.new) }
    ensures fault { IfErr result (λ e. (p : Part F.Receipt) → map arc_value piece.now ≡ p ∷ [] → IsPieceFault analyst.old.plan F.Receipt.receipt_tells p e) }
    ensures seen { IfErr result (λ e. e ≢ FollowError.Memory) }
    ensures cause { HasCause (F.Peek.peek_faults analyst.old.peek) (F.Peek.peek_faults analyst.new.peek) (IsErrOf result FollowError.Failed) }
{
    let mut done = 0;
    while done < len {
        let count = (len - done).min(MAX_READ as usize);
        match analyst.read_all(
            piece,
            at + done as u64,
            count as u64,
            &mut out[done..],
            runs,
        ) {
            Ok(()) => done += count,
            Err(error) => return Err(fault_of(error)),
        }
    }
    Ok(())
}
