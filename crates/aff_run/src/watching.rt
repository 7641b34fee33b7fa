//! How examiners are told the list, shown what is left, and asked what they found.
ghost use Rattle.std.specs.Prelude.{◌≡◌, ◌+◌, ◌<◌, ◌≤◌, ◌++◌, [], ℕ, true, All, IfOk, IfSome, length, map, slice_index_or, vec_capacity, vec_len};
ghost use Rattle.std.specs.Arc.{arc_value};
ghost use Rattle.aff_book.specs.Pages.{list_of, run_of};
ghost use Rattle.aff_examine.specs.Folds.{HasSameRule};
ghost use Rattle.aff_examine.specs.Following.{seen_by};
ghost use Rattle.aff_run.specs.Examinations as spec;
ghost use Rattle.aff_run.specs.Examinations.{CanBeShown, HasBeenShown, HasBeenTold, first_fault};

use aff_book::Book;
use aff_examine::{Examination, FollowError};
use aff_model::{Case, Memory, Named, Piece};
use aff_outside::{Examiner, Folder};
use aff_snapshot::Running;
use std::alloc::Global;
use std::sync::Arc;

/// Tells each follower the list of a book.
pub(crate) fn tell_all<C: Case, N: Named, F: Folder>(
    book: &mut Book<C, N, F>,
    examinations: &mut Vec<Examination<C, F>>,
)
    requires list { All (λ x. IfSome x.follower.viewer (λ v. v.list ≡ list_of (run_of C.Case N.Named))) examinations.old.items }
    ensures same { book.new ≡ book.old }
    ensures count { vec_len examinations.new ≡ vec_len examinations.old }
    ensures each { (k : ℕ) (d : _) → k < length examinations.old.items → HasBeenTold book.old.pieces (slice_index_or examinations.old.items k d) (slice_index_or examinations.new.items k d) }
{
    for index in 0..examinations.len() {
        examinations[index].learn(book.tell());
    }
}

/// Shows each examiner what is left of pieces, where they are the whole list; else what its follower still sees.
pub(crate) fn show_rest<C: Case, F: Folder>(
    whole: bool,
    pieces: &[Arc<Piece<F::Receipt>>],
    running: &Running,
    examinations: &mut Vec<Examination<C, F>>,
)
    requires inside { All (λ x. x.follower.shown ≤ length (seen_by x.follower)) examinations.old.items }
    requires ready { whole ≡ true → All (λ x. CanBeShown C.content F.Receipt.receipt_tells F.Receipt.told F.Peek.peek_faults (map arc_value pieces.now) x) examinations.old.items }
    ensures count { vec_len examinations.new ≡ vec_len examinations.old }
    ensures kept { (k : ℕ) (d : _) → k < length examinations.old.items → HasSameRule (λ e. (⟦<dyn Examiner as Examiner>⟧ e.vtable).rule e.value) (λ e. (⟦<dyn Examiner as Examiner>⟧ e.vtable).text e.value) (slice_index_or examinations.old.items k d).examiner (slice_index_or examinations.new.items k d).examiner }
    ensures shown { whole ≡ true → (k : ℕ) (d : _) → k < length examinations.old.items → HasBeenShown F.Receipt.receipt_tells F.Receipt.told F.Peek.peek_faults (λ e. (⟦<dyn Examiner as Examiner>⟧ e.vtable).rule e.value) (λ e. (⟦<dyn Examiner as Examiner>⟧ e.vtable).text e.value) (λ e. (⟦<dyn Examiner as Examiner>⟧ e.vtable).state e.value) (map arc_value pieces.now)
        (slice_index_or examinations.old.items k d) (slice_index_or examinations.new.items k d) }
{
    if whole {
        show_all(pieces, examinations);
    } else {
        follow_all(running, examinations);
    }
}

// Shows each examiner what is left of the whole list.
fn show_all<C: Case, F: Folder>(
    pieces: &[Arc<Piece<F::Receipt>>],
    examinations: &mut Vec<Examination<C, F>>,
)
    requires ready { All (λ x. CanBeShown C.content F.Receipt.receipt_tells F.Receipt.told F.Peek.peek_faults (map arc_value pieces.now) x) examinations.old.items }
    ensures count { vec_len examinations.new ≡ vec_len examinations.old }
    ensures each { (k : ℕ) (d : _) → k < length examinations.old.items → HasBeenShown F.Receipt.receipt_tells F.Receipt.told F.Peek.peek_faults (λ e. (⟦<dyn Examiner as Examiner>⟧ e.vtable).rule e.value) (λ e. (⟦<dyn Examiner as Examiner>⟧ e.vtable).text e.value) (λ e. (⟦<dyn Examiner as Examiner>⟧ e.vtable).state e.value) (map arc_value pieces.now)
        (slice_index_or examinations.old.items k d) (slice_index_or examinations.new.items k d) }
{
    for index in 0..examinations.len() {
        examinations[index].close(pieces);
    }
}

// Shows each examiner what its follower still sees.
fn follow_all<C: Case, F: Folder>(running: &Running, examinations: &mut Vec<Examination<C, F>>)
    requires inside { All (λ x. x.follower.shown ≤ length (seen_by x.follower)) examinations.old.items }
    ensures count { vec_len examinations.new ≡ vec_len examinations.old }
    ensures kept { (k : ℕ) (d : _) → k < length examinations.old.items → HasSameRule (λ e. (⟦<dyn Examiner as Examiner>⟧ e.vtable).rule e.value) (λ e. (⟦<dyn Examiner as Examiner>⟧ e.vtable).text e.value) (slice_index_or examinations.old.items k d).examiner (slice_index_or examinations.new.items k d).examiner }
{
    for index in 0..examinations.len() {
        examinations[index].live(running);
    }
}

/// The examiners of examinations, in their order, and the first fault. The peeks go back.
pub(crate) fn dismiss<C: Case, F: Folder>(
    examinations: Vec<Examination<C, F>>,
    room: Vec<Box<dyn Examiner>>,
    peeks: &mut Vec<F::Peek>,
) -> (Vec<Box<dyn Examiner>>, Option<FollowError>)
    requires none { room.items ≡ [] }
    requires room { (vec_len examinations ≤ vec_capacity room) × (vec_len peeks.old + vec_len examinations ≤ vec_capacity peeks.old) }
    ensures examiners { result.0.items ≡ map (λ x. x.examiner) examinations.items }
    ensures fault { result.1 ≡ first_fault examinations.items }
    ensures peeks { peeks.new.items ≡ peeks.old.items ++ map (λ x. x.follower.peek) examinations.items }
{
    let mut examiners = room;
    let mut first = None;
    for examination in examinations {
        let Examination {
            follower,
            examiner,
            fault,
        } = examination;
        examiners.push_reserved(examiner);
        peeks.push_reserved(follower.into_peek());
        first = first_of(first, fault);
    }
    (examiners, first)
}

// The first of two faults.
fn first_of(first: Option<FollowError>, later: Option<FollowError>) -> Option<FollowError>
    ensures { result ≡ spec.first_of first later }
{
    if first.is_some() { first } else { later }
}

/// What each examiner found, in their order.
pub(crate) fn findings_of(
    alloc: Global,
    examiners: &[Box<dyn Examiner>],
) -> Result<Vec<Vec<u8>>, Memory>
    ensures { IfOk result (λ findings. map (λ f. f.items) findings.items ≡ map (λ e. text e (state e)) examiners.now) }
{
    let Ok(mut findings) = Vec::with_capacity(alloc, examiners.len()) else {
        return Err(Memory);
    };
    for examiner in examiners {
        findings.push_reserved(finding_of(examiner)?);
    }
    Ok(findings)
}

// What one of them found.
fn finding_of(examiner: &Box<dyn Examiner>) -> Result<Vec<u8>, Memory>
    ensures { IfOk result (λ found. found.items ≡ text examiner.now (state examiner.now)) }
{
    examiner.finding()
}
