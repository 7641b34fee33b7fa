//! How the run of a book is closed.
ghost use Rattle.std.specs.Prelude.{◌≡◌, ◌+◌, ◌<◌, ◌≤◌, [], ℕ, true, false, All, Contains, Err, IfErr, IfOk, IfSome, IsErrOf, List, None, OnErr, OnOk, length, map, vec_capacity, vec_len};
ghost use Rattle.std.specs.Arc.{arc_value};
ghost use Rattle.aff_model.specs.Causes.{HasCause, Rose};
ghost use Rattle.aff_model.specs.Held.{Held};
ghost use Rattle.aff_model.specs.Legal.{IsComplete};
ghost use Rattle.aff_model.specs.Pieces.{published};
ghost use Rattle.aff_model.specs.Plan.{IsPlan};
ghost use Rattle.aff_image.specs.Asked.{Asked};
ghost use Rattle.aff_image.specs.Sound.{AreSound};
ghost use Rattle.aff_book.specs.Pages.{list_of, run_of};
ghost use Rattle.aff_script.specs.declared.script.Request.{Request};
ghost use Rattle.aff_run.specs.Ends.{AreAnsweredAll, AreStored, HasFailed, IfDone, IsCutOff, IsWhole, Leaves, asked};
ghost use Rattle.aff_run.specs.Examinations.{CanGoOn, HaveGoneOn, IsFollowCaused};
ghost use Rattle.aff_run.specs.Examiners.{AreTheirOwn};
ghost use Rattle.aff_run.specs.Sessions.{HasLived, IsCaused};

use crate::answering::{answer_all, learn_all};
use crate::making::give_back;
use crate::watching::{dismiss, findings_of, show_rest, tell_all};
use crate::{Acquired, RunEnd};
use aff_book::{Book, BookParts};
use aff_examine::{Examination, FollowError};
use aff_finish::{Hashes, finish};
use aff_map::entries_of;
use aff_model::{Case, MAX_SIZE, Memory, Named, Piece, Plan};
use aff_names::Uuid;
use aff_outside::{Examiner, Folder, FolderError};
use aff_script::Answer;
use aff_session::{Session, SessionFault};
use aff_snapshot::Running;
use aff_store::Stream;
use std::alloc::Global;
use std::sync::{Arc, Wait};
use std::thread::Threads;

/// Sessions and examiners behind the joins, with room for what they leave.
#[derive(Drop)]
pub(crate) struct Onlookers<C: Case, F: Folder> {
    pub sessions: Vec<Session<C, F>>,
    pub examinations: Vec<Examination<C, F>>,
    pub answers: Vec<Vec<Answer>>,
    pub examiners: Vec<Box<dyn Examiner>>,
}

/// What is left of a run that was closed, but for its devices and peeks.
#[derive(Drop)]
pub(crate) struct Closed<F: Folder> {
    pub end: RunEnd<F::Receipt>,
    pub examiners: Vec<Box<dyn Examiner>>,
    pub folder: F,
}

/// Ends the list of a book, shows the examiners what is left, and finishes the volume where each extent of the plan is published
/// and no put failed; then the sessions are answered what is left. `whole` says whether each is. What goes wrong with a session
/// comes behind all else but what goes wrong with an examiner.
pub(crate) fn close<C: Case, N: Named, F: Folder, W: Threads + Wait + Sync>(
    rt: &W,
    alloc: Global,
    volume: &Uuid,
    plan: &Plan,
    book: Book<C, N, F>,
    whole: bool,
    running: &Running,
    onlookers: Onlookers<C, F>,
    peeks: &mut Vec<F::Peek>,
) -> Closed<F>
    requires volume { volume.now ≡ N.run_volume }
    requires plan { plan.now ≡ N.run_plan }
    requires small { plan.now.size ≤ MAX_SIZE }
    requires whole { whole ≡ true → (k : ℕ) → k < length plan.now.extents → Contains (map (λ p. p.extent) book.pieces) k }
    requires sessions { All (λ s. HasLived plan.now (list_of (run_of C.Case N.Named)) F.Receipt.receipt_tells F.Receipt.told F.Peek.peek_faults s) onlookers.sessions.items }
    requires examinations { All (λ x. CanGoOn plan.now (list_of (run_of C.Case N.Named)) F.Receipt.receipt_tells F.Peek.peek_faults x) onlookers.examinations.items }
    requires none { (onlookers.answers.items ≡ []) × (onlookers.examiners.items ≡ []) × (peeks.old.items ≡ []) }
    requires room { (vec_len onlookers.sessions ≤ vec_capacity onlookers.answers) × (vec_len onlookers.examinations ≤ vec_capacity onlookers.examiners)
        × (vec_len onlookers.sessions + vec_len onlookers.examinations ≤ vec_capacity peeks.old) }
    ensures leaves { Leaves C.content F.tells F.Receipt.told (asked volume.now plan.now N.run_workers (vec_len onlookers.examinations)) (map (λ s. s.requests) onlookers.sessions.items) (F.held result.folder)
        (Rose N.run_opened (F.folder_faults result.folder)) (HasFailed F.Peek.peek_faults peeks.new.items) result.end }
    ensures later { N.run_opened ≤ F.folder_faults result.folder }
    ensures examined { IfDone result.end (λ a. HaveGoneOn C.content F.Receipt.receipt_tells F.Receipt.told plan.now (map published a.pieces.items) (λ e. rule e) (λ e. text e) (λ e. state e)
        onlookers.examinations.items result.examiners.items (map (λ f. f.items) a.findings.items)) }
    ensures kept { AreTheirOwn (λ e. rule e) (λ e. text e) (map (λ x. x.examiner) onlookers.examinations.items) result.examiners.items }
{
    let Onlookers {
        mut sessions,
        mut examinations,
        answers,
        examiners,
    } = onlookers;
    let mut book = book;
    learn_all(&mut book, &mut sessions);
    tell_all(&mut book, &mut examinations);
    let BookParts {
        mut folder,
        seat: _,
        pieces,
        mut stream,
        stopped,
        memory,
    } = book.into_parts(rt);
    show_rest(whole, &pieces, running, &mut examinations);
    let all = whole && !memory;
    match finish_all::<C, N, F, W>(
        rt,
        alloc,
        volume,
        plan,
        stopped,
        all,
        &pieces,
        &mut stream,
        &mut folder,
    ) {
        Ok(hashes) => {
            let answered = answer_all(&pieces, sessions, answers, peeks);
            let (examiners, fault) = dismiss(examinations, examiners, peeks);
            let end = end_of::<C, F>(alloc, pieces, hashes, answered, fault, &examiners);
            Closed {
                end,
                examiners,
                folder,
            }
        }
        Err(error) => {
            give_back(sessions, peeks);
            let (examiners, _) = dismiss(examinations, examiners, peeks);
            Closed {
                end: unfinished::<F>(error),
                examiners,
                folder,
            }
        }
    }
}

// How a run ends whose volume is finished: with the fault of the first session that has one, else with that of an examiner.
fn end_of<C: Case, F: Folder>(
    alloc: Global,
    pieces: Vec<Arc<Piece<F::Receipt>>>,
    hashes: Hashes,
    answered: Result<Vec<Vec<Answer>>, SessionFault>,
    fault: Option<FollowError>,
    examiners: &[Box<dyn Examiner>],
) -> RunEnd<F::Receipt>
    ensures leaves { (ask : Asked) (script : List (List Request)) (held : Held) (peeks : List F.Peek) → AreSound C.content ask.plan F.tells F.Receipt.told (map arc_value pieces.items) → IsWhole C.content F.tells ask held (map published pieces.items) hashes
        → IfOk answered (λ a. AreAnsweredAll ask.plan F.tells F.Receipt.told (map arc_value pieces.items) script (map (λ a. a.items) a.items)) → IfErr answered (IsCaused F.tells (HasFailed F.Peek.peek_faults peeks))
        → IfSome fault (IsFollowCaused F.tells (HasFailed F.Peek.peek_faults peeks)) → Leaves C.content F.tells F.Receipt.told ask script held ⊥ (HasFailed F.Peek.peek_faults peeks) result }
    ensures done { IfDone result (λ a. (a.pieces ≡ pieces) × (fault ≡ None) × (map (λ f. f.items) a.findings.items ≡ map (λ e. text e (state e)) examiners.now)) }
{
    match answered {
        Ok(sessions) => end_examined::<C, F>(alloc, pieces, hashes, sessions, fault, examiners),
        Err(SessionFault::Failed) => RunEnd::Failed,
        Err(
            SessionFault::Damaged {
                chunk,
                recorded,
                found,
            },
        ) => RunEnd::Damaged {
            chunk,
            recorded,
            found,
        },
        Err(SessionFault::Memory) => RunEnd::Memory,
    }
}

// How it ends where all is answered.
fn end_examined<C: Case, F: Folder>(
    alloc: Global,
    pieces: Vec<Arc<Piece<F::Receipt>>>,
    hashes: Hashes,
    sessions: Vec<Vec<Answer>>,
    fault: Option<FollowError>,
    examiners: &[Box<dyn Examiner>],
) -> RunEnd<F::Receipt>
    ensures leaves { (ask : Asked) (script : List (List Request)) (held : Held) (peeks : List F.Peek) → AreSound C.content ask.plan F.tells F.Receipt.told (map arc_value pieces.items) → IsWhole C.content F.tells ask held (map published pieces.items) hashes
        → AreAnsweredAll ask.plan F.tells F.Receipt.told (map arc_value pieces.items) script (map (λ a. a.items) sessions.items)
        → IfSome fault (IsFollowCaused F.tells (HasFailed F.Peek.peek_faults peeks)) → Leaves C.content F.tells F.Receipt.told ask script held ⊥ (HasFailed F.Peek.peek_faults peeks) result }
    ensures done { IfDone result (λ a. (a.pieces ≡ pieces) × (fault ≡ None) × (map (λ f. f.items) a.findings.items ≡ map (λ e. text e (state e)) examiners.now)) }
{
    match fault {
        None => match findings_of(alloc, examiners) {
            Ok(findings) => RunEnd::Done(Acquired {
                pieces,
                sessions,
                findings,
                hashes,
            }),
            Err(Memory) => RunEnd::Memory,
        },
        Some(FollowError::Failed) => RunEnd::Failed,
        Some(
            FollowError::Damaged {
                chunk,
                recorded,
                found,
            },
        ) => RunEnd::Damaged {
            chunk,
            recorded,
            found,
        },
        Some(FollowError::Memory) => RunEnd::Memory,
    }
}

// How a run ends whose volume is not finished.
fn unfinished<F: Folder>(error: FolderError) -> RunEnd<F::Receipt>
    ensures failed { error ≡ FolderError.Failed → result ≡ RunEnd.Failed }
    ensures memory { error ≡ FolderError.Memory → result ≡ RunEnd.Memory }
{
    match error {
        FolderError::Failed => RunEnd::Failed,
        FolderError::Memory => RunEnd::Memory,
    }
}

// Finishes a volume where all extents are stored and no put failed. `all` says whether they are, and `stopped` whether one did.
fn finish_all<C: Case, N: Named, F: Folder, W: Threads + Sync>(
    rt: &W,
    alloc: Global,
    volume: &Uuid,
    plan: &Plan,
    stopped: bool,
    all: bool,
    pieces: &[Arc<Piece<F::Receipt>>],
    stream: &mut Stream,
    folder: &mut F,
) -> Result<Hashes, FolderError>
    requires small { plan.now.size ≤ MAX_SIZE }
    requires plan { IsPlan plan.now.size plan.now.block plan.now.extents }
    requires stopped { stopped ≡ true → Rose N.run_opened (F.folder_faults folder.old) }
    requires later { N.run_opened ≤ F.folder_faults folder.old }
    requires cut_off { IsCutOff C.content F.tells (asked volume.now plan.now N.run_workers 0) (F.held folder.old) }
    requires stored { stopped ≡ false → all ≡ true → AreStored C.content F.tells (asked volume.now plan.now N.run_workers 0) (F.held folder.old) stream.old (map published pieces.now) }
    requires complete { all ≡ true → IsComplete plan.now.extents (map published pieces.now) }
    ensures whole { IfOk result (λ h. IsWhole C.content F.tells (asked volume.now plan.now N.run_workers 0) (F.held folder.new) (map published pieces.now) h) }
    ensures all { OnOk result (all ≡ true) }
    ensures cut_off { OnErr result (IsCutOff C.content F.tells (asked volume.now plan.now N.run_workers 0) (F.held folder.new)) }
    ensures cause { result ≡ Err FolderError.Failed → Rose N.run_opened (F.folder_faults folder.new) }
    ensures later { N.run_opened ≤ F.folder_faults folder.new }
{
    if stopped {
        return Err(FolderError::Failed);
    }
    if !all {
        return Err(FolderError::Memory);
    }
    finish_volume::<C, N, F, W>(rt, alloc, volume, plan, pieces, stream, folder)
}

// Finishes a volume whose extents are all stored.
fn finish_volume<C: Case, N: Named, F: Folder, W: Threads + Sync>(
    rt: &W,
    alloc: Global,
    volume: &Uuid,
    plan: &Plan,
    pieces: &[Arc<Piece<F::Receipt>>],
    stream: &mut Stream,
    folder: &mut F,
) -> Result<Hashes, FolderError>
    requires small { plan.now.size ≤ MAX_SIZE }
    requires plan { IsPlan plan.now.size plan.now.block plan.now.extents }
    requires stored { AreStored C.content F.tells (asked volume.now plan.now N.run_workers 0) (F.held folder.old) stream.old (map published pieces.now) }
    requires complete { IsComplete plan.now.extents (map published pieces.now) }
    ensures whole { IfOk result (λ h. IsWhole C.content F.tells (asked volume.now plan.now N.run_workers 0) (F.held folder.new) (map published pieces.now) h) }
    ensures cut_off { OnErr result (IsCutOff C.content F.tells (asked volume.now plan.now N.run_workers 0) (F.held folder.new)) }
    ensures cause { HasCause (F.folder_faults folder.old) (F.folder_faults folder.new) (IsErrOf result FolderError.Failed) }
{
    // A volume's names stand on its UUID being one.
    let _text = volume.text();
    let entries = match entries_of(alloc, plan, pieces) {
        Ok(entries) => entries,
        Err(_) => return Err(FolderError::Memory),
    };
    match finish(rt, alloc, folder, stream, plan, volume, &entries) {
        Ok(hashes) => Ok(hashes),
        Err(error) => Err(error),
    }
}
