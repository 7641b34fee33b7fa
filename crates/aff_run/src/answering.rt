//! How sessions are answered by a list that is whole.
ghost use Rattle.std.specs.Prelude.{◌≡◌, ◌+◌, ◌<◌, ◌≤◌, ◌++◌, [], ℕ, All, IfErr, IfOk, IfSome, length, map, slice_index_or, vec_capacity, vec_len};
ghost use Rattle.std.specs.Arc.{arc_value};
ghost use Rattle.aff_model.specs.Plan.{Planned};
ghost use Rattle.aff_book.specs.Pages.{list_of, run_of};
ghost use Rattle.aff_run.specs.Ends.{AreAnsweredAll, HasFailed};
ghost use Rattle.aff_run.specs.Sessions as spec;
ghost use Rattle.aff_run.specs.Sessions.{HasClosed, HasLearned, IsCaused, IsReady, first_fault};

use aff_book::Book;
use aff_model::{Case, Named, Piece};
use aff_outside::Folder;
use aff_script::Answer;
use aff_session::{Session, SessionFault, SessionParts};
use std::sync::Arc;

/// Tells each session the list of a book.
pub(crate) fn learn_all<C: Case, N: Named, F: Folder>(
    book: &mut Book<C, N, F>,
    sessions: &mut [Session<C, F>],
)
    requires list { All (λ s. IfSome s.viewer (λ v. v.list ≡ list_of (run_of C.Case N.Named))) sessions.old }
    ensures same { book.new ≡ book.old }
    ensures count { length sessions.new ≡ length sessions.old }
    ensures each { (k : ℕ) (d : _) → k < length sessions.old → HasLearned book.old.pieces (slice_index_or sessions.old k d) (slice_index_or sessions.new k d) }
{
    for session in sessions.iter_mut() {
        session.learn(book.tell());
    }
}

/// Answers the sessions what is left, by all pieces; or gives the fault of the first session that has one. The peeks go back.
pub(crate) fn answer_all<C: Case, F: Folder>(
    pieces: &[Arc<Piece<F::Receipt>>],
    sessions: Vec<Session<C, F>>,
    answers: Vec<Vec<Answer>>,
    peeks: &mut Vec<F::Peek>,
) -> Result<Vec<Vec<Answer>>, SessionFault>
    requires ready { All (λ s. IsReady C.content F.Receipt.receipt_tells F.Receipt.told F.Peek.peek_faults (map arc_value pieces.now) s) sessions.items }
    requires none { answers.items ≡ [] }
    requires room { (vec_len sessions ≤ vec_capacity answers) × (vec_len peeks.old + vec_len sessions ≤ vec_capacity peeks.old) }
    ensures answers { IfOk result (λ a. (plan : Planned) → All (λ s. s.plan ≡ plan) sessions.items
        → AreAnsweredAll plan F.Receipt.receipt_tells F.Receipt.told (map arc_value pieces.now) (map (λ s. s.requests) sessions.items) (map (λ a. a.items) a.items)) }
    ensures fault { IfErr result (IsCaused F.Receipt.receipt_tells (HasFailed F.Peek.peek_faults peeks.new.items)) }
    ensures peeks { (vec_len peeks.new ≡ vec_len peeks.old + vec_len sessions) × (vec_capacity peeks.new ≡ vec_capacity peeks.old) }
{
    let mut sessions = sessions;
    answer_late(pieces, &mut sessions);
    let (answers, fault) = part(sessions, answers, peeks);
    match fault {
        None => Ok(answers),
        Some(fault) => Err(fault),
    }
}

// Answers each session what is left.
fn answer_late<C: Case, F: Folder>(
    pieces: &[Arc<Piece<F::Receipt>>],
    sessions: &mut [Session<C, F>],
)
    requires ready { All (λ s. IsReady C.content F.Receipt.receipt_tells F.Receipt.told F.Peek.peek_faults (map arc_value pieces.now) s) sessions.old }
    ensures count { length sessions.new ≡ length sessions.old }
    ensures each { (k : ℕ) (d : _) → k < length sessions.old → HasClosed F.Receipt.receipt_tells F.Receipt.told F.Peek.peek_faults (map arc_value pieces.now) (slice_index_or sessions.old k d) (slice_index_or sessions.new k d) }
{
    for session in sessions.iter_mut() {
        session.close(pieces);
    }
}

// The answers of sessions, and the first fault. The peeks go back.
fn part<C: Case, F: Folder>(
    sessions: Vec<Session<C, F>>,
    room: Vec<Vec<Answer>>,
    peeks: &mut Vec<F::Peek>,
) -> (Vec<Vec<Answer>>, Option<SessionFault>)
    requires none { room.items ≡ [] }
    requires room { (vec_len sessions ≤ vec_capacity room) × (vec_len peeks.old + vec_len sessions ≤ vec_capacity peeks.old) }
    ensures answers { map (λ a. a.items) result.0.items ≡ map (λ s. s.answers) sessions.items }
    ensures fault { result.1 ≡ first_fault sessions.items }
    ensures peeks { peeks.new.items ≡ peeks.old.items ++ map (λ s. s.peek) sessions.items }
    ensures room { (vec_len peeks.new ≡ vec_len peeks.old + vec_len sessions) × (vec_capacity peeks.new ≡ vec_capacity peeks.old) }
{
    let mut answers = room;
    let mut first = None;
    for session in sessions {
        let SessionParts {
            answers: own,
            peek,
            fault,
        } = session.into_parts();
        answers.push_reserved(own);
        peeks.push_reserved(peek);
        first = first_of(first, fault);
    }
    (answers, first)
}

// The first of two faults.
fn first_of(first: Option<SessionFault>, later: Option<SessionFault>) -> Option<SessionFault>
    ensures { result ≡ spec.first_of first later }
{
    if first.is_some() { first } else { later }
}
