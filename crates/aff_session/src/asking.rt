//! How requests are gone through.
ghost use Rattle.std.specs.Prelude.{◌≡◌, ◌++◌, ◌∷◌, [], List, length, map, All, IfErr, IfSome, IsErrOf, IsSome, OnOk};
ghost use Rattle.std.specs.Arc.{arc_value};
ghost use Rattle.aff_model.specs.Causes.{HasCause};
ghost use Rattle.aff_image.specs.Sound.{AreSound};
ghost use Rattle.aff_script.specs.Script.{IsRequest};
ghost use Rattle.aff_script.specs.declared.script.Request.{Request};
ghost use Rattle.aff_session.specs.Answers.{live_of};
ghost use Rattle.aff_session.specs.Asked.{AreAskedFor, IsAskedFor};
ghost use Rattle.aff_session.specs.Faults.{IsSessionFault};
ghost use Rattle.aff_session.specs.Looking.{HasLooked};
ghost use Rattle.aff_session.specs.Shown.{AreAnsweredBy};

use crate::SessionFault;
use crate::looker::Looker;
use aff_claim::Claims;
use aff_model::{Case, Piece};
use aff_outside::{Folder, Gate};
use aff_script::{Answer, Request};
use aff_snapshot::Running;
use std::sync::Arc;

// Goes through what is asked while the image grows.
pub(crate) fn ask_live<C: Case, F: Folder, G: Gate>(
    looker: &mut Looker<C, F>,
    claims: &Claims,
    running: &Running,
    gate: &G,
    number: u32,
    requests: &[Request],
    answers: &mut Vec<Answer>,
) -> Result<(), SessionFault>
    requires claims { looker.old.claims ≡ claims.now }
    requires viewer { IsSome looker.old.viewer }
    requires requests { All (IsRequest looker.old.plan.size) requests.now }
    requires live { live_of requests.now ≡ requests.now }
    requires none { answers.old.items ≡ [] }
    ensures looked { HasLooked looker.old looker.new }
    ensures answers { OnOk result (IfSome looker.new.viewer (λ v. AreAnsweredBy looker.old.plan F.Receipt.receipt_tells F.Receipt.told v.pieces requests.now answers.new.items)) }
    ensures asked { OnOk result (AreAskedFor looker.old.plan.extents looker.new.raised requests.now) }
    ensures fault { IfErr result (λ f. IfSome looker.new.viewer (λ v. IsSessionFault looker.old.plan F.Receipt.receipt_tells v.pieces f)) }
    ensures cause { HasCause (F.Peek.peek_faults looker.old.peek) (F.Peek.peek_faults looker.new.peek) (IsErrOf result SessionFault.Failed) }
{
    for request in requests {
        ask_one(looker, claims, running, gate, number, *request, answers)?;
    }
    Ok(())
}

// Asks one of them.
fn ask_one<C: Case, F: Folder, G: Gate>(
    looker: &mut Looker<C, F>,
    claims: &Claims,
    running: &Running,
    gate: &G,
    number: u32,
    request: Request,
    answers: &mut Vec<Answer>,
) -> Result<(), SessionFault>
    requires claims { looker.old.claims ≡ claims.now }
    requires viewer { IsSome looker.old.viewer }
    requires request { IsRequest looker.old.plan.size request }
    ensures looked { HasLooked looker.old looker.new }
    ensures answers { OnOk result (IfSome looker.new.viewer (λ v. (done : List Request) → AreAnsweredBy looker.old.plan F.Receipt.receipt_tells F.Receipt.told v.pieces done answers.old.items → AreAnsweredBy looker.old.plan F.Receipt.receipt_tells F.Receipt.told v.pieces (done ++ request ∷ []) answers.new.items)) }
    ensures asked { OnOk result (IsAskedFor looker.old.plan.extents looker.new.raised request) }
    ensures fault { IfErr result (λ f. IfSome looker.new.viewer (λ v. IsSessionFault looker.old.plan F.Receipt.receipt_tells v.pieces f)) }
    ensures cause { HasCause (F.Peek.peek_faults looker.old.peek) (F.Peek.peek_faults looker.new.peek) (IsErrOf result SessionFault.Failed) }
{
    match request {
        Request::Read { at, len } => {
            let answer = looker.ask(claims, gate, number, at, len)?;
            keep(answers, answer)
        }
        Request::Await(count) => looker.wait(claims, running, count),
        Request::Raise { at, len } => {
            looker.raise(claims, at, len);
            Ok(())
        }
        Request::After => Ok(()),
    }
}

// Goes through what is asked of the whole list. Of the requests that are no reads nothing is asked then.
pub(crate) fn ask_late<C: Case, F: Folder>(
    looker: &mut Looker<C, F>,
    pieces: &[Arc<Piece<F::Receipt>>],
    requests: &[Request],
    answers: &mut Vec<Answer>,
) -> Result<(), SessionFault>
    requires sound { AreSound C.content looker.old.plan F.Receipt.receipt_tells F.Receipt.told (map arc_value pieces.now) }
    requires requests { All (IsRequest looker.old.plan.size) requests.now }
    ensures looked { HasLooked looker.old looker.new }
    ensures viewer { looker.new.viewer ≡ looker.old.viewer }
    ensures answers { OnOk result ((done : List Request) → AreAnsweredBy looker.old.plan F.Receipt.receipt_tells F.Receipt.told (map arc_value pieces.now) done answers.old.items → AreAnsweredBy looker.old.plan F.Receipt.receipt_tells F.Receipt.told (map arc_value pieces.now) (done ++ requests.now) answers.new.items) }
    ensures fault { IfErr result (IsSessionFault looker.old.plan F.Receipt.receipt_tells (map arc_value pieces.now)) }
    ensures cause { HasCause (F.Peek.peek_faults looker.old.peek) (F.Peek.peek_faults looker.new.peek) (IsErrOf result SessionFault.Failed) }
{
    for request in requests {
        ask_one_late(looker, pieces, *request, answers)?;
    }
    Ok(())
}

// Asks one of them.
fn ask_one_late<C: Case, F: Folder>(
    looker: &mut Looker<C, F>,
    pieces: &[Arc<Piece<F::Receipt>>],
    request: Request,
    answers: &mut Vec<Answer>,
) -> Result<(), SessionFault>
    requires sound { AreSound C.content looker.old.plan F.Receipt.receipt_tells F.Receipt.told (map arc_value pieces.now) }
    requires request { IsRequest looker.old.plan.size request }
    ensures looked { HasLooked looker.old looker.new }
    ensures viewer { looker.new.viewer ≡ looker.old.viewer }
    ensures answers { OnOk result ((done : List Request) → AreAnsweredBy looker.old.plan F.Receipt.receipt_tells F.Receipt.told (map arc_value pieces.now) done answers.old.items → AreAnsweredBy looker.old.plan F.Receipt.receipt_tells F.Receipt.told (map arc_value pieces.now) (done ++ request ∷ []) answers.new.items) }
    ensures fault { IfErr result (IsSessionFault looker.old.plan F.Receipt.receipt_tells (map arc_value pieces.now)) }
    ensures cause { HasCause (F.Peek.peek_faults looker.old.peek) (F.Peek.peek_faults looker.new.peek) (IsErrOf result SessionFault.Failed) }
{
    match request {
        Request::Read { at, len } => {
            let answer = looker.ask_all(pieces, at, len)?;
            keep(answers, answer)
        }
        Request::Raise { .. } | Request::Await(_) | Request::After => Ok(()),
    }
}

// Puts an answer behind the others.
fn keep(answers: &mut Vec<Answer>, answer: Answer) -> Result<(), SessionFault>
    ensures kept { OnOk result (answers.new.items ≡ answers.old.items ++ answer ∷ []) }
    ensures memory { IfErr result (λ f. f ≡ SessionFault.Memory) }
{
    let Ok(()) = answers.push(answer) else {
        return Err(SessionFault::Memory);
    };
    Ok(())
}
