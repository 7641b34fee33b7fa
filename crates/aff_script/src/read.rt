//! Reading a script.
ghost use Rattle.std.specs.Prelude.{◌≡◌, ◌≢◌, ◌+◌, ◌<◌, ◌^◌, ◌⊎◌, ◌∷◌, ◌++◌, [], List, IfErr, IfOk, IsOk, MatchResult, OnOk, length};
ghost use Rattle.aff_plan.specs.Text.{NumberedLine, kept_lines};
ghost use Rattle.aff_script.specs.Reading.{Adds, AreTaken, IsTaken};
ghost use Rattle.aff_script.specs.Refused.{IsFirstWrong, IsScriptRefused, IsWrong, MayStand};
ghost use Rattle.aff_script.specs.Script.{IsScriptText};
ghost use Rattle.aff_script.specs.Line.{form_of};
ghost use Rattle.aff_script.specs.declared.script.Request.{Request};

use crate::error::ScriptError;
use crate::line::{Said, read_form, read_said};
use crate::rules::{is_full, is_past_end, is_too_long, may_stand};
use crate::script::{Script, Session};
use aff_plan::{cut_at, is_skipped};
use std::alloc::{AllocError, Global};

/// Reads the script of a text, for a device of this size in bytes. `first_line` is the number of the text's first
/// line, by which refusals count. A text without a `session` has no session; it is taken where it has no other line.
///
/// The first line that is wrong decides, by the first of these that it breaks: Shape, Number, TooMany, TooLong,
/// PastEnd.
pub fn read_script(
    alloc: Global,
    text: &[u8],
    first_line: u64,
    size: u64,
) -> Result<Script, ScriptError>
    requires numbers { first_line + length text.now < 2 ^ 64 }
    ensures script { IfOk result (IsScriptText size first_line text.now) }
    ensures refused { IfErr result (λ e. e ≢ ScriptError.Memory → IsScriptRefused size first_line text.now e) }

    // Want of memory aside, each text of a script is taken, and each refusal is told.
    ensures taken { (sessions : List (List Request)) → IsScriptText size first_line text.now sessions
        → IfOk result (λ s. s ≡ sessions) × (IsOk result ⊎ (result ≡ Err ScriptError.Memory)) }
    ensures told { (e : ScriptError) → IsScriptRefused size first_line text.now e → (result ≡ Err e) ⊎ (result ≡ Err ScriptError.Memory) }
{
    let mut sessions = Vec::new(alloc);
    let mut number = first_line;
    let mut rest = text;
    'lines: loop {
        let (line, others) = cut_at(rest, b'\n');
        take_line(alloc, &mut sessions, line, number, size)?;
        let Some(others) = others else {
            return Ok(Script { sessions });
        };
        number += 1;
        rest = others;
    }
}

// Takes the line of a number behind the sessions that were read.
fn take_line(
    alloc: Global,
    sessions: &mut Vec<Session>,
    line: &[u8],
    number: u64,
    size: u64,
) -> Result<(), ScriptError>
    ensures { (lines after : List NumberedLine)
        → AreTaken size lines (kept_lines number (line.now ∷ []) ++ after) sessions.old.items
        → MatchResult result (λ _. AreTaken size lines after sessions.new.items) (λ e. e ≢ ScriptError.Memory → IsFirstWrong size lines e) }
{
    if is_skipped(line) {
        return Ok(());
    }
    let said = read_line(sessions, line, number, size)?;
    add(alloc, sessions, said)?;
    Ok(())
}

// What a line says behind these sessions.
fn read_line(sessions: &[Session], line: &[u8], number: u64, size: u64) -> Result<Said, ScriptError>
    ensures { MatchResult result (IsTaken size sessions.now line.now) (IsWrong size number sessions.now line.now) }
{
    let Some((form, first, second)) = read_form(line) else {
        return Err(ScriptError::Shape(number));
    };
    if !may_stand(sessions, form) {
        return Err(ScriptError::Shape(number));
    }
    let Some(said) = read_said(form, first, second) else {
        return Err(ScriptError::Number(number));
    };
    if is_full(sessions, &said) {
        return Err(ScriptError::TooMany(number));
    }
    if is_too_long(&said) {
        return Err(ScriptError::TooLong(number));
    }
    if is_past_end(size, &said) {
        return Err(ScriptError::PastEnd(number));
    }
    Ok(said)
}

// Adds what a line says to the sessions.
fn add(alloc: Global, sessions: &mut Vec<Session>, said: Said) -> Result<(), AllocError>
    requires { MayStand sessions.old.items (form_of said) }
    ensures { OnOk result (Adds sessions.old.items said sessions.new.items) }
{
    match said {
        Said::Begin => {
            sessions.push(Session {
                requests: Vec::new(alloc),
            })?;
            Ok(())
        }
        Said::Ask(request) => match sessions.last_mut() {
            Some(session) => {
                session.requests.push(request)?;
                Ok(())
            }
            None => unreachable!(),
        },
    }
}
