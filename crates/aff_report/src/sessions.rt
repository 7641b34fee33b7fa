//! The lines of sessions.
ghost use Rattle.std.specs.Prelude.{◌≡◌, ◌++◌, IfOk, OnOk, [], map};
ghost use Rattle.std.specs.List.{flat_map};
ghost use Rattle.std.specs.String.{string_bytes};
ghost use Rattle.aff_report.specs.Sessions.{answer_lines, kind_line, known_range, read_line, run_line, session_line, session_lines};

use aff_hash::hex_line;
use aff_model::{Kind, Memory};
use aff_script::{Answer, RunLine};
use std::alloc::{AllocError, Global};

/// The lines of sessions, which are numbered from 1: each begins with `session NUMBER`, and has a line for each of its reads,
/// with the runs of the answer behind it. Offsets and lengths are in bytes. Want of memory is the only error.
pub fn session_lines(alloc: Global, sessions: &[Vec<Answer>]) -> Result<String, Memory>
    ensures { IfOk result (λ text. string_bytes text ≡ session_lines 1 (map (λ s. s.items) sessions.now)) }
{
    let mut text = String::new(alloc);
    for (number, answers) in sessions.iter().enumerate() {
        push_session(alloc, &mut text, number + 1, answers)?;
    }
    Ok(text)
}

fn push_session(
    alloc: Global,
    text: &mut String,
    number: usize,
    answers: &[Answer],
) -> Result<(), Memory>
    ensures { OnOk result (string_bytes text.new ≡ string_bytes text.old ++ (session_line number ++ flat_map answer_lines answers.now)) }
{
    let line = session_line(alloc, number).map_err(|_| Memory)?;
    text.push_str(&line).map_err(|_| Memory)?;
    push_answers(alloc, text, answers)
}

fn push_answers(alloc: Global, text: &mut String, answers: &[Answer]) -> Result<(), Memory>
    ensures { OnOk result (string_bytes text.new ≡ string_bytes text.old ++ flat_map answer_lines answers.now) }
{
    for answer in answers {
        push_answer(alloc, text, answer)?;
    }
    Ok(())
}

fn push_answer(alloc: Global, text: &mut String, answer: &Answer) -> Result<(), Memory>
    ensures { OnOk result (string_bytes text.new ≡ string_bytes text.old ++ answer_lines answer.now) }
{
    let line = read_line(alloc, answer.at, answer.len, answer.front).map_err(|_| Memory)?;
    text.push_str(&line).map_err(|_| Memory)?;
    push_runs(alloc, text, &answer.runs)
}

fn push_runs(alloc: Global, text: &mut String, runs: &[RunLine]) -> Result<(), Memory>
    ensures { OnOk result (string_bytes text.new ≡ string_bytes text.old ++ flat_map run_line runs.now) }
{
    for run in runs {
        let line = run_line(alloc, run)?;
        text.push_str(&line).map_err(|_| Memory)?;
    }
    Ok(())
}

fn run_line(alloc: Global, run: &RunLine) -> Result<String, Memory>
    ensures { IfOk result (λ text. string_bytes text ≡ run_line run.now) }
{
    match run.kind {
        Kind::Known => known_line(alloc, run.at, run.len, &run.sha256),
        Kind::Unreadable => unreadable_line(alloc, run.at, run.len).map_err(|_| Memory),
        Kind::Unknown => unknown_line(alloc, run.at, run.len).map_err(|_| Memory),
    }
}

fn known_line(alloc: Global, at: u64, len: u64, sum: &[u8]) -> Result<String, Memory>
    ensures { IfOk result (λ text. string_bytes text ≡ kind_line Kind.Known at len sum.now) }
{
    let name = known_range(alloc, at, len).map_err(|_| Memory)?;
    hex_line(alloc, &name, sum)
}

fn known_range(alloc: Global, at: u64, len: u64) -> Result<String, AllocError>
    ensures { IfOk result (λ text. string_bytes text ≡ known_range at len) }
{
    format!(in alloc; "known {at} {len}")
}

fn unreadable_line(alloc: Global, at: u64, len: u64) -> Result<String, AllocError>
    ensures { IfOk result (λ text. string_bytes text ≡ kind_line Kind.Unreadable at len []) }
{
    format!(in alloc; "unreadable {at} {len}\n")
}

fn unknown_line(alloc: Global, at: u64, len: u64) -> Result<String, AllocError>
    ensures { IfOk result (λ text. string_bytes text ≡ kind_line Kind.Unknown at len []) }
{
    format!(in alloc; "unknown {at} {len}\n")
}

fn read_line(alloc: Global, at: u64, len: u64, front: u64) -> Result<String, AllocError>
    ensures { IfOk result (λ text. string_bytes text ≡ read_line at len front) }
{
    format!(in alloc; "read {at} {len} {front}\n")
}

fn session_line(alloc: Global, number: usize) -> Result<String, AllocError>
    ensures { IfOk result (λ text. string_bytes text ≡ session_line number) }
{
    format!(in alloc; "session {number}\n")
}
