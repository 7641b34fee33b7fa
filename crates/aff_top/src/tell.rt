//! What a run writes: its report, or the line of its fault.
ghost use Rattle.std.specs.Prelude.{◌≡◌, ◌⊎◌, ◌++◌, codes, IfOk};
ghost use Rattle.std.specs.Io.KnownBytes.{Appends, Keeps};
ghost use Rattle.std.specs.String.{string_bytes};
ghost use Rattle.aff_top.specs.Outcomes.{IsWrittenInPart, IsTold, code_of, line_of, output};
ghost use Rattle.aff_top.specs.Texts.{plan_line, script_line, text_line};

use crate::fault::{Fault, TextFault};
use aff_command::refusal_line;
use aff_outside::{Sink, SinkError};
use aff_plan::PlanError;
use aff_report::damaged_line;
use aff_script::ScriptError;
use std::alloc::{AllocError, Global};

// The line of a text that is no plan's.
fn plan_refusal(alloc: Global, error: PlanError) -> Result<String, AllocError>
    ensures { IfOk result (λ line. string_bytes line ≡ plan_line error) }
{
    match error {
        PlanError::Shape(line) => format!(in alloc; "error plan {line} shape\n"),
        PlanError::Number(line) => format!(in alloc; "error plan {line} number\n"),
        PlanError::Sector(line) => format!(in alloc; "error plan {line} sector\n"),
        PlanError::TooLong(line) => format!(in alloc; "error plan {line} toolong\n"),
        PlanError::TooMany(line) => format!(in alloc; "error plan {line} toomany\n"),
        PlanError::PastEnd(line) => format!(in alloc; "error plan {line} pastend\n"),
        PlanError::Priority(line) => format!(in alloc; "error plan {line} priority\n"),
        PlanError::Total(line) => format!(in alloc; "error plan {line} total\n"),
        PlanError::Overlap(line, earlier) => {
            format!(in alloc; "error plan {line} overlap {earlier}\n")
        }
        PlanError::Memory => format!(in alloc; "error memory\n"),
    }
}

// The line of a text whose script is refused.
fn script_refusal(alloc: Global, error: ScriptError) -> Result<String, AllocError>
    ensures { IfOk result (λ line. string_bytes line ≡ script_line error) }
{
    match error {
        ScriptError::Shape(line) => format!(in alloc; "error script {line} shape\n"),
        ScriptError::Number(line) => format!(in alloc; "error script {line} number\n"),
        ScriptError::TooMany(line) => format!(in alloc; "error script {line} toomany\n"),
        ScriptError::TooLong(line) => format!(in alloc; "error script {line} toolong\n"),
        ScriptError::PastEnd(line) => format!(in alloc; "error script {line} pastend\n"),
        ScriptError::Memory => format!(in alloc; "error memory\n"),
    }
}

// The line of a refused text.
fn text_refusal(alloc: Global, fault: TextFault) -> Result<String, AllocError>
    ensures { IfOk result (λ line. string_bytes line ≡ text_line fault) }
{
    match fault {
        TextFault::TooLong => format!(in alloc; "error text\n"),
        TextFault::Plan(error) => plan_refusal(alloc, error),
        TextFault::Script(error) => script_refusal(alloc, error),
    }
}

// The line of a fault.
fn line(alloc: Global, fault: Fault) -> Result<String, AllocError>
    ensures { IfOk result (λ line. string_bytes line ≡ line_of fault) }
{
    match fault {
        Fault::Usage => format!(in alloc; "error usage\n"),
        Fault::Text(refused) => text_refusal(alloc, refused),
        Fault::Source => format!(in alloc; "error source\n"),
        Fault::Folder => format!(in alloc; "error folder\n"),
        Fault::Memory => format!(in alloc; "error memory\n"),
        Fault::Occupied => format!(in alloc; "error occupied\n"),
        Fault::Damaged {
            chunk,
            recorded,
            found,
        } => damaged_line(alloc, chunk, &recorded, &found),
        Fault::Devices(refusal) => refusal_line(alloc, refusal),
    }
}

// Writes the report, and answers the status.
fn tell_report<K: Sink>(sink: &mut K, report: &[u8]) -> u8
    ensures { ((result ≡ 0) × Appends (K.written sink.old) (K.written sink.new) report.now)
        ⊎ (((result ≡ 5) × IsWrittenInPart (output K.Sink sink.old) (output K.Sink sink.new) report.now) ⊎ ((result ≡ 7) × Keeps (K.written sink.old) (K.written sink.new))) }
{
    match sink.write(report) {
        Ok(()) => 0,
        Err(SinkError::Failed) => 5,
        Err(SinkError::Memory) => 7,
    }
}

// The status of a fault.
fn code(fault: Fault) -> u8
    ensures { result ≡ code_of fault }
{
    match fault {
        Fault::Usage => 2,
        Fault::Text(_) => 3,
        Fault::Source => 4,
        Fault::Folder => 6,
        Fault::Memory => 7,
        Fault::Occupied => 8,
        Fault::Damaged { .. } => 9,
        Fault::Devices(_) => 10,
    }
}

// Writes the line of a fault, and answers the status: the fault's own, or that of want of memory.
fn tell_fault<K: Sink>(alloc: Global, sink: &mut K, fault: Fault) -> u8
    ensures { ((result ≡ code_of fault) × (Appends (K.written sink.old) (K.written sink.new) (line_of fault) ⊎ IsWrittenInPart (output K.Sink sink.old) (output K.Sink sink.new) (line_of fault)))
        ⊎ ((result ≡ 7) × Keeps (K.written sink.old) (K.written sink.new)) }
{
    let line = match line(alloc, fault) {
        Ok(line) => line,
        Err(_) => return 7,
    };
    match sink.write(line.as_bytes()) {
        Ok(()) => code(fault),
        Err(SinkError::Failed) => code(fault),
        Err(SinkError::Memory) => 7,
    }
}

/// Writes the report, or the line of the fault, and answers the status.
pub fn tell<K: Sink>(alloc: Global, sink: &mut K, outcome: &Result<Vec<u8>, Fault>) -> u8
    ensures { IsTold outcome.now (output K.Sink sink.old) (output K.Sink sink.new) result }
{
    match outcome {
        Ok(report) => tell_report(sink, report),
        Err(fault) => tell_fault(alloc, sink, *fault),
    }
}
