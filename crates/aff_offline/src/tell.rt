//! What a command writes: its answer, or the line of its fault.
ghost use Rattle.std.specs.Prelude.{◌≡◌, ◌⊎◌, IfOk};
ghost use Rattle.std.specs.Io.KnownBytes.{Appends, Keeps};
ghost use Rattle.std.specs.String.{string_bytes};
ghost use Rattle.aff_offline.specs.Faults.{code_of, line_of};
ghost use Rattle.aff_offline.specs.Written.{IsTold, IsWrittenInPart, shown_sink};

use crate::fault::{Fault, RangeFault};
use crate::findings::finding_line;
use crate::refusals::volume_line;
use aff_outside::{Sink, SinkError};
use aff_report::damaged_line;
use std::alloc::{AllocError, Global};

// The line of a fault.
fn line(alloc: Global, fault: Fault) -> Result<String, AllocError>
    ensures { IfOk result (λ line. string_bytes line ≡ line_of fault) }
{
    match fault {
        Fault::Usage => format!(in alloc; "error usage\n"),
        Fault::Volume(error) => volume_line(alloc, error),
        Fault::Range(RangeFault::TooLong) => format!(in alloc; "error read toolong\n"),
        Fault::Range(RangeFault::PastEnd) => format!(in alloc; "error read pastend\n"),
        Fault::Damaged {
            chunk,
            recorded,
            found,
        } => damaged_line(alloc, chunk, &recorded, &found),
        Fault::Unsound(finding) => finding_line(alloc, finding),
        Fault::Folder => format!(in alloc; "error folder\n"),
        Fault::Memory => format!(in alloc; "error memory\n"),
    }
}

// The status of a fault.
fn code(fault: &Fault) -> u8
    ensures { result ≡ code_of fault.now }
{
    match fault {
        Fault::Usage => 2,
        Fault::Volume(_) => 8,
        Fault::Range(_) => 3,
        Fault::Damaged { .. } => 9,
        Fault::Unsound(_) => 9,
        Fault::Folder => 6,
        Fault::Memory => 7,
    }
}

// Writes an answer, and gives the status.
fn tell_answer<K: Sink>(sink: &mut K, answer: &[u8]) -> u8
    ensures { ((result ≡ 0) × Appends (K.written sink.old) (K.written sink.new) answer.now)
        ⊎ (((result ≡ 5) × IsWrittenInPart (shown_sink K.Sink sink.old) (shown_sink K.Sink sink.new) answer.now) ⊎ ((result ≡ 7) × Keeps (K.written sink.old) (K.written sink.new))) }
{
    match sink.write(answer) {
        Ok(()) => 0,
        Err(SinkError::Failed) => 5,
        Err(SinkError::Memory) => 7,
    }
}

// Writes the line of a fault, and gives the status: the fault's own, or that of want of memory.
fn tell_fault<K: Sink>(alloc: Global, sink: &mut K, fault: Fault) -> u8
    ensures { ((result ≡ code_of fault) × (Appends (K.written sink.old) (K.written sink.new) (line_of fault) ⊎ IsWrittenInPart (shown_sink K.Sink sink.old) (shown_sink K.Sink sink.new) (line_of fault)))
        ⊎ ((result ≡ 7) × Keeps (K.written sink.old) (K.written sink.new)) }
{
    let code = code(&fault);
    let line = match line(alloc, fault) {
        Ok(line) => line,
        Err(_) => return 7,
    };
    match sink.write(line.as_bytes()) {
        Ok(()) => code,
        Err(SinkError::Failed) => code,
        Err(SinkError::Memory) => 7,
    }
}

/// Writes an answer, or the line of a fault, and gives the status.
pub fn tell<K: Sink>(alloc: Global, sink: &mut K, outcome: Result<Vec<u8>, Fault>) -> u8
    ensures { IsTold outcome (shown_sink K.Sink sink.old) (shown_sink K.Sink sink.new) result }
{
    match outcome {
        Ok(answer) => tell_answer(sink, &answer),
        Err(fault) => tell_fault(alloc, sink, fault),
    }
}
