//! The lines of examiners.
ghost use Rattle.std.specs.Prelude.{◌≡◌, ◌++◌, IfOk, OnOk, codes, map};
ghost use Rattle.std.specs.Fmt.{decimal};
ghost use Rattle.std.specs.String.{string_bytes};
ghost use Rattle.aff_report.specs.Examiners.{examiner_line, examiner_lines};

use aff_model::Memory;
use std::alloc::{AllocError, Global};

/// The lines of examiners, which are numbered from 1: each has its finding, bytes that need not be text, as they are. A
/// finding without a line feed takes one line. Want of memory is the only error.
pub fn examiner_lines(alloc: Global, findings: &[Vec<u8>]) -> Result<Vec<u8>, Memory>
    ensures { IfOk result (λ text. text.items ≡ examiner_lines 1 (map (λ f. f.items) findings.now)) }
{
    lines(alloc, findings).map_err(|_| Memory)
}

fn lines(alloc: Global, findings: &[Vec<u8>]) -> Result<Vec<u8>, AllocError>
    ensures { IfOk result (λ text. text.items ≡ examiner_lines 1 (map (λ f. f.items) findings.now)) }
{
    let mut text = Vec::new(alloc);
    for (number, finding) in findings.iter().enumerate() {
        push_line(alloc, &mut text, number + 1, finding)?;
    }
    Ok(text)
}

fn push_line(
    alloc: Global,
    text: &mut Vec<u8>,
    number: usize,
    finding: &[u8],
) -> Result<(), AllocError>
    ensures { OnOk result (text.new.items ≡ text.old.items ++ examiner_line number finding.now) }
{
    let name = name(alloc, number)?;
    text.extend_from_slice(name.as_bytes())?;
    text.extend_from_slice(finding)?;
    text.push(b'\n')?;
    Ok(())
}

// What stands before a finding.
fn name(alloc: Global, number: usize) -> Result<String, AllocError>
    ensures { IfOk result (λ name. string_bytes name ≡ codes "examiner " ++ (decimal number ++ codes " ")) }
{
    format!(in alloc; "examiner {number} ")
}
