//! The runs of an answer, with their digests.
ghost use Rattle.std.specs.Prelude.{◌≡◌, ◌+◌, ◌<◌, ◌≤◌, ◌^◌, IfOk, length, take, drop};
ghost use Rattle.aff_model.specs.Kinds.{spread};
ghost use Rattle.aff_session.specs.Answers.{IsSumOf, run_of};
ghost use Rattle.aff_session.specs.Lines.{AreLinesOf};

use aff_model::{Kind, Memory, Run};
use aff_script::RunLine;
use sha2::{Digest, Sha256};
use std::alloc::Global;

// The runs from an offset on, whose bytes stand at the beginning of `bytes`.
pub(crate) fn lines_of(
    alloc: Global,
    at: u64,
    bytes: &[u8],
    runs: &[Run],
) -> Result<Vec<RunLine>, Memory>
    requires inside { length (spread runs.now) ≤ length bytes.now }
    requires fits { at + length (spread runs.now) < 2 ^ 64 }
    ensures { IfOk result (λ l. AreLinesOf at bytes.now runs.now l.items) }
{
    let Ok(mut lines) = Vec::with_capacity(alloc, runs.len()) else {
        return Err(Memory);
    };
    let mut from = 0;
    for run in runs {
        let own = part_of(bytes, from, run.len as usize);
        lines.push_reserved(line_of(at + from as u64, *run, own));
        from += run.len as usize;
    }
    Ok(lines)
}

fn part_of(bytes: &[u8], from: usize, len: usize) -> &[u8]
    requires { from + len ≤ length bytes.now }
    ensures { result.now ≡ take len (drop from bytes.now) }
{
    &bytes[from..from + len]
}

// A run with its offset and the digest of its bytes.
fn line_of(at: u64, run: Run, bytes: &[u8]) -> RunLine
    ensures at { result.at ≡ at }
    ensures run { run_of result ≡ run }
    ensures sum { IsSumOf bytes.now run.kind result.sha256 }
{
    RunLine {
        at,
        len: run.len,
        kind: run.kind,
        sha256: sum_of(run.kind, bytes),
    }
}

// The digest of a run of some bytes.
fn sum_of(kind: Kind, bytes: &[u8]) -> [u8; 32]
    ensures { IsSumOf bytes.now kind result }
{
    match kind {
        Kind::Known => Sha256::digest(bytes),
        Kind::Unreadable | Kind::Unknown => [0; 32],
    }
}
