//! What the digests of a run cost alone: reads standard input once, takes the digests that a run takes of
//! such a device (of each chunk that is not all zeros, in lanes, and of the whole, side by side), and writes those of the
//! whole. Nothing is stored. `bench` compares a run with it. With the word `verify` it takes those that a verification takes:
//! the same, but of chunks one digest at a time. With `lanes` or `scalar` it takes the chunks' digests alone, in lanes or in
//! the scalar code of `md5`, `sha1` and `sha2`, so that `bench` compares the two. With the word `claims` it reads nothing:
//! one pass claims each extent of the longest plan.
#![tactic(auto)]

ghost use Rattle.std.specs.Prelude.{◌≡◌, ◌<◌, All, IfOk, length};
ghost use Rattle.aff_model.specs.Plan.{chunk_count};

mod claims;

use crate::claims::claims_of_one_pass;
use aff_fields::zeros;
use aff_hash::{Linear, sums_of_chosen};
use aff_model::{CHUNK, MAX_EXTENT, Memory};
use aff_outside::{InputSource, OutputSink, Sink, Source};
use aff_report::digest_lines;
use md5::{Digest as Md5Hasher, Md5};
use sha1::Sha1;
use sha2::{Digest as Sha2Hasher, Sha256};
use std::alloc::{AllocError, Global};
use std::env;
use std::process::ExitCode;
use std::thread::Threads;

/// The most readings: a device of 2^44 bytes takes so many of the longest extent.
const READINGS: u64 = 1_048_576;

const CHUNK_BYTES: usize = CHUNK as usize;

/// Which digests are taken.
#[derive(Clone, Copy, Debug, PartialEq, Eq)]
enum Mode {
    /// Those that a run takes.
    Run,
    /// Those that a verification takes.
    Verify,
    /// Those of chunks, in lanes.
    Lanes,
    /// Those of chunks, in scalar code.
    Scalar,
}

/// What is timed.
#[derive(Clone, Copy, Debug, PartialEq, Eq)]
enum Task {
    Digests(Mode),
    Claims,
}

/// What a word asks for.
fn task_of(word: &str) -> Task {
    match word {
        "claims" => Task::Claims,
        "lanes" => Task::Digests(Mode::Lanes),
        "scalar" => Task::Digests(Mode::Scalar),
        "verify" => Task::Digests(Mode::Verify),
        _ => Task::Digests(Mode::Run),
    }
}

/// A chunk of some bytes.
fn chunk(bytes: &[u8], number: usize) -> &[u8]
    requires { number < chunk_count (length bytes.now) }
{
    let rest = &bytes[CHUNK_BYTES * number..];
    &rest[..rest.len().min(CHUNK_BYTES)]
}

/// The numbers of the chunks that a run would store.
fn stored(alloc: Global, bytes: &[u8]) -> Result<Vec<usize>, AllocError>
    ensures { IfOk result (λ numbers. All (λ j. j < chunk_count (length bytes.now)) numbers.items) }
{
    let mut numbers = Vec::new(alloc);
    for number in 0..bytes.len().div_ceil(CHUNK_BYTES) {
        if chunk(bytes, number).iter().any(|byte| *byte != 0) {
            numbers.push(number)?;
        }
    }
    Ok(numbers)
}

/// A byte of each digest of the chosen chunks, mixed; the digests are taken in lanes.
fn mix_in_lanes(alloc: Global, bytes: &[u8], chosen: &[usize]) -> Result<u8, Memory>
    requires { All (λ j. j < chunk_count (length bytes.now)) chosen.now }
{
    let mut mix = 0;
    for sums in sums_of_chosen(alloc, bytes, chosen)? {
        mix ^= sums.md5[0] ^ sums.sha1[0] ^ sums.sha256[0];
    }
    Ok(mix)
}

/// The same in scalar code, of whole chunks.
fn mix_in_scalar_code(bytes: &[u8], chosen: &[usize]) -> u8
    requires { All (λ j. j < chunk_count (length bytes.now)) chosen.now }
{
    let mut mix = 0;
    for number in chosen {
        let chunk = chunk(bytes, *number);
        mix ^= Md5::digest(chunk)[0] ^ Sha1::digest(chunk)[0] ^ Sha256::digest(chunk)[0];
    }
    mix
}

/// Takes the digests of some bytes, and gives the mixed bytes of their chunks' digests.
fn sum_bytes<R: Threads + Sync>(
    rt: &R,
    alloc: Global,
    mode: Mode,
    bytes: &[u8],
    linear: &mut Linear,
) -> Result<u8, Memory> {
    let Ok(chosen) = stored(alloc, bytes) else {
        return Err(Memory);
    };
    match mode {
        Mode::Run => {
            linear.update_beside(rt, bytes);
            mix_in_lanes(alloc, bytes, &chosen)
        }
        Mode::Verify => {
            linear.update_beside(rt, bytes);
            Ok(mix_in_scalar_code(bytes, &chosen))
        }
        Mode::Lanes => mix_in_lanes(alloc, bytes, &chosen),
        Mode::Scalar => Ok(mix_in_scalar_code(bytes, &chosen)),
    }
}

/// Takes the digests of what a source has left, and gives the mixed bytes of its chunks' digests.
fn sum_all<R: Threads + Sync, S: Source>(
    rt: &R,
    alloc: Global,
    mode: Mode,
    source: &mut S,
    buffer: &mut [u8],
    linear: &mut Linear,
) -> Result<u8, Memory>
    requires { 0 < length buffer.old }
{
    let mut mix = 0;
    for _ in 0..READINGS {
        match source.read(buffer) {
            Ok(0) => return Ok(mix),
            Ok(count) => mix ^= sum_bytes(rt, alloc, mode, &buffer[..count], linear)?,
            Err(_) => return Ok(mix),
        }
    }
    Ok(mix)
}

fn run<R: Threads + Sync>(rt: HostRuntime, threads: &R, mode: Mode) -> Result<(), Memory> {
    let alloc = rt.alloc();
    let Ok(mut buffer) = zeros(alloc, MAX_EXTENT as usize) else {
        return Err(Memory);
    };
    let mut linear = Linear::new();
    let mut source = InputSource::new(rt);
    let mix = sum_all(threads, alloc, mode, &mut source, &mut buffer, &mut linear)?;
    let mut sink = OutputSink::new(rt);
    if mode == Mode::Run || mode == Mode::Verify {
        let lines = digest_lines(alloc, &linear.finish())?;
        let _ = sink.write(lines.as_bytes());
    }
    let _ = sink.write(&[b'a' + mix % 26, b'\n']);
    Ok(())
}

/// Claims the longest plan, and writes how many extents were claimed.
fn run_claims(rt: HostRuntime) -> Result<(), Memory> {
    let alloc = rt.alloc();
    let Some(count) = claims_of_one_pass(alloc) else {
        return Err(Memory);
    };
    let Ok(line) = format!(in alloc; "claimed {count}\n") else {
        return Err(Memory);
    };
    let _ = OutputSink::new(rt).write(line.as_bytes());
    Ok(())
}

fn main(rt: HostRuntime) -> ExitCode {
    let mut task = Task::Digests(Mode::Run);
    if let Ok(mut words) = env::args(&rt)
        && let Some(word) = words.nth(1)
    {
        task = task_of(word.as_str());
    }
    let outcome = match task {
        Task::Digests(mode) => run(rt, &rt, mode),
        Task::Claims => run_claims(rt),
    };
    match outcome {
        Ok(()) => ExitCode::from(0),
        Err(_) => ExitCode::from(7),
    }
}
