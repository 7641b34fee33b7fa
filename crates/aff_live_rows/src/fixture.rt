//! Runs over cards in memory, whose bytes are all 7.
ghost use Rattle.std.specs.Prelude.{◌≡◌, IfOk, length};

use aff_memory::{FixedDevice, MemoryFolder, MemorySink, MemorySource};
use aff_model::Untold;
use aff_outside::{Device, Examiner, Gate, OpenGate};
use aff_top::{End, run_words};
use std::alloc::{AllocError, Global};
use std::sync::Wait;
use std::test::Fail;
use std::thread::Threads;

/// The words of a run by three workers; by fewer the last ones are left out.
const WORDS: [&str; 6] = [
    "acquire",
    "F",
    "11111111-2222-4333-8444-555555555555",
    "D",
    "D",
    "D",
];

/// What a run left: its status, what it wrote, how many peeks and examiners it handed back, and the folder.
#[derive(Drop)]
pub struct Ran {
    pub status: u8,
    pub written: Vec<u8>,
    pub peeks: usize,
    pub examiners: usize,
    pub folder: MemoryFolder,
}

fn filled(alloc: Global, count: usize) -> Result<Vec<u8>, AllocError>
    ensures { IfOk result (λ bytes. length bytes.items ≡ count) }
{
    vec![in alloc; 7u8; count]
}

/// A card of so many bytes, with these bad sectors.
pub fn card(alloc: Global, size: usize, bad: &[u64]) -> Result<FixedDevice, AllocError> {
    Ok(FixedDevice::new(filled(alloc, size)?, Vec::from_slice(alloc, bad)?))
}

/// Runs over one card by a text, with a gate, into an empty folder of whose peeks these calls fail.
pub fn run<W: Alloc<A = Global> + Threads + Wait + Sync, G: Gate>(
    rt: &W,
    text: &[u8],
    card: FixedDevice,
    peek_fail: &[u64],
    gate: &G,
) -> Result<Ran, Fail> {
    let alloc = rt.alloc();
    run_examined(
        rt,
        text,
        vec![in alloc; card]?,
        Vec::new(alloc),
        peek_fail,
        gate,
    )
}

/// The same over up to three cards, a worker each, with examiners.
pub fn run_examined<W: Alloc<A = Global> + Threads + Wait + Sync, G: Gate>(
    rt: &W,
    text: &[u8],
    cards: Vec<FixedDevice>,
    examiners: Vec<Box<dyn Examiner>>,
    peek_fail: &[u64],
    gate: &G,
) -> Result<Ran, Fail> {
    let alloc = rt.alloc();
    let words = &WORDS[..3 + cards.len().min(3)];
    let mut devices: Vec<Box<dyn Device>> = Vec::new(alloc);
    for card in cards {
        devices.push(Box::new(alloc, card)?)?;
    }
    let folder = MemoryFolder::new(alloc, Vec::new(alloc), Vec::from_slice(alloc, peek_fail)?);
    run_over(rt, words, text, devices, examiners, folder, gate)
}

/// What `verify` says of a folder.
pub fn verified<W: Alloc<A = Global> + Threads + Wait + Sync>(
    rt: &W,
    folder: MemoryFolder,
) -> Result<Ran, Fail> {
    let alloc = rt.alloc();
    run_over(
        rt,
        &["verify", "F"],
        b"",
        Vec::new(alloc),
        Vec::new(alloc),
        folder,
        &OpenGate,
    )
}

fn run_over<W: Alloc<A = Global> + Threads + Wait + Sync, G: Gate>(
    rt: &W,
    words: &[&str],
    text: &[u8],
    devices: Vec<Box<dyn Device>>,
    examiners: Vec<Box<dyn Examiner>>,
    folder: MemoryFolder,
    gate: &G,
) -> Result<Ran, Fail> {
    let alloc = rt.alloc();
    if examiners.len() > 16 {
        return Err("too many examiners")?;
    }
    let mut source = MemorySource::new(text.to_vec(alloc)?, Vec::new(alloc));
    let mut sink = MemorySink::new(alloc, Vec::new(alloc));
    let End {
        status,
        examiners,
        folder,
        peeks,
        ..
    } = run_words::<Untold, _, _, _, _, _>(
        rt,
        words,
        devices,
        examiners,
        folder,
        &mut source,
        &mut sink,
        gate,
    );
    Ok(Ran {
        status,
        written: sink.written().to_vec(alloc)?,
        peeks: peeks.len(),
        examiners: examiners.len(),
        folder,
    })
}

/// The run ended with this status, and wrote exactly this.
pub fn wrote(ran: &Ran, status: u8, text: &str) -> Result<(), Fail> {
    if ran.status != status {
        return Err("another status")?;
    }
    if ran.written.as_slice() != text.as_bytes() {
        return Err("another text")?;
    }
    Ok(())
}

/// The run ended with status 0, and its report has these lines, one behind the other.
pub fn reports(ran: &Ran, lines: &str) -> Result<(), Fail> {
    if ran.status != 0 {
        return Err("another status")?;
    }
    if !has_line(ran, lines) {
        return Err("other lines")?;
    }
    Ok(())
}

/// Whether the report has these lines, one behind the other.
pub fn has_line(ran: &Ran, lines: &str) -> bool {
    has_part(&ran.written, lines.as_bytes())
}

fn has_part(bytes: &[u8], part: &[u8]) -> bool {
    for place in 0..bytes.len() {
        if bytes[place..].starts_with(part) {
            return true;
        }
    }
    false
}
