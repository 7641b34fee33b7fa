//! Several devices of one card, a worker each.
use crate::fixture::{NONE, Ran, filled, run_by_gate, wrote};
use aff_memory::{FixedDevice, MemoryFolder};
use aff_outside::{Device, Gate, GateStep, OpenGate};
use std::alloc::Global;
use std::sync::Wait;
use std::sync::atomic::{AtomicU64, Ordering};
use std::test::Fail;
use std::thread;
use std::thread::Threads;

const TWO_DEVICES: [&str; 5] = [
    "acquire",
    "F",
    "11111111-2222-4333-8444-555555555555",
    "D",
    "D",
];

/// Four extents, each of a chunk and one sector of another.
const PLAN: &[u8] =
    b"extent 0 33280 0\nextent 33280 33280 0\nextent 66560 33280 0\nextent 99840 33280 0\n";

const LEN: usize = 133_120;

/// How often a gate looks at most.
const TURNS: u64 = 10_000_000;

/// Lets a worker that is about to read on when both have come.
#[derive(Drop)]
struct Pair {
    come: AtomicU64,
}

impl Pair {
    fn has_both(&self) -> bool {
        self.come.load(Ordering::SeqCst) == 3
    }
}

impl Gate for Pair {
    fn at(&self, step: GateStep) {
        let GateStep::Reading(worker) = step else {
            return;
        };
        self.come.fetch_or(1 << (worker % 2), Ordering::SeqCst);
        for _ in 0..TURNS {
            if self.has_both() {
                break;
            }
            thread::yield_now();
        }
    }
}

/// A device of bytes that are all 7, of whose sectors the first ones cannot be read.
fn card(alloc: Global, bad: u64) -> Result<FixedDevice, Fail> {
    let mut sectors = Vec::new(alloc);
    for sector in 0..bad {
        sectors.push(sector)?;
    }
    Ok(FixedDevice::new(filled(alloc, LEN)?, sectors))
}

/// Runs over two devices, of which the second has so many bad sectors, into a folder of which one call fails.
fn run_pair<W: Alloc<A = Global> + Threads + Wait + Sync, G: Gate>(
    rt: &W,
    gate: &G,
    bad: u64,
    fail: u64,
) -> Result<Ran, Fail> {
    let alloc = rt.alloc();
    let mut devices: Vec<Box<dyn Device>> = Vec::new(alloc);
    devices.push(Box::new(alloc, card(alloc, 0)?)?)?;
    devices.push(Box::new(alloc, card(alloc, bad)?)?)?;
    let folder = MemoryFolder::new(alloc, vec![in alloc; fail]?, Vec::new(alloc));
    Ok(run_by_gate(rt, &TWO_DEVICES, PLAN, devices, folder, NONE, gate)?)
}

fn is_word(word: Option<&[u8]>, wanted: &[u8]) -> bool {
    match word {
        Some(word) => word == wanted,
        None => false,
    }
}

/// Whether a line is that of a publication of a worker's own, with these unreadable sectors.
fn is_own(line: &[u8], worker: &[u8], bad: &[u8]) -> bool {
    let mut words = line.split(|b| *b == b' ');
    if !is_word(words.next(), b"publication") {
        return false;
    }
    words.next();
    words.next();
    is_word(words.next(), worker) && is_word(words.next(), b"own") && is_word(words.next(), bad)
}

/// How many such lines a report has.
fn own(ran: &Ran, worker: &[u8], bad: &[u8]) -> u64 {
    let mut count: u64 = 0;
    for line in ran.written.split(|b| *b == b'\n') {
        if is_own(line, worker, bad) {
            count = count.saturating_add(1);
        }
    }
    count
}

#[test]
fn two_workers_at_once(rt: HostRuntime) -> Result<(), Fail> {
    let gate = Pair {
        come: AtomicU64::new(0),
    };
    let ran = run_pair(&rt, &gate, 0, 0)?;
    assert!(rt; ran.status == 0 && ran.devices.len() == 2 && gate.has_both());
    let (first, second) = (own(&ran, b"0", b"-"), own(&ran, b"1", b"-"));
    assert!(rt; first > 0 && second > 0 && first.saturating_add(second) == 4);
    Ok(())
}

/// The extents of the second device's worker are unreadable, and the run is done all the same.
#[test]
fn a_device_that_fails_wholly(rt: HostRuntime) -> Result<(), Fail> {
    let gate = Pair {
        come: AtomicU64::new(0),
    };
    let ran = run_pair(&rt, &gate, 260, 0)?;
    assert!(rt; ran.status == 0 && gate.has_both());
    let (first, second) = (own(&ran, b"0", b"-"), own(&ran, b"1", b"0+65"));
    assert!(rt; first > 0 && second > 0 && first.saturating_add(second) == 4);
    Ok(())
}

#[test]
fn the_third_call_of_the_folder_fails(rt: HostRuntime) -> Result<(), Fail> {
    let ran = run_pair(&rt, &OpenGate, 0, 3)?;
    assert!(rt; ran.devices.len() == 2);
    wrote(&ran, 6, "error folder\n")
}
