//! What examiners are shown.
use crate::fixture::{Ran, card, reports, run_examined, verified, wrote};
use crate::gates::{SeenFirst, Sightings};
use aff_examine::Tally;
use aff_memory::FixedDevice;
use aff_model::Memory;
use aff_outside::{Examiner, Gate, OpenGate, Seen};
use std::alloc::{AllocError, Global};
use std::sync::{Arc, Wait};
use std::test::Fail;
use std::thread::Threads;

/// Three sectors, of which the second cannot be read.
const ONE_BAD: &[u8] = b"extent 0 1536 0\n";

/// Two extents, of which the second is the more urgent.
const TWO: &[u8] = b"extent 0 32768 0\nextent 32768 32768 9\n";

/// An examiner that tells what it sees to others, and has no memory for the piece of one front.
#[derive(Drop)]
struct Watcher {
    sightings: Arc<Sightings>,
    refused: u64,
    alloc: Global,
}

impl Examiner for Watcher {
    ghost use Rattle.std.specs.Prelude.{[]};

    ghost state = { λ _. [] };

    ghost rule = { λ _ state piece bytes. [] };

    ghost text = { λ _ state. [] };

    fn see(&mut self, piece: &Seen, _bytes: &[u8]) -> Result<(), Memory> {
        if piece.front == self.refused {
            return Err(Memory);
        }
        self.sightings.note(piece.front);
        Ok(())
    }

    fn finding(&self) -> Result<Vec<u8>, Memory> {
        Ok(Vec::new(self.alloc))
    }
}

/// Runs over cards with so many tallies.
fn run_tallied<W: Alloc<A = Global> + Threads + Wait + Sync>(
    rt: &W,
    text: &[u8],
    cards: Vec<FixedDevice>,
    count: usize,
    peek_fail: &[u64],
) -> Result<Ran, Fail> {
    let alloc = rt.alloc();
    let mut tallies: Vec<Box<dyn Examiner>> = Vec::new(alloc);
    for _ in 0..count {
        tallies.push(Box::new(alloc, Tally::new(alloc))?)?;
    }
    run_examined(rt, text, cards, tallies, peek_fail, &OpenGate)
}

/// Runs over a card with the two extents, and with one watcher.
fn run_watched<W: Alloc<A = Global> + Threads + Wait + Sync, G: Gate>(
    rt: &W,
    watcher: Watcher,
    gate: &G,
) -> Result<Ran, Fail> {
    let alloc = rt.alloc();
    let mut watchers: Vec<Box<dyn Examiner>> = Vec::new(alloc);
    watchers.push(Box::new(alloc, watcher)?)?;
    let card = card(alloc, 65_536, &[])?;
    run_examined(rt, TWO, vec![in alloc; card]?, watchers, &[], gate)
}

/// So many readers of one card whose second sector cannot be read.
fn cards(alloc: Global, count: usize) -> Result<Vec<FixedDevice>, AllocError> {
    let mut cards = Vec::new(alloc);
    for _ in 0..count {
        cards.push(card(alloc, 1_536, &[1])?)?;
    }
    Ok(cards)
}

#[test]
fn a_tally(rt: HostRuntime) -> Result<(), Fail> {
    let alloc = rt.alloc();
    for workers in [1, 3] {
        let ran = run_tallied(&rt, ONE_BAD, cards(alloc, workers)?, 1, &[])?;
        reports(&ran, "\nexaminer 1 readable 1024 unreadable 512\nmd5 ")?;
        assert!(rt; ran.peeks == 1 && ran.examiners == 1);
    }
    Ok(())
}

#[test]
fn a_read_across_kinds(rt: HostRuntime) -> Result<(), Fail> {
    let alloc = rt.alloc();
    let text = b"extent 0 33792 0\nsession\nafter\nread 32700 1200\n";
    let cards = vec![in alloc; card(alloc, 34_816, &[65])?]?;
    let ran = run_tallied(&rt, text, cards, 1, &[])?;
    reports(
        &ran,
        "
session 1
read 32700 1200 1
known 32700 580 f1ad40a62942cc32bb662d093ddd79fddd576f7e3e21d85adb0b6d3a8fc3cc6c
unreadable 33280 512
unknown 33792 108
examiner 1 readable 33280 unreadable 512
md5 ",
    )?;
    assert!(rt; ran.peeks == 2);
    Ok(())
}

/// While the worker waits before its second extent, the examiner is shown the first.
#[test]
fn an_examiner_sees_growth(rt: HostRuntime) -> Result<(), Fail> {
    let alloc = rt.alloc();
    let sightings = Arc::new(alloc, Sightings::new())?;
    let watcher = Watcher {
        sightings: sightings.clone()?,
        refused: 0,
        alloc,
    };
    let gate = SeenFirst::new(sightings.clone()?);
    let ran = run_watched(&rt, watcher, &gate)?;
    reports(
        &ran,
        "\npublication 1 1 0 own - c0+1\npublication 2 0 0 own - c1+1\nexaminer 1 \nmd5 ",
    )?;
    assert!(rt; gate.met() && sightings.saw(2));
    Ok(())
}

#[test]
fn sixteen_examiners(rt: HostRuntime) -> Result<(), Fail> {
    let alloc = rt.alloc();
    let ran = run_tallied(&rt, ONE_BAD, cards(alloc, 1)?, 16, &[])?;
    let mut lines = String::new(alloc);
    for number in 1u64..17 {
        lines.push_str(&format!(in alloc; "\nexaminer {number} readable 1024 unreadable 512")?)?;
    }
    lines.push_str("\nmd5 ")?;
    reports(&ran, lines.as_str())?;
    assert!(rt; ran.peeks == 16 && ran.examiners == 16);
    Ok(())
}

/// An examiner has no memory for its second piece: the run ends so, and the volume is whole.
#[test]
fn an_examiner_without_memory(rt: HostRuntime) -> Result<(), Fail> {
    let alloc = rt.alloc();
    let sightings = Arc::new(alloc, Sightings::new())?;
    let watcher = Watcher {
        sightings: sightings.clone()?,
        refused: 2,
        alloc,
    };
    let ran = run_watched(&rt, watcher, &OpenGate)?;
    wrote(&ran, 7, "error memory\n")?;
    assert!(rt; sightings.saw(1) && ran.examiners == 1);
    wrote(&verified(&rt, ran.folder)?, 0, "sound\n")
}

/// The first fetch of an examiner's peek fails: the run ends so, and the volume is whole.
#[test]
fn an_examiner_whose_peek_fails(rt: HostRuntime) -> Result<(), Fail> {
    let alloc = rt.alloc();
    let ran = run_tallied(&rt, ONE_BAD, cards(alloc, 1)?, 1, &[1])?;
    wrote(&ran, 6, "error folder\n")?;
    assert!(rt; ran.peeks == 1);
    wrote(&verified(&rt, ran.folder)?, 0, "sound\n")
}
