//! What no clause says of analysts: that reads succeed, how often they fetch, and what fails in the middle.
ghost use Rattle.std.specs.Prelude.{◌≡◌, ℕ, ◌<◌, ◌≤◌, None, length, map, slice_index};
ghost use Rattle.std.specs.Arc.{arc_value};
ghost use Rattle.aff_model.specs.declared.limits.TheConstants as limits;
ghost use Rattle.aff_image.specs.Sound.{AreSound};

use crate::pieces::{Shared, peek_of, plan_of, sevens, sound_piece, stored};
use crate::silent::{SilentFolder, SilentPeek, SilentReceipt};
use aff_analyst::{Analyst, ReadError, RunList};
use aff_fields::zeros;
use aff_memory::MemoryFolder;
use aff_model::{CHUNK, Kind, MAX_READ, Plan, Run, SECTOR, Untold};
use aff_outside::Folder;
use sha2::{Digest, Sha256};
use std::alloc::Global;
use std::marker::Model;
use std::test::Fail;

// An analyst with pieces of its plan, and room for its answers.
#[derive(Drop)]
struct Reader<F: Folder> {
    analyst: Analyst<Untold, F>,
    pieces: Vec<Shared<F::Receipt>>,
    out: Vec<u8>,
    runs: RunList,
}

impl<F: Folder> Model for Reader<F> {
    ghost use Rattle.std.specs.Prelude.{◌≤◌, None, length, map};
    ghost use Rattle.std.specs.Arc.{arc_value};
    ghost use Rattle.aff_model.specs.declared.limits.TheConstants as limits;
    ghost use Rattle.aff_image.specs.Sound.{AreSound};
    ghost use Rattle.aff_analyst.specs.Values.{Analysis};

    ghost Value = { Analysis F.Receipt F.Peek };

    ghost view = { λ r. r.analyst };

    ghost invariant = { λ r. (limits.MAX_READ ≤ length r.out.items) × AreSound None r.analyst.plan F.Receipt.receipt_tells F.Receipt.told (map arc_value r.pieces.items) };
}

impl<F: Folder> Reader<F> {
    fn new(
        alloc: Global,
        peek: F::Peek,
        plan: &Plan,
        pieces: Vec<Shared<F::Receipt>>,
    ) -> Result<Reader<F>, Fail>
        requires { AreSound None plan.now F.Receipt.receipt_tells F.Receipt.told (map arc_value pieces.items) }
    {
        let analyst = Analyst::open(alloc, None, peek, plan)?;
        let out = zeros(alloc, MAX_READ as usize)?;
        let runs = RunList::new(alloc)?;
        Ok(Reader {
            analyst,
            pieces,
            out,
            runs,
        })
    }

    fn read(&mut self, at: u64, len: u64) -> Result<(), ReadError> {
        self.analyst
            .read_all(&self.pieces, at, len, &mut self.out, &mut self.runs)
    }

    // Whether the last answer has these runs.
    fn has_runs(&self, runs: &[Run]) -> bool {
        self.runs.runs() == runs
    }

    // Whether the last answer shows these bytes from one on.
    fn shows(&self, from: usize, bytes: &[u8]) -> bool {
        let shown = self.out.iter().skip(from);
        shown.zip(bytes.iter()).all(|(one, other)| one == other)
    }
}

impl Reader<MemoryFolder> {
    fn fetches(self) -> u64 {
        self.analyst.into_peek().calls()
    }
}

// A reader of the three extents.
fn reader_of(alloc: Global, peek_fail: Vec<u64>) -> Result<Reader<MemoryFolder>, Fail> {
    let mut folder = MemoryFolder::new(alloc, Vec::new(alloc), peek_fail);
    let plan = plan_of(alloc)?;
    let third = stored(alloc, &mut folder, 2)?;
    let first = stored(alloc, &mut folder, 0)?;
    let second = stored(alloc, &mut folder, 1)?;
    let pieces = vec![in alloc; third, first, second]?;
    let peek = peek_of(&mut folder)?;
    Reader::new(alloc, peek, &plan, pieces)
}

const fn run(len: u64, kind: Kind) -> Run {
    Run { len, kind }
}

#[test]
fn three_extents(rt: HostRuntime) -> Result<(), Fail> {
    let mut reader = reader_of(rt.alloc(), Vec::new(rt.alloc()))?;
    assert!(rt; reader.read(500, 4000) == Ok(()));
    let runs = [
        run(12, Kind::Unknown),
        run(512, Kind::Known),
        run(512, Kind::Unreadable),
        run(512, Kind::Known),
        run(512, Kind::Unreadable),
        run(1536, Kind::Unknown),
        run(404, Kind::Known),
    ];
    assert!(rt; reader.has_runs(&runs));
    assert!(rt; reader.shows(0, b"NOWNUNK"));
    assert!(rt; reader.shows(10, b"NU\x07\x07"));
    assert!(rt; reader.shows(522, b"\x07\x07READABLE"));
    assert!(rt; reader.shows(2060, b"WNUNK"));
    assert!(rt; reader.fetches() == 3);
    Ok(())
}

#[test]
fn ends(rt: HostRuntime) -> Result<(), Fail> {
    let mut reader = reader_of(rt.alloc(), Vec::new(rt.alloc()))?;
    let size = 2 * MAX_READ;
    assert!(rt; reader.read(600, 0) == Ok(()) && reader.has_runs(&[]));
    assert!(rt; reader.read(MAX_READ, MAX_READ) == Ok(()));
    assert!(rt; reader.has_runs(&[run(MAX_READ, Kind::Unknown)]));
    assert!(rt; reader.read(size, 0) == Ok(()));
    assert!(rt; reader.read(size, 1) == Err(ReadError::PastEnd));
    assert!(rt; reader.read(u64::MAX, MAX_READ) == Err(ReadError::PastEnd));
    assert!(rt; reader.read(size, MAX_READ + 1) == Err(ReadError::TooLong));
    Ok(())
}

#[test]
fn a_fetch_fails(rt: HostRuntime) -> Result<(), Fail> {
    let alloc = rt.alloc();
    let mut reader = reader_of(alloc, vec![in alloc; 2u64]?)?;
    assert!(rt; reader.read(0, 2048) == Err(ReadError::Failed) && reader.has_runs(&[]));
    assert!(rt; reader.read(0, 1024) == Ok(()));
    assert!(rt; reader.has_runs(&[run(512, Kind::Unknown), run(512, Kind::Known)]));
    Ok(())
}

// A reader of one extent whose receipt tells nothing, and whose peek lies.
fn fooled(alloc: Global, chunk: &[u8]) -> Result<Reader<SilentFolder>, Fail>
    requires len { length chunk.now ≡ limits.CHUNK }
    requires zeros { (k : ℕ) → 512 ≤ k → k < limits.CHUNK → slice_index chunk.now k ≡ 0 }
{
    let plan = plan_of(alloc)?;
    let piece = sound_piece(alloc, SilentReceipt, chunk)?;
    let pieces = vec![in alloc; piece]?;
    Reader::new(alloc, SilentPeek { byte: 7 }, &plan, pieces)
}

#[test]
fn a_peek_lies(rt: HostRuntime) -> Result<(), Fail> {
    let alloc = rt.alloc();
    let chunk = sevens(alloc, SECTOR as usize, CHUNK as usize)?;
    let lie = sevens(alloc, CHUNK as usize, CHUNK as usize)?;
    let damaged = ReadError::Damaged {
        chunk: 0,
        recorded: Sha256::digest(&chunk),
        found: Sha256::digest(&lie),
    };
    let mut reader = fooled(alloc, &chunk)?;
    assert!(rt; reader.read(0, 1024) == Err(damaged) && reader.has_runs(&[]));
    // What needs no chunk is answered.
    assert!(rt; reader.read(1024, 512) == Ok(()));
    assert!(rt; reader.has_runs(&[run(512, Kind::Unreadable)]));
    Ok(())
}
