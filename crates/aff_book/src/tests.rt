//! What no clause says: that calls succeed where there is memory, which answers a run of steps gets, and what lies in the
//! folder then.
ghost use Rattle.std.specs.Prelude.{◌≡◌, ◌<◌, [], IfOk, IfSome, None, Some, IsTrue, length, slice_index_or};
ghost use Rattle.std.specs.FinMap.{empty};
ghost use Rattle.aff_model.specs.Index.{extent_at};
ghost use Rattle.aff_model.specs.declared.extent.Extent.{Extent};
ghost use Rattle.aff_model.specs.declared.limits.TheConstants as limits;
ghost use Rattle.aff_extent.specs.Drafts.{IsDraft};

use crate::{Book, Put};
use aff_claim::{BookSeat, Claims, Word};
use aff_extent::{Draft, ExtentReader};
use aff_memory::{FixedDevice, MemoryFolder, MemoryReceipt};
use aff_model::{Case, Extent, Memory, Named, Plan, SECTOR, Untold};
use aff_names::Uuid;
use aff_order::orders;
use aff_outside::{Device, Folder, Segment};
use aff_snapshot::{Publisher, open};
use aff_store::Claim;
use std::alloc::Global;
use std::marker::Brand;
use std::sync::Wait;
use std::test::Fail;

/// Four chunks.
const LEN: u64 = 131_072;

const STREAM: &str = "aff4%3A%2F%2F11111111-2222-4333-8444-555555555555%2Fdata/00000000";

// A call on the book: a put of an extent that was claimed under a number, or a claim of the sweep.
#[derive(Clone, Copy, Debug, PartialEq, Eq)]
enum Step {
    Put(u32, u32),
    Sweep(u32),
}

#[derive(Clone, Copy, Debug, PartialEq, Eq)]
enum Answer {
    Put(Put),
    Word(Word),
}

// What a book is opened with: a plan of three extents of four chunks, of which the one worker has claimed some.
#[derive(Drop)]
struct Start {
    plan: Plan,
    volume: Uuid,
    claims: Claims,
    seat: BookSeat,
    publisher: Publisher<Untold, MemoryReceipt>,
    ghost three: { length plan.extents ≡ 3 },
    ghost sectors: { plan.block ≡ limits.SECTOR },
    ghost table: { (claims.table.extents ≡ 3) × (claims.table.workers ≡ 1) × (seat.table ≡ claims.table) },
    ghost fresh: { (seat.view.out ≡ []) × (publisher.pieces ≡ []) × (publisher.list.plan ≡ plan) },
}

// What the steps left.
#[derive(Drop)]
struct Played {
    answers: Vec<Answer>,
    front: u64,
    calls: u64,
    stopped: bool,
    memory: bool,
    segments: Vec<Segment>,
}

// The book with what it is used with.
#[derive(Drop)]
struct Desk<N: Named> {
    plan: Plan,
    claims: Claims,
    book: Book<Untold, N, MemoryFolder>,
    ghost plan_is: { plan ≡ N.run_plan },
    ghost three: { length plan.extents ≡ 3 },
    ghost sectors: { plan.block ≡ limits.SECTOR },
    ghost one: { N.run_workers ≡ 1 },
    ghost table: { claims.table ≡ record { id = N.run_table; extents = 3; workers = 1 } },
}

fn plan_of(alloc: Global) -> Result<Plan, Fail>
    ensures three { IfOk result (λ p. length p.extents ≡ 3) }
    ensures sectors { IfOk result (λ p. p.block ≡ limits.SECTOR) }
{
    let extents = vec![in alloc; extent(0), extent(1), extent(2)]?;
    let plan = Plan::of(alloc, extents, 3 * LEN, SECTOR as u32)?;
    Ok(plan)
}

fn extent(number: u64) -> Extent
    requires { number < 3 }
{
    Extent {
        at: number * LEN,
        len: LEN,
        priority: 0,
    }
}

// Claims so many extents for the worker.
fn claim_first(alloc: Global, claims: &Claims, seat: &mut BookSeat, count: u32) -> Result<(), Fail>
    requires table { (seat.old.table ≡ claims.now.table) × (claims.now.table.workers ≡ 1) }
    requires fresh { seat.old.view.made ≡ 0 }
    ensures table { seat.new.table ≡ claims.now.table }
    ensures out { seat.new.view.out ≡ seat.old.view.out }
{
    let mut pass = claims.register(seat)?;
    let mut all = orders(alloc, &[], 1)?;
    let mut order = all.pop().ok_or("no order")?;
    for _ in 0..count {
        claims.next(&mut pass, &mut order);
    }
    Ok(())
}

fn begin(rt: &impl Wait, alloc: Global, claimed: u32) -> Result<Start, Fail> {
    let plan = plan_of(alloc)?;
    let volume = Uuid::read("11111111-2222-4333-8444-555555555555").ok_or("no uuid")?;
    let (claims, mut seat) = Claims::new(alloc, &plan, 1)?;
    claim_first(alloc, &claims, &mut seat, claimed)?;
    let (publisher, _) = open::<Untold, MemoryReceipt, _>(rt, alloc, &plan, 1)?;
    Ok(Start {
        plan,
        volume,
        claims,
        seat,
        publisher,
    })
}

// Reads an extent of a device whose bytes are all 7.
fn read(alloc: Global, plan: &Plan, number: u32) -> Result<(ExtentReader, Draft), Fail>
    requires planned { number < length plan.now.extents }
    requires sectors { plan.now.block ≡ limits.SECTOR }
    ensures { IfOk result (λ r. IsDraft None plan.now.block (extent_at plan.now.extents number) r.0 r.1) }
{
    let mut device = FixedDevice::new(sevens(alloc, plan.size() as usize)?, Vec::new(alloc));
    let mut reader = ExtentReader::new(alloc, plan.extents())?;
    let draft = read_planned::<Untold>(plan, number, &mut device, &mut reader)?;
    Ok((reader, draft))
}

fn read_planned<C: Case>(
    plan: &Plan,
    number: u32,
    device: &mut dyn Device,
    reader: &mut ExtentReader,
) -> Result<Draft, Memory>
    requires planned { number < length plan.now.extents }
    requires size { device_size device.old ≡ plan.now.size }
    requires block { device_block device.old ≡ plan.now.block }
    requires told { IfSome C.content (λ c. device_content device.old ≡ Some c) }
    ensures draft { IfOk result (λ d. IsDraft C.content plan.now.block (extent_at plan.now.extents number) reader.new d) }
{
    reader.read(device, extent_of(plan.extents(), number))
}

fn extent_of(extents: &[Extent], number: u32) -> &Extent
    requires { number < length extents.now }
    ensures { (d : Extent) → result.now ≡ slice_index_or extents.now number d }
{
    &extents[number as usize]
}

fn sevens(alloc: Global, count: usize) -> Result<Vec<u8>, Fail>
    ensures { IfOk result (λ bytes. length bytes.items ≡ count) }
{
    let bytes = vec![in alloc; 7u8; count]?;
    Ok(bytes)
}

impl<N: Named> Desk<N> {
    fn step(&mut self, rt: &impl Wait, alloc: Global, step: Step) -> Result<Answer, Fail> {
        match step {
            Step::Put(number, claimant) if number < 3 => {
                let (reader, draft) = read(alloc, &self.plan, number)?;
                let claim = Claim {
                    extent: number,
                    claimant,
                    swept: claimant == 1,
                };
                let put = self
                    .book
                    .put(rt, &self.claims, claim, draft, reader.bytes());
                Ok(Answer::Put(put))
            }
            Step::Sweep(number) if number < 3 => {
                Ok(Answer::Word(self.book.sweep(&self.claims, number)))
            }
            _ => Err(Fail::new("no such extent")),
        }
    }
}

fn opened<N: Named>(
    rt: &impl Wait,
    alloc: Global,
    start: Start,
    folder: MemoryFolder,
) -> Result<Desk<N>, Fail>
    requires run { (start.plan ≡ N.run_plan) × (start.volume ≡ N.run_volume) × (start.claims.table.id ≡ N.run_table) }
    requires list { (start.publisher.list.book ≡ N.run_list) × (N.run_workers ≡ 1) }
    requires vacant { (folder.held ≡ empty) × (folder.calls.faults ≡ N.run_opened) }
{
    let Start {
        plan,
        volume,
        claims,
        seat,
        publisher,
    } = start;
    match Book::open(rt, alloc, folder, &plan, &volume, seat, publisher) {
        Ok(book) => Ok(Desk { plan, claims, book }),
        Err(_) => Err(Fail::new("no book")),
    }
}

// Makes the steps, one behind the other, and ends the list.
fn run<N: Named>(
    rt: &impl Wait,
    alloc: Global,
    start: Start,
    folder: MemoryFolder,
    steps: &[Step],
) -> Result<Played, Fail>
    requires run { (start.plan ≡ N.run_plan) × (start.volume ≡ N.run_volume) × (start.claims.table.id ≡ N.run_table) }
    requires list { (start.publisher.list.book ≡ N.run_list) × (N.run_workers ≡ 1) }
    requires vacant { (folder.held ≡ empty) × (folder.calls.faults ≡ N.run_opened) }
{
    let mut desk = opened::<N>(rt, alloc, start, folder)?;
    let mut answers = Vec::new(alloc);
    for step in steps {
        answers.push(desk.step(rt, alloc, *step)?)?;
    }
    let Desk { book, .. } = desk;
    let front = book.front();
    let mut parts = book.into_parts(rt);
    let segments = parts.folder.list()?;
    Ok(Played {
        answers,
        front,
        calls: parts.folder.calls(),
        stopped: parts.stopped,
        memory: parts.memory,
        segments,
    })
}

fn play(
    rt: &impl Wait,
    alloc: Global,
    claimed: u32,
    fail: u64,
    steps: &[Step],
) -> Result<Played, Fail> {
    let start = begin(rt, alloc, claimed)?;
    let folder = MemoryFolder::new(alloc, vec![in alloc; fail]?, Vec::new(alloc));
    run::<Brand>(rt, alloc, start, folder, steps)
}

#[test]
fn an_extent_is_published_once(rt: HostRuntime) -> Result<(), Fail> {
    let alloc = rt.alloc();
    let steps = [Step::Put(0, 0), Step::Put(0, 0), Step::Put(1, 0)];
    let played = play(&rt, alloc, 1, 0, &steps)?;
    let answers = [
        Answer::Put(Put::Done(1)),
        Answer::Put(Put::NotYours(Word::Published(0))),
        Answer::Put(Put::NotYours(Word::Free)),
    ];
    assert!(rt; played.answers.as_slice() == answers.as_slice());
    // Four appends and the listing.
    assert!(rt; played.front == 1 && played.calls == 5 && !played.stopped && !played.memory);
    let segment = played.segments.first().ok_or("no segment")?;
    assert!(rt;
        played.segments.len() == 1 && segment.name.as_str() == STREAM && segment.len == LEN
    );
    Ok(())
}

#[test]
fn the_third_append_fails(rt: HostRuntime) -> Result<(), Fail> {
    let alloc = rt.alloc();
    let steps = [Step::Put(0, 0), Step::Put(1, 0)];
    let played = play(&rt, alloc, 2, 3, &steps)?;
    let answers = [Answer::Put(Put::Failed), Answer::Put(Put::Stopped)];
    assert!(rt; played.answers.as_slice() == answers.as_slice());
    assert!(rt; played.front == 0 && played.calls == 4 && played.stopped && !played.memory);
    Ok(())
}

#[test]
fn the_sweep_claims_once(rt: HostRuntime) -> Result<(), Fail> {
    let alloc = rt.alloc();
    let steps = [
        Step::Sweep(0),
        Step::Put(0, 0),
        Step::Sweep(0),
        Step::Sweep(1),
        Step::Sweep(1),
        Step::Put(1, 1),
        Step::Put(2, 1),
        Step::Sweep(2),
        Step::Put(2, 1),
    ];
    let played = play(&rt, alloc, 1, 0, &steps)?;
    let answers = [
        Answer::Word(Word::Claimed(0)),
        Answer::Put(Put::Done(1)),
        Answer::Word(Word::Published(0)),
        Answer::Word(Word::Claimed(1)),
        Answer::Word(Word::Claimed(1)),
        Answer::Put(Put::Done(2)),
        Answer::Put(Put::NotYours(Word::Free)),
        Answer::Word(Word::Claimed(1)),
        Answer::Put(Put::Done(3)),
    ];
    assert!(rt; played.answers.as_slice() == answers.as_slice());
    assert!(rt; played.front == 3 && played.calls == 13);
    Ok(())
}
