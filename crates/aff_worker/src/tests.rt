//! What no clause says: that a worker alone publishes everything where there is memory, and when it stops.
ghost use Rattle.std.specs.Prelude.{◌≡◌, ◌<◌, [], IfOk, length, map};
ghost use Rattle.aff_model.specs.declared.limits.TheConstants as limits;
ghost use Rattle.aff_claim.specs.Views.{new_pass};

use crate::{Worker, work};
use aff_book::Book;
use aff_claim::{BookSeat, Claims, Pass};
use aff_extent::ExtentReader;
use aff_memory::{FixedDevice, MemoryFolder, MemoryReceipt};
use aff_model::{Extent, Named, Plan, SECTOR, Untold};
use aff_names::Uuid;
use aff_order::{Order, orders};
use aff_outside::{Device, OpenGate};
use aff_snapshot::{Publisher, Running, open};
use std::alloc::Global;
use std::marker::Brand;
use std::sync::{Mutex, Wait};
use std::test::Fail;

/// A chunk and one sector of another.
const LEN: u64 = 33_280;

// What one worker begins with, but for its device: a plan of three extents, of which none is claimed.
#[derive(Drop)]
struct Start {
    plan: Plan,
    volume: Uuid,
    claims: Claims,
    seat: BookSeat,
    publisher: Publisher<Untold, MemoryReceipt>,
    pass: Pass,
    order: Order,
    ghost three: { length plan.extents ≡ 3 },
    ghost sectors: { plan.block ≡ limits.SECTOR },
    ghost long: { plan.size ≡ 99840 },
    ghost table: { (claims.table.extents ≡ 3) × (claims.table.workers ≡ 1) × (seat.table ≡ claims.table) },
    ghost ranking: { claims.ranking.priorities ≡ map (λ e. e.priority) plan.extents },
    ghost fresh: { (seat.view.out ≡ []) × (publisher.pieces ≡ []) × (publisher.list.plan ≡ plan) },
    ghost first: { (pass.claims ≡ claims) × (pass.view ≡ new_pass 0) },
}

// What the worker left.
#[derive(Drop)]
struct Left {
    stopped: bool,
    memory: bool,
    running: bool,
    pieces: usize,
    calls: u64,
}

fn plan_of(alloc: Global) -> Result<Plan, Fail>
    ensures three { IfOk result (λ p. length p.extents ≡ 3) }
    ensures sectors { IfOk result (λ p. p.block ≡ limits.SECTOR) }
    ensures long { IfOk result (λ p. p.size ≡ 99840) }
{
    let extents = vec![in alloc; extent(0), extent(1), extent(2)]?;
    let plan = Plan::of(alloc, extents, 3 * LEN, SECTOR as u32)?;
    Ok(plan)
}

fn extent(number: u64) -> Extent
    requires { number < 3 }
{
    Extent {
        at: number * LEN,
        len: LEN,
        priority: 0,
    }
}

fn first_order(alloc: Global) -> Result<Order, Fail> {
    let mut all = orders(alloc, &[], 1)?;
    let order = all.pop().ok_or("no order")?;
    Ok(order)
}

fn begin(rt: &impl Wait, alloc: Global) -> Result<Start, Fail> {
    let plan = plan_of(alloc)?;
    let volume = Uuid::read("11111111-2222-4333-8444-555555555555").ok_or("no uuid")?;
    let (claims, mut seat) = Claims::new(alloc, &plan, 1)?;
    let pass = claims.register(&mut seat)?;
    let order = first_order(alloc)?;
    let (publisher, _) = open::<Untold, MemoryReceipt, _>(rt, alloc, &plan, 0)?;
    Ok(Start {
        plan,
        volume,
        claims,
        seat,
        publisher,
        pass,
        order,
    })
}

fn sevens(alloc: Global) -> Result<Vec<u8>, Fail>
    ensures { IfOk result (λ bytes. length bytes.items ≡ 99840) }
{
    let bytes = vec![in alloc; 7u8; 3 * LEN as usize]?;
    Ok(bytes)
}

// Lets the worker work, into a folder of which one call fails.
fn run<N: Named>(rt: &impl Wait, alloc: Global, start: Start, fail: u64) -> Result<Left, Fail>
    requires run { (start.plan ≡ N.run_plan) × (start.volume ≡ N.run_volume) × (start.claims.table.id ≡ N.run_table) }
    requires list { (start.publisher.list.book ≡ N.run_list) × (N.run_workers ≡ 1) × (N.run_opened ≡ 0) }
{
    let Start {
        plan,
        volume,
        claims,
        seat,
        publisher,
        pass,
        order,
    } = start;
    let folder = MemoryFolder::new(alloc, vec![in alloc; fail]?, Vec::new(alloc));
    let reader = ExtentReader::new(alloc, plan.extents())?;
    let device: Box<dyn Device> = Box::new(
        alloc,
        FixedDevice::new(sevens(alloc)?, Vec::new(alloc)),
    )?;
    let Ok(book) = Book::<Untold, N, MemoryFolder>::open(
        rt, alloc, folder, &plan, &volume, seat, publisher,
    ) else {
        return Err(Fail::new("no book"));
    };
    let book = Mutex::new(book);
    let running = Running::new(1);
    let worker = Worker {
        pass,
        device,
        order,
        reader,
    };
    let end = work(rt, &claims, &plan, &book, &running, &OpenGate, worker);
    let parts = book.into_inner().into_parts(rt);
    Ok(Left {
        stopped: end.stopped,
        memory: end.memory,
        running: running.any(),
        pieces: parts.pieces.len(),
        calls: parts.folder.calls(),
    })
}

fn leaves(rt: &impl Wait, alloc: Global, fail: u64) -> Result<Left, Fail> {
    let start = begin(rt, alloc)?;
    run::<Brand>(rt, alloc, start, fail)
}

#[test]
fn alone(rt: HostRuntime) -> Result<(), Fail> {
    let left = leaves(&rt, rt.alloc(), 0)?;
    assert!(rt; !left.stopped && !left.memory && !left.running);
    // Two chunks an extent.
    assert!(rt; left.pieces == 3 && left.calls == 6);
    Ok(())
}

#[test]
fn the_folder_fails(rt: HostRuntime) -> Result<(), Fail> {
    let left = leaves(&rt, rt.alloc(), 3)?;
    assert!(rt; left.stopped && !left.memory && !left.running);
    assert!(rt; left.pieces == 1 && left.calls == 3);
    Ok(())
}
