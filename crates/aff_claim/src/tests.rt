ghost use Rattle.std.specs.Prelude.{◌≡◌, ◌-◌, ◌<◌, ◌^◌, All, IfOk, length};
ghost use Rattle.aff_order.specs.Order.{IsOrder};

use crate::{BookSeat, Claims, Pass, Word};
use aff_model::{Extent, Plan, SECTOR};
use aff_order::{Order, orders};
use std::alloc::{AllocError, Global};
use std::test::Fail;
use std::thread;

// A pass with its suggestions, how many extents it has claimed, and the sum of their numbers.
#[derive(Drop)]
struct Runner {
    pass: Pass,
    order: Order,
    claimed: u64,
    sum: u64,
}

// A plan of sectors with these priorities, one behind the other.
fn plan_of(alloc: Global, priorities: &[u8]) -> Result<Plan, Fail>
    ensures { IfOk result (λ p. length p.extents ≡ length priorities.now) }
{
    let mut extents = Vec::new(alloc);
    for (number, priority) in priorities.iter().enumerate() {
        extents.push(Extent {
            at: (number as u64).saturating_mul(512),
            len: 512,
            priority: *priority,
        })?;
    }
    Ok(Plan::of(alloc, extents, 1 << 40, SECTOR as u32)?)
}

// A plan of so many sectors of priority 0.
fn plain_plan(alloc: Global, count: usize) -> Result<Plan, Fail>
    ensures { IfOk result (λ p. length p.extents ≡ count) }
{
    let priorities = vec![in alloc; 0u8; count]?;
    plan_of(alloc, &priorities)
}

// So many numbers, from 0 on.
fn numbers(alloc: Global, count: u32) -> Result<Vec<u32>, AllocError>
    ensures { IfOk result (λ v. IsOrder v.items) }
{
    let mut numbers = Vec::new(alloc);
    for number in 0..count {
        numbers.push(number)?;
    }
    Ok(numbers)
}

// Suggestions in the order of the numbers.
fn order_of(alloc: Global, count: u32) -> Result<Order, Fail> {
    let mut all = orders(alloc, &numbers(alloc, count)?, 1)?;
    Ok(all.pop().ok_or("no order")?)
}

// A runner for each worker.
fn runners(
    alloc: Global,
    claims: &Claims,
    seat: &mut BookSeat,
    workers: u32,
    extents: u32,
) -> Result<Vec<Runner>, Fail>
    requires table { seat.old.table ≡ claims.now.table }
    requires fresh { seat.old.view.made ≡ 0 }
    requires workers { (workers ≡ claims.now.table.workers) × (workers < 2 ^ 32 - 1) }
    ensures table { seat.new.table ≡ seat.old.table }
    ensures runners { IfOk result (λ v. All (λ r. (r.pass.claims ≡ claims.now) × (r.pass.view.number < claims.now.table.workers)) v.items) }
{
    let mut runners = Vec::new(alloc);
    for _ in 0..workers {
        let pass = claims.register(seat)?;
        let order = order_of(alloc, extents)?;
        runners.push(Runner {
            pass,
            order,
            claimed: 0,
            sum: 0,
        })?;
    }
    Ok(runners)
}

// Claims until nothing is free.
fn run(claims: &Claims, runner: &mut Runner)
    requires claims { runner.old.pass.claims ≡ claims.now }
    requires worker { runner.old.pass.view.number < claims.now.table.workers }
{
    for _ in 0..100_000 {
        let Some(extent) = claims.next(&mut runner.pass, &mut runner.order) else {
            break;
        };
        runner.claimed = runner.claimed.saturating_add(1);
        runner.sum = runner.sum.saturating_add(u64::from(extent));
    }
}

#[test]
fn two_passes_take_two_extents_in_turn(rt: HostRuntime) -> Result<(), Fail> {
    let alloc = rt.alloc();
    let plan = plan_of(alloc, &[0, 0])?;
    let (claims, mut seat) = Claims::new(alloc, &plan, 2)?;
    let mut first = claims.register(&mut seat)?;
    let mut second = claims.register(&mut seat)?;
    assert!(rt; first.number() == 0 && second.number() == 1);
    let mut ours = order_of(alloc, 2)?;
    let mut theirs = order_of(alloc, 2)?;
    let answers = [
        claims.next(&mut first, &mut ours),
        claims.next(&mut second, &mut theirs),
        claims.next(&mut second, &mut theirs),
        claims.next(&mut first, &mut ours),
    ];
    assert!(rt; answers == [Some(0), Some(1), None, None]);
    let ended = claims.close(seat)?;
    assert!(rt; ended.words.as_slice() == [Word::Claimed(0), Word::Claimed(1)].as_slice());
    Ok(())
}

#[test]
fn a_pass_goes_by_falling_priority(rt: HostRuntime) -> Result<(), Fail> {
    let alloc = rt.alloc();
    let plan = plan_of(alloc, &[0, 9, 5, 9])?;
    let (claims, mut seat) = Claims::new(alloc, &plan, 1)?;
    let mut pass = claims.register(&mut seat)?;
    let mut order = order_of(alloc, 4)?;
    let answers = [
        claims.next(&mut pass, &mut order),
        claims.next(&mut pass, &mut order),
        claims.next(&mut pass, &mut order),
        claims.next(&mut pass, &mut order),
        claims.next(&mut pass, &mut order),
    ];
    assert!(rt; answers == [Some(1), Some(3), Some(2), Some(0), None]);
    Ok(())
}

#[test]
fn looks_find_the_words(rt: HostRuntime) -> Result<(), Fail> {
    let alloc = rt.alloc();
    let plan = plan_of(alloc, &[0, 0])?;
    let (claims, mut seat) = Claims::new(alloc, &plan, 1)?;
    let mut worker = claims.register(&mut seat)?;
    let mut reader = claims.register(&mut seat)?;
    let mut order = order_of(alloc, 2)?;
    assert!(rt; claims.look(&mut reader, 0) == Word::Free);
    assert!(rt; claims.next(&mut worker, &mut order) == Some(0));
    assert!(rt; claims.look(&mut reader, 0) == Word::Claimed(0));
    assert!(rt; claims.book_look(&mut seat, 0) == Word::Claimed(0));
    assert!(rt; claims.book_look(&mut seat, 1) == Word::Free);
    let ended = claims.close(seat)?;
    assert!(rt; ended.words.as_slice() == [Word::Claimed(0), Word::Free].as_slice());
    Ok(())
}

#[test]
fn the_book_publishes_once_and_sweeps_the_rest(rt: HostRuntime) -> Result<(), Fail> {
    let alloc = rt.alloc();
    let plan = plan_of(alloc, &[0, 0])?;
    let (claims, mut seat) = Claims::new(alloc, &plan, 1)?;
    let mut worker = claims.register(&mut seat)?;
    let mut order = order_of(alloc, 2)?;
    assert!(rt; claims.next(&mut worker, &mut order) == Some(0));
    let first = claims.publish_step(&mut seat, 0, 0);
    let second = claims.publish_step(&mut seat, 0, 0);
    assert!(rt; first.is_ok() && matches!(second, Err(Word::Published(0))));
    assert!(rt; claims.sweep_claim(&mut seat, 1) == Word::Claimed(1));
    assert!(rt; claims.sweep_claim(&mut seat, 1) == Word::Claimed(1));
    assert!(rt; claims.sweep_claim(&mut seat, 0) == Word::Published(0));
    let ended = claims.close(seat)?;
    assert!(rt; ended.words.as_slice() == [Word::Published(0), Word::Claimed(1)].as_slice());
    Ok(())
}

#[test]
fn four_threads_claim_each_extent_once(rt: HostRuntime) -> Result<(), Fail> {
    let alloc = rt.alloc();
    let plan = plain_plan(alloc, 10_000)?;
    let (claims, mut seat) = Claims::new(alloc, &plan, 4)?;
    let mut all = runners(alloc, &claims, &mut seat, 4, 10_000)?;
    let shared = &claims;
    thread::for_each_mut(
        &rt,
        all.as_mut_slice(),
        4,
        &|_: usize, runner: &mut Runner|
            requires { (runner.old.pass.claims ≡ shared.now) × (runner.old.pass.view.number < shared.now.table.workers) }
        { run(shared, runner) },
    );
    let mut claimed: u64 = 0;
    let mut sum: u64 = 0;
    for runner in &all {
        claimed = claimed.saturating_add(runner.claimed);
        sum = sum.saturating_add(runner.sum);
    }
    assert!(rt; claimed == 10_000 && sum == 49_995_000);
    let ended = claims.close(seat)?;
    for word in &ended.words {
        assert!(rt; matches!(word, Word::Claimed(number) if *number < 4));
    }
    Ok(())
}

#[test]
fn claim_steps(rt: HostRuntime) -> Result<(), Fail> {
    let alloc = rt.alloc();
    let plan = plan_of(alloc, &[0, 0])?;
    let (claims, mut seat) = Claims::new(alloc, &plan, 1)?;
    let mut pass = claims.register(&mut seat)?;
    let mut order = order_of(alloc, 2)?;
    claims.raise(&mut pass, 1);
    let answers = [
        claims.next(&mut pass, &mut order),
        claims.next(&mut pass, &mut order),
        claims.next(&mut pass, &mut order),
    ];
    assert!(rt; answers == [Some(1), Some(0), None]);
    let first = claims.publish_step(&mut seat, 1, 0);
    let second = claims.publish_step(&mut seat, 1, 0);
    assert!(rt; first.is_ok() && matches!(second, Err(Word::Published(0))));
    let ended = claims.close(seat)?;
    assert!(rt; ended.words.as_slice() == [Word::Claimed(0), Word::Published(0)].as_slice());
    Ok(())
}

#[test]
fn what_was_asked_for_goes_first(rt: HostRuntime) -> Result<(), Fail> {
    let alloc = rt.alloc();
    let plan = plain_plan(alloc, 200)?;
    let (claims, mut seat) = Claims::new(alloc, &plan, 1)?;
    let mut worker = claims.register(&mut seat)?;
    let mut reader = claims.register(&mut seat)?;
    let mut order = order_of(alloc, 200)?;
    // the last one of each demand word, and one twice
    claims.raise(&mut reader, 199);
    claims.raise(&mut reader, 63);
    claims.raise(&mut reader, 127);
    claims.raise(&mut reader, 191);
    claims.raise(&mut reader, 63);
    let first = [
        claims.next(&mut worker, &mut order),
        claims.next(&mut worker, &mut order),
        claims.next(&mut worker, &mut order),
    ];
    assert!(rt; first == [Some(63), Some(127), Some(191)]);
    // one that is taken, and one more
    claims.raise(&mut reader, 127);
    claims.raise(&mut reader, 64);
    let then = [
        claims.next(&mut worker, &mut order),
        claims.next(&mut worker, &mut order),
        claims.next(&mut worker, &mut order),
    ];
    assert!(rt; then == [Some(64), Some(199), Some(0)]);
    Ok(())
}

#[test]
fn one_pass_claims_a_long_plan(rt: HostRuntime) -> Result<(), Fail> {
    let alloc = rt.alloc();
    let plan = plain_plan(alloc, 8_192)?;
    let (claims, mut seat) = Claims::new(alloc, &plan, 1)?;
    let pass = claims.register(&mut seat)?;
    let order = order_of(alloc, 8_192)?;
    let mut runner = Runner {
        pass,
        order,
        claimed: 0,
        sum: 0,
    };
    run(&claims, &mut runner);
    assert!(rt; runner.claimed == 8_192);
    Ok(())
}
