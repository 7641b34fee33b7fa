//! What a worker does.
ghost use Rattle.std.specs.Prelude.{◌≡◌, ℕ, ◌<◌, ◌≤◌, false, Contains, Some, length, map, IfSome};
ghost use Rattle.aff_model.specs.Index.{extent_at};
ghost use Rattle.aff_outside.specs.Kept.{IsSameDevice};
ghost use Rattle.aff_extent.specs.Drafts.{IsDraft};
ghost use Rattle.aff_claim.specs.Next.{KnowsAll};
ghost use Rattle.aff_book.specs.Pages.{run_of, table_of};
ghost use Rattle.aff_worker.specs.Working.{HasFound};

use crate::{WorkEnd, Worker, read_planned};
use aff_book::{Book, Put};
use aff_claim::{Claims, Pass, Word};
use aff_extent::Draft;
use aff_model::{Case, Memory, Named, Plan};
use aff_outside::{Device, Folder, Gate, GateStep};
use aff_snapshot::Running;
use aff_store::Claim;
use std::marker::Model;
use std::sync::{Mutex, Wait};
use std::thread;

/// Claims extents, reads them and puts them, until the pass knows each extent to be taken, or a put or the memory for one
/// fails. The gate is told of each reading and each publication, with no lock held. It may wait for the book, and for the
/// words of extents that it put.
pub fn work<C: Case, N: Named, F: Folder, G: Gate, W: Wait>(
    rt: &W,
    claims: &Claims,
    plan: &Plan,
    book: &Mutex<Book<C, N, F>>,
    running: &Running,
    gate: &G,
    worker: Worker,
) -> WorkEnd
    requires claims { claims.now.table ≡ table_of (run_of C.Case N.Named) }
    requires plan { plan.now ≡ N.run_plan }
    requires ranking { claims.now.ranking.priorities ≡ map (λ e. e.priority) plan.now.extents }
    requires pass { worker.pass.claims ≡ claims.now }
    requires number { worker.pass.view.number < N.run_workers }
    requires size { device_size worker.device ≡ plan.now.size }
    requires block { device_block worker.device ≡ plan.now.block }
    requires told { IfSome C.content (λ c. device_content worker.device ≡ Some c) }
    ensures pass { result.pass.claims ≡ worker.pass.claims }
    ensures number { result.pass.view.number ≡ worker.pass.view.number }
    ensures kept { IsSameDevice (λ d. device_content d) (λ d. device_block d) (λ d. device_size d) (λ d. device_faults d) worker.device result.device }

    // Without a flag it knows every extent to be taken, and has found each extent that it claimed published under its number.
    ensures known { result.stopped ≡ false → result.memory ≡ false → KnowsAll (length plan.now.extents) result.pass.view }
    ensures published { result.stopped ≡ false → result.memory ≡ false → (e : ℕ) → Contains result.pass.view.mine e → HasFound worker.pass.view result.pass.view e }
{
    let mut worker = worker;
    let mut stopped = false;
    let mut memory = false;
    for _ in rt.forever() {
        let Some(extent) = claims.next(&mut worker.pass, &mut worker.order) else {
            break;
        };
        match read_and_put(rt, claims, plan, book, gate, &mut worker, extent) {
            Put::Done(_) | Put::NotYours(_) => wait_for(rt, claims, &mut worker.pass, extent),
            Put::Failed | Put::Stopped => {
                stopped = true;
                break;
            }
            Put::Memory => {
                memory = true;
                break;
            }
        }
    }
    running.one_ended();
    WorkEnd {
        device: worker.device,
        pass: worker.pass,
        stopped,
        memory,
    }
}

// Reads an extent that the worker claimed, and puts it.
fn read_and_put<C: Case, N: Named, F: Folder, G: Gate, W: Wait>(
    rt: &W,
    claims: &Claims,
    plan: &Plan,
    book: &Mutex<Book<C, N, F>>,
    gate: &G,
    worker: &mut Worker,
    extent: u32,
) -> Put
    requires claims { claims.now.table ≡ table_of (run_of C.Case N.Named) }
    requires plan { plan.now ≡ N.run_plan }
    requires number { worker.old.pass.view.number < N.run_workers }
    requires planned { extent < length plan.now.extents }
    requires size { device_size worker.old.device ≡ plan.now.size }
    requires block { device_block worker.old.device ≡ plan.now.block }
    requires told { IfSome C.content (λ c. device_content worker.old.device ≡ Some c) }
    ensures pass { worker.new.pass ≡ worker.old.pass }
    ensures kept { IsSameDevice (λ d. device_content d) (λ d. device_block d) (λ d. device_size d) (λ d. device_faults d) worker.old.device worker.new.device }
{
    let claimant = worker.pass.number();
    gate.at(GateStep::Reading(claimant));
    let Ok(draft) = read_planned::<C>(plan, extent, &mut *worker.device, &mut worker.reader) else {
        return Put::Memory;
    };
    let claim = Claim {
        extent,
        claimant,
        swept: false,
    };
    let answer = put(rt, claims, book, claim, draft, worker.reader.bytes());
    if let Put::Done(front) = answer {
        gate.at(GateStep::Published(front));
    }
    answer
}

// Puts what was read, with the book's lock for as long.
fn put<C: Case, N: Named, F: Folder, W: Wait>(
    rt: &W,
    claims: &Claims,
    book: &Mutex<Book<C, N, F>>,
    claim: Claim,
    draft: Draft,
    bytes: &[u8],
) -> Put
    requires claims { claims.now.table ≡ table_of (run_of C.Case N.Named) }
    requires planned { claim.extent < length N.run_plan.extents }
    requires worker { claim.claimant < N.run_workers }
    requires read { IsDraft C.content N.run_plan.block (extent_at N.run_plan.extents claim.extent) bytes.now draft }
{
    let mut guard = book.lock(rt);
    guard.put(rt, claims, claim, draft, bytes)
}

// Looks at the word of an extent of the pass until it says that the extent is published.
fn wait_for<W: Wait>(rt: &W, claims: &Claims, pass: &mut Pass, extent: u32)
    requires claims { pass.old.claims ≡ claims.now }
    requires planned { extent < claims.now.table.extents }
    requires mine { Contains pass.old.view.mine extent }
    ensures claims { pass.new.claims ≡ pass.old.claims }
    ensures number { pass.new.view.number ≡ pass.old.view.number }
    ensures mine { pass.new.view.mine ≡ pass.old.view.mine }
    ensures known { (e : ℕ) → Contains pass.old.view.known e → Contains pass.new.view.known e }
    ensures before { (e : ℕ) (word : Word) → Contains pass.old.view.found (e, word) → Contains pass.new.view.found (e, word) }
    ensures published { Contains pass.new.view.found (extent, Word.Published pass.old.view.number) }
{
    for _ in rt.forever() {
        match claims.look(pass, extent) {
            Word::Published(_) => break,
            Word::Free | Word::Claimed(_) => thread::yield_now(),
        }
    }
}
