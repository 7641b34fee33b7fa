//! The sweep: what no worker published is read and published by the run's own thread.
ghost use Rattle.std.specs.Prelude.{◌≡◌, ◌<◌, ◌≤◌, ℕ, Some, true, All, Contains, IfSome, length, map};
ghost use Rattle.aff_outside.specs.Kept.{IsSameDevice};
ghost use Rattle.aff_book.specs.Pages.{run_of, table_of};
ghost use Rattle.aff_run.specs.Devices.{AreKept, Fits};

use aff_book::{Book, Put};
use aff_claim::{Claims, Word};
use aff_extent::ExtentReader;
use aff_model::{Case, Memory, Named, Plan};
use aff_outside::{Device, Folder};
use aff_store::Claim;
use aff_worker::read_planned;
use std::alloc::Global;
use std::sync::Wait;

/// Publishes what is not published, read from the first device.
pub(crate) fn sweep_by_first<C: Case, N: Named, F: Folder, W: Wait>(
    rt: &W,
    alloc: Global,
    claims: &Claims,
    plan: &Plan,
    book: &mut Book<C, N, F>,
    devices: &mut Vec<Box<dyn Device>>,
) -> bool
    requires claims { claims.now.table ≡ table_of (run_of C.Case N.Named) }
    requires plan { plan.now ≡ N.run_plan }
    requires some { 0 < length devices.old.items }
    requires devices { All (λ d. Fits C.content plan.now (λ d. device_content d) (λ d. device_block d) (λ d. device_size d) d) devices.old.items }
    ensures whole { result ≡ true → (k : ℕ) → k < length plan.now.extents → Contains (map (λ p. p.extent) book.new.pieces) k }
    ensures kept { AreKept (λ d. device_content d) (λ d. device_block d) (λ d. device_size d) (λ d. device_faults d) devices.old.items devices.new.items }
{
    sweep(rt, alloc, claims, plan, book, &mut *devices[0])
}

// Publishes each extent that is not published, in their order, up to the first that cannot be. Answers whether each
// extent is published.
fn sweep<C: Case, N: Named, F: Folder, W: Wait>(
    rt: &W,
    alloc: Global,
    claims: &Claims,
    plan: &Plan,
    book: &mut Book<C, N, F>,
    device: &mut dyn Device,
) -> bool
    requires claims { claims.now.table ≡ table_of (run_of C.Case N.Named) }
    requires plan { plan.now ≡ N.run_plan }
    requires size { device_size device.old ≡ plan.now.size }
    requires block { device_block device.old ≡ plan.now.block }
    requires told { IfSome C.content (λ c. device_content device.old ≡ Some c) }
    ensures whole { result ≡ true → (k : ℕ) → k < length plan.now.extents → Contains (map (λ p. p.extent) book.new.pieces) k }
    ensures kept { IsSameDevice (λ d. device_content d) (λ d. device_block d) (λ d. device_size d) (λ d. device_faults d) device.old device.new }
{
    let count = plan.extents().len();
    for number in 0..count {
        if !sweep_one(rt, alloc, claims, plan, book, device, number as u32) {
            return false;
        }
    }
    true
}

// Publishes an extent under the number that its word names, or under that of the workers, unless it is published.
fn sweep_one<C: Case, N: Named, F: Folder, W: Wait>(
    rt: &W,
    alloc: Global,
    claims: &Claims,
    plan: &Plan,
    book: &mut Book<C, N, F>,
    device: &mut dyn Device,
    number: u32,
) -> bool
    requires claims { claims.now.table ≡ table_of (run_of C.Case N.Named) }
    requires plan { plan.now ≡ N.run_plan }
    requires planned { number < length plan.now.extents }
    requires size { device_size device.old ≡ plan.now.size }
    requires block { device_block device.old ≡ plan.now.block }
    requires told { IfSome C.content (λ c. device_content device.old ≡ Some c) }
    ensures published { result ≡ true → Contains (map (λ p. p.extent) book.new.pieces) number }
    ensures stay { (k : ℕ) → Contains (map (λ p. p.extent) book.old.pieces) k → Contains (map (λ p. p.extent) book.new.pieces) k }
    ensures once { Contains (map (λ p. p.extent) book.old.pieces) number → (book.new.pieces ≡ book.old.pieces) × (device.new ≡ device.old) }
    ensures kept { IsSameDevice (λ d. device_content d) (λ d. device_block d) (λ d. device_size d) (λ d. device_faults d) device.old device.new }
{
    let claimant = match book.sweep(claims, number) {
        Word::Published(_) => return true,
        Word::Claimed(claimant) => claimant,
        Word::Free => unreachable!(),
    };
    let Ok(mut reader) = reader_for(alloc, plan, number) else {
        return false;
    };
    let Ok(draft) = read_planned::<C>(plan, number, device, &mut reader) else {
        return false;
    };
    let claim = Claim {
        extent: number,
        claimant,
        swept: true,
    };
    matches!(
        book.put(rt, claims, claim, draft, reader.bytes()),
        Put::Done(_)
    )
}

// A reader with room for one extent.
fn reader_for(alloc: Global, plan: &Plan, number: u32) -> Result<ExtentReader, Memory>
    requires { number < length plan.now.extents }
{
    let number = number as usize;
    ExtentReader::new(alloc, &plan.extents()[number..number + 1])
}
