//! What no clause says: that calls succeed where there is memory, and what looks see while a list grows.
ghost use Rattle.std.specs.Prelude.{◌≡◌, ◌+◌, ◌<◌, [], ◌∷◌, false, IfOk, All, length};
ghost use Rattle.std.specs.Arc.{arc_value};
ghost use Rattle.aff_model.specs.declared.publication.Place.TheVariants as place;
ghost use Rattle.aff_model.specs.declared.limits.TheConstants as limits;

use crate::{Publisher, Running, Viewer, open};
use aff_model::{Extent, Memory, Piece, Place, Plan, SECTOR, Untold};
use aff_outside::Telling;
use std::alloc::{AllocError, Global};
use std::sync::{Arc, Wait};
use std::test::Fail;

// A receipt that tells nothing.
#[derive(Drop)]
struct Receipt;

impl Telling for Receipt {
    ghost use Rattle.std.specs.Prelude.{[], false};

    ghost receipt_tells = { false };

    ghost told = { λ _. [] };
}

// A piece of one chunk of zeros.
fn zeros(alloc: Global, extent: u32) -> Result<Arc<Piece<Receipt>>, AllocError>
    ensures { IfOk result (λ p. arc_value p ≡ record { extent = extent; claimant = 0; swept = false; bad = []; places = place.Zero ∷ []; digests = []; receipts = [] }) }
{
    let places = vec![in alloc; Place::Zero]?;
    let piece = Piece {
        extent,
        claimant: 0,
        swept: false,
        bad: Vec::new(alloc),
        places,
        digests: Vec::new(alloc),
        receipts: Vec::new(alloc),
    };
    let shared = Arc::new(alloc, piece)?;
    Ok(shared)
}

// A plan of five sectors, each an extent.
fn plan_of(alloc: Global) -> Result<Plan, Fail>
    ensures count { IfOk result (λ p. length p.extents ≡ 5) }
    ensures sectors { IfOk result (λ p. All (λ e. e.len ≡ limits.SECTOR) p.extents) }
{
    let extents = vec![in alloc; sector(0), sector(1), sector(2), sector(3), sector(4)]?;
    let plan = Plan::of(alloc, extents, 5 * SECTOR, 512)?;
    Ok(plan)
}

fn sector(number: u64) -> Extent
    requires { number < 5 }
    ensures { result.len ≡ limits.SECTOR }
{
    Extent {
        at: number * SECTOR,
        len: SECTOR,
        priority: 0,
    }
}

// Publishes the zeros of an extent, where only earlier ones were published.
fn publish_zeros(
    rt: &impl Wait,
    alloc: Global,
    publisher: &mut Publisher<Untold, Receipt>,
    extent: u32,
) -> Result<u64, Memory>
    requires planned { extent < length publisher.old.list.plan.extents }
    requires sectors { All (λ e. e.len ≡ limits.SECTOR) publisher.old.list.plan.extents }
    requires later { All (λ p. p.extent < extent) publisher.old.pieces }
    ensures list { publisher.new.list ≡ publisher.old.list }
    ensures later { All (λ p. p.extent < extent + 1) publisher.new.pieces }
{
    let Ok(piece) = zeros(alloc, extent) else {
        return Err(Memory);
    };
    publisher.publish(rt, piece)
}

// Whether the viewer has the pieces of the first extents, so many, in their order.
fn has_first(viewer: &Viewer<Untold, Receipt>, count: usize) -> bool {
    let pieces = viewer.pieces();
    pieces.len() == count
        && pieces
            .iter()
            .enumerate()
            .all(|(place, piece)| piece.extent as usize == place)
}

// Publishes the first two pieces, and answers whether a viewer sees each after it was published and none before.
fn sees_two(
    rt: &impl Wait,
    alloc: Global,
    publisher: &mut Publisher<Untold, Receipt>,
    viewer: &mut Viewer<Untold, Receipt>,
) -> Result<bool, Memory>
    requires count { length publisher.old.list.plan.extents ≡ 5 }
    requires sectors { All (λ e. e.len ≡ limits.SECTOR) publisher.old.list.plan.extents }
    requires none { publisher.old.pieces ≡ [] }
{
    let mut sees = viewer.look() == 0;
    sees &= publish_zeros(rt, alloc, publisher, 0)? == 1;
    sees &= has_first(viewer, 0);
    sees &= viewer.look() == 1 && has_first(viewer, 1);
    sees &= publish_zeros(rt, alloc, publisher, 1)? == 2;
    sees &= viewer.look() == 2 && has_first(viewer, 2);
    Ok(sees)
}

#[test]
fn a_viewer_has_what_it_saw(rt: HostRuntime) -> Result<(), Fail> {
    let alloc = rt.alloc();
    let plan = plan_of(alloc)?;
    let (mut publisher, mut viewers) = open::<Untold, Receipt, _>(&rt, alloc, &plan, 2)?;
    let Some(mut viewer) = viewers.pop() else {
        return Err(Fail::new("no viewer"));
    };
    let Some(mut idle) = viewers.pop() else {
        return Err(Fail::new("one viewer"));
    };
    assert!(rt; sees_two(&rt, alloc, &mut publisher, &mut viewer)?);
    assert!(rt; has_first(&idle, 0));
    assert!(rt; idle.look() == 2);
    publisher.end(&rt);
    assert!(rt; viewer.look() == 2 && has_first(&viewer, 2));
    Ok(())
}

#[test]
fn a_list_is_learned_until_it_ends(rt: HostRuntime) -> Result<(), Fail> {
    let alloc = rt.alloc();
    let plan = plan_of(alloc)?;
    let (mut publisher, mut viewers) = open::<Untold, Receipt, _>(&rt, alloc, &plan, 1)?;
    let Some(mut viewer) = viewers.pop() else {
        return Err(Fail::new("no viewer"));
    };
    let told = publisher.tell();
    assert!(rt; viewer.learn(told));
    let late = publisher.tell();
    publisher.end(&rt);
    assert!(rt; !viewer.learn(late));
    Ok(())
}

#[test]
fn no_viewer(rt: HostRuntime) -> Result<(), Fail> {
    let alloc = rt.alloc();
    let plan = plan_of(alloc)?;
    let (publisher, viewers) = open::<Untold, Receipt, _>(&rt, alloc, &plan, 0)?;
    assert!(rt; viewers.is_empty());
    publisher.end(&rt);
    Ok(())
}

#[test]
fn a_hint_counts_workers(rt: HostRuntime) -> Result<(), Fail> {
    let running = Running::new(2);
    assert!(rt; running.any());
    running.one_ended();
    assert!(rt; running.any());
    running.one_ended();
    assert!(rt; !running.any());
    Ok(())
}
