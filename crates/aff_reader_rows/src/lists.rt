//! Published lists of two sectors of zeros.
ghost use Rattle.std.specs.Prelude.{◌≡◌, ◌<◌, [], ◌∷◌, false, IfOk, IfSome, All, length, suc};
ghost use Rattle.std.specs.Arc.{arc_value};
ghost use Rattle.aff_model.specs.declared.limits.TheConstants as limits;
ghost use Rattle.aff_model.specs.declared.publication.Place.TheVariants as place;

use crate::pieces::Shared;
use crate::silent::SilentReceipt;
use aff_model::{Extent, Memory, Piece, Place, Plan, SECTOR, Untold};
use aff_snapshot::{Publisher, Viewer, open};
use std::alloc::{AllocError, Global};
use std::sync::{Arc, Wait};
use std::test::Fail;

/// A plan of two sectors, each an extent.
pub fn sectors(alloc: Global) -> Result<Plan, Fail>
    ensures size { IfOk result (λ p. p.size ≡ 1024) }
    ensures count { IfOk result (λ p. length p.extents ≡ 2) }
    ensures sectors { IfOk result (λ p. All (λ e. e.len ≡ limits.SECTOR) p.extents) }
{
    let extents = vec![in alloc; sector_at(0), sector_at(512)]?;
    let plan = Plan::of(alloc, extents, 2 * SECTOR, SECTOR as u32)?;
    Ok(plan)
}

fn sector_at(at: u64) -> Extent
    ensures { result ≡ record { at = at; len = limits.SECTOR; priority = 0 } }
{
    Extent {
        at,
        len: SECTOR,
        priority: 0,
    }
}

/// A piece of one chunk of zeros.
fn zeros(alloc: Global, extent: u32) -> Result<Shared<SilentReceipt>, AllocError>
    ensures { IfOk result (λ p. arc_value p ≡ record { extent = extent; claimant = 0; swept = false; bad = []; places = place.Zero ∷ []; digests = []; receipts = [] }) }
{
    let piece = Piece {
        extent,
        claimant: 0,
        swept: false,
        bad: Vec::new(alloc),
        places: vec![in alloc; Place::Zero]?,
        digests: Vec::new(alloc),
        receipts: Vec::new(alloc),
    };
    let shared = Arc::new(alloc, piece)?;
    Ok(shared)
}

/// Publishes the zeros of an extent, behind those of the extents before it.
pub fn publish(
    rt: &impl Wait,
    alloc: Global,
    publisher: &mut Publisher<Untold, SilentReceipt>,
    extent: u32,
) -> Result<u64, Memory>
    requires planned { extent < length publisher.old.list.plan.extents }
    requires sectors { All (λ e. e.len ≡ limits.SECTOR) publisher.old.list.plan.extents }
    requires new { All (λ p. p.extent < extent) publisher.old.pieces }
    ensures list { publisher.new.list ≡ publisher.old.list }
    ensures pieces { All (λ p. p.extent < suc extent) publisher.new.pieces }
{
    let Ok(piece) = zeros(alloc, extent) else {
        return Err(Memory);
    };
    publisher.publish(rt, piece)
}

/// A list of a plan, and who looks at it, if there is anyone.
pub fn looked_at(
    rt: &impl Wait,
    alloc: Global,
    plan: &Plan,
) -> Result<
    (
        Publisher<Untold, SilentReceipt>,
        Option<Viewer<Untold, SilentReceipt>>,
    ),
    Fail,
>
    ensures plan { IfOk result (λ r. r.0.list.plan ≡ plan.now) }
    ensures none { IfOk result (λ r. r.0.pieces ≡ []) }
    ensures list { IfOk result (λ r. IfSome r.1 (λ v. v.list ≡ r.0.list)) }
    ensures viewer { IfOk result (λ r. IfSome r.1 (λ v. v.list.plan ≡ plan.now)) }
{
    let (publisher, mut viewers) = open::<Untold, SilentReceipt, _>(rt, alloc, plan, 1)?;
    let viewer = viewers.pop();
    Ok((publisher, viewer))
}
