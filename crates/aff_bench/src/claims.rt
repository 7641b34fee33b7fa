//! What it costs to claim each extent of the longest plan by one pass.
ghost use Rattle.std.specs.Prelude.{◌≡◌, ◌<◌, IfOk};

use aff_claim::{Claims, Pass};
use aff_model::{Extent, MAX_EXTENTS, MAX_PRIORITY, Plan, PlanFault, SECTOR};
use aff_order::{Order, orders};
use aff_plan::order;
use std::alloc::{AllocError, Global};

/// So many sectors, one an extent, each priority by turns.
fn sectors(alloc: Global, count: usize) -> Result<Vec<Extent>, AllocError> {
    let mut extents = Vec::with_capacity(alloc, count)?;
    let mut priority = 0;
    for number in 0..count {
        extents.push(Extent {
            at: SECTOR.saturating_mul(number as u64),
            len: SECTOR,
            priority,
        })?;
        priority = if priority < MAX_PRIORITY {
            priority + 1
        } else {
            0
        };
    }
    Ok(extents)
}

/// Claims for a pass until it knows every extent to be taken, and answers how many it claimed.
fn claim_all(claims: &Claims, pass: &mut Pass, order: &mut Order) -> usize
    requires table { pass.old.claims ≡ claims.now }
    requires worker { pass.old.view.number < claims.now.table.workers }
{
    for claimed in 0..MAX_EXTENTS {
        if claims.next(pass, order).is_none() {
            return claimed;
        }
    }
    MAX_EXTENTS
}

/// A table for one worker over a plan of the most extents, each claimed by its pass; answers how many were.
pub fn claims_of_one_pass(alloc: Global) -> Option<usize> {
    let extents = sectors(alloc, MAX_EXTENTS).ok()?;
    let size = SECTOR * MAX_EXTENTS as u64;
    let plan = Plan::of(alloc, extents, size, SECTOR as u32).ok()?;
    let numbers = order(alloc, &plan).ok()?;
    let mut orders = orders(alloc, &numbers, 1).ok()?;
    let (claims, mut seat) = Claims::new(alloc, &plan, 1).ok()?;
    let mut pass = claims.register(&mut seat).ok()?;
    Some(claim_all(&claims, &mut pass, orders.first_mut()?))
}
