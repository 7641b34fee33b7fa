//! The entries of a map.
ghost use Rattle.std.specs.Prelude.{◌≡◌, ◌+◌, ◌%◌, ◌≤◌, ◌<◌, ◌^◌, map, All, IfOk, OnOk};
ghost use Rattle.aff_model.specs.History.{publication_of};
ghost use Rattle.aff_fields.specs.Entry.{FitsEntry};
ghost use Rattle.aff_spec.specs.Runs.{AreGreatestRuns, history_spot, published_spot};
ghost use Rattle.aff_map.specs.Building.{Adds};
ghost use Rattle.aff_model.specs.Pieces.{published};
ghost use Rattle.aff_map.specs.Mappable.{AreMappable, IsMappable};

use crate::extent::push_extent;
use crate::order::turns;
use aff_fields::Entry;
use aff_model::{Extent, MAX_EXTENT, Memory, Piece, Plan};
use std::alloc::{AllocError, Global};
use std::sync::Arc;

/// The entries of the map of published pieces, in the order of the image.
///
/// It takes time for each chunk and for each sector of a chunk that has an unreadable one, and sorts the
/// pieces by their places. What it holds beside the entries is one record per piece.
pub fn entries_of<R: Drop>(
    alloc: Global,
    plan: &Plan,
    pieces: &[Arc<Piece<R>>],
) -> Result<Vec<Entry>, Memory>
    requires { AreMappable plan.now.extents (map published pieces.now) }
    ensures runs { IfOk result (λ v. AreGreatestRuns (history_spot plan.now.extents (map published pieces.now)) v.items) }
    ensures inside { IfOk result (λ v. All (λ e. e.at + e.len ≤ plan.now.size) v.items) }
    ensures fits { IfOk result (λ v. All FitsEntry v.items) }
{
    runs_of(alloc, plan, pieces).map_err(|_| Memory)
}

// The runs of all pieces, one after another.
fn runs_of<R: Drop>(
    alloc: Global,
    plan: &Plan,
    pieces: &[Arc<Piece<R>>],
) -> Result<Vec<Entry>, AllocError>
    requires { AreMappable plan.now.extents (map published pieces.now) }
    ensures runs { IfOk result (λ v. AreGreatestRuns (history_spot plan.now.extents (map published pieces.now)) v.items) }
    ensures inside { IfOk result (λ v. All (λ e. e.at + e.len ≤ plan.now.size) v.items) }
    ensures fits { IfOk result (λ v. All FitsEntry v.items) }
{
    // No extent ends behind the device, whose size is a `u64`.
    let _size = plan.size();
    let turns = turns(alloc, plan.extents(), pieces)?;
    let mut entries = Vec::new(alloc);
    for turn in &turns {
        push_piece(&mut entries, turn.extent, &pieces[turn.number])?;
    }
    Ok(entries)
}

// Adds the runs of a piece.
fn push_piece<R: Drop>(
    entries: &mut Vec<Entry>,
    extent: Extent,
    piece: &Piece<R>,
) -> Result<(), AllocError>
    requires whole { (extent.at % 512 ≡ 0) × (extent.len % 512 ≡ 0) }
    requires short { extent.len ≤ MAX_EXTENT }
    requires fits { extent.at + extent.len < 2 ^ 64 }
    requires mappable { IsMappable extent (publication_of piece.now) }
    ensures { OnOk result (Adds extent.at (extent.at + extent.len) (published_spot extent (publication_of piece.now)) entries.old.items entries.new.items) }
{
    push_extent(entries, extent, &piece.bad, &piece.places)
}
