//! The order of pieces in the image.
ghost use Rattle.std.specs.Prelude.{◌<◌, map, All, AllPairs, IfOk};
ghost use Rattle.aff_model.specs.Plan.{AreApart};
ghost use Rattle.aff_model.specs.Pieces.{published};
ghost use Rattle.aff_map.specs.Mappable.{AreMappable};
ghost use Rattle.aff_map.specs.Turns.{AreGathered, AreTurns};

use aff_model::{Extent, Piece};
use std::alloc::{AllocError, Global};
use std::sync::Arc;

// A piece by its number among the pieces, and its extent.
#[derive(Clone, Copy)]
pub(crate) struct Turn {
    pub(crate) extent: Extent,
    pub(crate) number: usize,
}

// The pieces in the order of the image.
pub(crate) fn turns<R: Drop>(
    alloc: Global,
    extents: &[Extent],
    pieces: &[Arc<Piece<R>>],
) -> Result<Vec<Turn>, AllocError>
    requires mappable { AreMappable extents.now (map published pieces.now) }
    requires apart { AllPairs AreApart extents.now }
    requires some { All (λ e. 0 < e.len) extents.now }
    ensures { IfOk result (λ v. AreTurns extents.now (map published pieces.now) v.items) }
{
    let mut turns = gathered(alloc, extents, pieces)?;
    turns.sort_by_key(|turn| turn.extent.at)?;
    Ok(turns)
}

// The pieces in their own order.
fn gathered<R: Drop>(
    alloc: Global,
    extents: &[Extent],
    pieces: &[Arc<Piece<R>>],
) -> Result<Vec<Turn>, AllocError>
    requires { AreMappable extents.now (map published pieces.now) }
    ensures { IfOk result (λ v. AreGathered extents.now (map published pieces.now) v.items) }
{
    let mut turns = Vec::new(alloc);
    for (number, piece) in pieces.iter().enumerate() {
        let extent = extents[piece.extent as usize];
        turns.push(Turn { extent, number })?;
    }
    Ok(turns)
}
