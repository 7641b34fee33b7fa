//! Where the chunks of an extent are kept.
ghost use Rattle.std.specs.Prelude.{◌≡◌, ◌+◌, ◌<◌, ◌^◌, ◌∷◌, [], length, IfOk};
ghost use Rattle.std.specs.List.{range_with_len};
ghost use Rattle.aff_model.specs.Legal.{numbers_of};
ghost use Rattle.aff_store.specs.Pieces.{IsPlaceOf, ArePlaces};

use aff_chunk::Cut;
use aff_model::Place;
use std::alloc::{AllocError, Global};

/// The place of a chunk, where the next stored one has this number, and the number that comes then.
fn place_of(cut: Cut, next: u64) -> (Place, u64)
    requires { next < 2 ^ 48 }
    ensures kept { IsPlaceOf cut result.0 }
    ensures numbered { numbers_of (result.0 ∷ []) ≡ range_with_len next (length (numbers_of (result.0 ∷ []))) }
    ensures next { result.1 ≡ next + length (numbers_of (result.0 ∷ [])) }
{
    match cut {
        Cut::Zero => (Place::Zero, next),
        Cut::Stored => (Place::Chunk(next), next + 1),
        Cut::Nothing => (Place::Nothing, next),
    }
}

/// The places of chunks that were cut so. Stored ones are numbered from `first` on.
pub fn places_of(alloc: Global, first: u64, cuts: &[Cut]) -> Result<Vec<Place>, AllocError>
    requires { first + length cuts.now < 2 ^ 48 }
    ensures { IfOk result (λ places. ArePlaces first cuts.now places.items) }
{
    let mut places = Vec::new(alloc);
    let mut next = first;
    for cut in cuts {
        let (place, behind) = place_of(*cut, next);
        places.push(place)?;
        next = behind;
    }
    Ok(places)
}
