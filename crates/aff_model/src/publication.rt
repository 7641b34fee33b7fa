//! One published extent.
use std::marker::Model;

/// Where a chunk of an extent is kept: it is all zeros, it is a chunk of the stream by its number, or
/// none of its sectors could be read.
#[derive(Clone, Copy, Debug, PartialEq, Eq)]
pub enum Place {
    Zero,
    Chunk(u64),
    Nothing,
}

/// One published extent: its number in the plan, who read it, whether the sweep published it, which of
/// its sectors could not be read (numbers inside the extent, rising), and where its chunks are kept (one
/// place per chunk; chunk `j` is the extent's bytes from `32768 * j` on).
#[derive(Debug, Drop)]
pub struct Publication {
    pub extent: u32,
    pub claimant: u32,
    pub swept: bool,
    pub bad: Vec<u32>,
    pub places: Vec<Place>,
}

impl Model for Publication {
    ghost use Rattle.aff_model.specs.History.{Published};

    ghost Value = { Published };

    ghost view = { λ p. record { extent = p.extent; claimant = p.claimant; swept = p.swept; bad = p.bad.items; places = p.places.items } };
}
