//! What is known of an extent that was read.
use aff_chunk::Cut;
use aff_hash::ChunkSums;
use std::marker::Model;

/// What was found of an extent beside its bytes: the sectors that could not be read (numbers in the extent, rising),
/// how each of its chunks is cut, which of them are to be stored (numbers in the extent, rising), and the digests of
/// these in their order, padding included.
#[derive(Drop)]
pub struct Draft {
    pub unreadable: Vec<u32>,
    pub cuts: Vec<Cut>,
    pub stored: Vec<usize>,
    pub sums: Vec<ChunkSums>,
}

impl Model for Draft {
    ghost use Rattle.aff_extent.specs.Drafts.{Drafted};

    ghost Value = { Drafted };

    ghost view = { λ d. record { unreadable = d.unreadable.items; cuts = d.cuts.items; stored = d.stored.items; sums = d.sums.items } };
}
