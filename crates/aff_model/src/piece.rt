//! A published extent with what proves that its chunks were stored.
use crate::Place;
use std::marker::Model;

/// A publication with the SHA-256 digest and the receipt of each stored chunk, in order.
#[derive(Drop)]
pub struct Piece<R: Drop> {
    pub extent: u32,
    pub claimant: u32,
    pub swept: bool,
    pub bad: Vec<u32>,
    pub places: Vec<Place>,
    pub digests: Vec<[u8; 32]>,
    pub receipts: Vec<R>,
}

impl<R: Drop> Model for Piece<R> {
    ghost use Rattle.aff_model.specs.History.{Part};

    ghost Value = { Part R };

    ghost view = { λ p. record {
      extent = p.extent;
      claimant = p.claimant;
      swept = p.swept;
      bad = p.bad.items;
      places = p.places.items;
      digests = p.digests.items;
      receipts = p.receipts.items;
    } };
}
