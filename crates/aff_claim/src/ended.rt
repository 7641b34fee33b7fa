//! What is left of a table.
use crate::Word;
use std::marker::Model;

/// The claim words of a table that was closed, by extent.
#[derive(Drop)]
pub struct Ended {
    pub words: Vec<Word>,
}

impl Model for Ended {
    ghost use Rattle.aff_claim.specs.Values.{LastWords};

    ghost Value = { LastWords };

    ghost view = { λ e. record { words = e.words.items } };
}
