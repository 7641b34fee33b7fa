//! The claim table: which worker reads which extent.
//!
//! Each extent has a word that says who claimed it and whether it was published. Workers claim by single atomic
//! exchanges, without a lock and without waiting; each acts through a pass of its own, which keeps what it found. Whoever
//! has a pass may ask for an extent, and workers take what was asked for first.
//! The claim rule (`specs/Rule.antt`) holds between any two steps of any number of passes.
#![tactic(auto)]

mod book;
mod claims;
mod demands;
mod ended;
mod looks;
mod next;
mod pass;
mod publish;
mod ranking;
mod rule;
#[cfg(test)]
mod tests;
mod view;
mod word;

pub use book::BookSeat;
pub use claims::Claims;
pub use ended::Ended;
pub use pass::Pass;
pub use view::{BookView, Last, PassView, View};
pub use word::Word;
