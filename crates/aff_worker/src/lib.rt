//! A worker: it claims extents, reads them with its own device, and puts what it read into the run's book, until nothing is
//! left to claim.
//!
//! Reading, cutting and the digests of the chunks are its own; the book's lock is held for a put alone. What comes out of the
//! lock is the type of the book, so what a worker leaves is said of its device and of its pass.
#![tactic(auto)]

mod job;
mod reading;
#[cfg(test)]
mod tests;
mod worker;

pub use job::work;
pub use reading::read_planned;
pub use worker::{WorkEnd, Worker};
