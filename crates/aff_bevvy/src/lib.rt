//! The bevvies of a stream: its chunks one after another, 1,024 to a segment, each segment with an index of
//! points.
//!
//! `StreamWriter` appends a stream to a folder, chunk by chunk. `StreamReader` checks that a folder has a stream, and
//! reads its bytes.
#![tactic(auto)]

mod bevvies;
mod error;
mod index;
pub mod laws;
mod listed;
mod points;
mod reader;
mod segment;
#[cfg(test)]
mod tests;
mod writer;

pub use error::StreamError;
pub use listed::length_of;
pub use reader::StreamReader;
pub use writer::{Stored, StreamWriter};
