//! The block hashes of a stream: for each bevvy one segment per hash function, with the digests of its
//! chunks in order, as raw bytes (AFF4 Standard v1.0, block hashes).
//!
//! `BlockHashes` is handed the digests of one chunk after another. Behind the last chunk of each bevvy it
//! appends that bevvy's three segments, and `finish` appends those of a bevvy that is not full. So the
//! appends of a whole stream are those of its bevvies, each with the digests of its own chunks: this is the
//! law `bevvy_by_bevvy`. `check` compares a chunk with what a segment has of it.
#![tactic(auto)]

mod answer;
mod hashes;
mod laws;
mod recorded;
mod segment;

pub use answer::Check;
pub use hashes::BlockHashes;
pub use laws::bevvy_by_bevvy;
pub use recorded::check;

#[cfg(test)]
mod tests;
