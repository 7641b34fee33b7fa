//! Whether a volume holds what it records of itself.
//!
//! `verify` opens a volume and compares everything that is recorded with what is held: the block hashes chunk by chunk, the
//! linear hashes, and the block map hash.
#![tactic(auto)]

mod digests;
mod finding;
mod verdict;

pub use finding::{Finding, Verdict};
pub use verdict::verify;
