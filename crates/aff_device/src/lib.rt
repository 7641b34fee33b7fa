//! Reading an extent around the blocks that cannot be read.
//!
//! A range that cannot be read as a whole is read in halves, block by block at last. The device's count of faults
//! rises by at least one for each block that is called unreadable; that it was a reading of this very block that
//! failed is tested. `read_extent` takes no memory: `reserve_bad` takes it before.
#![tactic(auto)]

mod extent;
mod part;
#[cfg(test)]
mod tests;

pub use extent::{read_extent, reserve_bad};
