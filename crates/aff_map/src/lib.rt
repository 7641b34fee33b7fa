//! The map of an image: its entries, made of the published pieces, the list of its targets, the map as it is read
//! back, and the bytes of the symbolic streams.
//!
//! `entries_of` gives the greatest runs of the image's bytes that lie behind one another in one target, and
//! `idx_text` the list that goes with them: an entry's target is 0 for the stored stream, 1 for zeros and 2 for
//! unreadable bytes. `Map` reads such segments, whatever the order of their entries and lines, and tells where each
//! byte comes from. `symbol` gives the bytes of targets that no stored stream has.
#![tactic(auto)]

mod entries;
mod entry;
mod error;
mod extent;
mod idx;
mod map;
mod order;
mod overlap;
mod run;
mod target;

pub use entries::entries_of;
pub use error::MapError;
pub use idx::idx_text;
pub use map::{Map, Spot};
pub use target::{Target, symbol};

#[cfg(test)]
mod tests;
