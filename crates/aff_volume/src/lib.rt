//! A finished volume, read from its folder.
//!
//! Finishing a volume is `aff_finish`'s, which a run needs without the reading; its call is handed on here, beside
//! what opens what it leaves.
//!
//! `Volume::open` finds what the metadata name and whether all of it is there: the stream with its indexes and its block
//! hashes, the map and the list of its targets. What an opened volume gives is read from the folder when it is asked
//! for.
#![tactic(auto)]

mod block_map;
mod chunk;
mod error;
mod kinds;
mod linear;
mod metadata;
mod read;
mod segments;
mod symbols;
mod tables;
mod volume;

pub use aff_finish::{Hashes, finish};
pub use chunk::Difference;
pub use error::{VolumeError, VolumeReadError};
pub use volume::Volume;
