//! How a volume is finished: the stream is ended, and behind it stand the map, the list of its targets, and what the
//! volume says of itself.
//!
//! `finish` makes these appends in their order, the metadata last, and takes the hashes that the metadata state: the
//! linear hashes of the image, and the block map hash, both of what the folder has.
#![tactic(auto)]

mod block_map;
mod container;
mod feed;
mod hashes;
mod laws;
mod pending;
mod segments;
mod volume;

pub use block_map::{feed_block_hashes, feed_digest};
pub use hashes::Hashes;
pub use laws::{may_finish, may_stop, may_stop_behind};
pub use volume::finish;
