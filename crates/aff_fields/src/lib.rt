//! The fields of an AFF4 volume: a point of an index in 12 bytes, an entry of a map in 28, both in
//! little-endian numbers, and lists of them; and the buffers that segments are read into.
#![tactic(auto)]

mod buffer;
mod entry;
mod error;
mod point;

pub use buffer::zeros;
pub use entry::{Entry, read_entries, read_entry, write_entries, write_entry};
pub use error::FieldsError;
pub use point::{Point, read_point, read_points, write_point, write_points};

#[cfg(test)]
mod tests;
