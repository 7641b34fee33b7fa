//! Digests: of bytes that lie in one piece, of a stored chunk, of an extent's stored chunks side by side in lanes
//! (`aff_lanes`), and of an image that comes piece by piece; and the line that states one.
#![tactic(auto)]

mod beside;
mod chosen;
mod fed;
mod kind;
mod line;
mod linear;
mod whole;

pub use chosen::{chunk, padded_end, sums_of_chosen};
pub use kind::{ChunkSums, Digest, Digests, Hash};
pub use line::hex_line;
pub use linear::Linear;
pub use whole::{chunk_sums, digest};

#[cfg(test)]
mod tests;
