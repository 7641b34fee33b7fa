//! An extent's bytes as chunks: which of them are stored, and the bytes that a stored one has.
//!
//! `cut` tells for each chunk of an extent whether it is all zeros, is stored, or is not there at all;
//! `pad` fills a chunk of the stream.
#![tactic(auto)]

mod bytes;
mod chunks;
mod kind;
mod slice;

pub use bytes::pad;
pub use chunks::cut;
pub use kind::Cut;

#[cfg(test)]
mod tests;
