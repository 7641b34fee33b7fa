//! The linear hashes of an image whose segments are in a folder.
//!
//! `hash_image` reads an image back in its order: stored bytes from the bevvies of its stream, all others as
//! its map's entries and the gaps between them say. Bytes come to the hasher in whole pieces, through one
//! buffer.
#![tactic(auto)]

mod feeder;
mod image;
mod stored;
mod symbols;

pub use image::hash_image;
