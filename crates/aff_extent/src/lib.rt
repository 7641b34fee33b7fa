//! The reading side of a run: an extent is read around the sectors that cannot be, cut into chunks, and the digests of
//! the chunks that are to be stored are taken, as they will stand in the stream, padding included.
//!
//! It knows no folder and no chunk number. What stores the extent takes the bytes and the `Draft` from here.
#![tactic(auto)]

mod chosen;
mod draft;
mod reader;

pub use draft::Draft;
pub use reader::ExtentReader;
