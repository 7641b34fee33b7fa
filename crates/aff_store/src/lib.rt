//! The storing side of a run: what was read of an extent is numbered, appended to the stream of the volume with its
//! block hashes, and kept as a piece with the receipts of its appends.
//!
//! It reads no device. `Stream` is a volume's stream while it is written; its `put` stores an extent and gives the
//! piece, which becomes a publication of the run's history.
#![tactic(auto)]

mod claim;
mod places;
mod store;
mod stream;
mod tagged;

pub use claim::Claim;
pub use stream::{MAX_STREAM, Stream};
