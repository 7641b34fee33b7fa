//! The words that all crates of the imager share: extents and the plan that they form, cells of an
//! image, publications and the history that they form, and what a run is said to be about.
#![tactic(auto)]

mod case;
mod cell;
mod extent;
mod limits;
mod piece;
mod plan;
mod publication;

pub use case::{Case, Named, Untold};
pub use cell::{Cell, Kind, Run};
pub use extent::{Extent, Memory};
pub use limits::{
    BEVVY, CHUNK, CHUNK_SECTORS, LARGE_BLOCK, MAX_CHUNKS, MAX_DEVICES, MAX_EXAMINERS, MAX_EXTENT,
    MAX_EXTENT_CHUNKS, MAX_EXTENTS, MAX_PRIORITY, MAX_READ, MAX_REQUESTS, MAX_RUNS, MAX_SESSIONS,
    MAX_SIZE, MAX_TEXT, MAX_TOTAL, SECTOR, TURNS,
};
pub use piece::Piece;
pub use plan::{Plan, PlanFault};
pub use publication::{Place, Publication};
