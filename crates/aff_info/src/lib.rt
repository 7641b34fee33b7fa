//! The metadata of a volume: sixteen statements, as triples.
//!
//! `to_triples` states them, and `of_triples` reads them back from any triples that state each of them exactly once,
//! in whatever order and among whatever else.
#![tactic(auto)]

mod accept;
mod draft;
mod error;
mod fits;
mod info;
mod laws;
mod name;
mod one;
mod read;
mod schema;
mod value;
mod write;

pub use error::InfoError;
pub use info::{Info, InfoRead};
pub use laws::reads_back;
pub use name::InfoName;
pub use read::of_triples;
pub use write::to_triples;

#[cfg(test)]
mod tests;
