//! UUIDs, URNs, and the names of folders and segments that are made of them. Each is read once and is a value of its
//! type from then on.
//!
//! A URN is `aff4://`, a UUID, and nothing or a `/` with any text. Its folder is named by its text, with
//! each byte that a file name may lack percent_encoded as `%` and two digits.
#![tactic(auto)]

mod error;
mod laws;
mod segment;
mod urn;
mod uuid;

pub use error::NameError;
pub use laws::{folders_are_files, folders_differ, segments_differ};
pub use segment::{folder_name, named_segment, segment_name};
pub use urn::Urn;
pub use uuid::Uuid;

#[cfg(test)]
mod tests;
