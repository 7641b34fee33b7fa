//! Live reads: an analyst looks at an image while it grows, and is answered by a beginning of its one history.
//!
//! `Analyst::read` looks once at the published list and answers by the pieces that were published by then; `read_all`
//! answers by given pieces. An answer is the range's bytes, with letters at bytes that could not be read and at those that
//! nobody has published, and its greatest runs of one kind. Bytes come through a peek of the folder, chunk by chunk, and
//! are held against the digests of their pieces. Each read asks the claim table for what it missed; `Analyst::raise` asks
//! for a range without reading it. No call but `open` takes memory, and none waits.
#![tactic(auto)]

mod analyst;
mod bad;
mod by_place;
mod chunk;
mod error;
mod fetch;
mod letters;
mod raise;
mod range;
mod reads;
mod run_list;
mod sectors;
mod seen;

pub use analyst::Analyst;
pub use error::ReadError;
pub use run_list::RunList;
