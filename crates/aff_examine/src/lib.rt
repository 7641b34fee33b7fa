//! Examiners beside a run: each is shown every publication of the one history, once and in order.
//!
//! A `Follower` shows an examiner the pieces while the list of them grows, and behind the run's end the rest of it. What an
//! examiner has then is the fold of its own rule over the publications: each with its extent's bytes, which are 0 where a sector
//! could not be read. Bytes come through a peek of the folder, chunk by chunk, and are held against the digests of their pieces.
//! An `Examination` is an examiner with its follower and its fault, as a run has it. `Tally` is an examiner.
//!
//! No call but `open` takes memory, unless the examiner does, and none waits.
#![tactic(auto)]

mod error;
mod examination;
mod follower;
mod laws;
mod reader;
mod seeing;
mod tally;

pub use error::FollowError;
pub use examination::Examination;
pub use follower::Follower;
pub use laws::{folds_go_on, states_are_by_the_history};
pub use tally::Tally;
