//! A session of a run: an analyst asks what a script wants to know, and keeps the answers.
//!
//! While workers go on, a session looks at the published list before each of its reads and is answered by what is published
//! then; behind `after` it is answered by the whole list. It ends at its first fault. Its answers are by beginnings of the one
//! history that do not fall, and each known run of them has the SHA-256 of its bytes.
#![tactic(auto)]

mod asking;
mod fault;
mod laws;
mod lines;
mod looker;
mod parts;
mod session;

pub use fault::SessionFault;
pub use laws::answers_are_by_the_history;
pub use session::{Session, SessionParts};
