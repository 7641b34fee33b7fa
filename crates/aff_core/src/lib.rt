//! The one history of a run, as a pure machine of one thread: who claims which extent, what is published and
//! in which order, and what is known of each place after it. It is what the threads are said to show.
#![tactic(auto)]

mod event;
mod law;
mod machine;
mod runs;
mod standing;
mod state;

pub use event::{CoreError, Event, Refused};
pub use law::laws;
pub use machine::run;
pub use state::State;
