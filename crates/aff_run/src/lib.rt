//! The run: a plan is acquired by as many workers as there are devices, while sessions are answered and examiners look on beside
//! them, and it ends in a finished volume.
//!
//! What a run is made of is made first. Workers, sessions and examiners run beside each other; what workers leave is published by the
//! sweep; sessions and followers learn the whole list, and examiners are shown the rest of it; then the volume is finished, and
//! sessions are answered what is left. Of the threads nothing is known but the type of the book that they shared and what each
//! session and each follower says of what it saw, and that is enough for what `acquire` promises.
#![tactic(auto)]

mod answering;
mod closing;
mod crew;
mod ending;
mod laws;
mod making;
mod run;
mod sweep;
mod tasks;
mod watching;

pub use ending::{Acquired, Run, RunEnd};
pub use laws::events_are_a_run_of_the_core;
pub use run::acquire;
