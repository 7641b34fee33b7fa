//! What is shown on the terminal while a run goes on: one line, rewritten as the run gets on.
//!
//! A `Board` counts and shows, and is the run's gate. What passes through main's devices, source and sink is counted on it by
//! `WatchedDevice`, `WatchedSource` and `WatchedSink`, which contracts see as what they hold. No step waits for a lock, and what
//! cannot be shown changes nothing.
#![tactic(auto)]

mod board;
mod counts;
mod plan_count;
mod progress;
#[cfg(test)]
mod tests;
mod watched;

pub use board::Board;
pub use watched::{WatchedDevice, WatchedSink, WatchedSource};
