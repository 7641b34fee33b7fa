//! What the program does over a machine: its words, the devices that they name, a folder and the standard streams are
//! handed to the top call, and what failed is told on standard error in the system's words. A program's main calls `run` and ends with its status; `run_for`
//! takes the words from its caller.
#![tactic(auto)]

mod devices;
mod machine;
#[cfg(test)]
mod tests;
mod told;
mod usage;
mod words;

pub use machine::{run, run_for};
