//! What a command line asks for: its words, and the devices that it is to read.
#![tactic(auto)]

mod devices;
mod finished;
mod line;
mod wanted;
mod words;

pub use devices::{Refusal, first_block, first_size, refused};
pub use finished::offline;
pub use line::refusal_line;
pub use wanted::{Offline, Outside};
pub use words::{acquisition, outside};

#[cfg(test)]
mod tests;
