//! A subset of Turtle, read exactly and written in one spelling.
//!
//! `read` takes exactly the texts that the grammar gives, as triples in the text's order, and refuses each other one at
//! its first token that does not continue the grammar. `write` spells triples out, a line each; what it writes is read
//! as those triples.
#![tactic(auto)]

mod class;
mod error;
mod grammar;
mod laws;
mod names;
mod number;
mod prefixes;
mod quoted;
mod reader;
mod refusal;
mod state;
mod text;
mod token;
mod tokens;
mod triple;
mod writer;

pub use error::TurtleError;
pub use laws::{decides, reads_back, refuses_once, says_once, takes_or_refuses};
pub use reader::read;
pub use triple::{Object, Triple};
pub use writer::write;

#[cfg(test)]
mod tests;
