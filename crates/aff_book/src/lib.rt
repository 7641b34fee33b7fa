//! The value behind the one lock of a run: what is read of an extent is stored and hashed, and only then published.
//!
//! A book has the folder, the volume's stream, the pieces, the book's seat at the claim table and the publisher of the
//! list, and its type keeps that they agree (the book rule, `specs/Rule.antt`). It is known by its type alone, so the type
//! names the run that it is of. `put` is the one way by which a piece comes into being.
#![tactic(auto)]

mod book;
mod parts;
mod publishing;
mod put;
#[cfg(test)]
mod tests;

pub use book::Book;
pub use parts::{BookParts, BookRefused};
pub use put::Put;
