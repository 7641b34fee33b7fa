//! Suggestions: which extent a worker may try next.
//!
//! A suggestion is only a hint. The claim table checks each one, so nothing rests on where it comes from.
#![tactic(auto)]

mod order;
#[cfg(test)]
mod tests;

pub use order::{Order, orders};
