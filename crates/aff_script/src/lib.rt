//! The script behind a plan: what sessions ask while a run goes on.
//!
//! A script begins with the first line of a text that is exactly `session`. Each such line begins a session, and the
//! lines behind it are the session's requests: `read AT LEN`, `raise AT LEN`, `await COUNT` and `after`. Empty lines
//! and comments, which begin with `#`, are skipped.
#![tactic(auto)]

mod answer;
mod begin;
mod cases;
mod error;
mod line;
mod read;
mod rules;
mod script;

pub use answer::{Answer, RunLine};
pub use begin::split;
pub use cases::{lines_have_numbers, lines_say, sessions_say};
pub use error::ScriptError;
pub use read::read_script;
pub use script::{Request, Script, Session};

#[cfg(test)]
mod tests;
