//! The text of a plan, and the order in which its extents are wanted.
//!
//! A text has a line `extent AT LEN PRIORITY` for each extent. Empty lines and comments, which begin with `#`, are
//! skipped, and the plan ends before the first line that is exactly `session`, where a script begins.
#![tactic(auto)]

mod cut;
mod error;
mod line;
mod lines;
mod read;
mod script;
mod sorting;
mod write;

pub use cut::cut_at;
pub use error::PlanError;
pub use line::{is_skipped, number};
pub use read::read_plan;
pub use script::script_line;
pub use sorting::order;
pub use write::plan_text;

#[cfg(test)]
mod tests;
