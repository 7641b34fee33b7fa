//! The report of a run: the plan's volume, each publication in its order, what sessions were answered, what examiners
//! found, and the digests of the image; and the line of a chunk that is found damaged.
#![tactic(auto)]

pub mod cases;
mod comma;
mod damage;
mod digests;
mod examiners;
mod history;
mod laws;
mod places;
mod sectors;
mod sessions;

pub use damage::damaged_line;
pub use digests::digest_lines;
pub use examiners::examiner_lines;
pub use history::report;
pub use laws::a_text_determines_its_report;
pub use sessions::session_lines;

#[cfg(test)]
mod tests;
