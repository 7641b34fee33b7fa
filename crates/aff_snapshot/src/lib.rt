//! The published list: one publisher adds pieces, and viewers look at the list while it grows.
//!
//! Each viewer has a beginning of the one list, which only grows, and no two pieces of which are of one extent. A look
//! waits for nobody and takes no memory. Publisher, viewers and told lists of one list are tied by its name; once a
//! viewer has learned a told list, their pieces are beginnings of one list.
//!
//! `left_right` shows the front, which is how far the list was published; `boxcar` holds the pieces; and a log of their
//! names, which `logbook` keeps, is what makes all that anyone has a beginning of one list.
#![tactic(auto)]

mod front;
mod listed;
mod log;
mod name;
mod opening;
mod publisher;
mod running;
mod shown;
mod take;
#[cfg(test)]
mod tests;
mod told;
mod viewer;

pub use name::Marked;
pub use opening::open;
pub use publisher::Publisher;
pub use running::Running;
pub use told::Told;
pub use viewer::Viewer;
