//! The events that make a history, and what may be wrong with them.
use aff_model::Publication;

/// One step of a run.
#[derive(Debug, Drop)]
pub enum Event {
    /// A pass takes an extent for itself.
    Claim {
        claimant: u32,
        extent: u32,
    },
    /// A claimed extent joins the history.
    Publish {
        publication: Publication,
    },
    /// A session reads a range, in bytes, after so many publications.
    Read {
        session: u32,
        at: u64,
        len: u64,
        front: u64,
    },
    /// A session asks for an extent to be read soon.
    Raise {
        session: u32,
        extent: u32,
    },
    /// All is published.
    Finish,
}

/// The event is no step from the present state.
#[derive(Clone, Copy, Debug, PartialEq, Eq)]
pub struct Refused;

/// Why a list of events gives no state: the place of the first event that is no step, from 0, or want of
/// memory.
#[derive(Clone, Copy, Debug, PartialEq, Eq)]
pub enum CoreError {
    Refused(u64),
    Memory,
}
