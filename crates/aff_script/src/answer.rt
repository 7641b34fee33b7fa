//! What a session's reads are answered, as a run gives it back.
use aff_model::Kind;
use std::marker::Model;

/// A run of an answer: bytes of one kind, the longest such. Offset and length are in bytes of the device.
#[derive(Clone, Copy, Debug, PartialEq, Eq)]
pub struct RunLine {
    pub at: u64,
    pub len: u64,
    pub kind: Kind,
    /// The SHA-256 of the run's bytes where they are known, else 32 zeros.
    pub sha256: [u8; 32],
}

/// The answer to a read: its range, in bytes of the device, how many publications it was answered by, and its runs, one
/// behind the other. Clauses see their list.
#[derive(Debug, Drop)]
pub struct Answer {
    pub at: u64,
    pub len: u64,
    pub front: u64,
    pub runs: Vec<RunLine>,
}

impl Model for Answer {
    ghost use Rattle.aff_script.specs.Answered.{Answered};

    ghost Value = { Answered };

    ghost view = { λ a. record { at = a.at; len = a.len; front = a.front; runs = a.runs.items } };
}
