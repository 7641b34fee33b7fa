//! What sessions ask.
use std::marker::Model;

/// One request of a session. Offsets and lengths are in bytes of the device.
#[derive(Clone, Copy, Debug, PartialEq, Eq)]
pub enum Request {
    /// What is known of these bytes is to be answered. The length may be 0.
    Read { at: u64, len: u64 },
    /// The extents of these bytes are to be taken before others. The length may be 0.
    Raise { at: u64, len: u64 },
    /// The next request waits until so many publications were seen.
    Await(u64),
    /// The requests behind it are asked when all was published. Only reads stand there.
    After,
}

/// The requests of a session, in the order in which it asks them. Clauses see their list.
#[derive(Debug, Drop)]
pub struct Session {
    pub requests: Vec<Request>,
}

impl Model for Session {
    ghost use Rattle.std.specs.Prelude.{List};
    ghost use Rattle.aff_script.specs.declared.script.Request.{Request};

    ghost Value = { List Request };

    ghost view = { λ s. s.requests.items };
}

/// The sessions of a run, which are numbered in this order from 1. Clauses see the list of their requests' lists.
#[derive(Debug, Drop)]
pub struct Script {
    pub sessions: Vec<Session>,
}

impl Model for Script {
    ghost use Rattle.std.specs.Prelude.{List};
    ghost use Rattle.aff_script.specs.declared.script.Request.{Request};

    ghost Value = { List (List Request) };

    ghost view = { λ s. s.sessions.items };
}
