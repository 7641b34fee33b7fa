//! How often an adapter failed, and why it did so last.
ghost use Rattle.std.specs.Prelude.{◌≡◌, true};
ghost use Rattle.aff_model.specs.Causes.{HasCause};
ghost use Rattle.aff_outside.specs.Outcomes.{raised};

use std::io;
use std::marker::Model;

/// What failed last, for a person: the system's own words, of which no clause speaks.
pub trait LastError {
    /// Why the last call that failed did so; none where nothing failed.
    fn last_error(&self) -> Option<io::Error>;
}

/// A count that clauses see, and the last error, which is for a person alone: a trait's answer does not say why.
#[derive(Drop)]
pub(crate) struct Faults {
    count: u64,
    last: Option<io::Error>,
}

impl Model for Faults {
    ghost use Rattle.std.specs.Prelude.{ℕ};

    ghost Value = { ℕ };

    ghost view = { λ f. f.count };
}

impl Faults {
    /// Nothing failed yet.
    pub fn none() -> Faults
        ensures { result ≡ 0 }
    {
        Faults {
            count: 0,
            last: None,
        }
    }

    /// No call failed yet, but what the calls are made of could not be opened.
    pub fn at_opening(error: io::Error) -> Faults
        ensures { result ≡ 0 }
    {
        Faults {
            count: 0,
            last: Some(error),
        }
    }

    /// One more.
    pub fn add(&mut self, error: io::Error)
        ensures count { self.new ≡ raised self.old }
        ensures cause { HasCause self.old self.new (true ≡ true) }
    {
        self.count = self.count.saturating_add(1);
        self.last = Some(error);
    }

    /// Why it failed last.
    pub fn last(&self) -> Option<io::Error> {
        self.last
    }
}
