//! The calls of an object, some of which are to fail.
ghost use Rattle.std.specs.Prelude.{◌≡◌, IsTrue};
ghost use Rattle.aff_model.specs.Causes.{HasCause};
ghost use Rattle.aff_memory.specs.Counted.{next_call, fails, counted};

use std::marker::Model;

/// The numbers of the calls that are to fail, and how many calls and failures there were. Both counts go up
/// to `u64::MAX` and stay there.
#[derive(Drop)]
pub struct Calls {
    fail: Vec<u64>,
    made: u64,
    faults: u64,
}

impl Model for Calls {
    ghost use Rattle.aff_memory.specs.Counted.{Counted};

    ghost Value = { Counted };

    ghost view = { λ c. record { fail = c.fail.items; made = c.made; faults = c.faults } };
}

impl Calls {
    pub fn new(fail: Vec<u64>) -> Calls
        ensures { result ≡ record { fail = fail.items; made = 0; faults = 0 } }
    {
        Calls {
            fail,
            made: 0,
            faults: 0,
        }
    }

    pub fn made(&self) -> u64
        ensures { result ≡ self.now.made }
    {
        self.made
    }

    /// Counts a call, and says whether it is to fail. A failure is counted too.
    pub fn fails(&mut self) -> bool
        ensures answer { result ≡ fails self.old }
        ensures counted { self.new ≡ counted self.old }
        ensures cause { HasCause self.old.faults self.new.faults (IsTrue result) }
    {
        self.made = self.made.saturating_add(1);
        let is_listed = self.fail.contains(&self.made);
        if is_listed {
            self.faults = self.faults.saturating_add(1);
        }
        is_listed
    }
}
