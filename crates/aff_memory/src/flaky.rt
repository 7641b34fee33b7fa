//! A sector that fails at first.
ghost use Rattle.std.specs.Prelude.{◌≡◌, ◌&&◌, nat_lt};

/// A sector and how many readings that touch it are to fail.
#[derive(Clone, Copy, Debug, PartialEq, Eq)]
pub struct Flaky {
    pub sector: u64,
    pub times: u32,
}

impl Flaky {
    ghost use Rattle.aff_memory.specs.Flaked.{in_range, worn};

    fn is_in(&self, first: u64, end: u64) -> bool
        ensures { result ≡ in_range first end self.now.sector }
    {
        first <= self.sector && self.sector < end
    }

    /// Whether a reading of these sectors touches this one while it fails.
    pub(crate) fn still_fails(&self, first: u64, end: u64) -> bool
        ensures { result ≡ (in_range first end self.now.sector && nat_lt 0 self.now.times) }
    {
        self.is_in(first, end) && 0 < self.times
    }

    /// Counts a reading of these sectors.
    pub(crate) fn wear(&mut self, first: u64, end: u64)
        ensures { self.new ≡ worn first end self.old }
    {
        if self.is_in(first, end) {
            self.times = self.times.saturating_sub(1);
        }
    }
}
