//! How far a run is, in one line.
ghost use Rattle.std.specs.Prelude.{◌≡◌, ◌↔◌, ◌<◌, ◌≤◌, length, IsTrue, IfOk};
ghost use Rattle.std.specs.String.{string_bytes};

use std::alloc::{AllocError, Global};

/// How many columns a line has at most.
pub(crate) const COLUMNS: usize = 79;

const MIB: u64 = 1_048_576;

/// How far a run is.
#[derive(Clone, Copy, Debug, PartialEq, Eq)]
pub(crate) struct Progress {
    /// How many extents are published.
    pub published: u64,
    /// How many extents the plan has.
    pub planned: u64,
    /// How many bytes were read.
    pub read: u64,
    /// How many bytes the plan has.
    pub planned_bytes: u64,
    /// How many extents had a block that could not be read.
    pub bad: u64,
    /// How many readers are at work.
    pub readers: u64,
    /// How many milliseconds have gone since the first reading.
    pub millis: u64,
}

/// A number of seconds: `7s`, `2m05s` or `3h12m`.
fn duration(alloc: Global, seconds: u64) -> Result<String, AllocError> {
    let minutes = seconds / 60;
    let hours = minutes / 60;
    if hours > 0 {
        format!(in alloc; "{hours}h{:02}m", minutes % 60)
    } else if minutes > 0 {
        format!(in alloc; "{minutes}m{:02}s", seconds % 60)
    } else {
        format!(in alloc; "{seconds}s")
    }
}

impl Progress {
    /// Whether each extent of the plan is published.
    pub fn is_done(&self) -> bool
        ensures { IsTrue result ↔ ((0 < self.now.planned) × (self.now.planned ≤ self.now.published)) }
    {
        self.planned > 0 && self.published >= self.planned
    }

    /// How many bytes were read in a second.
    fn rate(&self) -> u64 {
        self.read.saturating_mul(1000) / self.millis.max(1)
    }

    /// How many seconds are left at this rate, where there is one.
    fn seconds_left(&self) -> Option<u64> {
        self.planned_bytes
            .saturating_sub(self.read)
            .checked_div(self.rate())
    }

    /// The readers at work, and the time that is left.
    fn rest(&self, alloc: Global) -> Result<String, AllocError> {
        let readers = self.readers;
        let noun = if readers == 1 { "reader" } else { "readers" };
        match self.seconds_left() {
            Some(seconds) => {
                let left = duration(alloc, seconds)?;
                format!(in alloc; ", {readers} {noun}, {left} left")
            }
            None => format!(in alloc; ", {readers} {noun}"),
        }
    }

    /// The line: extents, bytes read and their rate, the time gone, readers at work and the time that is left. It is cut where
    /// it has more columns than a terminal.
    pub fn line(&self, alloc: Global) -> Result<String, AllocError>
        ensures { IfOk result (λ line. length (string_bytes line) ≤ COLUMNS) }
    {
        let published = self.published;
        let planned = self.planned;
        let bad = self.bad;
        let read = self.read / MIB;
        let rate = self.rate() / MIB;
        let gone = duration(alloc, self.millis / 1000)?;
        let mut line = format!(in alloc;
            "{published}/{planned} extents ({bad} bad), {read} MiB at {rate}/s, {gone}"
        )?;
        if !self.is_done() {
            line.push_str(self.rest(alloc)?.as_str())?;
        }
        cut(alloc, line)
    }
}

/// A line of at most `COLUMNS` bytes, all of which are ASCII.
fn cut(alloc: Global, line: String) -> Result<String, AllocError>
    ensures { IfOk result (λ cut. length (string_bytes cut) ≤ COLUMNS) }
{
    if line.len() <= COLUMNS {
        return Ok(line);
    }
    match line.get(..COLUMNS) {
        Some(front) => String::from_str(alloc, front),
        None => Ok(String::new(alloc)),
    }
}
