//! Where it is shown how far a run is.
use crate::counts::Counts;
use crate::plan_count::PlanCount;
use crate::progress::Progress;
use aff_outside::{Gate, GateStep};
use std::alloc::{AllocError, Global};
use std::io;
use std::io::{IsTerminal, Print};
use std::sync::atomic::{AtomicBool, AtomicU64, Ordering};
use std::time::Instant;

/// How many milliseconds stand between two writings of the line.
const PERIOD: u64 = 500;

/// What is shown behind the last line.
const HASHING: &str = "All is stored. The volume is read back and hashed.";

/// Shows on standard error how far a run is, where that is a terminal; else it only counts. It is the gate of the run.
#[derive(Drop)]
pub struct Board {
    rt: HostRuntime,
    counts: Counts,
    /// When it was made; none where nothing is shown.
    made: Option<Instant>,
    /// The milliseconds from then to the first reading.
    begun: AtomicU64,
    /// The milliseconds from then to when the line may be written again.
    due: AtomicU64,
    /// Whether a thread writes the line.
    is_writing: AtomicBool,
    /// Whether the line stands without its line feed.
    is_open: AtomicBool,
    /// Whether the last line was written.
    is_closed: AtomicBool,
}

impl Board {
    /// A board for a run that begins.
    pub fn new(rt: HostRuntime) -> Board {
        let made = if rt.stderr().is_terminal() {
            Instant::now(&rt).ok()
        } else {
            None
        };
        Board {
            rt,
            counts: Counts::new(),
            made,
            begun: AtomicU64::new(u64::MAX),
            due: AtomicU64::new(0),
            is_writing: AtomicBool::new(false),
            is_open: AtomicBool::new(false),
            is_closed: AtomicBool::new(false),
        }
    }

    /// The plan has these extents so far.
    pub(crate) fn plan(&self, count: &PlanCount) {
        self.counts.plan(count);
    }

    /// So many bytes were read.
    pub(crate) fn read(&self, bytes: usize) {
        self.counts.read(bytes);
        self.show();
    }

    /// A block of a reader's extent could not be read.
    pub(crate) fn fail(&self, reader: usize) {
        self.counts.fail(reader);
        self.show();
    }

    /// Ends a line that stands open, as that of a run that ended early.
    pub(crate) fn end(&self) {
        if self.is_open.swap(false, Ordering::SeqCst) {
            let _ = self.rt.eprint("\n");
        }
    }

    /// How many milliseconds have gone since the board was made.
    fn now(&self) -> Option<u64> {
        let gone = self.made?.elapsed(&self.rt).ok()?;
        Some(
            gone.as_secs()
                .saturating_mul(1000)
                .saturating_add(gone.subsec_millis() as u64),
        )
    }

    // Whether the line is to be written: for the last time when all is published, before that when it is time.
    fn is_due(&self, now: u64, progress: &Progress) -> bool {
        if self.is_closed.load(Ordering::SeqCst) {
            return false;
        }
        progress.is_done() || self.due.load(Ordering::SeqCst) <= now
    }

    /// How far the run is, so many milliseconds behind the board's making.
    pub(crate) fn progress(&self, now: u64) -> Progress {
        let begun = self.begun.fetch_min(now, Ordering::SeqCst).min(now);
        self.counts.progress(now - begun)
    }

    // Writes the line where it is due, unless another thread does. That thread looks again behind its writing, so that the last
    // publication is shown.
    fn show(&self) {
        let Some(now) = self.now() else {
            return;
        };
        for _ in 0..2 {
            if !self.is_due(now, &self.progress(now))
                || self.is_writing.swap(true, Ordering::SeqCst)
            {
                return;
            }
            self.write(now);
            self.is_writing.store(false, Ordering::SeqCst);
        }
    }

    // Writes the line where it is still due.
    fn write(&self, now: u64) {
        let progress = self.progress(now);
        if !self.is_due(now, &progress) {
            return;
        }
        self.due.store(now.saturating_add(PERIOD), Ordering::SeqCst);
        self.is_open.store(!progress.is_done(), Ordering::SeqCst);
        self.is_closed.store(progress.is_done(), Ordering::SeqCst);
        if let Ok(text) = shown(self.rt.alloc(), &progress) {
            let _ = self.rt.eprint(text.as_str());
        }
    }
}

/// The line over the one before, which is no longer; the last one with its line feed, and with what comes next.
fn shown(alloc: Global, progress: &Progress) -> Result<String, AllocError> {
    let line = progress.line(alloc)?;
    if progress.is_done() {
        format!(in alloc; "\r{line:<79}\n{HASHING}\n")
    } else {
        format!(in alloc; "\r{line:<79}")
    }
}

impl Gate for Board {
    fn at(&self, step: GateStep) {
        match step {
            GateStep::Reading(reader) => self.counts.begin(reader as usize),
            GateStep::Published(front) => self.counts.publish(front),
            GateStep::Asking(_) | GateStep::Answered(_, _) => return,
        }
        self.show();
    }
}
