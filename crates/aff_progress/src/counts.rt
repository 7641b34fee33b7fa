//! What is counted of a run.
use crate::plan_count::PlanCount;
use crate::progress::Progress;
use std::sync::atomic::{AtomicU64, Ordering};

/// What is counted of a run, by any of its threads.
#[derive(Drop)]
pub(crate) struct Counts {
    planned: AtomicU64,
    planned_bytes: AtomicU64,
    published: AtomicU64,
    read: AtomicU64,
    bad: AtomicU64,
    /// A bit for each reader that has begun.
    readers: AtomicU64,
    /// A bit for each reader of whose extent a block could not be read.
    hurt: AtomicU64,
}

/// The bit of a reader. There are no more readers than bits.
fn bit_of(reader: usize) -> u64 {
    1 << (reader % 64)
}

impl Counts {
    pub fn new() -> Counts {
        Counts {
            planned: AtomicU64::new(0),
            planned_bytes: AtomicU64::new(0),
            published: AtomicU64::new(0),
            read: AtomicU64::new(0),
            bad: AtomicU64::new(0),
            readers: AtomicU64::new(0),
            hurt: AtomicU64::new(0),
        }
    }

    /// The plan has these extents so far.
    pub fn plan(&self, count: &PlanCount) {
        self.planned.store(count.extents(), Ordering::SeqCst);
        self.planned_bytes.store(count.bytes(), Ordering::SeqCst);
    }

    /// A reader begins with an extent.
    pub fn begin(&self, reader: usize) {
        let bit = bit_of(reader);
        self.hurt.fetch_and(!bit, Ordering::SeqCst);
        self.readers.fetch_or(bit, Ordering::SeqCst);
    }

    /// So many bytes were read.
    pub fn read(&self, bytes: usize) {
        self.read.fetch_add(bytes as u64, Ordering::SeqCst);
    }

    /// A block of a reader's extent could not be read.
    pub fn fail(&self, reader: usize) {
        let bit = bit_of(reader);
        if self.hurt.fetch_or(bit, Ordering::SeqCst) & bit == 0 {
            self.bad.fetch_add(1, Ordering::SeqCst);
        }
    }

    /// So many extents are published.
    pub fn publish(&self, front: u64) {
        self.published.fetch_max(front, Ordering::SeqCst);
    }

    /// How far the run is, so many milliseconds behind its first reading. No more readers are at work than extents are left.
    pub fn progress(&self, millis: u64) -> Progress {
        let published = self.published.load(Ordering::SeqCst);
        let planned = self.planned.load(Ordering::SeqCst);
        let begun = self.readers.load(Ordering::SeqCst).count_ones() as u64;
        Progress {
            published,
            planned,
            read: self.read.load(Ordering::SeqCst),
            planned_bytes: self.planned_bytes.load(Ordering::SeqCst),
            bad: self.bad.load(Ordering::SeqCst),
            readers: begun.min(planned.saturating_sub(published)),
            millis,
        }
    }
}
