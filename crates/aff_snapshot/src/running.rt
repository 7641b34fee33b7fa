//! How many workers run. Nothing is claimed of it.
use std::sync::atomic::{AtomicU64, Ordering};

/// Counts the workers that have not ended: a hint to those who look.
#[derive(Drop)]
pub struct Running {
    ended: AtomicU64,
    workers: u32,
}

impl Running {
    pub fn new(workers: u32) -> Running {
        Running {
            ended: AtomicU64::new(0),
            workers,
        }
    }

    /// One worker has ended.
    pub fn one_ended(&self) {
        self.ended.fetch_add(1, Ordering::SeqCst);
    }

    /// Whether some worker has not ended.
    pub fn any(&self) -> bool {
        self.ended.load(Ordering::SeqCst) < u64::from(self.workers)
    }
}
