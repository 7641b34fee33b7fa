//! A gate that keeps what it was told.
use aff_model::Memory;
use aff_outside::{Gate, GateStep};
use std::alloc::{Alloc, Global};
use std::sync::Wait;
use std::sync::atomic::{AtomicBool, Ordering};

/// Keeps each step that a run told it of, from any thread, in the order in which they came. It holds no step back.
///
/// It borrows what waits, since a step is kept by a list whose next part another thread may be making, and `Gate::at` is not
/// handed it.
#[derive(Drop)]
pub struct RecordingGate<'a, W: Wait> {
    rt: &'a W,
    told: boxcar::Vec<GateStep>,
    lost: AtomicBool,
}

impl<W: Alloc<A = Global> + Wait> RecordingGate<'_, W> {
    pub fn new(rt: &W) -> Result<RecordingGate<'_, W>, Memory> {
        Ok(RecordingGate {
            rt,
            told: boxcar::Vec::new(rt.alloc()).map_err(|_| Memory)?,
            lost: AtomicBool::new(false),
        })
    }

    /// The steps so far. Want of memory, now or when a step came, is `Memory`: what is answered is never short of a step.
    pub fn steps(&self) -> Result<Vec<GateStep>, Memory> {
        if self.lost.load(Ordering::SeqCst) {
            return Err(Memory);
        }
        let mut steps = Vec::new(self.rt.alloc());
        let told = self.told.iter();
        for (_, step) in told {
            steps.push(*step).map_err(|_| Memory)?;
        }
        Ok(steps)
    }
}

impl<W: Wait + Sync> Gate for RecordingGate<'_, W> {
    fn at(&self, step: GateStep) {
        if self.told.push(self.rt, step).is_err() {
            self.lost.store(true, Ordering::SeqCst);
        }
    }
}
