//! A gate is told of each step of a run.

/// A step of a run: worker `w` goes to read an extent for the first time; a publication has made the front
/// this number; session `s` asks; session `s` was answered at this front. Workers are counted from 0, and
/// sessions from 1.
#[derive(Clone, Copy, Debug, PartialEq, Eq)]
pub enum GateStep {
    Reading(u32),
    Published(u64),
    Asking(u32),
    Answered(u32, u64),
}

pub trait Gate: Sync {
    /// Told of a step by the thread that makes it, with no lock held. It promises nothing, and may wait.
    fn at(&self, step: GateStep);
}

/// A gate that does nothing.
#[derive(Drop)]
pub struct OpenGate;

impl Gate for OpenGate {
    fn at(&self, _step: GateStep) {}
}
