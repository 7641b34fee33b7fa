//! How a run ends.
use aff_finish::Hashes;
use aff_model::Piece;
use aff_outside::{Device, Examiner, Folder, Telling};
use aff_script::Answer;
use std::sync::Arc;

/// What was acquired: the pieces in the order of their publication, what each session was answered, in the script's order, what
/// each examiner found, in their order, and the hashes of the finished volume.
#[derive(Drop)]
pub struct Acquired<R: Telling> {
    pub pieces: Vec<Arc<Piece<R>>>,
    pub sessions: Vec<Vec<Answer>>,
    pub findings: Vec<Vec<u8>>,
    pub hashes: Hashes,
}

/// How a run ended: with the whole volume, all answers and all findings; because the folder failed, or a peek of it; because a
/// session or an examiner was given other bytes than were recorded of a chunk; or for want of memory.
#[derive(Drop)]
pub enum RunEnd<R: Telling> {
    Done(Acquired<R>),
    Failed,
    /// The number of the chunk, and its SHA-256 as its piece records it and as it was found.
    Damaged {
        chunk: u64,
        recorded: [u8; 32],
        found: [u8; 32],
    },
    Memory,
}

/// What a run hands back: its end, the devices and the examiners in their order, the folder, and the peeks that it took from it.
#[derive(Drop)]
pub struct Run<F: Folder> {
    pub end: RunEnd<F::Receipt>,
    pub devices: Vec<Box<dyn Device>>,
    pub examiners: Vec<Box<dyn Examiner>>,
    pub folder: F,
    pub peeks: Vec<F::Peek>,
}
