//! What a run gives back.
use crate::fault::Fault;
use aff_outside::{Device, Examiner, Folder};

/// What a run gives back: its status, all that was handed in but the source and the sink, and the peeks that it made
/// of the folder, one for each session and each examiner.
#[derive(Drop)]
pub struct End<F: Folder> {
    pub status: u8,
    pub devices: Vec<Box<dyn Device>>,
    pub examiners: Vec<Box<dyn Examiner>>,
    pub folder: F,
    pub peeks: Vec<F::Peek>,
}

/// The report of a run or its fault, with what was handed in and the peeks that were made.
#[derive(Drop)]
pub struct Ended<F: Folder> {
    pub outcome: Result<Vec<u8>, Fault>,
    pub devices: Vec<Box<dyn Device>>,
    pub examiners: Vec<Box<dyn Examiner>>,
    pub folder: F,
    pub peeks: Vec<F::Peek>,
}
