//! The image that the publications of any number of workers make in any order, and its volume: its stream and its map
//! in a folder, and what they read as. There is no code here but laws; `specs/` has a file for each subject, and `proofs/`
//! what a run that stores has to cite. How a volume is finished is `aff_finish`'s.
#![tactic(auto)]

pub mod cases;
pub mod laws;
