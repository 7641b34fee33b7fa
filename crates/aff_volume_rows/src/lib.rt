//! Worked cases: one small volume, and folders that differ from it in one place, as `aff_volume` opens and reads them,
//! `aff_verify` compares them, and `aff_offline` tells of them.
#![tactic(auto)]

#[cfg(test)]
mod offline;
#[cfg(test)]
mod sample;
#[cfg(test)]
mod verify;
#[cfg(test)]
mod volume;
