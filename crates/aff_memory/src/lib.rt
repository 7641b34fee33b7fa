//! Devices, a folder with its peeks, a source and a sink in memory. They tell what they hold, so that what is proved of a
//! run over them speaks of bytes.
//!
//! Folder, source and sink are made with a list `fail`: the numbers of the calls, counted from 1 over all of
//! the object's methods, that are to fail. Such a call answers that it failed and does nothing else, and no
//! other call answers so. A folder also has such a list for each of its peeks.
//!
//! The folder holds the bytes of each append once, and shares them with the receipt of that append. Beside them stands a gate
//! that keeps the steps of a run.
#![tactic(auto)]

mod block_size;
mod calls;
mod fixed;
mod flaky;
mod flaky_device;
mod folder;
mod kept;
mod peek;
mod recording_gate;
mod shared_bytes;
mod shelf;
#[cfg(test)]
mod tests;
mod text;

pub use fixed::FixedDevice;
pub use flaky::Flaky;
pub use flaky_device::FlakyDevice;
pub use folder::MemoryFolder;
pub use peek::{MemoryPeek, MemoryReceipt};
pub use recording_gate::RecordingGate;
pub use text::{MemorySink, MemorySource};
