//! What a run is handed from outside: devices, a folder, a source and a sink of text, a gate, examiners.
//!
//! Each is a trait. Its ghost members say what the thing holds, where it tells that, and how often it has
//! failed: a count of faults never falls, goes up to `u64::MAX` and stays there, and a call answers that it
//! failed only where the count rose in that call. An append to a folder gives a receipt, with which a peek
//! fetches the bytes again, beside the folder.
//!
//! `FileDevice`, `FileFolder`, `FilePeek`, `InputSource` and `OutputSink` stand over the file system and the
//! standard streams, and tell nothing of what they hold. Each has its answers from `outcome`: a folder calls
//! want of memory `Memory` where nothing was written, and every other error of any adapter is a failure, which
//! raises its count. For a person each keeps its last error, in the system's own words, and where it came from: no clause
//! speaks of these. What moves bytes is written over any reader, writer or file that tells its own.
#![tactic(auto)]

mod blocks;
mod device;
mod examiner;
mod faults;
mod file_device;
mod file_folder;
mod file_peek;
mod folder;
mod gate;
mod outcome;
mod receipt;
mod segment;
mod streams;
#[cfg(test)]
mod tests;
mod text;
mod walk;
mod write_whole;

pub use device::{Device, DeviceFailed};
pub use examiner::{Examiner, Seen};
pub use faults::LastError;
pub use file_device::FileDevice;
pub use file_folder::FileFolder;
pub use file_peek::{FilePeek, FileReceipt};
pub use folder::{Folder, FolderError, Segment};
pub use gate::{Gate, GateStep, OpenGate};
pub use receipt::{Peek, PeekFailed, Telling};
pub use segment::read_segment;
pub use streams::{InputSource, OutputSink};
pub use text::{Sink, SinkError, Source, SourceFailed};
