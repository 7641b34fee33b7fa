//! Why a stream is not read.
ghost use Rattle.std.specs.Prelude.{◌≡◌};
ghost use Rattle.aff_bevvy.specs.Errors.{of_folder};

use aff_outside::FolderError;

/// Why a stream is not read. A number is that of a bevvy or, in 64 bits, that of a chunk, both from 0.
#[derive(Clone, Copy, Debug, PartialEq, Eq)]
pub enum StreamError {
    /// The bevvy or its index is not in the folder.
    NoSegment(u32),
    /// The bevvy's index has not twelve bytes for each of the bevvy's chunks.
    Ragged(u32),
    /// The chunk's point reaches past the end of the bevvy.
    PointPastEnd(u64),
    /// The chunk's point has this length, which is not the chunk's.
    PointLength(u64, u32),
    /// The folder failed.
    Failed,
    /// Memory was refused.
    Memory,
}

/// What a folder's answer is for the stream.
pub fn stream_error(error: FolderError) -> StreamError
    ensures { result ≡ of_folder error }
{
    match error {
        FolderError::Failed => StreamError::Failed,
        FolderError::Memory => StreamError::Memory,
    }
}
