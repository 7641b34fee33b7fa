//! Why a folder is not opened as a volume.
ghost use Rattle.std.specs.Prelude.{◌≡◌};
ghost use Rattle.aff_volume.specs.Errors as errors;

use aff_bevvy::StreamError;
use aff_info::InfoError;
use aff_map::MapError;
use aff_outside::FolderError;
use aff_turtle::TurtleError;

/// Why a folder is not opened as a volume. The refusals are asked for in this order, and the first decides.
#[derive(Debug, Drop)]
pub enum VolumeError {
    /// The folder has no `information.turtle`.
    NoInformation,
    /// That text is not read.
    Turtle(TurtleError),
    /// Its statements are no metadata.
    Info(InfoError),
    /// The image has no `map`, or no `idx`.
    NoMap,
    /// The stream is not as its indexes say.
    Stream(StreamError),
    /// A block hash segment of the bevvy is not there, or has not one digest for each chunk of the bevvy. No bevvy before
    /// it lacks one.
    BlockHashes(u32),
    /// The map and the list of its targets are no map.
    Map(MapError),
    /// The folder failed.
    Failed,
    /// Memory was refused.
    Memory,
}

/// What a folder's answer is for a volume.
pub(crate) fn of_folder(error: FolderError) -> VolumeError
    ensures { result ≡ errors.of_folder error }
{
    match error {
        FolderError::Failed => VolumeError::Failed,
        FolderError::Memory => VolumeError::Memory,
    }
}

/// What a refusal of a text is for a volume.
pub(crate) fn of_turtle(error: TurtleError) -> VolumeError
    ensures { result ≡ errors.of_turtle error }
{
    match error {
        TurtleError::Memory => VolumeError::Memory,
        error => VolumeError::Turtle(error),
    }
}

/// What a refusal of statements is for a volume.
pub(crate) fn of_info(error: InfoError) -> VolumeError
    ensures { result ≡ errors.of_info error }
{
    match error {
        InfoError::Memory => VolumeError::Memory,
        error => VolumeError::Info(error),
    }
}

/// What a refusal of a stream is for a volume.
pub(crate) fn of_stream(error: StreamError) -> VolumeError
    ensures { result ≡ errors.of_stream error }
{
    match error {
        StreamError::Failed => VolumeError::Failed,
        StreamError::Memory => VolumeError::Memory,
        error => VolumeError::Stream(error),
    }
}

/// What a refusal of a map is for a volume.
pub(crate) fn of_map(error: MapError) -> VolumeError
    ensures { result ≡ errors.of_map error }
{
    match error {
        MapError::Memory => VolumeError::Memory,
        error => VolumeError::Map(error),
    }
}

/// Why a part of an image is not read.
#[derive(Clone, Copy, Debug, PartialEq, Eq)]
pub enum VolumeReadError {
    /// The folder failed.
    Failed,
    /// The SHA-256 of this chunk of the stream is another than the recorded one.
    Damaged {
        chunk: u64,
        recorded: [u8; 32],
        found: [u8; 32],
    },
    /// Memory was refused.
    Memory,
}

/// What a folder's answer is for a part of an image.
pub(crate) fn of_read(error: FolderError) -> VolumeReadError
    ensures { result ≡ errors.of_read error }
{
    match error {
        FolderError::Failed => VolumeReadError::Failed,
        FolderError::Memory => VolumeReadError::Memory,
    }
}
