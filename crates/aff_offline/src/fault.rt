//! What a command ends with in the place of an answer.
ghost use Rattle.aff_offline.specs.Faults as faults;
ghost use Rattle.std.specs.Prelude.{◌≡◌};

use aff_outside::FolderError;
use aff_verify::Finding;
use aff_volume::{VolumeError, VolumeReadError};

/// Why a range of an image is refused.
#[derive(Clone, Copy, Debug, PartialEq, Eq)]
pub enum RangeFault {
    /// It has more than 1,048,576 bytes.
    TooLong,
    /// It ends behind the image's end.
    PastEnd,
}

/// The first fault of a command, in the order in which a command goes: the words, the volume in the folder, the range, what
/// the volume records. `Folder` and `Memory` can come anywhere.
#[derive(Debug, Drop)]
pub enum Fault {
    Usage,
    /// The folder is refused as a volume.
    Volume(VolumeError),
    Range(RangeFault),
    /// The SHA-256 of a chunk that was to be read is another than the recorded one.
    Damaged {
        chunk: u64,
        recorded: [u8; 32],
        found: [u8; 32],
    },
    /// A recorded digest is not that of what is held.
    Unsound(Finding),
    Folder,
    Memory,
}

/// What a refusal of a folder as a volume is for a command.
pub fn fault_of_volume(error: VolumeError) -> Fault
    ensures { result ≡ faults.of_volume error }
{
    match error {
        VolumeError::Failed => Fault::Folder,
        VolumeError::Memory => Fault::Memory,
        error => Fault::Volume(error),
    }
}

/// What an error of reading is for a command.
pub fn fault_of_read(error: VolumeReadError) -> Fault
    ensures { result ≡ faults.of_read error }
{
    match error {
        VolumeReadError::Failed => Fault::Folder,
        VolumeReadError::Memory => Fault::Memory,
        VolumeReadError::Damaged {
            chunk,
            recorded,
            found,
        } => Fault::Damaged {
            chunk,
            recorded,
            found,
        },
    }
}
