//! What ends a run early.
ghost use Rattle.std.specs.Prelude.{◌≡◌, ◌⊎◌};
ghost use Rattle.aff_top.specs.declared.fault.Fault.TheVariants.{Memory};

use aff_command::Refusal;
use aff_model::Memory as NoMemory;
use aff_outside::FolderError;
use aff_plan::PlanError;
use aff_script::ScriptError;
use std::alloc::{AllocError, AllocFailed};

/// Why the text of a source is refused.
#[derive(Clone, Copy, Debug, PartialEq, Eq)]
pub enum TextFault {
    /// It has more than 16,777,216 bytes.
    TooLong,
    /// It is no plan's.
    Plan(PlanError),
    /// The script behind its plan is refused.
    Script(ScriptError),
}

/// The first fault of a run, in the order in which a run goes: the words, the devices that were handed in, the folder
/// as it was found, the source, its text, the folder as it is written and as sessions read it, a chunk that a session
/// found damaged. `Memory` can come anywhere.
#[derive(Clone, Copy, Debug, PartialEq, Eq)]
pub enum Fault {
    Usage,
    Devices(Refusal),
    /// The folder has a segment.
    Occupied,
    Source,
    Text(TextFault),
    Folder,
    /// The bytes that were fetched of a chunk have another SHA-256 than was recorded of it.
    Damaged {
        chunk: u64,
        recorded: [u8; 32],
        found: [u8; 32],
    },
    Memory,
}

impl From<NoMemory> for Fault {
    ghost from_gives = { λ _ e. e ≡ Memory };

    fn from(_: NoMemory) -> Self {
        Fault::Memory
    }
}

impl From<AllocError> for Fault {
    ghost from_gives = { λ _ e. e ≡ Memory };

    fn from(_: AllocError) -> Self {
        Fault::Memory
    }
}

impl<T: Drop> From<AllocFailed<T>> for Fault {
    ghost from_gives = { λ _ e. e ≡ Memory };

    fn from(_: AllocFailed<T>) -> Self {
        Fault::Memory
    }
}

/// What a folder's error is to a run.
pub fn fault_of_folder(error: FolderError) -> Fault
    ensures folder { result ≡ Fault.Folder → error ≡ FolderError.Failed }
    ensures only { (result ≡ Fault.Folder) ⊎ (result ≡ Fault.Memory) }
{
    match error {
        FolderError::Failed => Fault::Folder,
        FolderError::Memory => Fault::Memory,
    }
}
