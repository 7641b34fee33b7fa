//! The one way from an outcome of the operating system to an adapter's answer.
ghost use Rattle.std.specs.Prelude.{◌≡◌, ◌↔◌, false, IsErr, IsErrOf, IsTrue};
ghost use Rattle.std.specs.IoError.{error_kind};
ghost use Rattle.std.specs.declared.io.ErrorKind.TheVariants.{OutOfMemory};
ghost use Rattle.aff_model.specs.Causes.{HasCause};
ghost use Rattle.aff_outside.specs.Outcomes.{IsCounted, IsFolderAnswer};

use crate::faults::Faults;
use crate::folder::FolderError;
use std::io;
use std::io::ErrorKind;

fn is_memory(error: &io::Error) -> bool
    ensures { IsTrue result ↔ (error_kind error.now ≡ OutOfMemory) }
{
    error.kind() == ErrorKind::OutOfMemory
}

/// The answer of a device, a peek, a source and a sink, which know one error: every error is `failed`, want of
/// memory too, and is counted.
pub(crate) fn counted<T, E: Copy>(
    outcome: io::Result<T>,
    failed: E,
    faults: &mut Faults,
) -> Result<T, E>
    ensures exact { IsCounted outcome failed result faults.old faults.new }
    ensures cause { HasCause faults.old faults.new (IsErr result) }
{
    match outcome {
        Ok(value) => Ok(value),
        Err(error) => {
            faults.add(error);
            Err(failed)
        }
    }
}

/// The answer of a folder: want of memory is `Memory`, and every other error `Failed`, which is counted.
pub(crate) fn folder_answer<T>(
    outcome: io::Result<T>,
    faults: &mut Faults,
) -> Result<T, FolderError>
    ensures exact { IsFolderAnswer outcome result faults.old faults.new }
    ensures cause { HasCause faults.old faults.new (IsErrOf result FolderError.Failed) }
{
    match outcome {
        Err(error) if is_memory(&error) => Err(FolderError::Memory),
        outcome => counted(outcome, FolderError::Failed, faults),
    }
}

/// An error of a call that may have changed something before. Where it has, the error is no want of memory.
pub(crate) fn error_behind(error: io::Error, has_changed: bool) -> io::Error
    ensures { (error_kind result ≡ OutOfMemory) ↔ ((error_kind error ≡ OutOfMemory) × (has_changed ≡ false)) }
{
    if has_changed && is_memory(&error) {
        return io::Error::from(ErrorKind::Other);
    }
    error
}
