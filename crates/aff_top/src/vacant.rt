//! Whether a folder may be written into.
ghost use Rattle.std.specs.Prelude.{◌≡◌, ◌⊎◌, IfErr, OnOk, IsErrOf, IsTrue};
ghost use Rattle.std.specs.FinMap.{empty};
ghost use Rattle.aff_model.specs.Causes.{HasCause};

use crate::fault::{Fault, fault_of_folder};
use aff_outside::Folder;

/// Looks whether a folder has no segment, so that a volume may be written into it.
pub fn look_into<F: Folder>(folder: &mut F) -> Result<(), Fault>
    ensures free { OnOk result (IsTrue F.tells → F.held folder.old ≡ empty) }
    ensures occupied { IsErrOf result Fault.Occupied → IsTrue F.tells → ¬ (F.held folder.old ≡ empty) }
    ensures same { IsTrue F.tells → F.held folder.new ≡ F.held folder.old }
    ensures cause { HasCause (F.folder_faults folder.old) (F.folder_faults folder.new) (IsErrOf result Fault.Folder) }
    ensures fault { IfErr result (λ e. (e ≡ Fault.Occupied) ⊎ ((e ≡ Fault.Folder) ⊎ (e ≡ Fault.Memory))) }
{
    let segments = match folder.list() {
        Ok(segments) => segments,
        Err(error) => return Err(fault_of_folder(error)),
    };
    if segments.is_empty() {
        Ok(())
    } else {
        Err(Fault::Occupied)
    }
}
