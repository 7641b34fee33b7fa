//! An append that is still to be made.
ghost use Rattle.std.specs.Prelude.{◌≡◌, ◌∷◌, [], IfOk, OnOk, OnErr, IsErrOf, IsTrue};
ghost use Rattle.std.specs.String.{string_bytes};
ghost use Rattle.aff_model.specs.Causes.{HasCause};
ghost use Rattle.aff_spec.specs.Appends.{applied, Reaches};

use aff_outside::{Folder, FolderError};
use std::marker::Model;

/// The name of a segment, and the bytes that are to be added to it.
#[derive(Drop)]
pub struct Pending {
    pub name: String,
    pub bytes: Vec<u8>,
}

impl Model for Pending {
    ghost use Rattle.std.specs.String.{string_bytes};
    ghost use Rattle.aff_spec.specs.Appends.{Append};

    ghost Value = { Append };

    ghost view = { λ p. (string_bytes p.name, p.bytes.items) };
}

impl Pending {
    /// Makes the append.
    pub fn make<F: Folder>(&self, folder: &mut F) -> Result<(), FolderError>
        ensures ok { OnOk result (IsTrue F.tells → F.held folder.new ≡ applied (F.held folder.old) (self.now ∷ [])) }
        ensures part { OnErr result (IsTrue F.tells → Reaches (F.held folder.old) (self.now ∷ []) (F.held folder.new)) }
        ensures cause { HasCause (F.folder_faults folder.old) (F.folder_faults folder.new) (IsErrOf result FolderError.Failed) }
    {
        append(folder, self.name.as_str(), &self.bytes)
    }
}

/// One append.
pub fn append<F: Folder>(folder: &mut F, name: &str, bytes: &[u8]) -> Result<(), FolderError>
    ensures ok { OnOk result (IsTrue F.tells → F.held folder.new ≡ applied (F.held folder.old) ((name.now, bytes.now) ∷ [])) }
    ensures part { OnErr result (IsTrue F.tells → Reaches (F.held folder.old) ((name.now, bytes.now) ∷ []) (F.held folder.new)) }
    ensures cause { HasCause (F.folder_faults folder.old) (F.folder_faults folder.new) (IsErrOf result FolderError.Failed) }
{
    match folder.append(name, bytes) {
        Ok(_) => Ok(()),
        Err(error) => Err(error),
    }
}
