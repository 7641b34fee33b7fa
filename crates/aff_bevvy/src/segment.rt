//! Appends to the numbered segments of a stream.
ghost use Rattle.std.specs.Prelude.{◌≡◌, ◌<◌, ◌++◌, [], ◌∷◌, IfOk, OnOk, OnErr, IsErrOf, IsTrue};
ghost use Rattle.aff_model.specs.Causes.{HasCause};
ghost use Rattle.aff_outside.specs.declared.folder.FolderError.TheVariants.{Failed};
ghost use Rattle.aff_spec.specs.Appends.{applied, Reaches};
ghost use Rattle.aff_spec.specs.Names.{eight_digits, segment_in};

use aff_model::Memory;
use aff_names::{Urn, segment_name};
use aff_outside::{Folder, FolderError};
use std::alloc::Global;

/// Appends to the segment of a stream with this number and suffix.
pub fn append<F: Folder>(
    alloc: Global,
    folder: &mut F,
    stream: &Urn,
    number: u32,
    suffix: &str,
    bytes: &[u8],
) -> Result<F::Receipt, FolderError>
    requires { number < 100000000 }
    ensures ok { OnOk result (IsTrue F.tells → F.held folder.new ≡ applied (F.held folder.old) ((segment_in stream.now (eight_digits number ++ suffix.now), bytes.now) ∷ [])) }
    ensures receipt { IfOk result (λ receipt. IsTrue F.tells → F.Receipt.told receipt ≡ bytes.now) }
    ensures part { OnErr result (IsTrue F.tells → Reaches (F.held folder.old) ((segment_in stream.now (eight_digits number ++ suffix.now), bytes.now) ∷ []) (F.held folder.new)) }
    ensures cause { HasCause (F.folder_faults folder.old) (F.folder_faults folder.new) (IsErrOf result Failed) }
{
    let name = match segment_name(alloc, stream, number, suffix) {
        Ok(name) => name,
        Err(Memory) => return Err(FolderError::Memory),
    };
    folder.append(name.as_str(), bytes)
}
