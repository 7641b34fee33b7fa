//! The metadata of a folder.
ghost use Rattle.std.specs.Prelude.{◌≡◌, Some, length, IfOk, IfErr, IsErrOf, IsSome, IsTrue};
ghost use Rattle.std.specs.FinMap.{get};
ghost use Rattle.aff_model.specs.Causes.{HasCause};
ghost use Rattle.aff_model.specs.Held.{Held, bytes_of, lengths};
ghost use Rattle.aff_finish.specs.Container.{information_name};
ghost use Rattle.aff_finish.specs.Named.{IsNamed};
ghost use Rattle.aff_volume.specs.Listing.{IsOfList};
ghost use Rattle.aff_volume.specs.Opened.{IsFit, IsStated};
ghost use Rattle.aff_volume.specs.Refusals.{IsVolumeRefused};

use crate::VolumeError;
use crate::error::{of_folder, of_info, of_turtle};
use aff_bevvy::length_of;
use aff_info::{InfoRead, of_triples};
use aff_outside::{Folder, FolderError, Segment};
use aff_turtle::read;
use std::alloc::Global;

const INFORMATION: &str = "information.turtle";

/// Reads what the metadata of a folder with these segments state.
pub(crate) fn read_info<F: Folder>(
    alloc: Global,
    folder: &mut F,
    segments: &[Segment],
) -> Result<InfoRead, VolumeError>
    requires { IsTrue F.tells → segments.now ≡ lengths (F.held folder.old) }
    ensures named { IfOk result (λ found. IsTrue F.tells → IsNamed (F.held folder.old) found) }
    ensures fit { IfOk result (λ found. IsFit found.info) }
    ensures refused { IfErr result (λ e. IsTrue F.tells → IsVolumeRefused (F.held folder.old) e) }
    ensures same { IsTrue F.tells → F.held folder.new ≡ F.held folder.old }
    ensures cause { HasCause (F.folder_faults folder.old) (F.folder_faults folder.new) (IsErrOf result VolumeError.Failed) }
{
    let text = match read_text(alloc, folder, segments) {
        Ok(text) => text,
        Err(error) => return Err(error),
    };
    let bytes = text.as_slice();
    match info_in(alloc, bytes) {
        Ok(found) => Ok(found),
        Err(error) => Err(error),
    }
}

// What a text states.
fn info_in(alloc: Global, text: &[u8]) -> Result<InfoRead, VolumeError>
    ensures stated { IfOk result (λ found. IsStated text.now found) }
    ensures fit { IfOk result (λ found. IsFit found.info) }
    ensures refused { IfErr result (λ e. (held : Held) → get held information_name ≡ Some text.now → IsVolumeRefused held e) }
    ensures early { IfErr result IsOfList }
{
    let triples = match read(alloc, text) {
        Ok(triples) => triples,
        Err(error) => return Err(of_turtle(error)),
    };
    let facts = triples.as_slice();
    match of_triples(alloc, facts) {
        Ok(found) => Ok(found),
        Err(error) => Err(of_info(error)),
    }
}

// Reads the text of the metadata.
fn read_text<F: Folder>(
    alloc: Global,
    folder: &mut F,
    segments: &[Segment],
) -> Result<Vec<u8>, VolumeError>
    requires { IsTrue F.tells → segments.now ≡ lengths (F.held folder.old) }
    ensures text { IfOk result (λ text. IsTrue F.tells → get (F.held folder.old) information_name ≡ Some text.items) }
    ensures refused { IfErr result (λ e. IsTrue F.tells → IsVolumeRefused (F.held folder.old) e) }
    ensures same { IsTrue F.tells → F.held folder.new ≡ F.held folder.old }
    ensures cause { HasCause (F.folder_faults folder.old) (F.folder_faults folder.new) (IsErrOf result VolumeError.Failed) }
{
    let Some(len) = length_of(segments, INFORMATION) else {
        return Err(VolumeError::NoInformation);
    };
    match read_whole(alloc, folder, INFORMATION, len) {
        Ok(text) => Ok(text),
        Err(error) => Err(of_folder(error)),
    }
}

/// Reads a segment of this length whole.
pub(crate) fn read_whole<F: Folder>(
    alloc: Global,
    folder: &mut F,
    name: &str,
    len: u64,
) -> Result<Vec<u8>, FolderError>
    requires there { IsTrue F.tells → IsSome (get (F.held folder.old) name.now) }
    requires length { IsTrue F.tells → length (bytes_of (F.held folder.old) name.now) ≡ len }
    ensures bytes { IfOk result (λ bytes. IsTrue F.tells → bytes.items ≡ bytes_of (F.held folder.old) name.now) }
    ensures same { IsTrue F.tells → F.held folder.new ≡ F.held folder.old }
    ensures cause { HasCause (F.folder_faults folder.old) (F.folder_faults folder.new) (IsErrOf result FolderError.Failed) }
{
    let mut bytes = vec![in alloc; 0; len as usize]?;
    match folder.read_at(name, 0, &mut bytes) {
        Ok(()) => Ok(bytes),
        Err(error) => Err(error),
    }
}
