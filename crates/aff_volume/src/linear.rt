//! The linear hashes of the image.
ghost use Rattle.std.specs.Prelude.{◌≡◌, ℕ, ◌+◌, ◌<◌, ◌≤◌, ◌++◌, List, Some, length, take, slice_index, IfOk, OnOk, IsErrOf, IsTrue};
ghost use Rattle.aff_model.specs.Causes.{HasCause};
ghost use Rattle.aff_linear.specs.Feeds.{AreDigestsOf};
ghost use Rattle.aff_spec.specs.Volumes.{volume_byte, volume_bytes};
ghost use Rattle.aff_volume.specs.Image.{named_by};
ghost use Rattle.aff_volume.specs.Opened.{IsFit, IsOver};
ghost use Rattle.aff_volume.specs.Parts.{Reads};
ghost use Rattle.aff_volume.specs.Reading.{IsMapped};

use crate::symbols::fill;
use aff_bevvy::{StreamError, StreamReader};
use aff_fields::zeros;
use aff_hash::{Digests, Linear};
use aff_info::Info;
use aff_map::{Map, Target};
use aff_outside::{Folder, FolderError};
use std::alloc::Global;
use std::thread::Threads;

// How many bytes are read and hashed at a time, by threads of which each is begun anew.
const PIECE_LEN: usize = 1_048_576;

/// The digests of all bytes of the image, one after another. Nothing is kept of the bytes but one piece of 1 MiB,
/// whose four digests are taken side by side.
pub(crate) fn hash_image<R: Threads + Sync, F: Folder>(
    rt: &R,
    alloc: Global,
    folder: &mut F,
    info: &Info,
    map: &Map,
    reader: &StreamReader,
) -> Result<Digests, FolderError>
    requires fit { IsFit info.now }
    requires over { IsOver map.now info.now }
    requires reads { Reads reader.now info.now }
    requires there { IsTrue F.tells → IsMapped (F.held folder.old) info.now map.now }
    ensures linear { IfOk result (λ digests. (hashed : List ℕ) × AreDigestsOf digests hashed
        × (IsTrue F.tells → hashed ≡ volume_bytes (F.held folder.old) (named_by info.now) info.now.image_size)) }
    ensures same { IsTrue F.tells → F.held folder.new ≡ F.held folder.old }
    ensures cause { HasCause (F.folder_faults folder.old) (F.folder_faults folder.new) (IsErrOf result FolderError.Failed) }
{
    let Ok(mut buffer) = zeros(alloc, PIECE_LEN) else {
        return Err(FolderError::Memory);
    };
    let mut linear = Linear::new();
    match feed_image(rt, folder, info, map, reader, &mut buffer, &mut linear) {
        Ok(()) => Ok(linear.finish()),
        Err(error) => Err(error),
    }
}

// Feeds all bytes of the image.
fn feed_image<R: Threads + Sync, F: Folder>(
    rt: &R,
    folder: &mut F,
    info: &Info,
    map: &Map,
    reader: &StreamReader,
    buffer: &mut [u8],
    linear: &mut Linear,
) -> Result<(), FolderError>
    requires room { 0 < length buffer.old }
    requires fit { IsFit info.now }
    requires over { IsOver map.now info.now }
    requires reads { Reads reader.now info.now }
    requires there { IsTrue F.tells → IsMapped (F.held folder.old) info.now map.now }
    ensures fed { OnOk result (IsTrue F.tells → linear.new ≡ linear.old ++ volume_bytes (F.held folder.old) (named_by info.now) info.now.image_size) }
    ensures same { IsTrue F.tells → F.held folder.new ≡ F.held folder.old }
    ensures cause { HasCause (F.folder_faults folder.old) (F.folder_faults folder.new) (IsErrOf result FolderError.Failed) }
{
    let mut at = 0;
    while at < info.image_size {
        match fill_buffer(folder, info, map, reader, at, buffer) {
            Ok(count) => {
                linear.update_beside(rt, &buffer[..count]);
                at += count as u64;
            }
            Err(error) => return Err(error),
        }
    }
    Ok(())
}

// Fills a buffer with the bytes of the image from an offset on, as far as both go, and answers how many there are.
fn fill_buffer<F: Folder>(
    folder: &mut F,
    info: &Info,
    map: &Map,
    reader: &StreamReader,
    at: u64,
    buffer: &mut [u8],
) -> Result<usize, FolderError>
    requires room { 0 < length buffer.old }
    requires fit { IsFit info.now }
    requires over { IsOver map.now info.now }
    requires reads { Reads reader.now info.now }
    requires inside { at < info.now.image_size }
    requires there { IsTrue F.tells → IsMapped (F.held folder.old) info.now map.now }
    ensures some { IfOk result (λ count. 0 < count) }
    ensures few { IfOk result (λ count. count ≤ length buffer.old) }
    ensures inside { IfOk result (λ count. at + count ≤ info.now.image_size) }
    ensures bytes { IfOk result (λ count. IsTrue F.tells → (k : ℕ) → k < count → volume_byte (F.held folder.old) (named_by info.now) (at + k) ≡ Some (slice_index buffer.new k)) }
    ensures same { IsTrue F.tells → F.held folder.new ≡ F.held folder.old }
    ensures cause { HasCause (F.folder_faults folder.old) (F.folder_faults folder.new) (IsErrOf result FolderError.Failed) }
{
    let mut filled = 0;
    while filled < buffer.len() && at + (filled as u64) < info.image_size {
        let rest = &mut buffer[filled..];
        match fill_piece(folder, info, map, reader, at + filled as u64, rest) {
            Ok(count) => filled += count,
            Err(error) => return Err(error),
        }
    }
    Ok(filled)
}

// Fills a first piece of a buffer with the bytes of the image from an offset on, at most up to where a run of the map ends,
// and answers how many.
fn fill_piece<F: Folder>(
    folder: &mut F,
    info: &Info,
    map: &Map,
    reader: &StreamReader,
    at: u64,
    buffer: &mut [u8],
) -> Result<usize, FolderError>
    requires room { 0 < length buffer.old }
    requires fit { IsFit info.now }
    requires over { IsOver map.now info.now }
    requires reads { Reads reader.now info.now }
    requires inside { at < info.now.image_size }
    requires there { IsTrue F.tells → IsMapped (F.held folder.old) info.now map.now }
    ensures some { IfOk result (λ count. 0 < count) }
    ensures few { IfOk result (λ count. count ≤ length buffer.old) }
    ensures inside { IfOk result (λ count. at + count ≤ info.now.image_size) }
    ensures bytes { IfOk result (λ count. IsTrue F.tells → (k : ℕ) → k < count → volume_byte (F.held folder.old) (named_by info.now) (at + k) ≡ Some (slice_index buffer.new k)) }
    ensures same { IsTrue F.tells → F.held folder.new ≡ F.held folder.old }
    ensures cause { HasCause (F.folder_faults folder.old) (F.folder_faults folder.new) (IsErrOf result FolderError.Failed) }
{
    let spot = map.find(at);
    let count = spot.len.min(buffer.len() as u64) as usize;
    match spot.target {
        Target::Stored => match reader.read_at(folder, spot.target_at, &mut buffer[..count]) {
            Ok(()) => Ok(count),
            Err(StreamError::Failed) => Err(FolderError::Failed),
            Err(_) => Err(FolderError::Memory),
        },
        target => {
            fill(&mut buffer[..count], target, spot.target_at);
            Ok(count)
        }
    }
}
