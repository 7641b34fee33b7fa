//! Reading a part of the image.
ghost use Rattle.std.specs.Prelude.{◌≡◌, ℕ, ◌+◌, ◌*◌, ◌<◌, ◌≤◌, Some, length, slice_index, IfOk, IfErr, OnOk, IsErrOf, IsTrue};
ghost use Rattle.aff_model.specs.Causes.{HasCause};
ghost use Rattle.aff_spec.specs.Streams.{stream_byte};
ghost use Rattle.aff_spec.specs.Volumes.{volume_byte};
ghost use Rattle.aff_volume.specs.Chunks.{IsChunkError};
ghost use Rattle.aff_volume.specs.Image.{IsRecorded, IsSoundAt, named_by};
ghost use Rattle.aff_volume.specs.Opened.{IsFit, IsOver, IsThere};
ghost use Rattle.aff_volume.specs.Reading.{AreBytes, AreFirst, IsMapped, IsReadError};

use crate::VolumeReadError;
use crate::chunk::read_sound_chunk;
use crate::symbols::fill;
use aff_fields::zeros;
use aff_hash::Hash;
use aff_info::Info;
use aff_map::{Map, Target};
use aff_model::CHUNK;
use aff_outside::Folder;
use std::alloc::Global;

/// Reads bytes of the image from `at` on, as many as `out` has room for.
pub(crate) fn read_image<F: Folder>(
    alloc: Global,
    folder: &mut F,
    info: &Info,
    map: &Map,
    at: u64,
    out: &mut [u8],
) -> Result<(), VolumeReadError>
    requires fit { IsFit info.now }
    requires over { IsOver map.now info.now }
    requires inside { at + length out.old ≤ info.now.image_size }
    requires there { IsTrue F.tells → IsMapped (F.held folder.old) info.now map.now }
    ensures bytes { OnOk result (IsTrue F.tells → AreBytes (F.held folder.old) (named_by info.now) at out.new) }
    ensures refused { IfErr result (λ e. IsTrue F.tells → IsReadError (F.held folder.old) (named_by info.now) at (length out.old) e) }
    ensures same { IsTrue F.tells → F.held folder.new ≡ F.held folder.old }
    ensures cause { HasCause (F.folder_faults folder.old) (F.folder_faults folder.new) (IsErrOf result VolumeReadError.Failed) }
{
    let mut chunk = match zeros(alloc, CHUNK as usize) {
        Ok(chunk) => chunk,
        Err(_) => return Err(VolumeReadError::Memory),
    };
    read_all(alloc, folder, info, map, at, out, &mut chunk)
}

// Reads these bytes piece by piece.
fn read_all<F: Folder>(
    alloc: Global,
    folder: &mut F,
    info: &Info,
    map: &Map,
    at: u64,
    out: &mut [u8],
    chunk: &mut [u8],
) -> Result<(), VolumeReadError>
    requires room { length chunk.old ≡ CHUNK }
    requires fit { IsFit info.now }
    requires over { IsOver map.now info.now }
    requires inside { at + length out.old ≤ info.now.image_size }
    requires there { IsTrue F.tells → IsMapped (F.held folder.old) info.now map.now }
    ensures bytes { OnOk result (IsTrue F.tells → AreBytes (F.held folder.old) (named_by info.now) at out.new) }
    ensures refused { IfErr result (λ e. IsTrue F.tells → IsReadError (F.held folder.old) (named_by info.now) at (length out.old) e) }
    ensures same { IsTrue F.tells → F.held folder.new ≡ F.held folder.old }
    ensures cause { HasCause (F.folder_faults folder.old) (F.folder_faults folder.new) (IsErrOf result VolumeReadError.Failed) }
{
    let mut filled = 0;
    while filled < out.len() {
        let rest = &mut out[filled..];
        match read_piece(alloc, folder, info, map, at + filled as u64, rest, chunk) {
            Ok(count) => filled += count,
            Err(error) => return Err(error),
        }
    }
    Ok(())
}

// Reads a first piece of these bytes, at most up to where a run of the map or a chunk ends, and answers how many it has.
fn read_piece<F: Folder>(
    alloc: Global,
    folder: &mut F,
    info: &Info,
    map: &Map,
    at: u64,
    out: &mut [u8],
    chunk: &mut [u8],
) -> Result<usize, VolumeReadError>
    requires room { length chunk.old ≡ CHUNK }
    requires fit { IsFit info.now }
    requires over { IsOver map.now info.now }
    requires some { 0 < length out.old }
    requires inside { at + length out.old ≤ info.now.image_size }
    requires there { IsTrue F.tells → IsMapped (F.held folder.old) info.now map.now }
    ensures some { IfOk result (λ count. 0 < count) }
    ensures few { IfOk result (λ count. count ≤ length out.old) }
    ensures bytes { IfOk result (λ count. IsTrue F.tells → AreFirst (F.held folder.old) (named_by info.now) at count out.new) }
    ensures refused { IfErr result (λ e. IsTrue F.tells → IsReadError (F.held folder.old) (named_by info.now) at 1 e) }
    ensures same { IsTrue F.tells → F.held folder.new ≡ F.held folder.old }
    ensures cause { HasCause (F.folder_faults folder.old) (F.folder_faults folder.new) (IsErrOf result VolumeReadError.Failed) }
{
    let spot = map.find(at);
    let run = spot.len.min(out.len() as u64);
    match spot.target {
        Target::Stored => {
            let skip = spot.target_at % CHUNK;
            let count = run.min(CHUNK - skip) as usize;
            let number = spot.target_at / CHUNK;
            match read_part(
                alloc,
                folder,
                info,
                number,
                skip as usize,
                &mut out[..count],
                chunk,
            ) {
                Ok(()) => Ok(count),
                Err(error) => Err(error),
            }
        }
        target => {
            let count = run as usize;
            fill(&mut out[..count], target, spot.target_at);
            Ok(count)
        }
    }
}

// Reads a part of a chunk, from its byte `skip` on.
fn read_part<F: Folder>(
    alloc: Global,
    folder: &mut F,
    info: &Info,
    number: u64,
    skip: usize,
    out: &mut [u8],
    chunk: &mut [u8],
) -> Result<(), VolumeReadError>
    requires room { length chunk.old ≡ CHUNK }
    requires fit { IsFit info.now }
    requires part { skip + length out.old ≤ CHUNK }
    requires inside { CHUNK * number + skip + length out.old ≤ info.now.stream_size }
    requires some { 0 < length out.old }
    requires there { IsTrue F.tells → IsThere (F.held folder.old) info.now }
    ensures bytes { OnOk result (IsTrue F.tells → (k : ℕ) → k < length out.new → stream_byte (F.held folder.old) info.now.stream (CHUNK * number + skip + k) ≡ Some (slice_index out.new k)) }
    ensures sound { OnOk result (IsTrue F.tells → IsRecorded Hash.Sha256 (F.held folder.old) info.now.stream number) }
    ensures refused { IfErr result (λ e. IsTrue F.tells → IsChunkError (F.held folder.old) info.now.stream number e) }
    ensures same { IsTrue F.tells → F.held folder.new ≡ F.held folder.old }
    ensures cause { HasCause (F.folder_faults folder.old) (F.folder_faults folder.new) (IsErrOf result VolumeReadError.Failed) }
{
    match read_sound_chunk(alloc, folder, info, number, chunk) {
        Ok(()) => {
            out.copy_from_slice(&chunk[skip..skip + out.len()]);
            Ok(())
        }
        Err(error) => Err(error),
    }
}
