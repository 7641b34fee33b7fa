//! A chunk of the stream, as it is stored.
ghost use Rattle.std.specs.Prelude.{◌≡◌, ℕ, ◌/◌, ◌<◌, ◌≤◌, ⊤, Some, length, take, slice_get, slice_index, IfOk, IfErr, OnOk, IsErrOf, IsTrue, MatchOption};
ghost use Rattle.aff_model.specs.Causes.{HasCause};
ghost use Rattle.aff_model.specs.Plan.{chunk_count};
ghost use Rattle.aff_bevvy.specs.Streams.{IsStream, chunk_len, chunk_point};
ghost use Rattle.aff_spec.specs.Streams.{chunk_of};
ghost use Rattle.aff_hash.specs.Digest.{digest_size};
ghost use Rattle.aff_volume.specs.Agreement.{IsChunkSound, IsFirstDifference};
ghost use Rattle.aff_volume.specs.Chunks.{IsChunkError, IsDifference};
ghost use Rattle.aff_volume.specs.Hashed.{AreHashed};
ghost use Rattle.aff_volume.specs.Image.{IsRecorded, recorded_of};
ghost use Rattle.aff_volume.specs.Opened.{IsFit, IsThere};

use crate::VolumeReadError;
use crate::error::of_read;
use crate::kinds::{digest_len, hash_suffix};
use aff_blockhash::{Check, check};
use aff_fields::{Point, read_point};
use aff_hash::{Digest, Hash};
use aff_info::Info;
use aff_model::{BEVVY, CHUNK};
use aff_names::segment_name;
use aff_outside::{Folder, FolderError};
use std::alloc::Global;

/// Two digests of a chunk, the recorded one and its own, that differ.
#[derive(Clone, Copy, Debug, PartialEq, Eq)]
pub struct Difference {
    pub recorded: Digest,
    pub found: Digest,
}

/// Reads a chunk, whose SHA-256 has to be the recorded one. The room behind a shorter chunk may hold anything.
pub(crate) fn read_sound_chunk<F: Folder>(
    alloc: Global,
    folder: &mut F,
    info: &Info,
    chunk: u64,
    out: &mut [u8],
) -> Result<(), VolumeReadError>
    requires room { length out.old ≡ CHUNK }
    requires fit { IsFit info.now }
    requires low { chunk < chunk_count info.now.stream_size }
    requires there { IsTrue F.tells → IsThere (F.held folder.old) info.now }
    ensures bytes { OnOk result (IsTrue F.tells → (k : ℕ) → k < chunk_len info.now.stream_size chunk → slice_get (chunk_of (F.held folder.old) info.now.stream chunk) k ≡ Some (slice_index out.new k)) }
    ensures sound { OnOk result (IsTrue F.tells → IsRecorded Hash.Sha256 (F.held folder.old) info.now.stream chunk) }
    ensures refused { IfErr result (λ e. IsTrue F.tells → IsChunkError (F.held folder.old) info.now.stream chunk e) }
    ensures same { IsTrue F.tells → F.held folder.new ≡ F.held folder.old }
    ensures cause { HasCause (F.folder_faults folder.old) (F.folder_faults folder.new) (IsErrOf result VolumeReadError.Failed) }
{
    let count = match read_chunk(alloc, folder, info, chunk, out) {
        Ok(count) => count,
        Err(error) => return Err(of_read(error)),
    };
    match compare(alloc, folder, info, Hash::Sha256, chunk, &out[..count]) {
        Ok(None) => Ok(()),
        Ok(Some(Difference { recorded, found })) => Err(VolumeReadError::Damaged {
            chunk,
            recorded: sha256_in(&recorded),
            found: sha256_in(&found),
        }),
        Err(error) => Err(of_read(error)),
    }
}

// The digest of a SHA-256, without the zeros behind it.
fn sha256_in(digest: &Digest) -> [u8; 32]
    ensures { result ≡ take 32 digest.now.bytes }
{
    let mut bytes = [0; 32];
    bytes.copy_from_slice(&digest.bytes[..32]);
    bytes
}

/// Compares a chunk with its block hashes, MD5 first, then SHA-1, then SHA-256, and answers the first that differs.
pub(crate) fn compare_chunk<F: Folder>(
    alloc: Global,
    folder: &mut F,
    info: &Info,
    chunk: u64,
    out: &mut [u8],
) -> Result<Option<Difference>, FolderError>
    requires room { length out.old ≡ CHUNK }
    requires fit { IsFit info.now }
    requires low { chunk < chunk_count info.now.stream_size }
    requires there { IsTrue F.tells → IsThere (F.held folder.old) info.now }
    ensures found { IfOk result (λ found. IsTrue F.tells → MatchOption found (IsChunkSound (F.held folder.old) info.now.stream chunk) (IsFirstDifference (F.held folder.old) info.now.stream chunk)) }
    ensures same { IsTrue F.tells → F.held folder.new ≡ F.held folder.old }
    ensures cause { HasCause (F.folder_faults folder.old) (F.folder_faults folder.new) (IsErrOf result FolderError.Failed) }
{
    let count = match read_chunk(alloc, folder, info, chunk, out) {
        Ok(count) => count,
        Err(error) => return Err(error),
    };
    compare_all(alloc, folder, info, chunk, &out[..count])
}

// The same, of the bytes of a chunk.
fn compare_all<F: Folder>(
    alloc: Global,
    folder: &mut F,
    info: &Info,
    chunk: u64,
    bytes: &[u8],
) -> Result<Option<Difference>, FolderError>
    requires fit { IsFit info.now }
    requires low { chunk < chunk_count info.now.stream_size }
    requires there { IsTrue F.tells → IsThere (F.held folder.old) info.now }
    requires chunk { IsTrue F.tells → bytes.now ≡ chunk_of (F.held folder.old) info.now.stream chunk }
    ensures found { IfOk result (λ found. IsTrue F.tells → MatchOption found (IsChunkSound (F.held folder.old) info.now.stream chunk) (IsFirstDifference (F.held folder.old) info.now.stream chunk)) }
    ensures same { IsTrue F.tells → F.held folder.new ≡ F.held folder.old }
    ensures cause { HasCause (F.folder_faults folder.old) (F.folder_faults folder.new) (IsErrOf result FolderError.Failed) }
{
    match compare(alloc, folder, info, Hash::Md5, chunk, bytes) {
        Ok(None) => (),
        Ok(Some(difference)) => return Ok(Some(difference)),
        Err(error) => return Err(error),
    }
    match compare(alloc, folder, info, Hash::Sha1, chunk, bytes) {
        Ok(None) => (),
        Ok(Some(difference)) => return Ok(Some(difference)),
        Err(error) => return Err(error),
    }
    match compare(alloc, folder, info, Hash::Sha256, chunk, bytes) {
        Ok(None) => Ok(None),
        Ok(Some(difference)) => Ok(Some(difference)),
        Err(error) => Err(error),
    }
}

// Compares the bytes of a chunk with the digest that is recorded of it under one hash function.
fn compare<F: Folder>(
    alloc: Global,
    folder: &mut F,
    info: &Info,
    kind: Hash,
    chunk: u64,
    bytes: &[u8],
) -> Result<Option<Difference>, FolderError>
    requires kept { ¬ (kind ≡ Hash.Sha512) }
    requires fit { IsFit info.now }
    requires low { chunk < chunk_count info.now.stream_size }
    requires there { IsTrue F.tells → IsThere (F.held folder.old) info.now }
    requires chunk { IsTrue F.tells → bytes.now ≡ chunk_of (F.held folder.old) info.now.stream chunk }
    ensures found { IfOk result (λ found. IsTrue F.tells → MatchOption found (IsRecorded kind (F.held folder.old) info.now.stream chunk) (IsDifference kind (F.held folder.old) info.now.stream chunk)) }
    ensures same { IsTrue F.tells → F.held folder.new ≡ F.held folder.old }
    ensures cause { HasCause (F.folder_faults folder.old) (F.folder_faults folder.new) (IsErrOf result FolderError.Failed) }
{
    let mut room = [0; 64];
    let recorded = &mut room[..digest_len(kind) as usize];
    if let Err(error) = read_recorded(alloc, folder, info, kind, chunk, recorded) {
        return Err(error);
    }
    match check(kind, recorded, 0, bytes) {
        Check::Match => Ok(None),
        Check::Differs { recorded, found } => Ok(Some(Difference { recorded, found })),
    }
}

/// Reads a chunk, and answers how many bytes it has. The room behind it may hold anything.
pub(crate) fn read_chunk<F: Folder>(
    alloc: Global,
    folder: &mut F,
    info: &Info,
    chunk: u64,
    out: &mut [u8],
) -> Result<usize, FolderError>
    requires room { length out.old ≡ CHUNK }
    requires fit { IsFit info.now }
    requires low { chunk < chunk_count info.now.stream_size }
    requires there { IsTrue F.tells → IsThere (F.held folder.old) info.now }
    ensures few { IfOk result (λ count. count ≤ CHUNK) }
    ensures enough { IfOk result (λ count. IsTrue F.tells → chunk_len info.now.stream_size chunk ≤ count) }
    ensures bytes { IfOk result (λ count. IsTrue F.tells → take count out.new ≡ chunk_of (F.held folder.old) info.now.stream chunk) }
    ensures same { IsTrue F.tells → F.held folder.new ≡ F.held folder.old }
    ensures cause { HasCause (F.folder_faults folder.old) (F.folder_faults folder.new) (IsErrOf result FolderError.Failed) }
{
    let point = match chunk_point(alloc, folder, info, chunk) {
        Ok(point) => point,
        Err(error) => return Err(error),
    };
    let Ok(name) = segment_name(alloc, &info.stream, (chunk / BEVVY) as u32, "") else {
        return Err(FolderError::Memory);
    };
    // A folder that does not tell may have another point by now.
    let count = (point.len as usize).min(out.len());
    match folder.read_at(name.as_str(), point.at, &mut out[..count]) {
        Ok(()) => Ok(count),
        Err(error) => Err(error),
    }
}

// Reads the point of a chunk.
fn chunk_point<F: Folder>(
    alloc: Global,
    folder: &mut F,
    info: &Info,
    chunk: u64,
) -> Result<Point, FolderError>
    requires fit { IsFit info.now }
    requires low { chunk < chunk_count info.now.stream_size }
    requires there { IsTrue F.tells → IsThere (F.held folder.old) info.now }
    ensures point { IfOk result (λ point. IsTrue F.tells → point ≡ chunk_point (F.held folder.old) info.now.stream chunk) }
    ensures same { IsTrue F.tells → F.held folder.new ≡ F.held folder.old }
    ensures cause { HasCause (F.folder_faults folder.old) (F.folder_faults folder.new) (IsErrOf result FolderError.Failed) }
{
    let Ok(name) = segment_name(alloc, &info.stream, (chunk / BEVVY) as u32, ".index") else {
        return Err(FolderError::Memory);
    };
    let mut bytes = [0; 12];
    match folder.read_at(name.as_str(), 12 * (chunk % BEVVY), &mut bytes) {
        Ok(()) => Ok(read_point(&bytes)),
        Err(error) => Err(error),
    }
}

// Reads the digest that is recorded of a chunk.
fn read_recorded<F: Folder>(
    alloc: Global,
    folder: &mut F,
    info: &Info,
    kind: Hash,
    chunk: u64,
    out: &mut [u8],
) -> Result<(), FolderError>
    requires room { length out.old ≡ digest_size kind }
    requires kept { ¬ (kind ≡ Hash.Sha512) }
    requires fit { IsFit info.now }
    requires low { chunk < chunk_count info.now.stream_size }
    requires there { IsTrue F.tells → IsThere (F.held folder.old) info.now }
    ensures len { length out.new ≡ digest_size kind }
    ensures recorded { OnOk result (IsTrue F.tells → out.new ≡ recorded_of kind (F.held folder.old) info.now.stream chunk) }
    ensures same { IsTrue F.tells → F.held folder.new ≡ F.held folder.old }
    ensures cause { HasCause (F.folder_faults folder.old) (F.folder_faults folder.new) (IsErrOf result FolderError.Failed) }
{
    let bevvy = (chunk / BEVVY) as u32;
    let Ok(name) = segment_name(alloc, &info.stream, bevvy, hash_suffix(kind)) else {
        return Err(FolderError::Memory);
    };
    match folder.read_at(name.as_str(), digest_len(kind) * (chunk % BEVVY), out) {
        Ok(()) => Ok(()),
        Err(error) => Err(error),
    }
}
