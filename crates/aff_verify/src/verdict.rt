//! Verifying a volume.
ghost use Rattle.std.specs.Prelude.{◌≡◌, length, IfOk, IfErr, IsErr, IsErrOf, IsTrue, MatchOption};
ghost use Rattle.aff_model.specs.Causes.{HasCause};
ghost use Rattle.aff_info.specs.Found.{Found};
ghost use Rattle.aff_volume.specs.Opened.{IsVolumeOf, IsWholeVolume, Opened};
ghost use Rattle.aff_volume.specs.Refusals.{IsOfCall, IsVolumeRefused};
ghost use Rattle.aff_verify.specs.Verdicts.{AreBlocks, IsFirstFinding, IsVerdict};

use crate::digests::{first_linear, map_finding};
use crate::{Finding, Verdict};
use aff_fields::zeros;
use aff_model::CHUNK;
use aff_outside::{Folder, FolderError};
use aff_volume::{Difference, Volume, VolumeError};
use std::alloc::Global;
use std::thread::Threads;

/// Opens the volume of a folder and compares what it records with what it holds: each chunk from 0 with its block hashes,
/// MD5 first, then SHA-1, then SHA-256; then the four linear hashes; then the block map hash. The first that differs is
/// answered, with both digests. It reads each chunk once for its block hashes and once for the linear hashes, in memory that
/// does not grow with the stream. What the folder holds stays, whatever the answer.
pub fn verify<R: Threads + Sync, F: Folder>(
    rt: &R,
    alloc: Global,
    folder: &mut F,
) -> Result<Verdict, VolumeError>
    ensures verdict { IfOk result (λ verdict. IsTrue F.tells → (v : Opened) × IsVolumeOf (F.held folder.old) v × IsVerdict (F.held folder.old) v.info verdict) }
    ensures refused { IfErr result (λ e. IsTrue F.tells → IsVolumeRefused (F.held folder.old) e) }

    // Failures of calls aside, each whole volume gets its verdict, and where a refusal holds none does.
    ensures taken { IfErr result (λ e. IsTrue F.tells → (found : Found) → IsWholeVolume (F.held folder.old) found → IsOfCall e) }
    ensures told { IsTrue F.tells → (e : VolumeError) → IsVolumeRefused (F.held folder.old) e → ¬ (IsOfCall e) → IsErr result }
    ensures same { IsTrue F.tells → F.held folder.new ≡ F.held folder.old }
    ensures cause { HasCause (F.folder_faults folder.old) (F.folder_faults folder.new) (IsErrOf result VolumeError.Failed) }
{
    let volume = match Volume::open(alloc, folder) {
        Ok(volume) => volume,
        Err(error) => return Err(error),
    };
    match verdict_on(rt, alloc, folder, &volume) {
        Ok(verdict) => Ok(verdict),
        Err(FolderError::Failed) => Err(VolumeError::Failed),
        Err(FolderError::Memory) => Err(VolumeError::Memory),
    }
}

// The verdict on an opened volume.
fn verdict_on<R: Threads + Sync, F: Folder>(
    rt: &R,
    alloc: Global,
    folder: &mut F,
    volume: &Volume,
) -> Result<Verdict, FolderError>
    requires { IsTrue F.tells → IsVolumeOf (F.held folder.old) volume.now }
    ensures verdict { IfOk result (λ verdict. IsTrue F.tells → IsVerdict (F.held folder.old) volume.now.info verdict) }
    ensures same { IsTrue F.tells → F.held folder.new ≡ F.held folder.old }
    ensures cause { HasCause (F.folder_faults folder.old) (F.folder_faults folder.new) (IsErrOf result FolderError.Failed) }
{
    match first_block(alloc, folder, volume) {
        Ok(None) => (),
        Ok(Some(finding)) => return Ok(Verdict::Unsound(finding)),
        Err(error) => return Err(error),
    }
    let info = volume.info();
    let linear = match volume.linear(rt, alloc, folder) {
        Ok(linear) => linear,
        Err(error) => return Err(error),
    };
    if let Some(finding) = first_linear(&info.linear, &linear) {
        return Ok(Verdict::Unsound(finding));
    }
    let block_map = match volume.block_map(alloc, folder) {
        Ok(block_map) => block_map,
        Err(error) => return Err(error),
    };
    match map_finding(&info.block_map, &block_map) {
        Some(finding) => Ok(Verdict::Unsound(finding)),
        None => Ok(Verdict::Sound),
    }
}

// The first block hash that differs.
fn first_block<F: Folder>(
    alloc: Global,
    folder: &mut F,
    volume: &Volume,
) -> Result<Option<Finding>, FolderError>
    requires { IsTrue F.tells → IsVolumeOf (F.held folder.old) volume.now }
    ensures found { IfOk result (λ found. IsTrue F.tells → MatchOption found (AreBlocks (F.held folder.old) volume.now.info) (IsFirstFinding (F.held folder.old) volume.now.info)) }
    ensures same { IsTrue F.tells → F.held folder.new ≡ F.held folder.old }
    ensures cause { HasCause (F.folder_faults folder.old) (F.folder_faults folder.new) (IsErrOf result FolderError.Failed) }
{
    let Ok(mut room) = zeros(alloc, CHUNK as usize) else {
        return Err(FolderError::Memory);
    };
    first_difference(alloc, folder, volume, &mut room)
}

// The same, with room for a chunk.
fn first_difference<F: Folder>(
    alloc: Global,
    folder: &mut F,
    volume: &Volume,
    room: &mut [u8],
) -> Result<Option<Finding>, FolderError>
    requires room { length room.old ≡ CHUNK }
    requires opened { IsTrue F.tells → IsVolumeOf (F.held folder.old) volume.now }
    ensures found { IfOk result (λ found. IsTrue F.tells → MatchOption found (AreBlocks (F.held folder.old) volume.now.info) (IsFirstFinding (F.held folder.old) volume.now.info)) }
    ensures same { IsTrue F.tells → F.held folder.new ≡ F.held folder.old }
    ensures cause { HasCause (F.folder_faults folder.old) (F.folder_faults folder.new) (IsErrOf result FolderError.Failed) }
{
    for chunk in 0..volume.chunks() {
        match volume.compare_chunk(alloc, folder, chunk, room) {
            Ok(None) => (),
            Ok(Some(difference)) => return Ok(Some(block_finding(chunk, difference))),
            Err(error) => return Err(error),
        }
    }
    Ok(None)
}

// Two digests of a chunk that differ, as a finding.
fn block_finding(chunk: u64, difference: Difference) -> Finding
    ensures { result ≡ Finding.Block difference.found.kind chunk difference.recorded difference.found }
{
    let Difference { recorded, found } = difference;
    Finding::Block {
        kind: found.kind,
        chunk,
        recorded,
        found,
    }
}
