//! Finishing a volume.
ghost use Rattle.std.specs.Prelude.{◌≡◌, ◌*◌, ◌≤◌, ◌++◌, ◌∷◌, [], true, false, length, IfOk, OnOk, OnErr, IsErrOf, IsTrue};
ghost use Rattle.aff_model.specs.Causes.{HasCause};
ghost use Rattle.aff_spec.specs.Acquired.{end_appends};
ghost use Rattle.aff_spec.specs.Appends.{applied, Reaches};
ghost use Rattle.aff_spec.specs.Bevvies.{bevvy_count, ending};
ghost use Rattle.aff_spec.specs.Names.{stream_urn};
ghost use Rattle.aff_spec.specs.Walks.{IsWalkable};
ghost use Rattle.aff_spec.specs.Words.{is_uuid};
ghost use Rattle.aff_finish.specs.Container.{container_appends};
ghost use Rattle.aff_finish.specs.Finishing.{AreHashesOf, HasEnded, ended, finish_appends, idx_append, map_append};
ghost use Rattle.aff_finish.specs.Information.{information};
ghost use Rattle.aff_finish.specs.Kept.{HasSegments};

use crate::Hashes;
use crate::block_map::hash_block_map;
use crate::container::{append_container, information_of};
use crate::segments::{Segments, segments_of};
use aff_fields::Entry;
use aff_linear::hash_image;
use aff_model::{CHUNK, MAX_CHUNKS, MAX_SIZE, Plan};
use aff_names::{Urn, Uuid};
use aff_outside::{Folder, FolderError};
use aff_store::Stream;
use std::alloc::Global;
use std::thread::Threads;

/// Finishes a volume whose chunks are all written: ends its stream, appends its map with these entries and the list of
/// its targets, takes the hashes of what the folder then has, and appends what the volume says of itself, the
/// metadata with the hashes last. So a folder that could not be read back has no metadata.
pub fn finish<R: Threads + Sync, F: Folder>(
    rt: &R,
    alloc: Global,
    folder: &mut F,
    stream: &mut Stream,
    plan: &Plan,
    uuid: &Uuid,
    entries: &[Entry],
) -> Result<Hashes, FolderError>
    requires small { plan.now.size ≤ MAX_SIZE }
    requires urn { stream.old.urn ≡ stream_urn uuid.now }
    requires going { stream.old.ended ≡ false }
    requires few { length stream.old.chunks ≤ MAX_CHUNKS }
    requires walkable { IsWalkable F.tells (ended uuid.now stream.old.chunks entries.now (F.held folder.old)) uuid.now plan.now.size entries.now }
    requires there { IsTrue F.tells → HasEnded (ended uuid.now stream.old.chunks entries.now (F.held folder.old)) uuid.now (length stream.old.chunks) entries.now }
    ensures ok { OnOk result (IsTrue F.tells → F.held folder.new ≡ applied (F.held folder.old) (finish_appends uuid.now plan.now.size stream.old.chunks entries.now (F.held folder.old))) }
    ensures hashes { IfOk result (λ hashes. AreHashesOf F.tells (ended uuid.now stream.old.chunks entries.now (F.held folder.old)) uuid.now plan.now.size (length stream.old.chunks) hashes) }
    ensures part { OnErr result (IsTrue F.tells → Reaches (F.held folder.old) (finish_appends uuid.now plan.now.size stream.old.chunks entries.now (F.held folder.old)) (F.held folder.new)) }
    ensures cause { HasCause (F.folder_faults folder.old) (F.folder_faults folder.new) (IsErrOf result FolderError.Failed) }
{
    let chunks = stream.count();
    let segments = match end(alloc, folder, stream, uuid, entries) {
        Ok(segments) => segments,
        Err(error) => return Err(error),
    };
    let hashes = match hash(rt, alloc, folder, plan, uuid, entries, chunks, &segments) {
        Ok(hashes) => hashes,
        Err(error) => return Err(error),
    };
    match tell(alloc, folder, uuid, plan.size(), chunks, &hashes) {
        Ok(()) => Ok(hashes),
        Err(error) => Err(error),
    }
}

// Appends what ends the stream, the map, and the list of its targets, which are handed back.
fn end<F: Folder>(
    alloc: Global,
    folder: &mut F,
    stream: &mut Stream,
    uuid: &Uuid,
    entries: &[Entry],
) -> Result<Segments, FolderError>
    requires urn { stream.old.urn ≡ stream_urn uuid.now }
    requires going { stream.old.ended ≡ false }
    requires few { length stream.old.chunks ≤ MAX_CHUNKS }
    ensures map { IfOk result (λ s. s.map ≡ map_append uuid.now entries.now) }
    ensures idx { IfOk result (λ s. s.idx ≡ idx_append uuid.now) }
    ensures ok { OnOk result (IsTrue F.tells → F.held folder.new ≡ ended uuid.now stream.old.chunks entries.now (F.held folder.old)) }
    ensures part { OnErr result (IsTrue F.tells → Reaches (F.held folder.old) (end_appends uuid.now stream.old.chunks entries.now) (F.held folder.new)) }
    ensures cause { HasCause (F.folder_faults folder.old) (F.folder_faults folder.new) (IsErrOf result FolderError.Failed) }
{
    let segments = match segments_of(alloc, uuid, entries) {
        Ok(segments) => segments,
        Err(error) => return Err(error),
    };
    match end_with(folder, stream, &segments) {
        Ok(()) => Ok(segments),
        Err(error) => Err(error),
    }
}

// Appends what ends the stream, and these segments.
fn end_with<F: Folder>(
    folder: &mut F,
    stream: &mut Stream,
    segments: &Segments,
) -> Result<(), FolderError>
    requires going { stream.old.ended ≡ false }
    requires few { length stream.old.chunks ≤ MAX_CHUNKS }
    ensures ok { OnOk result (IsTrue F.tells → F.held folder.new ≡ applied (F.held folder.old) (ending stream.old.urn stream.old.chunks ++ segments.now.map ∷ segments.now.idx ∷ [])) }
    ensures part { OnErr result (IsTrue F.tells → Reaches (F.held folder.old) (ending stream.old.urn stream.old.chunks ++ segments.now.map ∷ segments.now.idx ∷ []) (F.held folder.new)) }
    ensures cause { HasCause (F.folder_faults folder.old) (F.folder_faults folder.new) (IsErrOf result FolderError.Failed) }
{
    if let Err(error) = stream.finish(folder) {
        return Err(error);
    }
    segments.make(folder)
}

// Takes the hashes of a volume whose stream has ended.
fn hash<R: Threads + Sync, F: Folder>(
    rt: &R,
    alloc: Global,
    folder: &mut F,
    plan: &Plan,
    uuid: &Uuid,
    entries: &[Entry],
    chunks: u64,
    segments: &Segments,
) -> Result<Hashes, FolderError>
    requires small { plan.now.size ≤ MAX_SIZE }
    requires few { bevvy_count chunks ≤ 100000000 }
    requires walkable { IsWalkable F.tells (F.held folder.old) uuid.now plan.now.size entries.now }
    requires there { IsTrue F.tells → HasSegments (F.held folder.old) uuid.now chunks segments.now.map segments.now.idx }
    ensures hashes { IfOk result (λ hashes. AreHashesOf F.tells (F.held folder.old) uuid.now plan.now.size chunks hashes) }
    ensures uuid { is_uuid uuid.now ≡ true }
    ensures same { IsTrue F.tells → F.held folder.new ≡ F.held folder.old }
    ensures cause { HasCause (F.folder_faults folder.old) (F.folder_faults folder.new) (IsErrOf result FolderError.Failed) }
{
    let linear = match hash_image(rt, alloc, folder, uuid.text(), entries, plan.size()) {
        Ok(linear) => linear,
        Err(error) => return Err(error),
    };
    match hash_block_map(alloc, folder, uuid, chunks, segments) {
        Ok(block_map) => Ok(Hashes { linear, block_map }),
        Err(error) => Err(error),
    }
}

// Appends what the volume says of itself.
fn tell<F: Folder>(
    alloc: Global,
    folder: &mut F,
    uuid: &Uuid,
    size: u64,
    chunks: u64,
    hashes: &Hashes,
) -> Result<(), FolderError>
    requires uuid { is_uuid uuid.now ≡ true }
    requires small { size ≤ MAX_SIZE }
    requires few { CHUNK * chunks ≤ MAX_SIZE }
    ensures ok { OnOk result (IsTrue F.tells → F.held folder.new ≡ applied (F.held folder.old) (container_appends uuid.now (information uuid.now size chunks hashes.now))) }
    ensures part { OnErr result (IsTrue F.tells → Reaches (F.held folder.old) (container_appends uuid.now (information uuid.now size chunks hashes.now)) (F.held folder.new)) }
    ensures cause { HasCause (F.folder_faults folder.old) (F.folder_faults folder.new) (IsErrOf result FolderError.Failed) }
{
    let Ok(volume) = Urn::of_volume(alloc, uuid) else {
        return Err(FolderError::Memory);
    };
    let Ok(text) = information_of(alloc, uuid, size, chunks, hashes) else {
        return Err(FolderError::Memory);
    };
    match append_container(folder, &volume, &text) {
        Ok(()) => Ok(()),
        Err(error) => Err(error),
    }
}
