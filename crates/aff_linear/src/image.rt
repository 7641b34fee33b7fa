//! Feeding an image, run by run.
ghost use Rattle.std.specs.Prelude.{◌≡◌, ◌+◌, ◌≤◌, ◌<◌, ◌^◌, ◌++◌, ℕ, List, [], true, length, IfOk, IfErr, OnOk, IsErrOf, IsTrue};
ghost use Rattle.aff_model.specs.Causes.{HasCause};
ghost use Rattle.aff_spec.specs.Names.{stream_urn};
ghost use Rattle.aff_spec.specs.Volumes.{volume_of, volume_bytes};
ghost use Rattle.aff_spec.specs.Walks.{IsWalkable};
ghost use Rattle.aff_spec.specs.Words.{is_uuid};
ghost use Rattle.aff_linear.specs.Feeds.{AreDigestsOf, IsBetween, IsImageIn, IsInStream, image_range, run_bytes};

use crate::feeder::Feeder;
use crate::stored::feed_stored;
use crate::symbols::feed_symbols;
use aff_fields::Entry;
use aff_hash::Digests;
use aff_map::Target;
use aff_names::Urn;
use aff_outside::{Folder, FolderError};
use std::alloc::Global;
use std::thread::Threads;

/// The digests of all bytes of an image of `size` bytes, one after another, which the folder holds by these
/// entries of its map and the stream of its volume. Nothing is kept of the bytes but one piece of 1 MiB,
/// whose four digests are taken side by side. What the folder holds stays, whatever the answer.
pub fn hash_image<R: Threads + Sync, F: Folder>(
    rt: &R,
    alloc: Global,
    folder: &mut F,
    uuid: &str,
    entries: &[Entry],
    size: u64,
) -> Result<Digests, FolderError>
    requires uuid { is_uuid uuid.now ≡ true }
    requires size { size ≤ 2 ^ 44 }
    requires image { IsWalkable F.tells (F.held folder.old) uuid.now size entries.now }
    ensures linear { IfOk result (λ digests. (hashed : List ℕ) × AreDigestsOf digests hashed
        × (IsTrue F.tells → hashed ≡ volume_bytes (F.held folder.old) (volume_of uuid.now) size)) }
    ensures same { IsTrue F.tells → F.held folder.new ≡ F.held folder.old }
    ensures cause { HasCause (F.folder_faults folder.old) (F.folder_faults folder.new) (IsErrOf result FolderError.Failed) }
{
    let stream = stream_of(alloc, uuid)?;
    let mut feeder = Feeder::new(alloc)?;
    match feed_image(rt, alloc, folder, &stream, entries, size, &mut feeder) {
        Ok(()) => Ok(feeder.finish(rt)),
        Err(error) => Err(error),
    }
}

// Feeds all bytes of an image.
fn feed_image<R: Threads + Sync, F: Folder>(
    rt: &R,
    alloc: Global,
    folder: &mut F,
    stream: &Urn,
    entries: &[Entry],
    size: u64,
    feeder: &mut Feeder,
) -> Result<(), FolderError>
    requires size { size ≤ 2 ^ 44 }
    requires image { IsImageIn F.tells (F.held folder.old) stream.now size entries.now }
    ensures fed { OnOk result (IsTrue F.tells → feeder.new ≡ feeder.old ++ image_range (F.held folder.old) stream.now entries.now 0 size) }
    ensures same { IsTrue F.tells → F.held folder.new ≡ F.held folder.old }
    ensures cause { HasCause (F.folder_faults folder.old) (F.folder_faults folder.new) (IsErrOf result FolderError.Failed) }
{
    match feed_entries(rt, alloc, folder, stream, entries, size, feeder) {
        Ok(at) => {
            feed_symbols(rt, feeder, Target::Unknown, at, size - at);
            Ok(())
        }
        Err(error) => Err(error),
    }
}

// Feeds the bytes of an image up to the end of its last entry, and answers that place.
fn feed_entries<R: Threads + Sync, F: Folder>(
    rt: &R,
    alloc: Global,
    folder: &mut F,
    stream: &Urn,
    entries: &[Entry],
    size: u64,
    feeder: &mut Feeder,
) -> Result<u64, FolderError>
    requires size { size ≤ 2 ^ 44 }
    requires image { IsImageIn F.tells (F.held folder.old) stream.now size entries.now }
    ensures last { IfOk result (λ at. IsBetween entries.now (length entries.now) at) }
    ensures inside { IfOk result (λ at. at ≤ size) }
    ensures fed { IfOk result (λ at. IsTrue F.tells → feeder.new ≡ feeder.old ++ image_range (F.held folder.old) stream.now entries.now 0 at) }
    ensures same { IsTrue F.tells → F.held folder.new ≡ F.held folder.old }
    ensures cause { HasCause (F.folder_faults folder.old) (F.folder_faults folder.new) (IsErrOf result FolderError.Failed) }
{
    let mut at = 0;
    for entry in entries {
        feed_symbols(rt, feeder, Target::Unknown, at, entry.at - at);
        match feed_entry(rt, alloc, folder, stream, entry, feeder) {
            Ok(()) => at = entry.at + entry.len,
            Err(error) => return Err(error),
        }
    }
    Ok(at)
}

// Feeds the bytes of an entry.
fn feed_entry<R: Threads + Sync, F: Folder>(
    rt: &R,
    alloc: Global,
    folder: &mut F,
    stream: &Urn,
    entry: &Entry,
    feeder: &mut Feeder,
) -> Result<(), FolderError>
    requires fits { entry.now.at + entry.now.len < 2 ^ 64 }
    requires stored { entry.now.target ≡ 0 → IsInStream F.tells (F.held folder.old) stream.now entry.now.target_at entry.now.len }
    ensures fed { OnOk result (IsTrue F.tells → feeder.new ≡ feeder.old ++ run_bytes (F.held folder.old) stream.now entry.now) }
    ensures same { IsTrue F.tells → F.held folder.new ≡ F.held folder.old }
    ensures cause { HasCause (F.folder_faults folder.old) (F.folder_faults folder.new) (IsErrOf result FolderError.Failed) }
{
    let Entry {
        at,
        len,
        target_at,
        target,
    } = *entry;
    match target {
        0 => feed_stored(rt, alloc, folder, stream, target_at, len, feeder),
        1 => {
            feed_symbols(rt, feeder, Target::Zero, at, len);
            Ok(())
        }
        _ => {
            feed_symbols(rt, feeder, Target::Unreadable, at, len);
            Ok(())
        }
    }
}

// The URN of a volume's stream.
fn stream_of(alloc: Global, uuid: &str) -> Result<Urn, FolderError>
    requires { is_uuid uuid.now ≡ true }
    ensures urn { IfOk result (λ urn. urn ≡ stream_urn uuid.now) }
    ensures fault { IfErr result (λ e. e ≡ FolderError.Memory) }
{
    let text = format!(in alloc; "aff4://{uuid}/data")?;
    Urn::read(alloc, &text).map_err(|_| FolderError::Memory)
}
