//! The block map hash.
ghost use Rattle.std.specs.Prelude.{◌≡◌, ℕ, ◌<◌, ◌++◌, List, Some, length, IfOk, OnOk, IsErrOf, IsTrue};
ghost use Rattle.sha2.specs.Sha512.{sha512};
ghost use Rattle.aff_model.specs.Causes.{HasCause};
ghost use Rattle.aff_model.specs.Held.{bytes_of};
ghost use Rattle.aff_model.specs.Plan.{chunk_count};
ghost use Rattle.aff_bevvy.specs.Segments.{held_length};
ghost use Rattle.aff_finish.specs.BlockMap.{block_map_digests};
ghost use Rattle.aff_spec.specs.Bevvies.{bevvy_count};
ghost use Rattle.aff_spec.specs.Names.{segment_in};
ghost use Rattle.aff_volume.specs.Opened.{IsFit, IsThere};
ghost use Rattle.aff_volume.specs.Parts.{HaveLengths};

use crate::segments::{Tables, count_chunks};
use aff_fields::zeros;
use aff_finish::{feed_block_hashes, feed_digest};
use aff_hash::Linear;
use aff_info::Info;
use aff_names::{Urn, named_segment};
use aff_outside::{Folder, FolderError};
use std::alloc::Global;

// How many bytes are read and hashed at a time.
const PIECE_LEN: usize = 65_536;

/// The block map hash of a volume, from its block hashes and tables as they stand.
pub(crate) fn hash_block_map<F: Folder>(
    alloc: Global,
    folder: &mut F,
    info: &Info,
    tables: Tables,
) -> Result<[u8; 64], FolderError>
    requires fit { IsFit info.now }
    requires there { IsTrue F.tells → IsThere (F.held folder.old) info.now }
    requires lengths { IsTrue F.tells → HaveLengths (F.held folder.old) info.now tables }
    ensures hash { IfOk result (λ hash. (digests : List ℕ) × (hash ≡ sha512 digests)
        × (IsTrue F.tells → digests ≡ block_map_digests (F.held folder.old) info.now.stream info.now.image (bevvy_count (chunk_count info.now.stream_size)))) }
    ensures same { IsTrue F.tells → F.held folder.new ≡ F.held folder.old }
    ensures cause { HasCause (F.folder_faults folder.old) (F.folder_faults folder.new) (IsErrOf result FolderError.Failed) }
{
    let Ok(mut buffer) = zeros(alloc, PIECE_LEN) else {
        return Err(FolderError::Memory);
    };
    let mut outer = Linear::new();
    let chunks = count_chunks(info.stream_size);
    if let Err(error) = feed_block_hashes(
        alloc,
        folder,
        &info.stream,
        chunks,
        &mut buffer,
        &mut outer,
    ) {
        return Err(error);
    }
    if let Err(error) = feed_table(
        alloc,
        folder,
        &info.image,
        "map",
        tables.map_len,
        &mut buffer,
        &mut outer,
    ) {
        return Err(error);
    }
    if let Err(error) = feed_table(
        alloc,
        folder,
        &info.image,
        "idx",
        tables.idx_len,
        &mut buffer,
        &mut outer,
    ) {
        return Err(error);
    }
    Ok(outer.finish().sha512)
}

// Feeds the digest of a table of an image.
fn feed_table<F: Folder>(
    alloc: Global,
    folder: &mut F,
    image: &Urn,
    name: &str,
    len: u64,
    buffer: &mut [u8],
    outer: &mut Linear,
) -> Result<(), FolderError>
    requires room { 0 < length buffer.old }
    requires there { IsTrue F.tells → held_length (F.held folder.old) (segment_in image.now name.now) ≡ Some len }
    ensures fed { OnOk result (IsTrue F.tells → outer.new ≡ outer.old ++ sha512 (bytes_of (F.held folder.old) (segment_in image.now name.now))) }
    ensures same { IsTrue F.tells → F.held folder.new ≡ F.held folder.old }
    ensures cause { HasCause (F.folder_faults folder.old) (F.folder_faults folder.new) (IsErrOf result FolderError.Failed) }
{
    match named_segment(alloc, image, name) {
        Ok(name) => feed_digest(folder, name.as_str(), len, buffer, outer),
        Err(_) => Err(FolderError::Memory),
    }
}
