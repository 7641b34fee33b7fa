//! A volume that was opened.
ghost use Rattle.std.specs.Prelude.{◌≡◌, ℕ, ◌+◌, ◌<◌, ◌≤◌, List, Some, length, IfOk, IfErr, OnOk, IsErr, IsErrOf, IsTrue, MatchOption};
ghost use Rattle.sha2.specs.Sha512.{sha512};
ghost use Rattle.aff_model.specs.Causes.{HasCause};
ghost use Rattle.aff_model.specs.Held.{bytes_of, lengths};
ghost use Rattle.aff_model.specs.Plan.{chunk_count};
ghost use Rattle.aff_info.specs.Found.{Found};
ghost use Rattle.aff_bevvy.specs.Segments.{held_length};
ghost use Rattle.aff_finish.specs.BlockMap.{block_map_digests};
ghost use Rattle.aff_linear.specs.Feeds.{AreDigestsOf};
ghost use Rattle.aff_spec.specs.Bevvies.{bevvy_count};
ghost use Rattle.aff_spec.specs.Names.{idx_name, map_name};
ghost use Rattle.aff_spec.specs.Volumes.{volume_bytes};
ghost use Rattle.aff_volume.specs.Agreement.{IsChunkSound, IsFirstDifference};
ghost use Rattle.aff_volume.specs.Opened.{IsFit, IsOver, IsThere, IsVolumeOf, IsWholeVolume, map_in};
ghost use Rattle.aff_volume.specs.Refusals.{IsAbsent, IsOfCall, IsVolumeRefused};
ghost use Rattle.aff_volume.specs.Image.{named_by};
ghost use Rattle.aff_volume.specs.Reading.{AreBytes, IsReadError};
ghost use Rattle.aff_volume.specs.Parts.{AreParts, Reads};

use crate::block_map::hash_block_map;
use crate::chunk::compare_chunk;
use crate::error::{of_folder, of_stream};
use crate::linear::hash_image;
use crate::metadata::read_info;
use crate::read::read_image;
use crate::segments::{Tables, check_hashes, count_chunks, tables_of};
use crate::tables::read_map;
use crate::{Difference, VolumeError, VolumeReadError};
use aff_bevvy::StreamReader;
use aff_hash::Digests;
use aff_info::{Info, InfoRead};
use aff_map::Map;
use aff_model::CHUNK;
use aff_outside::{Folder, FolderError, Segment};
use std::alloc::Global;
use std::marker::Model;
use std::thread::Threads;

/// A volume that was found whole in a folder. It keeps the metadata and the map; all else is read from the folder when it
/// is asked for.
#[derive(Drop)]
pub struct Volume {
    info: Info,
    aside: u64,
    tables: Tables,
    reader: StreamReader,
    map: Map,
}

impl Model for Volume {
    ghost use Rattle.aff_volume.specs.Opened.{IsFit, IsOver, Opened};
    ghost use Rattle.aff_volume.specs.Parts.{Reads};

    ghost Value = { Opened };

    ghost view = { λ v. record { info = v.info; aside = v.aside; map = v.map; map_len = v.tables.map_len; idx_len = v.tables.idx_len } };

    ghost invariant = { λ v. IsFit v.info × IsOver v.map v.info × Reads v.reader v.info };
}

impl Volume {
    /// Opens the volume of a folder. It is refused for the first of the refusals, in the order of `VolumeError`, that it
    /// meets. What the folder holds stays, whatever the answer.
    pub fn open<F: Folder>(alloc: Global, folder: &mut F) -> Result<Volume, VolumeError>
        ensures volume { IfOk result (λ v. IsTrue F.tells → IsVolumeOf (F.held folder.old) v) }
        ensures refused { IfErr result (λ e. IsTrue F.tells → IsVolumeRefused (F.held folder.old) e) }

        // Failures of calls aside, each whole volume is opened, and where a refusal holds none is.
        ensures taken { IfErr result (λ e. IsTrue F.tells → (found : Found) → IsWholeVolume (F.held folder.old) found → IsOfCall e) }
        ensures told { IsTrue F.tells → (e : VolumeError) → IsVolumeRefused (F.held folder.old) e → ¬ (IsOfCall e) → IsErr result }
        ensures same { IsTrue F.tells → F.held folder.new ≡ F.held folder.old }
        ensures cause { HasCause (F.folder_faults folder.old) (F.folder_faults folder.new) (IsErrOf result VolumeError.Failed) }
    {
        open_volume(alloc, folder)
    }

    /// What the metadata name.
    pub fn info(&self) -> &Info
        ensures info { result.now ≡ self.now.info }
        ensures fit { IsFit self.now.info }
    {
        &self.info
    }

    /// Reads bytes of the image from `at` on, as many as `out` has room for, from the folder as it was when the volume was
    /// opened. Each chunk that they come from is compared with its recorded SHA-256, and the first of the range, in the
    /// order of the image, that differs is answered. After an error `out` may hold anything.
    pub fn read<F: Folder>(
        &self,
        alloc: Global,
        folder: &mut F,
        at: u64,
        out: &mut [u8],
    ) -> Result<(), VolumeReadError>
        requires inside { at + length out.old ≤ self.now.info.image_size }
        requires opened { IsTrue F.tells → IsVolumeOf (F.held folder.old) self.now }
        ensures bytes { OnOk result (IsTrue F.tells → AreBytes (F.held folder.old) (named_by self.now.info) at out.new) }
        ensures refused { IfErr result (λ e. IsTrue F.tells → IsReadError (F.held folder.old) (named_by self.now.info) at (length out.old) e) }
        ensures same { IsTrue F.tells → F.held folder.new ≡ F.held folder.old }
        ensures cause { HasCause (F.folder_faults folder.old) (F.folder_faults folder.new) (IsErrOf result VolumeReadError.Failed) }
    {
        read_image(alloc, folder, &self.info, &self.map, at, out)
    }

    /// The digests of all bytes of the image, one after another, from the folder as it was when the volume was opened. No
    /// block hash is looked at. The four are taken side by side, each
    /// in a thread of its own. Memory is one piece of 1 MiB.
    pub fn linear<R: Threads + Sync, F: Folder>(
        &self,
        rt: &R,
        alloc: Global,
        folder: &mut F,
    ) -> Result<Digests, FolderError>
        requires { IsTrue F.tells → IsVolumeOf (F.held folder.old) self.now }
        ensures linear { IfOk result (λ digests. (hashed : List ℕ) × AreDigestsOf digests hashed
            × (IsTrue F.tells → hashed ≡ volume_bytes (F.held folder.old) (named_by self.now.info) self.now.info.image_size)) }
        ensures same { IsTrue F.tells → F.held folder.new ≡ F.held folder.old }
        ensures cause { HasCause (F.folder_faults folder.old) (F.folder_faults folder.new) (IsErrOf result FolderError.Failed) }
    {
        hash_image(rt, alloc, folder, &self.info, &self.map, &self.reader)
    }

    /// The block map hash, from the block hashes, the map and the list of its targets as they stand, in the folder as it was
    /// when the volume was opened. Memory is one buffer of 64 KiB.
    pub fn block_map<F: Folder>(
        &self,
        alloc: Global,
        folder: &mut F,
    ) -> Result<[u8; 64], FolderError>
        requires { IsTrue F.tells → IsVolumeOf (F.held folder.old) self.now }
        ensures hash { IfOk result (λ hash. (digests : List ℕ) × (hash ≡ sha512 digests)
            × (IsTrue F.tells → digests ≡ block_map_digests (F.held folder.old) self.now.info.stream self.now.info.image (bevvy_count (chunk_count self.now.info.stream_size)))) }
        ensures same { IsTrue F.tells → F.held folder.new ≡ F.held folder.old }
        ensures cause { HasCause (F.folder_faults folder.old) (F.folder_faults folder.new) (IsErrOf result FolderError.Failed) }
    {
        hash_block_map(alloc, folder, &self.info, self.tables)
    }

    /// How many chunks the stream has.
    pub fn chunks(&self) -> u64
        ensures { result ≡ chunk_count self.now.info.stream_size }
    {
        count_chunks(self.info.stream_size)
    }

    /// Compares a chunk with its block hashes, MD5 first, then SHA-1, then SHA-256, in the folder as it was when the volume
    /// was opened, and answers the first that differs. `room` is where the chunk is read, 32,768 bytes.
    pub fn compare_chunk<F: Folder>(
        &self,
        alloc: Global,
        folder: &mut F,
        chunk: u64,
        room: &mut [u8],
    ) -> Result<Option<Difference>, FolderError>
        requires room { length room.old ≡ CHUNK }
        requires low { chunk < chunk_count self.now.info.stream_size }
        requires opened { IsTrue F.tells → IsVolumeOf (F.held folder.old) self.now }
        ensures found { IfOk result (λ found. IsTrue F.tells → MatchOption found (IsChunkSound (F.held folder.old) self.now.info.stream chunk) (IsFirstDifference (F.held folder.old) self.now.info.stream chunk)) }
        ensures same { IsTrue F.tells → F.held folder.new ≡ F.held folder.old }
        ensures cause { HasCause (F.folder_faults folder.old) (F.folder_faults folder.new) (IsErrOf result FolderError.Failed) }
    {
        compare_chunk(alloc, folder, &self.info, chunk, room)
    }

    /// How many statements of the metadata are kept aside, since they name nothing of the volume.
    pub fn aside(&self) -> u64
        ensures { result ≡ self.now.aside }
    {
        self.aside
    }
}

// What is read of a volume beside its metadata.
#[derive(Drop)]
struct Parts {
    tables: Tables,
    reader: StreamReader,
    map: Map,
}

fn open_volume<F: Folder>(alloc: Global, folder: &mut F) -> Result<Volume, VolumeError>
    ensures volume { IfOk result (λ v. IsTrue F.tells → IsVolumeOf (F.held folder.old) v) }
    ensures refused { IfErr result (λ e. IsTrue F.tells → IsVolumeRefused (F.held folder.old) e) }
    ensures same { IsTrue F.tells → F.held folder.new ≡ F.held folder.old }
    ensures cause { HasCause (F.folder_faults folder.old) (F.folder_faults folder.new) (IsErrOf result VolumeError.Failed) }
{
    let segments = match folder.list() {
        Ok(segments) => segments,
        Err(error) => return Err(of_folder(error)),
    };
    let listed = segments.as_slice();
    let InfoRead { info, aside } = match read_info(alloc, folder, listed) {
        Ok(found) => found,
        Err(error) => return Err(error),
    };
    let Parts {
        tables,
        reader,
        map,
    } = match read_parts(alloc, folder, listed, &info) {
        Ok(parts) => parts,
        Err(error) => return Err(error),
    };
    Ok(Volume {
        info,
        aside: aside.len() as u64,
        tables,
        reader,
        map,
    })
}

// Reads what metadata name, from a folder with these segments.
fn read_parts<F: Folder>(
    alloc: Global,
    folder: &mut F,
    segments: &[Segment],
    info: &Info,
) -> Result<Parts, VolumeError>
    requires listed { IsTrue F.tells → segments.now ≡ lengths (F.held folder.old) }
    requires fit { IsFit info.now }
    ensures there { IfOk result (λ parts. IsTrue F.tells → IsThere (F.held folder.old) info.now) }
    ensures parts { IfOk result (λ parts. IsTrue F.tells → AreParts (F.held folder.old) info.now parts.map parts.tables) }
    ensures over { IfOk result (λ parts. IsOver parts.map info.now × Reads parts.reader info.now) }
    ensures refused { IfErr result (λ e. IsTrue F.tells → IsAbsent (F.held folder.old) info.now e) }
    ensures same { IsTrue F.tells → F.held folder.new ≡ F.held folder.old }
    ensures cause { HasCause (F.folder_faults folder.old) (F.folder_faults folder.new) (IsErrOf result VolumeError.Failed) }
{
    let tables = match tables_of(alloc, segments, &info.image) {
        Ok(tables) => tables,
        Err(error) => return Err(error),
    };
    let reader = match StreamReader::open(alloc, folder, segments, &info.stream, info.stream_size) {
        Ok(reader) => reader,
        Err(error) => return Err(of_stream(error)),
    };
    let chunks = count_chunks(info.stream_size);
    if let Err(error) = check_hashes(alloc, segments, &info.stream, chunks) {
        return Err(error);
    }
    match read_map(alloc, folder, info, tables) {
        Ok(map) => Ok(Parts {
            tables,
            reader,
            map,
        }),
        Err(error) => Err(error),
    }
}
