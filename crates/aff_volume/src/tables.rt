//! The tables of an image, its map and the list of its targets.
ghost use Rattle.std.specs.Prelude.{◌≡◌, Some, IfOk, IfErr, OnOk, IsErrOf, IsTrue};
ghost use Rattle.aff_model.specs.Causes.{HasCause};
ghost use Rattle.aff_model.specs.Held.{bytes_of};
ghost use Rattle.aff_bevvy.specs.Segments.{held_length};
ghost use Rattle.aff_map.specs.Mapped.{IsSound};
ghost use Rattle.aff_spec.specs.Names.{idx_name, map_name, segment_in};
ghost use Rattle.aff_volume.specs.Opened.{IsOver, map_in};
ghost use Rattle.aff_volume.specs.Tables.{IsTablesFault};

use crate::VolumeError;
use crate::error::{of_folder, of_map};
use crate::metadata::read_whole;
use crate::segments::Tables;
use aff_info::Info;
use aff_map::Map;
use aff_names::{Urn, named_segment};
use aff_outside::{Folder, FolderError};
use std::alloc::Global;

/// Reads the map of an image.
pub(crate) fn read_map<F: Folder>(
    alloc: Global,
    folder: &mut F,
    info: &Info,
    tables: Tables,
) -> Result<Map, VolumeError>
    requires map { IsTrue F.tells → held_length (F.held folder.old) (map_name info.now.image) ≡ Some tables.map_len }
    requires idx { IsTrue F.tells → held_length (F.held folder.old) (idx_name info.now.image) ≡ Some tables.idx_len }
    ensures map { IfOk result (λ map. IsTrue F.tells → map ≡ map_in (F.held folder.old) info.now) }
    ensures over { IfOk result (λ map. IsOver map info.now) }
    ensures sound { OnOk result (IsTrue F.tells → IsSound (bytes_of (F.held folder.old) (map_name info.now.image)) (bytes_of (F.held folder.old) (idx_name info.now.image)) info.now.image_size info.now.stream info.now.stream_size) }
    ensures refused { IfErr result (λ e. IsTrue F.tells → IsTablesFault (F.held folder.old) info.now e) }
    ensures same { IsTrue F.tells → F.held folder.new ≡ F.held folder.old }
    ensures cause { HasCause (F.folder_faults folder.old) (F.folder_faults folder.new) (IsErrOf result VolumeError.Failed) }
{
    let map = match read_table(alloc, folder, &info.image, "map", tables.map_len) {
        Ok(bytes) => bytes,
        Err(error) => return Err(of_folder(error)),
    };
    let idx = match read_table(alloc, folder, &info.image, "idx", tables.idx_len) {
        Ok(bytes) => bytes,
        Err(error) => return Err(of_folder(error)),
    };
    let entries = map.as_slice();
    let lines = idx.as_slice();
    match Map::open(
        alloc,
        entries,
        lines,
        info.image_size,
        &info.stream,
        info.stream_size,
        info.gap,
    ) {
        Ok(map) => Ok(map),
        Err(error) => Err(of_map(error)),
    }
}

// Reads a table of an image whole.
fn read_table<F: Folder>(
    alloc: Global,
    folder: &mut F,
    image: &Urn,
    name: &str,
    len: u64,
) -> Result<Vec<u8>, FolderError>
    requires { IsTrue F.tells → held_length (F.held folder.old) (segment_in image.now name.now) ≡ Some len }
    ensures bytes { IfOk result (λ bytes. IsTrue F.tells → bytes.items ≡ bytes_of (F.held folder.old) (segment_in image.now name.now)) }
    ensures same { IsTrue F.tells → F.held folder.new ≡ F.held folder.old }
    ensures cause { HasCause (F.folder_faults folder.old) (F.folder_faults folder.new) (IsErrOf result FolderError.Failed) }
{
    let Ok(name) = named_segment(alloc, image, name) else {
        return Err(FolderError::Memory);
    };
    match read_whole(alloc, folder, name.as_str(), len) {
        Ok(bytes) => Ok(bytes),
        Err(error) => Err(error),
    }
}
