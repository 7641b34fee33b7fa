//! What stands behind the chunks of a volume: what ends its stream, the map, and the list of the map's targets.
ghost use Rattle.std.specs.Prelude.{◌≡◌, ◌∷◌, [], IfOk, IfErr, OnOk, OnErr, IsErrOf, IsTrue};
ghost use Rattle.std.specs.String.{string_bytes};
ghost use Rattle.std.specs.List.{flat_map};
ghost use Rattle.aff_model.specs.Causes.{HasCause};
ghost use Rattle.aff_fields.specs.Entry.{entry_bytes};
ghost use Rattle.aff_spec.specs.Appends.{applied, Reaches};
ghost use Rattle.aff_spec.specs.Names.{map_name, idx_name, stream_urn, image_urn};
ghost use Rattle.aff_spec.specs.Volumes.{targets_text};

use crate::pending::Pending;
use aff_fields::{Entry, write_entries};
use aff_names::{Urn, Uuid, named_segment};
use aff_outside::{Folder, FolderError};
use std::alloc::{AllocError, Global};

/// The map of a volume and the list of its targets.
#[derive(Drop)]
pub struct Segments {
    pub map: Pending,
    pub idx: Pending,
}

// The text of the targets: the stream, and the symbolic streams of zeros and of unreadable data.
fn targets(alloc: Global, stream: &str) -> Result<String, AllocError>
    ensures { IfOk result (λ text. string_bytes text ≡ targets_text stream.now) }
{
    format!(in alloc;
        "{stream}\nhttp://aff4.org/Schema#Zero\nhttp://aff4.org/Schema#UnreadableData\n"
    )
}

// The map with these entries.
fn map(alloc: Global, uuid: &Uuid, entries: &[Entry]) -> Result<Pending, FolderError>
    ensures ok { IfOk result (λ a. a ≡ (map_name (image_urn uuid.now), flat_map entry_bytes entries.now)) }
    ensures fault { IfErr result (λ e. e ≡ FolderError.Memory) }
{
    let image = Urn::of_image(alloc, uuid).map_err(|_| FolderError::Memory)?;
    let name = named_segment(alloc, &image, "map").map_err(|_| FolderError::Memory)?;
    let bytes = write_entries(alloc, entries).map_err(|_| FolderError::Memory)?;
    Ok(Pending { name, bytes })
}

// The list of targets.
fn idx(alloc: Global, uuid: &Uuid) -> Result<Pending, FolderError>
    ensures ok { IfOk result (λ a. a ≡ (idx_name (image_urn uuid.now), targets_text (stream_urn uuid.now))) }
    ensures fault { IfErr result (λ e. e ≡ FolderError.Memory) }
{
    let image = Urn::of_image(alloc, uuid).map_err(|_| FolderError::Memory)?;
    let name = named_segment(alloc, &image, "idx").map_err(|_| FolderError::Memory)?;
    let stream = Urn::of_stream(alloc, uuid).map_err(|_| FolderError::Memory)?;
    let bytes = targets(alloc, stream.text())?.into_bytes();
    Ok(Pending { name, bytes })
}

/// The map with these entries, and the list of its targets.
pub fn segments_of(alloc: Global, uuid: &Uuid, entries: &[Entry]) -> Result<Segments, FolderError>
    ensures map { IfOk result (λ s. s.map ≡ (map_name (image_urn uuid.now), flat_map entry_bytes entries.now)) }
    ensures idx { IfOk result (λ s. s.idx ≡ (idx_name (image_urn uuid.now), targets_text (stream_urn uuid.now))) }
    ensures fault { IfErr result (λ e. e ≡ FolderError.Memory) }
{
    let map = map(alloc, uuid, entries)?;
    let idx = idx(alloc, uuid)?;
    Ok(Segments { map, idx })
}

impl Segments {
    /// Appends the map, and the list of its targets.
    pub fn make<F: Folder>(&self, folder: &mut F) -> Result<(), FolderError>
        ensures ok { OnOk result (IsTrue F.tells → F.held folder.new ≡ applied (F.held folder.old) (self.now.map ∷ self.now.idx ∷ [])) }
        ensures part { OnErr result (IsTrue F.tells → Reaches (F.held folder.old) (self.now.map ∷ self.now.idx ∷ []) (F.held folder.new)) }
        ensures cause { HasCause (F.folder_faults folder.old) (F.folder_faults folder.new) (IsErrOf result FolderError.Failed) }
    {
        if let Err(error) = self.map.make(folder) {
            return Err(error);
        }
        self.idx.make(folder)
    }
}
