//! What a volume says of itself: the version of its format, its URN, and its metadata.
ghost use Rattle.std.specs.Prelude.{◌≡◌, ◌*◌, ◌≤◌, ◌∷◌, [], true, IfOk, OnOk, OnErr, IsErrOf, IsTrue};
ghost use Rattle.aff_model.specs.Causes.{HasCause};
ghost use Rattle.aff_spec.specs.Appends.{applied, Reaches};
ghost use Rattle.aff_spec.specs.Words.{is_uuid};
ghost use Rattle.aff_finish.specs.Container.{description_name, information_name, version_name, version_text};
ghost use Rattle.aff_finish.specs.Information.{info_of, information};

use crate::Hashes;
use crate::pending::append;
use aff_info::{Info, to_triples};
use aff_map::Target;
use aff_model::{CHUNK, MAX_SIZE, Memory};
use aff_names::{Urn, Uuid};
use aff_outside::{Folder, FolderError};
use aff_turtle::write;
use std::alloc::Global;

// The version of the format, and the tool that wrote it.
#[tactic(auto, unfolding(crate::specs::Container::version_text))]
fn version() -> &'static str
    ensures { result.now ≡ version_text }
{
    "major=1\nminor=0\ntool=live-imager 1\n"
}

// The metadata of a volume whose image has `size` bytes, and whose stream has `chunks` chunks.
fn info(alloc: Global, uuid: &Uuid, size: u64, chunks: u64, hashes: &Hashes) -> Result<Info, Memory>
    requires few { CHUNK * chunks ≤ MAX_SIZE }
    ensures { IfOk result (λ info. info ≡ info_of uuid.now size chunks hashes.now) }
{
    Ok(Info {
        volume: Urn::of_volume(alloc, uuid)?,
        stream: Urn::of_stream(alloc, uuid)?,
        image: Urn::of_image(alloc, uuid)?,
        stream_size: CHUNK * chunks,
        image_size: size,
        gap: Target::Unknown,
        linear: hashes.linear,
        block_map: hashes.block_map,
    })
}

/// The metadata of such a volume as their text.
pub fn information_of(
    alloc: Global,
    uuid: &Uuid,
    size: u64,
    chunks: u64,
    hashes: &Hashes,
) -> Result<Vec<u8>, Memory>
    requires uuid { is_uuid uuid.now ≡ true }
    requires small { size ≤ MAX_SIZE }
    requires few { CHUNK * chunks ≤ MAX_SIZE }
    ensures { IfOk result (λ text. text.items ≡ information uuid.now size chunks hashes.now) }
{
    let info = info(alloc, uuid, size, chunks, hashes)?;
    let triples = to_triples(alloc, &info)?;
    write(alloc, &triples)
}

// Appends the version.
fn append_version<F: Folder>(folder: &mut F) -> Result<(), FolderError>
    ensures ok { OnOk result (IsTrue F.tells → F.held folder.new ≡ applied (F.held folder.old) ((version_name, version_text) ∷ [])) }
    ensures part { OnErr result (IsTrue F.tells → Reaches (F.held folder.old) ((version_name, version_text) ∷ []) (F.held folder.new)) }
    ensures cause { HasCause (F.folder_faults folder.old) (F.folder_faults folder.new) (IsErrOf result FolderError.Failed) }
{
    append(folder, "version.txt", version().as_bytes())
}

// Appends the volume's URN.
fn append_description<F: Folder>(folder: &mut F, volume: &Urn) -> Result<(), FolderError>
    ensures ok { OnOk result (IsTrue F.tells → F.held folder.new ≡ applied (F.held folder.old) ((description_name, volume.now) ∷ [])) }
    ensures part { OnErr result (IsTrue F.tells → Reaches (F.held folder.old) ((description_name, volume.now) ∷ []) (F.held folder.new)) }
    ensures cause { HasCause (F.folder_faults folder.old) (F.folder_faults folder.new) (IsErrOf result FolderError.Failed) }
{
    append(folder, "container.description", volume.text().as_bytes())
}

/// Appends the version, the volume's URN, and the text of its metadata.
pub fn append_container<F: Folder>(
    folder: &mut F,
    volume: &Urn,
    information: &[u8],
) -> Result<(), FolderError>
    ensures ok { OnOk result (IsTrue F.tells → F.held folder.new ≡ applied (F.held folder.old) ((version_name, version_text) ∷ (description_name, volume.now) ∷ (information_name, information.now) ∷ [])) }
    ensures part { OnErr result (IsTrue F.tells → Reaches (F.held folder.old) ((version_name, version_text) ∷ (description_name, volume.now) ∷ (information_name, information.now) ∷ []) (F.held folder.new)) }
    ensures cause { HasCause (F.folder_faults folder.old) (F.folder_faults folder.new) (IsErrOf result FolderError.Failed) }
{
    if let Err(error) = append_version(folder) {
        return Err(error);
    }
    if let Err(error) = append_description(folder, volume) {
        return Err(error);
    }
    append(folder, "information.turtle", information)
}
