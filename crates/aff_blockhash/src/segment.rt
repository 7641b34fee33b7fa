//! The three segments of a bevvy's block hashes.
ghost use Rattle.std.specs.Prelude.{◌≡◌, ◌<◌, ◌∷◌, [], map, IfOk, OnOk, OnErr, IsErrOf, IsTrue};
ghost use Rattle.std.specs.List.{flat_map};
ghost use Rattle.aff_model.specs.Causes.{HasCause};
ghost use Rattle.aff_spec.specs.Appends.{applied, Reaches};
ghost use Rattle.aff_spec.specs.Bevvies.{hash_appends};
ghost use Rattle.aff_blockhash.specs.Pending.{sums_in};
ghost use Rattle.aff_blockhash.specs.Kept.{kept_append, kept_digest, kept_suffix};

use aff_hash::ChunkSums;
use aff_names::{Urn, segment_name};
use aff_outside::{Folder, FolderError};
use std::alloc::{AllocError, Global};

// The hash functions whose digests are kept of each chunk.
#[derive(Clone, Copy)]
enum Kept {
    Md5,
    Sha1,
    Sha256,
}

impl Kept {
    // What stands behind a bevvy's number in the name of its segment.
    fn suffix(self) -> &'static str
        ensures { result.now ≡ kept_suffix self }
    {
        match self {
            Kept::Md5 => ".blockHash.md5",
            Kept::Sha1 => ".blockHash.sha1",
            Kept::Sha256 => ".blockHash.sha256",
        }
    }

    // The digest under this hash function.
    fn digest(self, sums: &ChunkSums) -> &[u8]
        ensures { result.now ≡ kept_digest self (sums_in sums.now) }
    {
        match self {
            Kept::Md5 => &sums.md5,
            Kept::Sha1 => &sums.sha1,
            Kept::Sha256 => &sums.sha256,
        }
    }
}

// Appends the segments of a bevvy with these digests.
pub(crate) fn close<F: Folder>(
    alloc: Global,
    folder: &mut F,
    stream: &Urn,
    bevvy: u32,
    sums: &[ChunkSums],
) -> Result<(), FolderError>
    requires { bevvy < 100000000 }
    ensures ok { OnOk result (IsTrue F.tells → F.held folder.new ≡ applied (F.held folder.old) (hash_appends stream.now bevvy (map sums_in sums.now))) }
    ensures part { OnErr result (IsTrue F.tells → Reaches (F.held folder.old) (hash_appends stream.now bevvy (map sums_in sums.now)) (F.held folder.new)) }
    ensures cause { HasCause (F.folder_faults folder.old) (F.folder_faults folder.new) (IsErrOf result FolderError.Failed) }
{
    if let Err(error) = write(alloc, folder, stream, bevvy, Kept::Md5, sums) {
        return Err(error);
    }
    if let Err(error) = write(alloc, folder, stream, bevvy, Kept::Sha1, sums) {
        return Err(error);
    }
    write(alloc, folder, stream, bevvy, Kept::Sha256, sums)
}

// Appends the segment of one hash function.
fn write<F: Folder>(
    alloc: Global,
    folder: &mut F,
    stream: &Urn,
    bevvy: u32,
    kept: Kept,
    sums: &[ChunkSums],
) -> Result<(), FolderError>
    requires { bevvy < 100000000 }
    ensures ok { OnOk result (IsTrue F.tells → F.held folder.new ≡ applied (F.held folder.old) (kept_append kept stream.now bevvy (map sums_in sums.now) ∷ [])) }
    ensures part { OnErr result (IsTrue F.tells → Reaches (F.held folder.old) (kept_append kept stream.now bevvy (map sums_in sums.now) ∷ []) (F.held folder.new)) }
    ensures cause { HasCause (F.folder_faults folder.old) (F.folder_faults folder.new) (IsErrOf result FolderError.Failed) }
{
    let Ok(name) = segment_name(alloc, stream, bevvy, kept.suffix()) else {
        return Err(FolderError::Memory);
    };
    let Ok(bytes) = joined(alloc, kept, sums) else {
        return Err(FolderError::Memory);
    };
    append(folder, name.as_str(), &bytes)
}

// The digests of one hash function, one after another.
fn joined(alloc: Global, kept: Kept, sums: &[ChunkSums]) -> Result<Vec<u8>, AllocError>
    ensures { IfOk result (λ bytes. bytes.items ≡ flat_map (kept_digest kept) (map sums_in sums.now)) }
{
    let mut bytes = Vec::new(alloc);
    for sums in sums {
        bytes.extend_from_slice(kept.digest(sums))?;
    }
    Ok(bytes)
}

// One append.
fn append<F: Folder>(folder: &mut F, name: &str, bytes: &[u8]) -> Result<(), FolderError>
    ensures ok { OnOk result (IsTrue F.tells → F.held folder.new ≡ applied (F.held folder.old) ((name.now, bytes.now) ∷ [])) }
    ensures part { OnErr result (IsTrue F.tells → Reaches (F.held folder.old) ((name.now, bytes.now) ∷ []) (F.held folder.new)) }
    ensures cause { HasCause (F.folder_faults folder.old) (F.folder_faults folder.new) (IsErrOf result FolderError.Failed) }
{
    match folder.append(name, bytes) {
        Ok(_) => Ok(()),
        Err(error) => Err(error),
    }
}
