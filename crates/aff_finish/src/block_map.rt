//! The block map hash of a volume whose map and block hashes are in a folder.
ghost use Rattle.std.specs.Prelude.{◌≡◌, ◌≤◌, ◌<◌, ◌++◌, ℕ, List, length, IfOk, OnOk, IsErrOf, IsTrue};
ghost use Rattle.sha2.specs.Sha512.{sha512};
ghost use Rattle.aff_model.specs.Causes.{HasCause};
ghost use Rattle.aff_model.specs.Held.{bytes_of};
ghost use Rattle.aff_spec.specs.Bevvies.{bevvy_count};
ghost use Rattle.aff_spec.specs.Names.{stream_urn, image_urn};
ghost use Rattle.aff_finish.specs.BlockMap.{block_hashes, block_map_digests};
ghost use Rattle.aff_finish.specs.Kept.{HasAllKept, HasKept, HasSegments, kept_digest, kept_name, kept_size, kept_suffix};

use crate::feed::feed_segment;
use crate::pending::Pending;
use crate::segments::Segments;
use aff_fields::zeros;
use aff_hash::Linear;
use aff_model::BEVVY;
use aff_names::{Urn, Uuid, segment_name};
use aff_outside::{Folder, FolderError};
use std::alloc::Global;

// How many bytes are read and hashed at a time. (The hasher takes all four linear digests, of which one is used: block
// hashes are 68 bytes for 32,768 of the stream.)
const PIECE_LEN: usize = 65_536;

/// The hash functions of block hashes, in the order in which their segments are appended and hashed.
#[derive(Clone, Copy)]
pub enum Kept {
    Md5,
    Sha1,
    Sha256,
}

impl Kept {
    // What stands behind a bevvy's number in the name of its segment.
    fn suffix(self) -> &'static str
        ensures { result.now ≡ kept_suffix self }
    {
        match self {
            Kept::Md5 => ".blockHash.md5",
            Kept::Sha1 => ".blockHash.sha1",
            Kept::Sha256 => ".blockHash.sha256",
        }
    }

    // The bytes of a digest.
    fn size(self) -> u64
        ensures { result ≡ kept_size self }
    {
        match self {
            Kept::Md5 => 16,
            Kept::Sha1 => 20,
            Kept::Sha256 => 32,
        }
    }
}

/// The SHA-512 of five digests: those of the block hashes of `chunks` chunks of a volume's stream by each hash
/// function, of its map, and of the list of the map's targets, all of them as the folder has them. What the folder
/// holds stays, whatever the answer.
pub fn hash_block_map<F: Folder>(
    alloc: Global,
    folder: &mut F,
    uuid: &Uuid,
    chunks: u64,
    segments: &Segments,
) -> Result<[u8; 64], FolderError>
    requires few { bevvy_count chunks ≤ 100000000 }
    requires there { IsTrue F.tells → HasSegments (F.held folder.old) uuid.now chunks segments.now.map segments.now.idx }
    ensures hash { IfOk result (λ hash. (digests : List ℕ) × (hash ≡ sha512 digests)
        × (IsTrue F.tells → digests ≡ block_map_digests (F.held folder.old) (stream_urn uuid.now) (image_urn uuid.now) (bevvy_count chunks))) }
    ensures same { IsTrue F.tells → F.held folder.new ≡ F.held folder.old }
    ensures cause { HasCause (F.folder_faults folder.old) (F.folder_faults folder.new) (IsErrOf result FolderError.Failed) }
{
    let Ok(stream) = Urn::of_stream(alloc, uuid) else {
        return Err(FolderError::Memory);
    };
    let Ok(mut buffer) = zeros(alloc, PIECE_LEN) else {
        return Err(FolderError::Memory);
    };
    let mut outer = Linear::new();
    if let Err(error) = feed_block_hashes(alloc, folder, &stream, chunks, &mut buffer, &mut outer) {
        return Err(error);
    }
    if let Err(error) = feed_pending(folder, &segments.map, &mut buffer, &mut outer) {
        return Err(error);
    }
    if let Err(error) = feed_pending(folder, &segments.idx, &mut buffer, &mut outer) {
        return Err(error);
    }
    Ok(outer.finish().sha512)
}

/// Feeds the three digests of the block hashes of `chunks` chunks of a stream, one for each hash function. What the
/// folder holds stays, whatever the answer.
pub fn feed_block_hashes<F: Folder>(
    alloc: Global,
    folder: &mut F,
    stream: &Urn,
    chunks: u64,
    buffer: &mut [u8],
    outer: &mut Linear,
) -> Result<(), FolderError>
    requires few { bevvy_count chunks ≤ 100000000 }
    requires room { 0 < length buffer.old }
    requires there { IsTrue F.tells → HasAllKept (F.held folder.old) stream.now chunks }
    ensures fed { OnOk result (IsTrue F.tells → outer.new ≡ outer.old ++ (kept_digest (F.held folder.old) stream.now chunks Kept.Md5
        ++ (kept_digest (F.held folder.old) stream.now chunks Kept.Sha1 ++ kept_digest (F.held folder.old) stream.now chunks Kept.Sha256))) }
    ensures same { IsTrue F.tells → F.held folder.new ≡ F.held folder.old }
    ensures cause { HasCause (F.folder_faults folder.old) (F.folder_faults folder.new) (IsErrOf result FolderError.Failed) }
{
    if let Err(error) = feed_kept(alloc, folder, stream, chunks, Kept::Md5, buffer, outer) {
        return Err(error);
    }
    if let Err(error) = feed_kept(alloc, folder, stream, chunks, Kept::Sha1, buffer, outer) {
        return Err(error);
    }
    feed_kept(alloc, folder, stream, chunks, Kept::Sha256, buffer, outer)
}

// Feeds the digest of the block hashes of one hash function.
fn feed_kept<F: Folder>(
    alloc: Global,
    folder: &mut F,
    stream: &Urn,
    chunks: u64,
    kept: Kept,
    buffer: &mut [u8],
    outer: &mut Linear,
) -> Result<(), FolderError>
    requires few { bevvy_count chunks ≤ 100000000 }
    requires room { 0 < length buffer.old }
    requires there { IsTrue F.tells → HasKept (F.held folder.old) stream.now chunks kept }
    ensures fed { OnOk result (IsTrue F.tells → outer.new ≡ outer.old ++ kept_digest (F.held folder.old) stream.now chunks kept) }
    ensures same { IsTrue F.tells → F.held folder.new ≡ F.held folder.old }
    ensures cause { HasCause (F.folder_faults folder.old) (F.folder_faults folder.new) (IsErrOf result FolderError.Failed) }
{
    let mut inner = Linear::new();
    match feed_bevvies(alloc, folder, stream, chunks, kept, buffer, &mut inner) {
        Ok(()) => {
            outer.update(&inner.finish().sha512);
            Ok(())
        }
        Err(error) => Err(error),
    }
}

// Feeds the block hashes of one hash function, bevvy by bevvy.
fn feed_bevvies<F: Folder>(
    alloc: Global,
    folder: &mut F,
    stream: &Urn,
    chunks: u64,
    kept: Kept,
    buffer: &mut [u8],
    inner: &mut Linear,
) -> Result<(), FolderError>
    requires few { bevvy_count chunks ≤ 100000000 }
    requires room { 0 < length buffer.old }
    requires there { IsTrue F.tells → HasKept (F.held folder.old) stream.now chunks kept }
    ensures fed { OnOk result (IsTrue F.tells → inner.new ≡ inner.old ++ block_hashes (kept_name kept) (F.held folder.old) stream.now (bevvy_count chunks)) }
    ensures same { IsTrue F.tells → F.held folder.new ≡ F.held folder.old }
    ensures cause { HasCause (F.folder_faults folder.old) (F.folder_faults folder.new) (IsErrOf result FolderError.Failed) }
{
    for bevvy in 0..chunks.div_ceil(BEVVY) as u32 {
        let len = kept.size() * (chunks - BEVVY * bevvy as u64).min(BEVVY);
        if let Err(error) = feed_bevvy(alloc, folder, stream, bevvy, kept, len, buffer, inner) {
            return Err(error);
        }
    }
    Ok(())
}

// Feeds the block hashes of one bevvy, which have this length.
fn feed_bevvy<F: Folder>(
    alloc: Global,
    folder: &mut F,
    stream: &Urn,
    bevvy: u32,
    kept: Kept,
    len: u64,
    buffer: &mut [u8],
    inner: &mut Linear,
) -> Result<(), FolderError>
    requires number { bevvy < 100000000 }
    requires room { 0 < length buffer.old }
    requires long { IsTrue F.tells → length (bytes_of (F.held folder.old) (kept_name kept stream.now bevvy)) ≡ len }
    ensures fed { OnOk result (IsTrue F.tells → inner.new ≡ inner.old ++ bytes_of (F.held folder.old) (kept_name kept stream.now bevvy)) }
    ensures same { IsTrue F.tells → F.held folder.new ≡ F.held folder.old }
    ensures cause { HasCause (F.folder_faults folder.old) (F.folder_faults folder.new) (IsErrOf result FolderError.Failed) }
{
    match segment_name(alloc, stream, bevvy, kept.suffix()) {
        Ok(name) => feed_segment(folder, name.as_str(), len, buffer, inner),
        Err(_) => Err(FolderError::Memory),
    }
}

// Feeds the digest of a segment that has these bytes.
fn feed_pending<F: Folder>(
    folder: &mut F,
    segment: &Pending,
    buffer: &mut [u8],
    outer: &mut Linear,
) -> Result<(), FolderError>
    requires room { 0 < length buffer.old }
    requires there { IsTrue F.tells → bytes_of (F.held folder.old) segment.now.0 ≡ segment.now.1 }
    ensures fed { OnOk result (IsTrue F.tells → outer.new ≡ outer.old ++ sha512 (bytes_of (F.held folder.old) segment.now.0)) }
    ensures same { IsTrue F.tells → F.held folder.new ≡ F.held folder.old }
    ensures cause { HasCause (F.folder_faults folder.old) (F.folder_faults folder.new) (IsErrOf result FolderError.Failed) }
{
    let len = segment.bytes.len() as u64;
    feed_digest(folder, segment.name.as_str(), len, buffer, outer)
}

/// Feeds the digest of a segment of this length, which is read in pieces of at most the buffer's. What the folder holds
/// stays, whatever the answer.
pub fn feed_digest<F: Folder>(
    folder: &mut F,
    name: &str,
    len: u64,
    buffer: &mut [u8],
    outer: &mut Linear,
) -> Result<(), FolderError>
    requires room { 0 < length buffer.old }
    requires long { IsTrue F.tells → length (bytes_of (F.held folder.old) name.now) ≡ len }
    ensures fed { OnOk result (IsTrue F.tells → outer.new ≡ outer.old ++ sha512 (bytes_of (F.held folder.old) name.now)) }
    ensures same { IsTrue F.tells → F.held folder.new ≡ F.held folder.old }
    ensures cause { HasCause (F.folder_faults folder.old) (F.folder_faults folder.new) (IsErrOf result FolderError.Failed) }
{
    let mut inner = Linear::new();
    match feed_segment(folder, name, len, buffer, &mut inner) {
        Ok(()) => {
            outer.update(&inner.finish().sha512);
            Ok(())
        }
        Err(error) => Err(error),
    }
}
