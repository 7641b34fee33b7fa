//! What a volume's segments are by their lengths.
ghost use Rattle.std.specs.Prelude.{◌≡◌, ◌↔◌, ℕ, ◌*◌, ◌<◌, ◌≤◌, ◌++◌, Some, IfOk, IfErr, OnOk, IsTrue};
ghost use Rattle.aff_model.specs.Plan.{chunk_count};
ghost use Rattle.aff_bevvy.specs.Segments.{AreSorted, listed_length};
ghost use Rattle.aff_spec.specs.BlockHashes.{chunks_in as chunks_of_bevvy};
ghost use Rattle.aff_spec.specs.Names.{eight_digits, idx_name, map_name, segment_in};
ghost use Rattle.aff_volume.specs.Hashed.{AreHashed, IsHashed};
ghost use Rattle.aff_volume.specs.Listing.{IsOfList, LacksHashes, LacksTables};

use crate::VolumeError;
use aff_bevvy::length_of;
use aff_model::{BEVVY, CHUNK, Memory};
use aff_names::{Urn, named_segment, segment_name};
use aff_outside::Segment;
use std::alloc::Global;

/// The lengths of an image's map and of the list of its targets.
#[derive(Clone, Copy)]
pub(crate) struct Tables {
    pub map_len: u64,
    pub idx_len: u64,
}

/// Looks up the tables of an image.
pub(crate) fn tables_of(
    alloc: Global,
    segments: &[Segment],
    image: &Urn,
) -> Result<Tables, VolumeError>
    ensures map { IfOk result (λ tables. AreSorted segments.now → listed_length segments.now (map_name image.now) ≡ Some tables.map_len) }
    ensures idx { IfOk result (λ tables. AreSorted segments.now → listed_length segments.now (idx_name image.now) ≡ Some tables.idx_len) }
    ensures refused { IfErr result (λ e. AreSorted segments.now → LacksTables (listed_length segments.now) image.now e) }
    ensures early { IfErr result IsOfList }
{
    let Ok(map) = named_segment(alloc, image, "map") else {
        return Err(VolumeError::Memory);
    };
    let Ok(idx) = named_segment(alloc, image, "idx") else {
        return Err(VolumeError::Memory);
    };
    let Some(map_len) = length_of(segments, map.as_str()) else {
        return Err(VolumeError::NoMap);
    };
    let Some(idx_len) = length_of(segments, idx.as_str()) else {
        return Err(VolumeError::NoMap);
    };
    Ok(Tables { map_len, idx_len })
}

/// Checks the block hashes of a stream of so many chunks.
pub(crate) fn check_hashes(
    alloc: Global,
    segments: &[Segment],
    stream: &Urn,
    chunks: u64,
) -> Result<(), VolumeError>
    requires { chunks ≤ 536870912 }
    ensures hashed { OnOk result (AreSorted segments.now → AreHashed (listed_length segments.now) stream.now chunks) }
    ensures refused { IfErr result (λ e. AreSorted segments.now → LacksHashes (listed_length segments.now) stream.now chunks e) }
    ensures early { IfErr result IsOfList }
{
    for bevvy in 0..chunks.div_ceil(BEVVY) as u32 {
        let hashed = match is_hashed(alloc, segments, stream, chunks, bevvy) {
            Ok(hashed) => hashed,
            Err(Memory) => return Err(VolumeError::Memory),
        };
        if !hashed {
            return Err(VolumeError::BlockHashes(bevvy));
        }
    }
    Ok(())
}

/// How many chunks a stream of so many bytes has.
pub(crate) fn count_chunks(size: u64) -> u64
    ensures { result ≡ chunk_count size }
{
    size.div_ceil(CHUNK)
}

// Whether a bevvy of a stream of so many chunks has its three block hash segments.
fn is_hashed(
    alloc: Global,
    segments: &[Segment],
    stream: &Urn,
    chunks: u64,
    bevvy: u32,
) -> Result<bool, Memory>
    requires { bevvy < 100000000 }
    ensures { IfOk result (λ hashed. AreSorted segments.now → IsTrue hashed ↔ IsHashed (listed_length segments.now) stream.now chunks bevvy) }
{
    let count = chunks_in(chunks, bevvy);
    let by_md5 = has_length(alloc, segments, stream, bevvy, ".blockHash.md5", 16 * count)?;
    let by_sha1 = has_length(
        alloc,
        segments,
        stream,
        bevvy,
        ".blockHash.sha1",
        20 * count,
    )?;
    let by_sha256 = has_length(
        alloc,
        segments,
        stream,
        bevvy,
        ".blockHash.sha256",
        32 * count,
    )?;
    Ok(by_md5 && by_sha1 && by_sha256)
}

/// How many chunks a bevvy has of so many.
pub(crate) fn chunks_in(chunks: u64, bevvy: u32) -> u64
    ensures { result ≡ chunks_of_bevvy chunks bevvy }
{
    chunks.saturating_sub(BEVVY * bevvy as u64).min(BEVVY)
}

// Whether the segment of a stream with this number and suffix has this length.
fn has_length(
    alloc: Global,
    segments: &[Segment],
    stream: &Urn,
    number: u32,
    suffix: &str,
    len: u64,
) -> Result<bool, Memory>
    requires { number < 100000000 }
    ensures { IfOk result (λ has. AreSorted segments.now → IsTrue has ↔ (listed_length segments.now (segment_in stream.now (eight_digits number ++ suffix.now)) ≡ Some len)) }
{
    let name = match segment_name(alloc, stream, number, suffix) {
        Ok(name) => name,
        Err(Memory) => return Err(Memory),
    };
    match length_of(segments, name.as_str()) {
        Some(found) => Ok(found == len),
        None => Ok(false),
    }
}
