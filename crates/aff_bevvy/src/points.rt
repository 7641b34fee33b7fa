//! Whether the points of a stream's indexes are those of its chunks.
ghost use Rattle.std.specs.Prelude.{◌≡◌, ℕ, ◌+◌, ◌*◌, ◌<◌, ◌≤◌, Some, length, slice_get, slice_index, IfOk, IfErr, OnOk, IsErrOf, IsTrue};
ghost use Rattle.aff_fields.specs.declared.point.Point.{Point};
ghost use Rattle.aff_fields.specs.Point.{points_of};
ghost use Rattle.aff_model.specs.Causes.{HasCause};
ghost use Rattle.aff_model.specs.Held.{bytes_of};
ghost use Rattle.aff_model.specs.Plan.{chunk_count};
ghost use Rattle.aff_outside.specs.declared.folder.FolderError.TheVariants.{Failed};
ghost use Rattle.aff_spec.specs.Bevvies.{bevvy_count};
ghost use Rattle.aff_spec.specs.BlockHashes.{chunks_in as chunks_of_bevvy};
ghost use Rattle.aff_spec.specs.Names.{index_name, bevvy_name};
ghost use Rattle.aff_bevvy.specs.Checks.{IsChunkFaultFrom, IsFirstPointFault, IsOfChunks, IsOfPoints, IsPointFault};
ghost use Rattle.aff_bevvy.specs.Faults.{IsChunkFault};
ghost use Rattle.aff_bevvy.specs.Segments.{AreBevvies, HaveLengths, held_length};
ghost use Rattle.aff_bevvy.specs.Streams.{IsChunk, IsPoint, chunk_len as length_of_chunk};

use crate::StreamError;
use crate::bevvies::chunks_in;
use crate::error::stream_error;
use aff_fields::{FieldsError, Point, read_points, zeros};
use aff_model::{BEVVY, CHUNK, Memory};
use aff_names::{Urn, segment_name};
use aff_outside::{Folder, FolderError};
use std::alloc::Global;

/// How many chunks a stream of so many bytes has.
pub fn count_chunks(size: u64) -> u64
    ensures { result ≡ chunk_count size }
{
    size.div_ceil(CHUNK)
}

/// How many bytes of a chunk a stream of so many has.
pub fn chunk_len(size: u64, chunk: u64) -> u32
    requires { chunk ≤ 536870912 }
    ensures { result ≡ length_of_chunk size chunk }
{
    size.saturating_sub(CHUNK * chunk).min(CHUNK) as u32
}

/// Checks the point of a chunk, whose bevvy has `len` bytes.
fn check_point(point: &Point, size: u64, len: u64, chunk: u64) -> Result<(), StreamError>
    requires { chunk ≤ 536870912 }
    ensures ok { OnOk result (IsPoint size len chunk point.now) }
    ensures fault { IfErr result (IsPointFault size len chunk point.now) }
{
    let end = point.at as u128 + point.len as u128;
    if end > len as u128 {
        return Err(StreamError::PointPastEnd(chunk));
    }
    if u64::from(point.len) != CHUNK && point.len != chunk_len(size, chunk) {
        return Err(StreamError::PointLength(chunk, point.len));
    }
    Ok(())
}

/// Checks the points of a bevvy of `len` bytes, the first of which is that of chunk `first`.
fn check_points(points: &[Point], size: u64, len: u64, first: u64) -> Result<(), StreamError>
    requires { first + length points.now ≤ 536870912 }
    ensures ok { OnOk result ((k : ℕ) (p : Point) → slice_get points.now k ≡ Some p → IsPoint size len (first + k) p) }
    ensures fault { IfErr result (IsFirstPointFault points.now size len first) }
    ensures late { IfErr result IsOfPoints }
{
    for (k, point) in points.iter().enumerate() {
        if let Err(fault) = check_point(point, size, len, first + k as u64) {
            return Err(fault);
        }
    }
    Ok(())
}

/// Reads the index of a bevvy of so many chunks.
fn read_index<F: Folder>(
    alloc: Global,
    folder: &mut F,
    stream: &Urn,
    bevvy: u32,
    count: u32,
) -> Result<Vec<Point>, FolderError>
    requires low { bevvy < 100000000 }
    requires few { count ≤ 1024 }
    requires index { IsTrue F.tells → held_length (F.held folder.old) (index_name stream.now bevvy) ≡ Some (12 * count) }
    ensures points { IfOk result (λ points. IsTrue F.tells → points.items ≡ points_of (bytes_of (F.held folder.old) (index_name stream.now bevvy))) }
    ensures count { IfOk result (λ points. length points.items ≡ count) }
    ensures same { IsTrue F.tells → F.held folder.new ≡ F.held folder.old }
    ensures cause { HasCause (F.folder_faults folder.old) (F.folder_faults folder.new) (IsErrOf result Failed) }
{
    let name = match segment_name(alloc, stream, bevvy, ".index") {
        Ok(name) => name,
        Err(Memory) => return Err(FolderError::Memory),
    };
    let mut bytes = match zeros(alloc, 12 * count as usize) {
        Ok(bytes) => bytes,
        Err(_) => return Err(FolderError::Memory),
    };
    if let Err(fault) = folder.read_at(name.as_str(), 0, &mut bytes) {
        return Err(fault);
    }
    match read_points(alloc, &bytes) {
        Ok(points) => Ok(points),
        Err(FieldsError::Memory) => Err(FolderError::Memory),
        Err(FieldsError::Ragged(_)) => unreachable!(),
    }
}

/// Checks the points of a bevvy of `len` bytes in a stream of `size` bytes.
fn check_index<F: Folder>(
    alloc: Global,
    folder: &mut F,
    stream: &Urn,
    size: u64,
    bevvy: u32,
    len: u64,
) -> Result<(), StreamError>
    requires size { size ≤ 17592186044416 }
    requires low { bevvy < bevvy_count (chunk_count size) }
    requires index { IsTrue F.tells → held_length (F.held folder.old) (index_name stream.now bevvy) ≡ Some (12 * chunks_of_bevvy (chunk_count size) bevvy) }
    requires room { IsTrue F.tells → length (bytes_of (F.held folder.old) (bevvy_name stream.now bevvy)) ≡ len }
    ensures ok { OnOk result (IsTrue F.tells → (c : ℕ) → 1024 * bevvy ≤ c → c < 1024 * (bevvy + 1) → c < chunk_count size → IsChunk (F.held folder.old) stream.now size c) }
    ensures fault { IfErr result (λ e. IsTrue F.tells → IsChunkFaultFrom (F.held folder.old) stream.now size (1024 * bevvy) e) }
    ensures late { IfErr result IsOfChunks }
    ensures same { IsTrue F.tells → F.held folder.new ≡ F.held folder.old }
    ensures cause { HasCause (F.folder_faults folder.old) (F.folder_faults folder.new) (IsErrOf result StreamError.Failed) }
{
    let count = chunks_in(count_chunks(size), bevvy);
    let points = match read_index(alloc, folder, stream, bevvy, count) {
        Ok(points) => points,
        Err(error) => return Err(stream_error(error)),
    };
    check_points(&points, size, len, BEVVY * bevvy as u64)
}

/// Checks the points of a stream of `size` bytes, whose bevvies have these lengths.
pub fn check_chunks<F: Folder>(
    alloc: Global,
    folder: &mut F,
    stream: &Urn,
    size: u64,
    lens: &[u64],
) -> Result<(), StreamError>
    requires size { size ≤ 17592186044416 }
    requires count { length lens.now ≡ bevvy_count (chunk_count size) }
    requires bevvies { IsTrue F.tells → AreBevvies (held_length (F.held folder.old)) stream.now (chunk_count size) }
    requires lengths { IsTrue F.tells → HaveLengths (held_length (F.held folder.old)) stream.now (bevvy_count (chunk_count size)) lens.now }
    ensures ok { OnOk result (IsTrue F.tells → (c : ℕ) → c < chunk_count size → IsChunk (F.held folder.old) stream.now size c) }
    ensures fault { IfErr result (λ e. IsTrue F.tells → IsChunkFault (F.held folder.old) stream.now size e) }
    ensures late { IfErr result IsOfChunks }
    ensures same { IsTrue F.tells → F.held folder.new ≡ F.held folder.old }
    ensures cause { HasCause (F.folder_faults folder.old) (F.folder_faults folder.new) (IsErrOf result StreamError.Failed) }
{
    for (bevvy, len) in lens.iter().enumerate() {
        if let Err(fault) = check_index(alloc, folder, stream, size, bevvy as u32, *len) {
            return Err(fault);
        }
    }
    Ok(())
}
