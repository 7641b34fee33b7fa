//! What no clause says: that calls succeed where there is memory, and worked refusals.
ghost use Rattle.std.specs.Prelude.{◌≡◌, ◌+◌, ◌≤◌, length, IfOk};

use crate::bevvies::bevvy_lengths;
use crate::error::stream_error;
use crate::listed::are_sorted;
use crate::{StreamError, StreamReader, StreamWriter};
use aff_fields::{Point, write_points};
use aff_memory::MemoryFolder;
use aff_model::Memory;
use aff_names::Urn;
use aff_outside::{Folder, FolderError, Segment};
use std::alloc::{AllocError, Global};
use std::test::Fail;

const STREAM: &str = "aff4://11111111-2222-4333-8444-555555555555/data";

const BEVVY: &str = "aff4%3A%2F%2F11111111-2222-4333-8444-555555555555%2Fdata/00000000";

const INDEX: &str = "aff4%3A%2F%2F11111111-2222-4333-8444-555555555555%2Fdata/00000000.index";

const NEXT_BEVVY: &str = "aff4%3A%2F%2F11111111-2222-4333-8444-555555555555%2Fdata/00000001";

const NEXT_INDEX: &str = "aff4%3A%2F%2F11111111-2222-4333-8444-555555555555%2Fdata/00000001.index";

fn filled(alloc: Global, byte: u8, count: usize) -> Result<Vec<u8>, AllocError>
    ensures { IfOk result (λ bytes. length bytes.items ≡ count) }
{
    vec![in alloc; byte; count]
}

/// A folder no call of which fails.
fn sound(alloc: Global) -> MemoryFolder {
    MemoryFolder::new(alloc, Vec::new(alloc), Vec::new(alloc))
}

/// Appends so many chunks, whose first and last bytes are the chunk's number modulo 251.
fn append_chunks(
    alloc: Global,
    writer: &mut StreamWriter,
    folder: &mut MemoryFolder,
    count: u64,
) -> Result<(), FolderError>
    requires none { writer.old.count ≡ 0 }
    requires few { count ≤ 2000 }
{
    let mut chunk = filled(alloc, 0, 32_768)?;
    for k in 0..count {
        chunk[0] = (k % 251) as u8;
        chunk[32_767] = (k % 251) as u8;
        writer.append_chunk(folder, &chunk)?;
    }
    Ok(())
}

/// The length of a listed segment.
fn listed(folder: &mut MemoryFolder, name: &str) -> Option<u64> {
    let segments = folder.list().ok()?;
    for segment in &segments {
        if segment.name.as_str() == name {
            return Some(segment.len);
        }
    }
    None
}

/// Opens a stream of a size, and reads two of its bytes.
fn two_bytes(
    alloc: Global,
    folder: &mut MemoryFolder,
    stream: &Urn,
    size: u64,
    at: u64,
) -> Result<[u8; 2], StreamError>
    requires size { size ≤ 17592186044416 }
    requires inside { at + 2 ≤ size }
{
    let segments = match folder.list() {
        Ok(segments) => segments,
        Err(error) => return Err(stream_error(error)),
    };
    let reader = match StreamReader::open(alloc, folder, &segments, stream, size) {
        Ok(reader) => reader,
        Err(fault) => return Err(fault),
    };
    let mut bytes = [0; 2];
    match reader.read_at(folder, at, &mut bytes) {
        Ok(()) => Ok(bytes),
        Err(fault) => Err(fault),
    }
}

/// How a stream of a size is refused whose only bevvy has these points and 65,536 bytes.
fn refusal(alloc: Global, points: &[Point], size: u64) -> Result<Option<StreamError>, Fail>
    requires some { 2 ≤ size }
    requires size { size ≤ 17592186044416 }
{
    let stream = Urn::read(alloc, STREAM)?;
    let mut folder = sound(alloc);
    let bytes = filled(alloc, 7, 65_536)?;
    folder.append(BEVVY, &bytes).map_err(|_| "no bevvy")?;
    if !points.is_empty() {
        let index = write_points(alloc, points).map_err(|_| "no memory")?;
        folder.append(INDEX, &index).map_err(|_| "no index")?;
    }
    Ok(two_bytes(alloc, &mut folder, &stream, size, 0).err())
}

#[test]
fn a_stream_is_refused_for_its_first_fault(rt: HostRuntime) -> Result<(), Fail> {
    let first = Point { at: 0, len: 32_768 };
    let second = Point {
        at: 32_768,
        len: 32_768,
    };
    let past = Point {
        at: 65_536,
        len: 32_768,
    };
    let long = Point { at: 0, len: 32_769 };
    // A stream of 512 bytes: its chunk is stored padded, or without padding.
    let rest = Point { at: 0, len: 512 };
    let shorter = Point { at: 0, len: 511 };
    let cases: [(&[Point], u64, Option<StreamError>); 9] = [
        (&[first, second], 65_536, None),
        (&[], 65_536, Some(StreamError::NoSegment(0))),
        (&[first], 65_536, Some(StreamError::Ragged(0))),
        (&[first, past], 65_536, Some(StreamError::PointPastEnd(1))),
        (
            &[long, past],
            65_536,
            Some(StreamError::PointLength(0, 32_769)),
        ),
        (
            &[long, second],
            65_536,
            Some(StreamError::PointLength(0, 32_769)),
        ),
        (&[first], 512, None),
        (&[rest], 512, None),
        (&[shorter], 512, Some(StreamError::PointLength(0, 511))),
    ];
    for (points, size, expected) in cases {
        assert_eq!(rt;
            refusal(rt.alloc(), points, size.clamp(512, 65_536))?,
            expected
        );
    }
    Ok(())
}

#[test]
fn a_bevvy_is_closed_behind_its_last_chunk(rt: HostRuntime) -> Result<(), Fail> {
    let alloc = rt.alloc();
    let stream = Urn::read(alloc, STREAM)?;
    let mut folder = sound(alloc);
    let mut writer = StreamWriter::new(alloc, &stream).map_err(|_| "no writer")?;
    assert!(rt; append_chunks(alloc, &mut writer, &mut folder, 1_025).is_ok());
    assert_eq!(rt; listed(&mut folder, INDEX), Some(12_288));
    assert_eq!(rt; writer.finish(&mut folder), Ok(1_025));
    assert_eq!(rt; listed(&mut folder, NEXT_INDEX), Some(12));
    // The last byte of the first bevvy and the first one of the next.
    assert_eq!(rt;
        two_bytes(alloc, &mut folder, &stream, 33_587_200, 33_554_431),
        Ok([19, 20])
    );
    Ok(())
}

/// Writes a stream of one chunk.
fn write_one(alloc: Global, folder: &mut MemoryFolder, stream: &Urn) -> Result<(), FolderError> {
    let mut writer = match StreamWriter::new(alloc, stream) {
        Ok(writer) => writer,
        Err(Memory) => return Err(FolderError::Memory),
    };
    append_chunks(alloc, &mut writer, folder, 1)?;
    match writer.finish(folder) {
        Ok(_) => Ok(()),
        Err(fault) => Err(fault),
    }
}

/// Writes a stream of one chunk and reads of it, where the folder's call of this number fails.
fn one_failing(alloc: Global, call: u64) -> Result<Result<[u8; 2], StreamError>, Fail> {
    let stream = Urn::read(alloc, STREAM)?;
    let mut folder = MemoryFolder::new(alloc, vec![in alloc; call]?, Vec::new(alloc));
    let read = match write_one(alloc, &mut folder, &stream) {
        Ok(()) => two_bytes(alloc, &mut folder, &stream, 32_768, 0),
        Err(error) => Err(stream_error(error)),
    };
    Ok(read)
}

// The chunk, the index, the list, the index again, the chunk's point and its bytes.
#[test]
fn each_failed_call_is_answered(rt: HostRuntime) -> Result<(), Fail> {
    for call in 1..7 {
        assert_eq!(rt; one_failing(rt.alloc(), call)?, Err(StreamError::Failed));
    }
    assert_eq!(rt; one_failing(rt.alloc(), 7)?, Ok([0, 0]));
    Ok(())
}

/// A listed segment.
fn segment(alloc: Global, name: &str, len: u64) -> Result<Segment, AllocError> {
    let name = String::from_str(alloc, name)?;
    Ok(Segment { name, len })
}

/// A list that is sorted by name is searched by halving, and any other one from its front.
#[test]
fn bevvies_are_found_in_lists_of_any_order(rt: HostRuntime) -> Result<(), Fail> {
    let alloc = rt.alloc();
    let stream = Urn::read(alloc, STREAM)?;
    let mut segments = vec![in alloc;
        segment(alloc, BEVVY, 33_554_432)?,
        segment(alloc, INDEX, 12_288)?,
        segment(alloc, NEXT_BEVVY, 32_768)?,
        segment(alloc, NEXT_INDEX, 12)?,
        segment(alloc, "version.txt", 20)?,
    ]?;
    assert!(rt; are_sorted(&segments));
    let sorted = bevvy_lengths(alloc, &segments, &stream, 1_025).map_err(|_| "sorted")?;
    assert!(rt; sorted.as_slice() == [33_554_432, 32_768].as_slice());
    segments.reverse();
    assert!(rt; !are_sorted(&segments));
    let reversed = bevvy_lengths(alloc, &segments, &stream, 1_025).map_err(|_| "reversed")?;
    assert!(rt; reversed.as_slice() == sorted.as_slice());
    segments.remove(1);
    let short = bevvy_lengths(alloc, &segments, &stream, 1_025);
    assert!(rt; matches!(short, Err(StreamError::NoSegment(1))));
    Ok(())
}
