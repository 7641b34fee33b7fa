//! What no clause says: that calls succeed where there is memory, each call once, and worked refusals of one small volume.
ghost use Rattle.std.specs.Prelude.{◌≡◌, ◌+◌, ◌≤◌, IsTrue};
ghost use Rattle.aff_volume.specs.Opened.{IsVolumeOf};

use crate::sample::{
    Change, ENTRIES, IDX, INFORMATION, RESPELLED, filled, pair, sample, stream, sums_of_halves,
};
use aff_fields::{Entry, write_entries};
use aff_hash::{Digest, Hash, digest};
use aff_outside::Folder;
use aff_volume::{Volume, VolumeReadError};
use std::alloc::{Alloc, Global};
use std::test::Fail;
use std::thread::Threads;

/// How the sample with a change is opened: `whole`, or the refusal.
fn outcome(alloc: Global, change: Change<'_>) -> Result<String, Fail> {
    let mut folder = sample(alloc, Vec::new(alloc), change)?;
    match Volume::open(alloc, &mut folder) {
        Ok(_) => Ok(String::from_str(alloc, "whole")?),
        Err(error) => Ok(format!(in alloc; "{error:?}")?),
    }
}

#[test]
fn a_whole_volume_is_read(rt: HostRuntime) -> Result<(), Fail> {
    let alloc = rt.alloc();
    let mut folder = sample(alloc, Vec::new(alloc), Change::Nothing)?;
    let volume = match Volume::open(alloc, &mut folder) {
        Ok(volume) => volume,
        Err(_) => Err("not opened")?,
    };
    assert_eq!(rt; volume.aside(), 0);
    assert_eq!(rt; volume.info().image_size, 2_560);
    assert_eq!(rt; volume.info().stream_size, 65_536);
    Ok(())
}

#[test]
fn a_volume_is_refused_for_its_first_fault(rt: HostRuntime) -> Result<(), Fail> {
    let alloc = rt.alloc();
    let text = INFORMATION.as_bytes();
    let short = filled(alloc, 7, 32_767)?;
    let rows: [(Change<'_>, &str); 12] = [
        (Change::Nothing, "whole"),
        (Change::Without("information.turtle"), "NoInformation"),
        (
            Change::Has("information.turtle", &[]),
            "Info(Missing(Stream))",
        ),
        (
            Change::Has("information.turtle", &text[..text.len().saturating_sub(1)]),
            "whole",
        ),
        (
            Change::Has("information.turtle", &text[..text.len().saturating_sub(2)]),
            "Turtle(Syntax(16))",
        ),
        (
            Change::Has("information.turtle", RESPELLED.as_bytes()),
            "whole",
        ),
        (Change::Without("map"), "NoMap"),
        (Change::Without("idx"), "NoMap"),
        (Change::Without("00000000"), "Stream(NoSegment(0))"),
        (Change::Has("00000000", &short), "Stream(PointPastEnd(0))"),
        (Change::Has("00000000.index", &[0; 11]), "Stream(Ragged(0))"),
        (
            Change::Has("00000000.blockHash.md5", &[0; 15]),
            "BlockHashes(0)",
        ),
    ];
    for (change, expected) in rows {
        assert_eq!(rt; outcome(alloc, change)?.as_str(), expected);
    }
    Ok(())
}

/// How the sample with such entries is opened.
fn outcome_of_map(alloc: Global, entries: &[Entry]) -> Result<String, Fail> {
    let map = write_entries(alloc, entries).map_err(|_| "no map")?;
    outcome(alloc, Change::Has("map", &map))
}

/// An entry of some bytes at the start of the image.
fn entry(len: u64, target_at: u64, target: u32) -> Entry {
    Entry {
        at: 0,
        len,
        target_at,
        target,
    }
}

#[test]
fn a_map_is_refused_for_its_first_fault(rt: HostRuntime) -> Result<(), Fail> {
    let alloc = rt.alloc();
    let rows: [(&[Entry], &str); 7] = [
        (&[], "whole"),
        (&[entry(512, 0, 0), entry(512, 0, 0)], "Map(Overlap(0, 1))"),
        (&[entry(0, 0, 0)], "Map(Empty(0))"),
        (&[entry(2_561, 0, 0)], "Map(PastEnd(0))"),
        (&[entry(512, 0, 3)], "Map(NoTarget(0))"),
        (&[entry(512, 65_024, 0)], "whole"),
        (&[entry(512, 65_025, 0)], "Map(PastTarget(0))"),
    ];
    for (entries, expected) in rows {
        assert_eq!(rt; outcome_of_map(alloc, entries)?.as_str(), expected);
    }
    let lines = format!(in alloc; "{IDX}x")?;
    let found = outcome(alloc, Change::Has("idx", lines.as_bytes()))?;
    assert_eq!(rt; found.as_str(), "Map(BadTarget(4))");
    let found = outcome(alloc, Change::Has("map", &[0; 27]))?;
    assert_eq!(rt; found.as_str(), "Map(Ragged(27))");
    Ok(())
}

/// How two bytes of the image of a folder read from an offset on.
fn two_bytes<F: Folder>(
    alloc: Global,
    folder: &mut F,
    at: u64,
) -> Result<Result<[u8; 2], VolumeReadError>, Fail> {
    match Volume::open(alloc, folder) {
        Ok(volume) => {
            let size = volume.info().image_size;
            if at > size || size - at < 2 {
                return Err("past the end")?;
            }
            two_bytes_of(alloc, folder, &volume, at)
        }
        Err(_) => Err("not opened")?,
    }
}

fn two_bytes_of<F: Folder>(
    alloc: Global,
    folder: &mut F,
    volume: &Volume,
    at: u64,
) -> Result<Result<[u8; 2], VolumeReadError>, Fail>
    requires inside { at + 2 ≤ volume.now.info.image_size }
    requires opened { IsTrue F.tells → IsVolumeOf (F.held folder.old) volume.now }
{
    let mut out = [0; 2];
    match volume.read(alloc, folder, at, &mut out) {
        Ok(()) => Ok(Ok(out)),
        Err(error) => Ok(Err(error)),
    }
}

/// The same of the sample, where its bevvy has these bytes.
fn bytes_at(
    alloc: Global,
    bevvy: &[u8],
    at: u64,
) -> Result<Result<[u8; 2], VolumeReadError>, Fail> {
    let mut folder = sample(alloc, Vec::new(alloc), Change::Has("00000000", bevvy))?;
    two_bytes(alloc, &mut folder, at)
}

#[test]
fn bytes_come_from_chunks_and_symbols(rt: HostRuntime) -> Result<(), Fail> {
    let alloc = rt.alloc();
    let bytes = stream(alloc)?;
    // The last byte before a run, and the first one of it: stored, unreadable, stored, unknown.
    let rows = [
        (0, [0, 1]),
        (511, [9, b'L']),
        (1_023, [b'N', 7]),
        (2_047, [7, b'O']),
        (2_558, [b'N', b'O']),
    ];
    for (at, expected) in rows {
        assert_eq!(rt; bytes_at(alloc, &bytes, at)?, Ok(expected));
    }
    Ok(())
}

/// The SHA-256 of the last of two chunks.
fn digest_of_last(bytes: &[u8]) -> Digest {
    digest(Hash::Sha256, &bytes[bytes.len() / 2..])
}

#[test]
fn a_changed_chunk_is_damaged(rt: HostRuntime) -> Result<(), Fail> {
    let alloc = rt.alloc();
    let mut bytes = stream(alloc)?;
    bytes[65_535] = 8;
    let recorded = digest_of_last(stream(alloc)?.as_slice());
    let found = digest_of_last(bytes.as_slice());
    // The first chunk is as it was, the second one is read from 1,024 on.
    assert_eq!(rt; bytes_at(alloc, &bytes, 0)?, Ok([0, 1]));
    assert_eq!(rt; bytes_at(alloc, &bytes, 1_022)?, Ok([b'U', b'N']));
    match bytes_at(alloc, &bytes, 1_023)? {
        Err(
            VolumeReadError::Damaged {
                chunk,
                recorded: kept,
                found: other,
            },
        ) => {
            assert_eq!(rt; chunk, 1);
            assert_eq!(rt; kept[..], recorded.bytes[..32]);
            assert_eq!(rt; other[..], found.bytes[..32]);
        }
        _ => assert!(rt; false, "not damaged"),
    }
    Ok(())
}

#[test]
fn each_call_fails_once(rt: HostRuntime) -> Result<(), Fail> {
    let alloc = rt.alloc();
    let made = sample(alloc, Vec::new(alloc), Change::Nothing)?.calls();
    // Opening lists the folder, and reads the metadata, an index and two tables.
    for number in 0..6 {
        let mut fail = Vec::new(alloc);
        fail.push(made.saturating_add(number).saturating_add(1))?;
        let mut folder = sample(alloc, fail, Change::Nothing)?;
        let found = match Volume::open(alloc, &mut folder) {
            Ok(_) => String::from_str(alloc, "whole")?,
            Err(error) => format!(in alloc; "{error:?}")?,
        };
        let expected = if number < 5 { "Failed" } else { "whole" };
        assert_eq!(rt; found.as_str(), expected);
    }
    Ok(())
}

/// Whether the linear hashes and the block map hash of a folder are the recorded ones.
fn agreement<F: Folder, R: Alloc<A = Global> + Threads + Sync>(
    rt: &R,
    folder: &mut F,
) -> Result<(bool, bool), Fail> {
    let alloc = rt.alloc();
    let Ok(volume) = Volume::open(alloc, folder) else {
        return Err("not opened")?;
    };
    let Ok(linear) = volume.linear(rt, alloc, folder) else {
        return Err("no linear hashes")?;
    };
    let Ok(block_map) = volume.block_map(alloc, folder) else {
        return Err("no block map hash")?;
    };
    let info = volume.info();
    Ok((linear == info.linear, block_map == info.block_map))
}

#[test]
fn digests_are_those_of_another_program(rt: HostRuntime) -> Result<(), Fail> {
    let alloc = rt.alloc();
    let idx = format!(in alloc; "{IDX}http://aff4.org/Schema#UnknownData")?;
    let map = write_entries(alloc, &ENTRIES[..2]).map_err(|_| "no map")?;
    let rows: [(Change<'_>, (bool, bool)); 3] = [
        (Change::Nothing, (true, true)),
        (Change::Has("idx", idx.as_bytes()), (true, false)),
        (Change::Has("map", &map), (false, false)),
    ];
    for (change, expected) in rows {
        let mut folder = sample(alloc, Vec::new(alloc), change)?;
        assert_eq!(rt; agreement(&rt, &mut folder)?, expected);
    }
    Ok(())
}

/// The hash function under which a chunk of a folder differs first.
fn first_difference<F: Folder>(
    alloc: Global,
    folder: &mut F,
    chunk: u64,
) -> Result<Option<Hash>, Fail> {
    let Ok(volume) = Volume::open(alloc, folder) else {
        return Err("not opened")?;
    };
    if chunk >= volume.chunks() {
        return Err("no such chunk")?;
    }
    let mut room = filled(alloc, 0, 32_768)?;
    match volume.compare_chunk(alloc, folder, chunk, &mut room) {
        Ok(Some(difference)) => Ok(Some(difference.found.kind)),
        Ok(None) => Ok(None),
        Err(_) => Err("not read")?,
    }
}

#[test]
fn a_chunk_is_compared_by_md5_first(rt: HostRuntime) -> Result<(), Fail> {
    let alloc = rt.alloc();
    let bytes = stream(alloc)?;
    let (first, _) = sums_of_halves(bytes.as_slice());
    let mut changed = stream(alloc)?;
    changed[65_535] = 8;
    let sha1 = pair(alloc, &first.sha1, &first.sha1)?;
    let sha256 = pair(alloc, &first.sha256, &first.sha256)?;
    let rows: [(Change<'_>, Option<Hash>); 4] = [
        (Change::Nothing, None),
        (Change::Has("00000000", &changed), Some(Hash::Md5)),
        (
            Change::Has("00000000.blockHash.sha1", &sha1),
            Some(Hash::Sha1),
        ),
        (
            Change::Has("00000000.blockHash.sha256", &sha256),
            Some(Hash::Sha256),
        ),
    ];
    for (change, expected) in rows {
        let mut folder = sample(alloc, Vec::new(alloc), change)?;
        assert_eq!(rt; first_difference(alloc, &mut folder, 0)?, None);
        assert_eq!(rt; first_difference(alloc, &mut folder, 1)?, expected);
    }
    Ok(())
}
