//! Each row of the table, and the whole volume.
use crate::rows::{BLOCK_HASHES, METADATA, Row, STREAM, Says, TABLES};
use crate::volume::{damaged, said, volume};
use aff_memory::MemoryFolder;
use std::alloc::{Alloc, Global};
use std::sync::Wait;
use std::test::Fail;
use std::thread::Threads;

/// What `info` says of the whole volume, line by line.
const DESCRIBED: [&str; 10] = [
    "volume aff4://11111111-2222-4333-8444-555555555555",
    "size 512",
    "stored 32768",
    "gap UnknownData",
    "md5 956b5935bcb6d4b55e9f72e258c0f82d",
    "sha1 8d58c2c3410328c75aef6bc02d30a241eff07d99",
    "sha256 8142abfb514fff78b671f4e447bd1509cf7ea1708f374e36c4daad63ee3dd94b",
    "sha512 d16cfb225bb6f7d1d0f034b6ac8076cc6a805c0d14843af6d25fc5d1c0afc0a8e7ee96a189d619c05659f1881094e9f761aa8ae5016b34e1628b63823c364ba7",
    "blockmap fc08b524ba1743efc91923fd2ca18fc18c7b519049d5bf3456d9fd115d9b2511c5dcbee3f6336f99c2fccdd2ee88a0a58815331afe952c1d085e0a546e4cde50",
    "aside 0",
];

/// The text of `info`, with its status, where one line may be another.
fn described(alloc: Global, other: Option<(usize, &str)>) -> Result<String, Fail> {
    let mut text = format!(in alloc; "0 ")?;
    for (number, own) in DESCRIBED.iter().enumerate() {
        let line = match other {
            Some((place, line)) if place == number => line,
            _ => *own,
        };
        write!(&mut text, "{line}\n")?;
    }
    Ok(text)
}

/// Whether the three commands say these texts of a folder.
fn are_said<W: Alloc<A = Global> + Threads + Sync>(
    rt: &W,
    folder: &mut MemoryFolder,
    verify: &str,
    info: &str,
    read: &str,
) -> Result<bool, Fail> {
    let verified = said(rt, &["verify", "F"], folder)?;
    let told = said(rt, &["info", "F"], folder)?;
    let bytes = said(rt, &["read", "F", "0", "4"], folder)?;
    Ok(verified.as_str() == verify && told.as_str() == info && bytes.as_str() == read)
}

/// Whether the commands say what the row has.
fn holds<W: Alloc<A = Global> + Threads + Sync>(
    rt: &W,
    whole: &mut MemoryFolder,
    row: &Row,
) -> Result<bool, Fail> {
    let alloc = rt.alloc();
    let mut folder = damaged(alloc, whole, row.segment, row.change)?;
    match row.says {
        Says::Refused(line) => are_said(rt, &mut folder, line, line, line),
        Says::Opened { info, verify, read } => {
            let info = described(alloc, info)?;
            are_said(rt, &mut folder, verify, info.as_str(), read)
        }
    }
}

#[test]
fn the_whole_volume(rt: HostRuntime) -> Result<(), Fail> {
    let mut whole = volume(&rt)?;
    let info = described(rt.alloc(), None)?;
    assert!(rt; are_said(&rt, &mut whole, "0 sound\n", info.as_str(), "0 abcd")?);
    Ok(())
}

/// Whether each row of a table holds.
fn all_hold<W: Alloc<A = Global> + Threads + Wait + Sync>(
    rt: &W,
    rows: &[Row],
) -> Result<(), Fail> {
    let mut whole = volume(rt)?;
    for row in rows {
        if !holds(rt, &mut whole, row)? {
            return Err(row.segment)?;
        }
    }
    Ok(())
}

#[test]
fn damaged_metadata(rt: HostRuntime) -> Result<(), Fail> {
    all_hold(&rt, &METADATA)
}

#[test]
fn a_damaged_stream(rt: HostRuntime) -> Result<(), Fail> {
    all_hold(&rt, &STREAM)
}

#[test]
fn damaged_block_hashes(rt: HostRuntime) -> Result<(), Fail> {
    all_hold(&rt, &BLOCK_HASHES)
}

#[test]
fn a_damaged_map(rt: HostRuntime) -> Result<(), Fail> {
    all_hold(&rt, &TABLES)
}
