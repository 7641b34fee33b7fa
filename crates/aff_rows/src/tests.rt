//! What a run leaves and writes, byte for byte, and at each failing call.
use crate::fixture::{
    Faults, IMAGE, NONE, STREAM, card, holds, is_missing, maps, run, segment, wrote,
};
use crate::metadata::info;
use aff_outside::read_segment;
use std::alloc::Global;
use std::sync::Wait;
use std::test::Fail;
use std::thread::Threads;

const REPORT: &str =
    "volume aff4://11111111-2222-4333-8444-555555555555\nsize 512\nextents 1\npublications 1\npublication 1 0 0 own - c0+1\nmd5 393a0fa0f348fb03871ab93726057ddc\nsha1 3ef8a08ec90e244fe2a8948b701eafcc1d065712\nsha256 6caf38d537984e261527b8caef5f990fb91415a1db917198821a79ed28997973\nsha512 611bae45b1eeaa2cb58bcb84279dadc33bbaad68aad0744064b171dac2e8bd2e71d97274a90c2d31268c1588cc2c64824914dfc01ba7d13e1bae734767c79ec5\nblockmap d219551054caad859a403458674b3794526e4fe608180af45c50e581b5caad430f0312a3b4fbd80a98d7773529bfa523a5114733fbc9a26cc2b46657d471f589\n";

const TARGETS: &[u8] =
    b"aff4://11111111-2222-4333-8444-555555555555/data\nhttp://aff4.org/Schema#Zero\nhttp://aff4.org/Schema#UnreadableData\n";

const TEXT: &[u8] = b"extent 0 512 0\n";

#[test]
fn one_sector(rt: HostRuntime) -> Result<(), Fail> {
    let alloc = rt.alloc();
    let mut ran = run(&rt, TEXT, card(alloc, 1)?, NONE)?;
    wrote(&ran, 0, REPORT)?;
    let folder = &mut ran.folder;
    holds(alloc, folder, STREAM, "00000000", &[(1, 512), (0, 32_256)])?;
    // The point (0, 32,768).
    holds(
        alloc,
        folder,
        STREAM,
        "00000000.index",
        &[(0, 9), (128, 1), (0, 2)],
    )?;
    maps(alloc, folder, "0 512 0 0\n")?;
    assert!(rt; segment(alloc, folder, IMAGE, "idx")?.as_slice() == TARGETS);
    Ok(())
}

#[test]
fn several_extents(rt: HostRuntime) -> Result<(), Fail> {
    let alloc = rt.alloc();
    // Neighbours in the image but not in the stream, and an extent of two chunks.
    let text = b"extent 512 512 0\nextent 0 512 9\nextent 1024 40448 0\n";
    let mut ran = run(&rt, text, card(alloc, 81)?, NONE)?;
    let folder = &mut ran.folder;
    maps(
        alloc,
        folder,
        "0 512 0 0\n512 512 32768 0\n1024 40448 65536 0\n",
    )?;
    assert_eq!(rt; segment(alloc, folder, STREAM, "00000000")?.len(), 131_072);
    Ok(())
}

#[test]
fn neighbours_are_one_entry(rt: HostRuntime) -> Result<(), Fail> {
    let alloc = rt.alloc();
    let text = b"extent 0 32768 0\nextent 32768 32768 0\n";
    let mut ran = run(&rt, text, card(alloc, 128)?, NONE)?;
    maps(alloc, &mut ran.folder, "0 65536 0 0\n")
}

#[test]
fn no_extent(rt: HostRuntime) -> Result<(), Fail> {
    let alloc = rt.alloc();
    let mut ran = run(&rt, b"", card(alloc, 1)?, NONE)?;
    assert!(rt; is_missing(alloc, &mut ran.folder, STREAM, "00000000")?);
    maps(alloc, &mut ran.folder, "")
}

#[test]
fn faults_of_the_streams(rt: HostRuntime) -> Result<(), Fail> {
    let alloc = rt.alloc();
    for source in 1..3 {
        let ran = run(&rt, TEXT, card(alloc, 1)?, Faults { source, ..NONE })?;
        wrote(&ran, 4, "error source\n")?;
    }
    let mut cut = run(&rt, TEXT, card(alloc, 1)?, Faults { sink: 1, ..NONE })?;
    wrote(&cut, 5, "")?;
    // The volume is finished all the same.
    maps(alloc, &mut cut.folder, "0 512 0 0\n")?;
    assert_eq!(rt; info(alloc, &mut cut.folder)?.info.image_size, 512);
    Ok(())
}

/// How many calls of the folder a run makes.
fn calls<W: Alloc<A = Global> + Threads + Wait + Sync>(rt: &W) -> Result<u64, Fail> {
    let alloc = rt.alloc();
    Ok(run(rt, TEXT, card(alloc, 1)?, NONE)?.folder.calls())
}

#[test]
fn faults_of_the_folder(rt: HostRuntime) -> Result<(), Fail> {
    let alloc = rt.alloc();
    // The list; the sessions' peeks; the chunk, its index and three digests, the map, the targets; what is read back: the chunk, three
    // digests, the map, the targets; the version, the volume's URN and its metadata.
    assert_eq!(rt; calls(&rt)?, 18);
    for folder in 1..19 {
        let mut ran = run(&rt, TEXT, card(alloc, 1)?, Faults { folder, ..NONE })?;
        wrote(&ran, 6, "error folder\n")?;
        assert!(rt;
            matches!(
                read_segment(alloc, &mut ran.folder, "information.turtle"),
                Ok(None)
            )
        );
    }
    Ok(())
}
