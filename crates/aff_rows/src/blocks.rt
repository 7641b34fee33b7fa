//! Devices with blocks of 4,096 bytes.
use crate::fixture::{LARGE_WORDS, NONE, Ran, STREAM, WORDS, has, holds, maps, run_at};
use aff_memory::FixedDevice;
use aff_outside::Device;
use std::alloc::Global;
use std::sync::Wait;
use std::test::Fail;
use std::thread::Threads;

/// The bytes of three blocks, block `k` of bytes `k + 1`.
fn three_blocks(alloc: Global) -> Result<Vec<u8>, Fail> {
    let mut bytes = Vec::new(alloc);
    for block in 0..3u8 {
        for _ in 0..4_096 {
            bytes.push(block.wrapping_add(1))?;
        }
    }
    Ok(bytes)
}

/// Runs at these words over three blocks, of which the second cannot be read.
fn run_three<W: Alloc<A = Global> + Threads + Wait + Sync>(
    rt: &W,
    words: &[&str],
    text: &[u8],
) -> Result<Ran, Fail> {
    let alloc = rt.alloc();
    let device = FixedDevice::blocks(three_blocks(alloc)?, vec![in alloc; 1u64]?);
    let mut devices: Vec<Box<dyn Device>> = Vec::new(alloc);
    devices.push(Box::new(alloc, device)?)?;
    Ok(run_at(rt, words, text, devices, NONE)?)
}

#[test]
fn one_bad_block(rt: HostRuntime) -> Result<(), Fail> {
    let alloc = rt.alloc();
    let mut ran = run_three(&rt, &LARGE_WORDS, b"extent 0 12288 0\n")?;
    // All eight sectors of the block are named. The image is three blocks: `01`, `UNREADABLEDATA` from the letter of
    // offset 4,096 on, and `03`.
    let lines = [
        "publication 1 0 0 own 8+8 c0+1",
        "md5 b0a4f54ad93076f8f68c20707fd84c0b",
    ];
    has(&ran, &lines)?;
    let folder = &mut ran.folder;
    let runs = [(1, 4_096), (0, 4_096), (3, 4_096), (0, 20_480)];
    holds(alloc, folder, STREAM, "00000000", &runs)?;
    maps(
        alloc,
        folder,
        "0 4096 0 0\n4096 4096 4096 2\n8192 4096 8192 0\n",
    )
}

#[test]
fn the_device_says_its_block(rt: HostRuntime) -> Result<(), Fail> {
    let large = run_three(&rt, &LARGE_WORDS, b"extent 0 12288 0\n")?;
    let small = run_three(&rt, &WORDS, b"extent 0 12288 0\n")?;
    assert!(rt; small.status == 0 && small.written.as_slice() == large.written.as_slice());
    Ok(())
}
