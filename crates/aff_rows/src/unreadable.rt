//! Cards of which some sectors cannot be read.
use crate::fixture::{NONE, Ran, STREAM, has, holds, is_missing, maps, run, run_over, sectors};
use aff_memory::{FixedDevice, Flaky, FlakyDevice};
use std::alloc::Global;
use std::sync::Wait;
use std::test::Fail;
use std::thread::Threads;

/// Runs over a card of bytes 7, of which these sectors cannot be read.
fn run_around<W: Alloc<A = Global> + Threads + Wait + Sync>(
    rt: &W,
    text: &[u8],
    len: usize,
    bad: Vec<u64>,
) -> Result<Ran, Fail> {
    let alloc = rt.alloc();
    let bytes = vec![in alloc; 7u8; len]?;
    Ok(run(rt, text, FixedDevice::new(bytes, bad), NONE)?)
}

#[test]
fn zeros_only(rt: HostRuntime) -> Result<(), Fail> {
    let alloc = rt.alloc();
    let card = FixedDevice::new(vec![in alloc; 0u8; 65_536]?, Vec::new(alloc));
    let mut ran = run(&rt, b"extent 0 65536 0\n", card, NONE)?;
    has(&ran, &["publication 1 0 0 own - z2"])?;
    let folder = &mut ran.folder;
    assert!(rt; is_missing(alloc, folder, STREAM, "00000000")?);
    assert!(rt; is_missing(alloc, folder, STREAM, "00000000.index")?);
    maps(alloc, folder, "0 65536 0 1\n")
}

#[test]
fn one_bad_sector(rt: HostRuntime) -> Result<(), Fail> {
    let alloc = rt.alloc();
    let card = FixedDevice::new(sectors(alloc, 3)?, vec![in alloc; 1u64]?);
    let mut ran = run(&rt, b"extent 0 1536 0\n", card, NONE)?;
    has(&ran, &["publication 1 0 0 own 1+1 c0+1"])?;
    let folder = &mut ran.folder;
    let runs = [(1, 512), (0, 512), (3, 512), (0, 31_232)];
    holds(alloc, folder, STREAM, "00000000", &runs)?;
    maps(alloc, folder, "0 512 0 0\n512 512 512 2\n1024 512 1024 0\n")
}

#[test]
fn a_chunk_of_bad_sectors(rt: HostRuntime) -> Result<(), Fail> {
    let alloc = rt.alloc();
    let bad: Vec<u64> = (64..128).collect(alloc)?;
    let mut ran = run_around(&rt, b"extent 0 98304 0\n", 98_304, bad)?;
    has(&ran, &["publication 1 0 0 own 64+64 c0+1,n1,c1+1"])?;
    let folder = &mut ran.folder;
    holds(alloc, folder, STREAM, "00000000", &[(7, 65_536)])?;
    maps(
        alloc,
        folder,
        "0 32768 0 0\n32768 32768 32768 2\n65536 32768 32768 0\n",
    )
}

/// Runs over a card of eight sectors, of which the sixth fails the first `times` readings.
fn run_flaky<W: Alloc<A = Global> + Threads + Wait + Sync>(
    rt: &W,
    times: u32,
) -> Result<Ran, Fail> {
    let alloc = rt.alloc();
    let flaky = Flaky { sector: 5, times };
    let device = FlakyDevice::new(sectors(alloc, 8)?, vec![in alloc; flaky]?);
    Ok(run_over(rt, b"extent 0 4096 0\n", Box::new(alloc, device)?, NONE)?)
}

#[test]
fn a_flaky_sector(rt: HostRuntime) -> Result<(), Fail> {
    has(&run_flaky(&rt, 2)?, &["publication 1 0 0 own - c0+1"])?;
    has(&run_flaky(&rt, 3)?, &["publication 1 0 0 own - c0+1"])?;
    has(&run_flaky(&rt, 4)?, &["publication 1 0 0 own 5+1 c0+1"])
}

#[test]
fn the_ends_of_an_extent(rt: HostRuntime) -> Result<(), Fail> {
    let alloc = rt.alloc();
    let text = b"extent 0 2048 0\n";
    let ran = run_around(&rt, text, 2_048, vec![in alloc; 0u64, 3]?)?;
    has(&ran, &["publication 1 0 0 own 0+1,3+1 c0+1"])?;
    let mut ran = run_around(&rt, text, 2_048, vec![in alloc; 0u64, 1, 2, 3]?)?;
    has(&ran, &["publication 1 0 0 own 0+4 n1"])?;
    assert!(rt; is_missing(alloc, &mut ran.folder, STREAM, "00000000")?);
    Ok(())
}

#[test]
fn the_last_short_chunk(rt: HostRuntime) -> Result<(), Fail> {
    let alloc = rt.alloc();
    let text = b"extent 0 33792 0\n";
    let one = run_around(&rt, text, 33_792, vec![in alloc; 65u64]?)?;
    has(&one, &["publication 1 0 0 own 65+1 c0+2"])?;
    let both = run_around(&rt, text, 33_792, vec![in alloc; 64u64, 65]?)?;
    has(&both, &["publication 1 0 0 own 64+2 c0+1,n1"])
}
