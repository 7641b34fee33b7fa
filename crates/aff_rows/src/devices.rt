//! Devices that are refused.
ghost use Rattle.std.specs.Prelude.{None};

use crate::fixture::{LARGE_WORDS, NONE, Ran, WORDS, run_at, wrote};
use aff_memory::MemorySource;
use aff_outside::{Device, DeviceFailed, Source};
use std::alloc::Global;
use std::sync::Wait;
use std::test::Fail;
use std::thread::Threads;

/// A device of so many bytes in such blocks, whose first reading fails and no other.
#[derive(Drop)]
struct Blank {
    block: u32,
    size: u64,
    faults: u64,
}

impl Device for Blank {
    ghost device_content = { λ _. None };

    ghost device_block = { λ d. d.block };

    ghost device_size = { λ d. d.size };

    ghost device_faults = { λ d. d.faults };

    fn block(&self) -> u32 {
        self.block
    }

    fn size(&self) -> u64 {
        self.size
    }

    fn read_at(&mut self, at: u64, out: &mut [u8]) -> Result<(), DeviceFailed> {
        if self.faults > 0 {
            return Ok(());
        }
        self.faults = 1;
        Err(DeviceFailed)
    }
}

const TEXT: &[u8] = b"extent 0 512 0\n";

/// What a source has left.
fn rest(alloc: Global, source: &mut MemorySource) -> Result<Vec<u8>, Fail> {
    let mut buffer = [0u8; 64];
    match source.read(&mut buffer) {
        Ok(count) => Ok(buffer[..count].to_vec(alloc)?),
        Err(_) => Err("the source failed")?,
    }
}

/// Devices of such blocks and sizes.
fn blanks(alloc: Global, sizes: &[(u32, u64)]) -> Result<Vec<Box<dyn Device>>, Fail> {
    let mut devices: Vec<Box<dyn Device>> = Vec::new(alloc);
    for (block, size) in sizes {
        let device = Blank {
            block: *block,
            size: *size,
            faults: 0,
        };
        devices.push(Box::new(alloc, device)?)?;
    }
    Ok(devices)
}

/// Whether the run left the folder, the source and the devices as they were.
fn is_untouched(alloc: Global, ran: &mut Ran) -> Result<bool, Fail> {
    let mut untouched = ran.folder.calls() == 0;
    untouched &= rest(alloc, &mut ran.source)?.as_slice() == TEXT;
    for device in ran.devices.iter_mut() {
        // The first reading.
        untouched &= device.read_at(0, &mut []).is_err();
    }
    Ok(untouched)
}

/// Devices of such blocks and sizes are refused by this line at both commands, and nothing is touched.
fn is_refused<W: Alloc<A = Global> + Threads + Wait + Sync>(
    rt: &W,
    sizes: &[(u32, u64)],
    line: &str,
) -> Result<(), Fail> {
    let alloc = rt.alloc();
    for words in [&WORDS, &LARGE_WORDS] {
        let mut ran = run_at(rt, words, TEXT, blanks(alloc, sizes)?, NONE)?;
        wrote(&ran, 10, line)?;
        if !is_untouched(alloc, &mut ran)? {
            return Err("something was touched")?;
        }
    }
    Ok(())
}

#[test]
fn a_size_of_no_whole_blocks(rt: HostRuntime) -> Result<(), Fail> {
    is_refused(&rt, &[(512, 513)], "error devices size 0 513\n")?;
    is_refused(&rt, &[(512, 0)], "error devices size 0 0\n")?;
    is_refused(&rt, &[(4_096, 4_608)], "error devices size 0 4608\n")?;
    // One sector more than 2^44 bytes.
    let line = "error devices size 0 17592186044928\n";
    is_refused(&rt, &[(512, 17_592_186_044_928)], line)
}

#[test]
fn another_block(rt: HostRuntime) -> Result<(), Fail> {
    is_refused(&rt, &[(1_024, 4_096)], "error devices sector 0 1024\n")?;
    // The block is told before the size.
    is_refused(&rt, &[(0, 0)], "error devices sector 0 0\n")
}

#[test]
fn another_number_of_devices(rt: HostRuntime) -> Result<(), Fail> {
    is_refused(&rt, &[], "error devices none\n")?;
    is_refused(&rt, &[(512, 512); 17], "error devices many 17\n")
}

#[test]
fn devices_that_are_not_of_one_card(rt: HostRuntime) -> Result<(), Fail> {
    is_refused(&rt, &[(512, 512), (512, 1_024)], "error devices differ 1\n")?;
    is_refused(
        &rt,
        &[(512, 4_096), (4_096, 4_096)],
        "error devices differ 1\n",
    )?;
    // Each device is looked at by itself before it is compared with the first.
    is_refused(
        &rt,
        &[(512, 512), (512, 1_024), (512, 513)],
        "error devices size 2 513\n",
    )?;
    is_refused(
        &rt,
        &[(512, 513), (1_024, 513)],
        "error devices sector 1 1024\n",
    )
}

/// Whether a run at these words ends with status 2, and touches neither the folder, nor the source, nor a device.
fn is_usage<W: Alloc<A = Global> + Threads + Wait + Sync>(
    rt: &W,
    words: &[&str],
) -> Result<bool, Fail> {
    let alloc = rt.alloc();
    let mut ran = run_at(rt, words, TEXT, blanks(alloc, &[(1_024, 1)])?, NONE)?;
    let untouched = is_untouched(alloc, &mut ran)?;
    Ok(ran.status == 2 && ran.written.as_slice() == b"error usage\n".as_slice() && untouched)
}

#[test]
fn other_words(rt: HostRuntime) -> Result<(), Fail> {
    let [command, folder, uuid, device] = WORDS;
    assert!(rt; is_usage(&rt, &[])?);
    assert!(rt; is_usage(&rt, &["acquire8k", folder, uuid, device])?);
    assert!(rt; is_usage(&rt, &[command, folder, uuid])?);
    assert!(rt; is_usage(&rt, &[command, folder, uuid, device, ""])?);
    assert!(rt; is_usage(&rt, &[command, "", uuid, device])?);
    Ok(())
}

#[test]
fn the_greatest_size(rt: HostRuntime) -> Result<(), Fail> {
    let alloc = rt.alloc();
    let devices = blanks(alloc, &[(4_096, 17_592_186_044_416)])?;
    let ran = run_at(&rt, &LARGE_WORDS, b"extent 1 1 0\n", devices, NONE)?;
    // It is the text that is refused.
    wrote(&ran, 3, "error plan 1 sector\n")
}
