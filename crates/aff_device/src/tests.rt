//! What no clause says: the order and the number of the readings.
ghost use Rattle.std.specs.Prelude.{None};

use crate::{read_extent, reserve_bad};
use aff_outside::{Device, DeviceFailed};
use std::alloc::Global;
use std::test::Fail;

/// Eight blocks of 4,096 bytes, of which block 5 cannot be read the first `left` times. Keeps for each reading
/// its first block and its number of blocks.
#[derive(Drop)]
struct Recorder {
    readings: Vec<(u64, usize)>,
    left: u32,
    faults: u64,
}

impl Device for Recorder {
    ghost device_content = { λ _. None };

    ghost device_block = { λ _. 4096 };

    ghost device_size = { λ _. 32768 };

    ghost device_faults = { λ d. d.faults };

    fn block(&self) -> u32 {
        4096
    }

    fn size(&self) -> u64 {
        32768
    }

    fn read_at(&mut self, at: u64, out: &mut [u8]) -> Result<(), DeviceFailed> {
        let first = at / 4096;
        let count = out.len() / 4096;
        let _ = self.readings.push((first, count));
        if self.left > 0 && first <= 5 && 5 < first + count as u64 {
            self.left -= 1;
            self.faults = self.faults.saturating_add(1);
            return Err(DeviceFailed);
        }
        out.fill(7);
        Ok(())
    }
}

/// The unreadable sectors and the readings, where block 5 fails so often.
fn read(
    alloc: Global,
    times: u32,
    buf: &mut [u8; 32768],
) -> Result<(Vec<u32>, Vec<(u64, usize)>), Fail> {
    let mut device = Recorder {
        readings: Vec::new(alloc),
        left: times,
        faults: 0,
    };
    let mut bad = Vec::new(alloc);
    reserve_bad(&mut bad, 64).map_err(|_| "memory")?;
    read_extent(&mut device, 0, buf, &mut bad);
    Ok((bad, device.readings))
}

#[test]
fn a_block_that_fails_twice_is_read_in_a_smaller_range(rt: HostRuntime) -> Result<(), Fail> {
    let mut buf = [1; 32768];
    let (bad, readings) = read(rt.alloc(), 2, &mut buf)?;
    assert!(rt; bad.is_empty());
    assert!(rt; readings.as_slice() == [(0, 8), (0, 4), (4, 4), (4, 2), (6, 2)].as_slice());
    assert!(rt; buf.iter().all(|byte| *byte == 7));
    Ok(())
}

#[test]
fn a_block_that_fails_three_times_is_read_alone(rt: HostRuntime) -> Result<(), Fail> {
    let mut buf = [1; 32768];
    let (bad, readings) = read(rt.alloc(), 3, &mut buf)?;
    assert!(rt; bad.is_empty());
    let all = [(0, 8), (0, 4), (4, 4), (4, 2), (4, 1), (5, 1), (6, 2)];
    assert!(rt; readings.as_slice() == all.as_slice());
    assert!(rt; buf.iter().all(|byte| *byte == 7));
    Ok(())
}

#[test]
fn the_sectors_of_a_block_that_fails_alone_are_unreadable(rt: HostRuntime) -> Result<(), Fail> {
    let mut buf = [1; 32768];
    let (bad, readings) = read(rt.alloc(), 4, &mut buf)?;
    assert!(rt; bad.as_slice() == [40, 41, 42, 43, 44, 45, 46, 47].as_slice());
    let all = [(0, 8), (0, 4), (4, 4), (4, 2), (4, 1), (5, 1), (6, 2)];
    assert!(rt; readings.as_slice() == all.as_slice());
    let expected = |(i, byte): (usize, &u8)| *byte == if i / 4096 == 5 { 0 } else { 7 };
    assert!(rt; buf.iter().enumerate().all(expected));
    Ok(())
}

/// 64 sectors, of which the listed ones cannot be read. Counts the readings.
#[derive(Drop)]
struct Counter<'a> {
    unreadable: &'a [u64],
    readings: u64,
    faults: u64,
}

impl<'a> Device for Counter<'a> {
    ghost device_content = { λ _. None };

    ghost device_block = { λ _. 512 };

    ghost device_size = { λ _. 32768 };

    ghost device_faults = { λ d. d.faults };

    fn block(&self) -> u32 {
        512
    }

    fn size(&self) -> u64 {
        32768
    }

    fn read_at(&mut self, at: u64, out: &mut [u8]) -> Result<(), DeviceFailed> {
        self.readings = self.readings.saturating_add(1);
        let first = at / 512;
        let end = first + out.len() as u64 / 512;
        if self.unreadable.iter().any(|s| first <= *s && *s < end) {
            self.faults = self.faults.saturating_add(1);
            return Err(DeviceFailed);
        }
        Ok(())
    }
}

/// How many readings the 64 sectors take, and how many are named.
fn readings(alloc: Global, unreadable: &[u64]) -> Result<(u64, usize), Fail> {
    let mut buf = [1; 32768];
    let mut device = Counter {
        unreadable,
        readings: 0,
        faults: 0,
    };
    let mut bad = Vec::new(alloc);
    reserve_bad(&mut bad, 64).map_err(|_| "memory")?;
    read_extent(&mut device, 0, &mut buf, &mut bad);
    Ok((device.readings, bad.len()))
}

#[test]
fn few_readings_around_few_sectors(rt: HostRuntime) -> Result<(), Fail> {
    let alloc = rt.alloc();
    assert!(rt; readings(alloc, &[])? == (1, 0));
    // 64 sectors are halved 6 times: at most 2 * 6 readings more for each unreadable sector.
    assert!(rt; readings(alloc, &[27])? == (13, 1));
    let (three, named) = readings(alloc, &[0, 30, 63])?;
    assert!(rt; named == 3);
    assert!(rt; three <= 37);
    Ok(())
}
