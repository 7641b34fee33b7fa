ghost use Rattle.std.specs.Prelude.{None};

use crate::{Offline, Outside, acquisition, offline, outside, refusal_line, refused};
use aff_outside::{Device, DeviceFailed};
use std::alloc::Global;
use std::test::Fail;

/// A device of so many bytes in such blocks, each of whose readings fails.
#[derive(Drop)]
struct Blank {
    block: u32,
    size: u64,
    faults: u64,
}

impl Device for Blank {
    ghost device_content = { λ _. None };

    ghost device_block = { λ d. d.block };

    ghost device_size = { λ d. d.size };

    ghost device_faults = { λ d. d.faults };

    fn block(&self) -> u32 {
        self.block
    }

    fn size(&self) -> u64 {
        self.size
    }

    fn read_at(&mut self, at: u64, out: &mut [u8]) -> Result<(), DeviceFailed> {
        self.faults = self.faults.saturating_add(1);
        Err(DeviceFailed)
    }
}

/// Devices of such blocks and sizes.
fn blanks(alloc: Global, sizes: &[(u32, u64)]) -> Result<Vec<Box<dyn Device>>, Fail> {
    let mut devices: Vec<Box<dyn Device>> = Vec::new(alloc);
    for (block, size) in sizes {
        let device = Blank {
            block: *block,
            size: *size,
            faults: 0,
        };
        devices.push(Box::new(alloc, device)?)?;
    }
    Ok(devices)
}

/// What is said of devices of such blocks and sizes: the line of their refusal, or `fit`.
fn said(alloc: Global, sizes: &[(u32, u64)]) -> Result<String, Fail> {
    let devices = blanks(alloc, sizes)?;
    match refused(&devices) {
        Some(refusal) => Ok(refusal_line(alloc, refusal)?),
        None => Ok(String::from_str(alloc, "fit")?),
    }
}

#[test]
fn devices_are_refused_for_the_first_reason(rt: HostRuntime) -> Result<(), Fail> {
    let alloc = rt.alloc();
    let rows: [(&[(u32, u64)], &str); 14] = [
        (&[], "error devices none\n"),
        (&[(512, 512)], "fit"),
        (&[(4_096, 4_096), (4_096, 4_096)], "fit"),
        (&[(512, 513)], "error devices size 0 513\n"),
        (&[(512, 512), (512, 0)], "error devices size 1 0\n"),
        (&[(512, 512), (512, 1_024)], "error devices differ 1\n"),
        (&[(512, 4_096), (4_096, 4_096)], "error devices differ 1\n"),
        (&[(512, 512), (1_024, 512)], "error devices sector 1 1024\n"),
        (&[(512, 0), (1_024, 512)], "error devices sector 1 1024\n"),
        (
            &[(512, 512), (512, 1_024), (512, 1)],
            "error devices size 2 1\n",
        ),
        (&[(512, 17_592_186_044_416)], "fit"),
        (
            &[(512, 17_592_186_044_928)],
            "error devices size 0 17592186044928\n",
        ),
        (&[(512, 512); 16], "fit"),
        (&[(0, 0); 17], "error devices many 17\n"),
    ];
    for (sizes, expected) in rows {
        assert_eq!(rt; said(alloc, sizes)?.as_str(), expected);
    }
    Ok(())
}

const UUID: &str = "11111111-2222-4333-8444-555555555555";

#[test]
fn an_acquisition_has_one_device_or_more(rt: HostRuntime) -> Result<(), Fail> {
    let acquire = acquisition(&["acquire", "folder", UUID, "a"]);
    assert_eq!(rt; acquire.map(|found| found.0), Some(512));
    let several = acquisition(&["acquire4k", "folder", UUID, "a", "b", "c"]);
    assert_eq!(rt; several.map(|found| found.0), Some(4_096));
    let others: [&[&str]; 8] = [
        &[],
        &["acquire", "folder", UUID],
        &["acquire", "", UUID, "a"],
        &["acquire", "folder", UUID, ""],
        &["acquire", "folder", UUID, "a", ""],
        &["acquire", "folder", "11111111", "a"],
        &["Acquire", "folder", UUID, "a"],
        &["acquire ", "folder", UUID, "a"],
    ];
    for words in others {
        assert!(rt; acquisition(words).is_none());
    }
    Ok(())
}

#[test]
fn a_finished_volume_is_asked_by_its_words(rt: HostRuntime) -> Result<(), Fail> {
    let rows: [(&[&str], Option<Offline>); 14] = [
        (&["info", "F"], Some(Offline::Info)),
        (&["info", "--help"], Some(Offline::Info)),
        (&["verify", "F"], Some(Offline::Verify)),
        (
            &["read", "F", "0", "1048577"],
            Some(Offline::Read {
                at: 0,
                len: 1_048_577,
            }),
        ),
        (
            &["read", "F", "18446744073709551615", "0"],
            Some(Offline::Read {
                at: u64::MAX,
                len: 0,
            }),
        ),
        (&["read", "F", "01", "1"], None),
        (&["read", "F", "1", "+1"], None),
        (&["read", "F", "18446744073709551616", "1"], None),
        (&["read", "F", "1"], None),
        (&["read", "", "1", "1"], None),
        (&["info"], None),
        (&["info", ""], None),
        (&["info", "F", "F"], None),
        (&["rehearse", "64", "4"], None),
    ];
    for (words, expected) in rows {
        assert_eq!(rt; offline(words), expected);
        assert_eq!(rt; outside(words), expected.map(|_| Outside::Offline));
    }
    Ok(())
}
