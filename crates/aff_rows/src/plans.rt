//! Plans: the order in which their extents are read, and the lines of those that are refused.
use crate::fixture::{LARGE_WORDS, NONE, Ran, WORDS, card, has, run, run_at, wrote};
use aff_memory::FixedDevice;
use aff_outside::Device;
use std::alloc::Global;
use std::sync::Wait;
use std::test::Fail;
use std::thread::Threads;

#[test]
fn priority_goes_before_place(rt: HostRuntime) -> Result<(), Fail> {
    let alloc = rt.alloc();
    let text = b"extent 0 512 0\nextent 1024 512 9\nextent 512 512 9\n";
    has(
        &run(&rt, text, card(alloc, 3)?, NONE)?,
        &[
            "publication 1 2 0 own - c0+1",
            "publication 2 1 0 own - c1+1",
            "publication 3 0 0 own - c2+1",
        ],
    )
}

#[test]
fn comments_and_empty_lines_are_skipped(rt: HostRuntime) -> Result<(), Fail> {
    let alloc = rt.alloc();
    let text = b"# the boot sector\n\nextent 0 512 0";
    has(&run(&rt, text, card(alloc, 1)?, NONE)?, &["extents 1"])
}

/// A run over 24 sectors in such blocks.
fn run_by<W: Alloc<A = Global> + Threads + Wait + Sync>(
    rt: &W,
    words: &[&str],
    text: &[u8],
    large: bool,
) -> Result<Ran, Fail> {
    let alloc = rt.alloc();
    let bytes = vec![in alloc; 7u8; 12_288]?;
    let none = Vec::new(alloc);
    let device = if large {
        FixedDevice::blocks(bytes, none)
    } else {
        FixedDevice::new(bytes, none)
    };
    let mut devices: Vec<Box<dyn Device>> = Vec::new(alloc);
    devices.push(Box::new(alloc, device)?)?;
    Ok(run_at(rt, words, text, devices, NONE)?)
}

/// A text is refused by a line over 24 sectors, and the folder was looked into and no more.
fn is_refused<W: Alloc<A = Global> + Threads + Wait + Sync>(
    rt: &W,
    text: &[u8],
    line: &str,
    large: bool,
) -> Result<(), Fail> {
    let ran = run_by(rt, if large { &LARGE_WORDS } else { &WORDS }, text, large)?;
    if ran.folder.calls() != 1 {
        return Err("the folder was called")?;
    }
    wrote(&ran, 3, line)
}

#[test]
fn lines_that_are_no_extent(rt: HostRuntime) -> Result<(), Fail> {
    let cases: [(&[u8], &str); 6] = [
        (b"extent  0 512 0\n", "error plan 1 shape\n"),
        (
            b"extent 0 512 0\n\n#\nextent 512 512\n",
            "error plan 4 shape\n",
        ),
        (b"extent 00 512 0\n", "error plan 1 number\n"),
        (b"extent 0 512 0\r\n", "error plan 1 number\n"),
        (
            b"extent 0 18446744073709551616 0\n",
            "error plan 1 number\n",
        ),
        (b"session\r\n", "error plan 1 shape\n"),
    ];
    for (text, line) in cases {
        is_refused(&rt, text, line, false)?;
    }
    Ok(())
}

#[test]
fn extents_that_no_plan_has(rt: HostRuntime) -> Result<(), Fail> {
    let cases: [(&[u8], &str); 6] = [
        (b"extent 0 513 0\n", "error plan 1 sector\n"),
        (b"extent 0 67109376 0\n", "error plan 1 toolong\n"),
        (b"extent 11776 1024 0\n", "error plan 1 pastend\n"),
        (b"extent 0 512 10\n", "error plan 1 priority\n"),
        (
            b"# a\nextent 0 1024 0\n# b\nextent 512 512 0\n",
            "error plan 4 overlap 2\n",
        ),
        // A line that is wrong by itself goes before an overlap.
        (
            b"extent 0 512 0\nextent 0 512 0\nextent 1 512 0\n",
            "error plan 3 sector\n",
        ),
    ];
    for (text, line) in cases {
        is_refused(&rt, text, line, false)?;
    }
    Ok(())
}

#[test]
fn an_extent_of_part_of_a_block(rt: HostRuntime) -> Result<(), Fail> {
    is_refused(&rt, b"extent 0 512 0\n", "error plan 1 sector\n", true)?;
    is_refused(
        &rt,
        b"#\nextent 512 4096 0\n",
        "error plan 2 sector\n",
        true,
    )?;
    is_refused(&rt, b"extent 8192 8192 0\n", "error plan 1 pastend\n", true)?;
    is_refused(
        &rt,
        b"extent 0 67112960 0\n",
        "error plan 1 toolong\n",
        true,
    )
}

#[test]
fn a_script_is_refused_behind_the_plan(rt: HostRuntime) -> Result<(), Fail> {
    let text = b"extent 0 512 0\nsession\nread 0 12289\nsession\n";
    is_refused(&rt, text, "error script 3 pastend\n", false)?;
    let text = b"extent 0 513 0\nsession\n";
    is_refused(&rt, text, "error plan 1 sector\n", false)
}
