//! A run over one card in memory.
ghost use Rattle.std.specs.Prelude.{◌≡◌, IfOk, length};

use aff_fields::{Entry, read_entries};
use aff_memory::{FixedDevice, MemoryFolder, MemorySink, MemorySource};
use aff_model::Untold;
use aff_outside::{Device, Gate, OpenGate, read_segment};
use aff_top::{End, run_words};
use std::alloc::{AllocError, Global};
use std::sync::Wait;
use std::test::Fail;
use std::thread::Threads;

/// The words of a run into a folder from one device, at the command that opens it by blocks of 512 bytes.
pub const WORDS: [&str; 4] = ["acquire", "F", "11111111-2222-4333-8444-555555555555", "D"];

/// As `WORDS`, at the command that opens the device by blocks of 4,096 bytes.
pub const LARGE_WORDS: [&str; 4] = [
    "acquire4k",
    "F",
    "11111111-2222-4333-8444-555555555555",
    "D",
];

pub const STREAM: &str = "aff4%3A%2F%2F11111111-2222-4333-8444-555555555555%2Fdata";

pub const IMAGE: &str = "aff4%3A%2F%2F11111111-2222-4333-8444-555555555555%2Fimage";

/// Which calls are to fail, counted from 1 for each object; 0 is none.
#[derive(Clone, Copy)]
pub struct Faults {
    pub source: u64,
    pub sink: u64,
    pub folder: u64,
}

pub const NONE: Faults = Faults {
    source: 0,
    sink: 0,
    folder: 0,
};

/// So many bytes, each 7.
pub fn filled(alloc: Global, count: usize) -> Result<Vec<u8>, AllocError>
    ensures { IfOk result (λ bytes. length bytes.items ≡ count) }
{
    vec![in alloc; 7u8; count]
}

/// What a run left: its status, what it wrote, what the source still has, the devices and the folder.
#[derive(Drop)]
pub struct Ran {
    pub status: u8,
    pub written: Vec<u8>,
    pub devices: Vec<Box<dyn Device>>,
    pub source: MemorySource,
    pub folder: MemoryFolder,
}

/// Runs over one card.
pub fn run<W: Alloc<A = Global> + Threads + Wait + Sync>(
    rt: &W,
    text: &[u8],
    card: FixedDevice,
    faults: Faults,
) -> Result<Ran, AllocError> {
    let alloc = rt.alloc();
    run_over(rt, text, Box::new(alloc, card)?, faults)
}

/// Runs over one device.
pub fn run_over<W: Alloc<A = Global> + Threads + Wait + Sync>(
    rt: &W,
    text: &[u8],
    device: Box<dyn Device>,
    faults: Faults,
) -> Result<Ran, AllocError> {
    let alloc = rt.alloc();
    let mut devices: Vec<Box<dyn Device>> = Vec::new(alloc);
    devices.push(device)?;
    run_at(rt, &WORDS, text, devices, faults)
}

/// Runs at these words over these devices, into an empty folder.
pub fn run_at<W: Alloc<A = Global> + Threads + Wait + Sync>(
    rt: &W,
    words: &[&str],
    text: &[u8],
    devices: Vec<Box<dyn Device>>,
    faults: Faults,
) -> Result<Ran, AllocError> {
    let alloc = rt.alloc();
    let folder = MemoryFolder::new(alloc, vec![in alloc; faults.folder]?, Vec::new(alloc));
    run_into(rt, words, text, devices, folder, faults)
}

/// Runs at these words over these devices, into a folder.
pub fn run_into<W: Alloc<A = Global> + Threads + Wait + Sync>(
    rt: &W,
    words: &[&str],
    text: &[u8],
    devices: Vec<Box<dyn Device>>,
    folder: MemoryFolder,
    faults: Faults,
) -> Result<Ran, AllocError> {
    run_by_gate(rt, words, text, devices, folder, faults, &OpenGate)
}

/// Runs at these words over these devices, into a folder, with a gate that is told of each step.
pub fn run_by_gate<W: Alloc<A = Global> + Threads + Wait + Sync, G: Gate>(
    rt: &W,
    words: &[&str],
    text: &[u8],
    devices: Vec<Box<dyn Device>>,
    folder: MemoryFolder,
    faults: Faults,
    gate: &G,
) -> Result<Ran, AllocError> {
    let alloc = rt.alloc();
    let mut source = MemorySource::new(text.to_vec(alloc)?, vec![in alloc; faults.source]?);
    let mut sink = MemorySink::new(alloc, vec![in alloc; faults.sink]?);
    let End {
        status,
        devices,
        folder,
        ..
    } = run_words::<Untold, _, _, _, _, _>(
        rt,
        words,
        devices,
        Vec::new(alloc),
        folder,
        &mut source,
        &mut sink,
        gate,
    );
    let written = sink.written().to_vec(alloc)?;
    Ok(Ran {
        status,
        written,
        devices,
        source,
        folder,
    })
}

/// The run ended with this status, and wrote exactly this.
pub fn wrote(ran: &Ran, status: u8, text: &str) -> Result<(), Fail> {
    if ran.status != status {
        return Err("another status")?;
    }
    if ran.written.as_slice() != text.as_bytes() {
        return Err("another text")?;
    }
    Ok(())
}

/// The run ended with status 0, and wrote these lines among others.
pub fn has(ran: &Ran, lines: &[&str]) -> Result<(), Fail> {
    if ran.status != 0 {
        return Err("another status")?;
    }
    for line in lines {
        if !has_line(&ran.written, line) {
            return Err("a line is missing")?;
        }
    }
    Ok(())
}

/// A segment consists of runs of equal bytes, each with its length.
pub fn holds(
    alloc: Global,
    folder: &mut MemoryFolder,
    front: &str,
    name: &str,
    runs: &[(u8, usize)],
) -> Result<(), Fail> {
    let bytes = segment(alloc, folder, front, name)?;
    let mut rest = bytes.as_slice();
    for (byte, count) in runs {
        if *count > rest.len() {
            return Err("too short")?;
        }
        let (run, behind) = rest.split_at(*count);
        if !run.iter().all(|b| b == byte) {
            return Err("another byte")?;
        }
        rest = behind;
    }
    if !rest.is_empty() {
        return Err("too long")?;
    }
    Ok(())
}

/// The entries of the map, a line each: offset in the image, length, offset in the target, number of the target.
pub fn entries(alloc: Global, folder: &mut MemoryFolder) -> Result<String, Fail> {
    let bytes = segment(alloc, folder, IMAGE, "map")?;
    let entries = match read_entries(alloc, &bytes) {
        Ok(entries) => entries,
        Err(_) => return Err("no entries")?,
    };
    let mut text = String::new(alloc);
    for entry in &entries {
        let Entry {
            at,
            len,
            target_at,
            target,
        } = *entry;
        write!(&mut text, "{at} {len} {target_at} {target}\n")?;
    }
    Ok(text)
}

/// The map has exactly these entries.
pub fn maps(alloc: Global, folder: &mut MemoryFolder, text: &str) -> Result<(), Fail> {
    if entries(alloc, folder)?.as_str() != text {
        return Err("another map")?;
    }
    Ok(())
}

/// The bytes of so many sectors, sector `k` of bytes `k + 1`.
pub fn sectors(alloc: Global, count: u8) -> Result<Vec<u8>, AllocError> {
    let mut bytes = Vec::new(alloc);
    for sector in 0..count {
        for _ in 0..512 {
            bytes.push(sector.wrapping_add(1))?;
        }
    }
    Ok(bytes)
}

/// A card of so many sectors, sector `k` of bytes `k + 1`.
pub fn card(alloc: Global, count: u8) -> Result<FixedDevice, AllocError> {
    Ok(FixedDevice::new(sectors(alloc, count)?, Vec::new(alloc)))
}

/// Whether the report has this line.
pub fn has_line(written: &[u8], line: &str) -> bool {
    written
        .split(|b| *b == b'\n')
        .any(|found| found == line.as_bytes())
}

/// Whether the folder has no segment of this name.
pub fn is_missing(
    alloc: Global,
    folder: &mut MemoryFolder,
    front: &str,
    name: &str,
) -> Result<bool, Fail> {
    let name = format!(in alloc; "{front}/{name}")?;
    match read_segment(alloc, folder, name.as_str()) {
        Ok(found) => Ok(found.is_none()),
        Err(_) => Err("the folder failed")?,
    }
}

/// The bytes of a segment that is there.
pub fn segment(
    alloc: Global,
    folder: &mut MemoryFolder,
    front: &str,
    name: &str,
) -> Result<Vec<u8>, Fail> {
    let name = format!(in alloc; "{front}/{name}")?;
    match read_segment(alloc, folder, name.as_str()) {
        Ok(Some(bytes)) => Ok(bytes),
        _ => Err("no such segment")?,
    }
}
