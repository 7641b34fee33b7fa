//! The small volume: one sector, acquired by the program itself, and the commands over it.
use crate::change::{Change, changed};
use aff_memory::{FixedDevice, MemoryFolder, MemorySink, MemorySource};
use aff_model::Untold;
use aff_outside::{Device, Folder, OpenGate, Segment, read_segment};
use aff_top::{run_offline, run_words};
use std::alloc::{Alloc, Global};
use std::str;
use std::sync::Wait;
use std::test::Fail;
use std::thread::Threads;

const WORDS: [&str; 4] = ["acquire", "F", "11111111-2222-4333-8444-555555555555", "D"];

/// A device of one sector, `a` to `z` again and again.
fn device(alloc: Global) -> Result<FixedDevice, Fail> {
    let mut bytes = Vec::new(alloc);
    for k in 0..512u16 {
        bytes.push(b'a' + (k % 26) as u8)?;
    }
    Ok(FixedDevice::new(bytes, Vec::new(alloc)))
}

/// The volume of that device.
pub fn volume<W: Alloc<A = Global> + Threads + Wait + Sync>(rt: &W) -> Result<MemoryFolder, Fail> {
    let alloc = rt.alloc();
    let mut devices: Vec<Box<dyn Device>> = Vec::new(alloc);
    devices.push(Box::new(alloc, device(alloc)?)?)?;
    let mut source = MemorySource::new(b"extent 0 512 0\n".to_vec(alloc)?, Vec::new(alloc));
    let mut sink = MemorySink::new(alloc, Vec::new(alloc));
    let end = run_words::<Untold, _, _, _, _, _>(
        rt,
        &WORDS,
        devices,
        Vec::new(alloc),
        MemoryFolder::new(alloc, Vec::new(alloc), Vec::new(alloc)),
        &mut source,
        &mut sink,
        &OpenGate,
    );
    match end.status {
        0 => Ok(end.folder),
        _ => Err("not acquired")?,
    }
}

/// Appends a segment of one folder to another, with a change.
fn put(
    alloc: Global,
    from: &mut MemoryFolder,
    to: &mut MemoryFolder,
    name: &str,
    change: Option<Change>,
) -> Result<(), Fail> {
    let bytes = match read_segment(alloc, from, name) {
        Ok(Some(bytes)) => bytes,
        _ => return Err("no such segment")?,
    };
    let bytes = match change {
        Some(change) => match changed(alloc, &bytes, change)? {
            Some(bytes) => bytes,
            None => return Ok(()),
        },
        None => bytes,
    };
    match to.append(name, &bytes) {
        Ok(_) => Ok(()),
        Err(_) => Err("no append")?,
    }
}

/// Whether a segment's name ends with this word.
fn is_named(name: &str, last: &str) -> bool {
    match name.strip_suffix(last) {
        Some(front) => front.is_empty() || front.ends_with("/"),
        None => false,
    }
}

/// A copy of a folder with one segment changed.
pub fn damaged(
    alloc: Global,
    whole: &mut MemoryFolder,
    last: &str,
    change: Change,
) -> Result<MemoryFolder, Fail> {
    let Ok(segments) = whole.list() else {
        return Err("no list")?;
    };
    let mut folder = MemoryFolder::new(alloc, Vec::new(alloc), Vec::new(alloc));
    for Segment { name, .. } in &segments {
        let name = name.as_str();
        let own = if is_named(name, last) {
            Some(change)
        } else {
            None
        };
        put(alloc, whole, &mut folder, name, own)?;
    }
    Ok(folder)
}

/// The status of a command over a folder, a space, and what it writes.
pub fn said<W: Alloc<A = Global> + Threads + Sync>(
    rt: &W,
    words: &[&str],
    folder: &mut MemoryFolder,
) -> Result<String, Fail> {
    let alloc = rt.alloc();
    let mut sink = MemorySink::new(alloc, Vec::new(alloc));
    let status = run_offline(rt, alloc, words, folder, &mut sink);
    match str::from_utf8(sink.written()) {
        Ok(text) => Ok(format!(in alloc; "{status} {text}")?),
        Err(_) => Err("no text")?,
    }
}
