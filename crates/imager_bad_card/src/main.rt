//! A card of 128 sectors in memory, of which four cannot be read, acquired into a real folder: the report, and each
//! segment of the folder with its length in bytes. Byte `i` of the card is `(i / 512 + i % 512) % 256`.
#![tactic(auto)]

use aff_examine::Tally;
use aff_memory::{FixedDevice, MemorySource};
use aff_model::Untold;
use aff_outside::{Device, Examiner, FileFolder, Folder, OpenGate, OutputSink};
use aff_top::run_words;
use std::alloc::{AllocError, Global};
use std::process::ExitCode;
use std::sync::Wait;
use std::thread::Threads;

const FOLDER: &str = "volume";

const WORDS: [&str; 4] = [
    "acquire",
    FOLDER,
    "11111111-2222-4333-8444-555555555555",
    "card",
];

/// Two extents, the later one first, with a gap between them.
const PLAN: &[u8] = b"extent 0 16384 0\nextent 32768 32768 9\n";

const SECTORS: u32 = 128;

fn card(alloc: Global) -> Result<Vec<u8>, AllocError> {
    let mut bytes = Vec::new(alloc);
    for i in 0..512 * SECTORS {
        bytes.push(((i / 512 + i % 512) % 256) as u8)?;
    }
    Ok(bytes)
}

/// Acquires the card, and gives the status. The report goes to standard output.
fn acquire<W: Alloc<A = Global> + Threads + Wait + Sync>(
    rt: HostRuntime,
    threads: &W,
) -> Result<u8, AllocError> {
    let alloc = rt.alloc();
    let device = FixedDevice::new(card(alloc)?, vec![in alloc; 1u64, 2, 70, 127]?);
    let mut devices: Vec<Box<dyn Device>> = Vec::new(alloc);
    devices.push(Box::new(alloc, device)?)?;
    let mut examiners: Vec<Box<dyn Examiner>> = Vec::new(alloc);
    examiners.push(Box::new(alloc, Tally::new(alloc))?)?;
    let folder = FileFolder::at(rt, FOLDER).map_err(|_| AllocError)?;
    let mut source = MemorySource::new(Vec::from_slice(alloc, PLAN)?, Vec::new(alloc));
    let end = run_words::<Untold, _, _, _, _, _>(
        threads,
        &WORDS,
        devices,
        examiners,
        folder,
        &mut source,
        &mut OutputSink::new(rt),
        &OpenGate,
    );
    Ok(end.status)
}

fn main(rt: HostRuntime) -> ExitCode {
    let Ok(status) = acquire(rt, &rt) else {
        return ExitCode::FAILURE;
    };
    let Ok(mut folder) = FileFolder::at(rt, FOLDER) else {
        return ExitCode::FAILURE;
    };
    let Ok(segments) = folder.list() else {
        return ExitCode::FAILURE;
    };
    for segment in &segments {
        if println!(rt; "{} {}", segment.name, segment.len).is_err() {
            return ExitCode::FAILURE;
        }
    }
    ExitCode::from(status)
}
