//! One run of the program over the machine.
use crate::devices::{KeptDevice, Readings};
use crate::told::{Named, Told};
use crate::usage::usage;
use crate::words::own_words;
use aff_examine::Tally;
use aff_model::Untold;
use aff_outside::{Device, Examiner, FileDevice, FileFolder, InputSource, LastError, OutputSink};
use aff_progress::{Board, WatchedDevice, WatchedSink, WatchedSource};
use aff_top::{End, Outside, outside, run_words};
use std::alloc::Global;
use std::io;
use std::sync::{Arc, Wait};
use std::thread::Threads;

/// The status of want of memory.
const MEMORY: u8 = 7;

/// Runs the program's own words over the machine, as `run_for` does, and gives the status to end with.
pub fn run<W: Alloc<A = Global> + Threads + Wait + Sync>(rt: HostRuntime, threads: &W) -> u8 {
    match run_own(rt, threads) {
        Ok(status) => status,
        Err(_) => MEMORY,
    }
}

/// Runs words over the machine, with the threads of `threads`, and gives the status to end with. The plan is read from
/// standard input, and one examiner looks on, a `Tally`; the report, what is asked of a finished volume, or a fault's line goes to standard output; words that
/// are none of the program's show its usage on standard error.
pub fn run_for<W: Alloc<A = Global> + Threads + Wait + Sync>(
    rt: HostRuntime,
    threads: &W,
    words: &[&str],
) -> u8 {
    match run_words_for(rt, threads, words) {
        Ok(status) => status,
        Err(_) => MEMORY,
    }
}

fn run_own<W: Alloc<A = Global> + Threads + Wait + Sync>(
    rt: HostRuntime,
    threads: &W,
) -> io::Result<u8> {
    let own = own_words(&rt)?;
    let words: Vec<&str> = own.iter().map(|word| word.as_str()).collect(rt.alloc())?;
    Ok(run_for(rt, threads, &words))
}

// Each device is read by blocks of as many bytes as the words ask for.
fn run_words_for<W: Alloc<A = Global> + Threads + Wait + Sync>(
    rt: HostRuntime,
    threads: &W,
    words: &[&str],
) -> io::Result<u8> {
    let alloc = rt.alloc();
    let board = Arc::new(alloc, Board::new(rt))?;
    let mut devices: Vec<Box<dyn Device>> = Vec::new(alloc);
    let mut named = Vec::new(alloc);
    match outside(words) {
        Some(
            Outside::Acquire {
                first_device,
                block,
            },
        ) => {
            for (reader, word) in words.iter().skip(first_device).enumerate() {
                let device = FileDevice::open(&rt, word, block);
                let readings = Arc::new(alloc, Readings::new())?;
                named.push(Named {
                    word,
                    closed: device.last_error(),
                    readings: Arc::try_clone(&readings)?,
                })?;
                let device = KeptDevice::new(device, readings);
                let device = WatchedDevice::new(device, reader, Arc::try_clone(&board)?);
                devices.push(Box::new(alloc, device)?)?;
            }
        }
        Some(_) => {}
        None => {
            let _ = rt.eprint(usage(alloc)?.as_str());
        }
    }
    let mut examiners: Vec<Box<dyn Examiner>> = Vec::new(alloc);
    examiners.push(Box::new(alloc, Tally::new(alloc))?)?;
    let path = words.get(1).copied().unwrap_or("");
    let Ok(folder) = FileFolder::at(rt, path) else {
        return Ok(MEMORY);
    };
    let mut source = WatchedSource::new(InputSource::new(rt), Arc::try_clone(&board)?);
    let mut sink = WatchedSink::new(OutputSink::new(rt), Arc::try_clone(&board)?);
    let End {
        status,
        folder,
        peeks,
        ..
    } = run_words::<Untold, _, _, _, _, _>(
        threads,
        words,
        devices,
        examiners,
        folder,
        &mut source,
        &mut sink,
        &*board,
    );
    let mut told = Told::new(alloc);
    if told.devices(&named).is_ok()
        && told.folder(&folder, &peeks).is_ok()
        && told.streams(source.source(), sink.sink()).is_ok()
    {
        let _ = rt.eprint(told.text());
    }
    Ok(status)
}
