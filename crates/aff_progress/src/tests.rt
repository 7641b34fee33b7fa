use crate::board::Board;
use crate::plan_count::PlanCount;
use crate::progress::Progress;
use crate::watched::{WatchedDevice, WatchedSink, WatchedSource};
use aff_memory::{FixedDevice, MemorySink, MemorySource};
use aff_outside::{Device, DeviceFailed, Gate, GateStep, Sink, SinkError, Source};
use std::alloc::Global;
use std::sync::Arc;
use std::test::Fail;

const MIB: u64 = 1_048_576;

const BEGUN: Progress = Progress {
    published: 0,
    planned: 8,
    read: 0,
    planned_bytes: 512 * MIB,
    bad: 0,
    readers: 1,
    millis: 0,
};

#[test]
fn a_line_says_how_far_a_run_is(rt: HostRuntime) -> Result<(), Fail> {
    let alloc = rt.alloc();
    let line = BEGUN.line(alloc)?;
    assert_eq!(rt;
        line.as_str(),
        "0/8 extents (0 bad), 0 MiB at 0/s, 0s, 1 reader"
    );
    let under_way = Progress {
        published: 3,
        read: 200 * MIB,
        bad: 1,
        readers: 2,
        millis: 2500,
        ..BEGUN
    };
    let line = under_way.line(alloc)?;
    assert_eq!(rt;
        line.as_str(),
        "3/8 extents (1 bad), 200 MiB at 80/s, 2s, 2 readers, 3s left"
    );
    let done = Progress {
        published: 8,
        read: 512 * MIB,
        readers: 0,
        millis: 65_999,
        ..BEGUN
    };
    let line = done.line(alloc)?;
    assert_eq!(rt; line.as_str(), "8/8 extents (0 bad), 512 MiB at 7/s, 1m05s");
    Ok(())
}

#[test]
fn a_long_line_is_cut(rt: HostRuntime) -> Result<(), Fail> {
    let alloc = rt.alloc();
    let long = Progress {
        published: 65_535,
        planned: 65_536,
        read: 1_048_000 * MIB,
        planned_bytes: 1_048_576 * MIB,
        bad: 12,
        readers: 16,
        millis: 11_520_000,
    };
    let line = long.line(alloc)?;
    assert_eq!(rt;
        line.as_str(),
        "65535/65536 extents (12 bad), 1048000 MiB at 90/s, 3h12m, 16 readers, 6s left"
    );
    let longest = Progress {
        published: 0,
        planned: u64::MAX,
        read: u64::MAX,
        planned_bytes: u64::MAX,
        bad: u64::MAX,
        readers: u64::MAX,
        millis: u64::MAX,
    };
    let line = longest.line(alloc)?;
    assert_eq!(rt; line.len(), 79);
    Ok(())
}

#[test]
fn a_plan_is_counted_line_by_line(rt: HostRuntime) {
    let mut count = PlanCount::new();
    count.take(b"# extent 0 7 0\n\nextent 0 1048576 9\next");
    count.take(b"ent 1048576 51");
    count.take(b"2 0\nextent 2097152 1024 0");
    assert_eq!(rt; count.extents(), 2);
    count.end();
    count.take(b"session\nawait 1\nread 0 512\nextents 0 5 0\nexten 0 5 0\n");
    count.end();
    assert_eq!(rt; count.extents(), 3);
    assert_eq!(rt; count.bytes(), 1_050_112);
}

/// The first byte of a reading of so many, or None where it failed.
fn first_byte<D: Device>(
    alloc: Global,
    device: &mut D,
    at: u64,
    len: usize,
) -> Result<Option<u8>, Fail> {
    let block = u64::from(device.block());
    if block == 0 || at % block != 0 || len as u64 % block != 0 {
        return Err("no whole blocks")?;
    }
    if at > device.size() || device.size() - at < len as u64 {
        return Err("past the end")?;
    }
    let mut out = vec![in alloc; 0; len]?;
    match device.read_at(at, &mut out) {
        Ok(()) => Ok(out.first().copied()),
        Err(DeviceFailed) => Ok(None),
    }
}

/// Sixteen sectors, of which the last two cannot be read.
#[test]
fn a_bad_extent_counts_once(rt: HostRuntime) -> Result<(), Fail> {
    let alloc = rt.alloc();
    let board = Arc::new(alloc, Board::new(rt))?;
    board.at(GateStep::Reading(0));
    board.at(GateStep::Reading(1));
    let card = FixedDevice::new(vec![in alloc; 7; 8192]?, vec![in alloc; 14, 15]?);
    let mut device = WatchedDevice::new(card, 1, Arc::try_clone(&board)?);
    assert_eq!(rt; device.block(), 512);
    assert_eq!(rt; device.size(), 8192);
    assert!(rt; first_byte(alloc, &mut device, 0, 8192)?.is_none());
    assert!(rt; first_byte(alloc, &mut device, 0, 7168)? == Some(7));
    assert_eq!(rt; board.progress(0).bad, 0);
    assert!(rt; first_byte(alloc, &mut device, 7168, 512)?.is_none());
    assert!(rt; first_byte(alloc, &mut device, 7680, 512)?.is_none());
    assert_eq!(rt; board.progress(0).bad, 1);
    board.at(GateStep::Reading(1));
    assert!(rt; first_byte(alloc, &mut device, 7680, 512)?.is_none());
    assert_eq!(rt; board.progress(0).bad, 2);
    assert_eq!(rt; board.progress(0).read, 7168);
    Ok(())
}

/// No more readers are at work than extents are left.
#[test]
fn readers_and_publications_are_counted(rt: HostRuntime) -> Result<(), Fail> {
    let alloc = rt.alloc();
    let board = Arc::new(alloc, Board::new(rt))?;
    let text = Vec::from_array(
        alloc,
        *b"extent 0 512 0\nextent 512 512 0\nextent 1024 512 0",
    )?;
    let plan = MemorySource::new(text, Vec::new(alloc));
    let mut source = WatchedSource::new(plan, Arc::try_clone(&board)?);
    let mut piece = [0; 5];
    for _ in 0..20 {
        assert!(rt; source.read(&mut piece).is_ok());
    }
    for reader in 0..2 {
        board.at(GateStep::Reading(reader));
    }
    board.at(GateStep::Published(2));
    board.at(GateStep::Published(1));
    let progress = board.progress(0);
    assert_eq!(rt; progress.planned, 3);
    assert_eq!(rt; progress.planned_bytes, 1536);
    assert_eq!(rt; progress.published, 2);
    assert_eq!(rt; progress.readers, 1);
    assert!(rt; !progress.is_done());
    board.at(GateStep::Published(3));
    assert!(rt; board.progress(0).is_done());
    Ok(())
}

#[test]
fn a_sink_gets_what_is_written(rt: HostRuntime) -> Result<(), Fail> {
    let alloc = rt.alloc();
    let board = Arc::new(alloc, Board::new(rt))?;
    let memory = MemorySink::new(alloc, vec![in alloc; 2]?);
    let mut sink = WatchedSink::new(memory, Arc::try_clone(&board)?);
    assert_eq!(rt; sink.write(b"a report\n"), Ok(()));
    assert_eq!(rt; sink.write(b"more"), Err(SinkError::Failed));
    Ok(())
}
