//! What no clause says: that calls succeed where there is memory, and each call once.
ghost use Rattle.std.specs.Prelude.{◌≡◌, ◌*◌, IfOk, IfSome, IsTrue, vec_len};

use crate::{
    FixedDevice, Flaky, FlakyDevice, MemoryFolder, MemorySink, MemorySource, RecordingGate,
};
use aff_outside::{
    Device, DeviceFailed, Folder, FolderError, Gate, GateStep, Peek, PeekFailed, Sink, SinkError,
    Source, SourceFailed, read_segment,
};
use std::alloc::{AllocError, Global};
use std::test::Fail;

/// So many sectors, each byte of which is the sector's number.
fn numbered(alloc: Global, sectors: u8) -> Result<Vec<u8>, AllocError>
    ensures { IfOk result (λ bytes. vec_len bytes ≡ 512 * sectors) }
{
    let mut bytes = Vec::new(alloc);
    for i in 0..512 * u32::from(sectors) {
        bytes.push((i / 512) as u8)?;
    }
    Ok(bytes)
}

#[test]
fn fixed_device_fails_where_a_bad_sector_is_touched(rt: HostRuntime) -> Result<(), Fail> {
    let alloc = rt.alloc();
    let mut device = FixedDevice::new(numbered(alloc, 4)?, vec![in alloc; 2]?);
    assert_eq!(rt; device.size(), 2048);
    let mut two = numbered(alloc, 2)?;
    assert_eq!(rt; device.read_at(512, &mut two), Err(DeviceFailed));
    assert_eq!(rt; device.read_at(1024, &mut two), Err(DeviceFailed));
    assert_eq!(rt; device.read_at(0, &mut two), Ok(()));
    assert!(rt; two.as_slice() == numbered(alloc, 2)?.as_slice());
    let mut one = numbered(alloc, 1)?;
    assert_eq!(rt; device.read_at(1536, &mut one), Ok(()));
    assert!(rt; one.iter().all(|byte| *byte == 3));
    Ok(())
}

#[test]
fn large_blocks_fail_as_a_whole(rt: HostRuntime) -> Result<(), Fail> {
    let alloc = rt.alloc();
    let mut device = FixedDevice::blocks(numbered(alloc, 24)?, vec![in alloc; 1]?);
    assert_eq!(rt; device.size(), 12288);
    assert_eq!(rt; device.block(), 4096);
    let mut two = numbered(alloc, 16)?;
    assert_eq!(rt; device.read_at(0, &mut two), Err(DeviceFailed));
    assert_eq!(rt; device.read_at(4096, &mut two), Err(DeviceFailed));
    let mut one = numbered(alloc, 8)?;
    assert_eq!(rt; device.read_at(0, &mut one), Ok(()));
    assert!(rt; one.as_slice() == numbered(alloc, 8)?.as_slice());
    assert_eq!(rt; device.read_at(8192, &mut one), Ok(()));
    assert!(rt; one.iter().take(512).all(|byte| *byte == 16));
    Ok(())
}

#[test]
fn flaky_device_fails_at_first(rt: HostRuntime) -> Result<(), Fail> {
    let alloc = rt.alloc();
    let flaky = Flaky {
        sector: 1,
        times: 2,
    };
    let mut device = FlakyDevice::new(numbered(alloc, 2)?, vec![in alloc; flaky]?);
    let mut two = numbered(alloc, 2)?;
    let mut one = numbered(alloc, 1)?;
    assert_eq!(rt; device.read_at(0, &mut two), Err(DeviceFailed));
    assert_eq!(rt; device.read_at(0, &mut one), Ok(()));
    assert_eq!(rt; device.read_at(512, &mut one), Err(DeviceFailed));
    assert_eq!(rt; device.read_at(512, &mut one), Ok(()));
    assert!(rt; one.iter().all(|byte| *byte == 1));
    Ok(())
}

/// Names and lengths of all segments.
fn listed(alloc: Global, folder: &mut MemoryFolder) -> Result<String, Fail> {
    let mut text = String::new(alloc);
    for segment in &folder.list().map_err(|_| "list")? {
        write!(&mut text, "{} {},", segment.name, segment.len)?;
    }
    Ok(text)
}

#[test]
fn folder_lists_and_reads_what_was_appended(rt: HostRuntime) -> Result<(), Fail> {
    let alloc = rt.alloc();
    let mut folder = MemoryFolder::new(alloc, Vec::new(alloc), Vec::new(alloc));
    assert!(rt; folder.append("map", &[1, 2]).is_ok());
    assert!(rt; folder.append("idx", &[3]).is_ok());
    assert!(rt; folder.append("map", &[4]).is_ok());
    assert!(rt; folder.append("zero", &[]).is_ok());
    assert_eq!(rt; listed(alloc, &mut folder)?.as_str(), "idx 1,map 3,zero 0,");
    let map = read_segment(alloc, &mut folder, "map").map_err(|_| "map")?;
    assert!(rt; map.ok_or("no map")?.as_slice() == [1, 2, 4].as_slice());
    let none = read_segment(alloc, &mut folder, "nap").map_err(|_| "nap")?;
    assert!(rt; none.is_none());
    assert_eq!(rt; folder.calls(), 8);
    Ok(())
}

#[test]
fn folder_fails_at_the_listed_calls(rt: HostRuntime) -> Result<(), Fail> {
    let alloc = rt.alloc();
    let mut folder = MemoryFolder::new(alloc, vec![in alloc; 2, 3, 5]?, Vec::new(alloc));
    assert!(rt; folder.append("map", &[1]).is_ok());
    let refused = matches!(folder.append("map", &[2]), Err(FolderError::Failed));
    assert!(rt; refused);
    assert!(rt; folder.list().is_err());
    assert!(rt; read_segment(alloc, &mut folder, "map").is_err());
    let map = read_segment(alloc, &mut folder, "map").map_err(|_| "map")?;
    assert!(rt; map.ok_or("no map")?.as_slice() == [1].as_slice());
    assert_eq!(rt; folder.calls(), 7);
    Ok(())
}

#[test]
fn peeks_fetch_what_was_appended(rt: HostRuntime) -> Result<(), Fail> {
    let alloc = rt.alloc();
    let mut folder = MemoryFolder::new(alloc, Vec::new(alloc), vec![in alloc; 2]?);
    let first = folder.append("map", &[1, 2]).map_err(|_| "first")?;
    let second = folder.append("map", &[3, 4]).map_err(|_| "second")?;
    let mut peeks = folder.peeks(3).map_err(|_| "peeks")?;
    assert_eq!(rt; peeks.len(), 3);
    assert_eq!(rt; listed(alloc, &mut folder)?.as_str(), "map 4,");
    assert!(rt; folder.append("map", &[5]).is_ok());
    let Some(mut peek) = peeks.pop() else {
        return Err("no peek".into());
    };
    let mut two = [0; 2];
    assert_eq!(rt; peek.fetch(&first, &mut two), Ok(()));
    assert!(rt; two == [1, 2]);
    assert_eq!(rt; peek.fetch(&second, &mut two), Err(PeekFailed));
    assert_eq!(rt; peek.fetch(&second, &mut two), Ok(()));
    assert!(rt; two == [3, 4]);
    assert_eq!(rt; peek.calls(), 3);
    Ok(())
}

/// Appends the bytes to any folder, and fetches them again by a peek.
fn fetched_again<F: Folder>(
    alloc: Global,
    folder: &mut F,
    bytes: &[u8],
) -> Result<Option<Vec<u8>>, FolderError>
    ensures { IfOk result (λ found. IfSome found (λ again. IsTrue F.tells → again.items ≡ bytes.now)) }
{
    let receipt = folder.append("map", bytes)?;
    let mut again = bytes.to_vec(alloc)?;
    again.fill(0);
    let Some(mut peek) = folder.peeks(1)?.pop() else {
        return Ok(None);
    };
    match peek.fetch(&receipt, &mut again) {
        Ok(()) => Ok(Some(again)),
        Err(PeekFailed) => Ok(None),
    }
}

#[test]
fn any_folder_gives_its_bytes_again(rt: HostRuntime) -> Result<(), Fail> {
    let alloc = rt.alloc();
    let mut folder = MemoryFolder::new(alloc, Vec::new(alloc), Vec::new(alloc));
    let again = fetched_again(alloc, &mut folder, &[7, 8]).map_err(|_| "again")?;
    assert!(rt; again.ok_or("no bytes")?.as_slice() == [7, 8].as_slice());
    Ok(())
}

#[test]
fn source_gives_its_bytes_once(rt: HostRuntime) -> Result<(), Fail> {
    let alloc = rt.alloc();
    let mut source = MemorySource::new(b"hello".to_vec(alloc)?, vec![in alloc; 2]?);
    let mut buffer = [0; 3];
    assert_eq!(rt; source.read(&mut buffer), Ok(3));
    assert!(rt; buffer == *b"hel");
    assert_eq!(rt; source.read(&mut buffer), Err(SourceFailed));
    assert_eq!(rt; source.read(&mut buffer), Ok(2));
    assert!(rt; buffer == *b"lol");
    assert_eq!(rt; source.read(&mut buffer), Ok(0));
    Ok(())
}

#[test]
fn sink_keeps_what_is_written(rt: HostRuntime) -> Result<(), Fail> {
    let alloc = rt.alloc();
    let mut sink = MemorySink::new(alloc, vec![in alloc; 2]?);
    assert_eq!(rt; sink.write(b"one "), Ok(()));
    assert_eq!(rt; sink.write(b"two "), Err(SinkError::Failed));
    assert_eq!(rt; sink.write(b"three"), Ok(()));
    assert!(rt; sink.written() == b"one three".as_slice());
    Ok(())
}

#[test]
fn recording_gate_keeps_each_step(rt: HostRuntime) -> Result<(), Fail> {
    let gate = RecordingGate::new(&rt)?;
    assert!(rt; gate.steps()?.is_empty());
    let told = [
        GateStep::Reading(0),
        GateStep::Asking(1),
        GateStep::Published(1),
        GateStep::Answered(1, 1),
    ];
    for step in &told {
        gate.at(*step);
    }
    assert!(rt; gate.steps()?.as_slice() == told.as_slice());
    assert!(rt; gate.steps()?.as_slice() == told.as_slice());
    Ok(())
}
