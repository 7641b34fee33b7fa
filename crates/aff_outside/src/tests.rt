//! What no clause says: what the adapters over files do to a file system.
use crate::{
    Device, DeviceFailed, FileDevice, FileFolder, Folder, FolderError, InputSource, LastError,
    OutputSink, Peek, PeekFailed, Sink, SinkError, Source, SourceFailed, read_segment,
};
use std::alloc::Global;
use std::fs::{File, OpenOptions};
use std::test::Fail;
use std::{env, fs, io, process};

/// A path of this test's own, at which there is nothing.
fn fresh_path(rt: &HostRuntime, name: &str) -> io::Result<String> {
    let folder = env::temp_dir(rt)?;
    let id = process::id(rt.process());
    Ok(format!(in rt.alloc(); "{}/{name}_{id}", folder.as_str())?)
}

/// Names and lengths of all segments.
fn listed(alloc: Global, folder: &mut FileFolder) -> Result<String, Fail> {
    let mut text = String::new(alloc);
    for segment in &folder.list().map_err(|_| "list")? {
        write!(&mut text, "{} {},", segment.name, segment.len)?;
    }
    Ok(text)
}

#[test]
fn files_hold_what_was_appended(rt: HostRuntime) -> Result<(), Fail> {
    let alloc = rt.alloc();
    let path = fresh_path(&rt, "aff_outside_folder")?;
    let mut folder = FileFolder::at(rt, path.as_str()).map_err(|_| "memory")?;
    assert_eq!(rt; listed(alloc, &mut folder)?.as_str(), "");
    assert!(rt; folder.append("s/map", &[1, 2]).is_ok());
    assert!(rt; folder.append("s/map", &[3]).is_ok());
    assert!(rt; folder.append(".idx", &[]).is_ok());
    let refused = matches!(folder.append("t/u/v", &[4]), Err(FolderError::Failed));
    assert!(rt; refused);
    assert_eq!(rt; listed(alloc, &mut folder)?.as_str(), ".idx 0,s/map 3,");
    let map = read_segment(alloc, &mut folder, "s/map").map_err(|_| "map")?;
    assert!(rt; map.ok_or("no map")?.as_slice() == [1, 2, 3].as_slice());
    assert!(rt;
        read_segment(alloc, &mut folder, "s")
            .map_err(|_| "s")?
            .is_none()
    );
    Ok(fs::remove_dir_all(&rt, path.as_str())?)
}

#[test]
fn a_peek_fetches_what_a_receipt_is_of(rt: HostRuntime) -> Result<(), Fail> {
    let alloc = rt.alloc();
    let path = fresh_path(&rt, "aff_outside_peek")?;
    let mut folder = FileFolder::at(rt, path.as_str()).map_err(|_| "memory")?;
    let first = folder.append("s/map", &[1, 2]).map_err(|_| "first")?;
    let other = folder.append("idx", &[9]).map_err(|_| "other")?;
    let second = folder.append("s/map", &[3, 4, 5]).map_err(|_| "second")?;
    let mut peeks = folder.peeks(2).map_err(|_| "peeks")?;
    assert_eq!(rt; peeks.len(), 2);
    let mut two = [0; 2];
    let mut three = [0; 3];
    assert_eq!(rt; peeks[0].fetch(&second, &mut three), Ok(()));
    assert!(rt; three == [3, 4, 5]);
    assert_eq!(rt; peeks[1].fetch(&first, &mut two), Ok(()));
    assert!(rt; two == [1, 2]);
    assert_eq!(rt; peeks[1].fetch(&other, &mut two), Err(PeekFailed));
    fs::remove_dir_all(&rt, path.as_str())?;
    assert_eq!(rt; peeks[1].fetch(&first, &mut two), Err(PeekFailed));
    Ok(())
}

#[test]
fn each_call_of_a_folder_that_is_none_fails(rt: HostRuntime) -> Result<(), Fail> {
    let path = fresh_path(&rt, "aff_outside_file")?;
    fs::write(&rt, path.as_str(), b"".as_slice())?;
    let mut folder = FileFolder::at(rt, path.as_str()).map_err(|_| "memory")?;
    let listed = matches!(folder.list(), Err(FolderError::Failed));
    let appended = matches!(folder.append("map", &[1]), Err(FolderError::Failed));
    assert!(rt; listed && appended);
    let mut byte = [0; 1];
    assert_eq!(rt;
        folder.read_at("map", 0, &mut byte),
        Err(FolderError::Failed)
    );
    Ok(fs::remove_file(&rt, path.as_str())?)
}

#[test]
fn a_file_is_read_as_a_device(rt: HostRuntime) -> Result<(), Fail> {
    let alloc = rt.alloc();
    let path = fresh_path(&rt, "aff_outside_device")?;
    assert_eq!(rt; FileDevice::open(&rt, path.as_str(), 512).size(), 0);
    let bytes = vec![in alloc; 7; 512]?;
    fs::write(&rt, path.as_str(), bytes.as_slice())?;
    let mut device = FileDevice::open(&rt, path.as_str(), 512);
    assert_eq!(rt; device.size(), 512);
    let mut sector = vec![in alloc; 0; 512]?;
    assert!(rt; device.read_at(0, &mut sector).is_ok());
    assert!(rt; sector == bytes);
    Ok(fs::remove_file(&rt, path.as_str())?)
}

#[test]
fn a_device_that_is_cut_short_fails(rt: HostRuntime) -> Result<(), Fail> {
    let alloc = rt.alloc();
    let path = fresh_path(&rt, "aff_outside_cut")?;
    let bytes = vec![in alloc; 7; 12288]?;
    fs::write(&rt, path.as_str(), bytes.as_slice())?;
    let mut device = FileDevice::open(&rt, path.as_str(), 4096);
    assert_eq!(rt; device.block(), 4096);
    assert_eq!(rt; device.size(), 12288);
    let file = OpenOptions::new().write(true).open(&rt, path.as_str())?;
    file.set_len(8704)?;
    let mut two = vec![in alloc; 0; 8192]?;
    assert_eq!(rt; device.read_at(0, &mut two), Ok(()));
    assert!(rt; two.iter().all(|byte| *byte == 7));
    assert_eq!(rt; device.read_at(4096, &mut two), Err(DeviceFailed));
    Ok(fs::remove_file(&rt, path.as_str())?)
}

#[test]
fn a_folder_as_input_fails(rt: HostRuntime) -> Result<(), Fail> {
    let folder = env::temp_dir(&rt)?;
    let mut source = InputSource::over(File::open(&rt, folder.as_str())?);
    let mut buffer = [0; 8];
    assert_eq!(rt; source.read(&mut buffer), Err(SourceFailed));
    Ok(())
}

#[test]
fn a_closed_pipe_as_output_fails(rt: HostRuntime) -> Result<(), Fail> {
    let (reader, writer) = io::pipe(&rt)?;
    let mut sink = OutputSink::over(writer);
    assert_eq!(rt; sink.write(b"line"), Ok(()));
    drop(reader);
    assert_eq!(rt; sink.write(b"line"), Err(SinkError::Failed));
    Ok(())
}

/// The system's words of the last error.
fn words(alloc: Global, adapter: &impl LastError) -> Result<String, Fail> {
    let error = adapter.last_error().ok_or("nothing failed")?;
    Ok(format!(in alloc; "{error}")?)
}

#[test]
fn adapters_keep_why_they_failed(rt: HostRuntime) -> Result<(), Fail> {
    let alloc = rt.alloc();
    let missing = "No such file or directory (os error 2)";
    let path = fresh_path(&rt, "aff_outside_missing")?;
    let device = FileDevice::open(&rt, path.as_str(), 512);
    assert_eq!(rt; words(alloc, &device)?.as_str(), missing);
    let below = format!(in alloc; "{path}/below")?;
    let mut folder = FileFolder::at(rt, below.as_str()).map_err(|_| "memory")?;
    assert!(rt; folder.last_error().is_none());
    assert!(rt; folder.append("map", &[1]).is_err());
    assert_eq!(rt; words(alloc, &folder)?.as_str(), missing);
    let map = format!(in alloc; "{below}/map")?;
    assert_eq!(rt; folder.failed_path(), Some(map.as_str()));
    Ok(())
}
