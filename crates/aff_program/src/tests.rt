//! What no clause says: what a person is told.
use crate::devices::{KeptDevice, Readings};
use crate::told::{Named, Told};
use aff_outside::{Device, FileDevice, FileFolder, Folder, LastError};
use std::alloc::Global;
use std::fs::OpenOptions;
use std::sync::Arc;
use std::test::Fail;
use std::{env, fs, io, process};

/// A path of this test's own, at which there is nothing.
fn fresh_path(rt: &HostRuntime, name: &str) -> io::Result<String> {
    let folder = env::temp_dir(rt)?;
    let id = process::id(rt.process());
    Ok(format!(in rt.alloc(); "{}/{name}_{id}", folder.as_str())?)
}

#[test]
fn a_missing_device_and_folder_are_told(rt: HostRuntime) -> Result<(), Fail> {
    let alloc = rt.alloc();
    let path = fresh_path(&rt, "aff_program_missing")?;
    let device = FileDevice::open(&rt, path.as_str(), 512);
    let named = Named {
        word: path.as_str(),
        closed: device.last_error(),
        readings: Arc::new(alloc, Readings::new())?,
    };
    let below = format!(in alloc; "{path}/volume")?;
    let mut folder = FileFolder::at(rt, below.as_str()).map_err(|_| "memory")?;
    assert!(rt; folder.append("version.txt", b"major=1").is_err());
    let mut told = Told::new(alloc);
    told.devices(&[named])?;
    told.folder(&folder, &[])?;
    let missing = "No such file or directory (os error 2)";
    let text = format!(in alloc;
        "imager: {path}: {missing}\nimager: {below}/version.txt: {missing}\n"
    )?;
    assert_eq!(rt; told.text(), text.as_str());
    Ok(())
}

/// A file of 1,024 bytes that is cut short to 512 when it is open.
#[test]
fn a_reading_that_failed_is_told(rt: HostRuntime) -> Result<(), Fail> {
    let alloc = rt.alloc();
    let path = fresh_path(&rt, "aff_program_cut")?;
    fs::write(&rt, path.as_str(), vec![in alloc; 7; 1024]?.as_slice())?;
    let readings = Arc::new(alloc, Readings::new())?;
    let device = FileDevice::open(&rt, path.as_str(), 512);
    let mut device = KeptDevice::new(device, Arc::try_clone(&readings)?);
    assert!(rt; device.size() == 1024);
    let file = OpenOptions::new().write(true).open(&rt, path.as_str())?;
    file.set_len(512)?;
    let mut sector = vec![in alloc; 0; 512]?;
    assert!(rt; device.read_at(0, &mut sector).is_ok());
    assert!(rt; readings.last_failed().is_none());
    assert!(rt; device.read_at(512, &mut sector).is_err());
    assert!(rt; device.read_at(512, &mut sector).is_err());
    let named = Named {
        word: path.as_str(),
        closed: None,
        readings,
    };
    let mut told = Told::new(alloc);
    told.devices(&[named])?;
    let text = format!(in alloc;
        "imager: {path}: byte 512, the last of 2 readings that failed: unexpected end of file\n"
    )?;
    assert_eq!(rt; told.text(), text.as_str());
    Ok(fs::remove_file(&rt, path.as_str())?)
}
