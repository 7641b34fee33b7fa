//! A device over a file or a block device. It tells nothing of what it holds.
ghost use Rattle.std.specs.Prelude.{◌≡◌, ◌+◌, ◌%◌, ◌^◌, ◌<◌, None, length};
ghost use Rattle.aff_model.specs.Content.{IsBlock};

use crate::blocks::read_blocks;
use crate::device::{Device, DeviceFailed};
use crate::faults::{Faults, LastError};
use crate::outcome::counted;
use std::fs::File;
use std::io;
use std::io::{ErrorKind, Seek, SeekFrom};
use std::marker::Model;

/// A file or a block device that is read as a device of blocks of 512 or 4,096 bytes. One that could not be
/// opened has no byte.
#[derive(Drop)]
pub struct FileDevice {
    file: Option<File>,
    block: u32,
    size: u64,
    faults: Faults,
    failed_at: u64,
}

impl Model for FileDevice {
    ghost use Rattle.aff_model.specs.Content.{IsBlock};
    ghost use Rattle.aff_outside.specs.Disk.{Disk};

    ghost Value = { Disk };

    ghost view = { λ d. record { block = d.block; size = d.size; faults = d.faults } };

    ghost invariant = { λ d. IsBlock d.block };
}

/// Opens what is to be read, and finds its end: a block device has no length of its own.
fn opened(rt: &HostRuntime, path: &str) -> io::Result<(File, u64)> {
    let mut file = File::open(rt, path)?;
    if file.metadata()?.is_dir() {
        return Err(io::Error::from(ErrorKind::IsADirectory));
    }
    let size = file.seek(SeekFrom::End(0))?;
    Ok((file, size))
}

impl FileDevice {
    /// What cannot be opened, and a folder, has size 0.
    pub fn open(rt: &HostRuntime, path: &str, block: u32) -> FileDevice
        requires { IsBlock block }
        ensures { result.block ≡ block }
    {
        match opened(rt, path) {
            Ok((file, size)) => FileDevice {
                file: Some(file),
                block,
                size,
                faults: Faults::none(),
                failed_at: 0,
            },
            Err(error) => FileDevice {
                file: None,
                block,
                size: 0,
                faults: Faults::at_opening(error),
                failed_at: 0,
            },
        }
    }

    /// The offset in bytes of the last reading that failed.
    pub fn failed_at(&self) -> u64 {
        self.failed_at
    }
}

fn read_file(file: &Option<File>, block: u32, at: u64, out: &mut [u8]) -> io::Result<()>
    requires block { IsBlock block }
    requires whole { at % block ≡ 0 }
    requires whole_len { length out.old % block ≡ 0 }
    requires fits { at + length out.old < 2 ^ 64 }
{
    match file {
        Some(file) => read_blocks(file, block, at, out),
        None => Err(io::Error::from(ErrorKind::NotFound)),
    }
}

impl LastError for FileDevice {
    /// Of a device that could not be opened, why not.
    fn last_error(&self) -> Option<io::Error> {
        self.faults.last()
    }
}

impl Device for FileDevice {
    ghost device_content = { λ _. None };

    ghost device_block = { λ d. d.block };

    ghost device_size = { λ d. d.size };

    ghost device_faults = { λ d. d.faults };

    fn block(&self) -> u32 {
        self.block
    }

    fn size(&self) -> u64 {
        self.size
    }

    fn read_at(&mut self, at: u64, out: &mut [u8]) -> Result<(), DeviceFailed> {
        // The size is a `u64`, and so is the end of the range.
        let _size = self.size;
        let outcome = read_file(&self.file, self.block, at, out);
        if outcome.is_err() {
            self.failed_at = at;
        }
        counted(outcome, DeviceFailed, &mut self.faults)
    }
}
