//! Devices that keep why a reading of them failed last, for who looks behind the run, when they are in boxes.
ghost use Rattle.std.specs.Prelude.{◌≡◌};

use aff_outside::{Device, DeviceFailed, FileDevice, LastError};
use std::io;
use std::io::ErrorKind;
use std::marker::Model;
use std::sync::Arc;
use std::sync::atomic::{AtomicI32, AtomicU64, Ordering};

/// How often a device's readings failed, and which one did last: its one reader writes it.
#[derive(Drop)]
pub struct Readings {
    failed: AtomicU64,
    at: AtomicU64,
    /// The system's number of the error; 0 where it has none, as at the end of a file that was cut short.
    code: AtomicI32,
}

/// The last reading that failed: how many did, its offset in bytes, and why.
#[derive(Clone, Copy)]
pub struct FailedReading {
    pub count: u64,
    pub at: u64,
    pub error: io::Error,
}

impl Readings {
    pub fn new() -> Readings {
        Readings {
            failed: AtomicU64::new(0),
            at: AtomicU64::new(0),
            code: AtomicI32::new(0),
        }
    }

    fn add(&self, at: u64, error: Option<io::Error>) {
        let code = error.and_then(|error| error.raw_os_error()).unwrap_or(0);
        self.at.store(at, Ordering::SeqCst);
        self.code.store(code, Ordering::SeqCst);
        self.failed.fetch_add(1, Ordering::SeqCst);
    }

    /// The last one that failed, if any did.
    pub fn last_failed(&self) -> Option<FailedReading> {
        let count = self.failed.load(Ordering::SeqCst);
        let error = match self.code.load(Ordering::SeqCst) {
            0 => io::Error::from(ErrorKind::UnexpectedEof),
            code => io::Error::from_raw_os_error(code),
        };
        (count > 0).then_some(FailedReading {
            count,
            at: self.at.load(Ordering::SeqCst),
            error,
        })
    }
}

/// A file or a block device as `FileDevice` reads it, with its failed readings.
#[derive(Drop)]
pub struct KeptDevice {
    device: FileDevice,
    readings: Arc<Readings>,
}

impl Model for KeptDevice {
    ghost use Rattle.aff_outside.specs.Disk.{Disk};

    ghost Value = { Disk };

    ghost view = { λ d. d.device };
}

impl KeptDevice {
    pub fn new(device: FileDevice, readings: Arc<Readings>) -> KeptDevice
        ensures { result ≡ device }
    {
        KeptDevice { device, readings }
    }
}

impl Device for KeptDevice {
    ghost use Rattle.std.specs.Prelude.{None};

    ghost device_content = { λ _. None };

    ghost device_block = { λ d. d.block };

    ghost device_size = { λ d. d.size };

    ghost device_faults = { λ d. d.faults };

    fn block(&self) -> u32 {
        self.device.block()
    }

    fn size(&self) -> u64 {
        self.device.size()
    }

    fn read_at(&mut self, at: u64, out: &mut [u8]) -> Result<(), DeviceFailed> {
        let outcome = self.device.read_at(at, out);
        if outcome.is_err() {
            self.readings
                .add(self.device.failed_at(), self.device.last_error());
        }
        outcome
    }
}
