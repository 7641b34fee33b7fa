//! Why something failed, in the system's words: one line each on standard error, behind the line of a fault on standard output.
use crate::devices::{FailedReading, Readings};
use aff_outside::{FileFolder, FilePeek, InputSource, LastError, OutputSink};
use std::alloc::{AllocError, Global};
use std::io;
use std::sync::Arc;

/// A device by its word, why it could not be opened, and its readings.
#[derive(Drop)]
pub struct Named<'a> {
    pub word: &'a str,
    pub closed: Option<io::Error>,
    pub readings: Arc<Readings>,
}

/// Lines for a person, one behind the other.
#[derive(Drop)]
pub struct Told {
    alloc: Global,
    text: String,
}

/// What failed, and the system's words.
fn line(alloc: Global, what: &str, error: io::Error) -> Result<String, AllocError> {
    format!(in alloc; "imager: {what}: {error}\n")
}

/// The last reading that failed of a device.
fn reading_line(alloc: Global, word: &str, last: &FailedReading) -> Result<String, AllocError> {
    let FailedReading { count, at, error } = last;
    format!(in alloc;
        "imager: {word}: byte {at}, the last of {count} readings that failed: {error}\n"
    )
}

impl Told {
    pub fn new(alloc: Global) -> Told {
        Told {
            alloc,
            text: String::new(alloc),
        }
    }

    pub fn text(&self) -> &str {
        self.text.as_str()
    }

    fn add(&mut self, what: &str, error: Option<io::Error>) -> Result<(), AllocError> {
        match error {
            Some(error) => self.text.push_str(line(self.alloc, what, error)?.as_str()),
            None => Ok(()),
        }
    }

    /// Devices that could not be opened, and those of which a reading failed.
    pub fn devices(&mut self, devices: &[Named]) -> Result<(), AllocError> {
        for device in devices {
            self.add(device.word, device.closed)?;
            if let Some(last) = device.readings.last_failed() {
                let line = reading_line(self.alloc, device.word, &last)?;
                self.text.push_str(line.as_str())?;
            }
        }
        Ok(())
    }

    /// The folder, by the path of the file that a call was about, and its peeks.
    pub fn folder(&mut self, folder: &FileFolder, peeks: &[FilePeek]) -> Result<(), AllocError> {
        self.add(
            folder.failed_path().unwrap_or("the folder"),
            folder.last_error(),
        )?;
        for peek in peeks {
            self.add(
                peek.failed_path().unwrap_or("the folder"),
                peek.last_error(),
            )?;
        }
        Ok(())
    }

    pub fn streams(&mut self, source: &InputSource, sink: &OutputSink) -> Result<(), AllocError> {
        self.add("standard input", source.last_error())?;
        self.add("standard output", sink.last_error())
    }
}
