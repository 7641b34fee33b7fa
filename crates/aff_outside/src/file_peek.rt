//! Receipts and peeks of a folder of the file system. They tell nothing of what was appended.
ghost use Rattle.std.specs.Prelude.{◌≡◌, false, []};

use crate::faults::{Faults, LastError};
use crate::outcome::counted;
use crate::receipt::{Peek, PeekFailed, Telling};
use std::fs::File;
use std::io;
use std::io::ErrorKind;
use std::marker::Model;
use std::os::unix::fs::FileExt;
use std::sync::Arc;

/// Where an append put its bytes: the path of the segment's file, which the receipts of a segment share, the
/// offset of the first and their number.
#[derive(Drop)]
pub struct FileReceipt {
    path: Arc<String>,
    at: u64,
    len: usize,
}

impl FileReceipt {
    pub(crate) fn new(path: Arc<String>, at: u64, len: usize) -> FileReceipt {
        FileReceipt { path, at, len }
    }

    /// Reads the bytes from the file. Room of another length than theirs is refused.
    fn read(&self, rt: &HostRuntime, out: &mut [u8]) -> io::Result<()> {
        if out.len() != self.len {
            return Err(io::Error::from(ErrorKind::InvalidInput));
        }
        File::open(rt, self.path.as_str())?.read_exact_at(out, self.at)
    }
}

impl Telling for FileReceipt {
    ghost receipt_tells = { false };

    ghost told = { λ _. [] };
}

/// Reads the files of segments where the receipts say.
#[derive(Drop)]
pub struct FilePeek {
    rt: HostRuntime,
    faults: Faults,
    failed: Option<Arc<String>>,
}

impl Model for FilePeek {
    ghost use Rattle.std.specs.Prelude.{ℕ};

    ghost Value = { ℕ };

    ghost view = { λ p. p.faults };
}

impl FilePeek {
    pub(crate) fn new(rt: HostRuntime) -> FilePeek
        ensures { result ≡ 0 }
    {
        FilePeek {
            rt,
            faults: Faults::none(),
            failed: None,
        }
    }

    /// The path of the file that the last fetch that failed would have read.
    pub fn failed_path(&self) -> Option<&str> {
        Some(self.failed.as_ref()?.as_str())
    }
}

impl LastError for FilePeek {
    fn last_error(&self) -> Option<io::Error> {
        self.faults.last()
    }
}

impl Peek<FileReceipt> for FilePeek {
    ghost peek_faults = { λ faults. faults };

    fn fetch(&mut self, receipt: &FileReceipt, out: &mut [u8]) -> Result<(), PeekFailed> {
        let outcome = receipt.read(&self.rt, out);
        if outcome.is_err() {
            self.failed = Arc::try_clone(&receipt.path).ok();
        }
        counted(outcome, PeekFailed, &mut self.faults)
    }
}
