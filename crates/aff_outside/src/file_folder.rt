//! A folder over the file system. It tells nothing of what it holds.
ghost use Rattle.std.specs.Prelude.{◌≡◌, false, All, length, refl, IfOk};
ghost use Rattle.std.specs.FinMap.{empty};

use crate::faults::{Faults, LastError};
use crate::file_peek::{FilePeek, FileReceipt};
use crate::folder::{Folder, FolderError, Segment};
use crate::outcome::{error_behind, folder_answer};
use crate::walk::list_all;
use crate::write_whole::write_whole;
use aff_model::Memory;
use std::alloc::{AllocError, Global};
use std::fs::{File, OpenOptions};
use std::io::{ErrorKind, Seek, SeekFrom};
use std::os::unix::fs::FileExt;
use std::sync::Arc;
use std::{fs, io};

/// A folder of the file system. A segment is a file in it or in a folder below it, by its path from there;
/// what is no folder counts as a file, and no link is followed.
#[derive(Drop)]
pub struct FileFolder {
    rt: HostRuntime,
    path: String,
    last: Option<Arc<String>>,
    faults: Faults,
    failed: Option<String>,
}

/// The path of a name in a folder. An empty path names no folder, and `/name` is another's file.
pub(crate) fn joined(rt: &HostRuntime, folder: &str, name: &str) -> io::Result<String> {
    if folder.is_empty() {
        return Err(io::Error::from(ErrorKind::InvalidInput));
    }
    Ok(format!(in rt.alloc(); "{folder}/{name}")?)
}

/// Makes the last part of a path, where it is missing.
fn make_folder(rt: &HostRuntime, path: &str) -> io::Result<()> {
    match fs::create_dir(rt, path) {
        Err(error) if error.kind() == ErrorKind::AlreadyExists => Ok(()),
        outcome => outcome,
    }
}

/// Makes the folder and, for a name with a part before `/`, the folder of that name in it.
fn make_folders(rt: &HostRuntime, folder: &str, name: &str) -> io::Result<()> {
    make_folder(rt, folder)?;
    if let Some((front, _)) = name.split_once('/') {
        let inner = joined(rt, folder, front)?;
        make_folder(rt, inner.as_str())?;
    }
    Ok(())
}

/// A segment that is open for appending, and whether it was made for that.
#[derive(Drop)]
struct Opened {
    file: File,
    is_new: bool,
}

impl Opened {
    /// Opens a segment, whose path is given too. One that is missing is made, with its folders.
    fn open(rt: &HostRuntime, folder: &str, name: &str, path: &str) -> io::Result<Opened> {
        match OpenOptions::new().append(true).open(rt, path) {
            Err(error) if error.kind() == ErrorKind::NotFound => {
                make_folders(rt, folder, name)?;
                let file = OpenOptions::new().append(true).create(true).open(rt, path)?;
                Ok(Opened { file, is_new: true })
            }
            outcome => Ok(Opened {
                file: outcome?,
                is_new: false,
            }),
        }
    }

    /// Appends the bytes, and gives the offset of the first. A segment that was made is a change too.
    fn append(&mut self, bytes: &[u8]) -> io::Result<u64> {
        match append_to_end(&mut self.file, bytes) {
            Ok(at) => Ok(at),
            Err(error) => Err(error_behind(error, self.is_new)),
        }
    }
}

fn append_to_end(file: &mut File, bytes: &[u8]) -> io::Result<u64> {
    let at = file.seek(SeekFrom::End(0))?;
    write_whole(file, bytes)?;
    Ok(at)
}

/// The path in shared memory: that of the append before, where it is the same.
fn shared_path(
    alloc: Global,
    last: &Option<Arc<String>>,
    path: String,
) -> Result<Arc<String>, AllocError> {
    match last {
        Some(last) if last.as_str() == path.as_str() => Arc::try_clone(last),
        _ => Arc::new(alloc, path).map_err(AllocError::from),
    }
}

fn read_from(
    rt: &HostRuntime,
    folder: &str,
    name: &str,
    at: u64,
    out: &mut [u8],
) -> io::Result<()> {
    let path = joined(rt, folder, name)?;
    File::open(rt, path.as_str())?.read_exact_at(out, at)
}

impl FileFolder {
    /// Keeps the path and touches no file. A folder that does not exist has no segment; the first append
    /// makes it, and makes no folder above it.
    pub fn at(rt: HostRuntime, path: &str) -> Result<FileFolder, Memory> {
        match String::from_str(rt.alloc(), path) {
            Ok(path) => Ok(FileFolder {
                rt,
                path,
                last: None,
                faults: Faults::none(),
                failed: None,
            }),
            Err(_) => Err(Memory),
        }
    }

    /// The path that the last call that failed was about: a file's, or the folder's own.
    pub fn failed_path(&self) -> Option<&str> {
        Some(self.failed.as_ref()?.as_str())
    }

    /// Keeps the path of a segment, for whom the error is told.
    fn keep_path(&mut self, name: &str)
        ensures { self.new.faults ≡ self.old.faults }
    {
        self.failed = joined(&self.rt, self.path.as_str(), name).ok();
    }

    /// Takes all its memory before the first byte is written.
    fn append_to(&mut self, name: &str, bytes: &[u8]) -> io::Result<FileReceipt>
        ensures { self.new.faults ≡ self.old.faults }
    {
        let path = joined(&self.rt, self.path.as_str(), name)?;
        let path = shared_path(self.rt.alloc(), &self.last, path)?;
        self.last = Some(Arc::try_clone(&path)?);
        let mut segment = Opened::open(&self.rt, self.path.as_str(), name, path.as_str())?;
        let at = segment.append(bytes)?;
        Ok(FileReceipt::new(path, at, bytes.len()))
    }
}

/// Peeks at the files, none of which has failed.
fn file_peeks(rt: &HostRuntime, count: usize) -> io::Result<Vec<FilePeek>>
    ensures count { IfOk result (λ peeks. length peeks.items ≡ count) }
    ensures fresh { IfOk result (λ peeks. All (λ peek. peek ≡ 0) peeks.items) }
{
    let mut peeks = Vec::new(rt.alloc());
    for _ in 0..count {
        peeks.push(FilePeek::new(*rt))?;
    }
    Ok(peeks)
}

impl LastError for FileFolder {
    fn last_error(&self) -> Option<io::Error> {
        self.faults.last()
    }
}

impl Folder for FileFolder {
    type Receipt = FileReceipt;

    type Peek = FilePeek;

    ghost tells = { false };

    ghost held = { λ _. empty };

    ghost folder_faults = { λ f. f.faults };

    /// A name that is not UTF-8 is answered by `Failed`.
    fn list(&mut self) -> Result<Vec<Segment>, FolderError> {
        let outcome = list_all(&self.rt, self.path.as_str());
        if outcome.is_err() {
            self.failed = String::from_str(self.rt.alloc(), self.path.as_str()).ok();
        }
        folder_answer(outcome, &mut self.faults)
    }

    /// Makes the folder where it is missing, and the one folder in it that the name may begin with.
    fn append(&mut self, name: &str, bytes: &[u8]) -> Result<FileReceipt, FolderError> {
        let outcome = self.append_to(name, bytes);
        if outcome.is_err() {
            self.keep_path(name);
        }
        folder_answer(outcome, &mut self.faults)
    }

    fn read_at(&mut self, name: &str, at: u64, out: &mut [u8]) -> Result<(), FolderError> {
        let outcome = read_from(&self.rt, self.path.as_str(), name, at, out);
        if outcome.is_err() {
            self.keep_path(name);
        }
        folder_answer(outcome, &mut self.faults)
    }

    fn peeks(&mut self, count: usize) -> Result<Vec<FilePeek>, FolderError> {
        let outcome = file_peeks(&self.rt, count);
        folder_answer(outcome, &mut self.faults)
    }

    ghost receipts_tell = { refl };
}
