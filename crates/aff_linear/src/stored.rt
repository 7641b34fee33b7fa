//! Feeding bytes of a stream, which are read back from its bevvies.
ghost use Rattle.std.specs.Prelude.{◌≡◌, ◌≤◌, ◌<◌, ◌++◌, length, IfOk, OnOk, IsErrOf, IsTrue};
ghost use Rattle.aff_model.specs.Causes.{HasCause};
ghost use Rattle.aff_spec.specs.Walks.{stream_bytes};
ghost use Rattle.aff_linear.specs.Feeds.{IsInStream};

use crate::feeder::Feeder;
use aff_names::{Urn, segment_name};
use aff_outside::{Folder, FolderError};
use std::alloc::Global;
use std::thread::Threads;

// The bytes of a full bevvy: 1,024 chunks of 32,768 bytes.
const BEVVY_LEN: u64 = 33_554_432;

/// Feeds `len` bytes of a stream from the place `at` on, in pieces that end where a bevvy ends. What the folder holds stays, whatever the answer.
pub fn feed_stored<R: Threads + Sync, F: Folder>(
    rt: &R,
    alloc: Global,
    folder: &mut F,
    stream: &Urn,
    at: u64,
    len: u64,
    feeder: &mut Feeder,
) -> Result<(), FolderError>
    requires inside { IsInStream F.tells (F.held folder.old) stream.now at len }
    ensures fed { OnOk result (IsTrue F.tells → feeder.new ≡ feeder.old ++ stream_bytes (F.held folder.old) stream.now at len) }
    ensures same { IsTrue F.tells → F.held folder.new ≡ F.held folder.old }
    ensures cause { HasCause (F.folder_faults folder.old) (F.folder_faults folder.new) (IsErrOf result FolderError.Failed) }
{
    let mut done = 0;
    while done < len {
        match feed_piece(rt, alloc, folder, stream, at + done, len - done, feeder) {
            Ok(count) => done += count,
            Err(error) => return Err(error),
        }
    }
    Ok(())
}

// Feeds a first piece of these bytes, and answers how many it has.
fn feed_piece<R: Threads + Sync, F: Folder>(
    rt: &R,
    alloc: Global,
    folder: &mut F,
    stream: &Urn,
    at: u64,
    len: u64,
    feeder: &mut Feeder,
) -> Result<u64, FolderError>
    requires some { 0 < len }
    requires inside { IsInStream F.tells (F.held folder.old) stream.now at len }
    ensures some { IfOk result (λ count. 0 < count) }
    ensures few { IfOk result (λ count. count ≤ len) }
    ensures fed { IfOk result (λ count. IsTrue F.tells → feeder.new ≡ feeder.old ++ stream_bytes (F.held folder.old) stream.now at count) }
    ensures same { IsTrue F.tells → F.held folder.new ≡ F.held folder.old }
    ensures cause { HasCause (F.folder_faults folder.old) (F.folder_faults folder.new) (IsErrOf result FolderError.Failed) }
{
    let within = at % BEVVY_LEN;
    let rest = len.min(BEVVY_LEN - within);
    match segment_name(alloc, stream, (at / BEVVY_LEN) as u32, "") {
        Ok(bevvy) => match feeder.take_segment(rt, folder, bevvy.as_str(), within, rest) {
            Ok(count) => Ok(count),
            Err(error) => Err(error),
        },
        Err(_) => Err(FolderError::Memory),
    }
}
