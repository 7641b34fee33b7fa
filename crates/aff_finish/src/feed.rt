//! Feeding a segment, which is read back from its folder.
ghost use Rattle.std.specs.Prelude.{◌≡◌, ◌+◌, ◌≤◌, ◌<◌, ◌++◌, length, take, drop, IfOk, OnOk, IsErrOf, IsTrue};
ghost use Rattle.aff_model.specs.Causes.{HasCause};
ghost use Rattle.aff_model.specs.Held.{bytes_of};

use aff_hash::Linear;
use aff_outside::{Folder, FolderError};

/// Feeds all bytes of a segment of this length, in pieces of at most the buffer's. What the folder holds stays,
/// whatever the answer.
pub fn feed_segment<F: Folder>(
    folder: &mut F,
    name: &str,
    len: u64,
    buffer: &mut [u8],
    linear: &mut Linear,
) -> Result<(), FolderError>
    requires room { 0 < length buffer.old }
    requires long { IsTrue F.tells → length (bytes_of (F.held folder.old) name.now) ≡ len }
    ensures fed { OnOk result (IsTrue F.tells → linear.new ≡ linear.old ++ bytes_of (F.held folder.old) name.now) }
    ensures same { IsTrue F.tells → F.held folder.new ≡ F.held folder.old }
    ensures cause { HasCause (F.folder_faults folder.old) (F.folder_faults folder.new) (IsErrOf result FolderError.Failed) }
{
    let mut done = 0;
    while done < len {
        match feed_piece(folder, name, done, len - done, buffer, linear) {
            Ok(count) => done += count,
            Err(error) => return Err(error),
        }
    }
    Ok(())
}

// Feeds a first piece of the bytes from `at` on, of which there are `len`, and answers how many it has.
fn feed_piece<F: Folder>(
    folder: &mut F,
    name: &str,
    at: u64,
    len: u64,
    buffer: &mut [u8],
    linear: &mut Linear,
) -> Result<u64, FolderError>
    requires some { 0 < len }
    requires room { 0 < length buffer.old }
    requires inside { IsTrue F.tells → at + len ≤ length (bytes_of (F.held folder.old) name.now) }
    ensures some { IfOk result (λ count. 0 < count) }
    ensures few { IfOk result (λ count. count ≤ len) }
    ensures fed { IfOk result (λ count. IsTrue F.tells → linear.new ≡ linear.old ++ take count (drop at (bytes_of (F.held folder.old) name.now))) }
    ensures same { IsTrue F.tells → F.held folder.new ≡ F.held folder.old }
    ensures cause { HasCause (F.folder_faults folder.old) (F.folder_faults folder.new) (IsErrOf result FolderError.Failed) }
{
    let count = len.min(buffer.len() as u64);
    let piece = &mut buffer[..count as usize];
    match folder.read_at(name, at, piece) {
        Ok(()) => {
            linear.update(piece);
            Ok(count)
        }
        Err(error) => Err(error),
    }
}
