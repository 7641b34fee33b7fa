//! A stream that is written chunk by chunk.
ghost use Rattle.std.specs.Prelude.{◌≡◌, ◌+◌, ◌<◌, length, IfOk, OnOk, OnErr, IsErrOf, IsTrue};
ghost use Rattle.aff_model.specs.Causes.{HasCause};
ghost use Rattle.aff_outside.specs.declared.folder.FolderError.TheVariants.{Failed};
ghost use Rattle.aff_spec.specs.Appends.{applied, Reaches};
ghost use Rattle.aff_bevvy.specs.Chunks.{HasOneMore, IsEnded};
ghost use Rattle.aff_bevvy.specs.Written.{full_index, last_index, stored_chunk};

use crate::{index, segment};
use aff_model::{BEVVY, Memory};
use aff_names::Urn;
use aff_outside::{Folder, FolderError};
use std::alloc::Global;
use std::marker::Model;

/// What storing a chunk gives: its number in the stream, from 0, and the receipt of its bytes.
#[derive(Drop)]
pub struct Stored<R: Drop> {
    pub chunk: u64,
    pub receipt: R,
}

/// Appends a stream to a folder, chunk by chunk. It keeps no chunk. After a call that is refused a part of
/// what it was to append may stand in the folder, so no other call is to follow.
#[derive(Drop)]
pub struct StreamWriter {
    alloc: Global,
    stream: Urn,
    count: u64,
}

impl Model for StreamWriter {
    ghost use Rattle.std.specs.Prelude.{◌≤◌};
    ghost use Rattle.aff_bevvy.specs.Written.{Written};

    ghost Value = { Written };

    ghost view = { λ w. record { stream = w.stream; count = w.count } };

    ghost invariant = { λ w. w.count ≤ 102400000000 };
}

impl StreamWriter {
    /// A stream that has no chunk yet.
    pub fn new(alloc: Global, stream: &Urn) -> Result<StreamWriter, Memory>
        ensures { IfOk result (λ writer. writer ≡ record { stream = stream.now; count = 0 }) }
    {
        match stream.try_clone(alloc) {
            Ok(stream) => Ok(StreamWriter {
                alloc,
                stream,
                count: 0,
            }),
            Err(Memory) => Err(Memory),
        }
    }

    /// How many chunks it has.
    pub fn count(&self) -> u64
        ensures { result ≡ self.now.count }
    {
        self.count
    }

    /// Appends the next chunk, 32,768 bytes, to its bevvy, and behind the last chunk of a bevvy the bevvy's
    /// index.
    pub fn append_chunk<F: Folder>(
        &mut self,
        folder: &mut F,
        bytes: &[u8],
    ) -> Result<Stored<F::Receipt>, FolderError>
        requires chunk { length bytes.now ≡ 32768 }
        requires room { self.old.count < 102400000000 }
        ensures number { IfOk result (λ stored. stored.chunk ≡ self.old.count) }
        ensures receipt { IfOk result (λ stored. IsTrue F.tells → F.Receipt.told stored.receipt ≡ bytes.now) }
        ensures next { OnOk result (self.new ≡ record { stream = self.old.stream; count = self.old.count + 1 }) }
        ensures ok { OnOk result (IsTrue F.tells → F.held folder.new ≡ applied (F.held folder.old) (stored_chunk self.old.stream self.old.count bytes.now)) }
        ensures more { OnOk result (IsTrue F.tells → HasOneMore (F.held folder.old) self.old.stream self.old.count bytes.now (F.held folder.new)) }
        ensures same { OnErr result (self.new ≡ self.old) }
        ensures part { OnErr result (IsTrue F.tells → Reaches (F.held folder.old) (stored_chunk self.old.stream self.old.count bytes.now) (F.held folder.new)) }
        ensures cause { HasCause (F.folder_faults folder.old) (F.folder_faults folder.new) (IsErrOf result Failed) }
    {
        let chunk = self.count;
        let bevvy = (chunk / BEVVY) as u32;
        let receipt = match segment::append(self.alloc, folder, &self.stream, bevvy, "", bytes) {
            Ok(receipt) => receipt,
            Err(fault) => return Err(fault),
        };
        if let Err(fault) = close_full(self.alloc, folder, &self.stream, chunk) {
            return Err(fault);
        }
        self.count = chunk + 1;
        Ok(Stored { chunk, receipt })
    }

    /// Ends the stream: appends the index of its last bevvy, where that is not full and has a chunk. Answers
    /// the number of chunks.
    pub fn finish<F: Folder>(&mut self, folder: &mut F) -> Result<u64, FolderError>
        ensures count { IfOk result (λ count. count ≡ self.old.count) }
        ensures same { self.new ≡ self.old }
        ensures ok { OnOk result (IsTrue F.tells → F.held folder.new ≡ applied (F.held folder.old) (last_index self.old.stream self.old.count)) }
        ensures ended { OnOk result (IsTrue F.tells → IsEnded (F.held folder.old) self.old.stream self.old.count (F.held folder.new)) }
        ensures part { OnErr result (IsTrue F.tells → Reaches (F.held folder.old) (last_index self.old.stream self.old.count) (F.held folder.new)) }
        ensures cause { HasCause (F.folder_faults folder.old) (F.folder_faults folder.new) (IsErrOf result Failed) }
    {
        let rest = (self.count % BEVVY) as u32;
        if rest == 0 {
            return Ok(self.count);
        }
        let bevvy = (self.count / BEVVY) as u32;
        if let Err(fault) = index::append(self.alloc, folder, &self.stream, bevvy, rest) {
            return Err(fault);
        }
        Ok(self.count)
    }
}

/// Appends the index of the bevvy of a chunk, where the chunk is the last one of a full bevvy.
fn close_full<F: Folder>(
    alloc: Global,
    folder: &mut F,
    stream: &Urn,
    chunk: u64,
) -> Result<(), FolderError>
    requires { chunk < 102400000000 }
    ensures ok { OnOk result (IsTrue F.tells → F.held folder.new ≡ applied (F.held folder.old) (full_index stream.now chunk)) }
    ensures part { OnErr result (IsTrue F.tells → Reaches (F.held folder.old) (full_index stream.now chunk) (F.held folder.new)) }
    ensures cause { HasCause (F.folder_faults folder.old) (F.folder_faults folder.new) (IsErrOf result Failed) }
{
    let count = (chunk % BEVVY) as u32 + 1;
    if count < BEVVY as u32 {
        return Ok(());
    }
    let bevvy = (chunk / BEVVY) as u32;
    index::append(alloc, folder, stream, bevvy, count)
}
