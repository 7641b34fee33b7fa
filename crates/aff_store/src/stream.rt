//! The stream of a volume while it is written.
ghost use Rattle.std.specs.Prelude.{◌≡◌, ◌<◌, ◌++◌, ◌∷◌, [], false, length, IfOk, OnOk, OnErr, IsErrOf, IsTrue};
ghost use Rattle.aff_model.specs.Causes.{HasCause};
ghost use Rattle.aff_blockhash.specs.Pending.{sums_in};
ghost use Rattle.aff_spec.specs.Appends.{applied, Reaches};
ghost use Rattle.aff_spec.specs.Bevvies.{chunk_appends, ending, sums_of};

use crate::tagged::with_next;
use aff_bevvy::StreamWriter;
use aff_blockhash::BlockHashes;
use aff_hash::ChunkSums;
use aff_model::{CHUNK, Memory};
use aff_names::Urn;
use aff_outside::{Folder, FolderError};
use boxcar::tag::Tag;
use std::alloc::Global;
use std::marker::Model;

/// The most chunks of a stream: those of 100,000,000 bevvies, whose numbers have eight digits.
pub const MAX_STREAM: u64 = 102_400_000_000;

/// The stream of a volume, bevvy by bevvy, with the block hashes of each. Clauses see the chunks that were written;
/// at run time it keeps the digests of one bevvy's chunks alone. After an error it has ended: no further call is
/// made on it.
#[derive(Drop)]
pub struct Stream {
    writer: StreamWriter,
    hashes: BlockHashes,
    written: Tag,
    ended: bool,
}

impl Model for Stream {
    ghost use Rattle.aff_store.specs.Written.{Written, AreInStep, cut_chunks};

    ghost Value = { Written };

    ghost view = { λ s. record { urn = s.writer.stream; chunks = cut_chunks s.written.numbers; ended = s.ended } };

    ghost invariant = { λ s. AreInStep
        (record { stream = s.writer.stream; count = s.writer.count; hashes = s.hashes.stream; bevvy = s.hashes.bevvy; sums = s.hashes.sums })
        s.written.numbers s.ended };
}

impl Stream {
    /// A stream with no chunk.
    pub fn new(alloc: Global, urn: &Urn) -> Result<Stream, Memory>
        ensures { IfOk result (λ s. s ≡ record { urn = urn.now; chunks = []; ended = false }) }
    {
        let writer = StreamWriter::new(alloc, urn)?;
        let hashes = BlockHashes::new(alloc, urn)?;
        Ok(Stream {
            writer,
            hashes,
            written: Tag::empty(),
            ended: false,
        })
    }

    /// How many chunks it has, while it has not ended.
    pub fn count(&self) -> u64
        ensures { self.now.ended ≡ false → result ≡ length self.now.chunks }
    {
        self.writer.count()
    }

    /// Appends a chunk whose digests these are; behind the last one of a bevvy its index and its block hashes.
    /// Gives the receipt of the chunk.
    pub fn append_chunk<F: Folder>(
        &mut self,
        folder: &mut F,
        chunk: &[u8],
        sums: &ChunkSums,
    ) -> Result<F::Receipt, FolderError>
        requires len { length chunk.now ≡ CHUNK }
        requires sums { sums_in sums.now ≡ sums_of chunk.now }
        requires going { self.old.ended ≡ false }
        requires room { length self.old.chunks < MAX_STREAM }
        ensures next { OnOk result (self.new ≡ record { urn = self.old.urn; chunks = self.old.chunks ++ chunk.now ∷ []; ended = false }) }
        ensures ok { OnOk result (IsTrue F.tells → F.held folder.new ≡ applied (F.held folder.old) (chunk_appends self.old.urn self.old.chunks chunk.now)) }
        ensures receipt { IfOk result (λ receipt. IsTrue F.tells → F.Receipt.told receipt ≡ chunk.now) }
        ensures part { OnErr result (IsTrue F.tells → Reaches (F.held folder.old) (chunk_appends self.old.urn self.old.chunks chunk.now) (F.held folder.new)) }
        ensures cause { HasCause (F.folder_faults folder.old) (F.folder_faults folder.new) (IsErrOf result FolderError.Failed) }
    {
        self.ended = true;
        let stored = match self.writer.append_chunk(folder, chunk) {
            Ok(stored) => stored,
            Err(error) => return Err(error),
        };
        if let Err(error) = self.hashes.push(folder, sums) {
            return Err(error);
        }
        self.written = with_next(&self.written, chunk);
        self.ended = false;
        Ok(stored.receipt)
    }

    /// Appends the index and the block hashes of a bevvy that is not full, and ends the stream.
    pub fn finish<F: Folder>(&mut self, folder: &mut F) -> Result<(), FolderError>
        requires going { self.old.ended ≡ false }
        requires room { length self.old.chunks < MAX_STREAM }
        ensures ok { OnOk result (IsTrue F.tells → F.held folder.new ≡ applied (F.held folder.old) (ending self.old.urn self.old.chunks)) }
        ensures part { OnErr result (IsTrue F.tells → Reaches (F.held folder.old) (ending self.old.urn self.old.chunks) (F.held folder.new)) }
        ensures cause { HasCause (F.folder_faults folder.old) (F.folder_faults folder.new) (IsErrOf result FolderError.Failed) }
    {
        self.ended = true;
        if let Err(error) = self.writer.finish(folder) {
            return Err(error);
        }
        self.hashes.finish(folder)
    }
}
