//! The block hashes of a stream that is written chunk by chunk.
ghost use Rattle.std.specs.Prelude.{◌≡◌, ◌<◌, length, IfOk, OnOk, OnErr, IsErrOf, IsTrue};
ghost use Rattle.aff_model.specs.Causes.{HasCause};
ghost use Rattle.aff_spec.specs.Appends.{applied, Reaches};
ghost use Rattle.aff_blockhash.specs.Pending.{sums_in, unpushed, pushed, push_appends, finished, finish_appends};

use crate::segment::close;
use aff_hash::ChunkSums;
use aff_model::{BEVVY, Memory};
use aff_names::Urn;
use aff_outside::{Folder, FolderError};
use std::alloc::{AllocError, Global};
use std::marker::Model;

const BEVVY_CHUNKS: usize = BEVVY as usize;

/// The block hashes of a stream that is still written: how many of its bevvies are closed, and the digests
/// of the chunks behind them, fewer than a bevvy has. Bevvies are numbered from 0, below 100,000,000.
#[derive(Drop)]
pub struct BlockHashes {
    alloc: Global,
    stream: Urn,
    bevvy: u32,
    sums: Vec<ChunkSums>,
}

impl Model for BlockHashes {
    ghost use Rattle.std.specs.Prelude.{map};
    ghost use Rattle.aff_blockhash.specs.Pending.{Pending, sums_in, IsOpen};

    ghost Value = { Pending };

    ghost view = { λ b. record { stream = b.stream; bevvy = b.bevvy; sums = map sums_in b.sums.items } };

    ghost invariant = { λ b. IsOpen b.bevvy b.sums };
}

impl BlockHashes {
    /// No chunk was pushed. The room for a bevvy's digests is taken here, and kept.
    pub fn new(alloc: Global, stream: &Urn) -> Result<BlockHashes, Memory>
        ensures { IfOk result (λ hashes. hashes ≡ unpushed stream.now) }
    {
        let Ok(sums) = Vec::with_capacity(alloc, BEVVY_CHUNKS) else {
            return Err(Memory);
        };
        let stream = stream.try_clone(alloc)?;
        Ok(BlockHashes {
            alloc,
            stream,
            bevvy: 0,
            sums,
        })
    }

    /// Takes the digests of the next chunk. Behind the last chunk of a bevvy its three segments are appended:
    /// md5, sha1, sha256. Only such a push takes memory, and only such a push can fail: `Failed` where the
    /// folder failed, `Memory` where memory was refused. After an error the digests of this bevvy are lost,
    /// and no further call is of use.
    pub fn push<F: Folder>(&mut self, folder: &mut F, sums: &ChunkSums) -> Result<(), FolderError>
        requires { self.old.bevvy < 100000000 }
        ensures few { length self.old.sums < 1024 }
        ensures state { OnOk result (self.new ≡ pushed self.old (sums_in sums.now)) }
        ensures ok { OnOk result (IsTrue F.tells → F.held folder.new ≡ applied (F.held folder.old) (push_appends self.old (sums_in sums.now))) }
        ensures part { OnErr result (IsTrue F.tells → Reaches (F.held folder.old) (push_appends self.old (sums_in sums.now)) (F.held folder.new)) }
        ensures closes { OnErr result (length self.old.sums ≡ 1023) }
        ensures cause { HasCause (F.folder_faults folder.old) (F.folder_faults folder.new) (IsErrOf result FolderError.Failed) }
    {
        self.sums.push(*sums)?;
        if self.sums.len() < BEVVY_CHUNKS {
            return Ok(());
        }
        let closed = close(self.alloc, folder, &self.stream, self.bevvy, &self.sums);
        self.sums.clear();
        self.bevvy += 1;
        closed
    }

    /// Appends the segments of a bevvy that is not full, if it has a chunk. It can fail only then: `Failed`
    /// where the folder failed, `Memory` where memory was refused. After an error the digests of this bevvy
    /// are lost, and no further call is of use.
    pub fn finish<F: Folder>(&mut self, folder: &mut F) -> Result<(), FolderError>
        ensures few { length self.old.sums < 1024 }
        ensures state { OnOk result (self.new ≡ finished self.old) }
        ensures ok { OnOk result (IsTrue F.tells → F.held folder.new ≡ applied (F.held folder.old) (finish_appends self.old)) }
        ensures part { OnErr result (IsTrue F.tells → Reaches (F.held folder.old) (finish_appends self.old) (F.held folder.new)) }
        ensures closes { OnErr result (0 < length self.old.sums) }
        ensures cause { HasCause (F.folder_faults folder.old) (F.folder_faults folder.new) (IsErrOf result FolderError.Failed) }
    {
        if self.sums.is_empty() {
            return Ok(());
        }
        let closed = close(self.alloc, folder, &self.stream, self.bevvy, &self.sums);
        self.sums.clear();
        self.bevvy += 1;
        closed
    }
}
