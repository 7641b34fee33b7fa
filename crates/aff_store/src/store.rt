//! What was read of an extent, stored.
ghost use Rattle.std.specs.Prelude.{◌≡◌, ◌+◌, ◌/◌, ◌<◌, ◌≤◌, ◌++◌, ◌∷◌, [], false, All, length, map, IfOk, OnOk, OnErr, IsErrOf, IsTrue};
ghost use Rattle.sha2.specs.Sha256.{sha256};
ghost use Rattle.aff_model.specs.Causes.{HasCause};
ghost use Rattle.aff_model.specs.Plan.{chunk_count};
ghost use Rattle.aff_hash.specs.Chosen.{chosen_sums};
ghost use Rattle.aff_spec.specs.Appends.{applied, Reaches};
ghost use Rattle.aff_spec.specs.Bevvies.{chunk_appends, more_appends};
ghost use Rattle.aff_spec.specs.Chunks.{chunk_at};
ghost use Rattle.aff_extent.specs.Drafts.{stored_from};
ghost use Rattle.aff_store.specs.Pieces.{IsPieceOf, chosen_chunks};

use crate::places::places_of;
use crate::{Claim, Stream};
use aff_extent::Draft;
use aff_hash::{ChunkSums, chunk, padded_end};
use aff_model::{MAX_CHUNKS, MAX_EXTENT_CHUNKS, Memory, Piece};
use aff_outside::{Folder, FolderError};
use std::alloc::{AllocError, Global};

impl Stream {
    /// Appends the chunks of an extent that are to be stored, and gives its piece under the claim. `bytes` are the
    /// extent's, of which the draft speaks.
    pub fn put<F: Folder>(
        &mut self,
        alloc: Global,
        folder: &mut F,
        claim: Claim,
        draft: Draft,
        bytes: &[u8],
    ) -> Result<Piece<F::Receipt>, FolderError>
        requires going { self.old.ended ≡ false }
        requires room { length self.old.chunks ≤ MAX_CHUNKS }
        requires count { length draft.cuts ≡ chunk_count (length bytes.now) }
        requires few { length draft.cuts ≤ MAX_EXTENT_CHUNKS }
        requires chosen { draft.stored ≡ stored_from 0 draft.cuts }
        requires digests { draft.sums ≡ chosen_sums bytes.now draft.stored }
        ensures piece { IfOk result (λ p. IsPieceOf claim (length self.old.chunks) bytes.now draft F.tells F.Receipt.told p) }
        ensures next { OnOk result (self.new ≡ record { urn = self.old.urn; chunks = self.old.chunks ++ chosen_chunks bytes.now draft.stored; ended = false }) }
        ensures ok { OnOk result (IsTrue F.tells → F.held folder.new ≡ applied (F.held folder.old) (more_appends self.old.urn self.old.chunks (chosen_chunks bytes.now draft.stored))) }
        ensures part { OnErr result (IsTrue F.tells → Reaches (F.held folder.old) (more_appends self.old.urn self.old.chunks (chosen_chunks bytes.now draft.stored)) (F.held folder.new)) }
        ensures cause { HasCause (F.folder_faults folder.old) (F.folder_faults folder.new) (IsErrOf result FolderError.Failed) }
    {
        let places = match places_of(alloc, self.count(), &draft.cuts) {
            Ok(places) => places,
            Err(_) => return Err(FolderError::Memory),
        };
        let digests = match digests_of(alloc, &draft.sums) {
            Ok(digests) => digests,
            Err(_) => return Err(FolderError::Memory),
        };
        let receipts = match self.append_chosen(alloc, folder, bytes, &draft.stored, &draft.sums) {
            Ok(receipts) => receipts,
            Err(error) => return Err(error),
        };
        Ok(Piece {
            extent: claim.extent,
            claimant: claim.claimant,
            swept: claim.swept,
            bad: draft.unreadable,
            places,
            digests,
            receipts,
        })
    }

    // Appends chosen chunks of an extent's bytes, which have these digests, in their order.
    fn append_chosen<F: Folder>(
        &mut self,
        alloc: Global,
        folder: &mut F,
        bytes: &[u8],
        stored: &[usize],
        sums: &[ChunkSums],
    ) -> Result<Vec<F::Receipt>, FolderError>
        requires going { self.old.ended ≡ false }
        requires room { length self.old.chunks ≤ MAX_CHUNKS }
        requires few { length stored.now ≤ MAX_EXTENT_CHUNKS }
        requires there { All (λ j. j < chunk_count (length bytes.now)) stored.now }
        requires digests { sums.now ≡ chosen_sums bytes.now stored.now }
        ensures count { IfOk result (λ receipts. length receipts.items ≡ length stored.now) }
        ensures told { IfOk result (λ receipts. IsTrue F.tells → map F.Receipt.told receipts.items ≡ chosen_chunks bytes.now stored.now) }
        ensures next { OnOk result (self.new ≡ record { urn = self.old.urn; chunks = self.old.chunks ++ chosen_chunks bytes.now stored.now; ended = false }) }
        ensures ok { OnOk result (IsTrue F.tells → F.held folder.new ≡ applied (F.held folder.old) (more_appends self.old.urn self.old.chunks (chosen_chunks bytes.now stored.now))) }
        ensures part { OnErr result (IsTrue F.tells → Reaches (F.held folder.old) (more_appends self.old.urn self.old.chunks (chosen_chunks bytes.now stored.now)) (F.held folder.new)) }
        ensures cause { HasCause (F.folder_faults folder.old) (F.folder_faults folder.new) (IsErrOf result FolderError.Failed) }
    {
        let end = match padded_end(alloc, bytes) {
            Ok(end) => end,
            Err(Memory) => return Err(FolderError::Memory),
        };
        let mut receipts = Vec::new(alloc);
        for (k, number) in stored.iter().enumerate() {
            match self.append_chunk(folder, chunk(bytes, &end, *number), &sums[k]) {
                Ok(receipt) => {
                    if receipts.push(receipt).is_err() {
                        return Err(FolderError::Memory);
                    }
                }
                Err(error) => return Err(error),
            }
        }
        Ok(receipts)
    }
}

// The SHA-256 of each of these.
fn digests_of(alloc: Global, sums: &[ChunkSums]) -> Result<Vec<[u8; 32]>, AllocError>
    ensures { IfOk result (λ digests. digests.items ≡ map (λ s. s.sha256) sums.now) }
{
    let mut digests = Vec::with_capacity(alloc, sums.len())?;
    for sum in sums {
        digests.push(sum.sha256)?;
    }
    Ok(digests)
}
