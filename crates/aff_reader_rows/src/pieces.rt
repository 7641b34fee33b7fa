//! Extents of two sectors, and their pieces: the first sector is all sevens, the second could not be read.
ghost use Rattle.std.specs.Prelude.{◌≡◌, ℕ, ◌<◌, ◌≤◌, [], ◌∷◌, true, false, Some, None, IfOk, IsTrue, length, slice_get, slice_index};
ghost use Rattle.std.specs.Arc.{arc_value};
ghost use Rattle.aff_model.specs.declared.extent.Extent.{Extent};
ghost use Rattle.aff_model.specs.declared.limits.TheConstants as limits;
ghost use Rattle.aff_model.specs.declared.publication.Place.TheVariants as place;
ghost use Rattle.aff_image.specs.Sound.{IsSound};
ghost use Rattle.sha2.specs.Sha256.{sha256};

use aff_memory::{MemoryFolder, MemoryPeek, MemoryReceipt};
use aff_model::{CHUNK, Extent, MAX_READ, Piece, Place, Plan, SECTOR};
use aff_outside::{Folder, Telling};
use sha2::{Digest, Sha256};
use std::alloc::Global;
use std::sync::Arc;
use std::test::Fail;

pub type Shared<R> = Arc<Piece<R>>;

/// Three extents of two sectors, the second of which is behind the first.
pub fn plan_of(alloc: Global) -> Result<Plan, Fail>
    ensures block { IfOk result (λ p. p.block ≡ limits.SECTOR) }
    ensures first { IfOk result (λ p. slice_get p.extents 0 ≡ Some (record { at = 512; len = 1024; priority = 0 })) }
    ensures second { IfOk result (λ p. slice_get p.extents 1 ≡ Some (record { at = 1536; len = 1024; priority = 0 })) }
    ensures third { IfOk result (λ p. slice_get p.extents 2 ≡ Some (record { at = 4096; len = 1024; priority = 0 })) }
{
    let extents = vec![in alloc; two_sectors(512), two_sectors(1536), two_sectors(4096)]?;
    let plan = Plan::of(alloc, extents, 2 * MAX_READ, SECTOR as u32)?;
    Ok(plan)
}

fn two_sectors(at: u64) -> Extent
    ensures { result ≡ record { at = at; len = 1024; priority = 0 } }
{
    Extent {
        at,
        len: 1024,
        priority: 0,
    }
}

/// Sevens, and zeros behind them.
pub fn sevens(alloc: Global, count: usize, len: usize) -> Result<Vec<u8>, Fail>
    requires { count ≤ len }
    ensures len { IfOk result (λ v. length v.items ≡ len) }
    ensures zeros { IfOk result (λ v. (k : ℕ) → count ≤ k → k < len → slice_index v.items k ≡ 0) }
{
    let mut bytes = Vec::new(alloc);
    bytes.resize(count, 7u8)?;
    bytes.resize(len, 0)?;
    Ok(bytes)
}

/// The piece of an extent whose first sector is all sevens; its second could not be read.
fn half_read<R: Telling>(
    alloc: Global,
    extent: u32,
    receipt: R,
    chunk: &[u8],
) -> Result<Shared<R>, Fail>
    ensures { IfOk result (λ p. arc_value p ≡ record { extent = extent; claimant = 0; swept = false; bad = 1 ∷ []; places = place.Chunk 0 ∷ []; digests = sha256 chunk.now ∷ []; receipts = receipt ∷ [] }) }
{
    let mut receipts = Vec::new(alloc);
    receipts.push(receipt)?;
    let piece = Piece {
        extent,
        claimant: 0,
        swept: false,
        bad: vec![in alloc; 1u32]?,
        places: vec![in alloc; Place::Chunk(0)]?,
        digests: vec![in alloc; Sha256::digest(chunk)]?,
        receipts,
    };
    let shared = Arc::new(alloc, piece)?;
    Ok(shared)
}

/// The same, with its chunk in a folder.
pub fn stored(
    alloc: Global,
    folder: &mut MemoryFolder,
    extent: u32,
) -> Result<Shared<MemoryReceipt>, Fail>
    ensures extent { IfOk result (λ p. (arc_value p).extent ≡ extent) }
    ensures sound { IfOk result (λ p. (e : Extent) → e.len ≡ 1024 → IsSound None 512 e true (λ bytes. bytes) (arc_value p)) }
{
    let chunk = sevens(alloc, SECTOR as usize, CHUNK as usize)?;
    let receipt = folder.append("data", &chunk)?;
    half_read(alloc, extent, receipt, &chunk)
}

/// The piece of the first extent, under a receipt that tells its chunk, if it tells anything.
pub fn sound_piece<R: Telling>(alloc: Global, receipt: R, chunk: &[u8]) -> Result<Shared<R>, Fail>
    requires len { length chunk.now ≡ limits.CHUNK }
    requires zeros { (k : ℕ) → 512 ≤ k → k < limits.CHUNK → slice_index chunk.now k ≡ 0 }
    requires told { IsTrue R.receipt_tells → R.told receipt ≡ chunk.now }
    ensures extent { IfOk result (λ p. (arc_value p).extent ≡ 0) }
    ensures sound { IfOk result (λ p. (e : Extent) → e.len ≡ 1024 → IsSound None 512 e R.receipt_tells R.told (arc_value p)) }
{
    half_read(alloc, 0, receipt, chunk)
}

/// The one peek of a folder.
pub fn peek_of(folder: &mut MemoryFolder) -> Result<MemoryPeek, Fail> {
    match folder.peeks(1)?.pop() {
        Some(peek) => Ok(peek),
        None => Err(Fail::new("no peek")),
    }
}
