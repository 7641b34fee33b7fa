//! Which chunks are stored.
ghost use Rattle.std.specs.Prelude.{◌≡◌, ◌%◌, ◌/◌, ◌↔◌, true, false, All, IfOk, IsTrue, length};
ghost use Rattle.aff_chunk.specs.Cut.{AreCuts, AreMarks, IsCutBy};

use crate::Cut;
use crate::slice::part;
use aff_model::{CHUNK, Memory, SECTOR};
use std::alloc::{AllocError, Global};

const CHUNK_BYTES: usize = CHUNK as usize;

const SECTOR_BYTES: usize = SECTOR as usize;

const CHUNK_SECTORS: usize = CHUNK_BYTES / SECTOR_BYTES;

/// Cuts the bytes of an extent into chunks of 32,768 bytes, the last of which may be shorter. `bad` has
/// the sectors that could not be read, counted from the first of these bytes, in any order.
///
/// It takes time for the bytes and for `bad`, and a byte of memory per sector.
pub fn cut(alloc: Global, bytes: &[u8], bad: &[u32]) -> Result<Vec<Cut>, Memory>
    requires { length bytes.now % 512 ≡ 0 }
    ensures { IfOk result (λ v. AreCuts bytes.now bad.now v.items) }
{
    cuts(alloc, bytes, bad).map_err(|_| Memory)
}

// The cut of each chunk.
fn cuts(alloc: Global, bytes: &[u8], bad: &[u32]) -> Result<Vec<Cut>, AllocError>
    requires { length bytes.now % 512 ≡ 0 }
    ensures { IfOk result (λ v. AreCuts bytes.now bad.now v.items) }
{
    let marks = marks(alloc, bytes.len() / SECTOR_BYTES, bad)?;
    let mut cuts = Vec::new(alloc);
    for j in 0..bytes.len().div_ceil(CHUNK_BYTES) {
        let chunk = part(bytes, CHUNK_BYTES * j, CHUNK_BYTES);
        let sectors = part(&marks, CHUNK_SECTORS * j, CHUNK_SECTORS);
        cuts.push(cut_of(chunk, sectors))?;
    }
    Ok(cuts)
}

// A mark for each sector: whether it is unreadable.
fn marks(alloc: Global, sectors: usize, bad: &[u32]) -> Result<Vec<bool>, AllocError>
    ensures { IfOk result (λ v. AreMarks bad.now sectors v.items) }
{
    let mut marks = vec![in alloc; false; sectors]?;
    for sector in bad {
        let sector = *sector as usize;
        if sector < marks.len() {
            marks[sector] = true;
        }
    }
    Ok(marks)
}

// How a chunk is cut, by its bytes and the marks of its sectors.
fn cut_of(bytes: &[u8], marks: &[bool]) -> Cut
    ensures { IsCutBy bytes.now marks.now result }
{
    if all_marked(marks) {
        Cut::Nothing
    } else if none_marked(marks) && is_zero(bytes) {
        Cut::Zero
    } else {
        Cut::Stored
    }
}

fn all_marked(marks: &[bool]) -> bool
    ensures { IsTrue result ↔ All (λ m. m ≡ true) marks.now }
{
    marks.iter().all(|mark| *mark)
}

fn none_marked(marks: &[bool]) -> bool
    ensures { IsTrue result ↔ All (λ m. m ≡ false) marks.now }
{
    marks.iter().all(|mark| !*mark)
}

fn is_zero(bytes: &[u8]) -> bool
    ensures { IsTrue result ↔ All (λ b. b ≡ 0) bytes.now }
{
    bytes.iter().all(|byte| *byte == 0)
}
