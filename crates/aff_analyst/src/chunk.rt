//! Reading bytes of one chunk of a piece.
ghost use Rattle.std.specs.Prelude.{◌≡◌, ◌∷◌, [], ℕ, ◌+◌, ◌<◌, ◌≤◌, false, None, Some, length, slice_get, slice_index, IfErr, IsErrOf, IsTrue, OnOk};
ghost use Rattle.aff_model.specs.Causes.{HasCause};
ghost use Rattle.aff_model.specs.declared.limits.TheConstants as limits;
ghost use Rattle.aff_model.specs.Cells.{is_bad_at};
ghost use Rattle.aff_model.specs.History.{Part, publication_of};
ghost use Rattle.aff_model.specs.Legal.{numbers_of};
ghost use Rattle.aff_image.specs.Sound.{IsSound};
ghost use Rattle.aff_analyst.specs.Bytes.{IsFetched, IsToldAs, Keeps, Shows, stored_before};
ghost use Rattle.aff_analyst.specs.Faults.{IsFetchFault, IsPieceFault};
ghost use Rattle.aff_analyst.specs.Reads.{AreKept, HaveRoom, IsInChunk, IsReadTo, IsWhole, kind_in};

use crate::bad::first_read;
use crate::fetch::fetch;
use crate::sectors::mark;
use crate::{ReadError, RunList};
use aff_model::{CHUNK, Extent, Piece, Place};
use aff_outside::{Peek, Telling};

/// Reads a range inside one chunk of a piece's extent. The chunk is fetched where a byte of the range could be read.
pub fn read_chunk<R: Telling, P: Peek<R>>(
    peek: &mut P,
    buffer: &mut [u8],
    extent: &Extent,
    piece: &Piece<R>,
    at: u64,
    out: &mut [u8],
    runs: &mut RunList,
) -> Result<(), ReadError>
    requires room { length buffer.old ≡ limits.CHUNK }
    requires whole { IsWhole extent.now }
    requires sound { (block : ℕ) × IsSound None block extent.now R.receipt_tells R.told piece.now }
    requires chunk { IsInChunk extent.now at (length out.old) }
    requires runs { HaveRoom at (length out.old) runs.old }
    ensures read { OnOk result (IsReadTo (kind_in extent.now piece.now) (Shows R.receipt_tells R.told extent.now piece.now) at out.new runs.old runs.new) }
    ensures fault { IfErr result (IsPieceFault R.receipt_tells extent.now piece.now at (length out.old)) }
    ensures cause { HasCause (P.peek_faults peek.old) (P.peek_faults peek.new) (IsErrOf result ReadError.Failed) }
{
    copy_read(peek, buffer, extent, piece, at, out)?;
    mark(extent, piece, at, out, runs);
    Ok(())
}

// Copies what the piece keeps of a range inside one chunk, if one of its bytes could be read.
fn copy_read<R: Telling, P: Peek<R>>(
    peek: &mut P,
    buffer: &mut [u8],
    extent: &Extent,
    piece: &Piece<R>,
    at: u64,
    out: &mut [u8],
) -> Result<(), ReadError>
    requires room { length buffer.old ≡ limits.CHUNK }
    requires whole { IsWhole extent.now }
    requires sound { (block : ℕ) × IsSound None block extent.now R.receipt_tells R.told piece.now }
    requires chunk { IsInChunk extent.now at (length out.old) }
    ensures kept { OnOk result (AreKept R.receipt_tells R.told extent.now piece.now at out.new) }
    ensures fault { IfErr result (IsPieceFault R.receipt_tells extent.now piece.now at (length out.old)) }
    ensures cause { HasCause (P.peek_faults peek.old) (P.peek_faults peek.new) (IsErrOf result ReadError.Failed) }
{
    match first_read(extent, piece, at, out.len() as u64) {
        Some(first) => copy_kept(peek, buffer, extent, piece, at, first, out),
        None => Ok(()),
    }
}

// Copies what the piece keeps of a range inside one chunk, one of whose bytes could be read.
fn copy_kept<R: Telling, P: Peek<R>>(
    peek: &mut P,
    buffer: &mut [u8],
    extent: &Extent,
    piece: &Piece<R>,
    at: u64,
    first: u64,
    out: &mut [u8],
) -> Result<(), ReadError>
    requires room { length buffer.old ≡ limits.CHUNK }
    requires whole { IsWhole extent.now }
    requires sound { (block : ℕ) × IsSound None block extent.now R.receipt_tells R.told piece.now }
    requires chunk { IsInChunk extent.now at (length out.old) }
    requires first { first < length out.old }
    requires readable { is_bad_at extent.now (publication_of piece.now) (at + first) ≡ false }
    ensures kept { OnOk result ((k : ℕ) → k < length out.old → Keeps R.receipt_tells R.told extent.now piece.now (at + k) (slice_index out.new k)) }
    ensures fault { IfErr result (IsPieceFault R.receipt_tells extent.now piece.now at (length out.old)) }
    ensures cause { HasCause (P.peek_faults peek.old) (P.peek_faults peek.new) (IsErrOf result ReadError.Failed) }
{
    let number = ((at - extent.at) / CHUNK) as usize;
    let within = ((at - extent.at) % CHUNK) as usize;
    match piece.places[number] {
        Place::Nothing => unreachable!(),
        Place::Zero => {
            out.fill(0);
            Ok(())
        }
        Place::Chunk(chunk) => {
            let stored = stored_before(&piece.places, number);
            copy_chunk(peek, buffer, piece, stored, chunk, within, out)
        }
    }
}

// Fetches the stored chunk of a number among those of a piece, and copies its bytes from one on.
fn copy_chunk<R: Telling, P: Peek<R>>(
    peek: &mut P,
    buffer: &mut [u8],
    piece: &Piece<R>,
    stored: usize,
    chunk: u64,
    within: usize,
    out: &mut [u8],
) -> Result<(), ReadError>
    requires room { length buffer.old ≡ limits.CHUNK }
    requires digest { stored < length piece.now.digests }
    requires receipt { stored < length piece.now.receipts }
    requires told { IsTrue R.receipt_tells → IsToldAs R.told piece.now stored }
    requires inside { within + length out.old ≤ limits.CHUNK }
    ensures fetched { OnOk result (IsFetched R.receipt_tells R.told piece.now stored buffer.new) }
    ensures copied { OnOk result ((k : ℕ) → k < length out.old → slice_index out.new k ≡ slice_index buffer.new (within + k)) }
    ensures fault { IfErr result (IsFetchFault R.receipt_tells piece.now stored chunk) }
    ensures cause { HasCause (P.peek_faults peek.old) (P.peek_faults peek.new) (IsErrOf result ReadError.Failed) }
{
    match fetch(peek, buffer, piece, stored, chunk) {
        Ok(()) => {
            out.copy_from_slice(&buffer[within..within + out.len()]);
            Ok(())
        }
        Err(error) => Err(error),
    }
}

// How many of the chunks before one are stored.
fn stored_before(places: &[Place], number: usize) -> usize
    requires { number ≤ length places.now }
    ensures { result ≡ stored_before places.now number }
{
    let mut stored = 0;
    for k in 0..number {
        stored += stored_in(&places[k]);
    }
    stored
}

fn stored_in(place: &Place) -> usize
    ensures count { result ≡ length (numbers_of (place.now ∷ [])) }
    ensures few { result ≤ 1 }
{
    match place {
        Place::Chunk(_) => 1,
        Place::Zero | Place::Nothing => 0,
    }
}
