//! Reading a range, extent by extent and chunk by chunk.
ghost use Rattle.std.specs.Prelude.{◌≡◌, ℕ, ◌+◌, ◌<◌, ◌≤◌, ◌%◌, ◌^◌, None, map, take, length, IfOk, IfErr, IsErrOf, OnOk};
ghost use Rattle.std.specs.Arc.{arc_value};
ghost use Rattle.aff_model.specs.Causes.{HasCause};
ghost use Rattle.aff_model.specs.declared.limits.TheConstants as limits;
ghost use Rattle.aff_model.specs.History.{Part, publication_of};
ghost use Rattle.aff_model.specs.Kinds.{kind_at};
ghost use Rattle.aff_image.specs.Sound.{AreSound};
ghost use Rattle.aff_analyst.specs.Bytes.{IsShown};
ghost use Rattle.aff_analyst.specs.Faults.{IsFault, MayRead};
ghost use Rattle.aff_analyst.specs.Reads.{HaveRoom, IsReadTo, IsStep};

use crate::chunk::read_chunk;
use crate::sectors::fill_unknown;
use crate::seen::first_of;
use crate::{ReadError, RunList};
use aff_model::{CHUNK, Piece, Plan, SECTOR};
use aff_outside::{Peek, Telling};
use std::sync::Arc;

/// Reads a range by pieces: fills `out`, whose length is the range's, and puts the range's runs behind the others.
pub fn read_range<R: Telling, P: Peek<R>>(
    peek: &mut P,
    buffer: &mut [u8],
    plan: &Plan,
    pieces: &[Arc<Piece<R>>],
    at: u64,
    out: &mut [u8],
    runs: &mut RunList,
) -> Result<(), ReadError>
    requires room { length buffer.old ≡ limits.CHUNK }
    requires sound { AreSound None plan.now R.receipt_tells R.told (map arc_value pieces.now) }
    requires range { MayRead plan.now.size at (length out.old) }
    requires small { plan.now.size < 2 ^ 64 }
    requires runs { HaveRoom at (length out.old) runs.old }
    ensures read { OnOk result (IsReadTo (kind_at plan.now.extents (map publication_of (map arc_value pieces.now))) (IsShown R.receipt_tells R.told plan.now.extents (map arc_value pieces.now)) at out.new runs.old runs.new) }
    ensures fault { IfErr result (IsFault plan.now R.receipt_tells (map arc_value pieces.now) at (length out.old)) }
    ensures cause { HasCause (P.peek_faults peek.old) (P.peek_faults peek.new) (IsErrOf result ReadError.Failed) }
{
    let len = out.len();
    let mut done = 0;
    while done < len {
        let count = read_next(
            peek,
            buffer,
            plan,
            pieces,
            at + done as u64,
            &mut out[done..],
            runs,
        )?;
        done += count;
    }
    Ok(())
}

// Reads a first part of a range, which ends with the range or a sector, and answers its length.
fn read_next<R: Telling, P: Peek<R>>(
    peek: &mut P,
    buffer: &mut [u8],
    plan: &Plan,
    pieces: &[Arc<Piece<R>>],
    at: u64,
    out: &mut [u8],
    runs: &mut RunList,
) -> Result<usize, ReadError>
    requires some { 0 < length out.old }
    requires room { length buffer.old ≡ limits.CHUNK }
    requires sound { AreSound None plan.now R.receipt_tells R.told (map arc_value pieces.now) }
    requires range { MayRead plan.now.size at (length out.old) }
    requires small { plan.now.size < 2 ^ 64 }
    requires runs { HaveRoom at (length out.old) runs.old }
    ensures count { IfOk result (λ count. IsStep at (length out.old) count) }
    ensures read { IfOk result (λ count. IsReadTo (kind_at plan.now.extents (map publication_of (map arc_value pieces.now))) (IsShown R.receipt_tells R.told plan.now.extents (map arc_value pieces.now)) at (take count out.new) runs.old runs.new) }
    ensures fault { IfErr result (IsFault plan.now R.receipt_tells (map arc_value pieces.now) at (length out.old)) }
    ensures cause { HasCause (P.peek_faults peek.old) (P.peek_faults peek.new) (IsErrOf result ReadError.Failed) }
{
    let extents = plan.extents();
    let Some(number) = plan.find(at) else {
        let count = ((SECTOR - at % SECTOR) as usize).min(out.len());
        fill_unknown(at, &mut out[..count], runs);
        return Ok(count);
    };
    let extent = &extents[number as usize];
    let left = (extent.at + extent.len - at) as usize;
    let Some(place) = first_of(pieces, number) else {
        let count = left.min(out.len());
        fill_unknown(at, &mut out[..count], runs);
        return Ok(count);
    };
    let in_chunk = (CHUNK - (at - extent.at) % CHUNK) as usize;
    let count = left.min(in_chunk).min(out.len());
    read_chunk(
        peek,
        buffer,
        extent,
        &pieces[place],
        at,
        &mut out[..count],
        runs,
    )?;
    Ok(count)
}
