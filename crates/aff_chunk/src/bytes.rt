//! The bytes of a stored chunk.
ghost use Rattle.std.specs.Prelude.{◌≡◌, ◌<◌, length};
ghost use Rattle.aff_model.specs.Plan.{chunk_count};
ghost use Rattle.aff_spec.specs.Chunks.{chunk_at};

use crate::slice::part;
use aff_model::CHUNK;

const CHUNK_BYTES: usize = CHUNK as usize;

/// Fills `out` with a chunk of an extent's bytes, and with zeros behind them.
#[tactic(auto, unfolding(aff_spec::specs::Chunks::padded))]
pub fn pad(bytes: &[u8], chunk: usize, out: &mut [u8])
    requires chunk { chunk < chunk_count (length bytes.now) }
    requires room { length out.old ≡ 32768 }
    ensures { out.new ≡ chunk_at bytes.now chunk }
{
    let chunk = part(bytes, CHUNK_BYTES * chunk, CHUNK_BYTES);
    let (front, back) = out.split_at_mut(chunk.len());
    front.copy_from_slice(chunk);
    back.fill(0);
}
