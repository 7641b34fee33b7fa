//! Bytes of symbolic streams.
ghost use Rattle.std.specs.Prelude.{◌≡◌, ℕ, ◌+◌, ◌<◌, ◌≤◌, ◌^◌, length, slice_index};
ghost use Rattle.aff_map.specs.Symbol.{IsSymbolic, symbol_of};

use aff_map::{Target, symbol};

/// Fills a buffer with the bytes of a symbolic stream from an offset on.
pub(crate) fn fill(out: &mut [u8], target: Target, at: u64)
    requires symbolic { IsSymbolic target }
    requires fits { at + length out.old ≤ 2 ^ 64 }
    ensures { (k : ℕ) → k < length out.new → slice_index out.new k ≡ symbol_of target (at + k) }
{
    match target {
        Target::Zero => out.fill(0),
        _ => fill_letters(out, target, at),
    }
}

// The same, letter by letter.
fn fill_letters(out: &mut [u8], target: Target, at: u64)
    requires symbolic { IsSymbolic target }
    requires fits { at + length out.old ≤ 2 ^ 64 }
    ensures { (k : ℕ) → k < length out.new → slice_index out.new k ≡ symbol_of target (at + k) }
{
    for k in 0..out.len() {
        out[k] = symbol(target, at + k as u64);
    }
}
