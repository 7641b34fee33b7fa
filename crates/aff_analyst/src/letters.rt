//! Bytes that no chunk has: the letters of unreadable and of unknown bytes.
ghost use Rattle.std.specs.Prelude.{◌≡◌, ◌+◌, ◌<◌, ◌^◌, length, map};
ghost use Rattle.std.specs.List.{range_with_len};
ghost use Rattle.aff_map.specs.Symbol.{IsSymbolic, symbol_of};

use aff_map::{Target, symbol};

/// Fills a buffer with the bytes of a symbolic stream from a place on.
pub fn fill_letters(out: &mut [u8], target: Target, at: u64)
    requires symbolic { IsSymbolic target }
    requires fits { at + length out.old < 2 ^ 64 }
    ensures { out.new ≡ map (symbol_of target) (range_with_len at (length out.old)) }
{
    for k in 0..out.len() {
        out[k] = symbol(target, at + k as u64);
    }
}
