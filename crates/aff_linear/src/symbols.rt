//! Feeding bytes that no segment has: zeros, and the letters of unreadable and of unknown bytes.
ghost use Rattle.std.specs.Prelude.{◌≡◌, ◌+◌, ◌<◌, ◌^◌, ◌++◌, length, map};
ghost use Rattle.std.specs.List.{range_with_len};
ghost use Rattle.aff_map.specs.Symbol.{IsSymbolic, symbol_of};

use crate::feeder::Feeder;
use aff_map::{Target, symbol};
use std::thread::Threads;

/// Feeds `len` bytes of a symbolic stream from the place `at` on.
pub(crate) fn feed_symbols<R: Threads + Sync>(
    rt: &R,
    feeder: &mut Feeder,
    target: Target,
    at: u64,
    len: u64,
)
    requires symbolic { IsSymbolic target }
    requires fits { at + len < 2 ^ 64 }
    ensures { feeder.new ≡ feeder.old ++ map (symbol_of target) (range_with_len at len) }
{
    let mut done = 0;
    while done < len {
        done += feeder.take_symbols(rt, target, at + done, len - done);
    }
}

/// Fills a buffer with the bytes of a symbolic stream from a place on.
pub(crate) fn fill(out: &mut [u8], target: Target, at: u64)
    requires symbolic { IsSymbolic target }
    requires fits { at + length out.old < 2 ^ 64 }
    ensures { out.new ≡ map (symbol_of target) (range_with_len at (length out.old)) }
{
    match target {
        Target::Zero => out.fill(0),
        _ => fill_letters(out, target, at),
    }
}

// The same, letter by letter.
fn fill_letters(out: &mut [u8], target: Target, at: u64)
    requires symbolic { IsSymbolic target }
    requires fits { at + length out.old < 2 ^ 64 }
    ensures { out.new ≡ map (symbol_of target) (range_with_len at (length out.old)) }
{
    for k in 0..out.len() {
        out[k] = symbol(target, at + k as u64);
    }
}
