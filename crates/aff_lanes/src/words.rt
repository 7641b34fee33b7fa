//! Words of four messages, one in each lane, and digests side by side.
ghost use Rattle.std.specs.Prelude.{◌≡◌, ℕ, ◌+◌, ◌<◌, ◌≤◌, ◌++◌, All, drop, length, slice_index, take};
ghost use Rattle.md5.specs.Md5.{word_at as low_word_at};
ghost use Rattle.sha2.specs.Sha256.{word_at as high_word_at};
ghost use Rattle.aff_lanes.specs.Messages.{text};

use std::simd::u32x4;

#[inline(always)]
fn load_le(message: &[u8], at: usize) -> u32
    requires { at + 4 ≤ length message.now }
    ensures { result ≡ low_word_at message.now at }
{
    u32::from_le_bytes([
        message[at],
        message[at + 1],
        message[at + 2],
        message[at + 3],
    ])
}

#[inline(always)]
fn load_be(message: &[u8], at: usize) -> u32
    requires { at + 4 ≤ length message.now }
    ensures { result ≡ high_word_at message.now at }
{
    u32::from_be_bytes([
        message[at],
        message[at + 1],
        message[at + 2],
        message[at + 3],
    ])
}

// The word at a place of each message, low byte first.
#[inline(always)]
pub(crate) fn words_le(messages: &[&[u8]; 4], at: usize) -> u32x4
    requires { All (λ m. at + 4 ≤ length m.now) messages.now }
    ensures { (j : ℕ) → j < 4 → slice_index result j ≡ low_word_at (text messages.now j) at }
{
    let [a, b, c, d] = *messages;
    u32x4::from_array([
        load_le(a, at),
        load_le(b, at),
        load_le(c, at),
        load_le(d, at),
    ])
}

// The word at a place of each message, high byte first.
#[inline(always)]
pub(crate) fn words_be(messages: &[&[u8]; 4], at: usize) -> u32x4
    requires { All (λ m. at + 4 ≤ length m.now) messages.now }
    ensures { (j : ℕ) → j < 4 → slice_index result j ≡ high_word_at (text messages.now j) at }
{
    let [a, b, c, d] = *messages;
    u32x4::from_array([
        load_be(a, at),
        load_be(b, at),
        load_be(c, at),
        load_be(d, at),
    ])
}

// The digests of the first four messages, and those of the last four.
pub(crate) fn joined<const N: usize>(first: [[u8; N]; 4], last: [[u8; N]; 4]) -> [[u8; N]; 8]
    ensures { result ≡ first.entry ++ last.entry }
{
    let [a, b, c, d] = first;
    let [e, f, g, h] = last;
    [a, b, c, d, e, f, g, h]
}

// How long messages of one length are.
pub(crate) fn length_of(messages: &[&[u8]]) -> usize
    requires { 0 < length messages.now }
    ensures { result ≡ length (text messages.now 0) }
{
    messages[0].len()
}

// The first four messages.
pub(crate) fn first_four<'a>(messages: &[&'a [u8]; 8]) -> [&'a [u8]; 4]
    ensures { result ≡ take 4 messages.now }
{
    let [a, b, c, d, _, _, _, _] = *messages;
    [a, b, c, d]
}

// The last four messages.
pub(crate) fn last_four<'a>(messages: &[&'a [u8]; 8]) -> [&'a [u8]; 4]
    ensures { result ≡ drop 4 messages.now }
{
    let [_, _, _, _, a, b, c, d] = *messages;
    [a, b, c, d]
}
