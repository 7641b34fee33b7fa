//! The blocks in which messages end: the bytes behind the last whole block, and the padding.
ghost use Rattle.std.specs.Prelude.{◌≡◌, ℕ, [], ◌∷◌, ◌++◌, ◌-◌, ◌<◌, All, length, replicate, slice_index_or};
ghost use Rattle.aff_lanes.specs.Messages.{end_count, texts, text, IsEnd};

/// Bytes of a block.
pub(crate) const BLOCK: usize = 64;

// A message's bytes behind its last whole block, a byte 1000 0000, and zeros.
pub(crate) fn marked(rest: &[u8]) -> [u8; 128]
    requires { length rest.now < 64 }
    ensures { result ≡ rest.now ++ 0x80 ∷ replicate (127 - length rest.now) 0 }
{
    let mut end = [0; 128];
    end[..rest.len()].copy_from_slice(rest);
    end[rest.len()] = 0x80;
    end
}

// How many blocks a message ends in.
pub(crate) fn end_count(len: usize) -> usize
    ensures { result ≡ end_count len }
{
    (len % BLOCK + 72) / BLOCK
}

// The blocks in which a message ends, with the bytes that state its length in bits.
fn end_of(message: &[u8], bits: &[u8; 8]) -> [u8; 128]
    ensures { IsEnd message.now bits.now result }
{
    let mut end = marked(&message[message.len() / BLOCK * BLOCK..]);
    let at = BLOCK * end_count(message.len()) - 8;
    end[at..at + 8].copy_from_slice(bits);
    end
}

// The blocks in which each message ends.
pub(crate) fn ends_of(messages: &[&[u8]; 4], bits: &[u8; 8]) -> [[u8; 128]; 4]
    ensures { (j : ℕ) → j < 4 → IsEnd (text messages.now j) bits.now (slice_index_or result j []) }
{
    let [a, b, c, d] = *messages;
    [
        end_of(a, bits),
        end_of(b, bits),
        end_of(c, bits),
        end_of(d, bits),
    ]
}

// Four ends as messages.
pub(crate) fn slices(ends: &[[u8; 128]; 4]) -> [&[u8]; 4]
    ensures texts { texts result ≡ ends.now }
    ensures lengths { All (λ m. length m.now ≡ 128) result }
{
    let [a, b, c, d] = ends;
    [a, b, c, d]
}
