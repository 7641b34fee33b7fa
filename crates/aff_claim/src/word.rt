//! Claim words, and where a table has its words.
ghost use Rattle.std.specs.Prelude.{◌≡◌, ℕ, ◌/◌, ◌%◌, ◌<◌, ◌≤◌, ◌^◌};
ghost use Rattle.aff_claim.specs.Words as spec;
ghost use Rattle.aff_claim.specs.Words.{Names, word_of};

/// What a claim word says of its extent.
#[derive(Clone, Copy, Debug, PartialEq, Eq)]
pub enum Word {
    Free,
    /// The pass with this number claimed it; the number of workers stands for the sweep.
    Claimed(u32),
    /// It was published under this number.
    Published(u32),
}

// The word for which a number of the table stands.
pub(crate) fn read_word(found: u64) -> Word
    requires { (k : ℕ) → Names (word_of found) k → k < 2 ^ 32 }
    ensures { result ≡ word_of found }
{
    if found == 0 {
        Word::Free
    } else if found % 2 == 1 {
        Word::Claimed(((found - 1) / 2) as u32)
    } else {
        Word::Published(((found - 2) / 2) as u32)
    }
}

/// The word that counts the numbers drawn.
pub(crate) const DRAWN_COUNT: usize = 0;

// The claim word of an extent.
pub(crate) fn claim_place(extent: u32) -> usize
    ensures { result ≡ spec.claim_place extent }
{
    extent as usize + 1
}

// How many demand words a table has for so many extents.
pub(crate) fn demand_count(extents: usize) -> usize
    requires { extents ≤ 65536 }
    ensures { result ≡ spec.demand_count extents }
{
    extents.div_ceil(64)
}

// A demand word of such a table.
pub(crate) fn demand_place(extents: usize, number: usize) -> usize
    requires { (extents ≤ 65536) × (number < spec.demand_count extents) }
    ensures { result ≡ spec.demand_place extents number }
{
    extents + 1 + number
}

// The demand word that has an extent's bit, from the first on.
pub(crate) fn demand_number(extent: u32) -> usize
    ensures { result ≡ extent / 64 }
{
    extent as usize / 64
}

// The bit of an extent in its demand word.
pub(crate) fn demand_bit(extent: u32) -> u64
    ensures { result ≡ 2 ^ (extent % 64) }
{
    1 << (extent % 64)
}

// The cursor of such a table.
pub(crate) fn cursor_place(extents: usize) -> usize
    requires { extents ≤ 65536 }
    ensures { result ≡ spec.cursor_place extents }
{
    extents + 1 + demand_count(extents)
}

// How many words it has.
pub(crate) fn word_count(extents: usize) -> usize
    requires { extents ≤ 65536 }
    ensures { result ≡ spec.word_count extents }
{
    extents + 2 + demand_count(extents)
}
