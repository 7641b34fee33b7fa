//! The bytes that were written, as clauses see them: at run time nothing is kept of them.
ghost use Rattle.std.specs.Prelude.{◌≡◌, ◌++◌};

use boxcar::tag::{Names, Tag};

// The bytes that were written before, and the next ones.
#[derive(Drop)]
struct Next<'a> {
    before: &'a Tag,
    bytes: &'a [u8],
}

// Reads them as one list.
struct Joined;

impl<'a> Names<Next<'a>> for Joined {
    ghost numbers = { λ next. next.before.now.numbers ++ next.bytes.now };
}

// The bytes that were written before, with the next ones behind them.
pub(crate) fn with_next(before: &Tag, bytes: &[u8]) -> Tag
    ensures { result.numbers ≡ before.now.numbers ++ bytes.now }
{
    Tag::of::<Next<'_>, Joined>(&Next { before, bytes })
}
