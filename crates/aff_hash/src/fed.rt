//! The bytes that were fed, as clauses see them: at run time nothing is kept of them.
ghost use Rattle.std.specs.Prelude.{◌≡◌, ◌++◌};

use boxcar::tag::{Names, Tag};

// The bytes that were fed before, and the next ones.
#[derive(Drop)]
struct Feed<'a> {
    before: &'a Tag,
    next: &'a [u8],
}

// Reads a feed as all of its bytes, one after another.
struct Joined;

impl<'a> Names<Feed<'a>> for Joined {
    ghost numbers = { λ feed. feed.before.now.numbers ++ feed.next.now };
}

// The bytes that were fed before, with the next ones behind them.
pub(crate) fn with_next(before: &Tag, next: &[u8]) -> Tag
    ensures { result.numbers ≡ before.now.numbers ++ next.now }
{
    Tag::of::<Feed<'_>, Joined>(&Feed { before, next })
}
