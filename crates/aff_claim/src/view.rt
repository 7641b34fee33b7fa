//! What the seats of a table know. Clauses speak of it; no value of these types is made, but for `Limits`.
use crate::Word;
use std::collections::LinkedList;

/// What the book's seat knows.
pub struct BookView {
    /// How many numbers it drew.
    pub made: u64,
    /// The number that it drew last, until a pass takes it.
    pub drawn: Option<u64>,
    /// The claims that it has seen: an extent, and the number that claimed it.
    pub held: LinkedList<(u64, u64)>,
    /// The extents that it published, in order.
    pub out: LinkedList<u64>,
    /// What each of its loads and exchanges found: an extent, and its word.
    pub found: LinkedList<(u64, Word)>,
}

/// What a pass had looked at, and which extents it knew, when it claimed last.
pub struct Last {
    pub looked: LinkedList<(u64, u64)>,
    pub known: LinkedList<u64>,
}

/// What a pass knows.
pub struct PassView {
    pub number: u64,
    /// The extents that it claimed.
    pub mine: LinkedList<u64>,
    /// The extents that it claimed or found taken.
    pub known: LinkedList<u64>,
    /// The extents that it asked for.
    pub raised: LinkedList<u64>,
    /// The demands that it found since its last claim: a word, and its bits.
    pub looked: LinkedList<(u64, u64)>,
    pub last: Last,
    /// What each of its loads and exchanges found: an extent, and its word.
    pub found: LinkedList<(u64, Word)>,
}

/// What a seat knows: that of the book, or that of a pass.
pub struct View {
    pub extents: u64,
    pub workers: u64,
    pub is_book: bool,
    pub book: BookView,
    pub pass: PassView,
}

/// What the rule of a table is told when the table is made.
#[derive(Drop)]
pub(crate) struct Limits {
    pub(crate) extents: u64,
    pub(crate) workers: u64,
}
