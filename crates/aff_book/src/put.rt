//! What becomes of a put.
use aff_claim::Word;

/// The answer to a put.
#[derive(Clone, Copy, Debug, PartialEq, Eq)]
pub enum Put {
    /// The piece was published, and there are so many now.
    Done(u64),
    /// The extent's word was another one than the claim. Nothing was appended.
    NotYours(Word),
    /// The folder failed. From now on the book has stopped.
    Failed,
    /// An earlier put failed.
    Stopped,
    /// Memory was refused, now or to an earlier put.
    Memory,
}
