//! How a chunk is kept.

/// How a chunk is kept: it is not stored, since all its bytes are 0; it is stored; or it is not stored,
/// since none of its sectors could be read.
#[derive(Clone, Copy, Debug, PartialEq, Eq)]
pub enum Cut {
    Zero,
    Stored,
    Nothing,
}
