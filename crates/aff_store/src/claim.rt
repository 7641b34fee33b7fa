//! Whose an extent is.

/// An extent by its number, the number under which it was claimed, and whether the sweep publishes it.
#[derive(Clone, Copy, Debug, PartialEq, Eq)]
pub struct Claim {
    pub extent: u32,
    pub claimant: u32,
    pub swept: bool,
}
