//! Why a text is no URN.
ghost use Rattle.std.specs.Prelude.{◌≡◌};
ghost use Rattle.aff_names.specs.declared.error.NameError.TheVariants.{Memory};

use std::alloc::AllocError;

/// Why a text is not read as a URN.
#[derive(Clone, Copy, Debug, PartialEq, Eq)]
pub enum NameError {
    /// The text does not begin with `aff4://`.
    NoScheme,
    /// The first byte place, from 7 to 43, at which the text has not what a URN has there. Place 43 is
    /// the one behind the UUID. A text that ends too early is bad at its length.
    BadUuid(u64),
    /// There was no memory for the URN.
    Memory,
}

impl From<AllocError> for NameError {
    ghost from_gives = { λ _ e. e ≡ Memory };

    fn from(_: AllocError) -> Self {
        NameError::Memory
    }
}
