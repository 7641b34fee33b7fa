//! Why triples are no metadata.
ghost use Rattle.std.specs.Prelude.{◌≡◌};
ghost use Rattle.aff_info.specs.declared.error.InfoError.TheVariants.{Memory};

use crate::InfoName;
use std::alloc::{AllocError, AllocFailed};

/// Why triples are not read as metadata. The names are gone through in one order, `Stream` and `Image` first and then
/// as `InfoName` has them, and the first that is not as it should be decides.
#[derive(Debug, Drop)]
pub enum InfoError {
    /// No statement has that name.
    Missing(InfoName),
    /// Two different statements have that name.
    Twice(InfoName),
    /// The statement has another value than that name may have.
    BadValue(InfoName),
    /// The stream is compressed by the method of this IRI.
    Method(String),
    /// There was no memory for the metadata.
    Memory,
}

impl From<AllocError> for InfoError {
    ghost from_gives = { λ _ e. e ≡ Memory };

    fn from(_: AllocError) -> Self {
        InfoError::Memory
    }
}

impl<T: Drop> From<AllocFailed<T>> for InfoError {
    ghost from_gives = { λ _ e. e ≡ Memory };

    fn from(_: AllocFailed<T>) -> Self {
        InfoError::Memory
    }
}
