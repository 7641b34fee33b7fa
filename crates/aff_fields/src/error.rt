//! Why fields are refused.
ghost use Rattle.std.specs.Prelude.{◌≡◌};
ghost use Rattle.aff_fields.specs.declared.error.FieldsError.TheVariants.{Memory};

use std::alloc::AllocError;

/// `Ragged` has the length in bytes, which is no multiple of a field's.
#[derive(Clone, Copy, Debug, PartialEq, Eq)]
pub enum FieldsError {
    Ragged(u64),
    Memory,
}

impl From<AllocError> for FieldsError {
    ghost from_gives = { λ _ e. e ≡ Memory };

    fn from(_: AllocError) -> Self {
        FieldsError::Memory
    }
}
