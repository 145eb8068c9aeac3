//! Why bytes are no record.

ghost use Rattle.std.specs.Prelude.{◌≡◌};
ghost use Rattle.om_format.specs.declared.error.DecodeError.TheVariants.{Memory};

use std::alloc::{AllocError, AllocFailed};
use thiserror::Error;

/// Why bytes were not decoded. Of several faults the first from the left counts.
#[derive(Clone, Copy, Debug, PartialEq, Eq, Error)]
pub enum DecodeError {
    /// A field is not whole.
    #[error("too short")]
    Short,
    /// The bytes are no record of this kind.
    #[error("another kind of record")]
    Kind,
    /// The record has a version that is not known.
    #[error("an unknown version")]
    Version,
    /// A field has a value that is not allowed: the offset of its first byte.
    #[error("a forbidden value at byte {0}")]
    Field(usize),
    /// Bytes stand after the last field.
    #[error("bytes after the record")]
    Trailing,
    /// Memory ran out.
    #[error("no memory")]
    Memory,
}

impl From<AllocError> for DecodeError {
    ghost from_gives = { λ _ e. e ≡ Memory };

    fn from(_e: AllocError) -> DecodeError {
        DecodeError::Memory
    }
}

impl<T: Drop> From<AllocFailed<T>> for DecodeError {
    ghost from_gives = { λ _ e. e ≡ Memory };

    fn from(_e: AllocFailed<T>) -> DecodeError {
        DecodeError::Memory
    }
}
