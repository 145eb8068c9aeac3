//! Why a store refuses a call.

ghost use Rattle.std.specs.Prelude.{◌≡◌};
ghost use Rattle.om_stable.specs.declared.error.StoreError.TheVariants.{Memory};

use std::alloc::{AllocError, AllocFailed};
use thiserror::Error;

/// Why a store refused a call. The store's content is then as it was.
#[derive(Clone, Copy, Debug, PartialEq, Eq, Error)]
pub enum StoreError {
    /// A record of that kind is already at an interval to be put.
    #[error("a record is already there")]
    Present,
    /// The store failed, and its count of failures rose.
    #[error("the store failed")]
    Fault,
    /// Memory ran out.
    #[error("no memory")]
    Memory,
}

impl<T: Drop> From<AllocFailed<T>> for StoreError {
    ghost from_gives = { λ _ e. e ≡ Memory };

    fn from(_e: AllocFailed<T>) -> StoreError {
        StoreError::Memory
    }
}

impl From<AllocError> for StoreError {
    ghost from_gives = { λ _ e. e ≡ Memory };

    fn from(_e: AllocError) -> StoreError {
        StoreError::Memory
    }
}
