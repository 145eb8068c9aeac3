//! Why there was no look into a store.

ghost use Rattle.std.specs.Prelude.{◌≡◌, ◌≢◌};
ghost use Rattle.om_look.specs.declared.fault.LookFault.TheVariants.{Memory};
ghost use Rattle.om_stable.specs.declared.error.StoreError.{StoreError};

use om_stable::StoreError;
use std::alloc::{AllocError, AllocFailed};
use thiserror::Error;

/// Why a store was not looked into: the records that it holds are never a reason.
#[derive(Clone, Copy, Debug, PartialEq, Eq, Error)]
pub enum LookFault {
    /// The store failed, and its count of failures rose.
    #[error("the store failed")]
    Fault,
    /// Memory ran out.
    #[error("no memory")]
    Memory,
}

impl From<AllocError> for LookFault {
    ghost from_gives = { λ _ fault. fault ≡ Memory };

    fn from(_e: AllocError) -> LookFault {
        LookFault::Memory
    }
}

impl<T: Drop> From<AllocFailed<T>> for LookFault {
    ghost from_gives = { λ _ fault. fault ≡ Memory };

    fn from(_e: AllocFailed<T>) -> LookFault {
        LookFault::Memory
    }
}

// Returns why a store that was read refused to; it never answers `Present`.
pub(crate) fn fault_of(error: StoreError) -> LookFault
    requires { error ≢ StoreError.Present }
    ensures { result ≡ LookFault.Fault → error ≡ StoreError.Fault }
{
    match error {
        StoreError::Memory => LookFault::Memory,
        StoreError::Present | StoreError::Fault => LookFault::Fault,
    }
}
