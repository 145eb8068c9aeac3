//! Why a machine is not made.

use std::alloc::AllocError;
use thiserror::Error;

/// Why a machine was not made.
#[derive(Clone, Copy, Debug, PartialEq, Eq, Drop, Error)]
pub enum LoadFault {
    /// The image is longer than the memory.
    #[error("the image is longer than the memory")]
    ImageTooLong,
    /// No memory has that size: it is not a multiple of 4, or out of range.
    #[error("no memory has that size")]
    BadSize,
    /// Memory ran out.
    #[error("no memory")]
    Memory,
}

impl From<AllocError> for LoadFault {
    ghost use Rattle.std.specs.Prelude.{◌≡◌};
    ghost use Rattle.om_machine.specs.declared.fault.LoadFault.TheVariants.{Memory};

    ghost from_gives = { λ error fault. fault ≡ Memory };

    fn from(_: AllocError) -> Self {
        LoadFault::Memory
    }
}
