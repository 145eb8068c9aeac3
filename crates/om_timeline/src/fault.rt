//! Why a record is not played on.

use std::alloc::AllocError;

/// Why a record is not played on.
#[derive(Clone, Copy, Debug, PartialEq, Eq)]
pub enum PlayFault {
    /// Memory ran out.
    Memory,
    /// The process has finished more instructions than are played: 4,294,967,295.
    TooLong,
}

impl From<AllocError> for PlayFault {
    ghost use Rattle.std.specs.Prelude.{◌≡◌};
    ghost use Rattle.om_timeline.specs.declared.fault.PlayFault.TheVariants.{Memory};

    ghost from_gives = { λ _ fault. fault ≡ Memory };

    fn from(_e: AllocError) -> PlayFault {
        PlayFault::Memory
    }
}
