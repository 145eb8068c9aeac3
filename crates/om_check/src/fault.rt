//! Why a run without failures is not played.

ghost use Rattle.std.specs.Prelude.{◌≡◌};
ghost use Rattle.om_check.specs.declared.fault.PlayFault.TheVariants.{Memory};

use om_interval::Pid;
use std::alloc::AllocError;

/// Why witnesses name no run without failures, or why it was not played.
#[derive(Clone, Copy, Debug, PartialEq, Eq)]
pub enum PlayFault {
    /// The process is to receive a message that nobody sends.
    NotSent(Pid),
    /// The process is to receive a message, and does not wait for one: it has ended.
    NotWaiting(Pid),
    /// The process is to finish more instructions than its witness says.
    Spent(Pid),
    /// The process received all that its witness says, and has not ended.
    NotEnded(Pid),
    /// Memory ran out.
    Memory,
}

impl From<AllocError> for PlayFault {
    ghost from_gives = { λ _ fault. fault ≡ Memory };

    fn from(_e: AllocError) -> PlayFault {
        PlayFault::Memory
    }
}
