//! What is no good end of a command.

ghost use Rattle.std.specs.Prelude.{◌≡◌};

use om_commands::CommandError;
use std::alloc::AllocError;

/// Why a command came to no good end.
#[derive(Clone, Copy, Debug, PartialEq, Eq)]
pub enum Failure {
    Refused(CommandError),
    /// Whoever read standard output has closed it, and wants no more.
    Unread,
    /// A process trapped or a kill did not come, where that is a failure.
    Strict,
    /// A file with symbols is given for a program that no process of the record runs.
    NoSuchName,
}

impl From<CommandError> for Failure {
    ghost use Rattle.om_outcomes.specs.declared.failure.Failure.TheVariants.{Refused};

    ghost from_gives = { λ error failure. failure ≡ Refused error };

    fn from(error: CommandError) -> Failure {
        Failure::Refused(error)
    }
}

impl From<AllocError> for Failure {
    ghost use Rattle.om_commands.specs.declared.error.CommandError.TheVariants.{NoMemory};
    ghost use Rattle.om_outcomes.specs.declared.failure.Failure.TheVariants.{Refused};

    ghost from_gives = { λ _ failure. failure ≡ Refused NoMemory };

    fn from(_e: AllocError) -> Failure {
        Failure::Refused(CommandError::NoMemory)
    }
}
