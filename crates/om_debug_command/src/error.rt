//! Why a record is not shown.

ghost use Rattle.std.specs.Prelude.{◌≡◌};

use om_commands::CommandError;
use std::alloc::AllocError;
use thiserror::Error;

/// Why a record is not shown, or no longer.
#[derive(Clone, Copy, Debug, PartialEq, Eq, Error)]
pub enum DebugError {
    /// As of other commands.
    #[error("{0}")]
    Refused(CommandError),
    /// A file is given for a program that no process of the record runs.
    #[error("no such name")]
    NoSuchName,
}

impl From<CommandError> for DebugError {
    ghost use Rattle.om_debug_command.specs.declared.error.DebugError.TheVariants.{Refused};

    ghost from_gives = { λ error e. e ≡ Refused error };

    fn from(error: CommandError) -> DebugError {
        DebugError::Refused(error)
    }
}

impl From<AllocError> for DebugError {
    ghost use Rattle.om_commands.specs.declared.error.CommandError.TheVariants.{NoMemory};
    ghost use Rattle.om_debug_command.specs.declared.error.DebugError.TheVariants.{Refused};

    ghost from_gives = { λ _ e. e ≡ Refused NoMemory };

    fn from(_e: AllocError) -> DebugError {
        DebugError::Refused(CommandError::NoMemory)
    }
}
