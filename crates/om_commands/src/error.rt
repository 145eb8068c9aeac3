//! Why a command is refused.

ghost use Rattle.std.specs.Prelude.{◌≡◌};
ghost use Rattle.om_text.specs.declared.text.ReadError.TheVariants as reading;
ghost use Rattle.om_text.specs.declared.error.BuildError.TheVariants as errors;
ghost use Rattle.om_commands.specs.steps.Errors.{error_of_reading, error_of_building, error_of_replay};

use om_process::ReplayFault;
use om_text::{BuildError, ReadError, ScriptError};
use std::alloc::AllocError;
use thiserror::Error;

/// Why a command was refused. What is read, what a store holds, or what is asked for determines all but `CannotRead`, `CannotWrite`,
/// `NoMemory`, `StoreFault`, `StoreInUse`, `AnotherCluster`, `StoreMissing`, and those of threads: `OutOfTurns`, `GateShut`, `NoThread` and `Unlike`.
#[derive(Clone, Copy, Debug, PartialEq, Eq, Error)]
pub enum CommandError {
    #[error("too long")]
    TooLong,
    #[error("cannot read")]
    CannotRead,
    #[error("cannot write")]
    CannotWrite,
    #[error("no memory")]
    NoMemory,
    #[error("empty script")]
    EmptyScript,
    #[error("{0}")]
    Script(ScriptError),
    #[error("no checkpoint")]
    NoCheckpoint,
    #[error("damaged {0}")]
    Damaged(u32),
    #[error("missing receipt {0}")]
    MissingReceipt(u32),
    #[error("mismatch {0}")]
    Mismatch(u32),
    #[error("store fault")]
    StoreFault,
    /// Of this process.
    #[error("store in use")]
    StoreInUse(usize),
    /// Of this process.
    #[error("another cluster")]
    AnotherCluster(usize),
    /// Of this process.
    #[error("store missing")]
    StoreMissing(usize),
    #[error("out of turns")]
    OutOfTurns,
    #[error("gate shut")]
    GateShut,
    #[error("no thread")]
    NoThread,
    #[error("unlike its check")]
    Unlike,
    /// The process that was asked for is none of the cluster.
    #[error("no such process")]
    NoSuchProcess,
}

impl From<ReadError> for CommandError {
    ghost from_gives = { λ error e. e ≡ error_of_reading error };

    fn from(error: ReadError) -> CommandError {
        match error {
            ReadError::TooLong => CommandError::TooLong,
            ReadError::CannotRead => CommandError::CannotRead,
            ReadError::Memory => CommandError::NoMemory,
        }
    }
}

impl From<BuildError<ScriptError>> for CommandError {
    ghost from_gives = { λ error e. e ≡ error_of_building error };

    fn from(error: BuildError<ScriptError>) -> CommandError {
        match error {
            BuildError::Invalid(error) => CommandError::Script(error),
            BuildError::Memory => CommandError::NoMemory,
        }
    }
}

impl From<ReplayFault> for CommandError {
    ghost from_gives = { λ fault e. e ≡ error_of_replay fault };

    fn from(fault: ReplayFault) -> CommandError {
        match fault {
            ReplayFault::NoCheckpoint => CommandError::NoCheckpoint,
            ReplayFault::Damaged(y) => CommandError::Damaged(y),
            ReplayFault::MissingReceipt(y) => CommandError::MissingReceipt(y),
            ReplayFault::Mismatch(y) => CommandError::Mismatch(y),
            ReplayFault::Fault => CommandError::StoreFault,
            ReplayFault::Memory => CommandError::NoMemory,
        }
    }
}

impl From<AllocError> for CommandError {
    ghost use Rattle.om_commands.specs.declared.error.CommandError.TheVariants.{NoMemory};

    ghost from_gives = { λ _ e. e ≡ NoMemory };

    fn from(_e: AllocError) -> CommandError {
        CommandError::NoMemory
    }
}
