//! What the manager answers, and why it refuses.

use om_recover::NoteError;
use thiserror::Error;

/// Why a record was refused. The manager is then as it was.
#[derive(Clone, Copy, Debug, PartialEq, Eq, Error)]
pub enum RecordError {
    /// The caller's round is not the manager's, which is told.
    #[error("the manager is in round {round}")]
    Stale { round: u32 },
    /// The records refused it.
    #[error("{0}")]
    Refused(NoteError),
}

/// What became of an output that is kept.
#[derive(Clone, Copy, Debug, PartialEq, Eq)]
pub enum OutputNote {
    /// That very output was there.
    Known,
    /// It was added, and is within the recovery state.
    Released,
    /// It was added, and is beyond the recovery state.
    Held,
}

/// Why an output was refused. The manager is then as it was.
#[derive(Clone, Copy, Debug, PartialEq, Eq, Error)]
pub enum OutputError {
    #[error("the cluster has no such process")]
    Stranger,
    /// The caller's round is not the manager's, which is told.
    #[error("the manager is in round {round}")]
    Stale { round: u32 },
    /// The output of its number is another one, or the one before it was made in a later interval.
    #[error("the output differs from what is kept")]
    Differs,
    /// The number of the process's next output is told, and is lower.
    #[error("the next output is {0}")]
    Gap(u64),
    #[error("no memory")]
    Memory,
}

/// Where a gathering stands after a process failed or joined.
#[derive(Clone, Copy, Debug, PartialEq, Eq)]
pub enum Gathered {
    /// Some process is not in yet.
    Waiting,
    /// All were in, and the round is finished.
    Finished,
}

/// Why a failure was refused. The manager is then as it was.
#[derive(Clone, Copy, Debug, PartialEq, Eq, Error)]
pub enum FailError {
    #[error("the cluster has no such process")]
    Stranger,
    /// The caller's round is not the manager's, which is told.
    #[error("the manager is in round {round}")]
    Stale { round: u32 },
    /// The last round that has a number is finished.
    #[error("there is no further round")]
    Spent,
    #[error("no memory")]
    Memory,
}

/// Why a process could not join. The manager is then as it was.
#[derive(Clone, Copy, Debug, PartialEq, Eq, Error)]
pub enum JoinError {
    #[error("the cluster has no such process")]
    Stranger,
    /// The caller's round is not the manager's, which is told.
    #[error("the manager is in round {round}")]
    Stale { round: u32 },
    /// No gathering is open.
    #[error("no gathering is open")]
    NoRound,
    /// The process has failed or joined already.
    #[error("the process is in already")]
    Joined,
    #[error("no memory")]
    Memory,
}
