//! The events of a world, and what became of each.

ghost use Rattle.std.specs.Prelude.{◌≡◌};

use om_look::RowsFault;
use om_manager::{FailError, Gathered, JoinError, OutputError, RecordError};
use om_member::{NotIn, NotUp};
use om_process::{Accept, ReplayFault, Status};
use om_recover::NoteError;
use om_stable::StoreError;
use om_take_up::TakeUpFault;
use std::alloc::AllocError;

/// What is to happen to a world. A process is told by its number, a frame by its place among those that were made.
#[derive(Clone, Copy, Debug, PartialEq, Eq)]
pub enum Event {
    /// The process runs, at most `fuel` instructions. Its new messages become frames, and its outputs are handed in.
    Run { process: usize, fuel: u64 },
    /// The frame is offered to the process. It is not used up.
    Give { process: usize, frame: usize },
    /// The process stores its volatile log, and its pending rows are noted.
    Flush { process: usize },
    /// The process stores the first `count` receipts of its volatile log, or all where it is shorter, and its pending rows are noted.
    FlushFirst { process: usize, count: usize },
    /// The process stores a checkpoint, and its pending rows are noted.
    Checkpoint { process: usize },
    /// The process stores a checkpoint, and no row is noted: the checkpoint's is pending with the others.
    Spell { process: usize },
    /// Each message that the process keeps becomes a new frame.
    Resend { process: usize },
    /// The process drops what the manager says that it need not keep.
    Trim { process: usize },
    /// The process is down, and this is declared: it was up, or in and the gathering that it joined is open, or down with its
    /// declaration refused and no newer round finished. A process that is in, and the gathering that it joined has
    /// finished, is down with nothing declared.
    Fail { process: usize },
    /// The process stores its volatile log, its pending rows are noted and its outputs handed in, and it joins the gathering.
    Join { process: usize },
    /// The process, which is in or down, is up again after a round that is newer than it knows: rolled back where it is down or
    /// the round says so, else as it was.
    Resume { process: usize },
    /// The manager drops what it need not keep, and then each store what stands before its effective checkpoint.
    Prune,
    /// The whole ends and starts over its stores: a new manager is told the rows of their records and what was released, and that
    /// each process failed, and finishes the round. What was received is cut to its recovery state, frames are lost, and each process
    /// is down, to come up again by `Resume`. Where a process is not back from the last finished round, and none has stored since, what
    /// had been received when it finished is cut: that a round is finished stands on no disk, and the stores hold what they held then.
    Restart,
}

/// What became of an event.
#[derive(Clone, Copy, Debug, PartialEq, Eq)]
pub enum Answer {
    /// The process ran.
    Ran {
        /// How many instructions it finished.
        steps: u64,
        /// What it is about to do.
        status: Status,
        /// How many messages it sent.
        sent: usize,
        /// How many outputs it made.
        made: usize,
    },
    /// The process answered to a frame, with anything but out of memory.
    Given(Accept),
    /// Its record is stored, and so many rows were noted: none of a process that only spells.
    Noted(usize),
    /// So many messages became frames.
    Resent(usize),
    Trimmed,
    Pruned,
    /// The failure is declared, or the process is in, and the round is finished where all are.
    Gathered(Gathered),
    /// The process is down, and nothing was to be declared.
    Down,
    /// The process is up, as it was in this interval, and in this incarnation.
    Back {
        interval: u32,
        inc: u32,
    },
    /// The process is up, as it was.
    GoesOn,
    /// All processes are down, and the round of the new manager is finished.
    Restarted,
    Refused(Refusal),
}

/// Why an event was refused. What it did before that stands.
#[derive(Clone, Copy, Debug, PartialEq, Eq)]
pub enum Refusal {
    /// The world has no such process.
    NoProcess,
    /// The process has joined a gathering, or is down.
    NotUp,
    /// No such frame was made.
    NoFrame,
    /// The process is up, or no newer round is finished than it knew.
    NotIn,
    /// No gathering is open.
    NoRound,
    /// There is no further round.
    Spent,
    /// The process's store has a record of that kind of its interval.
    Present,
    /// The process's store failed, at a prune some store, and its count of failures rose.
    Fault,
    /// The manager refused a row, an output, a failure or a join, or the process is not replayed from its store; to a restart also
    /// where a record stands for no row, or the rows recover less than before. Over stores that held nothing at the start and are
    /// clean, this does not come.
    Damaged,
    /// Memory ran out.
    Memory,
    /// A process does not know the last finished round, as it is not up again since; and one has stored a record since, so that
    /// the stores may not be of one run.
    Unsettled,
}

impl From<NotUp> for Refusal {
    ghost use Rattle.om_world.specs.declared.event.Refusal.TheVariants as why;

    ghost from_gives = { λ _ refusal. refusal ≡ why.NotUp };

    fn from(_e: NotUp) -> Refusal {
        Refusal::NotUp
    }
}

impl From<NotIn> for Refusal {
    ghost use Rattle.om_world.specs.declared.event.Refusal.TheVariants as why;

    ghost from_gives = { λ _ refusal. refusal ≡ why.NotIn };

    fn from(_e: NotIn) -> Refusal {
        Refusal::NotIn
    }
}

impl From<AllocError> for Refusal {
    ghost use Rattle.om_world.specs.declared.event.Refusal.TheVariants.{Memory};

    ghost from_gives = { λ _ why. why ≡ Memory };

    fn from(_e: AllocError) -> Refusal {
        Refusal::Memory
    }
}

impl From<StoreError> for Refusal {
    ghost use Rattle.om_world.specs.steps.Moves.{refusal_of_store};

    ghost from_gives = { λ fault why. why ≡ refusal_of_store fault };

    fn from(fault: StoreError) -> Refusal {
        match fault {
            StoreError::Present => Refusal::Present,
            StoreError::Fault => Refusal::Fault,
            StoreError::Memory => Refusal::Memory,
        }
    }
}

impl From<RecordError> for Refusal {
    ghost use Rattle.om_world.specs.steps.Moves.{refusal_of_record};

    ghost from_gives = { λ fault why. why ≡ refusal_of_record fault };

    fn from(fault: RecordError) -> Refusal {
        match fault {
            RecordError::Refused(NoteError::Memory) => Refusal::Memory,
            _ => Refusal::Damaged,
        }
    }
}

impl From<OutputError> for Refusal {
    ghost use Rattle.om_world.specs.steps.Running.{refusal_of_output};

    ghost from_gives = { λ fault why. why ≡ refusal_of_output fault };

    fn from(fault: OutputError) -> Refusal {
        match fault {
            OutputError::Memory => Refusal::Memory,
            _ => Refusal::Damaged,
        }
    }
}

impl From<FailError> for Refusal {
    ghost use Rattle.om_world.specs.steps.Moves.{refusal_of_failure};

    ghost from_gives = { λ fault why. why ≡ refusal_of_failure fault };

    fn from(fault: FailError) -> Refusal {
        match fault {
            FailError::Spent => Refusal::Spent,
            FailError::Memory => Refusal::Memory,
            FailError::Stranger => Refusal::Damaged,
            FailError::Stale { round: _ } => Refusal::Damaged,
        }
    }
}

impl From<JoinError> for Refusal {
    ghost use Rattle.om_world.specs.steps.Moves.{refusal_of_join};

    ghost from_gives = { λ fault why. why ≡ refusal_of_join fault };

    fn from(fault: JoinError) -> Refusal {
        match fault {
            JoinError::NoRound => Refusal::NoRound,
            JoinError::Memory => Refusal::Memory,
            _ => Refusal::Damaged,
        }
    }
}

impl From<ReplayFault> for Refusal {
    ghost use Rattle.om_world.specs.steps.Moves.{refusal_of_replay};

    ghost from_gives = { λ fault why. why ≡ refusal_of_replay fault };

    fn from(fault: ReplayFault) -> Refusal {
        match fault {
            ReplayFault::Fault => Refusal::Fault,
            ReplayFault::Memory => Refusal::Memory,
            _ => Refusal::Damaged,
        }
    }
}

impl From<RowsFault> for Refusal {
    ghost use Rattle.om_world.specs.steps.Restarting.{refusal_of_rows};

    ghost from_gives = { λ fault why. why ≡ refusal_of_rows fault };

    fn from(fault: RowsFault) -> Refusal {
        match fault {
            RowsFault::Fault => Refusal::Fault,
            RowsFault::Memory => Refusal::Memory,
            _ => Refusal::Damaged,
        }
    }
}

impl From<TakeUpFault> for Refusal {
    ghost use Rattle.om_world.specs.steps.Restarting.{refusal_of_take_up};

    ghost from_gives = { λ fault why. why ≡ refusal_of_take_up fault };

    fn from(fault: TakeUpFault) -> Refusal {
        match fault {
            TakeUpFault::Row(fault) => fault.into(),
            TakeUpFault::Output(fault) => fault.into(),
        }
    }
}
