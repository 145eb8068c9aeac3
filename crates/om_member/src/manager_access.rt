//! The manager as a process reaches it.

ghost use Rattle.std.specs.Prelude.{◌≡◌, ℕ};
ghost use Rattle.om_interval.specs.Vectors.{IsBelow};
ghost use Rattle.om_recover.specs.Cutting.{IsPruned};
ghost use Rattle.om_manager.specs.Outputs.{HeldOutput};
ghost use Rattle.om_manager.specs.State.{ManagerState};
ghost use Rattle.om_manager.specs.Sound.{IsManager, KeepsReleased};
ghost use Rattle.om_manager.specs.Notes.{Notes, NotesOutput};
ghost use Rattle.om_manager.specs.Rounds.{Failing, Joining};
ghost use Rattle.om_member.specs.Told.{IsToldAtOnce};

use crate::own_rows::OwnRows;
use om_interval::Pid;
use om_manager::{FailError, Gathered, JoinError, Manager, OutputError, OutputNote, RecordError};
use om_recover::{Note, Row};
use std::alloc::Global;

/// The manager as a process reaches it: itself, or on a board under its lock. A call that is refused leaves it as it was.
pub trait ManagerAccess {
    /// The manager.
    ghost state: { Self → ManagerState };

    /// Which outputs may be handed in: of a process, under a number.
    ghost Takes: { ℕ → ℕ → HeldOutput → Type 0 };

    /// The manager, for its reads.
    fn manager(&self) -> &Manager
        ensures manager { result.now ≡ state self.now }
        ensures sound { IsManager (state self.now) };

    /// Notes a row, as [`Manager::note`](om_manager::Manager::note) does.
    fn note(&mut self, alloc: Global, round: u32, row: Row) -> Result<Note, RecordError>
        ensures answer { Notes (state self.old) round row result (state self.new) }
        ensures sound { IsManager (state self.new) }
        ensures not_lowered { IsBelow (state self.old).recovery (state self.new).recovery }
        ensures released { KeepsReleased (state self.old) (state self.new) };

    /// Notes rows of a process, as [`Manager::note_rows`](om_manager::Manager::note_rows) does.
    fn note_rows(
        &mut self,
        alloc: Global,
        round: u32,
        rows: &OwnRows<'_>,
    ) -> (usize, Result<(), RecordError>)
        ensures answer { IsToldAtOnce (state self.old) round rows.now.pid rows.now.rows.now result.0 result.1 (state self.new) }
        ensures sound { IsManager (state self.new) }
        ensures not_lowered { IsBelow (state self.old).recovery (state self.new).recovery }
        ensures released { KeepsReleased (state self.old) (state self.new) };

    /// Notes an output, as [`Manager::note_output`](om_manager::Manager::note_output) does.
    fn note_output(
        &mut self,
        alloc: Global,
        pid: Pid,
        round: u32,
        x: u32,
        seq: u64,
        bytes: &[u8],
    ) -> Result<OutputNote, OutputError>
        requires taken { Takes pid seq (record { interval = x; bytes = bytes.now }) }
        ensures answer { NotesOutput (state self.old) pid round seq (record { interval = x; bytes = bytes.now }) result (state self.new) }
        ensures sound { IsManager (state self.new) }
        ensures not_lowered { IsBelow (state self.old).recovery (state self.new).recovery }
        ensures released { KeepsReleased (state self.old) (state self.new) };

    /// Declares a failure, as [`Manager::fail`](om_manager::Manager::fail) does.
    fn fail(&mut self, alloc: Global, pid: Pid, round: u32) -> Result<Gathered, FailError>
        ensures answer { Failing (state self.old) pid round result (state self.new) }
        ensures sound { IsManager (state self.new) }
        ensures not_lowered { IsBelow (state self.old).recovery (state self.new).recovery }
        ensures released { KeepsReleased (state self.old) (state self.new) };

    /// Has a process join, as [`Manager::join`](om_manager::Manager::join) does.
    fn join(
        &mut self,
        alloc: Global,
        pid: Pid,
        round: u32,
        current: u32,
    ) -> Result<Gathered, JoinError>
        ensures answer { Joining (state self.old) pid round current result (state self.new) }
        ensures sound { IsManager (state self.new) }
        ensures not_lowered { IsBelow (state self.old).recovery (state self.new).recovery }
        ensures released { KeepsReleased (state self.old) (state self.new) };

    /// Drops rows, as [`Manager::prune`](om_manager::Manager::prune) does.
    fn prune(&mut self)
        ensures rows { IsPruned (state self.old).rows (state self.old).recovery (state self.new).rows }
        ensures manager { state self.new ≡ record (state self.old) { rows = (state self.new).rows } }
        ensures sound { IsManager (state self.new) };
}

impl ManagerAccess for Manager {
    ghost state = { λ m. m };

    ghost Takes = { λ _ _ _. Unit {0} };

    fn manager(&self) -> &Manager {
        // The read tells what holds of every manager.
        let _ = self.recovery();
        self
    }

    fn note(&mut self, alloc: Global, round: u32, row: Row) -> Result<Note, RecordError> {
        self.note(alloc, round, row)
    }

    fn note_rows(
        &mut self,
        alloc: Global,
        round: u32,
        rows: &OwnRows<'_>,
    ) -> (usize, Result<(), RecordError>) {
        self.note_rows(alloc, rows.pid, round, rows)
    }

    fn note_output(
        &mut self,
        alloc: Global,
        pid: Pid,
        round: u32,
        x: u32,
        seq: u64,
        bytes: &[u8],
    ) -> Result<OutputNote, OutputError> {
        self.note_output(alloc, pid, round, x, seq, bytes)
    }

    fn fail(&mut self, alloc: Global, pid: Pid, round: u32) -> Result<Gathered, FailError> {
        self.fail(alloc, pid, round)
    }

    fn join(
        &mut self,
        alloc: Global,
        pid: Pid,
        round: u32,
        current: u32,
    ) -> Result<Gathered, JoinError> {
        self.join(alloc, pid, round, current)
    }

    fn prune(&mut self) {
        self.prune();
    }
}
