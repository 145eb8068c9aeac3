//! The board under its lock, as a process reaches its manager.

use om_board::{Board, Frontier, Naming};
use om_interval::Pid;
use om_manager::{FailError, Gathered, JoinError, Manager, OutputError, OutputNote, RecordError};
use om_member::{ManagerAccess, OwnRows};
use om_recover::{Note, Row};
use std::alloc::Global;
use std::sync::Wait;

/// Holds the board of a cluster while its lock is had, with the frontier that it posts to.
#[derive(Drop)]
pub struct LockedBoard<'a, K: Naming, R: Wait> {
    /// The host, by which calls wait.
    pub rt: &'a R,
    /// The board.
    pub board: &'a mut Board<K>,
    /// Where the board posts its fronts.
    pub frontier: &'a Frontier<K>,
}

impl<'a, K: Naming, R: Wait> ManagerAccess for LockedBoard<'a, K, R> {
    ghost use Rattle.om_board.specs.Made.{IsMade};

    ghost state = { λ d. d.board.now.manager };

    ghost Takes = { λ p seq output. K.OverClean → IsMade K.programs K.cell.n p seq output };

    fn manager(&self) -> &Manager {
        self.board.manager()
    }

    fn note(&mut self, alloc: Global, round: u32, row: Row) -> Result<Note, RecordError> {
        self.board.note(self.rt, alloc, round, row, self.frontier)
    }

    fn note_rows(
        &mut self,
        alloc: Global,
        round: u32,
        rows: &OwnRows<'_>,
    ) -> (usize, Result<(), RecordError>) {
        self.board
            .note_rows(self.rt, alloc, rows.pid, round, rows, self.frontier)
    }

    fn note_output(
        &mut self,
        alloc: Global,
        pid: Pid,
        round: u32,
        x: u32,
        seq: u64,
        bytes: &[u8],
    ) -> Result<OutputNote, OutputError> {
        self.board
            .note_output(self.rt, alloc, pid, round, x, seq, bytes, self.frontier)
    }

    fn fail(&mut self, alloc: Global, pid: Pid, round: u32) -> Result<Gathered, FailError> {
        self.board.fail(self.rt, alloc, pid, round, self.frontier)
    }

    fn join(
        &mut self,
        alloc: Global,
        pid: Pid,
        round: u32,
        current: u32,
    ) -> Result<Gathered, JoinError> {
        self.board
            .join(self.rt, alloc, pid, round, current, self.frontier)
    }

    fn prune(&mut self) {
        self.board.prune(self.rt, self.frontier);
    }
}
