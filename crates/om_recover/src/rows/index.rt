//! The rows of a cluster, and what a search reads of them.

ghost use Rattle.std.specs.Prelude.{◌≡◌, ℕ, ◌<◌, ◌≤◌, ◌↔◌, false, length, replicate, slice_index, IsTrue, IfOk, OnOk, OnErr, IfSome, MatchOption};
ghost use Rattle.std.specs.FinSet as set;
ghost use Rattle.om_interval.specs.declared.pid.TheConstants.{MAX_PROCESSES};
ghost use Rattle.om_recover.specs.Rows.{HasRow, IsLawful};
ghost use Rattle.om_recover.specs.Records.{first_row};
ghost use Rattle.om_recover.specs.Recoverable.{IsStable, IsRecoverable};
ghost use Rattle.om_recover.specs.Offered.{IsNew};
ghost use Rattle.om_recover.specs.Cutting.{IsEffective, IsGotAt, IsGotFrom, IsPruned, cut_to};
ghost use Rattle.om_recover.specs.steps.Search.{IsAnswered, IsQuiet};
ghost use Rattle.om_recover.specs.steps.Held.{IsFree};
ghost use Rattle.om_recover.specs.steps.Indexed.{MakesStable, MakesNothingStable};
ghost use Rattle.om_recover.specs.declared.row.RowKind.TheVariants.{Checkpoint, Log};

use crate::note::{Note, NoteError};
use crate::row::{Row, RowKind};
use crate::rows::adding::add;
use crate::rows::answer::answer_without_change;
use crate::rows::cutting::{cut_rows, effective_of_all, prune_rows};
use crate::rows::first::{add_first, no_rows};
use crate::rows::lookup::{effective_of, got_at, got_from, vec_at};
use crate::rows::stable::{all_end_in, ends_in, is_stable_in, least_stable_of};
use crate::rows::trees::Trees;
use crate::shelf::Shelf;
use crate::work::Work;
use om_interval::{DepVec, Pid};
use std::alloc::{AllocError, Global};
use std::marker::Model;

/// The rows of a cluster. A search is lent it as a [`Shelf`], and reads a vector by `look` alone.
#[derive(Debug, Drop)]
pub struct Index {
    trees: Trees,
}

impl Model for Index {
    ghost use Rattle.std.specs.FinSet as set;
    ghost use Rattle.om_recover.specs.Rows.{Rows};
    ghost use Rattle.om_recover.specs.steps.RowCode.{coded_row};
    ghost use Rattle.om_recover.specs.steps.Held.{AreIndexed, held};

    ghost Value = { Rows };

    ghost coded = { set.code coded_row };

    ghost view = { λ index. held index.trees };

    ghost invariant = { λ index. AreIndexed index.trees };
}

impl Shelf for Index {
    ghost rows = { λ index. index };

    fn look(&self, pid: Pid, x: u32, work: &mut Work) -> &[u32] {
        work.add_look(pid, x);
        vec_at(&self.trees, pid, x)
    }

    fn ends_by(&self, pid: Pid, x: u32) -> bool {
        ends_in(&self.trees, pid, x)
    }

    fn all_end_by(&self, state: &DepVec) -> bool {
        all_end_in(&self.trees, state)
    }

    fn least_stable(&self, pid: Pid, from: u32) -> Option<u32> {
        least_stable_of(&self.trees, pid, from)
    }
}

impl Index {
    /// Makes the index of checkpoint 0 of each of `n` processes.
    pub fn new(alloc: Global, n: usize) -> Result<Index, AllocError>
        requires some { 1 ≤ n }
        requires within { n ≤ MAX_PROCESSES }
        ensures { IfOk result (λ index. (row : _) → HasRow index row ↔ ((row.pid < n) × (row ≡ first_row n row.pid))) }
    {
        let mut trees = no_rows(alloc, n)?;
        for p in 0..n {
            add_first(&mut trees, Pid::at(p), n)?;
        }
        Ok(Index { trees })
    }

    /// Returns the answer to a row that is not added, or `None` where the row is new.
    pub fn answer(&self, n: usize, row: &Row) -> Option<Result<Note, NoteError>>
        requires { IsLawful n self.now }
        ensures answer { MatchOption result (IsNew n self.now row.now) (IsAnswered n self.now row.now) }
        ensures quiet { IfSome result IsQuiet }
    {
        answer_without_change(&self.trees, n, row)
    }

    /// Returns whether the row's interval is not stable, and will be once the row is added.
    pub fn makes_stable(&self, row: &Row) -> bool
        ensures yes { IsTrue result → MakesStable self.now row.now }
        ensures none { result ≡ false → MakesNothingStable self.now row.now }
    {
        if self.is_stable(row.pid, row.interval) {
            return false;
        }
        if is_checkpoint(row) {
            return true;
        }
        match row.interval.checked_sub(1) {
            None => false,
            Some(before) => self.is_stable(row.pid, before),
        }
    }

    fn is_stable(&self, pid: Pid, x: u32) -> bool
        ensures yes { IsTrue result → IsStable self.now pid x }
        ensures none { result ≡ false → IsStable self.now pid x → ⊥ }
    {
        is_stable_in(&self.trees, pid, x)
    }

    /// Adds a row.
    pub fn add(&mut self, row: &Row) -> Result<(), AllocError>
        requires lawful { (n : ℕ) × IsLawful n self.old }
        requires free { IsFree self.old row.now }
        ensures ok { OnOk result (self.new ≡ set.insert self.old row.now) }
        ensures err { OnErr result (self.new ≡ self.old) }
    {
        add(&mut self.trees, row)
    }

    /// Returns the interval of the checkpoint that is used for a stable interval of a process.
    pub fn effective(&self, pid: Pid, x: u32) -> u32
        requires { IsStable self.now pid x }
        ensures { IsEffective self.now pid x result }
    {
        effective_of(&self.trees, pid, x)
    }

    /// Returns what a process had got in a stable interval.
    pub fn got(&self, pid: Pid, x: u32) -> DepVec
        requires { IsStable self.now pid x }
        ensures { IsGotAt self.now pid x result }
    {
        got_at(&self.trees, pid, x)
    }

    /// Returns how many messages from the sender the receiver had got in a stable interval.
    pub fn got_from(&self, receiver: Pid, x: u32, sender: Pid) -> u32
        requires stable { IsStable self.now receiver x }
        requires lawful { (n : ℕ) × IsLawful n self.now × (sender < n) }
        ensures { IsGotFrom self.now receiver x sender result }
    {
        got_from(&self.trees, receiver, x, sender)
    }

    /// Drops the rows above a state.
    pub fn cut(&mut self, state: &DepVec)
        ensures { self.new ≡ cut_to self.old state.now }
    {
        cut_rows(&mut self.trees, state);
    }

    /// Drops the rows below the checkpoints that are used for a state.
    pub fn prune(&mut self, state: &DepVec)
        requires { IsRecoverable (length state.now) self.old state.now }
        ensures { IsPruned self.old state.now self.new }
    {
        let checkpoints = effective_of_all(&self.trees, state);
        prune_rows(&mut self.trees, &checkpoints);
    }
}

fn is_checkpoint(row: &Row) -> bool
    ensures yes { IsTrue result → row.now.kind ≡ Checkpoint }
    ensures otherwise { result ≡ false → row.now.kind ≡ Log }
{
    match row.kind {
        RowKind::Checkpoint => true,
        RowKind::Log => false,
    }
}
