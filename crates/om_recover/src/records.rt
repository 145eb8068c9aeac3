//! The records of a cluster, and its recovery state.

ghost use Rattle.std.specs.Prelude.{◌≡◌, ◌≢◌, ℕ, ◌+◌, ◌<◌, ◌≤◌, ◌↔◌, All, length, replicate, slice_index, IfOk, IsTrue};
ghost use Rattle.om_interval.specs.Vectors.{IsBelow};
ghost use Rattle.om_interval.specs.declared.pid.TheConstants.{MAX_PROCESSES};
ghost use Rattle.om_recover.specs.Cutting.{IsEffective, IsGotAt, IsGotFrom, IsPruned, cut_to};
ghost use Rattle.om_recover.specs.Rows.{HasRow};
ghost use Rattle.om_recover.specs.Offered.{AreOfferedUpTo, offered, TellsChange};
ghost use Rattle.om_recover.specs.Counted.{AreCountedNotes, IsCountedNote};
ghost use Rattle.om_recover.specs.Records.{first_row, log_of, checkpoint_of, IsSound};

use crate::adding::add_rows;
use crate::note::{Note, NoteError, NotedRows};
use crate::row::{Row, RowKind};
use crate::row_list::RowList;
use crate::rows::index::Index;
use crate::search::failed_climbs::FailedClimbs;
use crate::search::raise::{raised_by, raised_by_rows};
use crate::work::Work;
use om_interval::{DepVec, Pid};
use std::alloc::{AllocError, Global};
use std::marker::Model;

/// The records that the processes of one cluster noted, and the greatest recoverable state that they allow.
#[derive(Debug, Drop)]
pub struct Records {
    index: Index,
    state: DepVec,
    memories: FailedClimbs,
}

impl Model for Records {
    ghost use Rattle.om_recover.specs.Records.{Kept};
    ghost use Rattle.om_recover.specs.steps.AsKept.{AreKept};
    ghost use Rattle.om_recover.specs.steps.RowCode.{coded_kept};

    ghost Value = { Kept };

    ghost coded = { coded_kept };

    ghost view = { λ r. record { rows = r.index; state = r.state } };

    ghost invariant = { λ r. AreKept r.index r.state r.memories.places };
}

impl Records {
    /// Makes the records of `n` processes at their start: checkpoint 0 of each. Refused only where memory ran out.
    pub fn new(alloc: Global, n: usize) -> Result<Records, AllocError>
        requires some { 1 ≤ n }
        requires within { n ≤ MAX_PROCESSES }
        ensures rows { IfOk result (λ records. (row : _) → HasRow records.rows row ↔ ((row.pid < n) × (row ≡ first_row n row.pid))) }
        ensures state { IfOk result (λ records. records.state ≡ replicate n 0) }
    {
        let index = Index::new(alloc, n)?;
        let state = DepVec::zeros(n).unwrap();
        Ok(Records {
            index,
            state,
            memories: FailedClimbs::new(),
        })
    }

    /// Returns the number of processes, from 1 to the limit.
    pub fn n(&self) -> usize
        ensures processes { result ≡ length self.now.state }
        ensures some { 1 ≤ result }
        ensures within { result ≤ MAX_PROCESSES }
    {
        self.state.n()
    }

    /// Notes that the receipt which began interval `x` of a process is logged.
    ///
    /// Refused, the first that holds, are a process that the cluster has not (`Stranger`), vectors that are not those of
    /// an interval of the process (`BadVector`), and other vectors than a record of that interval has (`Differs`). A row
    /// that is there is `Known`. Then, the rows being in order by interval, one that is not above the nearest below it, or
    /// else not below the nearest above it (`Disorder`), and last, memory that ran out (`Memory`).
    pub fn note_logged(
        &mut self,
        alloc: Global,
        pid: Pid,
        x: u32,
        vec: &DepVec,
        got: &DepVec,
        work: &mut Work,
    ) -> Result<Note, NoteError>
        ensures answer { offered (length self.old.state) self.old.rows (log_of pid x vec.now got.now) result self.new.rows }
        ensures raised { TellsChange result self.old.state self.new.state }
        ensures sound { IsSound self.new }
        ensures not_lowered { IsBelow self.old.state self.new.state }
        ensures counted { IsCountedNote self.old self.new pid work.old.attempts work.new.attempts }
    {
        let row = Row {
            kind: RowKind::Log,
            pid,
            interval: x,
            vec: *vec,
            got: *got,
        };
        self.note(alloc, row, work)
    }

    /// Notes that the state of a process in interval `x` is stored. The refusals are those of [`Records::note_logged`], in
    /// the same order.
    pub fn note_checkpoint(
        &mut self,
        alloc: Global,
        pid: Pid,
        x: u32,
        vec: &DepVec,
        got: &DepVec,
        work: &mut Work,
    ) -> Result<Note, NoteError>
        ensures answer { offered (length self.old.state) self.old.rows (checkpoint_of pid x vec.now got.now) result self.new.rows }
        ensures raised { TellsChange result self.old.state self.new.state }
        ensures sound { IsSound self.new }
        ensures not_lowered { IsBelow self.old.state self.new.state }
        ensures counted { IsCountedNote self.old self.new pid work.old.attempts work.new.attempts }
    {
        let row = Row {
            kind: RowKind::Checkpoint,
            pid,
            interval: x,
            vec: *vec,
            got: *got,
        };
        self.note(alloc, row, work)
    }

    /// Notes a row. The refusals are those of [`Records::note_logged`], in the same order.
    pub fn note(&mut self, _alloc: Global, row: Row, work: &mut Work) -> Result<Note, NoteError>
        ensures answer { offered (length self.old.state) self.old.rows row result self.new.rows }
        ensures raised { TellsChange result self.old.state self.new.state }
        ensures sound { IsSound self.new }
        ensures not_lowered { IsBelow self.old.state self.new.state }
        ensures counted { IsCountedNote self.old self.new row.pid work.old.attempts work.new.attempts }
    {
        if let Some(answer) = self.index.answer(self.state.n(), &row) {
            return answer;
        }
        let is_new = self.index.makes_stable(&row);
        let Ok(()) = self.index.add(&row) else {
            return Err(NoteError::Memory);
        };
        let state = raised_by(
            &self.index,
            &row,
            &self.state,
            is_new,
            &mut self.memories,
            work,
        );
        let raised = is_higher(&state, &self.state, row.pid);
        self.state = state;
        Ok(Note::Noted { raised })
    }

    /// Notes rows of a process in order, up to the first that is refused, with one search for all of them. The rows and the recovery
    /// state are then what noting them one by one leaves; which of them raised it is not told. The refusals are those of
    /// [`Records::note_logged`], in the same order.
    pub fn note_rows<L: RowList>(
        &mut self,
        _alloc: Global,
        pid: Pid,
        rows: &L,
        work: &mut Work,
    ) -> NotedRows
        requires of_one { All (λ row. row.pid ≡ pid) (L.rows rows.now) }
        ensures answer { AreOfferedUpTo (length self.old.state) self.old.rows (L.rows rows.now) result.count result.end self.new.rows }
        ensures raised { IsTrue result.raised ↔ (self.old.state ≢ self.new.state) }
        ensures sound { IsSound self.new }
        ensures not_lowered { IsBelow self.old.state self.new.state }
        ensures counted { AreCountedNotes self.old self.new pid work.old.attempts work.new.attempts }
    {
        let added = add_rows(&mut self.index, &self.state, pid, rows);
        let state = raised_by_rows(
            &self.index,
            pid,
            &self.state,
            added.fresh,
            &mut self.memories,
            work,
        );
        let raised = is_other(&state, &self.state);
        self.state = state;
        NotedRows {
            count: added.count,
            end: added.end,
            raised,
        }
    }

    /// Returns the recovery state: the greatest recoverable state of the records.
    pub fn recovery(&self) -> DepVec
        ensures state { result ≡ self.now.state }
        ensures sound { IsSound self.now }
    {
        self.state
    }

    /// Returns the interval of the checkpoint that is used for the process's place of the recovery state.
    pub fn effective(&self, pid: Pid) -> u32
        requires { pid < length self.now.state }
        ensures { IsEffective self.now.rows pid (slice_index self.now.state pid) result }
    {
        self.index.effective(pid, self.state.get(pid))
    }

    /// Returns how many messages the process had got in the recovery state, by sender.
    pub fn got(&self, pid: Pid) -> DepVec
        requires { pid < length self.now.state }
        ensures { IsGotAt self.now.rows pid (slice_index self.now.state pid) result }
    {
        self.index.got(pid, self.state.get(pid))
    }

    /// Returns how many messages from the sender the receiver had got in the recovery state.
    pub fn got_from(&self, receiver: Pid, sender: Pid) -> u32
        requires receiver { receiver < length self.now.state }
        requires sender { sender < length self.now.state }
        ensures { IsGotFrom self.now.rows receiver (slice_index self.now.state receiver) sender result }
    {
        self.index
            .got_from(receiver, self.state.get(receiver), sender)
    }

    /// Drops the rows above the recovery state, which stays.
    pub fn cut(&mut self)
        ensures rows { self.new.rows ≡ cut_to self.old.rows self.old.state }
        ensures state { self.new.state ≡ self.old.state }
        ensures sound { IsSound self.new }
    {
        self.index.cut(&self.state);
        self.memories = FailedClimbs::new();
    }

    /// Drops the rows below the checkpoints that are used for the recovery state, which stays.
    pub fn prune(&mut self)
        ensures rows { IsPruned self.old.rows self.old.state self.new.rows }
        ensures state { self.new.state ≡ self.old.state }
        ensures sound { IsSound self.new }
    {
        self.index.prune(&self.state);
    }
}

fn is_other(one: &DepVec, other: &DepVec) -> bool
    ensures { IsTrue result ↔ (other.now ≢ one.now) }
{
    one != other
}

// Returns whether a process stands higher in one state than in another.
fn is_higher(one: &DepVec, other: &DepVec, pid: Pid) -> bool
    requires one { pid < length one.now }
    requires other { pid < length other.now }
    ensures { IsTrue result ↔ (slice_index other.now pid < slice_index one.now pid) }
{
    other.get(pid) < one.get(pid)
}
