//! How the manager notes records and outputs.

ghost use Rattle.std.specs.Prelude.{◌≡◌, ◌≢◌, ◌<◌, [], All, IfErr, OnErr, OnOk, length, map, false, IsTrue};
ghost use Rattle.om_interval.specs.Vectors.{IsBelow};
ghost use Rattle.om_recover.specs.Records.{log_of, checkpoint_of};
ghost use Rattle.om_manager.specs.State.{process_count};
ghost use Rattle.om_manager.specs.Sound.{IsManager, GoesOn, KeepsReleased};
ghost use Rattle.om_manager.specs.Notes.{Notes, NotesOutput, NotesUpTo, refused_as};
ghost use Rattle.om_manager.specs.declared.answers.RecordError.TheVariants.{Stale};

use crate::answers::{OutputError, OutputNote, RecordError};
use crate::manager::Manager;
use crate::output_log::OutputLog;
use om_interval::{DepVec, Pid};
use om_recover::{Note, NoteError, Row, RowKind, RowList, Work};
use std::alloc::Global;

impl Manager {
    /// Notes that the receipt which began interval `x` of a process is logged.
    ///
    /// Refused, the first that holds, are a process that the cluster has not (`Stranger`), another round than the manager's
    /// (`Stale`), and then what [`Records::note_logged`](om_recover::Records::note_logged) refuses, in its order.
    pub fn note_logged(
        &mut self,
        alloc: Global,
        pid: Pid,
        round: u32,
        x: u32,
        vec: &DepVec,
        got: &DepVec,
    ) -> Result<Note, RecordError>
        ensures answer { Notes self.old round (log_of pid x vec.now got.now) result self.new }
        ensures sound { IsManager self.new }
        ensures front { GoesOn self.old self.new }
        ensures not_lowered { IsBelow self.old.recovery self.new.recovery }
        ensures released { KeepsReleased self.old self.new }
    {
        let row = Row {
            kind: RowKind::Log,
            pid,
            interval: x,
            vec: *vec,
            got: *got,
        };
        self.note(alloc, round, row)
    }

    /// Notes that the state of a process in interval `x` is stored. The refusals are those of [`Manager::note_logged`], in the
    /// same order.
    pub fn note_checkpoint(
        &mut self,
        alloc: Global,
        pid: Pid,
        round: u32,
        x: u32,
        vec: &DepVec,
        got: &DepVec,
    ) -> Result<Note, RecordError>
        ensures answer { Notes self.old round (checkpoint_of pid x vec.now got.now) result self.new }
        ensures sound { IsManager self.new }
        ensures front { GoesOn self.old self.new }
        ensures not_lowered { IsBelow self.old.recovery self.new.recovery }
        ensures released { KeepsReleased self.old self.new }
    {
        let row = Row {
            kind: RowKind::Checkpoint,
            pid,
            interval: x,
            vec: *vec,
            got: *got,
        };
        self.note(alloc, round, row)
    }

    /// Notes a row. The refusals are those of [`Manager::note_logged`], in the same order.
    pub fn note(&mut self, alloc: Global, round: u32, row: Row) -> Result<Note, RecordError>
        ensures answer { Notes self.old round row result self.new }
        ensures sound { IsManager self.new }
        ensures front { GoesOn self.old self.new }
        ensures not_lowered { IsBelow self.old.recovery self.new.recovery }
        ensures released { KeepsReleased self.old self.new }
    {
        if self.is_stale(row.pid, round) {
            return Err(RecordError::Stale { round: self.round });
        }
        let note = match self.records.note(alloc, row, &mut Work::new()) {
            Ok(note) => note,
            Err(fault) => return Err(RecordError::Refused(fault)),
        };
        if note == (Note::Noted { raised: true }) {
            raise_all(&mut self.logs, &self.records.recovery());
            self.version += 1;
        }
        Ok(note)
    }

    /// Notes rows of a process in order, up to the first that is refused, with one search for all of them, and says how many were not.
    /// The rows and the recovery state are then what noting them one by one leaves; a state that is raised is one new version. The
    /// refusals are those of [`Manager::note_logged`], in the same order.
    pub fn note_rows<L: RowList>(
        &mut self,
        alloc: Global,
        pid: Pid,
        round: u32,
        rows: &L,
    ) -> (usize, Result<(), RecordError>)
        requires of_one { All (λ row. row.pid ≡ pid) (L.rows rows.now) }
        ensures answer { NotesUpTo self.old round (L.rows rows.now) result.0 result.1 self.new }
        ensures sound { IsManager self.new }
        ensures front { GoesOn self.old self.new }
        ensures not_lowered { IsBelow self.old.recovery self.new.recovery }
        ensures released { KeepsReleased self.old self.new }
    {
        if self.is_stale(pid, round) {
            return (0, self.stale_unless_empty(rows));
        }
        let noted = self.records.note_rows(alloc, pid, rows, &mut Work::new());
        let end = as_refused(noted.end);
        if noted.raised {
            raise_all(&mut self.logs, &self.records.recovery());
            self.version += 1;
        }
        (noted.count, end)
    }

    // Refuses rows of another round than the manager's, where there are any.
    fn stale_unless_empty<L: RowList>(&self, rows: &L) -> Result<(), RecordError>
        ensures none { OnOk result (L.rows rows.now ≡ []) }
        ensures stale { IfErr result (λ why. why ≡ Stale self.now.round) }
        ensures some { OnErr result (0 < length (L.rows rows.now)) }
    {
        if rows.len() == 0 {
            Ok(())
        } else {
            Err(RecordError::Stale { round: self.round })
        }
    }

    // Returns whether what a process of the cluster tells comes in another round than the manager's.
    fn is_stale(&self, pid: Pid, round: u32) -> bool
        ensures stale { IsTrue result → (pid < process_count self.now) × (round ≢ self.now.round) }
        ensures current { result ≡ false → pid < process_count self.now → round ≡ self.now.round }
    {
        pid.index() < self.records.n() && round != self.round
    }

    /// Hands in the output of a process with the number `seq`, which it made in interval `x`. It is released where `x` is
    /// within the recovery state, and else held until it is.
    ///
    /// Refused, the first that holds, are a process that the cluster has not (`Stranger`), another round than the manager's
    /// (`Stale`), and a number that has another output (`Differs`). An output that is there is `Known`. Then a number above
    /// the next one (`Gap`), an interval below that of the output before (`Differs`), and last, memory that ran out (`Memory`).
    pub fn note_output(
        &mut self,
        alloc: Global,
        pid: Pid,
        round: u32,
        x: u32,
        seq: u64,
        bytes: &[u8],
    ) -> Result<OutputNote, OutputError>
        ensures answer { NotesOutput self.old pid round seq (record { interval = x; bytes = bytes.now }) result self.new }
        ensures sound { IsManager self.new }
        ensures front { GoesOn self.old self.new }
        ensures not_lowered { IsBelow self.old.recovery self.new.recovery }
        ensures released { KeepsReleased self.old self.new }
    {
        if pid.index() >= self.records.n() {
            return Err(OutputError::Stranger);
        }
        if round != self.round {
            return Err(OutputError::Stale { round: self.round });
        }
        let log = &mut self.logs[pid.index()];
        log.note(alloc, seq, x, bytes)
    }
}

fn as_refused(end: Result<(), NoteError>) -> Result<(), RecordError>
    ensures { result ≡ refused_as end }
{
    match end {
        Ok(()) => Ok(()),
        Err(fault) => Err(RecordError::Refused(fault)),
    }
}

// Releases the outputs within a higher recovery state.
fn raise_all(logs: &mut Vec<OutputLog>, state: &DepVec)
    requires { IsBelow (map (λ log. log.limit) logs.old.items) state.now }
    ensures held { map (λ log. log.held) logs.new.items ≡ map (λ log. log.held) logs.old.items }
    ensures limits { map (λ log. log.limit) logs.new.items ≡ state.now }
{
    for p in 0..state.n() {
        let log = &mut logs[p];
        log.raise(state.get(Pid::at(p)));
    }
}
