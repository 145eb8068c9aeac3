//! The manager on its board: each call that may change its front posts it.

ghost use Rattle.std.specs.Prelude.{◌≡◌, ◌≢◌, ◌≤◌, ◌<◌, ◌↔◌, ℕ, [], ◌∷◌, All, length, replicate, slice_set, true, None, IsTrue, OnOk, OnErr};
ghost use mathlib.Core.List.{IsPrefix};
ghost use Rattle.om_interval.specs.Vectors.{IsBelow};
ghost use Rattle.om_interval.specs.declared.pid.TheConstants.{MAX_PROCESSES};
ghost use Rattle.om_recover.specs.Records.{log_of, checkpoint_of};
ghost use Rattle.om_recover.specs.Cutting.{IsPruned};
ghost use Rattle.om_manager.specs.State.{process_count};
ghost use Rattle.om_manager.specs.Sound.{KeepsReleased};
ghost use Rattle.om_manager.specs.Notes.{Notes, NotesOutput, NotesUpTo};
ghost use Rattle.om_manager.specs.Rounds.{Failing, Joining};
ghost use Rattle.om_board.specs.Fronts.{front_of, first_front, EndsWith, Follows};
ghost use Rattle.om_board.specs.Made.{HoldsMade, IsMade};
ghost use Rattle.om_board.specs.Boards.{IsBoard, MayRest, MayWait, AreAllQuiet, DoAllWait, nobody, all_owe, told_by};
ghost use Rattle.om_board.specs.declared.waiting.Waiting.TheVariants.{Owes, Offers, Waits};

use crate::front::Front;
use crate::frontier::{Frontier, Naming, Pass, Writer};
use crate::waiting::{Waiting, all_wait, are_matched};
use om_interval::{DepVec, MAX_PROCESSES, Pid};
use om_manager::{FailError, Gathered, JoinError, Manager, OutputError, OutputNote, RecordError};
use om_recover::{Note, Row, RowKind, RowList};
use std::alloc::Global;
use std::marker::Model;
use std::sync::Wait;

/// The manager with the leave to post to the frontier: each call that may change its front posts it. Over clean stores each output
/// that it holds is one that its process's program makes.
#[derive(Drop)]
pub struct Board<K: Naming> {
    manager: Manager,
    writer: Writer<K>,
    // By process.
    quiet: [bool; MAX_PROCESSES],
    // By process.
    waiting: [Waiting; MAX_PROCESSES],
}

impl<K: Naming> Model for Board<K> {
    ghost use Rattle.om_board.specs.Boards.{BoardState, IsBoard};
    ghost use Rattle.om_board.specs.Made.{HoldsMade};
    ghost use Rattle.om_board.specs.steps.Codes.{coded_board};

    ghost Value = { BoardState };

    ghost coded = { coded_board };

    ghost view = { λ b. record { manager = b.manager; posted = b.writer; quiet = b.quiet; waiting = b.waiting } };

    ghost invariant = { λ b. IsBoard K.cell.n (record { manager = b.manager; posted = b.writer; quiet = b.quiet; waiting = b.waiting })
        × (K.OverClean → HoldsMade K.programs K.cell.n b.manager) };
}

impl<K: Naming> Board<K> {
    // Makes the board of a manager at its start.
    pub(crate) fn new(manager: Manager, writer: Writer<K>) -> Board<K>
        requires places { process_count manager ≡ K.cell.n }
        requires first { front_of manager ≡ first_front K.cell.n }
        requires outputs { manager.outputs ≡ replicate K.cell.n [] }
        requires posted { writer ≡ first_front K.cell.n ∷ [] }
        ensures manager { result.manager ≡ manager }
        ensures posted { result.posted ≡ first_front K.cell.n ∷ [] }
        ensures quiet { result.quiet ≡ nobody }
        ensures waiting { result.waiting ≡ all_owe }
    {
        // The read tells the proof that the manager is sound.
        let _front = Front::of(&manager);
        Board {
            manager,
            writer,
            quiet: [false; MAX_PROCESSES],
            waiting: [Waiting::Owes; MAX_PROCESSES],
        }
    }

    /// Returns the manager, for its reads.
    pub fn manager(&self) -> &Manager
        ensures manager { result.now ≡ self.now.manager }
        ensures sound { IsBoard K.cell.n self.now }
        ensures made { K.OverClean → HoldsMade K.programs K.cell.n self.now.manager }
    {
        &self.manager
    }

    /// Makes a pass that has seen all that was posted.
    pub fn pass(&mut self, frontier: &Frontier<K>) -> Pass<K>
        ensures all { result ≡ self.old.posted }
        ensures same { self.new ≡ self.old }
    {
        self.writer.pass(frontier)
    }

    /// Notes that a receipt is logged, as [`Manager::note_logged`](om_manager::Manager::note_logged) does, and posts the front that
    /// comes of it.
    pub fn note_logged<R: Wait>(
        &mut self,
        rt: &R,
        alloc: Global,
        pid: Pid,
        round: u32,
        x: u32,
        vec: &DepVec,
        got: &DepVec,
        frontier: &Frontier<K>,
    ) -> Result<Note, RecordError>
        ensures answer { Notes self.old.manager round (log_of pid x vec.now got.now) result self.new.manager }
        ensures posted { Follows self.old.posted (front_of self.new.manager) self.new.posted }
        ensures sound { IsBoard K.cell.n self.new }
        ensures not_lowered { IsBelow self.old.manager.recovery self.new.manager.recovery }
        ensures released { KeepsReleased self.old.manager self.new.manager }
        ensures quiet { self.new.quiet ≡ self.old.quiet }
        ensures waiting { self.new.waiting ≡ self.old.waiting }
        ensures refused { OnErr result (self.new ≡ self.old) }
    {
        let row = Row {
            kind: RowKind::Log,
            pid,
            interval: x,
            vec: *vec,
            got: *got,
        };
        self.note(rt, alloc, round, row, frontier)
    }

    /// Notes that a state is stored, as [`Manager::note_checkpoint`](om_manager::Manager::note_checkpoint) does, and posts the front
    /// that comes of it.
    pub fn note_checkpoint<R: Wait>(
        &mut self,
        rt: &R,
        alloc: Global,
        pid: Pid,
        round: u32,
        x: u32,
        vec: &DepVec,
        got: &DepVec,
        frontier: &Frontier<K>,
    ) -> Result<Note, RecordError>
        ensures answer { Notes self.old.manager round (checkpoint_of pid x vec.now got.now) result self.new.manager }
        ensures posted { Follows self.old.posted (front_of self.new.manager) self.new.posted }
        ensures sound { IsBoard K.cell.n self.new }
        ensures not_lowered { IsBelow self.old.manager.recovery self.new.manager.recovery }
        ensures released { KeepsReleased self.old.manager self.new.manager }
        ensures quiet { self.new.quiet ≡ self.old.quiet }
        ensures waiting { self.new.waiting ≡ self.old.waiting }
        ensures refused { OnErr result (self.new ≡ self.old) }
    {
        let row = Row {
            kind: RowKind::Checkpoint,
            pid,
            interval: x,
            vec: *vec,
            got: *got,
        };
        self.note(rt, alloc, round, row, frontier)
    }

    /// Notes a row, as [`Manager::note`](om_manager::Manager::note) does, and posts the front that comes of it.
    pub fn note<R: Wait>(
        &mut self,
        rt: &R,
        alloc: Global,
        round: u32,
        row: Row,
        frontier: &Frontier<K>,
    ) -> Result<Note, RecordError>
        ensures answer { Notes self.old.manager round row result self.new.manager }
        ensures posted { Follows self.old.posted (front_of self.new.manager) self.new.posted }
        ensures sound { IsBoard K.cell.n self.new }
        ensures not_lowered { IsBelow self.old.manager.recovery self.new.manager.recovery }
        ensures released { KeepsReleased self.old.manager self.new.manager }
        ensures quiet { self.new.quiet ≡ self.old.quiet }
        ensures waiting { self.new.waiting ≡ self.old.waiting }
        ensures refused { OnErr result (self.new ≡ self.old) }
    {
        let told = self.manager.note(alloc, round, row);
        self.writer.post(rt, &Front::of(&self.manager), frontier);
        told
    }

    /// Notes rows of a process, as [`Manager::note_rows`](om_manager::Manager::note_rows) does, and posts the front that comes of all of
    /// them.
    pub fn note_rows<L: RowList, R: Wait>(
        &mut self,
        rt: &R,
        alloc: Global,
        pid: Pid,
        round: u32,
        rows: &L,
        frontier: &Frontier<K>,
    ) -> (usize, Result<(), RecordError>)
        requires of_one { All (λ row. row.pid ≡ pid) (L.rows rows.now) }
        ensures answer { NotesUpTo self.old.manager round (L.rows rows.now) result.0 result.1 self.new.manager }
        ensures posted { Follows self.old.posted (front_of self.new.manager) self.new.posted }
        ensures sound { IsBoard K.cell.n self.new }
        ensures not_lowered { IsBelow self.old.manager.recovery self.new.manager.recovery }
        ensures released { KeepsReleased self.old.manager self.new.manager }
        ensures quiet { self.new.quiet ≡ self.old.quiet }
        ensures waiting { self.new.waiting ≡ self.old.waiting }
    {
        let told = self.manager.note_rows(alloc, pid, round, rows);
        self.writer.post(rt, &Front::of(&self.manager), frontier);
        told
    }

    /// Notes an output that the process's program makes, as [`Manager::note_output`](om_manager::Manager::note_output) does. No front
    /// comes of it.
    pub fn note_output<R: Wait>(
        &mut self,
        _rt: &R,
        alloc: Global,
        pid: Pid,
        round: u32,
        x: u32,
        seq: u64,
        bytes: &[u8],
        _frontier: &Frontier<K>,
    ) -> Result<OutputNote, OutputError>
        requires made { K.OverClean → IsMade K.programs K.cell.n pid seq (record { interval = x; bytes = bytes.now }) }
        ensures answer { NotesOutput self.old.manager pid round seq (record { interval = x; bytes = bytes.now }) result self.new.manager }
        ensures posted { self.new.posted ≡ self.old.posted }
        ensures sound { IsBoard K.cell.n self.new }
        ensures not_lowered { IsBelow self.old.manager.recovery self.new.manager.recovery }
        ensures released { KeepsReleased self.old.manager self.new.manager }
        ensures quiet { self.new.quiet ≡ self.old.quiet }
        ensures waiting { self.new.waiting ≡ self.old.waiting }
        ensures refused { OnErr result (self.new ≡ self.old) }
    {
        self.manager.note_output(alloc, pid, round, x, seq, bytes)
    }

    /// Declares a failure, as [`Manager::fail`](om_manager::Manager::fail) does, and posts the front that comes of it. Nobody is
    /// quiet after it, and nobody waits: each process owes its messages anew.
    pub fn fail<R: Wait>(
        &mut self,
        rt: &R,
        alloc: Global,
        pid: Pid,
        round: u32,
        frontier: &Frontier<K>,
    ) -> Result<Gathered, FailError>
        ensures answer { Failing self.old.manager pid round result self.new.manager }
        ensures posted { Follows self.old.posted (front_of self.new.manager) self.new.posted }
        ensures sound { IsBoard K.cell.n self.new }
        ensures not_lowered { IsBelow self.old.manager.recovery self.new.manager.recovery }
        ensures released { KeepsReleased self.old.manager self.new.manager }
        ensures quiet { OnOk result (self.new.quiet ≡ nobody) }
        ensures waiting { OnOk result (self.new.waiting ≡ all_owe) }
        ensures refused { OnErr result (self.new ≡ self.old) }
    {
        let gathered = self.manager.fail(alloc, pid, round)?;
        self.writer.post(rt, &Front::of(&self.manager), frontier);
        self.quiet = [false; MAX_PROCESSES];
        self.waiting = [Waiting::Owes; MAX_PROCESSES];
        Ok(gathered)
    }

    /// Has a process join, as [`Manager::join`](om_manager::Manager::join) does, and posts the front that comes of it.
    pub fn join<R: Wait>(
        &mut self,
        rt: &R,
        alloc: Global,
        pid: Pid,
        round: u32,
        current: u32,
        frontier: &Frontier<K>,
    ) -> Result<Gathered, JoinError>
        ensures answer { Joining self.old.manager pid round current result self.new.manager }
        ensures posted { Follows self.old.posted (front_of self.new.manager) self.new.posted }
        ensures sound { IsBoard K.cell.n self.new }
        ensures not_lowered { IsBelow self.old.manager.recovery self.new.manager.recovery }
        ensures released { KeepsReleased self.old.manager self.new.manager }
        ensures quiet { self.new.quiet ≡ self.old.quiet }
        ensures waiting { self.new.waiting ≡ self.old.waiting }
        ensures refused { OnErr result (self.new ≡ self.old) }
    {
        let gathered = self.manager.join(alloc, pid, round, current)?;
        self.writer.post(rt, &Front::of(&self.manager), frontier);
        Ok(gathered)
    }

    /// Drops rows, as [`Manager::prune`](om_manager::Manager::prune) does. No front comes of it.
    pub fn prune<R: Wait>(&mut self, _rt: &R, _frontier: &Frontier<K>)
        ensures rows { IsPruned self.old.manager.rows self.old.manager.recovery self.new.manager.rows }
        ensures manager { self.new.manager ≡ record self.old.manager { rows = self.new.manager.rows } }
        ensures others { self.new ≡ record self.old { manager = self.new.manager } }
        ensures sound { IsBoard K.cell.n self.new }
    {
        self.manager.prune();
    }

    /// Reports a process as quiet, where `round` is the manager's and no gathering is open, and says whether all are. When a
    /// gathering opens, nobody is quiet any longer.
    pub fn quiet(&mut self, pid: Pid, round: u32) -> bool
        requires { pid < process_count self.old.manager }
        ensures reported { MayRest self.old round → self.new ≡ record self.old { quiet = slice_set self.old.quiet pid true } }
        ensures passed_over { (MayRest self.old round → ⊥) → self.new ≡ self.old }
        ensures all { IsTrue result ↔ AreAllQuiet (process_count self.new.manager) self.new.quiet }
    {
        if round == self.manager.round() && !self.manager.gathering() {
            self.report(pid);
        }
        are_all_quiet(&self.quiet, self.manager.recovery().n())
    }

    fn report(&mut self, pid: Pid)
        requires { self.old.manager.gathering ≡ None }
        ensures { self.new ≡ record self.old { quiet = slice_set self.old.quiet pid true } }
    {
        self.quiet[pid.index()] = true;
    }

    /// Tells that the process puts all messages that it keeps anew from now on, where `round` is the manager's and no gathering
    /// is open. If it waited, it does so no longer.
    pub fn offer(&mut self, pid: Pid, round: u32)
        requires { pid < process_count self.old.manager }
        ensures told { MayRest self.old round → self.new ≡ record self.old { waiting = slice_set self.old.waiting pid Offers } }
        ensures passed_over { (MayRest self.old round → ⊥) → self.new ≡ self.old }
    {
        if round == self.manager.round() && !self.manager.gathering() {
            self.tell(pid, Waiting::Offers);
        }
    }

    /// Reports that the process waits: it has put all that it keeps since it offered it, `put` messages in all since the run
    /// began, and found none to take beside the `taken` that it took. It is passed over where the process owes its messages
    /// anew, where `round` is not the manager's, and while a gathering is open. Says whether all wait.
    ///
    /// A process that waits neither runs nor puts nor takes before it withdraws. So where all wait and as many messages were taken as
    /// put, every inbox is empty. Take a message that its sender still keeps. The sender offered it last after it had run or received
    /// for the last time, and after the last message that was refused for another reason than that it had been received before. It
    /// put it then, and it was taken; or it left it out, since its receiver had received it. So the message was received, or its
    /// receiver has ended. A resend brings nothing new, no process can go on without a message, none that has ended goes on at all,
    /// and only a receipt makes one fail: until the run ends, nothing happens.
    pub fn wait(&mut self, pid: Pid, round: u32, put: u64, taken: u64) -> bool
        requires { pid < process_count self.old.manager }
        ensures told { MayWait self.old pid round → self.new ≡ record self.old { waiting = slice_set self.old.waiting pid (Waits put taken) } }
        ensures passed_over { (MayWait self.old pid round → ⊥) → self.new ≡ self.old }
        ensures all { IsTrue result ↔ DoAllWait (process_count self.new.manager) self.new }
    {
        let owes = self.waiting[pid.index()].owes();
        if round == self.manager.round() && !self.manager.gathering() && !owes {
            self.tell(pid, Waiting::Waits(put, taken));
        }
        self.do_all_wait()
    }

    /// Takes back that the process waits, before it runs, puts or takes. It has not to put what it keeps anew for that.
    pub fn withdraw(&mut self, pid: Pid)
        requires { pid < process_count self.old.manager }
        ensures told { (put taken : ℕ) → told_by self.old pid ≡ Waits put taken
            → self.new ≡ record self.old { waiting = slice_set self.old.waiting pid Offers } }
        ensures passed_over { ((put taken : ℕ) → told_by self.old pid ≢ Waits put taken) → self.new ≡ self.old }
    {
        if self.waiting[pid.index()].waits() && !self.manager.gathering() {
            self.tell(pid, Waiting::Offers);
        }
    }

    /// Tells that a message was refused for another reason than that it was received before. A resend may bring it rightly: each
    /// process owes its messages anew before it waits again.
    pub fn refuse(&mut self)
        ensures { self.new ≡ record self.old { waiting = all_owe } }
    {
        self.waiting = [Waiting::Owes; MAX_PROCESSES];
    }

    fn tell(&mut self, pid: Pid, waiting: Waiting)
        requires { self.old.manager.gathering ≡ None }
        ensures { self.new ≡ record self.old { waiting = slice_set self.old.waiting pid waiting } }
    {
        self.waiting[pid.index()] = waiting;
    }

    fn do_all_wait(&self) -> bool
        ensures { IsTrue result ↔ DoAllWait (process_count self.now.manager) self.now }
    {
        let n = self.manager.recovery().n();
        all_wait(&self.waiting, n)
            && !are_all_quiet(&self.quiet, n)
            && are_matched(&self.waiting, n)
    }
}

fn are_all_quiet(quiet: &[bool; MAX_PROCESSES], n: usize) -> bool
    requires { n ≤ MAX_PROCESSES }
    ensures { IsTrue result ↔ AreAllQuiet n quiet.now }
{
    quiet[..n].iter().all(|quiet| *quiet)
}

impl<K: Naming> Frontier<K> {
    /// Brings a pass up to the board, under its lock: what the pass had seen begins what was posted, and the pass that is given
    /// back has seen all of it.
    pub fn meet<R: Wait>(&self, rt: &R, board: &mut Board<K>, pass: Pass<K>) -> (Front, Pass<K>)
        ensures behind { IsPrefix pass board.old.posted }
        ensures all { result.1 ≡ board.old.posted }
        ensures last { EndsWith result.1 result.0 }
        ensures manager { result.0 ≡ front_of board.old.manager }
        ensures same { board.new ≡ board.old }
    {
        let pass = board.writer.meet(rt, self, pass);
        (Front::of(&board.manager), pass)
    }
}
