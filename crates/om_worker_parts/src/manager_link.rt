//! What a worker has to do with the manager.

ghost use Rattle.std.specs.Prelude.{◌≡◌, ◌≢◌, ◌<◌, ◌↔◌, ◌⊎◌, [], Any, IfNone, IfOk, IfSome, IsTrue, OnOk, false, is_some, length};
ghost use mathlib.Core.List.{IsPrefix};
ghost use Rattle.om_board.specs.Boards.{IsBoard};
ghost use Rattle.om_board.specs.Fronts.{EndsWith};
ghost use Rattle.om_manager.specs.State.{released_by};
ghost use Rattle.om_member.specs.Handed.{outputs_from};
ghost use Rattle.om_take_up.specs.TakenUp.{HasTakenUp};
ghost use Rattle.om_report.specs.Harvests.{AreAllOf};
ghost use Rattle.om_worker_parts.specs.Acts.{AreLimits, HasDeclared, HasHandedOver, HasHeard, HasJoined, HasMet, HasOffered, HasPruned, HasRefused, HasReleasedAnother, HasWaited, HasWithdrawn, IsStanding};
ghost use Rattle.om_report.specs.Locks.{UnderLock};
ghost use Rattle.om_worker_parts.specs.Places.{IsProcessOf};
ghost use Rattle.om_node.specs.Nodes.{KeepsMember};

use om_board::{Board, Front, Naming, Pass, Shared};
use om_interval::{Bounds, Pid, Starts, Verdict};
use om_member::ManagerAccess;
use om_node::{Limits, Node, WorkerFault};
use om_observers::Diary;
use om_process::{Made, PendingRow, ProcCore};
use om_report::{Harvest, LockedBoard};
use om_stable::Stable;
use om_take_up::{TakeUpFault, take_up};
use om_tickets::Series;
use std::alloc::Global;
use std::sync::atomic::Ordering::SeqCst;
use std::sync::{MutexGuard, Wait};
use std::thread::yield_now;

// How often a worker that has the patience yields for the board's lock before it sleeps for it.
const TRIES: u32 = 32;

/// Says how the manager stands.
#[derive(Clone, Copy)]
pub enum ManagerPhase {
    /// No gathering is open.
    Closed,
    /// A gathering is open.
    Gathers,
    /// All processes are quiet.
    Quiet,
}

/// Holds what the manager says of a finished round.
#[derive(Drop)]
pub struct RoundOutcome {
    /// What becomes of the process.
    pub verdict: Verdict,
    /// The starts of all.
    pub starts: Starts,
}

/// Holds what the worker of a process knows of the manager.
#[derive(Drop)]
pub struct ManagerLink<'a, K: Naming> {
    /// The process.
    pub pid: Pid,
    shared: &'a Shared<K>,
    /// The round that the process is in.
    pub round: u32,
    /// How many failures were declared when it last looked for an open gathering.
    pub failures: u64,
    /// How many outputs the manager had of the process then.
    pub handed: u64,
    ghost place: { pid < K.cell.n },
}

// Returns whether one of the rows is a checkpoint's.
fn have_checkpoint(rows: &[PendingRow]) -> bool
    ensures { IsTrue result ↔ Any (λ row. IsTrue row.ckpt) rows.now }
{
    rows.iter().any(|row| row.ckpt)
}

// Returns whether one of them is a receipt's.
fn have_receipt(rows: &[PendingRow]) -> bool {
    rows.iter().any(|row| !row.ckpt)
}

// Returns why a worker cannot go on whose manager did not take what its store held.
fn fault_of_taking_up(fault: TakeUpFault) -> WorkerFault {
    match fault {
        TakeUpFault::Row(error) => error.into(),
        TakeUpFault::Output(error) => error.into(),
    }
}

impl<'a, K: Naming> ManagerLink<'a, K> {
    /// Makes the link of a process at its start.
    pub fn new(pid: Pid, shared: &'a Shared<K>) -> ManagerLink<'a, K>
        requires { pid < K.cell.n }
        ensures { result.pid ≡ pid }
    {
        ManagerLink {
            pid,
            shared,
            round: 0,
            failures: 0,
            handed: 0,
        }
    }

    /// Returns the last front.
    pub fn read<R: Wait>(&self, rt: &R, pass: &mut Pass<K>) -> Front
        ensures later { IsPrefix pass.old pass.new }
        ensures last { EndsWith pass.new result }
    {
        self.shared.frontier.read(rt, pass)
    }

    /// Returns whether a round is finished that the process does not know yet.
    pub fn is_behind(&self, front: &Front) -> bool
        ensures { IsTrue result ↔ self.now.round < front.now.round }
    {
        front.round > self.round
    }

    /// Returns how many failures were declared.
    pub fn failures(&self) -> u64 {
        self.shared.failures.load(SeqCst)
    }

    /// Returns whether a failure was declared since it last looked for an open gathering, where so many were declared.
    pub fn is_called(&self, failures: u64) -> bool
        ensures { IsTrue result ↔ failures ≢ self.now.failures }
    {
        failures != self.failures
    }

    /// Returns whether there is something to hand in or to learn. A gathering may be open where a failure was declared; a state
    /// that was only raised says nothing to a process.
    pub fn is_due(&self, core: &ProcCore, ended: bool, called: bool) -> bool
        ensures running { result ≡ false → ended ≡ false }
        ensures told { result ≡ false → core.now.pending ≡ [] }
        ensures handed { result ≡ false → outputs_from core.now self.now.handed ≡ [] }
        ensures nothing { (IsTrue ended → ⊥) → called ≡ false → core.now.pending ≡ [] → outputs_from core.now self.now.handed ≡ []
            → result ≡ false }
    {
        ended || called || !core.pending().is_empty() || !core.outputs_from(self.handed).is_empty()
    }

    // Takes the board's lock. Where another has it, a worker that has the patience yields a few times before it sleeps for it: what
    // is done under it takes some microseconds, and a lock that is left to one that sleeps is nobody's until that is awake.
    fn lock<R: Wait>(&self, rt: &R, is_patient: bool) -> MutexGuard<'a, Board<K>> {
        if is_patient {
            for _ in 0..TRIES {
                if let Some(guard) = self.shared.board.try_lock() {
                    return guard;
                }
                yield_now();
            }
        }
        self.shared.board.lock(rt)
    }

    // Hands over all that the process has: its pending rows, and the outputs that the manager has not.
    fn hand_over<J: Series, S: Stable, R: Wait>(
        &mut self,
        alloc: Global,
        locked: &mut LockedBoard<'_, K, R>,
        node: &mut Node<'_, J, S>,
    ) -> Result<(), WorkerFault>
        requires { IsProcessOf S.is_clean K.OverClean K.programs K.cell.n self.old.pid node.old.member }
        ensures pid { self.new.pid ≡ self.old.pid }
        ensures round { self.new.round ≡ self.old.round }
        ensures member { KeepsMember node.old node.new }
        ensures away { node.new.away ≡ node.old.away }
        ensures sound { IsBoard K.cell.n locked.old.board.now }
        ensures over { OnOk result (HasHandedOver locked.old.board.now.manager self.old.pid node.old.core
            locked.new.board.now.manager node.new.core) }
    {
        // The look tells what holds of every board.
        let _ = locked.board.manager();
        let (_, end) = node.note(locked, alloc);
        end?;
        node.hand_in(locked, alloc)?;
        self.handed = locked.board.manager().next_output(self.pid);
        Ok(())
    }

    // Prunes the manager where it was told of a checkpoint. Then it says what need not be kept any longer.
    fn prune<R: Wait>(
        &self,
        locked: &mut LockedBoard<'_, K, R>,
        has_checkpoint: bool,
    ) -> Option<Limits>
        ensures asked { is_some result ≡ has_checkpoint }
        ensures pruned { IfSome result (λ l. HasPruned locked.old.board.now.manager locked.new.board.now.manager) }
        ensures limits { IfSome result (λ l. AreLimits locked.new.board.now.manager self.now.pid l) }
        ensures places { IfSome result (λ l. length l.bounds.got ≡ K.cell.n) }
        ensures unpruned { IfNone result (locked.new.board.now ≡ locked.old.board.now) }
    {
        if !has_checkpoint {
            return None;
        }
        locked.prune();
        let manager = locked.board.manager();
        Some(Limits {
            bounds: manager.bounds(self.pid),
            checkpoint: manager.effective(self.pid),
        })
    }

    // Returns how the manager stands. A process that has ended reports itself quiet.
    fn ask<R: Wait>(&self, locked: &mut LockedBoard<'_, K, R>, ended: bool) -> ManagerPhase
        ensures { IsStanding locked.old.board.now self.now.pid self.now.round ended result locked.new.board.now }
    {
        if locked.board.manager().gathering() {
            ManagerPhase::Gathers
        } else if ended && locked.board.quiet(self.pid, self.round) {
            ManagerPhase::Quiet
        } else {
            ManagerPhase::Closed
        }
    }

    // Hands over all that the process has, and says how the manager stands. One that has ended reports itself quiet. Where a
    // checkpoint is among the rows, the manager is pruned, and says what need not be kept any longer.
    fn meet_at<J: Series, S: Stable, R: Wait>(
        &mut self,
        alloc: Global,
        locked: &mut LockedBoard<'_, K, R>,
        node: &mut Node<'_, J, S>,
        ended: bool,
        has_checkpoint: bool,
        diary: &mut Diary<'_>,
    ) -> Result<(ManagerPhase, Option<Limits>), WorkerFault>
        requires process { IsProcessOf S.is_clean K.OverClean K.programs K.cell.n self.old.pid node.old.member }
        requires checkpoint { IsTrue has_checkpoint ↔ Any (λ row. IsTrue row.ckpt) node.old.core.pending }
        ensures pid { self.new.pid ≡ self.old.pid }
        ensures round { self.new.round ≡ self.old.round }
        ensures member { KeepsMember node.old node.new }
        ensures sound { IsBoard K.cell.n locked.old.board.now }
        ensures limits { IfOk result (λ met. IfSome met.1 (λ l. length l.bounds.got ≡ K.cell.n)) }
        ensures met { IfOk result (λ met. HasMet locked.old.board.now self.old.pid self.old.round ended node.old.core met.0 met.1
            locked.new.board.now node.new.core) }
    {
        let has_receipt = have_receipt(node.core().pending());
        self.hand_over(alloc, locked, node)?;
        diary.noted(locked.rt, has_receipt, has_checkpoint)?;
        diary.announce(locked.rt, locked.board.manager())?;
        let limits = self.prune(locked, has_checkpoint);
        let standing = self.ask(locked, ended);
        self.failures = self.shared.failures.load(SeqCst);
        Ok((standing, limits))
    }

    /// Hands over all that the process has under the board's lock, and says how the manager stands. One that has ended reports
    /// itself quiet. Where a checkpoint is among the rows, the manager is pruned, and says what need not be kept any longer. Refused
    /// where the manager, a recorder or memory refuses.
    pub fn meet<J: Series, S: Stable, R: Wait>(
        &mut self,
        rt: &R,
        alloc: Global,
        node: &mut Node<'_, J, S>,
        ended: bool,
        is_patient: bool,
        diary: &mut Diary<'_>,
    ) -> Result<(ManagerPhase, Option<Limits>), WorkerFault>
        requires { IsProcessOf S.is_clean K.OverClean K.programs K.cell.n self.old.pid node.old.member }
        ensures pid { self.new.pid ≡ self.old.pid }
        ensures round { self.new.round ≡ self.old.round }
        ensures member { KeepsMember node.old node.new }
        ensures limits { IfOk result (λ met. IfSome met.1 (λ l. length l.bounds.got ≡ K.cell.n)) }
        ensures met { IfOk result (λ met. UnderLock K.cell.n (λ before after.
            HasMet before self.old.pid self.old.round ended node.old.core met.0 met.1 after node.new.core)) }
    {
        let has_checkpoint = have_checkpoint(node.core().pending());
        let mut guard = self.lock(rt, is_patient);
        let mut locked = LockedBoard {
            rt,
            board: &mut *guard,
            frontier: &self.shared.frontier,
        };
        let met = self.meet_at(alloc, &mut locked, node, ended, has_checkpoint, diary)?;
        Ok(met)
    }

    // Hands over all that the process has, and joins the open gathering. Says whether that finished the round.
    fn join_at<J: Series, S: Stable, R: Wait>(
        &mut self,
        alloc: Global,
        locked: &mut LockedBoard<'_, K, R>,
        node: &mut Node<'_, J, S>,
        diary: &mut Diary<'_>,
        pass: Pass<K>,
    ) -> Result<(bool, Pass<K>), WorkerFault>
        requires { IsProcessOf S.is_clean K.OverClean K.programs K.cell.n self.old.pid node.old.member }
        ensures pid { self.new.pid ≡ self.old.pid }
        ensures round { self.new.round ≡ self.old.round }
        ensures member { KeepsMember node.old node.new }
        ensures away { node.new.away ≡ node.old.away }
        ensures sound { IsBoard K.cell.n locked.old.board.now }
        ensures joined { OnOk result
            (HasJoined locked.old.board.now.manager self.old.pid node.old.core locked.new.board.now.manager node.new.core) }
    {
        self.hand_over(alloc, locked, node)?;
        let core = node.core();
        locked.join(alloc, self.pid, core.round(), core.interval())?;
        let (front, pass) = locked.frontier.meet(locked.rt, locked.board, pass);
        self.failures = self.shared.failures.load(SeqCst);
        let is_finished = front.round > self.round;
        diary.joined(locked.rt, &front, is_finished)?;
        diary.announce(locked.rt, locked.board.manager())?;
        Ok((is_finished, pass))
    }

    /// Hands over all that the process has under the board's lock, and joins the open gathering. Says whether that finished the
    /// round. Refused where the manager, a recorder or memory refuses.
    pub fn join<J: Series, S: Stable, R: Wait>(
        &mut self,
        rt: &R,
        alloc: Global,
        node: &mut Node<'_, J, S>,
        diary: &mut Diary<'_>,
        pass: Pass<K>,
    ) -> Result<(bool, Pass<K>), WorkerFault>
        requires { IsProcessOf S.is_clean K.OverClean K.programs K.cell.n self.old.pid node.old.member }
        ensures pid { self.new.pid ≡ self.old.pid }
        ensures round { self.new.round ≡ self.old.round }
        ensures member { KeepsMember node.old node.new }
        ensures away { node.new.away ≡ node.old.away }
        ensures joined { OnOk result (UnderLock K.cell.n (λ before after.
            HasJoined before.manager self.old.pid node.old.core after.manager node.new.core)) }
    {
        let mut guard = self.shared.board.lock(rt);
        let mut locked = LockedBoard {
            rt,
            board: &mut *guard,
            frontier: &self.shared.frontier,
        };
        let joined = self.join_at(alloc, &mut locked, node, diary, pass)?;
        Ok(joined)
    }

    // Tells the board that the process puts all that it keeps anew from now on.
    fn offer_at(&self, board: &mut Board<K>)
        ensures sound { IsBoard K.cell.n board.old }
        ensures offered { HasOffered board.old self.now.pid self.now.round board.new }
    {
        // The look tells what holds of every board.
        let _ = board.manager();
        board.offer(self.pid, self.round);
    }

    /// Tells the board under its lock that the process puts all that it keeps anew from now on.
    pub fn offer<R: Wait>(&self, rt: &R)
        ensures { UnderLock K.cell.n (λ before after. HasOffered before self.now.pid self.now.round after) }
    {
        let mut guard = self.shared.board.lock(rt);
        self.offer_at(&mut *guard);
    }

    // Tells the board that the process waits, with how many messages it has put and taken, and says whether all wait.
    fn wait_at(&self, board: &mut Board<K>, put: u64, taken: u64) -> bool
        ensures sound { IsBoard K.cell.n board.old }
        ensures waited { HasWaited board.old self.now.pid self.now.round put taken result board.new }
    {
        // The look tells what holds of every board.
        let _ = board.manager();
        board.wait(self.pid, self.round, put, taken)
    }

    /// Tells the board under its lock that the process waits, with how many messages it has put and taken, and says whether all
    /// wait.
    pub fn wait<R: Wait>(&self, rt: &R, put: u64, taken: u64) -> bool
        ensures { UnderLock K.cell.n (λ before after. HasWaited before self.now.pid self.now.round put taken result after) }
    {
        let mut guard = self.shared.board.lock(rt);
        self.wait_at(&mut *guard, put, taken)
    }

    // Takes back that the process waits.
    fn withdraw_at(&self, board: &mut Board<K>)
        ensures sound { IsBoard K.cell.n board.old }
        ensures withdrawn { HasWithdrawn board.old self.now.pid board.new }
    {
        // The look tells what holds of every board.
        let _ = board.manager();
        board.withdraw(self.pid);
    }

    /// Takes back under the board's lock that the process waits.
    pub fn withdraw<R: Wait>(&self, rt: &R)
        ensures { UnderLock K.cell.n (λ before after. HasWithdrawn before self.now.pid after) }
    {
        let mut guard = self.shared.board.lock(rt);
        self.withdraw_at(&mut *guard);
    }

    // Tells the board of a message that was refused, and that a resend may bring rightly.
    fn refuse_at(board: &mut Board<K>)
        ensures sound { IsBoard K.cell.n board.old }
        ensures refused { HasRefused board.old board.new }
    {
        // The look tells what holds of every board.
        let _ = board.manager();
        board.refuse();
    }

    /// Tells the board under its lock of a message that was refused, and that a resend may bring rightly.
    pub fn refuse<R: Wait>(&self, rt: &R)
        ensures { UnderLock K.cell.n (λ before after. HasRefused before after) }
    {
        let mut guard = self.shared.board.lock(rt);
        Self::refuse_at(&mut *guard);
    }

    // Tells the manager what the store of the process held: rows, and released outputs.
    fn take_up_at<R: Wait>(
        &self,
        alloc: Global,
        locked: &mut LockedBoard<'_, K, R>,
        rows: &[PendingRow],
        outputs: &[Made],
    ) -> Result<(), WorkerFault>
        requires { K.OverClean → ⊥ }
        ensures sound { IsBoard K.cell.n locked.old.board.now }
        ensures taken_up { OnOk result
            (HasTakenUp locked.old.board.now.manager self.now.round self.now.pid rows.now outputs.now locked.new.board.now.manager) }
    {
        // The look tells what holds of every board.
        let _ = locked.board.manager();
        match take_up(locked, alloc, self.pid, self.round, rows, outputs) {
            Ok(()) => Ok(()),
            Err(fault) => Err(fault_of_taking_up(fault)),
        }
    }

    /// Tells the manager under the board's lock what the store of the process held: rows, and released outputs. Refused where the
    /// manager or memory refuses.
    pub fn take_up<R: Wait>(
        &self,
        rt: &R,
        alloc: Global,
        rows: &[PendingRow],
        outputs: &[Made],
    ) -> Result<(), WorkerFault>
        requires { K.OverClean → ⊥ }
        ensures { OnOk result (UnderLock K.cell.n (λ before after.
            HasTakenUp before.manager self.now.round self.now.pid rows.now outputs.now after.manager)) }
    {
        let mut guard = self.shared.board.lock(rt);
        let mut locked = LockedBoard {
            rt,
            board: &mut *guard,
            frontier: &self.shared.frontier,
        };
        self.take_up_at(alloc, &mut locked, rows, outputs)?;
        Ok(())
    }

    // Tells the manager that the process failed.
    fn declare_at<R: Wait>(
        &mut self,
        rt: &R,
        alloc: Global,
        board: &mut Board<K>,
        diary: &mut Diary<'_>,
        pass: Pass<K>,
    ) -> Result<Pass<K>, WorkerFault>
        ensures pid { self.new.pid ≡ self.old.pid }
        ensures round { self.new.round ≡ self.old.round }
        ensures sound { IsBoard K.cell.n board.old }
        ensures declared { OnOk result (HasDeclared board.old.manager self.old.pid self.old.round board.new.manager) }
    {
        // The look tells what holds of every board.
        let _ = board.manager();
        let frontier = &self.shared.frontier;
        board.fail(rt, alloc, self.pid, self.round, frontier)?;
        let (front, pass) = frontier.meet(rt, board, pass);
        self.failures = self.shared.failures.fetch_add(1, SeqCst).wrapping_add(1);
        diary.failed(rt, &front, front.round > self.round)?;
        diary.announce(rt, board.manager())?;
        Ok(pass)
    }

    /// Tells the manager under the board's lock that the process failed. Refused where the manager, a recorder or memory refuses.
    pub fn declare<R: Wait>(
        &mut self,
        rt: &R,
        alloc: Global,
        diary: &mut Diary<'_>,
        pass: Pass<K>,
    ) -> Result<Pass<K>, WorkerFault>
        ensures pid { self.new.pid ≡ self.old.pid }
        ensures round { self.new.round ≡ self.old.round }
        ensures declared { OnOk result (UnderLock K.cell.n (λ before after.
            HasDeclared before.manager self.old.pid self.old.round after.manager)) }
    {
        let mut guard = self.shared.board.lock(rt);
        let pass = self.declare_at(rt, alloc, &mut *guard, diary, pass)?;
        Ok(pass)
    }

    /// Returns how many outputs of the process are released.
    pub fn released<R: Wait>(&self, rt: &R) -> u64
        ensures { UnderLock K.cell.n (λ before after.
            (result ≡ length (released_by before.manager self.now.pid)) × (after ≡ before)) }
    {
        let mut guard = self.shared.board.lock(rt);
        let board = &mut *guard;
        let manager = board.manager();
        let outputs = manager.released(self.pid);
        outputs.len() as u64
    }

    /// Returns the outputs of the process, where as many are released as it made. Refused where memory runs out.
    pub fn harvest<R: Wait>(
        &self,
        rt: &R,
        alloc: Global,
        made: u64,
    ) -> Result<Option<Harvest<K>>, WorkerFault>
        ensures own { IfOk result (λ r. IfSome r (λ h. h.own ≡ self.now.pid)) }
        ensures many { IfOk result (λ r. IfSome r (λ h. length h.outputs.items ≡ made)) }
        ensures all { IfOk result (λ r. IfSome r (λ h. UnderLock K.cell.n (λ before after.
            AreAllOf before.manager self.now.pid h.outputs.items × (after ≡ before)))) }
        ensures none { IfOk result (λ r. IfNone r (UnderLock K.cell.n (λ before after.
            HasReleasedAnother before.manager self.now.pid made × (after ≡ before)))) }
    {
        let mut guard = self.shared.board.lock(rt);
        let board = &mut *guard;
        let pass = board.pass(&self.shared.frontier);
        let manager = board.manager();
        if manager.released(self.pid).len() as u64 != made {
            return Ok(None);
        }
        match Harvest::of(alloc, manager, self.pid, pass) {
            Ok(harvest) => Ok(Some(harvest)),
            Err(_) => Err(WorkerFault::Memory),
        }
    }

    // Returns what the manager says of the last finished round, which the process is in from now on.
    fn hear_at<R: Wait>(
        &mut self,
        rt: &R,
        alloc: Global,
        board: &mut Board<K>,
        pass: Pass<K>,
    ) -> Result<(RoundOutcome, Pass<K>), WorkerFault>
        ensures pid { self.new.pid ≡ self.old.pid }
        ensures starts { IfOk result (λ r. length r.0.starts ≡ K.cell.n) }
        ensures round { IfOk result (λ r. self.new.round ≡ r.0.verdict.round) }
        ensures sound { IsBoard K.cell.n board.old }
        ensures heard { IfOk result (λ r. HasHeard board.old.manager self.old.pid r.0) }
        ensures board { board.new ≡ board.old }
    {
        // The next gathering may be open already. `failures` stays as it was, so the next turn looks for it.
        let (_, pass) = self.shared.frontier.meet(rt, board, pass);
        let manager = board.manager();
        let verdict = manager.verdict(self.pid);
        let starts = manager.starts().copy(alloc)?;
        self.round = verdict.round;
        self.handed = manager.next_output(self.pid);
        Ok((RoundOutcome { verdict, starts }, pass))
    }

    /// Returns under the board's lock what the manager says of the last finished round, which the process is in from now on. Refused
    /// where memory runs out.
    pub fn hear<R: Wait>(
        &mut self,
        rt: &R,
        alloc: Global,
        pass: Pass<K>,
    ) -> Result<(RoundOutcome, Pass<K>), WorkerFault>
        ensures pid { self.new.pid ≡ self.old.pid }
        ensures starts { IfOk result (λ r. length r.0.starts ≡ K.cell.n) }
        ensures round { IfOk result (λ r. self.new.round ≡ r.0.verdict.round) }
        ensures heard { IfOk result (λ r. UnderLock K.cell.n (λ before after.
            HasHeard before.manager self.old.pid r.0 × (after ≡ before))) }
    {
        let mut guard = self.shared.board.lock(rt);
        let heard = self.hear_at(rt, alloc, &mut *guard, pass)?;
        Ok(heard)
    }
}
