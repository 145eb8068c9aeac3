//! What the thread of a process does.

ghost use Rattle.std.specs.Prelude.{◌≡◌, ◌<◌, ◌+◌, ◌⊎◌, [], false, IfNone, IfOk, IfSome, None, Ok, OnOk, Some, length, true};
ghost use Rattle.om_member.specs.Handed.{outputs_from};
ghost use Rattle.om_process.specs.Core.{IsEnd};
ghost use Rattle.om_format.specs.declared.message.Message.{Message};
ghost use Rattle.om_worker_parts.specs.Acts.{HasReleasedAnother};
ghost use Rattle.om_report.specs.Locks.{UnderLock};
ghost use Rattle.om_worker_parts.specs.Places.{IsProcessOf, IsLanded, member_of, IsLandedAt};
ghost use Rattle.om_worker.specs.steps.Turning.{HasNothingToSay, HasReported, HasRun, IsOffered, IsTurnOf};
ghost use Rattle.om_links.specs.Wiring.{HasEnds};
ghost use Rattle.om_links.specs.Links.{KeepsEnds};
ghost use Rattle.om_node.specs.Nodes.{KeepsMember};

mod resting;
mod rounds;
mod storing;

use om_board::{Naming, Pass, Shared};
use om_cluster::Config;
use om_interval::Pid;
use om_links::{Ends, Links, Taken};
use om_node::{Node, WorkerFault};
use om_observers::{Diary, Observers, Past, Sight, Watch};
use om_pacing::{Barrier, Idle, Pause, SpinPolicy};
use om_process::{Accept, ProcCore, Status, Witness};
use om_report::Harvest;
use om_restart::Found;
use om_stable::{Ledger, Stable};
use om_storing::{Kept, Storing};
use om_tickets::Series;
use om_worker_parts::{ManagerLink, ManagerPhase, TurnOutcome, WorkerState};
use std::alloc::Global;
use std::sync::Wait;
use std::time::Clock;

// What is left of a worker's turns where all wait, whatever it is.
const ALL_TURNS: u64 = u64::MAX;

// How many turns a process takes at most before it is let go of, and its worker looks whether all are to stop.
const ROW: u64 = 16;

// A worker, but for its process. At a `WorkerFault` the process is dropped by a call, since at the end of a scope each of its parts
// would be, which the prover goes through one by one.
#[derive(Drop)]
pub(crate) struct Worker<'a, K: Naming> {
    config: &'a Config,
    manager_link: ManagerLink<'a, K>,
    links: Links<'a>,
    barrier: Barrier<'a>,
    // The intervals at which the process is still to fail.
    kills: Vec<u32>,
    past: Past,
    storing: Storing,
    diary: Diary<'a>,
    // Who sees what the process does.
    watch: Option<&'a Watch>,
    idle: Idle,
    patience: SpinPolicy,
    // Whether all that the process keeps was resent, after some idle turns, since it ran, received or refused a message.
    resent: bool,
    // Whether the process had ended when it ran last.
    has_ended: bool,
    // Whether all are told that it takes no message any more.
    is_over: bool,
    // How many turns the last one counts as beside itself.
    extra: u64,
    // How many turns are left to the worker, with the one that it takes.
    left: u64,
    ghost linked: { links.ends.own ≡ manager_link.pid },
    ghost many: { links.ends.n ≡ K.cell.n },
}

impl<'a, K: Naming> Worker<'a, K> {
    pub(crate) fn new(
        config: &'a Config,
        shared: &'a Shared<K>,
        links: Links<'a>,
        barrier: Barrier<'a>,
        kills: Vec<u32>,
        alloc: Global,
        observers: Observers<'a>,
    ) -> Worker<'a, K>
        requires { links.ends.n ≡ K.cell.n }
        ensures { result.links ≡ links.entry }
    {
        let own = links.own();
        Worker {
            config,
            manager_link: ManagerLink::new(own, shared),
            links,
            barrier,
            kills,
            past: Past::new(alloc, observers.keeps_witness),
            storing: Storing::new(),
            diary: Diary::new(alloc, own, observers),
            watch: observers.watch,
            idle: Idle::new(),
            patience: SpinPolicy::new(),
            resent: false,
            has_ended: false,
            is_over: false,
            extra: 0,
            left: 0,
        }
    }

    // Returns the process.
    pub(crate) fn pid(&self) -> Pid
        ensures { result ≡ self.now.links.ends.own }
    {
        self.manager_link.pid
    }

    // Returns the number of processes.
    pub(crate) fn n(&self) -> usize
        ensures { result ≡ K.cell.n }
    {
        self.links.n()
    }

    // Wakes the workers of all processes.
    pub(crate) fn wake_all(&self) {
        self.links.wake_all();
    }

    // Goes on from what was found in the store of the process, once the manager is told of it.
    pub(crate) fn take_up<R: Wait>(
        &mut self,
        rt: &R,
        alloc: Global,
        found: Found,
    ) -> Result<(), WorkerFault>
        requires { K.OverClean → ⊥ }
        ensures same { KeepsEnds self.old.links self.new.links }
        ensures past { OnOk result (self.new.past ≡ record { keeps = true; senders = found.senders.items; count = 0 }) }
        ensures kept { OnOk result (self.new.storing.kept ≡ Some (record { outputs = length found.outputs.items; senders = found.kept })) }
    {
        self.manager_link
            .take_up(rt, alloc, &found.rows, &found.outputs)?;
        let kept = Kept {
            outputs: found.outputs.len() as u64,
            senders: found.kept,
        };
        self.storing.take_up(kept, &found.rows);
        self.past = Past::taken_up(found.senders);
        Ok(())
    }

    // Returns how many turns the last one counts as beside itself.
    pub(crate) fn extra(&self) -> u64
        ensures { result ≡ self.now.extra }
    {
        self.extra
    }

    // Has the next turn count as no more than so many.
    pub(crate) fn allow(&mut self, left: u64)
        ensures { KeepsEnds self.old.links self.new.links }
    {
        self.left = left;
    }

    // Counts the process, which came up in this round, and wakes the others where it was the last. It is the last act of coming up,
    // but where a store is taken up: there the manager is told of it afterwards.
    pub(crate) fn arrive(&mut self, round: u32)
        ensures { KeepsEnds self.old.links self.new.links }
    {
        if self.barrier.arrive(round) {
            self.links.wake_all();
        }
    }

    // Returns whether the process, which is up, waits for others to come up. A turn in which it does is one in which nothing
    // happens.
    fn waits_for_others<R: Wait + Clock>(&mut self, rt: &R) -> bool
        ensures { KeepsEnds self.old.links self.new.links }
    {
        if self.barrier.is_passed() {
            return false;
        }
        if self.barrier.pass() {
            self.idle.end();
            return false;
        }
        self.doze(rt);
        true
    }

    // Gives the passes of the process up, when it has ended, and what it did.
    pub(crate) fn into_ends(self) -> (Ends, Witness)
        ensures { let l = self.entry.links.ends in HasEnds K.cell.n l.lines l.own result.0 }
    {
        let Worker { links, past, .. } = self;
        (links.into_ends(), past.into_witness())
    }

    // Returns the outputs of the process, where as many are released as it made.
    pub(crate) fn harvest<R: Wait>(
        &self,
        rt: &R,
        alloc: Global,
        made: u64,
    ) -> Result<Option<Harvest<K>>, WorkerFault>
        ensures own { IfOk result (λ r. IfSome r (λ h. h.own ≡ self.now.links.ends.own)) }
        ensures many { IfOk result (λ r. IfSome r (λ h. length h.outputs.items ≡ made)) }
        ensures none { IfOk result (λ r. IfNone r (UnderLock K.cell.n (λ before after.
            HasReleasedAnother before.manager self.now.manager_link.pid made × (after ≡ before)))) }
    {
        self.manager_link.harvest(rt, alloc, made)
    }

    // Notes that the process has ended, with so many instructions.
    pub(crate) fn end(&mut self, count: u64)
        ensures { KeepsEnds self.old.links self.new.links }
    {
        self.past.end(count);
    }

    // Takes one turn. Nothing that moves the process is inlined, here and below: a process over a large store is moved a field at a
    // time where several moves stand in one function, which then takes the compiler minutes.
    #[inline(never)]
    fn turn<J: Series, S: Ledger, R: Wait + Clock>(
        &mut self,
        rt: &R,
        alloc: Global,
        state: WorkerState<'a, J, S>,
        pass: Pass<K>,
    ) -> Result<(WorkerState<'a, J, S>, Pass<K>), WorkerFault>
        requires process { IsProcessOf S.is_clean K.OverClean K.programs K.cell.n self.old.links.ends.own (member_of state) }
        requires landed { IsLanded state }
        ensures same { KeepsEnds self.old.links self.new.links }
        ensures place { IfOk result (λ r. member_of r.0 ≡ member_of state.entry) }
        ensures landed { IfOk result (λ r. IsLanded r.0) }
        ensures turned { IfOk result (λ r. IsTurnOf K.cell.n self.old.manager_link.round state.entry r.0) }
    {
        self.extra = 0;
        match state {
            WorkerState::Up(node) => self.go_on(rt, alloc, node, pass),
            WorkerState::MustJoin(node) => self.join(rt, alloc, node, pass),
            WorkerState::Joined(node) => self.wait_in(rt, alloc, node, pass),
            WorkerState::Failed(down_node) => self.declare(rt, alloc, down_node, pass),
            WorkerState::Down(down_node) => self.wait_down(rt, alloc, down_node, pass),
            WorkerState::AllQuiet(node) => Ok((WorkerState::AllQuiet(node), pass)),
        }
    }

    // Takes one turn, at whose end whoever watches sees what the process does.
    #[inline(never)]
    pub(crate) fn shown_turn<J: Series, S: Ledger, R: Wait + Clock>(
        &mut self,
        rt: &R,
        alloc: Global,
        state: WorkerState<'a, J, S>,
        pass: Pass<K>,
    ) -> Result<(WorkerState<'a, J, S>, Pass<K>), WorkerFault>
        requires process { IsProcessOf S.is_clean K.OverClean K.programs K.cell.n self.old.links.ends.own (member_of state) }
        requires landed { IsLanded state }
        ensures same { KeepsEnds self.old.links self.new.links }
        ensures place { IfOk result (λ r. member_of r.0 ≡ member_of state.entry) }
        ensures landed { IfOk result (λ r. IsLanded r.0) }
    {
        if self.watch.is_none() {
            return self.turn(rt, alloc, state, pass);
        }
        let mut turned = self.turn(rt, alloc, state, pass)?;
        self.show(rt, &mut turned);
        Ok(turned)
    }

    // Shows whoever watches what the process does where it stands.
    #[inline(never)]
    fn show<J: Series, S: Stable, R: Wait>(
        &self,
        rt: &R,
        turned: &mut (WorkerState<'a, J, S>, Pass<K>),
    )
        ensures { turned.new.0 ≡ turned.old.0 }
    {
        let Some(watch) = self.watch else {
            return;
        };
        let pid = self.manager_link.pid;
        let before = watch.sight(rt, pid).unwrap_or(Sight::new());
        let seen = turned.0.sight(before);
        let sight = Sight {
            refused: self.diary.refused(),
            put: self.links.put(),
            taken: self.links.taken(),
            front: Some(self.manager_link.read(rt, &mut turned.1)),
            ..seen
        };
        watch.show(rt, pid, sight);
    }

    // Takes a turn of a process that is up: it runs, where all are.
    #[inline(never)]
    fn go_on<J: Series, S: Ledger, R: Wait + Clock>(
        &mut self,
        rt: &R,
        alloc: Global,
        node: Node<'a, J, S>,
        pass: Pass<K>,
    ) -> Result<(WorkerState<'a, J, S>, Pass<K>), WorkerFault>
        requires { IsProcessOf S.is_clean K.OverClean K.programs K.cell.n self.old.links.ends.own node.member }
        ensures same { KeepsEnds self.old.links self.new.links }
        ensures place { IfOk result (λ r. member_of r.0 ≡ node.entry.member) }
        ensures landed { IfOk result (λ r. IsLanded r.0) }
    {
        if self.waits_for_others(rt) {
            return Ok((WorkerState::Up(node), pass));
        }
        let mut node = node;
        match self.steps(rt, alloc, &mut node) {
            Ok(turn_outcome) => {
                let mut pass = pass;
                self.tell_end(rt, node.core(), &mut pass);
                Ok((turn_outcome.place_of(node), pass))
            }
            Err(worker_fault) => {
                drop(node);
                Err(worker_fault)
            }
        }
    }

    // Takes turns of a process that is up, one behind the other, while something happens in each: to let go of a process and to take it
    // up again costs as much as a tenth of a message.
    #[inline(never)]
    fn steps<J: Series, S: Ledger, R: Wait + Clock>(
        &mut self,
        rt: &R,
        alloc: Global,
        node: &mut Node<'a, J, S>,
    ) -> Result<TurnOutcome, WorkerFault>
        requires { IsProcessOf S.is_clean K.OverClean K.programs K.cell.n self.old.links.ends.own node.old.member }
        ensures same { KeepsEnds self.old.links self.new.links }
        ensures member { KeepsMember node.old node.new }
        ensures landed { IfOk result (λ turn_outcome. IsLandedAt turn_outcome node.new) }
    {
        let more = self.left.min(ROW).saturating_sub(1);
        for turns in 0..more {
            let turn_outcome = self.step(rt, alloc, node)?;
            if !matches!(turn_outcome, TurnOutcome::Up) || !self.may_go_on() {
                self.extra = self.extra.saturating_add(turns);
                return Ok(turn_outcome);
            }
        }
        let last = self.step(rt, alloc, node)?;
        self.extra = self.extra.saturating_add(more);
        Ok(last)
    }

    // Returns whether the next turn of a process that is up may follow at once: something happened in the last one, the process has
    // not ended, of which others are told between turns, and nobody watches it turn by turn.
    fn may_go_on(&self) -> bool {
        self.extra == 0 && self.idle.turns == 0 && !self.has_ended && self.watch.is_none()
    }

    // Takes a turn of a process that is up and goes on, or leaves: then its store is here.
    #[inline(never)]
    fn step<J: Series, S: Ledger, R: Wait + Clock>(
        &mut self,
        rt: &R,
        alloc: Global,
        node: &mut Node<'a, J, S>,
    ) -> Result<TurnOutcome, WorkerFault>
        requires { IsProcessOf S.is_clean K.OverClean K.programs K.cell.n self.old.links.ends.own node.old.member }
        ensures same { KeepsEnds self.old.links self.new.links }
        ensures member { KeepsMember node.old node.new }
        ensures landed { IfOk result (λ turn_outcome. IsLandedAt turn_outcome node.new) }
    {
        self.storing.look(rt, node, &mut self.diary)?;
        match self.advance(rt, alloc, node)? {
            TurnOutcome::Up => Ok(TurnOutcome::Up),
            turn_outcome => {
                self.storing.recall(rt, node, &mut self.diary)?;
                Ok(turn_outcome)
            }
        }
    }

    // Runs the process, hands in what it has, and takes a message where it waits for one.
    #[inline(never)]
    fn advance<J: Series, S: Ledger, R: Wait + Clock>(
        &mut self,
        rt: &R,
        alloc: Global,
        node: &mut Node<'a, J, S>,
    ) -> Result<TurnOutcome, WorkerFault>
        requires { IsProcessOf S.is_clean K.OverClean K.programs K.cell.n self.old.links.ends.own node.old.member }
        ensures same { KeepsEnds self.old.links self.new.links }
        ensures member { KeepsMember node.old node.new }
    {
        let status = self.run(rt, alloc, node)?;
        let called = self.manager_link.is_called(self.manager_link.failures());
        let phase = self.report(rt, alloc, node, status, called)?;
        match phase {
            ManagerPhase::Closed => {
                if !status.has_ended() {
                    let (flush, checkpoint) = (self.config.flush, self.config.checkpoint);
                    self.storing
                        .launch(rt, alloc, node, &mut self.diary, flush, checkpoint)?;
                }
                self.receive(rt, alloc, node, status)
            }
            ManagerPhase::Gathers => Ok(TurnOutcome::MustJoin),
            ManagerPhase::Quiet => {
                self.links.wake_all();
                Ok(TurnOutcome::AllQuiet)
            }
        }
    }

    // Runs the process, and puts what it sends. One that has ended stores all that it received.
    fn run<J: Series, S: Stable, R: Wait>(
        &mut self,
        rt: &R,
        alloc: Global,
        node: &mut Node<'a, J, S>,
    ) -> Result<Status, WorkerFault>
        requires own { node.old.member.own ≡ self.old.links.ends.own }
        requires size { node.old.member.n ≡ K.cell.n }
        ensures same { KeepsEnds self.old.links self.new.links }
        ensures member { KeepsMember node.old node.new }
        ensures ran { IfOk result (λ status. HasRun node.old.core self.old.config.now.fuel status node.new.core.now) }
        ensures stored { IfOk result (λ status. IsEnd status → node.new.core.log ≡ []) }
        ensures landed { IfOk result (λ status. IsEnd status → node.new.away ≡ false) }
    {
        if self.diary.is_kept() && !node.core().pending().is_empty() {
            // Of a run that is recorded what a process stores is noted before it runs on, so that both are one event.
            return Ok(Status::Ready);
        }
        let ran = node.run(alloc, self.config.fuel)?;
        self.diary.ran(rt, node.core(), ran)?;
        self.has_ended = ran.status.has_ended();
        self.send(rt, alloc, node, ran.steps > 0)?;
        if ran.status.has_ended() {
            self.store_all(rt, alloc, node)?;
        }
        Ok(ran.status)
    }

    // Puts what a process sent that went on, and what is still to be put.
    fn send<J: Series, S: Stable, R: Wait>(
        &mut self,
        rt: &R,
        alloc: Global,
        node: &Node<'a, J, S>,
        went_on: bool,
    ) -> Result<(), WorkerFault>
        requires own { node.now.member.own ≡ self.old.links.ends.own }
        requires size { node.now.member.n ≡ K.cell.n }
        ensures same { KeepsEnds self.old.links self.new.links }
    {
        if went_on {
            self.change();
        }
        if went_on || self.links.is_behind() {
            self.links.put_all(rt, alloc, node.core())?;
        }
        Ok(())
    }

    // Stores all that a process received that has ended.
    #[inline(never)]
    fn store_all<J: Series, S: Stable, R: Wait>(
        &mut self,
        rt: &R,
        alloc: Global,
        node: &mut Node<'a, J, S>,
    ) -> Result<(), WorkerFault>
        ensures same { KeepsEnds self.old.links self.new.links }
        ensures member { KeepsMember node.old node.new }
        ensures now { OnOk result (node.new.core.now ≡ node.old.core.now) }
        ensures log { OnOk result (node.new.core.log ≡ []) }
        ensures landed { OnOk result (node.new.away ≡ false) }
    {
        self.storing.recall(rt, node, &mut self.diary)?;
        self.storing.flush(alloc, node)?;
        self.diary.stored_all();
        Ok(())
    }

    // Hands in what the process has, where there is something to hand in or to learn, and says how the manager stands.
    fn report<J: Series, S: Ledger, R: Wait>(
        &mut self,
        rt: &R,
        alloc: Global,
        node: &mut Node<'a, J, S>,
        status: Status,
        called: bool,
    ) -> Result<ManagerPhase, WorkerFault>
        requires { IsProcessOf S.is_clean K.OverClean K.programs K.cell.n self.old.links.ends.own node.old.member }
        ensures same { KeepsEnds self.old.links self.new.links }
        ensures member { KeepsMember node.old node.new }
        ensures reported { IfOk result (λ phase. HasNothingToSay self.old.manager_link.handed status node.old.core phase node.new.core
            ⊎ HasReported K.cell.n self.old.manager_link.pid self.old.manager_link.round status node.old.core phase) }
        ensures idle { let link = self.old.manager_link in (IsEnd status → ⊥) → called ≡ false → node.old.core.pending ≡ []
            → outputs_from node.old.core link.handed ≡ []
            → IfOk result (λ phase. HasNothingToSay link.handed status node.old.core phase node.new.core) }
    {
        let ended = status.has_ended();
        if !self.manager_link.is_due(node.core(), ended, called) {
            return Ok(ManagerPhase::Closed);
        }
        let phase = self.meet(rt, alloc, node, status)?;
        Ok(phase)
    }

    // Hands in what the process has, and says how the manager stands. What need not be kept any longer goes.
    #[inline(never)]
    fn meet<J: Series, S: Ledger, R: Wait>(
        &mut self,
        rt: &R,
        alloc: Global,
        node: &mut Node<'a, J, S>,
        status: Status,
    ) -> Result<ManagerPhase, WorkerFault>
        requires { IsProcessOf S.is_clean K.OverClean K.programs K.cell.n self.old.links.ends.own node.old.member }
        ensures same { KeepsEnds self.old.links self.new.links }
        ensures member { KeepsMember node.old node.new }
        ensures reported { IfOk result
            (HasReported K.cell.n self.old.manager_link.pid self.old.manager_link.round status node.old.core) }
    {
        let ended = status.has_ended();
        let is_patient = self.patience.is_patient();
        let (phase, limits) = self
            .manager_link
            .meet(rt, alloc, node, ended, is_patient, &mut self.diary)?;
        let is_trimmed = limits.is_some();
        self.storing
            .apply_limits(alloc, node, limits, ended, self.past.senders())?;
        self.drop_untaken(node, is_trimmed);
        Ok(phase)
    }

    // Tells all senders once the process takes no message any more, whatever fails: it has ended, and its interval is in the recovery
    // state of its round, so that no round takes its end back.
    fn tell_end<R: Wait>(&mut self, rt: &R, core: &ProcCore, pass: &mut Pass<K>)
        ensures { KeepsEnds self.old.links self.new.links }
    {
        if !self.has_ended || self.is_over {
            return;
        }
        let front = self.manager_link.read(rt, pass);
        let is_reached = match front.vec.as_slice().get(self.manager_link.pid.index()) {
            Some(interval) => *interval >= core.interval(),
            None => false,
        };
        if is_reached && front.round == core.round() {
            self.links.tell_end();
            self.is_over = true;
        }
    }

    // Takes a message, where the process waits for one. What comes to one that has ended is dropped: a round that rolls it back
    // has all sent once more.
    fn receive<J: Series, S: Ledger, R: Wait + Clock>(
        &mut self,
        rt: &R,
        alloc: Global,
        node: &mut Node<'a, J, S>,
        status: Status,
    ) -> Result<TurnOutcome, WorkerFault>
        ensures same { KeepsEnds self.old.links self.new.links }
        ensures member { KeepsMember node.old node.new }
        ensures offered { OnOk result ((node.new.core ≡ node.old.core)
            ⊎ ((message : Message) × IsOffered node.old.core message node.new.core.now)) }
    {
        if status == Status::Waiting {
            if let Some(taken) = self.take(rt) {
                return self.accept(rt, alloc, node, &taken);
            }
        } else if status != Status::Ready {
            if self.links.drain(rt) {
                self.idle.interrupt();
            } else {
                self.rest(rt);
            }
        }
        Ok(TurnOutcome::Up)
    }

    // Takes a message, or rests; what ends the rest is taken at once.
    fn take<R: Wait + Clock>(&mut self, rt: &R) -> Option<Taken>
        ensures same { KeepsEnds self.old.links self.new.links }
    {
        let taken = self.links.take(rt);
        if taken.is_some() {
            return taken;
        }
        match self.rest(rt) {
            Pause::Woken => self.links.take(rt),
            Pause::Slept => None,
        }
    }

    // Notes that something happens to the process: it is idle no longer, and what it keeps is not all resent.
    fn change(&mut self)
        ensures same { KeepsEnds self.old.links self.new.links }
    {
        self.idle.end();
        self.resent = false;
    }

    // Offers a message to the process, as it was taken.
    fn accept<J: Series, S: Ledger, R: Wait>(
        &mut self,
        rt: &R,
        alloc: Global,
        node: &mut Node<'a, J, S>,
        taken: &Taken,
    ) -> Result<TurnOutcome, WorkerFault>
        ensures same { KeepsEnds self.old.links self.new.links }
        ensures member { KeepsMember node.old node.new }
        ensures offered { OnOk result (IsOffered node.old.core taken.now node.new.core.now) }
    {
        let message = taken.message();
        let answer = node.accept(alloc, message);
        self.diary.gave(rt, message, answer)?;
        match answer {
            Accept::Taken(x) => {
                self.past.receive(message.from)?;
                self.links.tell_received(message);
                self.change();
                self.after_receipt(rt, alloc, node, x)
            }
            Accept::Memory => Err(WorkerFault::Memory),
            Accept::Repeat => {
                self.idle.interrupt();
                Ok(TurnOutcome::Up)
            }
            _ => {
                self.change();
                self.manager_link.refuse(rt);
                Ok(TurnOutcome::Up)
            }
        }
    }
}
