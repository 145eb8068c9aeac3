//! How a worker's process takes part in a round: it joins, declares its failure, waits, and goes on or comes back.

ghost use Rattle.std.specs.Prelude.{◌≡◌, ◌<◌, ◌+◌, false, IfOk, IfSome, None, Ok, OnOk, length, true};
ghost use Rattle.om_process.specs.Stores.{flushed};
ghost use Rattle.om_worker.specs.steps.Turning.{HasHeeded, HasComeBack, HasRisen, IsTurnOf, WasTold};
ghost use Rattle.om_worker_parts.specs.Acts.{HasJoined};
ghost use Rattle.om_report.specs.Locks.{UnderLock};
ghost use Rattle.om_worker_parts.specs.Places.{IsProcessOf, IsLanded, member_of};
ghost use Rattle.om_links.specs.Links.{KeepsEnds};
ghost use Rattle.om_node.specs.Nodes.{KeepsMember};

use super::Worker;
use om_board::{Naming, Pass};
use om_interval::Verdict;
use om_node::{DownNode, Node, WorkerFault};
use om_stable::Stable;
use om_tickets::Series;
use om_worker_parts::{RoundOutcome, WorkerState};
use std::alloc::Global;
use std::sync::Wait;
use std::time::Clock;

// Returns the process after a finished round: as it was, or rolled back.
#[inline(never)]
fn after_round<'a, J: Series, S: Stable>(
    alloc: Global,
    node: Node<'a, J, S>,
    round_outcome: &RoundOutcome,
) -> Result<Node<'a, J, S>, WorkerFault>
    requires starts { length round_outcome.now.starts ≡ node.member.n }
    requires landed { node.away ≡ false }
    ensures member { IfOk result (λ next. next.member ≡ node.entry.member) }
    ensures round { IfOk result (λ next. next.core.round ≡ round_outcome.now.verdict.round) }
    ensures heeded { let old = node.entry in
        IfOk result (λ next. HasHeeded round_outcome.now old.member.own old.core next.core) }
{
    if round_outcome.verdict.back {
        return node
            .fail()
            .come_back(alloc, &round_outcome.starts, &round_outcome.verdict);
    }
    let mut node = node;
    match node.resume(alloc, &round_outcome.starts, &round_outcome.verdict) {
        Ok(()) => Ok(node),
        Err(worker_fault) => {
            drop(node);
            Err(worker_fault)
        }
    }
}

impl<'a, K: Naming> Worker<'a, K> {
    // Joins the open gathering, with all that the process has stored and handed in.
    #[inline(never)]
    pub(super) fn join<J: Series, S: Stable, R: Wait>(
        &mut self,
        rt: &R,
        alloc: Global,
        node: Node<'a, J, S>,
        pass: Pass<K>,
    ) -> Result<(WorkerState<'a, J, S>, Pass<K>), WorkerFault>
        requires process { IsProcessOf S.is_clean K.OverClean K.programs K.cell.n self.old.links.ends.own node.member }
        requires landed { node.away ≡ false }
        ensures same { KeepsEnds self.old.links self.new.links }
        ensures place { IfOk result (λ r. member_of r.0 ≡ node.entry.member) }
        ensures landed { IfOk result (λ r. IsLanded r.0) }
        ensures turned { IfOk result (λ r. IsTurnOf K.cell.n self.old.manager_link.round (WorkerState.MustJoin node.entry) r.0) }
    {
        let mut node = node;
        match self.enter(rt, alloc, &mut node, pass) {
            Ok(pass) => Ok((WorkerState::Joined(node), pass)),
            Err(worker_fault) => {
                drop(node);
                Err(worker_fault)
            }
        }
    }

    #[inline(never)]
    fn enter<J: Series, S: Stable, R: Wait>(
        &mut self,
        rt: &R,
        alloc: Global,
        node: &mut Node<'a, J, S>,
        pass: Pass<K>,
    ) -> Result<Pass<K>, WorkerFault>
        requires process { IsProcessOf S.is_clean K.OverClean K.programs K.cell.n self.old.links.ends.own node.old.member }
        requires landed { node.old.away ≡ false }
        ensures same { KeepsEnds self.old.links self.new.links }
        ensures member { KeepsMember node.old node.new }
        ensures landed { node.new.away ≡ false }
        ensures joined { OnOk result (UnderLock K.cell.n (λ before after.
            HasJoined before.manager node.old.member.own (flushed node.old.core) after.manager node.new.core)) }
    {
        self.storing.flush(alloc, node)?;
        let (is_finished, pass) = self
            .manager_link
            .join(rt, alloc, node, &mut self.diary, pass)?;
        if is_finished {
            self.links.wake_all();
        }
        self.change();
        Ok(pass)
    }

    // Tells the manager that the process failed.
    #[inline(never)]
    pub(super) fn declare<J: Series, S: Stable, R: Wait>(
        &mut self,
        rt: &R,
        alloc: Global,
        down_node: DownNode<'a, J, S>,
        pass: Pass<K>,
    ) -> Result<(WorkerState<'a, J, S>, Pass<K>), WorkerFault>
        requires { down_node.own ≡ self.old.links.ends.own }
        ensures same { KeepsEnds self.old.links self.new.links }
        ensures place { IfOk result (λ r. member_of r.0 ≡ down_node.entry) }
        ensures landed { IfOk result (λ r. IsLanded r.0) }
        ensures turned { IfOk result (λ r. IsTurnOf K.cell.n self.old.manager_link.round (WorkerState.Failed down_node.entry) r.0) }
    {
        let pass = self.manager_link.declare(rt, alloc, &mut self.diary, pass)?;
        self.links.wake_all();
        self.change();
        Ok((WorkerState::Down(down_node), pass))
    }

    // Waits for the round to be finished, and then goes on as its verdict says.
    #[inline(never)]
    pub(super) fn wait_in<J: Series, S: Stable, R: Wait + Clock>(
        &mut self,
        rt: &R,
        alloc: Global,
        node: Node<'a, J, S>,
        pass: Pass<K>,
    ) -> Result<(WorkerState<'a, J, S>, Pass<K>), WorkerFault>
        requires own { node.member.own ≡ self.old.links.ends.own }
        requires size { node.member.n ≡ K.cell.n }
        requires landed { node.away ≡ false }
        ensures same { KeepsEnds self.old.links self.new.links }
        ensures place { IfOk result (λ r. member_of r.0 ≡ node.entry.member) }
        ensures landed { IfOk result (λ r. IsLanded r.0) }
        ensures turned { IfOk result (λ r. IsTurnOf K.cell.n self.old.manager_link.round (WorkerState.Joined node.entry) r.0) }
    {
        let (round_outcome, pass) = match self.listen(rt, alloc, pass) {
            Ok(heard) => heard,
            Err(worker_fault) => {
                drop(node);
                return Err(worker_fault);
            }
        };
        match round_outcome {
            None => Ok((WorkerState::Joined(node), pass)),
            Some(round_outcome) => {
                let state = self.rise(rt, alloc, node, &round_outcome)?;
                Ok((state, pass))
            }
        }
    }

    // Goes on after a finished round as its verdict says.
    #[inline(never)]
    fn rise<J: Series, S: Stable, R: Wait>(
        &mut self,
        rt: &R,
        alloc: Global,
        node: Node<'a, J, S>,
        round_outcome: &RoundOutcome,
    ) -> Result<WorkerState<'a, J, S>, WorkerFault>
        requires starts { length round_outcome.now.starts ≡ node.member.n }
        requires landed { node.away ≡ false }
        ensures same { KeepsEnds self.old.links self.new.links }
        ensures risen { IfOk result (λ state. HasRisen round_outcome.now node.entry state) }
    {
        let is_back = round_outcome.verdict.back;
        if is_back {
            self.past.cut(round_outcome.verdict.r);
        }
        let node = after_round(alloc, node, round_outcome)?;
        self.up_again(rt, node, &round_outcome.verdict, is_back)
    }

    // Tells that the process is up again. It stands as the round left it, and so does its store.
    #[inline(never)]
    fn up_again<J: Series, S: Stable, R: Wait>(
        &mut self,
        rt: &R,
        node: Node<'a, J, S>,
        verdict: &Verdict,
        is_back: bool,
    ) -> Result<WorkerState<'a, J, S>, WorkerFault>
        requires { node.core.round ≡ verdict.now.round }
        ensures same { KeepsEnds self.old.links self.new.links }
        ensures place { IfOk result (λ state. state ≡ WorkerState.Up node.entry) }
    {
        self.links.tell_all_received(node.core());
        if is_back {
            self.storing.cut(verdict.r);
        }
        match self.diary.returned(rt, node.core(), verdict, is_back) {
            Ok(()) => {
                self.arrive(verdict.round);
                Ok(WorkerState::Up(node))
            }
            Err(error) => {
                drop(node);
                Err(error.into())
            }
        }
    }

    // Waits for the round to be finished, and then comes back.
    #[inline(never)]
    pub(super) fn wait_down<J: Series, S: Stable, R: Wait + Clock>(
        &mut self,
        rt: &R,
        alloc: Global,
        down_node: DownNode<'a, J, S>,
        pass: Pass<K>,
    ) -> Result<(WorkerState<'a, J, S>, Pass<K>), WorkerFault>
        requires own { down_node.own ≡ self.old.links.ends.own }
        requires size { down_node.n ≡ K.cell.n }
        ensures same { KeepsEnds self.old.links self.new.links }
        ensures place { IfOk result (λ r. member_of r.0 ≡ down_node.entry) }
        ensures landed { IfOk result (λ r. IsLanded r.0) }
        ensures turned { IfOk result (λ r. IsTurnOf K.cell.n self.old.manager_link.round (WorkerState.Down down_node.entry) r.0) }
    {
        let (round_outcome, pass) = match self.listen(rt, alloc, pass) {
            Ok(heard) => heard,
            Err(worker_fault) => {
                drop(down_node);
                return Err(worker_fault);
            }
        };
        match round_outcome {
            None => Ok((WorkerState::Down(down_node), pass)),
            Some(round_outcome) => {
                let state = self.come_back(rt, alloc, down_node, &round_outcome)?;
                Ok((state, pass))
            }
        }
    }

    // Comes back after a finished round.
    #[inline(never)]
    fn come_back<J: Series, S: Stable, R: Wait>(
        &mut self,
        rt: &R,
        alloc: Global,
        down_node: DownNode<'a, J, S>,
        round_outcome: &RoundOutcome,
    ) -> Result<WorkerState<'a, J, S>, WorkerFault>
        requires { length round_outcome.now.starts ≡ down_node.n }
        ensures same { KeepsEnds self.old.links self.new.links }
        ensures back { IfOk result (λ state. HasComeBack round_outcome.now down_node.entry state) }
    {
        self.past.cut(round_outcome.verdict.r);
        let node = down_node.come_back(alloc, &round_outcome.starts, &round_outcome.verdict)?;
        self.up_again(rt, node, &round_outcome.verdict, true)
    }

    // Returns what the manager says of a round that is finished and that the process does not know yet, if there is one. After
    // it all that is kept is sent once more.
    fn listen<R: Wait + Clock>(
        &mut self,
        rt: &R,
        alloc: Global,
        pass: Pass<K>,
    ) -> Result<(Option<RoundOutcome>, Pass<K>), WorkerFault>
        ensures same { KeepsEnds self.old.links self.new.links }
        ensures starts { IfOk result (λ r. IfSome r.0 (λ round_outcome. length round_outcome.starts ≡ K.cell.n)) }
        ensures heard { IfOk result (λ r. IfSome r.0 (λ round_outcome. WasTold K.cell.n self.old.manager_link.pid round_outcome)) }
    {
        let mut pass = pass;
        let front = self.manager_link.read(rt, &mut pass);
        if !self.manager_link.is_behind(&front) {
            self.doze(rt);
            return Ok((None, pass));
        }
        self.idle.end();
        self.links.resend();
        let (round_outcome, pass) = self.manager_link.hear(rt, alloc, pass)?;
        Ok((Some(round_outcome), pass))
    }
}
