//! The turns of a worker, to its process's end.

ghost use Rattle.std.specs.Prelude.{◌≡◌, ◌<◌, ◌≤◌, All, false, IfErr, IfOk, IsTrue, OnOk, length};
ghost use Rattle.om_node.specs.Ends.{IsWholeRun};
ghost use Rattle.om_process.specs.Core.{IsEnd};
ghost use Rattle.om_cluster.specs.Ends.{IsEndOf};
ghost use Rattle.om_report.specs.Faults.{IsFaultBy};
ghost use Rattle.om_worker.specs.steps.Turning.{IsTurned};
ghost use Rattle.om_worker_parts.specs.Places.{IsProcessOf, IsLanded, member_of};
ghost use Rattle.om_links.specs.Links.{KeepsEnds};

use crate::worker::Worker;
use om_board::{Naming, Pass};
use om_cluster::{Finished, run_fault};
use om_node::Node;
use om_process::Status;
use om_report::{Harvest, RunFault};
use om_stable::{Ledger, Stable};
use om_tickets::Series;
use om_worker_parts::WorkerState;
use std::alloc::Global;
use std::sync::Wait;
use std::sync::atomic::AtomicBool;
use std::sync::atomic::Ordering::SeqCst;
use std::time::Clock;

// What a turn of a worker leads to.
#[derive(Drop)]
pub(crate) enum AfterTurn<'a, K: Naming, J: Series, S: Stable> {
    // There are more.
    On(WorkerState<'a, J, S>, Pass<K>),
    // All processes are quiet: how this one ended, its outputs, and its store.
    Over(Status, Harvest<K>, S),
}

// Ends a process of which as many outputs are released as it made. Until they are it goes on.
#[inline(never)]
fn leave<'a, K: Naming, J: Series, S: Stable, R: Wait>(
    rt: &R,
    alloc: Global,
    worker: &mut Worker<'a, K>,
    mut node: Node<'a, J, S>,
    pass: Pass<K>,
) -> Result<AfterTurn<'a, K, J, S>, RunFault>
    requires own { node.member.own ≡ worker.old.links.ends.own }
    requires size { node.member.n ≡ K.cell.n }
    requires landed { node.away ≡ false }
    ensures same { KeepsEnds worker.old.links worker.new.links }
    ensures turned { IfOk result (λ t. IsTurned S.is_clean node.entry.member t) }
    ensures fault { IfErr result (IsFaultBy worker.old.links.ends.own) }
{
    worker.drop_released(rt, &mut node);
    let harvest = match worker.harvest(rt, alloc, node.core().made()) {
        Ok(Some(harvest)) => harvest,
        Ok(None) => return Ok(AfterTurn::On(WorkerState::Up(node), pass)),
        Err(worker_fault) => {
            drop(node);
            return Err(run_fault(worker_fault, worker.pid()));
        }
    };
    worker.end(node.core().machine().count());
    match node.end() {
        Ok((status, store)) => Ok(AfterTurn::Over(status, harvest, store)),
        Err(node) => Ok(AfterTurn::On(WorkerState::Up(node), pass)),
    }
}

// Takes one turn of a worker.
#[inline(never)]
fn take_turn<'a, K: Naming, J: Series, S: Ledger, R: Wait + Clock>(
    rt: &R,
    alloc: Global,
    worker: &mut Worker<'a, K>,
    state: WorkerState<'a, J, S>,
    pass: Pass<K>,
) -> Result<AfterTurn<'a, K, J, S>, RunFault>
    requires process { IsProcessOf S.is_clean K.OverClean K.programs K.cell.n worker.old.links.ends.own (member_of state) }
    requires landed { IsLanded state }
    ensures same { KeepsEnds worker.old.links worker.new.links }
    ensures turned { IfOk result (λ t. IsTurned S.is_clean (member_of state.entry) t) }
    ensures fault { IfErr result (IsFaultBy worker.old.links.ends.own) }
{
    let (state, pass) = match worker.shown_turn(rt, alloc, state, pass) {
        Ok(turned) => turned,
        Err(worker_fault) => return Err(run_fault(worker_fault, worker.pid())),
    };
    match state {
        WorkerState::AllQuiet(node) => leave(rt, alloc, worker, node, pass),
        state => Ok(AfterTurn::On(state, pass)),
    }
}

// Takes the turns of a worker until all are quiet, and returns how its process ended, its outputs, and its
// store.
fn turns_until_over<'a, K: Naming, J: Series, S: Ledger, R: Wait + Clock>(
    rt: &R,
    alloc: Global,
    turns: u64,
    stop: &AtomicBool,
    worker: &mut Worker<'a, K>,
    state: WorkerState<'a, J, S>,
    pass: Pass<K>,
) -> Result<(Status, Harvest<K>, S), RunFault>
    requires process { IsProcessOf S.is_clean K.OverClean K.programs K.cell.n worker.old.links.ends.own (member_of state) }
    requires landed { IsLanded state }
    ensures same { KeepsEnds worker.old.links worker.new.links }
    ensures ended { IfOk result (λ end. IsEnd end.0) }
    ensures own { let m = member_of state.entry in IfOk result (λ end. end.1.own ≡ m.own) }
    ensures whole { let m = member_of state.entry in IfOk result (λ end. IsTrue (S.is_clean end.2)
        → IsWholeRun m.program m.own m.n end.0 (length end.1.outputs.items)) }
    ensures given { OnOk result (1 ≤ turns) }
    ensures fault { IfErr result (IsFaultBy worker.old.links.ends.own) }
{
    let mut pass = pass;
    let mut state = state;
    let mut left = turns;
    while left > 0 {
        worker.allow(left);
        left -= 1;
        if stop.load(SeqCst) {
            break;
        }
        match take_turn(rt, alloc, worker, state, pass)? {
            AfterTurn::On(next, met) => {
                left = left.saturating_sub(worker.extra());
                state = next;
                pass = met;
            }
            AfterTurn::Over(status, harvest, store) => return Ok((status, harvest, store)),
        }
    }
    // Dropped by a call: at the end of the scope each part of each place would be dropped in turn.
    drop(state);
    Err(RunFault::Turns(worker.pid()))
}

// Takes the turns of a worker until all are quiet, and returns its ends too, which it gives up then.
pub(crate) fn take_turns<'a, K: Naming, J: Series, S: Ledger, R: Wait + Clock>(
    rt: &R,
    alloc: Global,
    turns: u64,
    stop: &AtomicBool,
    worker: Worker<'a, K>,
    state: WorkerState<'a, J, S>,
    pass: Pass<K>,
) -> Result<Finished<K, S>, RunFault>
    requires process { IsProcessOf S.is_clean K.OverClean K.programs K.cell.n worker.links.ends.own (member_of state) }
    requires landed { IsLanded state }
    ensures end { let m = member_of state.entry in
        IfOk result (λ f. IsEndOf S.is_clean m.program worker.entry.links.ends.lines m.own m.n f) }
    ensures given { OnOk result (1 ≤ turns) }
    ensures fault { IfErr result (IsFaultBy worker.entry.links.ends.own) }
{
    let mut worker = worker;
    let (status, harvest, store) = turns_until_over(
        rt,
        alloc,
        turns,
        stop,
        &mut worker,
        state,
        pass,
    )?;
    let (ends, witness) = worker.into_ends();
    Ok(Finished {
        status,
        harvest,
        store,
        ends,
        witness,
    })
}
