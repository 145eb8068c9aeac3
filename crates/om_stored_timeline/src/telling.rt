//! What receipts did to their process, told as a timeline.

ghost use Rattle.std.specs.Prelude.{◌≡◌, ◌∷◌, ◌++◌, [], IfErr, IfOk, IsErrOf};
ghost use Rattle.om_format.specs.CheckpointViews.{checkpoint_record};
ghost use Rattle.om_process.specs.Replays.{process_of_checkpoint};
ghost use Rattle.om_process.specs.Stored.{IsNoMatterOfContent};
ghost use Rattle.om_process.specs.declared.limits.TheConstants.{LAST_INTERVAL};
ghost use Rattle.om_process.specs.declared.replay.ReplayFault.{ReplayFault};
ghost use Rattle.om_stable.specs.Calls.{IsCleanCall, UsesStore, LeavesContent};
ghost use Rattle.om_stable.specs.Content.{Records, between, rows_of};
ghost use Rattle.om_timeline.specs.declared.deed.Deed.{Deed};
ghost use Rattle.om_world.specs.declared.event.Event.{Event};
ghost use Rattle.om_stored_timeline.specs.Following.{IsToldFrom};

use crate::following::Follower;
use crate::reading::receipts_behind;
use om_format::Checkpoint;
use om_interval::Pid;
use om_machine::Machine;
use om_process::ReplayFault;
use om_stable::Stable;
use om_timeline::{Deed, Timeline, copy_of};
use om_world::Event;
use std::alloc::{AllocError, Global};

// Makes the machine of a checkpoint.
pub(crate) fn machine_of(alloc: Global, checkpoint: &Checkpoint) -> Result<Machine, AllocError>
    ensures { IfOk result (λ machine. machine ≡ (process_of_checkpoint (checkpoint_record checkpoint.now)).machine) }
{
    let head = &checkpoint.head;
    let memory = checkpoint.memory.as_slice();
    match Machine::restore(alloc, &head.regs, head.pc, head.count, memory, head.ext) {
        Ok(machine) => Ok(machine),
        Err(_) => Err(AllocError),
    }
}

// Tells what the receipts of a store behind an interval did to process `process` of `n`, which had this machine there: before the first
// of them.
pub(crate) fn told_from<S: Stable>(
    alloc: Global,
    store: &mut S,
    process: Pid,
    n: u32,
    begin: u32,
    machine: Machine,
) -> Result<Timeline, ReplayFault>
    ensures told { IsCleanCall S.is_clean S.IsSound store.old store.new
        → IfOk result (IsToldFrom (S.content store.old).receipts process n begin machine) }
    ensures refused { IfErr result IsNoMatterOfContent }
    ensures same { LeavesContent S.content S.is_clean S.IsSound store.old store.new }
    ensures used { UsesStore S.failed S.is_clean S.IsSound store.old (IsErrOf result ReplayFault.Fault) store.new }
{
    let rows = receipts_behind(alloc, store, begin)?;
    Ok(told_of(alloc, process, n, begin, machine, &rows)?)
}

// Tells what these receipts behind an interval did to process `process` of `n`, which had this machine there.
fn told_of(
    alloc: Global,
    process: Pid,
    n: u32,
    begin: u32,
    machine: Machine,
    rows: &Vec<(u32, Vec<u8>)>,
) -> Result<Timeline, AllocError>
    ensures { IfOk result (λ t. (held : Records) → rows_of rows.now.items ≡ between held begin LAST_INTERVAL
        → IsToldFrom held process n begin machine t) }
{
    let first = copy_of(alloc, &machine)?;
    let mut follower = Follower::new(alloc, machine, process, n, begin);
    follower.follow(alloc, rows)?;
    let rest = follower.go_on();
    let (events, deeds) = ended(follower, process, rest)?;
    Timeline::told(alloc, process, n, first, events, deeds)
}

// Returns the events and deeds that the follower came along, and so many turns behind them.
fn ended(follower: Follower, process: Pid, rest: u64) -> Result<(Vec<Event>, Vec<Deed>), AllocError>
    ensures events { IfOk result (λ both. both.0.items ≡ follower.events.items ++ Event.Run process rest ∷ []) }
    ensures deeds { IfOk result (λ both. both.1.items ≡ follower.deeds.items ++ Deed.Ran rest ∷ []) }
{
    let Follower {
        mut events,
        mut deeds,
        ..
    } = follower;
    events.push(Event::Run {
        process: process.index(),
        fuel: rest,
    })?;
    deeds.push(Deed::Ran(rest))?;
    Ok((events, deeds))
}
