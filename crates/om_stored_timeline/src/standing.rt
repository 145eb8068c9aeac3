//! In which interval the process of a store stands at first.

ghost use Rattle.std.specs.Prelude.{◌≡◌, ◌≤◌, IfErr, IfOk, IsErrOf, None, Ok, Some, false, length, true};
ghost use Rattle.om_format.specs.CheckpointViews.{checkpoint_record};
ghost use Rattle.om_process.specs.Stored.{anyone, BeginsWith, IsNoMatterOfContent, IsReplay, Refuses};
ghost use Rattle.om_process.specs.declared.limits.TheConstants.{LAST_INTERVAL};
ghost use Rattle.om_process.specs.declared.replay.ReplayFault.{ReplayFault};
ghost use Rattle.om_process.specs.steps.Rows.{RefusesStart};
ghost use Rattle.om_stable.specs.Calls.{IsCleanCall, UsesStore, LeavesContent};
ghost use Rattle.om_stable.specs.Content.{Content, between, rows_of};
ghost use Rattle.om_stored_timeline.specs.Stored.{IsLastStored, IsStored, IsStoredAt, IsTimelineAt, RefusesStored, event_of};
ghost use Rattle.om_timeline.specs.Timeline.{TimelineState, at, machine_here};

use crate::following::Follower;
use crate::reading::{beginning, receipts_behind};
use crate::telling::{machine_of, told_from};
use om_format::Checkpoint;
use om_interval::Pid;
use om_machine::Machine;
use om_process::{LAST_INTERVAL, ProcCore, ReplayFault};
use om_stable::Stable;
use om_timeline::{Position, Timeline, copy_of};
use std::alloc::{AllocError, Global};

/// The process of a store at any moment that the store knows of.
#[derive(Drop)]
pub struct StoredTimeline {
    pub process: Pid,
    pub timeline: Timeline,
}

/// Tells what the receipts of a store did to its process, which stands right behind its receipt of an interval: of this one, or else of the
/// last to which the receipts behind the greatest checkpoint lead. Before it stands all from the checkpoint at or below the interval on, and
/// behind it all that is stored without a gap. The store keeps its content. Refused as a replay to the interval is.
pub fn stored_timeline<S: Stable>(
    alloc: Global,
    store: &mut S,
    interval: Option<u32>,
) -> Result<StoredTimeline, ReplayFault>
    ensures stands { IsCleanCall S.is_clean S.IsSound store.old store.new → IfOk result (IsStored (S.content store.old) interval) }
    ensures refused { IsCleanCall S.is_clean S.IsSound store.old store.new → IfErr result (RefusesStored (S.content store.old) interval) }
    ensures same { LeavesContent S.content S.is_clean S.IsSound store.old store.new }
    ensures used { UsesStore S.failed S.is_clean S.IsSound store.old (IsErrOf result ReplayFault.Fault) store.new }
{
    match interval {
        Some(x) => at_interval(alloc, store, x),
        None => at_last(alloc, store),
    }
}

// Makes the timeline that stands right behind the last receipt.
fn at_last<S: Stable>(alloc: Global, store: &mut S) -> Result<StoredTimeline, ReplayFault>
    ensures stands { IsCleanCall S.is_clean S.IsSound store.old store.new → IfOk result (IsStored (S.content store.old) None) }
    ensures refused { IsCleanCall S.is_clean S.IsSound store.old store.new → IfErr result (RefusesStored (S.content store.old) None) }
    ensures same { LeavesContent S.content S.is_clean S.IsSound store.old store.new }
    ensures used { UsesStore S.failed S.is_clean S.IsSound store.old (IsErrOf result ReplayFault.Fault) store.new }
{
    let x = last_of(alloc, store)?;
    at_interval(alloc, store, x)
}

// Returns the last interval to which the receipts behind the greatest checkpoint lead.
fn last_of<S: Stable>(alloc: Global, store: &mut S) -> Result<u32, ReplayFault>
    ensures last { IsCleanCall S.is_clean S.IsSound store.old store.new → IfOk result (IsLastStored (S.content store.old)) }
    ensures refused { IsCleanCall S.is_clean S.IsSound store.old store.new → IfErr result (RefusesStart (S.content store.old) LAST_INTERVAL) }
    ensures same { LeavesContent S.content S.is_clean S.IsSound store.old store.new }
    ensures used { UsesStore S.failed S.is_clean S.IsSound store.old (IsErrOf result ReplayFault.Fault) store.new }
{
    let checkpoint = beginning(alloc, store, LAST_INTERVAL)?;
    let rows = receipts_behind(alloc, store, checkpoint.head.interval)?;
    Ok(last_along(alloc, &checkpoint, &rows)?)
}

// Returns the last interval to which these rows lead behind a checkpoint.
fn last_along(
    alloc: Global,
    checkpoint: &Checkpoint,
    rows: &Vec<(u32, Vec<u8>)>,
) -> Result<u32, AllocError>
    ensures { IfOk result (λ x. (held : Content) → BeginsWith anyone held LAST_INTERVAL (checkpoint_record checkpoint.now)
        → rows_of rows.now.items ≡ between held.receipts checkpoint.now.head.interval LAST_INTERVAL → IsLastStored held x) }
{
    let machine = machine_of(alloc, checkpoint)?;
    let head = &checkpoint.head;
    let n = head.vec.n() as u32;
    let mut follower = Follower::new(alloc, machine, head.pid, n, head.interval);
    follower.follow(alloc, rows)?;
    Ok(follower.interval)
}

// Makes the timeline that stands right behind the receipt of interval `x`.
fn at_interval<S: Stable>(
    alloc: Global,
    store: &mut S,
    x: u32,
) -> Result<StoredTimeline, ReplayFault>
    ensures stands { IsCleanCall S.is_clean S.IsSound store.old store.new → IfOk result (IsStoredAt (S.content store.old) x) }
    ensures refused { IsCleanCall S.is_clean S.IsSound store.old store.new → IfErr result (Refuses anyone (S.content store.old) x) }
    ensures same { LeavesContent S.content S.is_clean S.IsSound store.old store.new }
    ensures used { UsesStore S.failed S.is_clean S.IsSound store.old (IsErrOf result ReplayFault.Fault) store.new }
{
    let checkpoint = beginning(alloc, store, x)?;
    let there = ProcCore::replay(alloc, store, x)?;
    let timeline = timeline_at(alloc, store, x, &checkpoint, &there)?;
    Ok(StoredTimeline {
        process: checkpoint.head.pid,
        timeline,
    })
}

// Makes the timeline from a checkpoint on, at interval `x`; where the machine alone does not come to that of the replay, from there on.
fn timeline_at<S: Stable>(
    alloc: Global,
    store: &mut S,
    x: u32,
    checkpoint: &Checkpoint,
    there: &ProcCore,
) -> Result<Timeline, ReplayFault>
    ensures stands { IsCleanCall S.is_clean S.IsSound store.old store.new → BeginsWith anyone (S.content store.old) x (checkpoint_record checkpoint.now)
        → IsReplay (S.content store.old) x there.now
        → IfOk result (IsTimelineAt (S.content store.old) x checkpoint.now.head.pid) }
    ensures refused { IfErr result IsNoMatterOfContent }
    ensures same { LeavesContent S.content S.is_clean S.IsSound store.old store.new }
    ensures used { UsesStore S.failed S.is_clean S.IsSound store.old (IsErrOf result ReplayFault.Fault) store.new }
{
    let head = &checkpoint.head;
    let (process, n, begin) = (head.pid, head.vec.n() as u32, head.interval);
    let first = machine_of(alloc, checkpoint)?;
    let timeline = told_from(alloc, store, process, n, begin, first)?;
    match standing_at(alloc, timeline, event_of(begin, x), there.machine())? {
        Some(timeline) => Ok(timeline),
        None => {
            let first = copy_of(alloc, there.machine())?;
            told_from(alloc, store, process, n, x, first)
        }
    }
}

// Returns a timeline as it stands before an event, where the machine there is this one; none where it is another. Whatever does not
// stand there is dropped here, so that its owner above has nothing to drop.
fn standing_at(
    alloc: Global,
    mut timeline: Timeline,
    event: usize,
    machine: &Machine,
) -> Result<Option<Timeline>, AllocError>
    ensures at { (t : TimelineState) → result ≡ Ok (Some t) → t ≡ at timeline event 0 }
    ensures here { (t : TimelineState) → result ≡ Ok (Some t) → machine_here t ≡ machine.now }
    ensures elsewhere { result ≡ Ok None → event ≤ length timeline.deeds → machine_here (at timeline event 0) ≡ machine.now → ⊥ }
{
    match stands(alloc, &mut timeline, event, machine) {
        Ok(true) => Ok(Some(timeline)),
        Ok(false) => Ok(None),
        Err(_) => Err(AllocError),
    }
}

// Returns the event right behind the receipt of interval `x`, of a timeline that begins in another one.
fn event_of(begin: u32, x: u32) -> usize
    ensures { result ≡ event_of begin x }
{
    2 * x.saturating_sub(begin) as usize
}

// Goes to before an event, and answers whether the machine there is this one.
fn stands(
    alloc: Global,
    timeline: &mut Timeline,
    event: usize,
    machine: &Machine,
) -> Result<bool, AllocError>
    ensures at { IfOk result (λ here. here ≡ true → timeline.new ≡ at timeline.old event 0) }
    ensures here { IfOk result (λ here. here ≡ true → machine_here timeline.new ≡ machine.now) }
    ensures elsewhere { IfOk result (λ here. here ≡ false → event ≤ length timeline.old.deeds
        → machine_here (at timeline.old event 0) ≡ machine.now → ⊥) }
{
    let to = Position { event, turns: 0 };
    if !timeline.go_to(alloc, to)? {
        return Ok(false);
    }
    Ok(timeline.machine() == machine)
}
