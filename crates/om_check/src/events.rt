//! The events of a run without failures, each by itself.

ghost use Rattle.std.specs.Prelude.{OnOk};
ghost use Rattle.om_world.specs.declared.event.Event.{Event};
ghost use Rattle.om_world.specs.World.{IsKnown};
ghost use Rattle.om_check.specs.steps.Playing.{IsTaken, KeepsKnownLive, StaysUnderWay, WasPlayed};

use crate::fault::PlayFault;
use om_interval::Pid;
use om_process::{Accept, Status};
use om_stable::MemStable;
use om_world::{Answer, Event, Refusal, World};
use std::alloc::Global;

// Runs a process until it waits or has ended, and says how many messages it sent.
pub(crate) fn run(
    world: &mut World<MemStable>,
    alloc: Global,
    pid: Pid,
    fuel: u64,
) -> Result<usize, PlayFault>
    ensures way { OnOk result (StaysUnderWay world.old world.new) }
    ensures live { OnOk result (KeepsKnownLive world.old world.new) }
    ensures played { OnOk result (WasPlayed world.old (Event.Run pid fuel) world.new) }
{
    let process = pid.index();
    let answers = world.play(alloc, &[Event::Run { process, fuel }])?;
    match answers[0] {
        Answer::Ran {
            status: Status::Ready,
            ..
        } => Err(PlayFault::Spent(pid)),
        Answer::Ran { sent, .. } => Ok(sent),
        _ => Err(PlayFault::Memory),
    }
}

// Gives a process a frame, which it takes.
pub(crate) fn give(
    world: &mut World<MemStable>,
    alloc: Global,
    pid: Pid,
    frame: usize,
) -> Result<(), PlayFault>
    ensures way { OnOk result (StaysUnderWay world.old world.new) }
    ensures live { OnOk result (IsKnown world.new → IsTaken world.old frame world.new) }
    ensures played { OnOk result (WasPlayed world.old (Event.Give pid frame) world.new) }
{
    let process = pid.index();
    let answers = world.play(alloc, &[Event::Give { process, frame }])?;
    match answers[0] {
        Answer::Given(Accept::Taken(_)) => Ok(()),
        Answer::Given(Accept::NotWaiting) => Err(PlayFault::NotWaiting(pid)),
        Answer::Given(_) => Err(PlayFault::NotSent(pid)),
        _ => Err(PlayFault::Memory),
    }
}

// Releases what a process put out.
pub(crate) fn flush(world: &mut World<MemStable>, alloc: Global, pid: Pid) -> Result<(), PlayFault>
    ensures way { OnOk result (StaysUnderWay world.old world.new) }
    ensures live { OnOk result (KeepsKnownLive world.old world.new) }
    ensures played { OnOk result (WasPlayed world.old (Event.Flush pid) world.new) }
{
    let process = pid.index();
    let answers = world.play(alloc, &[Event::Flush { process }])?;
    match answers[0] {
        Answer::Noted(_) => Ok(()),
        _ => Err(PlayFault::Memory),
    }
}

// Stores the state of a process, where it is not stored yet.
pub(crate) fn checkpoint(
    world: &mut World<MemStable>,
    alloc: Global,
    pid: Pid,
) -> Result<(), PlayFault>
    ensures way { OnOk result (StaysUnderWay world.old world.new) }
    ensures live { OnOk result (KeepsKnownLive world.old world.new) }
    ensures played { OnOk result (WasPlayed world.old (Event.Checkpoint pid) world.new) }
{
    let process = pid.index();
    let answers = world.play(alloc, &[Event::Checkpoint { process }])?;
    match answers[0] {
        Answer::Noted(_) | Answer::Refused(Refusal::Present) => Ok(()),
        _ => Err(PlayFault::Memory),
    }
}

// Drops what the manager and the stores need not keep.
pub(crate) fn prune(world: &mut World<MemStable>, alloc: Global) -> Result<(), PlayFault>
    ensures way { OnOk result (StaysUnderWay world.old world.new) }
    ensures live { OnOk result (KeepsKnownLive world.old world.new) }
    ensures played { OnOk result (WasPlayed world.old (Event.Prune) world.new) }
{
    let answers = world.play(alloc, &[Event::Prune])?;
    match answers[0] {
        Answer::Pruned => Ok(()),
        _ => Err(PlayFault::Memory),
    }
}

// Drops what a process need not keep.
pub(crate) fn trim(world: &mut World<MemStable>, alloc: Global, pid: Pid) -> Result<(), PlayFault>
    ensures way { OnOk result (StaysUnderWay world.old world.new) }
    ensures live { OnOk result (KeepsKnownLive world.old world.new) }
    ensures played { OnOk result (WasPlayed world.old (Event.Trim pid) world.new) }
{
    let process = pid.index();
    let answers = world.play(alloc, &[Event::Trim { process }])?;
    match answers[0] {
        Answer::Trimmed => Ok(()),
        _ => Err(PlayFault::Memory),
    }
}
