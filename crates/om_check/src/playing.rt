//! The run without failures that witnesses name.

ghost use Rattle.std.specs.Prelude.{◌≡◌, ◌≤◌, ◌<◌, ℕ, All, IfOk, IsTrue, OnOk, length, map};
ghost use Rattle.om_interval.specs.declared.pid.TheConstants.{MAX_PROCESSES};
ghost use Rattle.om_process.specs.Images.{program_of};
ghost use Rattle.om_world.specs.World.{IsEmpty};
ghost use Rattle.om_world.specs.Started.{IsStarted};
ghost use Rattle.om_check.specs.Whole.{IsDone, IsUnderWay, IsWhole};
ghost use Rattle.om_manager.specs.State.{process_count};

use crate::fault::PlayFault;
use crate::player::Player;
use crate::stage::Stage;
use om_interval::{MAX_PROCESSES, Pid};
use om_process::{Image, Witness};
use om_stable::MemStable;
use om_world::{Event, World};
use std::alloc::{AllocError, Global};

// Makes `n` stores that hold nothing.
fn empty_stores(alloc: Global, n: usize) -> Result<Vec<MemStable>, AllocError>
    ensures number { IfOk result (λ stores. length stores.items ≡ n) }
    ensures empty { IfOk result (λ stores. All IsEmpty stores.items) }
{
    let mut stores = Vec::new(alloc);
    for _ in 0..n {
        stores.push(MemStable::new(alloc))?;
    }
    Ok(stores)
}

// Makes the world of these images at its start.
pub(crate) fn begin(alloc: Global, images: &[Image]) -> Result<World<MemStable>, PlayFault>
    requires some { 1 ≤ length images.now }
    requires few { length images.now ≤ MAX_PROCESSES }
    ensures way { IfOk result (IsUnderWay (map program_of images.now)) }
    ensures start { IfOk result (IsStarted (map program_of images.now)) }
{
    let stores = empty_stores(alloc, images.len())?;
    match World::start(alloc, images, stores) {
        Ok(world) => Ok(world),
        Err(_) => Err(PlayFault::Memory),
    }
}

// Returns whether a process has ended, and all that it put out is released.
pub(crate) fn is_done(world: &World<MemStable>, pid: Pid) -> bool
    requires { pid < process_count world.now.manager }
    ensures { IsTrue result → IsDone world.now pid }
{
    match world.core(pid) {
        Some(core) => {
            core.status().has_ended() && world.manager().released(pid).len() as u64 == core.made()
        }
        None => false,
    }
}

// Refuses where one of so many processes has not ended.
fn all_done(world: &World<MemStable>, n: usize) -> Result<(), PlayFault>
    requires few { n ≤ MAX_PROCESSES }
    requires managed { n ≤ process_count world.now.manager }
    ensures { OnOk result ((p : ℕ) → p < n → IsDone world.now p) }
{
    for p in 0..n {
        let pid = Pid::at(p);
        if !is_done(world, pid) {
            return Err(PlayFault::NotEnded(pid));
        }
    }
    Ok(())
}

// Plays, and hands back the events that were to be kept.
fn played(
    alloc: Global,
    images: &[Image],
    witnesses: &[Witness],
    keeps: bool,
) -> Result<(World<MemStable>, Vec<Event>), PlayFault>
    requires some { 1 ≤ length images.now }
    requires few { length images.now ≤ MAX_PROCESSES }
    ensures { IfOk result (λ end. IsWhole (map program_of images.now) end.0) }
{
    let n = images.len();
    let world = begin(alloc, images)?;
    let mut player = Player {
        stage: Stage::new(alloc, world, n)?,
        witnesses,
        receipts: 0,
        keeps,
        events: Vec::new(alloc),
    };
    player.play(n)?;
    let Player { stage, events, .. } = player;
    let Stage { world, .. } = stage;
    all_done(&world, n)?;
    Ok((world, events))
}

/// Plays the run without failures of these images in which each process receives from the senders that its witness
/// lists, in order, and finishes at most as many instructions as it says; a process without a witness receives nothing and
/// finishes none. The processes go in turns, each for as long as there is a message for it, so the time is bounded by what
/// the witnesses say. Answered is the world in the end: all have ended, and all that they put out is released.
///
/// Refused with the fault that is met first: `Spent` and `NotWaiting` as the process runs or receives, `NotSent` for the
/// least process that is still to receive once none can, then `NotEnded` for the least that has not ended; and at any point
/// with `Memory`.
pub fn play(
    alloc: Global,
    images: &[Image],
    witnesses: &[Witness],
) -> Result<World<MemStable>, PlayFault>
    requires some { 1 ≤ length images.now }
    requires few { length images.now ≤ MAX_PROCESSES }
    ensures { IfOk result (IsWhole (map program_of images.now)) }
{
    let (world, _) = played(alloc, images, witnesses, false)?;
    Ok(world)
}

/// Plays as [`play`] does, and hands back beside the world what happened in it, in order: each process runs, is given its
/// frames, and stores what it received once at the end.
pub fn play_and_keep_events(
    alloc: Global,
    images: &[Image],
    witnesses: &[Witness],
) -> Result<(World<MemStable>, Vec<Event>), PlayFault>
    requires some { 1 ≤ length images.now }
    requires few { length images.now ≤ MAX_PROCESSES }
    ensures { IfOk result (λ end. IsWhole (map program_of images.now) end.0) }
{
    played(alloc, images, witnesses, true)
}
