//! A run without failures in any order.

ghost use Rattle.std.specs.Prelude.{◌≡◌, ◌≤◌, IfOk, IfSome, OnOk, length, map};
ghost use Rattle.om_interval.specs.declared.pid.TheConstants.{MAX_PROCESSES};
ghost use Rattle.om_process.specs.Images.{program_of};
ghost use Rattle.om_check.specs.Explored.{IsExplored};
ghost use Rattle.om_check.specs.steps.Playing.{StaysARun};

use crate::ended::ended;
use crate::fault::PlayFault;
use crate::trail::{Trail, begun};
use om_interval::{MAX_PROCESSES, Pid};
use om_process::Image;
use om_stable::MemStable;
use om_world::{Event, World};
use std::alloc::{AllocError, Global};

/// A message that a process which waits can receive next: the next one from this sender.
#[derive(Clone, Copy, Debug, PartialEq, Eq)]
pub struct Delivery {
    pub from: Pid,
    pub to: Pid,
}

/// Chooses the order of receipts.
pub trait Scheduler {
    /// Picks one of the deliveries that can come next by its place. With none, and with a place where there is none, the run is given up.
    fn pick(&mut self, deliveries: &[Delivery]) -> Option<usize>;
}

/// How a run without failures came to rest.
#[derive(Clone, Copy, Debug, PartialEq, Eq)]
pub enum End {
    /// Each process has ended.
    Whole,
    /// Each has ended or waits for a message that nobody sends.
    Stuck,
}

/// A run without failures at its end.
#[derive(Drop)]
pub struct Explored {
    pub world: World<MemStable>,
    /// What happened, in order.
    pub events: Vec<Event>,
    pub end: End,
}

// Returns the deliveries that can come next: by receiver, and there by sender.
fn deliveries(alloc: Global, trail: &Trail, n: usize) -> Result<Vec<Delivery>, AllocError>
    requires { n ≤ MAX_PROCESSES }
{
    let mut found = Vec::new(alloc);
    for p in 0..n {
        let to = Pid::at(p);
        if trail.waits(to) {
            add_deliveries(&mut found, trail, n, to)?;
        }
    }
    Ok(found)
}

// Adds those to one process.
fn add_deliveries(
    found: &mut Vec<Delivery>,
    trail: &Trail,
    n: usize,
    to: Pid,
) -> Result<(), AllocError>
    requires { n ≤ MAX_PROCESSES }
{
    for q in 0..n {
        let from = Pid::at(q);
        if trail.is_under_way(from, to) {
            found.push(Delivery { from, to })?;
        }
    }
    Ok(())
}

// Delivers what the scheduler picks, for as long as something can be delivered. Says whether it ended so, and was not given up.
fn deliver_all<C: Scheduler>(
    alloc: Global,
    trail: &mut Trail,
    scheduler: &mut C,
    n: usize,
    limit: u64,
) -> Result<bool, PlayFault>
    requires { n ≤ MAX_PROCESSES }
    ensures { OnOk result (StaysARun trail.old.events.items trail.old.stage.world trail.new.events.items trail.new.stage.world) }
{
    for _ in 0..u64::MAX {
        let found = deliveries(alloc, trail, n)?;
        if found.is_empty() {
            return Ok(true);
        }
        let Some(delivery) = picked(scheduler, &found) else {
            return Ok(false);
        };
        trail.deliver(delivery.from, delivery.to, n, limit)?;
    }
    Ok(false)
}

// Does the same, and releases what was put out where it ended so.
fn deliver_to_end<C: Scheduler>(
    alloc: Global,
    trail: &mut Trail,
    scheduler: &mut C,
    n: usize,
    limit: u64,
) -> Result<bool, PlayFault>
    requires { n ≤ MAX_PROCESSES }
    ensures { OnOk result (StaysARun trail.old.events.items trail.old.stage.world trail.new.events.items trail.new.stage.world) }
{
    if !deliver_all(alloc, trail, scheduler, n, limit)? {
        return Ok(false);
    }
    trail.release_all(n)?;
    Ok(true)
}

// Returns what the scheduler picks.
fn picked<C: Scheduler>(scheduler: &mut C, found: &[Delivery]) -> Option<Delivery> {
    let place = scheduler.pick(found)?;
    Some(*found.get(place)?)
}

/// Goes through one run without failures of these images. Each process runs until it waits or has ended; then the scheduler picks, again
/// and again, whose message is received next, and the receiver runs. Nobody fails, and each finishes at most `limit` instructions. None
/// where the scheduler gives the run up.
///
/// Refused with `Spent`, for the first process that comes to its limit, and with `Memory`.
pub fn explore<C: Scheduler>(
    alloc: Global,
    images: &[Image],
    scheduler: &mut C,
    limit: u64,
) -> Result<Option<Explored>, PlayFault>
    requires some { 1 ≤ length images.now }
    requires few { length images.now ≤ MAX_PROCESSES }
    ensures { IfOk result (λ run. IfSome run (IsExplored (map program_of images.now))) }
{
    let n = images.len();
    let mut trail = begun(alloc, images, limit)?;
    match deliver_to_end(alloc, &mut trail, scheduler, n, limit) {
        Ok(true) => ended(trail, n),
        Ok(false) => {
            drop(trail);
            Ok(None)
        }
        Err(fault) => {
            drop(trail);
            Err(fault)
        }
    }
}
