//! All runs without failures that there can be, up to the order of receipts of different processes.

ghost use Rattle.std.specs.Prelude.{◌≡◌, ◌≤◌, ◌++◌, ◌∷◌, [], List, IfOk, IsTrue, OnOk, length, map};
ghost use Rattle.om_interval.specs.declared.pid.TheConstants.{MAX_PROCESSES};
ghost use Rattle.om_process.specs.Images.{program_of};
ghost use Rattle.om_process.specs.Process.{Program};
ghost use Rattle.om_world.specs.declared.entry.Entry.{Entry};
ghost use Rattle.om_check.specs.Explored.{IsExplored, LeadTo};
ghost use Rattle.om_check.specs.Orders.{HasAll};
ghost use Rattle.om_check.specs.Whole.{IsUnderWay};
ghost use Rattle.om_check.specs.steps.Playing.{HasDelivered, StaysARun};
ghost use Rattle.om_check.specs.steps.Walks.{HasShown, HasTaken, IsAtEnd, IsWalked, StaysAhead, taking};

use crate::ended::ended;
use crate::exploring::Explored;
use crate::fault::PlayFault;
use crate::next::next_delivery;
use crate::trail::{Trail, begun};
use crate::walk::{Choice, Walk, turn_back};
use om_interval::{MAX_PROCESSES, Pid};
use om_process::Image;
use std::alloc::{AllocError, Global};

/// Is shown runs, one after another.
pub trait Visitor {
    /// The programs whose runs it is shown.
    ghost programs: { Self → List Program };

    /// These are the runs that it was shown, one after another: what was received in each.
    ghost has_seen: { Self → List (List Entry) → Type 0 };

    /// Takes in a run.
    fn visit(&mut self, run: Explored) -> Result<(), AllocError>
        requires { IsExplored (Self.programs self.old) run }
        ensures seen { OnOk result ((runs : List (List Entry)) → Self.has_seen self.old runs → Self.has_seen self.new (runs ++ run.world.live ∷ [])) }
        ensures same { Self.programs self.new ≡ Self.programs self.old };
}

// Takes a delivery in the world and in the walk.
fn take(
    trail: &mut Trail,
    walk: &mut Walk,
    from: Pid,
    to: Pid,
    n: usize,
    limit: u64,
) -> Result<(), PlayFault>
    requires { n ≤ MAX_PROCESSES }
    ensures run { OnOk result (StaysARun trail.old.events.items trail.old.stage.world trail.new.events.items trail.new.stage.world) }
    ensures walk { OnOk result (walk.new ≡ walk.old ++ taking (record { from = from; to = to }) ∷ []) }
    ensures taken { OnOk result (HasDelivered trail.old.stage.world trail.new.stage.world from to) }
{
    trail.deliver(from, to, n, limit)?;
    walk.take(from, to)?;
    Ok(())
}

// Makes a choice anew.
fn make(
    trail: &mut Trail,
    walk: &mut Walk,
    choice: &Choice,
    n: usize,
    limit: u64,
) -> Result<(), PlayFault>
    requires few { n ≤ MAX_PROCESSES }
    requires way { IsUnderWay trail.old.stage.world.programs trail.old.stage.world }
    requires taken { HasTaken trail.old.stage.world walk.old }
    ensures run { OnOk result (StaysARun trail.old.events.items trail.old.stage.world trail.new.events.items trail.new.stage.world) }
    ensures walk { OnOk result (walk.new ≡ walk.old ++ choice.now ∷ []) }
    ensures taken { OnOk result (HasTaken trail.new.stage.world walk.new) }
{
    let from = choice.delivery.from;
    let to = choice.delivery.to;
    if choice.taken {
        take(trail, walk, from, to, n, limit)?;
        return Ok(());
    }
    walk.decline(from, to)?;
    Ok(())
}

// Makes these choices anew.
fn repeat(
    trail: &mut Trail,
    walk: &mut Walk,
    choices: &[Choice],
    n: usize,
    limit: u64,
) -> Result<(), PlayFault>
    requires few { n ≤ MAX_PROCESSES }
    requires way { IsUnderWay trail.old.stage.world.programs trail.old.stage.world }
    requires taken { HasTaken trail.old.stage.world walk.old }
    ensures run { OnOk result (StaysARun trail.old.events.items trail.old.stage.world trail.new.events.items trail.new.stage.world) }
    ensures walk { OnOk result (walk.new ≡ walk.old ++ choices.now) }
    ensures taken { OnOk result (HasTaken trail.new.stage.world walk.new) }
{
    for choice in choices {
        make(trail, walk, choice, n, limit)?;
    }
    Ok(())
}

// Goes on to where nothing can be received but what is excluded.
fn go_on(trail: &mut Trail, walk: &mut Walk, n: usize, limit: u64) -> Result<(), PlayFault>
    requires few { n ≤ MAX_PROCESSES }
    requires all { n ≡ length trail.old.stage.world.programs }
    requires way { IsUnderWay trail.old.stage.world.programs trail.old.stage.world }
    requires taken { HasTaken trail.old.stage.world walk.old }
    ensures run { OnOk result (StaysARun trail.old.events.items trail.old.stage.world trail.new.events.items trail.new.stage.world) }
    ensures taken { OnOk result (HasTaken trail.new.stage.world walk.new) }
    ensures ahead { OnOk result (StaysAhead trail.old.stage.world.programs walk.old walk.new) }
    ensures ended { OnOk result (IsAtEnd trail.new.stage.world walk.new) }
{
    for _ in 0..u64::MAX {
        let Some(delivery) = next_delivery(&trail.stage.world, walk, n)? else {
            return Ok(());
        };
        take(trail, walk, delivery.from, delivery.to, n, limit)?;
    }
    Err(PlayFault::Memory)
}

// Makes these choices anew, goes on to an end, and releases what was put out.
fn walk_on(
    trail: &mut Trail,
    walk: &mut Walk,
    choices: &[Choice],
    n: usize,
    limit: u64,
) -> Result<(), PlayFault>
    requires few { n ≤ MAX_PROCESSES }
    requires all { n ≡ length trail.old.stage.world.programs }
    requires way { IsUnderWay trail.old.stage.world.programs trail.old.stage.world }
    requires taken { HasTaken trail.old.stage.world walk.old }
    requires none { walk.old ≡ [] }
    ensures run { OnOk result (StaysARun trail.old.events.items trail.old.stage.world trail.new.events.items trail.new.stage.world) }
    ensures walked { OnOk result (IsWalked trail.old.stage.world.programs choices.now walk.new trail.new.stage.world) }
{
    repeat(trail, walk, choices, n, limit)?;
    go_on(trail, walk, n, limit)?;
    trail.release_all(n)?;
    Ok(())
}

// Goes along these choices and on to an end, where nothing can be received but what is excluded.
fn walk_along(
    alloc: Global,
    images: &[Image],
    choices: &[Choice],
    limit: u64,
) -> Result<(Vec<Choice>, Trail), PlayFault>
    requires some { 1 ≤ length images.now }
    requires few { length images.now ≤ MAX_PROCESSES }
    ensures walked { IfOk result (λ r. IsWalked (map program_of images.now) choices.now r.0.items r.1.stage.world) }
    ensures led { IfOk result (λ r. LeadTo (map program_of images.now) r.1.events.items r.1.stage.world) }
{
    let mut trail = begun(alloc, images, limit)?;
    let mut walk = Walk::new(alloc);
    match walk_on(&mut trail, &mut walk, choices, images.len(), limit) {
        Ok(()) => Ok((walk.into_choices(), trail)),
        Err(fault) => {
            drop(trail);
            Err(fault)
        }
    }
}

// Shows the run of a world of so many processes, where it is at its end.
fn show<V: Visitor>(visitor: &mut V, trail: Trail, n: usize) -> Result<(), PlayFault>
    requires few { n ≤ MAX_PROCESSES }
    requires all { n ≡ length trail.stage.world.programs }
    requires way { IsUnderWay (V.programs visitor.old) trail.stage.world }
    requires led { LeadTo (V.programs visitor.old) trail.events.items trail.stage.world }
    ensures shown { OnOk result ((runs : List (List Entry)) → V.has_seen visitor.old runs → HasShown (V.has_seen visitor.new) runs trail.stage.world n) }
    ensures same { V.programs visitor.new ≡ V.programs visitor.old }
{
    match ended(trail, n)? {
        Some(run) => {
            visitor.visit(run)?;
            Ok(())
        }
        None => Ok(()),
    }
}

/// Goes through all runs without failures of these images, each up to the order of receipts of different processes: of two runs in
/// which each process receives the same, one. Each process runs until it waits or has ended, and finishes at most `limit` instructions.
/// Says whether it was all within so many walks; some walks come to no run, since what they have declined never gets an alternative.
///
/// Refused with `Spent`, for a process that comes to its limit, and with `Memory`.
pub fn explore_all<V: Visitor>(
    alloc: Global,
    images: &[Image],
    visitor: &mut V,
    limit: u64,
    walks: u64,
) -> Result<bool, PlayFault>
    requires some { 1 ≤ length images.now }
    requires few { length images.now ≤ MAX_PROCESSES }
    requires shown { V.programs visitor.old ≡ map program_of images.now }
    requires new { V.has_seen visitor.old [] }
    ensures all { IfOk result (λ all. (runs : List (List Entry)) × V.has_seen visitor.new runs
        × (IsTrue all → HasAll (map program_of images.now) runs)) }
    ensures programs { V.programs visitor.new ≡ V.programs visitor.old }
{
    let mut choices = Vec::new(alloc);
    for _ in 0..walks {
        let (walked, trail) = walk_along(alloc, images, &choices, limit)?;
        choices = walked;
        show(visitor, trail, images.len())?;
        if !turn_back(&mut choices) {
            return Ok(true);
        }
    }
    Ok(false)
}
