//! What can be received next.

ghost use Rattle.std.specs.Prelude.{◌≡◌, ◌⊎◌, ◌≤◌, ◌<◌, ℕ, IsTrue, None, Ok, length};
ghost use Rattle.om_interval.specs.declared.pid.TheConstants.{MAX_PROCESSES};
ghost use Rattle.om_process.specs.Core.{cluster_size};
ghost use Rattle.om_check.specs.Whole.{KeepsReceived};
ghost use Rattle.om_check.specs.steps.Walks.{IsExcluded, IsPassed, IsPassedFrom};

use crate::exploring::Delivery;
use crate::fault::PlayFault;
use crate::resting::{keeps_received, up};
use crate::walk::Walk;
use om_interval::{MAX_PROCESSES, Pid};
use om_process::{ProcCore, Status};
use om_stable::MemStable;
use om_world::World;

// Returns whether nothing is to be received from a process: all that it keeps for the receiver was received, or the delivery is
// excluded.
fn is_passed(sender: &ProcCore, core: &ProcCore, walk: &Walk, from: Pid, to: Pid) -> bool
    requires sender { sender.now.own ≡ from }
    requires receiver { core.now.own ≡ to }
    requires there { to < cluster_size sender.now.now }
    requires other { from < cluster_size core.now.now }
    ensures { IsTrue result → KeepsReceived sender.now core.now ⊎ IsExcluded walk.now (record { from = from; to = core.now.own }) }
{
    if keeps_received(sender, core, from, to) {
        return true;
    }
    walk.is_excluded(from, to)
}

// Returns the next delivery to a process that waits, of so many: from the first sender that has something and is not excluded.
fn next_to(
    world: &World<MemStable>,
    walk: &Walk,
    n: usize,
    core: &ProcCore,
    to: Pid,
) -> Result<Option<Delivery>, PlayFault>
    requires few { n ≤ MAX_PROCESSES }
    requires all { n ≡ length world.now.programs }
    requires own { core.now.own ≡ to }
    requires size { cluster_size core.now.now ≡ length world.now.programs }
    requires there { to < length world.now.programs }
    ensures { result ≡ Ok None → IsPassedFrom world.now walk.now core.now n }
{
    for q in 0..n {
        let from = Pid::at(q);
        let sender = up(world, from)?;
        if !is_passed(sender, core, walk, from, to) {
            return Ok(Some(Delivery { from, to }));
        }
    }
    Ok(None)
}

// Returns the next delivery to a process, of so many, where it waits.
fn next_at(
    world: &World<MemStable>,
    walk: &Walk,
    n: usize,
    pid: Pid,
) -> Result<Option<Delivery>, PlayFault>
    requires few { n ≤ MAX_PROCESSES }
    requires all { n ≡ length world.now.programs }
    requires there { pid < n }
    ensures { result ≡ Ok None → IsPassed world.now walk.now n pid }
{
    let core = up(world, pid)?;
    match core.status() {
        Status::Ready => Err(PlayFault::Spent(pid)),
        Status::Waiting => next_to(world, walk, n, core, pid),
        Status::Ended(_) | Status::Trapped(_) => Ok(None),
    }
}

// Returns the next delivery in a world of so many processes: none where all that can be received is excluded.
pub(crate) fn next_delivery(
    world: &World<MemStable>,
    walk: &Walk,
    n: usize,
) -> Result<Option<Delivery>, PlayFault>
    requires few { n ≤ MAX_PROCESSES }
    requires all { n ≡ length world.now.programs }
    ensures { result ≡ Ok None → (p : ℕ) → p < n → IsPassed world.now walk.now n p }
{
    for p in 0..n {
        if let Some(delivery) = next_at(world, walk, n, Pid::at(p))? {
            return Ok(Some(delivery));
        }
    }
    Ok(None)
}
