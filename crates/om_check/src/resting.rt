//! Processes that are at rest: what each still has to receive, and how a run stands where nothing goes on by itself.

ghost use Rattle.std.specs.Prelude.{◌≡◌, ◌≤◌, ◌<◌, ◌+◌, ℕ, IfOk, IfSome, IsTrue, None, Ok, Some, false, length, slice_get, slice_index};
ghost use Rattle.om_interval.specs.declared.pid.TheConstants.{MAX_PROCESSES};
ghost use Rattle.om_manager.specs.State.{process_count};
ghost use Rattle.om_process.specs.Core.{cluster_size};
ghost use Rattle.om_process.specs.Claims.{HasEntry};
ghost use Rattle.om_world.specs.World.{WorldState};
ghost use Rattle.om_check.specs.declared.resting.Rest.{Rest};
ghost use Rattle.om_check.specs.Whole.{HasAllFrom, KeepsReceived};
ghost use Rattle.om_check.specs.steps.Playing.{HasMoreFor, IsGoingOn, IsWaitingFor, StandsAs, StandsIn};

use crate::exploring::End;
use crate::fault::PlayFault;
use om_interval::{MAX_PROCESSES, Pid};
use om_process::{ProcCore, Status};
use om_stable::MemStable;
use om_world::World;

// Returns the process where it is up, and refuses where it is not.
pub(crate) fn up(world: &World<MemStable>, pid: Pid) -> Result<&ProcCore, PlayFault>
    ensures core { IfOk result (λ core. slice_get world.now.cores pid ≡ Some (Some core.now)) }
    ensures own { IfOk result (λ core. core.now.own ≡ pid) }
    ensures size { IfOk result (λ core. cluster_size core.now.now ≡ length world.now.programs) }
{
    match world.core(pid) {
        Some(core) => Ok(core),
        None => Err(PlayFault::NotEnded(pid)),
    }
}

// Returns whether all that the one process keeps for the other, of the same cluster, was received there.
pub(crate) fn keeps_received(from: &ProcCore, to: &ProcCore, q: Pid, p: Pid) -> bool
    requires sender { from.now.own ≡ q }
    requires receiver { to.now.own ≡ p }
    requires there { p < cluster_size from.now.now }
    requires other { q < cluster_size to.now.now }
    ensures received { IsTrue result → KeepsReceived from.now to.now }
    ensures more { result ≡ false → HasMoreFor from.now to.now }
{
    let got = got_from(to, q);
    match from.outbox(p).last() {
        Some(last) => last.ssn < got,
        None => true,
    }
}

// Returns how many messages a process got from another.
fn got_from(core: &ProcCore, from: Pid) -> u32
    ensures { result ≡ slice_index core.now.now.got from }
{
    match core.got().as_slice().get(from.index()) {
        Some(number) => *number,
        None => 0,
    }
}

// How a process stands.
#[derive(Clone, Copy, Debug, PartialEq, Eq)]
pub(crate) enum Rest {
    // It has ended.
    Done,
    // It waits, and has received all that was sent to it.
    Starved,
    // It waits, and can receive something.
    GoesOn,
}

// Returns whether a process that waits, of so many, has received all that the others keep for it.
fn has_all(world: &World<MemStable>, n: usize, core: &ProcCore, p: Pid) -> Result<bool, PlayFault>
    requires few { n ≤ MAX_PROCESSES }
    requires all { n ≡ length world.now.programs }
    requires own { core.now.own ≡ p }
    requires size { cluster_size core.now.now ≡ length world.now.programs }
    requires there { p < length world.now.programs }
    ensures all { IfOk result (λ all. IsTrue all → HasAllFrom world.now core.now n) }
    ensures more { result ≡ Ok false → IsWaitingFor world.now core.now n }
{
    for q in 0..n {
        let from = up(world, Pid::at(q))?;
        if !keeps_received(from, core, Pid::at(q), p) {
            return Ok(false);
        }
    }
    Ok(true)
}

// Returns how a process, of so many, stands. Refused with `Spent` where it could run, and with `NotEnded` where something that
// it put out is not released.
fn rest_of(world: &World<MemStable>, n: usize, pid: Pid) -> Result<Rest, PlayFault>
    requires few { n ≤ MAX_PROCESSES }
    requires all { n ≡ length world.now.programs }
    requires there { pid < n }
    requires managed { pid < process_count world.now.manager }
    ensures { IfOk result (λ rest. StandsAs world.now pid n rest) }
{
    let core = up(world, pid)?;
    if world.manager().released(pid).len() as u64 != core.made() {
        return Err(PlayFault::NotEnded(pid));
    }
    match core.status() {
        Status::Ready => Err(PlayFault::Spent(pid)),
        Status::Ended(_) | Status::Trapped(_) => Ok(Rest::Done),
        Status::Waiting => {
            if has_all(world, n, core, pid)? {
                Ok(Rest::Starved)
            } else {
                Ok(Rest::GoesOn)
            }
        }
    }
}

// Returns how a world of so many processes stands, of which all that was put out is released: none where a process can receive
// something.
pub(crate) fn end_of(world: &World<MemStable>, n: usize) -> Result<Option<End>, PlayFault>
    requires few { n ≤ MAX_PROCESSES }
    requires all { n ≡ length world.now.programs }
    requires managed { n ≤ process_count world.now.manager }
    ensures some { IfOk result (λ end. IfSome end (λ end. StandsIn world.now end n)) }
    ensures none { result ≡ Ok None → IsGoingOn world.now n }
{
    let mut end = End::Whole;
    for p in 0..n {
        let rest = rest_of(world, n, Pid::at(p))?;
        match end_with(end, rest) {
            Some(next) => end = next,
            None => return Ok(None),
        }
    }
    Ok(Some(end))
}

// Returns the end with one process more: none where that can receive something.
fn end_with(end: End, rest: Rest) -> Option<End>
    ensures some { IfSome result (λ next. (w : WorldState) (p n : ℕ) → StandsIn w end p → StandsAs w p n rest → StandsIn w next (p + 1)) }
    ensures none { result ≡ None → rest ≡ Rest.GoesOn }
{
    match rest {
        Rest::Done => Some(end),
        Rest::Starved => Some(End::Stuck),
        Rest::GoesOn => None,
    }
}
