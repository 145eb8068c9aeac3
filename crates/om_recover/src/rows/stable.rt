//! Which intervals are stable.

ghost use Rattle.std.specs.Prelude.{◌≡◌, ℕ, false, ◌<◌, ◌≤◌, ◌+◌, Some, IsTrue, MatchOption};
ghost use Rattle.om_recover.specs.Recoverable.{IsStable};
ghost use Rattle.om_recover.specs.Climb.{IsLeastStable};
ghost use Rattle.om_recover.specs.steps.Climbing.{AllEndBy, EndsBy, TellsLeast};
ghost use Rattle.om_recover.specs.steps.Held.{AreIndexed, held};
ghost use Rattle.om_recover.specs.declared.rows.trees.Newest.{Newest};

use crate::rows::bases::{base_from, base_to, newest_of};
use crate::rows::trees::{Newest, Trees};
use om_interval::{DepVec, Pid};

/// Returns whether an interval of a process is stable: whether its nearest checkpoint reaches it.
pub fn is_stable_in(trees: &Trees, pid: Pid, x: u32) -> bool
    requires { AreIndexed trees.now }
    ensures yes { IsTrue result → IsStable (held trees.now) pid x }
    ensures none { result ≡ false → IsStable (held trees.now) pid x → ⊥ }
{
    match base_to(&trees.bases, pid, x) {
        None => false,
        Some((_, base)) => x <= base.last,
    }
}

/// Returns whether a process's newest checkpoint tells that no stable interval is above this one.
pub fn ends_in(trees: &Trees, pid: Pid, x: u32) -> bool
    requires { AreIndexed trees.now }
    ensures { IsTrue result → EndsBy (held trees.now) pid x }
{
    match newest_of(&trees.bases.newest, pid) {
        None => false,
        Some(newest) => newest.base.last <= x,
    }
}

/// Returns whether the newest checkpoints tell that no process has a stable interval above its place of a state.
pub fn all_end_in(trees: &Trees, state: &DepVec) -> bool
    requires { AreIndexed trees.now }
    ensures { IsTrue result → AllEndBy (held trees.now) state.now }
{
    let numbers = state.as_slice();
    let newest = trees.bases.newest.as_slice();
    if newest.len() < numbers.len() {
        return false;
    }
    for p in 0..numbers.len() {
        if !reaches_to(&newest[p], numbers[p]) {
            return false;
        }
    }
    true
}

fn reaches_to(slot: &Option<Newest>, x: u32) -> bool
    ensures { IsTrue result → (newest : Newest) × (slot.now ≡ Some newest) × (newest.base.last ≤ x) }
{
    match slot {
        None => false,
        Some(Newest { base, .. }) => base.last <= x,
    }
}

/// Returns the least stable interval of a process at or above an interval: that one, or the next checkpoint's.
pub fn least_stable_of(trees: &Trees, pid: Pid, from: u32) -> Option<u32>
    requires { AreIndexed trees.now }
    ensures { TellsLeast (held trees.now) pid from result }
{
    if is_stable_in(trees, pid, from) {
        return Some(from);
    }
    match base_from(&trees.bases, pid, from) {
        None => None,
        Some((x, _)) => Some(x),
    }
}
