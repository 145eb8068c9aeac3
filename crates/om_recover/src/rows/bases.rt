//! Look-ups of checkpoints.

ghost use Rattle.std.specs.Prelude.{◌≡◌, ◌<◌, None, Some, MatchOption};
ghost use Rattle.om_recover.specs.steps.Nearest.{at, IsNearestTo, IsNearestFrom, HasNoneTo, HasNoneFrom};
ghost use Rattle.om_recover.specs.steps.Bases.{AreBases, IsNewest, HasNoNewest, base_entries};

use crate::rows::nearest::{nearest_from, nearest_to};
use crate::rows::trees::{Base, Bases, Newest};
use om_interval::Pid;
use std::collections::BTreeMap;

/// Returns the checkpoint of an interval of a process, or `None` where it has none.
pub fn base_at(bases: &Bases, pid: Pid, x: u32) -> Option<&Base>
    requires { AreBases bases.now }
    ensures { MatchOption result (at (base_entries bases.now) pid x ≡ None) (λ base. at (base_entries bases.now) pid x ≡ Some base.now) }
{
    let Some(newest) = newest_of(&bases.newest, pid) else {
        return other_at(&bases.others, pid, x);
    };
    if newest.interval < x {
        return None;
    }
    if newest.interval == x {
        return Some(&newest.base);
    }
    other_at(&bases.others, pid, x)
}

pub(crate) fn newest_of(newest: &[Option<Newest>], pid: Pid) -> Option<&Newest>
    ensures { MatchOption result (HasNoNewest newest.now pid) (λ found. IsNewest newest.now pid found.now.interval found.now.base) }
{
    match newest.get(pid.index()) {
        None => None,
        Some(slot) => match slot {
            None => None,
            Some(found) => Some(found),
        },
    }
}

fn other_at(others: &BTreeMap<(Pid, u32), Base>, pid: Pid, x: u32) -> Option<&Base>
    ensures { MatchOption result (at others.now.entries pid x ≡ None) (λ base. at others.now.entries pid x ≡ Some base.now) }
{
    match others.get(&(pid, x)) {
        None => None,
        Some(base) => Some(base),
    }
}

/// Returns the nearest of a process's checkpoints at or below an interval, with its own interval.
pub fn base_to(bases: &Bases, pid: Pid, to: u32) -> Option<(u32, &Base)>
    requires { AreBases bases.now }
    ensures { MatchOption result
        (HasNoneTo (base_entries bases.now) pid to)
        (λ found. IsNearestTo (base_entries bases.now) pid to found.0 found.1.now) }
{
    let Some(newest) = newest_of(&bases.newest, pid) else {
        return nearest_to(&bases.others, pid, to);
    };
    if newest.interval <= to {
        return Some((newest.interval, &newest.base));
    }
    nearest_to(&bases.others, pid, to)
}

/// Returns the nearest of a process's checkpoints at or above an interval, with its own interval.
pub fn base_from(bases: &Bases, pid: Pid, from: u32) -> Option<(u32, &Base)>
    requires { AreBases bases.now }
    ensures { MatchOption result
        (HasNoneFrom (base_entries bases.now) pid from)
        (λ found. IsNearestFrom (base_entries bases.now) pid from found.0 found.1.now) }
{
    let Some(newest) = newest_of(&bases.newest, pid) else {
        return nearest_from(&bases.others, pid, from);
    };
    if newest.interval < from {
        return None;
    }
    let Some(other) = nearest_from(&bases.others, pid, from) else {
        return Some((newest.interval, &newest.base));
    };
    Some(other)
}
