//! How entries of a tree are dropped.

ghost use Rattle.std.specs.Prelude.{◌<◌, MatchOption};
ghost use Rattle.om_recover.specs.steps.Nearest.{at, AreSorted, AreFrom, ArePruned, IsBelowBound, HasNoneBelow};

use crate::rows::nearest::nearest_from;
use om_interval::{DepVec, Pid};
use std::collections::BTreeMap;

/// Drops the entries below these intervals, at the cost of what is dropped.
pub fn prune_entries<V: Drop>(entries: &mut BTreeMap<(Pid, u32), V>, from: &DepVec)
    requires { AreSorted entries.old.entries }
    ensures { ArePruned entries.old.entries entries.new.entries from.now }
{
    for p in 0..from.n() {
        let pid = Pid::at(p);
        drop_below(entries, pid, from.get(pid));
    }
}

// Drops a process's entries below an interval.
fn drop_below<V: Drop>(entries: &mut BTreeMap<(Pid, u32), V>, pid: Pid, from: u32)
    requires { AreSorted entries.old.entries }
    ensures { AreFrom entries.old.entries entries.new.entries pid from }
{
    while let Some(x) = first_below(entries, pid, from) {
        entries.remove(&(pid, x));
    }
}

// Returns the interval of a process's first entry, if that is below a bound.
fn first_below<V>(entries: &BTreeMap<(Pid, u32), V>, pid: Pid, from: u32) -> Option<u32>
    ensures { MatchOption result (HasNoneBelow entries.now.entries pid from) (IsBelowBound entries.now.entries pid from) }
{
    match nearest_from(entries, pid, 0) {
        Some((x, _)) if x < from => Some(x),
        _ => None,
    }
}
