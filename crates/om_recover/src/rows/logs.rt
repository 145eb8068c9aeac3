//! Look-ups of logs.

ghost use Rattle.std.specs.Prelude.{◌≡◌, ℕ, None, Some, MatchOption};
ghost use Rattle.om_recover.specs.steps.Nearest.{at, IsNearestTo, IsNearestFrom, HasNoneTo, HasNoneFrom};
ghost use Rattle.om_recover.specs.steps.Logs.{AreLogs, IsInRun, IsOutside, IsInRuns, IsOutsideRuns, log_entries, IsRunTo, IsRunFrom, HasNoRunTo, HasNoRunFrom};

use crate::rows::lent::Lent;
use crate::rows::nearest::{nearest_from, nearest_to};
use crate::rows::trees::{Logs, Run, Vectors};
use om_interval::Pid;
use std::collections::BTreeMap;

/// Returns the vectors of the log of an interval of a process, or `None` where it has none.
pub fn log_at(logs: &Logs, pid: Pid, x: u32) -> Option<Lent<'_>>
    ensures { MatchOption result
        (at (log_entries logs.now) pid x ≡ None)
        (λ vectors. at (log_entries logs.now) pid x ≡ Some vectors) }
{
    match in_runs(&logs.runs, pid, x) {
        Some(vectors) => Some(vectors),
        None => match logs.others.get(&(pid, x)) {
            None => None,
            Some(vectors) => Some(Lent::of(&vectors.vec, &vectors.got)),
        },
    }
}

fn in_runs(runs: &[Run], pid: Pid, x: u32) -> Option<Lent<'_>>
    ensures { MatchOption result (IsOutsideRuns runs.now pid x) (λ vectors. IsInRuns runs.now pid x vectors) }
{
    match runs.get(pid.index()) {
        None => None,
        Some(run) => match in_run(run, x) {
            None => None,
            Some(vectors) => Some(vectors),
        },
    }
}

fn in_run(run: &Run, x: u32) -> Option<Lent<'_>>
    ensures { MatchOption result (IsOutside run.now x) (λ vectors. IsInRun run.now x vectors) }
{
    let place = x.checked_sub(run.first)?;
    match run.logs.get(place as usize) {
        None => None,
        Some(vectors) => Some(vectors),
    }
}

/// Returns the nearest of a process's logs at or below an interval, with its own interval.
pub fn log_to(logs: &Logs, pid: Pid, to: u32) -> Option<(u32, Lent<'_>)>
    requires { AreLogs logs.now }
    ensures { MatchOption result
        (HasNoneTo (log_entries logs.now) pid to)
        (λ found. IsNearestTo (log_entries logs.now) pid to found.0 found.1) }
{
    let Some(ran) = run_to(&logs.runs, pid, to) else {
        return other_to(&logs.others, pid, to);
    };
    if ran.0 == to {
        return Some(ran);
    }
    let Some(other) = other_to(&logs.others, pid, to) else {
        return Some(ran);
    };
    if ran.0 < other.0 {
        Some(other)
    } else {
        Some(ran)
    }
}

// Returns the nearest of the logs of a process's run at or below an interval.
fn run_to(runs: &[Run], pid: Pid, to: u32) -> Option<(u32, Lent<'_>)>
    ensures { MatchOption result (HasNoRunTo runs.now pid to) (λ found. IsRunTo runs.now pid to found.0 found.1) }
{
    let run = runs.get(pid.index())?;
    let place = to.checked_sub(run.first)? as usize;
    let last = run.logs.len().checked_sub(1)?;
    if last < place {
        return Some((run.first + last as u32, run.logs.at(last)));
    }
    Some((to, run.logs.at(place)))
}

// Returns the nearest of a process's logs in the tree at or below an interval.
fn other_to(others: &BTreeMap<(Pid, u32), Vectors>, pid: Pid, to: u32) -> Option<(u32, Lent<'_>)>
    ensures { MatchOption result
        (HasNoneTo others.now.entries pid to)
        (λ found. IsNearestTo others.now.entries pid to found.0 found.1) }
{
    match nearest_to(others, pid, to) {
        None => None,
        Some((x, vectors)) => Some((x, Lent::of(&vectors.vec, &vectors.got))),
    }
}

/// Returns the nearest of a process's logs at or above an interval, with its own interval.
pub fn log_from(logs: &Logs, pid: Pid, from: u32) -> Option<(u32, Lent<'_>)>
    requires { AreLogs logs.now }
    ensures { MatchOption result
        (HasNoneFrom (log_entries logs.now) pid from)
        (λ found. IsNearestFrom (log_entries logs.now) pid from found.0 found.1) }
{
    let Some(ran) = run_from(&logs.runs, pid, from) else {
        return other_from(&logs.others, pid, from);
    };
    let Some(other) = other_from(&logs.others, pid, from) else {
        return Some(ran);
    };
    if other.0 < ran.0 {
        Some(other)
    } else {
        Some(ran)
    }
}

// Returns the nearest of the logs of a process's run at or above an interval.
fn run_from(runs: &[Run], pid: Pid, from: u32) -> Option<(u32, Lent<'_>)>
    ensures { MatchOption result (HasNoRunFrom runs.now pid from) (λ found. IsRunFrom runs.now pid from found.0 found.1) }
{
    let run = runs.get(pid.index())?;
    let place = from.saturating_sub(run.first) as usize;
    match run.logs.get(place) {
        None => None,
        Some(vectors) => Some((from.max(run.first), vectors)),
    }
}

// Returns the nearest of a process's logs in the tree at or above an interval.
fn other_from(
    others: &BTreeMap<(Pid, u32), Vectors>,
    pid: Pid,
    from: u32,
) -> Option<(u32, Lent<'_>)>
    ensures { MatchOption result
        (HasNoneFrom others.now.entries pid from)
        (λ found. IsNearestFrom others.now.entries pid from found.0 found.1) }
{
    match nearest_from(others, pid, from) {
        None => None,
        Some((x, vectors)) => Some((x, Lent::of(&vectors.vec, &vectors.got))),
    }
}
