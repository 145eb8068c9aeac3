//! How a log is added: to the run of its process, or to the tree.

ghost use Rattle.std.specs.Prelude.{◌≡◌, ◌+◌, None, IfSome, OnOk, OnErr, IsTrue};
ghost use Rattle.om_recover.specs.steps.Nearest.{at};
ghost use Rattle.om_recover.specs.steps.Logs.{AreLogs, ArePushed, AreSame, AreSameRuns, IsBehind, IsLaid, IsLonger, IsNextIn, IsNextInRuns, IsSameRun, log_entries};

use crate::rows::lent::Lent;
use crate::rows::trees::{Logs, Run, Vectors};
use om_interval::Pid;
use std::alloc::AllocError;
use std::collections::BTreeMap;

/// Adds a log of an interval that has none: or none, where memory is refused.
pub fn lay(logs: &mut Logs, pid: Pid, x: u32, vectors: &Lent<'_>) -> Result<(), AllocError>
    requires logs { AreLogs logs.old }
    requires free { at (log_entries logs.old) pid x ≡ None }
    ensures ok { OnOk result (IsLaid logs.old logs.new pid x vectors.now) }
    ensures err { OnErr result (AreSame logs.old logs.new) }
{
    if may_follow(&logs.runs, pid, x, vectors) {
        push(&mut logs.runs, pid, x, vectors)?;
        gather(logs, pid, x);
        return Ok(());
    }
    logs.others.insert((pid, x), vectors.kept())?;
    Ok(())
}

// Moves the logs behind an interval from the tree to the run, one on another, as far as memory allows.
fn gather(logs: &mut Logs, pid: Pid, x: u32)
    requires { AreLogs logs.old }
    ensures { AreSame logs.old logs.new }
{
    let mut last = x;
    while let Some(next) = move_next(logs, pid, last) {
        last = next;
    }
}

// Moves the log behind an interval from the tree to the run, if it may come next there.
fn move_next(logs: &mut Logs, pid: Pid, last: u32) -> Option<u32>
    requires { AreLogs logs.old }
    ensures same { AreSame logs.old logs.new }
    ensures next { IfSome result (λ next. next ≡ last + 1) }
{
    let next = last.checked_add(1)?;
    let vectors = other_at(&logs.others, pid, next)?;
    let lent = Lent::of(&vectors.vec, &vectors.got);
    if !may_follow(&logs.runs, pid, next, &lent) {
        return None;
    }
    let Ok(()) = push(&mut logs.runs, pid, next, &lent) else {
        return None;
    };
    logs.others.remove(&(pid, next));
    Some(next)
}

fn other_at(others: &BTreeMap<(Pid, u32), Vectors>, pid: Pid, x: u32) -> Option<Vectors>
    ensures { result ≡ at others.now.entries pid x }
{
    others.get(&(pid, x)).copied()
}

// Returns whether the log of an interval may come next in the process's run.
fn may_follow(runs: &[Run], pid: Pid, x: u32, vectors: &Lent<'_>) -> bool
    ensures { IsTrue result → IsNextInRuns runs.now pid x vectors.now }
{
    match runs.get(pid.index()) {
        None => false,
        Some(run) => is_behind(run, x) && run.logs.takes(vectors),
    }
}

// Returns whether an interval is the one behind a run's last, or any where it has none.
fn is_behind(run: &Run, x: u32) -> bool
    ensures { IsTrue result → IsBehind run.now x }
{
    if run.logs.is_empty() {
        return true;
    }
    match x.checked_sub(run.first) {
        None => false,
        Some(place) => place as usize == run.logs.len(),
    }
}

// Puts a log behind the process's run.
fn push(runs: &mut Vec<Run>, pid: Pid, x: u32, vectors: &Lent<'_>) -> Result<(), AllocError>
    requires { IsNextInRuns runs.old.items pid x vectors.now }
    ensures ok { OnOk result (ArePushed runs.old.items runs.new.items pid x vectors.now) }
    ensures err { OnErr result (AreSameRuns runs.old.items runs.new.items) }
{
    push_to(&mut runs[pid.index()], x, vectors)?;
    Ok(())
}

fn push_to(run: &mut Run, x: u32, vectors: &Lent<'_>) -> Result<(), AllocError>
    requires { IsNextIn run.old x vectors.now }
    ensures ok { OnOk result (IsLonger run.old run.new x vectors.now) }
    ensures err { OnErr result (IsSameRun run.old run.new) }
{
    let is_first = run.logs.is_empty();
    run.logs.push(vectors)?;
    if is_first {
        run.first = x;
    }
    Ok(())
}
