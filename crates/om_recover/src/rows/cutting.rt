//! How rows above a state are cut, and those below checkpoints pruned.

ghost use Rattle.std.specs.Prelude.{◌≡◌, ℕ, ◌<◌, length, slice_index, min, nat_le};
ghost use Rattle.om_recover.specs.Cutting.{AreEffective, cut_to, pruned_to};
ghost use Rattle.om_recover.specs.Recoverable.{IsRecoverable};
ghost use Rattle.om_recover.specs.steps.Logs.{AreLogs, ArePart, AreRunsPart, IsRunPart};
ghost use Rattle.om_recover.specs.steps.Bases.{AreBases, AreBasesPart, AreNewestPart, newest_part};
ghost use Rattle.om_recover.specs.steps.Held.{AreIndexed, AreTrees, Hold, held};

use crate::rows::dropping::prune_entries;
use crate::rows::lookup::effective_of;
use crate::rows::trees::{Base, Bases, Logs, Newest, Run, Trees};
use om_interval::{DepVec, Pid};

/// Drops the rows above the state.
pub fn cut_rows(trees: &mut Trees, state: &DepVec)
    requires { AreIndexed trees.old }
    ensures { Hold trees.new (cut_to (held trees.old) state.now) }
{
    cut_logs(&mut trees.logs, state);
    cut_bases(&mut trees.bases, state);
}

fn cut_bases(bases: &mut Bases, state: &DepVec)
    requires { AreBases bases.old }
    ensures { AreBasesPart (λ place. nat_le place.1 (slice_index state.now place.0))
        (λ place base. record base { last = min base.last (slice_index state.now place.0) }) bases.old bases.new }
{
    cut_newest(&mut bases.newest, state);
    bases
        .others
        .retain(|place, base| cut_base(place, base, state));
}

fn cut_newest(newest: &mut Vec<Option<Newest>>, state: &DepVec)
    ensures { AreNewestPart (λ place. nat_le place.1 (slice_index state.now place.0))
        (λ place base. record base { last = min base.last (slice_index state.now place.0) }) newest.old.items newest.new.items }
{
    for p in 0..newest.len() {
        cut_slot(&mut newest[p], number_or_zero(state, p));
    }
}

fn cut_slot(slot: &mut Option<Newest>, to: u32)
    ensures { (p : ℕ) → slot.new ≡ newest_part (λ place. nat_le place.1 to) (λ _ base. record base { last = min base.last to }) p slot.old }
{
    let kept = match slot {
        None => false,
        Some(newest) => {
            newest.base.last = newest.base.last.min(to);
            newest.interval <= to
        }
    };
    if !kept {
        *slot = None;
    }
}

fn cut_logs(logs: &mut Logs, state: &DepVec)
    requires { AreLogs logs.old }
    ensures { ArePart (λ place. nat_le place.1 (slice_index state.now place.0)) logs.old logs.new }
{
    cut_runs(&mut logs.runs, state);
    logs.others.retain(|place, _| is_to(place, state));
}

fn cut_runs(runs: &mut Vec<Run>, state: &DepVec)
    ensures { AreRunsPart (λ place. nat_le place.1 (slice_index state.now place.0)) runs.old.items runs.new.items }
{
    for p in 0..runs.len() {
        cut_run(&mut runs[p], number_or_zero(state, p));
    }
}

fn cut_run(run: &mut Run, to: u32)
    ensures { IsRunPart (λ x. nat_le x to) run.old run.new }
{
    let kept = match to.checked_sub(run.first) {
        None => 0,
        Some(before) => before as usize + 1,
    };
    run.logs.truncate(kept);
}

// Returns whether a checkpoint is kept in a cut, which bounds how far it reaches.
fn cut_base(place: &(Pid, u32), base: &mut Base, state: &DepVec) -> bool
    ensures kept { result ≡ nat_le place.now.1 (slice_index state.now place.now.0) }
    ensures reaches { base.new ≡ record base.old { last = min base.old.last (slice_index state.now place.now.0) } }
{
    base.last = base.last.min(place_or_zero(state, place.0));
    is_to(place, state)
}

fn is_to(place: &(Pid, u32), state: &DepVec) -> bool
    ensures { result ≡ nat_le place.now.1 (slice_index state.now place.now.0) }
{
    place.1 <= place_or_zero(state, place.0)
}

/// Drops the rows below these checkpoints.
pub fn prune_rows(trees: &mut Trees, checkpoints: &DepVec)
    requires { AreIndexed trees.old }
    ensures { Hold trees.new (pruned_to (held trees.old) checkpoints.now) }
{
    prune_logs(&mut trees.logs, checkpoints);
    prune_bases(&mut trees.bases, checkpoints);
}

fn prune_bases(bases: &mut Bases, checkpoints: &DepVec)
    requires { AreBases bases.old }
    ensures { AreBasesPart (λ place. nat_le (slice_index checkpoints.now place.0) place.1) (λ _ base. base) bases.old bases.new }
{
    prune_newest(&mut bases.newest, checkpoints);
    prune_entries(&mut bases.others, checkpoints);
}

fn prune_newest(newest: &mut Vec<Option<Newest>>, checkpoints: &DepVec)
    ensures { AreNewestPart (λ place. nat_le (slice_index checkpoints.now place.0) place.1) (λ _ base. base)
        newest.old.items newest.new.items }
{
    for p in 0..newest.len() {
        prune_slot(&mut newest[p], number_or_zero(checkpoints, p));
    }
}

fn prune_slot(slot: &mut Option<Newest>, from: u32)
    ensures { (p : ℕ) → slot.new ≡ newest_part (λ place. nat_le from place.1) (λ _ base. base) p slot.old }
{
    let kept = match slot {
        None => false,
        Some(newest) => from <= newest.interval,
    };
    if !kept {
        *slot = None;
    }
}

fn prune_logs(logs: &mut Logs, checkpoints: &DepVec)
    requires { AreLogs logs.old }
    ensures { ArePart (λ place. nat_le (slice_index checkpoints.now place.0) place.1) logs.old logs.new }
{
    prune_runs(&mut logs.runs, checkpoints);
    prune_entries(&mut logs.others, checkpoints);
}

fn prune_runs(runs: &mut Vec<Run>, checkpoints: &DepVec)
    ensures { AreRunsPart (λ place. nat_le (slice_index checkpoints.now place.0) place.1) runs.old.items runs.new.items }
{
    for p in 0..runs.len() {
        prune_run(&mut runs[p], number_or_zero(checkpoints, p));
    }
}

fn prune_run(run: &mut Run, from: u32)
    ensures { IsRunPart (λ x. nat_le from x) run.old run.new }
{
    let Some(before) = from.checked_sub(run.first) else {
        return;
    };
    let gone = (before as usize).min(run.logs.len());
    run.logs.drop_front(gone);
    run.first = from;
}

fn place_or_zero(vector: &DepVec, pid: Pid) -> u32
    ensures { result ≡ slice_index vector.now pid }
{
    number_or_zero(vector, pid.index())
}

fn number_or_zero(vector: &DepVec, place: usize) -> u32
    ensures { result ≡ slice_index vector.now place }
{
    vector.as_slice().get(place).copied().unwrap_or(0)
}

/// Returns, by process, the interval of the checkpoint that is used for its place of the state.
pub fn effective_of_all(trees: &Trees, state: &DepVec) -> DepVec
    requires in_order { AreTrees trees.now }
    requires recoverable { IsRecoverable (length state.now) (held trees.now) state.now }
    ensures { AreEffective (held trees.now) state.now result }
{
    let mut checkpoints = *state;
    for p in 0..state.n() {
        let pid = Pid::at(p);
        checkpoints.set(pid, effective_of(trees, pid, state.get(pid)));
    }
    checkpoints
}
