//! How a row is added.

ghost use Rattle.std.specs.Prelude.{◌≡◌, ℕ, ◌<◌, ◌≤◌, ◌+◌, ◌^◌, OnOk, OnErr, Some, IsTrue, ◌↔◌, IsSome, MatchOption};
ghost use Rattle.std.specs.FinSet as set;
ghost use Rattle.om_recover.specs.Rows.{Has, IsLawful};
ghost use Rattle.om_recover.specs.steps.Held.{AreIndexed, AreTrees, Hold, IsFree, IsRun, IsNextOfRun, EndsRun, Reaches, held, AreLawful};
ghost use Rattle.om_recover.specs.steps.Nearest.{at};
ghost use Rattle.om_recover.specs.steps.Bases.{AreBases, base_entries};
ghost use Rattle.om_recover.specs.steps.Logs.{log_entries};
ghost use Rattle.om_recover.specs.declared.row.RowKind.TheVariants.{Checkpoint, Log};

use crate::row::{Row, RowKind};
use crate::rows::bases::{base_at, base_to};
use crate::rows::laying::lay;
use crate::rows::lent::Lent;
use crate::rows::logs::log_at;
use crate::rows::storing::{set_last, store};
use crate::rows::trees::{Base, Trees, Vectors};
use om_interval::Pid;
use std::alloc::AllocError;

/// Adds a row of which there is no record of its kind: or none, where memory is refused.
pub fn add(trees: &mut Trees, row: &Row) -> Result<(), AllocError>
    requires indexed { AreIndexed trees.old }
    requires lawful { AreLawful trees.old }
    requires free { IsFree (held trees.old) row.now }
    ensures ok { OnOk result (Hold trees.new (set.insert (held trees.old) row.now)) }
    ensures err { OnErr result (Hold trees.new (held trees.old)) }
{
    match row.kind {
        RowKind::Checkpoint => add_checkpoint(trees, row),
        RowKind::Log => add_log(trees, row),
    }
}

fn add_checkpoint(trees: &mut Trees, row: &Row) -> Result<(), AllocError>
    requires indexed { AreIndexed trees.old }
    requires lawful { AreLawful trees.old }
    requires free { IsFree (held trees.old) row.now }
    requires kind { row.now.kind ≡ Checkpoint }
    ensures ok { OnOk result (Hold trees.new (set.insert (held trees.old) row.now)) }
    ensures err { OnErr result (Hold trees.new (held trees.old)) }
{
    let last = reach_of(trees, row);
    let vectors = Vectors {
        vec: row.vec,
        got: row.got,
    };
    let base = Base { vectors, last };
    store(&mut trees.bases, row.pid, row.interval, base)?;
    Ok(())
}

fn add_log(trees: &mut Trees, row: &Row) -> Result<(), AllocError>
    requires indexed { AreIndexed trees.old }
    requires lawful { AreLawful trees.old }
    requires free { IsFree (held trees.old) row.now }
    requires kind { row.now.kind ≡ Log }
    ensures ok { OnOk result (Hold trees.new (set.insert (held trees.old) row.now)) }
    ensures err { OnErr result (Hold trees.new (held trees.old)) }
{
    let vectors = Lent::of(&row.vec, &row.got);
    lay(&mut trees.logs, row.pid, row.interval, &vectors)?;
    if let Some((x, base)) = base_to(&trees.bases, row.pid, row.interval) {
        if is_next(base.last, row.interval) {
            let last = last_of_run(trees, row.pid, row.interval);
            set_last(&mut trees.bases, row.pid, x, last);
        }
    }
    Ok(())
}

// Returns how far a new checkpoint reaches: as the one before it, where that reaches this one, else along the logs that follow.
fn reach_of(trees: &Trees, row: &Row) -> u32
    requires indexed { AreIndexed trees.now }
    requires lawful { (n : ℕ) × IsLawful n (held trees.now) }
    requires kind { row.now.kind ≡ Checkpoint }
    ensures { Reaches (set.insert (held trees.now) row.now) row.now.pid row.now.interval result }
{
    match base_to(&trees.bases, row.pid, row.interval) {
        Some((_, base)) if row.interval <= base.last => base.last,
        _ => last_of_run(trees, row.pid, row.interval),
    }
}

fn is_next(last: u32, x: u32) -> bool
    ensures { IsTrue result ↔ (last + 1 ≡ x) }
{
    last < x && x - last == 1
}

// Returns the last of the logs that follow on an interval, one on another, below the next checkpoint.
fn last_of_run(trees: &Trees, pid: Pid, x: u32) -> u32
    requires { AreTrees trees.now }
    ensures { IsRun (held trees.now) pid x result }
{
    let mut last = x;
    while let Some(y) = next_of_run(trees, pid, last) {
        last = y;
    }
    last
}

fn next_of_run(trees: &Trees, pid: Pid, last: u32) -> Option<u32>
    requires { AreTrees trees.now }
    ensures { MatchOption result (EndsRun (held trees.now) pid last) (IsNextOfRun (held trees.now) pid last) }
{
    let y = last.checked_add(1)?;
    if is_log(trees, pid, y) && !is_base(trees, pid, y) {
        Some(y)
    } else {
        None
    }
}

fn is_log(trees: &Trees, pid: Pid, x: u32) -> bool
    ensures { IsTrue result ↔ IsSome (at (log_entries trees.now.logs) pid x) }
{
    match log_at(&trees.logs, pid, x) {
        None => false,
        Some(_) => true,
    }
}

fn is_base(trees: &Trees, pid: Pid, x: u32) -> bool
    requires { AreBases trees.now.bases }
    ensures { IsTrue result ↔ IsSome (at (base_entries trees.now.bases) pid x) }
{
    match base_at(&trees.bases, pid, x) {
        None => false,
        Some(_) => true,
    }
}
