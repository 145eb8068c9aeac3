//! The rows of processes at their start.

ghost use Rattle.std.specs.Prelude.{◌≡◌, ℕ, ◌<◌, ◌≤◌, IfOk, OnOk};
ghost use Rattle.std.specs.FinSet as set;
ghost use Rattle.om_interval.specs.declared.pid.TheConstants.{MAX_PROCESSES};
ghost use Rattle.om_recover.specs.Records.{first_row};
ghost use Rattle.om_recover.specs.steps.Bases.{HasNoNewest, HaveNoBases};
ghost use Rattle.om_recover.specs.steps.Logs.{AreEmpty, HaveNone};
ghost use Rattle.om_recover.specs.Rows.{Has};
ghost use Rattle.om_recover.specs.steps.Held.{AreIndexed, Hold, IsFree, held, AreLawful};

use crate::row::{Row, RowKind};
use crate::rows::adding::add;
use crate::rows::run_logs::RunLogs;
use crate::rows::trees::{Bases, Logs, Newest, Run, Trees};
use om_interval::{DepVec, Pid};
use std::alloc::{AllocError, Global};
use std::collections::BTreeMap;

/// Makes the trees of no rows of `n` processes.
pub fn no_rows(alloc: Global, n: usize) -> Result<Trees, AllocError>
    ensures { IfOk result (λ trees. Hold trees set.empty) }
{
    let logs = no_logs(alloc, n)?;
    let bases = no_bases(alloc, n)?;
    Ok(Trees { logs, bases })
}

fn no_bases(alloc: Global, n: usize) -> Result<Bases, AllocError>
    ensures { IfOk result HaveNoBases }
{
    let newest = no_newest(alloc, n)?;
    Ok(Bases {
        newest,
        others: BTreeMap::new(alloc),
    })
}

fn no_newest(alloc: Global, n: usize) -> Result<Vec<Option<Newest>>, AllocError>
    ensures { IfOk result (λ newest. (p : ℕ) → HasNoNewest newest.items p) }
{
    let mut newest = Vec::with_capacity(alloc, n)?;
    for _ in 0..n {
        newest.push_reserved(None);
    }
    Ok(newest)
}

fn no_logs(alloc: Global, n: usize) -> Result<Logs, AllocError>
    ensures { IfOk result HaveNone }
{
    let runs = no_runs(alloc, n)?;
    Ok(Logs {
        runs,
        others: BTreeMap::new(alloc),
    })
}

fn no_runs(alloc: Global, n: usize) -> Result<Vec<Run>, AllocError>
    ensures { IfOk result (λ runs. AreEmpty runs.items) }
{
    let mut runs = Vec::with_capacity(alloc, n)?;
    for _ in 0..n {
        runs.push_reserved(Run {
            first: 0,
            logs: RunLogs::new(alloc),
        });
    }
    Ok(runs)
}

/// Adds checkpoint 0 of a process of `n`.
pub fn add_first(trees: &mut Trees, pid: Pid, n: usize) -> Result<(), AllocError>
    requires some { 1 ≤ n }
    requires within { n ≤ MAX_PROCESSES }
    requires indexed { AreIndexed trees.old }
    requires lawful { AreLawful trees.old }
    requires free { IsFree (held trees.old) (first_row n pid) }
    ensures { OnOk result (Hold trees.new (set.insert (held trees.old) (first_row n pid))) }
{
    let zeros = DepVec::zeros(n).unwrap();
    let row = Row {
        kind: RowKind::Checkpoint,
        pid,
        interval: 0,
        vec: zeros,
        got: zeros,
    };
    add(trees, &row)
}
