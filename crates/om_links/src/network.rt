//! The inboxes of a cluster.

ghost use Rattle.std.specs.Prelude.{◌≡◌, ◌<◌, ◌≤◌, [], IfOk, OnOk, length, replicate, slice_set};
ghost use Rattle.om_interval.specs.declared.pid.TheConstants.{MAX_PROCESSES};
ghost use Rattle.om_links.specs.steps.Rows.{IsRow, all_put, all_taken, grown_at, lines_put, with_row};
ghost use Rattle.om_links.specs.Wiring.{IsWired};

use om_board::{Inbox, PutPass, TakePass};
use om_interval::{MAX_PROCESSES, Pid};
use std::alloc::{AllocError, Global};

/// Holds the passes that one process has.
#[derive(Drop)]
pub struct Ends {
    /// The passes to put, by receiver.
    pub puts: Vec<PutPass>,
    /// The passes to take, by sender.
    pub takes: Vec<TakePass>,
}

/// Holds an inbox from each process to each, and the passes of each process.
#[derive(Drop)]
pub struct Network {
    /// The inboxes, by sender, and there by receiver.
    pub inboxes: Vec<Vec<Inbox>>,
    /// By process, its passes.
    pub ends: Vec<Ends>,
}

// Makes `n` places without any pass.
fn no_ends(alloc: Global, n: usize) -> Result<Vec<Ends>, AllocError>
    ensures { IfOk result (λ ends. all_taken ends.items ≡ replicate n []) }
{
    let mut ends = Vec::with_capacity(alloc, n)?;
    for _ in 0..n {
        ends.push(Ends {
            puts: Vec::new(alloc),
            takes: Vec::with_capacity(alloc, n)?,
        })?;
    }
    Ok(ends)
}

// Gives a process one pass more to take.
fn add_take(ends: &mut Vec<Ends>, to: usize, take: TakePass) -> Result<(), AllocError>
    requires { to < length ends.old.items }
    ensures taken { OnOk result (all_taken ends.new.items ≡ grown_at (all_taken ends.old.items) to take.line) }
    ensures put { all_put ends.new.items ≡ all_put ends.old.items }
    ensures many { length ends.new.items ≡ length ends.old.items }
{
    ends[to].takes.push(take)?;
    Ok(())
}

// Makes the inboxes of one sender, and its passes to put. Each receiver gets one pass more to take.
fn connect(
    alloc: Global,
    from: usize,
    ends: &mut Vec<Ends>,
) -> Result<(Vec<Inbox>, Vec<PutPass>), AllocError>
    requires few { length ends.old.items ≤ MAX_PROCESSES }
    requires from { from < length ends.old.items }
    ensures long { IfOk result (λ made. length made.0.items ≡ length ends.old.items) }
    ensures row { IfOk result (λ made. IsRow from made.0.items) }
    ensures puts { IfOk result (λ made. lines_put made.1.items ≡ made.0.items) }
    ensures taken { IfOk result (λ made. all_taken ends.new.items ≡ with_row (all_taken ends.old.items) made.0.items) }
    ensures put { all_put ends.new.items ≡ all_put ends.old.items }
    ensures many { length ends.new.items ≡ length ends.old.items }
{
    let n = ends.len();
    let mut inboxes = Vec::with_capacity(alloc, n)?;
    let mut puts = Vec::with_capacity(alloc, n)?;
    for to in 0..n {
        let (inbox, put, take) = Inbox::new(alloc, Pid::at(from), Pid::at(to))?;
        inboxes.push(inbox)?;
        puts.push(put)?;
        add_take(ends, to, take)?;
    }
    Ok((inboxes, puts))
}

// Gives a process its passes to put.
fn set_puts(ends: &mut Vec<Ends>, from: usize, puts: Vec<PutPass>)
    requires { from < length ends.old.items }
    ensures put { all_put ends.new.items ≡ slice_set (all_put ends.old.items) from (lines_put puts.items) }
    ensures taken { all_taken ends.new.items ≡ all_taken ends.old.items }
    ensures many { length ends.new.items ≡ length ends.old.items }
{
    ends[from].puts = puts;
}

/// Makes an inbox from each of n processes to each. Refused where memory runs out.
pub fn connected(alloc: Global, n: usize) -> Result<Network, AllocError>
    requires { n ≤ MAX_PROCESSES }
    ensures { IfOk result (λ net. IsWired n net.inboxes.items net.ends.items) }
{
    let mut ends = no_ends(alloc, n)?;
    let mut inboxes = Vec::with_capacity(alloc, n)?;
    for from in 0..n {
        let (row, puts) = connect(alloc, from, &mut ends)?;
        set_puts(&mut ends, from, puts);
        inboxes.push(row)?;
    }
    Ok(Network { inboxes, ends })
}
