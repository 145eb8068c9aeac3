//! How a process is taken up from what an earlier run left of it.
//!
//! A restart is a round in which all processes have failed, under a manager that was told first what the stores hold. Nothing is
//! written before all have looked at their stores.

ghost use Rattle.std.specs.Prelude.{◌≡◌, ◌≤◌, IfErr, IfOk, length};
ghost use Rattle.om_interval.specs.declared.pid.TheConstants.{MAX_PROCESSES};
ghost use Rattle.om_process.specs.Images.{program_of};
ghost use Rattle.om_node.specs.Stores.{AreNeverClean};
ghost use Rattle.om_report.specs.Faults.{IsFaultBy};
ghost use Rattle.om_node.specs.Nodes.{HasCleanStores};
ghost use Rattle.om_worker.specs.steps.Refusals.{refusal_of_found};
ghost use Rattle.om_links.specs.Links.{KeepsEnds};

use crate::worker::Worker;
use om_board::Naming;
use om_cluster::{Census, Cluster, StoreMaker, load_fault, open_fault, run_fault};
use om_interval::{MAX_PROCESSES, Pid};
use om_look::about_of;
use om_node::{DownNode, FlightChannel};
use om_process::{Image, ProcCore};
use om_report::RunFault;
use om_restart::{FindFault, Found, find};
use om_stable::{Ledger, LedgerTable, StoreError};
use om_tickets::Series;
use std::alloc::{AllocError, Global};
use std::sync::Wait;
use std::sync::atomic::AtomicU64;
use std::sync::atomic::Ordering::SeqCst;
use std::time::Clock;

// Counts a store that is opened.
fn count_opened(census: &Census) {
    census.opened.fetch_add(1, SeqCst);
}

// Counts a process that has looked, and found this. What lies beyond a start is counted first: who sees that all have looked
// sees it too.
fn count_looked(census: &Census, found: &Found) {
    if found.is_beyond_start() {
        census.beyond.fetch_add(1, SeqCst);
    }
    census.looked.fetch_add(1, SeqCst);
}

// Returns whether a store that has no checkpoint was lost: others hold more than a start.
fn is_lost(census: &Census, found: &Found) -> bool {
    !found.is_begun() && census.beyond.load(SeqCst) > 0
}

// Returns why a store is not taken up, as the run's caller is told.
fn found_fault(fault: FindFault, pid: Pid) -> RunFault
    ensures named { result ≡ refusal_of_found fault pid }
    ensures fault { IsFaultBy pid result }
{
    match fault {
        FindFault::Another => RunFault::AnotherCluster(pid),
        FindFault::Memory => RunFault::Memory,
        FindFault::Damaged(_)
        | FindFault::Mismatch(_)
        | FindFault::Output(_)
        | FindFault::Senders(_)
        | FindFault::Fault => RunFault::Fault(pid),
    }
}

// Returns why a store did not take what it says that it is of, as the run's caller is told.
fn put_fault(error: StoreError, pid: Pid) -> RunFault
    ensures { IsFaultBy pid result }
{
    match error {
        StoreError::Memory => RunFault::Memory,
        StoreError::Present | StoreError::Fault => RunFault::Fault(pid),
    }
}

// Waits until so many are counted, for at most so many turns, and says how many are left.
fn wait_for<'a, K: Naming, R: Wait + Clock, G, O: StoreMaker<R>>(
    cluster: &Cluster<'a, K, R, G, O>,
    worker: &mut Worker<'a, K>,
    count: &AtomicU64,
    wanted: u64,
    turns: u64,
) -> Result<u64, RunFault>
    ensures same { KeepsEnds worker.old.links worker.new.links }
    ensures left { IfOk result (λ left. left ≤ turns) }
    ensures fault { IfErr result (IsFaultBy worker.old.links.ends.own) }
{
    let mut left = turns;
    while left > 0 {
        if count.load(SeqCst) >= wanted {
            return Ok(left);
        }
        if cluster.stop.load(SeqCst) {
            break;
        }
        left -= 1;
        worker.doze(cluster.rt);
        left = left.saturating_sub(worker.extra());
    }
    Err(RunFault::Turns(worker.pid()))
}

// Opens the store of a process.
fn opened<'a, K: Naming, R: Wait + Clock, G, O: StoreMaker<R>>(
    cluster: &Cluster<'a, K, R, G, O>,
    worker: &mut Worker<'a, K>,
) -> Result<O::Store, RunFault>
    ensures same { KeepsEnds worker.old.links worker.new.links }
    ensures fault { IfErr result (IsFaultBy worker.old.links.ends.own) }
{
    let pid = worker.pid();
    match cluster.opener.make_store(cluster.rt, cluster.alloc, pid) {
        Ok(store) => {
            count_opened(cluster.census);
            worker.wake_all();
            Ok(store)
        }
        Err(fault) => Err(open_fault(fault, pid)),
    }
}

// Looks at the store of a process, and counts what was found.
fn looked_at<'a, K: Naming, R: Wait + Clock, G, O: StoreMaker<R>>(
    cluster: &Cluster<'a, K, R, G, O>,
    worker: &mut Worker<'a, K>,
    image: &'a Image,
    store: &mut O::Store,
) -> Result<Found, RunFault>
    requires { K.cell.n ≤ MAX_PROCESSES }
    ensures same { KeepsEnds worker.old.links worker.new.links }
    ensures fault { IfErr result (IsFaultBy worker.old.links.ends.own) }
{
    let (pid, n) = (worker.pid(), worker.n());
    match find(cluster.alloc, store, pid, n, image) {
        Ok(found) => {
            count_looked(cluster.census, &found);
            worker.wake_all();
            Ok(found)
        }
        Err(fault) => Err(found_fault(fault, pid)),
    }
}

// Puts into a store what it is of.
fn put_about<S: Ledger>(
    alloc: Global,
    store: &mut S,
    image: &Image,
    pid: Pid,
    n: usize,
) -> Result<(), RunFault>
    requires { n ≤ MAX_PROCESSES }
    ensures { IfErr result (IsFaultBy pid) }
{
    let Ok(recs) = about_recs(alloc, image, pid, n) else {
        return Err(RunFault::Memory);
    };
    match store.put_in(alloc, LedgerTable::About, 0, &recs) {
        Ok(()) => Ok(()),
        Err(error) => Err(put_fault(error, pid)),
    }
}

// Makes the one record of what a store is of.
fn about_recs(alloc: Global, image: &Image, pid: Pid, n: usize) -> Result<Vec<Vec<u8>>, AllocError>
    requires { n ≤ MAX_PROCESSES }
    ensures { IfOk result (λ recs. length recs.items ≡ 1) }
{
    let mut recs = Vec::new(alloc);
    recs.push(about_of(alloc, pid, n, image)?)?;
    Ok(recs)
}

// Makes what a store does not have of a start: what it is of, and the checkpoint of interval 0.
fn make_missing<S: Ledger>(
    alloc: Global,
    store: &mut S,
    found: &Found,
    image: &Image,
    pid: Pid,
    n: usize,
) -> Result<(), RunFault>
    requires { n ≤ MAX_PROCESSES }
    ensures { IfErr result (IsFaultBy pid) }
{
    if !found.has_about {
        put_about(alloc, store, image, pid, n)?;
    }
    if found.is_begun() {
        return Ok(());
    }
    match ProcCore::start(alloc, &image.bytes, image.size, image.ext, pid, n, store) {
        Ok(core) => {
            core.fail();
            Ok(())
        }
        Err(fault) => Err(load_fault(fault, pid)),
    }
}

// Waits until all have looked at their stores, and makes what this one lacks of a start. Returns how many turns are left.
fn complete<'a, K: Naming, R: Wait + Clock, G, O: StoreMaker<R>>(
    cluster: &Cluster<'a, K, R, G, O>,
    worker: &mut Worker<'a, K>,
    image: &'a Image,
    store: &mut O::Store,
    found: &Found,
    turns: u64,
) -> Result<u64, RunFault>
    requires { K.cell.n ≤ MAX_PROCESSES }
    ensures same { KeepsEnds worker.old.links worker.new.links }
    ensures left { IfOk result (λ left. left ≤ turns) }
    ensures fault { IfErr result (IsFaultBy worker.old.links.ends.own) }
{
    let (pid, n) = (worker.pid(), worker.n());
    let census = cluster.census;
    let left = wait_for(cluster, worker, &census.looked, n as u64, turns)?;
    if is_lost(census, found) {
        return Err(RunFault::StoreMissing(pid));
    }
    make_missing(cluster.alloc, store, found, image, pid, n)?;
    Ok(left)
}

// Looks at the store of a process, completes it, and tells the manager what it holds. Returns how many turns are left.
fn take_in<'a, K: Naming, R: Wait + Clock, G, O: StoreMaker<R>>(
    cluster: &Cluster<'a, K, R, G, O>,
    worker: &mut Worker<'a, K>,
    image: &'a Image,
    store: &mut O::Store,
    turns: u64,
) -> Result<u64, RunFault>
    requires few { K.cell.n ≤ MAX_PROCESSES }
    requires unsure { AreNeverClean O.Store.is_clean }
    requires clean { HasCleanStores K.OverClean O.Store.is_clean }
    ensures same { KeepsEnds worker.old.links worker.new.links }
    ensures left { IfOk result (λ left. left ≤ turns) }
    ensures fault { IfErr result (IsFaultBy worker.old.links.ends.own) }
{
    let found = looked_at(cluster, worker, image, store)?;
    match complete(cluster, worker, image, store, &found, turns) {
        Ok(left) => {
            worker.arrive(0);
            match worker.take_up(cluster.rt, cluster.alloc, found) {
                Ok(()) => Ok(left),
                Err(fault) => Err(run_fault(fault, worker.pid())),
            }
        }
        Err(fault) => {
            drop(found);
            Err(fault)
        }
    }
}

// Opens the store of a process behind that of process 0, and takes it in. Returns how many turns are left beside it.
fn taken_in<'a, K: Naming, R: Wait + Clock, G, O: StoreMaker<R>>(
    cluster: &Cluster<'a, K, R, G, O>,
    worker: &mut Worker<'a, K>,
    image: &'a Image,
) -> Result<(O::Store, u64), RunFault>
    requires few { K.cell.n ≤ MAX_PROCESSES }
    requires unsure { AreNeverClean O.Store.is_clean }
    requires clean { HasCleanStores K.OverClean O.Store.is_clean }
    ensures same { KeepsEnds worker.old.links worker.new.links }
    ensures left { IfOk result (λ made. made.1 ≤ cluster.now.config.now.turns) }
    ensures fault { IfErr result (IsFaultBy worker.old.links.ends.own) }
{
    let before = worker.pid().index().min(1) as u64;
    let turns = cluster.config.turns;
    let left = wait_for(cluster, worker, &cluster.census.opened, before, turns)?;
    let mut store = opened(cluster, worker)?;
    match take_in(cluster, worker, image, &mut store, left) {
        Ok(left) => Ok((store, left)),
        Err(fault) => {
            drop(store);
            Err(fault)
        }
    }
}

// Takes up what an earlier run left of a process, or starts one where it left nothing, and tells the manager what its store holds.
// Returns the process, which is down, and how many turns are left. That it failed is still to be told.
pub(crate) fn take_up<'a, K: Naming, J: Series, R: Wait + Clock, G, O: StoreMaker<R>>(
    cluster: &Cluster<'a, K, R, G, O>,
    worker: &mut Worker<'a, K>,
    image: &'a Image,
    channel: Option<FlightChannel<J, O::Store>>,
) -> Result<(DownNode<'a, J, O::Store>, u64), RunFault>
    requires few { K.cell.n ≤ MAX_PROCESSES }
    requires unsure { AreNeverClean O.Store.is_clean }
    requires clean { HasCleanStores K.OverClean O.Store.is_clean }
    ensures same { KeepsEnds worker.old.links worker.new.links }
    ensures member { IfOk result (λ made. made.0 ≡ record { program = program_of image.entry.now; own = worker.old.links.ends.own; n = K.cell.n }) }
    ensures left { IfOk result (λ made. made.1 ≤ cluster.now.config.now.turns) }
    ensures fault { IfErr result (IsFaultBy worker.old.links.ends.own) }
{
    let (pid, n) = (worker.pid(), worker.n());
    match taken_in(cluster, worker, image) {
        Ok((store, left)) => match DownNode::over(cluster.alloc, image, pid, n, store, channel) {
            Ok(down_node) => Ok((down_node, left)),
            Err(_) => Err(RunFault::Memory),
        },
        Err(fault) => {
            drop(channel);
            Err(fault)
        }
    }
}
