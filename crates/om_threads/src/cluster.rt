//! A cluster, a thread for each process.

ghost use Rattle.std.specs.Prelude.{◌≡◌, ◌≤◌, IfErr, IfOk, OnOk, length, map, vec_len};
ghost use Rattle.om_process.specs.Images.{program_of};
ghost use Rattle.om_report.specs.Faults.{IsFaultOf};
ghost use Rattle.om_report.specs.Harvests.{harvested};
ghost use Rattle.om_report.specs.declared.fault.RunFault.TheVariants.{Memory};
ghost use Rattle.om_node.specs.Nodes.{AreAlwaysClean, HasCleanStores};
ghost use Rattle.om_cluster.specs.Ends.{IsGiven, FitsCluster};
ghost use Rattle.om_report.specs.Reports.{IsWholeReport};
ghost use Rattle.om_threads.specs.Reports.{AreWholeOver};
ghost use Rattle.om_threads.specs.steps.Ends.{AreParts};
ghost use Rattle.om_threads.specs.steps.Settling.{ArePasses, AreSettled};
ghost use Rattle.om_threads.specs.steps.Starting.{CanStart, IsNamedFor};

use crate::main_task::{MainTask, OnlyJoin};
use crate::results::{Parts, gathered};
use crate::settle::settle_all;
use crate::starting::run_scoped;
use om_board::{Blank, Naming, Pass, TakePass};
use om_cluster::{Cluster, Config, Gate, Opener, ProcessThread, ground_of};
use om_interval::MAX_PROCESSES;
use om_links::Ends;
use om_observers::Observers;
use om_process::{Status, Witness};
use om_report::{Harvest, Report, RunFault, gathered_in};
use std::alloc::Global;
use std::marker::Brand;
use std::sync::Wait;
use std::thread;
use std::thread::Threads;
use std::time::Clock;

// Returns what all workers of a cluster brought back, where each ended well; and what was beside them.
pub(crate) fn run_workers<
    K: Naming + Send + Sync,
    R: Threads + Wait + Clock + Sync,
    G: Gate + Sync,
    O: Opener<R> + Sync,
    B: MainTask<K, R>,
    W: ProcessThread + Send + Sync,
>(
    cluster: &Cluster<'_, K, R, G, O>,
    ends: Vec<Ends>,
    passes: Vec<Pass<K>>,
    beside: B,
) -> (Result<Parts<K, O::Store>, RunFault>, B)
    requires named { IsNamedFor O.Store.is_clean K.OverClean K.programs K.cell.n cluster.now.config.now.images.items }
    requires ready { CanStart K.cell.n cluster.now.inboxes.now ends.items (vec_len passes) }
    requires some { 1 ≤ K.cell.n }
    requires same { B.Becomes beside beside }
    ensures parts { IfOk result.0 (AreParts O.Store.is_clean cluster.now.config.now.images.items cluster.now.inboxes.now) }
    ensures given { OnOk result.0 (IsGiven cluster.now.config.now) }
    ensures fault { IfErr result.0 (IsFaultOf K.cell.n) }
    ensures beside { B.Becomes beside result.1 }
{
    let (results, beside) = run_scoped::<K, R, G, O, B, W>(cluster, ends, passes, beside);
    match results {
        Ok(results) => (gathered(cluster, results), beside),
        Err(fault) => (Err(fault), beside),
    }
}

// Returns the statuses, the outputs and the stores of all processes, once the inboxes are settled; what each process did; and the ends of
// inboxes by which each takes messages.
pub(crate) fn settled<K: Naming, R: Wait, G, O: Opener<R>>(
    cluster: &Cluster<'_, K, R, G, O>,
    parts: Parts<K, O::Store>,
) -> (
    Vec<Status>,
    Vec<Harvest<K>>,
    Vec<O::Store>,
    Vec<Witness>,
    Vec<Vec<TakePass>>,
)
    requires passes { ArePasses (length cluster.now.inboxes.now) cluster.now.inboxes.now parts.puts.items parts.takes.items }
    ensures statuses { result.0 ≡ parts.statuses }
    ensures harvests { result.1 ≡ parts.harvests }
    ensures stores { result.2 ≡ parts.stores }
    ensures settled { AreSettled (length parts.puts.items) parts.puts.items parts.takes.items result.4.items }
{
    let Parts {
        statuses,
        harvests,
        stores,
        puts,
        mut takes,
        witnesses,
    } = parts;
    settle_all(cluster.rt, cluster.inboxes, puts, &mut takes);
    (statuses, harvests, stores, witnesses, takes)
}

// Settles the inboxes, and makes the report of what the workers brought back and of the last front. The stores stand beside it,
// what each process did, and the ends of inboxes by which each took messages.
pub(crate) fn close<K: Naming, R: Wait, G: Gate, O: Opener<R>>(
    cluster: &Cluster<'_, K, R, G, O>,
    parts: Parts<K, O::Store>,
) -> Result<(Report, Vec<O::Store>, Vec<Witness>, Vec<Vec<TakePass>>), RunFault>
    requires named { IsNamedFor O.Store.is_clean K.OverClean K.programs K.cell.n cluster.now.config.now.images.items }
    requires parts { AreParts O.Store.is_clean cluster.now.config.now.images.items cluster.now.inboxes.now parts }
    ensures settled { IfOk result (λ r. AreSettled (length parts.puts.items) parts.puts.items parts.takes.items r.3.items) }
    ensures outputs { IfOk result (λ r. r.0.released.items ≡ harvested parts.harvests.items) }
    ensures each { IfOk result (λ r. r.0.statuses ≡ parts.statuses) }
    ensures report { IfOk result (λ r. IsWholeReport K.OverClean K.programs r.0) }
    ensures stores { IfOk result (λ r. length r.1.items ≡ length cluster.now.config.now.images.items) }
    ensures whole { IfOk result (λ r. AreWholeOver O.Store.is_clean cluster.now.config.now.images.items r.0.statuses.items
        r.0.released.items r.1.items) }
    ensures fault { IfErr result (λ f. f ≡ Memory) }
{
    let (statuses, harvests, stores, witnesses, takes) = settled(cluster, parts);
    let Ok((released, front)) = gathered_in(cluster.rt, cluster.alloc, cluster.shared, harvests)
    else {
        return Err(RunFault::Memory);
    };
    let report = Report {
        released,
        statuses,
        front,
    };
    Ok((report, stores, witnesses, takes))
}

fn run_named<
    K: Naming + Send + Sync,
    R: Threads + Wait + Clock + Sync,
    G: Gate + Sync,
    O: Opener<R> + Sync,
    W: ProcessThread + Send + Sync,
>(
    rt: &R,
    alloc: Global,
    config: &Config,
    gate: &G,
    opener: &O,
    observers: Observers<'_>,
    blank: Blank,
) -> Result<(Report, Vec<O::Store>, Vec<Witness>), RunFault>
    requires named { blank ≡ K.cell }
    requires size { blank.n ≡ length config.now.images.items }
    requires some { 1 ≤ length config.now.images.items }
    requires few { FitsCluster config.now }
    requires programs { K.programs ≡ map program_of config.now.images.items }
    requires clean { HasCleanStores K.OverClean O.Store.is_clean }
    ensures report { IfOk result (λ r. IsWholeReport K.OverClean K.programs r.0) }
    ensures stores { IfOk result (λ r. length r.1.items ≡ length config.now.images.items) }
    ensures whole { IfOk result (λ r. AreWholeOver O.Store.is_clean config.now.images.items r.0.statuses.items
        r.0.released.items r.1.items) }
    ensures given { OnOk result (IsGiven config.now) }
    ensures fault { IfErr result (IsFaultOf (length config.now.images.items)) }
{
    let Ok((ground, ends, passes)) = ground_of::<K>(alloc, config.images.len(), blank) else {
        return Err(RunFault::Memory);
    };
    let cluster = Cluster {
        rt,
        alloc,
        config,
        gate,
        opener,
        shared: &ground.shared,
        stop: &ground.stop,
        returns: &ground.returns,
        census: &ground.census,
        observers,
        inboxes: &ground.inboxes,
        bells: &ground.bells,
        received: &ground.received,
    };
    let (parts, _) = run_workers::<K, R, G, O, OnlyJoin, W>(&cluster, ends, passes, OnlyJoin);
    let (report, stores, witnesses, _) = close(&cluster, parts?)?;
    Ok((report, stores, witnesses))
}

/// Runs a cluster, a thread for each process that does what `W` says, until all have ended or trapped and all output that they made
/// is released. Hands back the store of each process beside the report. When all threads have ended well, the inboxes are settled.
///
/// Refused with `NoThread` where a thread could not be made; else with the fault of the least process that has one other
/// than `Turns`; else with `Turns`. With `Memory` also where memory runs out before or after the threads. The stores of a
/// run that is refused are dropped as they are.
pub fn run_and_keep_stores<
    R: Threads + Wait + Clock + Sync,
    G: Gate + Sync,
    O: Opener<R> + Sync,
    W: ProcessThread + Send + Sync,
>(
    rt: &R,
    alloc: Global,
    config: &Config,
    gate: &G,
    opener: &O,
) -> Result<(Report, Vec<O::Store>), RunFault>
    requires some { 1 ≤ length config.now.images.items }
    requires few { FitsCluster config.now }
    ensures report { IfOk result (λ r. IsWholeReport (AreAlwaysClean O.Store.is_clean) (map program_of config.now.images.items) r.0) }
    ensures stores { IfOk result (λ r. length r.1.items ≡ length config.now.images.items) }
    ensures whole { IfOk result (λ r. AreWholeOver O.Store.is_clean config.now.images.items r.0.statuses.items r.0.released.items r.1.items) }
    ensures given { OnOk result (IsGiven config.now) }
    ensures fault { IfErr result (IsFaultOf (length config.now.images.items)) }
{
    let Ok(blank) = Blank::new(alloc, config.images.len()) else {
        return Err(RunFault::Memory);
    };
    let (report, stores, _) = run_named::<Brand, R, G, O, W>(
        rt,
        alloc,
        config,
        gate,
        opener,
        Observers {
            watch: opener.watch(),
            ..Observers::none()
        },
        blank,
    )?;
    Ok((report, stores))
}

/// Runs a cluster as [`run_and_keep_stores`] does, and hands back what each process did, but for what was rolled back, beside the
/// report.
pub fn run_and_keep_witnesses<
    R: Threads + Wait + Clock + Sync,
    G: Gate + Sync,
    O: Opener<R> + Sync,
    W: ProcessThread + Send + Sync,
>(
    rt: &R,
    alloc: Global,
    config: &Config,
    gate: &G,
    opener: &O,
) -> Result<(Report, Vec<Witness>), RunFault>
    requires some { 1 ≤ length config.now.images.items }
    requires few { FitsCluster config.now }
    ensures report { IfOk result (λ r. IsWholeReport (AreAlwaysClean O.Store.is_clean) (map program_of config.now.images.items) r.0) }
    ensures given { OnOk result (IsGiven config.now) }
    ensures fault { IfErr result (IsFaultOf (length config.now.images.items)) }
{
    let Ok(blank) = Blank::new(alloc, config.images.len()) else {
        return Err(RunFault::Memory);
    };
    let (report, _, witnesses) = run_named::<Brand, R, G, O, W>(
        rt,
        alloc,
        config,
        gate,
        opener,
        Observers {
            keeps_witness: true,
            watch: opener.watch(),
            ..Observers::none()
        },
        blank,
    )?;
    Ok((report, witnesses))
}
