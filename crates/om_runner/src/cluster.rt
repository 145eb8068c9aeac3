//! Runs of a cluster whose processes are run by workers.

ghost use Rattle.std.specs.Prelude.{◌≡◌, ◌≢◌, ◌≤◌, [], IfErr, IfOk, List, OnOk, length, map};
ghost use Rattle.om_process.specs.Images.{program_of};
ghost use Rattle.om_report.specs.Faults.{IsFaultOf};
ghost use Rattle.om_report.specs.Telling.{AreInOrder, AreToldMade, Told};
ghost use Rattle.om_following.specs.declared.follower.FollowFault.TheVariants.{Unwanted};
ghost use Rattle.om_node.specs.Nodes.{AreAlwaysClean};
ghost use Rattle.om_cluster.specs.Ends.{IsGiven, FitsCluster};
ghost use Rattle.om_report.specs.Reports.{IsToldReport, IsWholeReport};
ghost use Rattle.om_runner.specs.Reports.{AreWholeOver};

use om_cluster::{Config, Gate, Opener};
use om_following::{FollowFault, Follower};
use om_interval::MAX_PROCESSES;
use om_observers::Scribe;
use om_process::Witness;
use om_report::{FollowedReport, Report, RunFault};
use om_worker::WorkerThread;
use std::alloc::Global;
use std::sync::Wait;
use std::thread::Threads;
use std::time::Clock;

/// Runs a cluster, a thread for each process, until all have ended or trapped and all output that they made is released. Each
/// process has a store of its own, which is made in its thread. When all workers have ended well, the inboxes are settled.
///
/// A worker asks the gate before it makes its process. Then it runs it turn by turn: instructions, messages to and from the
/// inboxes, rows and outputs to the manager, and rounds of recovery as processes fail. A fault of one stops the others.
///
/// Refused with `NoThread` where a thread could not be made; else with the fault of the least process that has one other
/// than `Turns`; else with `Turns`. With `Memory` also where memory runs out before or after the threads. The stores of a
/// run that is refused are dropped as they are.
pub fn run_cluster<R: Threads + Wait + Clock + Sync, G: Gate + Sync, O: Opener<R> + Sync>(
    rt: &R,
    alloc: Global,
    config: &Config,
    gate: &G,
    opener: &O,
) -> Result<Report, RunFault>
    requires some { 1 ≤ length config.now.images.items }
    requires few { FitsCluster config.now }
    ensures report { IfOk result (IsWholeReport (AreAlwaysClean O.Store.is_clean) (map program_of config.now.images.items)) }
    ensures given { OnOk result (IsGiven config.now) }
    ensures fault { IfErr result (IsFaultOf (length config.now.images.items)) }
{
    let (report, _) = run_and_keep_stores(rt, alloc, config, gate, opener)?;
    Ok(report)
}

/// Runs a cluster as [`run_cluster`] does, and hands back the store of each process beside the report. Where a process's store
/// is clean, it comes to its status along its image, and its outputs are as many as it has then made, whatever the others' are.
pub fn run_and_keep_stores<R: Threads + Wait + Clock + Sync, G: Gate + Sync, O: Opener<R> + Sync>(
    rt: &R,
    alloc: Global,
    config: &Config,
    gate: &G,
    opener: &O,
) -> Result<(Report, Vec<O::Store>), RunFault>
    requires some { 1 ≤ length config.now.images.items }
    requires few { FitsCluster config.now }
    ensures report { IfOk result (λ r. IsWholeReport (AreAlwaysClean O.Store.is_clean) (map program_of config.now.images.items) r.0) }
    ensures stores { IfOk result (λ r. length r.1.items ≡ length config.now.images.items) }
    ensures whole { IfOk result (λ r. AreWholeOver O.Store.is_clean config.now.images.items r.0.statuses.items r.0.released.items r.1.items) }
    ensures given { OnOk result (IsGiven config.now) }
    ensures fault { IfErr result (IsFaultOf (length config.now.images.items)) }
{
    om_threads::run_and_keep_stores::<R, G, O, WorkerThread>(rt, alloc, config, gate, opener)
}

/// Runs a cluster as [`run_cluster`] does, and hands back what each process did, but for what was rolled back, beside the report.
pub fn run_and_keep_witnesses<
    R: Threads + Wait + Clock + Sync,
    G: Gate + Sync,
    O: Opener<R> + Sync,
>(
    rt: &R,
    alloc: Global,
    config: &Config,
    gate: &G,
    opener: &O,
) -> Result<(Report, Vec<Witness>), RunFault>
    requires some { 1 ≤ length config.now.images.items }
    requires few { FitsCluster config.now }
    ensures report { IfOk result (λ r. IsWholeReport (AreAlwaysClean O.Store.is_clean) (map program_of config.now.images.items) r.0) }
    ensures given { OnOk result (IsGiven config.now) }
    ensures fault { IfErr result (IsFaultOf (length config.now.images.items)) }
{
    om_threads::run_and_keep_witnesses::<R, G, O, WorkerThread>(rt, alloc, config, gate, opener)
}

/// Runs a cluster as [`run_cluster`] does, and tells `follower` of its outputs as they are released: those of a
/// process in order and each once, those of different processes in the order in which they were released. It comes back beside how
/// the run ended; no output is kept that it was told of. Where a run is refused, it was told of what was released by then; of less where memory
/// ran out for what is released, or it wanted no more.
///
/// Refused with `Unwanted` where the follower wanted no more, which stops all workers; else as `run_cluster` is, and with `Memory`
/// also where memory ran out for what is released.
pub fn run_and_follow<
    R: Threads + Wait + Clock + Sync,
    G: Gate + Sync,
    O: Opener<R> + Sync,
    F: Follower,
>(
    rt: &R,
    alloc: Global,
    config: &Config,
    gate: &G,
    opener: &O,
    follower: F,
) -> (Result<FollowedReport, FollowFault>, F)
    requires some { 1 ≤ length config.now.images.items }
    requires few { FitsCluster config.now }
    requires start { F.Tells follower follower [] }
    ensures told { IfOk result.0 (λ report. (told : List Told) × F.Tells follower result.1 told
        × IsToldReport (AreAlwaysClean O.Store.is_clean) (map program_of config.now.images.items) report.statuses.items report.front told) }
    ensures partly { IfErr result.0 (λ fault. fault ≢ Unwanted → (told : List Told) × F.Tells follower result.1 told × AreInOrder told
        × (AreAlwaysClean O.Store.is_clean → AreToldMade (map program_of config.now.images.items) (length config.now.images.items) told)) }
{
    om_threads::run_and_follow::<R, G, O, F, WorkerThread>(
        rt, alloc, config, gate, opener, follower,
    )
}

/// Runs a cluster as [`run_cluster`] does, and has `scribe` take down what its threads do while they go on: all
/// of it, also of a run that is refused. A process then notes what it stored before it runs on. The scribe comes back beside the
/// report.
pub fn run_and_record<
    R: Threads + Wait + Clock + Sync,
    G: Gate + Sync,
    O: Opener<R> + Sync,
    S: Scribe,
>(
    rt: &R,
    alloc: Global,
    config: &Config,
    gate: &G,
    opener: &O,
    scribe: S,
) -> (Result<Report, RunFault>, S)
    requires some { 1 ≤ length config.now.images.items }
    requires few { FitsCluster config.now }
    ensures report { IfOk result.0 (IsWholeReport (AreAlwaysClean O.Store.is_clean) (map program_of config.now.images.items)) }
    ensures given { OnOk result.0 (IsGiven config.now) }
    ensures fault { IfErr result.0 (IsFaultOf (length config.now.images.items)) }
{
    om_threads::run_and_record::<R, G, O, S, WorkerThread>(rt, alloc, config, gate, opener, scribe)
}
