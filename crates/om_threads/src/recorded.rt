//! A cluster, while it is taken down what its threads do.

ghost use Rattle.std.specs.Prelude.{◌≡◌, ◌≤◌, IfErr, IfOk, OnOk, length, map};
ghost use Rattle.om_process.specs.Images.{program_of};
ghost use Rattle.om_report.specs.Faults.{IsFaultOf};
ghost use Rattle.om_node.specs.Nodes.{AreAlwaysClean, HasCleanStores};
ghost use Rattle.om_cluster.specs.Ends.{IsGiven, FitsCluster};
ghost use Rattle.om_report.specs.Reports.{IsWholeReport};
ghost use Rattle.om_threads.specs.steps.Ends.{AreParts};
ghost use Rattle.om_threads.specs.steps.Starting.{IsNamedFor};

use crate::cluster::{close, run_workers};
use crate::main_task::MainTask;
use crate::results::Parts;
use om_board::{Blank, Naming};
use om_cluster::{Cluster, Config, Gate, Opener, ProcessThread, ground_of};
use om_interval::MAX_PROCESSES;
use om_observers::{Observers, Recorder, Scribe};
use om_report::{Report, RunFault};
use std::alloc::Global;
use std::marker::Brand;
use std::sync::Wait;
use std::thread::Threads;
use std::time::Clock;

// A recorder, and the scribe who is given what it took in.
#[derive(Drop)]
struct Recording<'a, S: Scribe> {
    recorder: &'a Recorder,
    scribe: S,
}

impl<'a, S: Scribe> Recording<'a, S> {
    // Gives what the recorder took in since.
    fn give<R: Wait>(&mut self, rt: &R) {
        let part = self.recorder.take(rt);
        self.scribe.take_down(&part);
    }
}

// It gives what is done until all workers have ended; what they did at last may be left.
impl<'a, K: Naming, R: Wait, S: Scribe> MainTask<K, R> for Recording<'a, S> {
    ghost Becomes = { λ _ _. Unit {0} };

    fn run_beside<G, O>(self, cluster: &Cluster<'_, K, R, G, O>) -> Recording<'a, S> {
        let n = cluster.bells.len();
        let mut recording = self;
        for _ in cluster.rt.forever() {
            recording.give(cluster.rt);
            if recording.recorder.have_ended(n) {
                break;
            }
            recording.recorder.sleep(cluster.rt);
        }
        recording
    }
}

// Returns the report of what all workers brought back.
fn report_of<K: Naming, R: Wait, G: Gate, O: Opener<R>>(
    cluster: &Cluster<'_, K, R, G, O>,
    parts: Result<Parts<K, O::Store>, RunFault>,
) -> Result<Report, RunFault>
    requires named { IsNamedFor O.Store.is_clean K.OverClean K.programs K.cell.n cluster.now.config.now.images.items }
    requires parts { IfOk parts (AreParts O.Store.is_clean cluster.now.config.now.images.items cluster.now.inboxes.now) }
    requires given { OnOk parts (IsGiven cluster.now.config.now) }
    requires fault { IfErr parts (IsFaultOf K.cell.n) }
    ensures report { IfOk result (IsWholeReport K.OverClean K.programs) }
    ensures given { OnOk result (IsGiven cluster.now.config.now) }
    ensures fault { IfErr result (IsFaultOf K.cell.n) }
{
    let (report, _, _, _) = close(cluster, parts?)?;
    Ok(report)
}

fn run_named<
    'x,
    K: Naming + Send + Sync,
    R: Threads + Wait + Clock + Sync,
    G: Gate + Sync,
    O: Opener<R> + Sync,
    S: Scribe,
    W: ProcessThread + Send + Sync,
>(
    rt: &'x R,
    alloc: Global,
    config: &'x Config,
    gate: &'x G,
    opener: &'x O,
    scribe: S,
    blank: Blank,
) -> (Result<Report, RunFault>, S)
    requires named { blank ≡ K.cell }
    requires size { blank.n ≡ length config.now.images.items }
    requires some { 1 ≤ length config.now.images.items }
    requires few { FitsCluster config.now }
    requires programs { K.programs ≡ map program_of config.now.images.items }
    requires clean { HasCleanStores K.OverClean O.Store.is_clean }
    ensures report { IfOk result.0 (IsWholeReport K.OverClean K.programs) }
    ensures given { OnOk result.0 (IsGiven config.now) }
    ensures fault { IfErr result.0 (IsFaultOf (length config.now.images.items)) }
{
    let Ok((ground, ends, passes)) = ground_of::<K>(alloc, config.images.len(), blank) else {
        return (Err(RunFault::Memory), scribe);
    };
    let recorder = Recorder::new(alloc);
    let recording = Recording {
        recorder: &recorder,
        scribe,
    };
    let cluster = Cluster {
        rt,
        alloc,
        config,
        gate,
        opener,
        shared: &ground.shared,
        stop: &ground.stop,
        returns: &ground.returns,
        census: &ground.census,
        observers: Observers {
            recorder: Some(&recorder),
            watch: opener.watch(),
            ..Observers::none()
        },
        inboxes: &ground.inboxes,
        bells: &ground.bells,
        received: &ground.received,
    };
    let (parts, mut recording) = run_workers::<K, R, G, O, Recording<'_, S>, W>(
        &cluster, ends, passes, recording,
    );
    recording.give(rt);
    let Recording { scribe, .. } = recording;
    (report_of(&cluster, parts), scribe)
}

/// Runs a cluster as [`run_and_keep_stores`](crate::run_and_keep_stores) does, and has `scribe` take down what its threads do while they go on: all
/// of it, also of a run that is refused. A process then notes what it stored before it runs on. The scribe comes back beside the
/// report.
pub fn run_and_record<
    R: Threads + Wait + Clock + Sync,
    G: Gate + Sync,
    O: Opener<R> + Sync,
    S: Scribe,
    W: ProcessThread + Send + Sync,
>(
    rt: &R,
    alloc: Global,
    config: &Config,
    gate: &G,
    opener: &O,
    scribe: S,
) -> (Result<Report, RunFault>, S)
    requires some { 1 ≤ length config.now.images.items }
    requires few { FitsCluster config.now }
    ensures report { IfOk result.0 (IsWholeReport (AreAlwaysClean O.Store.is_clean) (map program_of config.now.images.items)) }
    ensures given { OnOk result.0 (IsGiven config.now) }
    ensures fault { IfErr result.0 (IsFaultOf (length config.now.images.items)) }
{
    let Ok(blank) = Blank::new(alloc, config.images.len()) else {
        return (Err(RunFault::Memory), scribe);
    };
    run_named::<Brand, R, G, O, S, W>(rt, alloc, config, gate, opener, scribe, blank)
}
