//! What the thread of a process does, from the gate to the end.

ghost use Rattle.std.specs.Prelude.{◌<◌, ◌≤◌, IfErr, OnOk};
ghost use Rattle.om_process.specs.Images.{program_of};
ghost use Rattle.om_process.specs.declared.image.Image.{Image};
ghost use Rattle.om_node.specs.Stores.{AreNeverClean};
ghost use Rattle.om_cluster.specs.Ends.{IsOwnEnd, IsProgramOf};
ghost use Rattle.om_report.specs.Faults.{IsFaultBy};
ghost use Rattle.om_node.specs.Nodes.{HasCleanStores};
ghost use Rattle.om_worker.specs.steps.Turning.{EndsOf};

use crate::taking_up::take_up;
use crate::turns::take_turns;
use crate::worker::Worker;
use om_board::Naming;
use om_cluster::{
    Cluster, Finished, Gate, Job, ProcessThread, StoreMaker, admit, admitted, stop_all,
};
use om_pacing::Barrier;
use om_process::Image;
use om_report::RunFault;
use om_tickets::Series;
use om_worker_parts::WorkerState;
use std::sync::Wait;
use std::time::Clock;

/// The thread of a process in which a worker runs it, turn by turn.
#[derive(Drop)]
pub struct WorkerThread;

impl ProcessThread for WorkerThread {
    fn run<'a, K: Naming, J: Series, R: Wait + Clock, G: Gate, O: StoreMaker<R>>(
        cluster: &Cluster<'a, K, R, G, O>,
        image: &'a Image,
        job: Job<'a, K, J, O::Store>,
    ) -> Result<Finished<K, O::Store>, RunFault> {
        let result = work(cluster, image, job);
        if result.is_err() {
            stop_all(cluster);
        }
        cluster.observers.end();
        result
    }
}

// Does what the thread of a process does that starts over a store that holds nothing.
fn work_anew<'a, K: Naming, J: Series, R: Wait + Clock, G: Gate, O: StoreMaker<R>>(
    cluster: &Cluster<'a, K, R, G, O>,
    image: &'a Image,
    job: Job<'a, K, J, O::Store>,
) -> Result<Finished<K, O::Store>, RunFault>
    requires program { IsProgramOf K.programs job.links.ends.own image.now }
    requires clean { HasCleanStores K.OverClean O.Store.is_clean }
    ensures end { EndsOf O.Store.is_clean (program_of image.entry.now) job.entry.links.ends result }
    ensures own { IsOwnEnd cluster.now.config.now job.entry.links.ends.own result }
{
    let Job {
        links,
        pass,
        channel,
        ..
    } = job;
    let (node, kills) = admit(cluster, image, links.own(), links.n(), channel)?;
    let Cluster {
        rt,
        alloc,
        config,
        shared,
        stop,
        returns,
        observers,
        ..
    } = *cluster;
    let barrier = Barrier::new(returns, links.n());
    let mut worker = Worker::new(config, shared, links, barrier, kills, alloc, observers);
    worker.arrive(node.core().round());
    take_turns(
        rt,
        alloc,
        config.turns,
        stop,
        worker,
        WorkerState::Up(node),
        pass,
    )
}

// Does what the thread of a process does that is taken up from what an earlier run left of it.
fn work_on<'a, K: Naming, J: Series, R: Wait + Clock, G: Gate, O: StoreMaker<R>>(
    cluster: &Cluster<'a, K, R, G, O>,
    image: &'a Image,
    job: Job<'a, K, J, O::Store>,
) -> Result<Finished<K, O::Store>, RunFault>
    requires unsure { AreNeverClean O.Store.is_clean }
    requires program { IsProgramOf K.programs job.links.ends.own image.now }
    requires clean { HasCleanStores K.OverClean O.Store.is_clean }
    ensures end { EndsOf O.Store.is_clean (program_of image.entry.now) job.entry.links.ends result }
    ensures own { IsOwnEnd cluster.now.config.now job.entry.links.ends.own result }
{
    match admitted(cluster, job.links.own()) {
        Ok(kills) => work_from(cluster, image, job, kills),
        Err(fault) => {
            drop(job);
            Err(fault)
        }
    }
}

// The same, once the gate has let it, with the intervals at which it is to fail.
fn work_from<'a, K: Naming, J: Series, R: Wait + Clock, G: Gate, O: StoreMaker<R>>(
    cluster: &Cluster<'a, K, R, G, O>,
    image: &'a Image,
    job: Job<'a, K, J, O::Store>,
    kills: Vec<u32>,
) -> Result<Finished<K, O::Store>, RunFault>
    requires unsure { AreNeverClean O.Store.is_clean }
    requires program { IsProgramOf K.programs job.links.ends.own image.now }
    requires clean { HasCleanStores K.OverClean O.Store.is_clean }
    ensures end { EndsOf O.Store.is_clean (program_of image.entry.now) job.entry.links.ends result }
    ensures given { OnOk result (1 ≤ cluster.now.config.now.turns) }
    ensures fault { IfErr result (IsFaultBy job.entry.links.ends.own) }
{
    let Job {
        links,
        pass,
        channel,
        ..
    } = job;
    let Cluster {
        rt,
        alloc,
        config,
        stop,
        ..
    } = *cluster;
    let barrier = Barrier::new(cluster.returns, links.n());
    let mut worker = Worker::new(
        config,
        cluster.shared,
        links,
        barrier,
        kills,
        alloc,
        cluster.observers,
    );
    match take_up(cluster, &mut worker, image, channel) {
        Ok((down_node, left)) => {
            let place = WorkerState::Failed(down_node);
            take_turns(rt, alloc, left, stop, worker, place, pass)
        }
        Err(fault) => {
            drop(worker);
            drop(pass);
            Err(fault)
        }
    }
}

// Does what the thread of a process does.
fn work<'a, K: Naming, J: Series, R: Wait + Clock, G: Gate, O: StoreMaker<R>>(
    cluster: &Cluster<'a, K, R, G, O>,
    image: &'a Image,
    job: Job<'a, K, J, O::Store>,
) -> Result<Finished<K, O::Store>, RunFault>
    requires program { IsProgramOf K.programs job.links.ends.own image.now }
    requires clean { HasCleanStores K.OverClean O.Store.is_clean }
    ensures end { EndsOf O.Store.is_clean (program_of image.entry.now) job.entry.links.ends result }
    ensures own { IsOwnEnd cluster.now.config.now job.entry.links.ends.own result }
{
    if cluster.opener.takes_up() {
        work_on(cluster, image, job)
    } else {
        work_anew(cluster, image, job)
    }
}
