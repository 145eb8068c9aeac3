//! The threads of a cluster are started, and joined.

ghost use Rattle.std.specs.Prelude.{◌≡◌, ◌<◌, ◌≤◌, ℕ, All, IfErr, IfOk, IfSome, Some, slice_get, slice_index_or, vec_capacity, vec_len};
ghost use Rattle.om_interval.specs.declared.pid.TheConstants.{MAX_PROCESSES};
ghost use Rattle.om_process.specs.Images.{program_of};
ghost use Rattle.om_process.specs.declared.image.Image.{Image};
ghost use Rattle.om_report.specs.Faults.{IsFaultOf};
ghost use Rattle.om_report.specs.declared.fault.RunFault.TheVariants.{Memory};
ghost use Rattle.om_threads.specs.steps.Ends.{AreEndsOf, AreOwnEnds, IsPromised};
ghost use Rattle.om_cluster.specs.Ends.{IsEndOf, IsOwnEnd};
ghost use Rattle.om_node.specs.Nodes.{HasCleanStores};
ghost use Rattle.om_threads.specs.steps.Starting.{CanStart, IsNamedFor};
ghost use Rattle.om_links.specs.Network.{IsNetwork};
ghost use Rattle.om_links.specs.Wiring.{HasEnds};

use crate::main_task::MainTask;
use om_board::{Bell, Inbox, Naming, Pass};
use om_cluster::{Cluster, Config, Finished, Gate, Job, Opener, ProcessThread, stop_all};
use om_interval::Pid;
use om_links::{Ends, Links};
use om_node::{FlightChannel, SentStore, flight_channel, write_all};
use om_process::Image;
use om_report::RunFault;
use om_stable::Stable;
use om_tickets::{Opened, Series};
use std::marker::{Brand, PhantomData};
use std::sync::Wait;
use std::thread;
use std::thread::{Promise, PromisedHandle, Scope, Threads, join_promised};
use std::time::Clock;

// What the thread of a process promises: of which run, which image, which inboxes, which process and how many.
#[derive(Drop)]
pub(crate) struct EndOf<'a, S: Stable> {
    config: &'a Config,
    image: &'a Image,
    inboxes: &'a [Vec<Inbox>],
    own: Pid,
    n: usize,
    store: PhantomData<S>,
}

impl<'a, K: Naming, S: Stable> Promise<Result<Finished<K, S>, RunFault>> for EndOf<'a, S> {
    ghost kept_by = { λ p r. IfOk r (λ f. IsEndOf S.is_clean (program_of p.image.now) p.inboxes.now p.own p.n f)
        × IsOwnEnd p.config.now p.own r };
}

type Handle<'s, K, S> = PromisedHandle<Result<Finished<K, S>, RunFault>, EndOf<'s, S>>;

// Runs one process on a thread of the scope.
fn start<
    's,
    E,
    K: Naming + Send + Sync,
    J: Series + Send + Sync + 's,
    R: Threads + Wait + Clock + Sync,
    G: Gate + Sync,
    O: Opener<R> + Sync,
    W: ProcessThread + Send + Sync + 's,
>(
    scope: &Scope<'s, E>,
    cluster: &'s Cluster<'s, K, R, G, O>,
    image: &'s Image,
    job: Job<'s, K, J, O::Store>,
) -> Option<Handle<'s, K, O::Store>>
    requires program { slice_get K.programs job.links.ends.own ≡ Some (program_of image.now) }
    requires clean { HasCleanStores K.OverClean O.Store.is_clean }
    ensures config { IfSome result (λ h. h.promise.config.now ≡ cluster.entry.now.config.now) }
    ensures image { IfSome result (λ h. h.promise.image.now ≡ image.entry.now) }
    ensures inboxes { IfSome result (λ h. h.promise.inboxes.now ≡ job.entry.links.ends.lines) }
    ensures own { IfSome result (λ h. h.promise.own ≡ job.entry.links.ends.own) }
    ensures n { IfSome result (λ h. h.promise.n ≡ K.cell.n) }
{
    let end = EndOf {
        config: cluster.config,
        image,
        inboxes: job.links.inboxes(),
        own: job.links.own(),
        n: job.links.n(),
        store: PhantomData,
    };
    scope
        .spawn_with(
            end,
            move ||
                requires program { slice_get K.programs job.links.ends.own ≡ Some (program_of image.now) }
                requires clean { HasCleanStores K.OverClean O.Store.is_clean }
            { W::run(cluster, image, job) },
        )
        .ok()
}

// Starts, where stores are slow, a thread of the scope that writes the store of a process, and the way to it; None where it could not be made.
fn started_channel<
    's,
    E,
    K: Naming + Send + Sync,
    J: Series + Send + Sync + 's,
    R: Threads + Wait + Clock + Sync,
    G: Gate + Sync,
    O: Opener<R> + Sync,
>(
    scope: &Scope<'s, E>,
    cluster: &'s Cluster<'s, K, R, G, O>,
    own: Pid,
    opened: Opened<SentStore<O::Store>>,
) -> Option<Option<FlightChannel<J, O::Store>>>
    requires { opened.seen.book ≡ J.book }
{
    if !cluster.opener.is_slow() {
        return Some(None);
    }
    let bell = cluster.bells.get(own.index())?;
    let channel = open_channel::<E, K, J, R, G, O>(scope, cluster, bell, opened)?;
    Some(Some(channel))
}

// Starts a thread of the scope that writes a store and rings this bell, and the way to it; None where it could not be made.
fn open_channel<
    's,
    E,
    K: Naming + Send + Sync,
    J: Series + Send + Sync + 's,
    R: Threads + Wait + Clock + Sync,
    G: Gate + Sync,
    O: Opener<R> + Sync,
>(
    scope: &Scope<'s, E>,
    cluster: &'s Cluster<'s, K, R, G, O>,
    bell: &'s Bell,
    opened: Opened<SentStore<O::Store>>,
) -> Option<FlightChannel<J, O::Store>>
    requires { opened.seen.book ≡ J.book }
{
    let (rt, alloc) = (cluster.rt, cluster.alloc);
    let Ok((channel, far)) = flight_channel::<J, O::Store>(alloc, opened) else {
        return None;
    };
    match scope.spawn(move || write_all(rt, alloc, far, bell)) {
        Ok(_) => Some(channel),
        Err(_) => {
            drop(channel);
            None
        }
    }
}

// Runs one process, and the thread that writes its store where that is slow. The book of its flights has a name of its own.
fn start_apart<
    's,
    E,
    K: Naming + Send + Sync,
    J: Series + Send + Sync + 's,
    R: Threads + Wait + Clock + Sync,
    G: Gate + Sync,
    O: Opener<R> + Sync,
    W: ProcessThread + Send + Sync + 's,
>(
    scope: &Scope<'s, E>,
    cluster: &'s Cluster<'s, K, R, G, O>,
    image: &'s Image,
    links: Links<'s>,
    pass: Pass<K>,
    opened: Opened<SentStore<O::Store>>,
) -> Option<Handle<'s, K, O::Store>>
    requires sized { links.ends.n ≡ K.cell.n }
    requires program { slice_get K.programs links.ends.own ≡ Some (program_of image.now) }
    requires clean { HasCleanStores K.OverClean O.Store.is_clean }
    requires book { opened.seen.book ≡ J.book }
    ensures config { IfSome result (λ h. h.promise.config.now ≡ cluster.entry.now.config.now) }
    ensures image { IfSome result (λ h. h.promise.image.now ≡ image.entry.now) }
    ensures inboxes { IfSome result (λ h. h.promise.inboxes.now ≡ links.entry.ends.lines) }
    ensures own { IfSome result (λ h. h.promise.own ≡ links.entry.ends.own) }
    ensures n { IfSome result (λ h. h.promise.n ≡ K.cell.n) }
{
    let channel = started_channel::<E, K, J, R, G, O>(scope, cluster, links.own(), opened)?;
    start::<E, K, J, R, G, O, W>(
        scope,
        cluster,
        image,
        Job {
            links,
            pass,
            channel,
        },
    )
}

// Makes the ends of a process.
fn links_of<'s, K: Naming, R, G, O>(
    cluster: &'s Cluster<'s, K, R, G, O>,
    own: usize,
    ends: Ends,
) -> Links<'s>
    requires few { K.cell.n ≤ MAX_PROCESSES }
    requires own { own < K.cell.n }
    requires network { IsNetwork K.cell.n cluster.now.inboxes.now }
    requires ends { HasEnds K.cell.n cluster.now.inboxes.now own ends }
    ensures own { result.ends.own ≡ own }
    ensures n { result.ends.n ≡ K.cell.n }
    ensures lines { result.ends.lines ≡ cluster.entry.now.inboxes.now }
{
    let Ends { puts, takes } = ends;
    Links::new(
        Pid::at(own),
        cluster.inboxes,
        puts,
        takes,
        cluster.bells,
        cluster.received,
    )
}

// Runs all processes, each on a thread of its own; None where a thread could not be made, and then all are stopped.
fn start_all<
    's,
    E,
    K: Naming + Send + Sync,
    R: Threads + Wait + Clock + Sync,
    G: Gate + Sync,
    O: Opener<R> + Sync,
    W: ProcessThread + Send + Sync + 's,
>(
    scope: &Scope<'s, E>,
    cluster: &'s Cluster<'s, K, R, G, O>,
    ends: Vec<Ends>,
    mut passes: Vec<Pass<K>>,
    mut handles: Vec<Handle<'s, K, O::Store>>,
) -> Option<Vec<Handle<'s, K, O::Store>>>
    requires named { IsNamedFor O.Store.is_clean K.OverClean K.programs K.cell.n cluster.now.config.now.images.items }
    requires ready { CanStart K.cell.n cluster.now.inboxes.now ends.items (vec_len passes) }
    requires none { vec_len handles ≡ 0 }
    requires room { K.cell.n ≤ vec_capacity handles }
    ensures long { IfSome result (λ v. vec_len v ≡ K.cell.n) }
    ensures each { IfSome result (λ v. (i : ℕ) (a : Image) (h : _) → i < vec_len v
        → IsPromised cluster.entry.now.config.now (slice_index_or cluster.entry.now.config.now.images.items i a)
        cluster.entry.now.inboxes.now i K.cell.n
        (slice_index_or v.items i h).promise) }
{
    for one in ends {
        let Some(pass) = passes.pop() else {
            unreachable!()
        };
        let own = handles.len();
        let links = links_of(cluster, own, one);
        let image = &cluster.config.images[own];
        let opened = Opened::new();
        let Some(handle) = start_apart::<E, K, Brand, R, G, O, W>(
            scope, cluster, image, links, pass, opened,
        ) else {
            stop_all(cluster);
            return None;
        };
        handles.push_reserved(handle);
    }
    Some(handles)
}

// Runs all processes, each on a thread of its own, and what is beside them, and joins all. Returns what they brought back, and what was
// beside them.
pub(crate) fn run_scoped<
    K: Naming + Send + Sync,
    R: Threads + Wait + Clock + Sync,
    G: Gate + Sync,
    O: Opener<R> + Sync,
    B: MainTask<K, R>,
    W: ProcessThread + Send + Sync,
>(
    cluster: &Cluster<'_, K, R, G, O>,
    ends: Vec<Ends>,
    passes: Vec<Pass<K>>,
    beside: B,
) -> (
    Result<Vec<Result<Finished<K, O::Store>, RunFault>>, RunFault>,
    B,
)
    requires named { IsNamedFor O.Store.is_clean K.OverClean K.programs K.cell.n cluster.now.config.now.images.items }
    requires ready { CanStart K.cell.n cluster.now.inboxes.now ends.items (vec_len passes) }
    requires same { B.Becomes beside beside }
    ensures long { IfOk result.0 (λ v. vec_len v ≡ K.cell.n) }
    ensures each { IfOk result.0 (λ v. AreEndsOf O.Store.is_clean cluster.now.config.now.images.items
        cluster.now.inboxes.now K.cell.n v.items) }
    ensures own { IfOk result.0 (λ v. AreOwnEnds cluster.now.config.now K.cell.n v.items) }
    ensures fault { IfErr result.0 (IsFaultOf K.cell.n) }
    ensures beside { B.Becomes beside result.1 }
{
    thread::scope(
        thread::scope_env(),
        cluster.rt,
        |scope| -> (
            Result<Vec<Result<Finished<K, O::Store>, RunFault>>, RunFault>,
            B,
        )
            requires named { IsNamedFor O.Store.is_clean K.OverClean K.programs K.cell.n cluster.now.config.now.images.items }
            requires ready { CanStart K.cell.n cluster.now.inboxes.now ends.items (vec_len passes) }
            requires same { B.Becomes beside beside }
            ensures long { IfOk result.0 (λ v. vec_len v ≡ K.cell.n) }
            ensures each { IfOk result.0 (λ v. AreEndsOf O.Store.is_clean cluster.entry.now.config.now.images.items
                cluster.entry.now.inboxes.now K.cell.n v.items) }
            ensures own { IfOk result.0 (λ v. AreOwnEnds cluster.entry.now.config.now K.cell.n v.items) }
            ensures fault { IfErr result.0 (IsFaultOf K.cell.n) }
            ensures beside { B.Becomes beside result.1 }
        {
            let Ok(handles) = Vec::with_capacity(cluster.alloc, passes.len()) else {
                return (Err(RunFault::Memory), beside);
            };
            let Some(handles) = start_all::<_, K, R, G, O, W>(scope, cluster, ends, passes, handles)
            else {
                return (Err(RunFault::NoThread), beside);
            };
            let beside = beside.run_beside(cluster);
            match join_promised(cluster.rt, handles) {
                Ok(results) => (Ok(results), beside),
                Err(_) => (Err(RunFault::Memory), beside),
            }
        },
    )
}
