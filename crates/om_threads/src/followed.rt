//! A cluster whose outputs are told as they are released.

ghost use Rattle.std.specs.Prelude.{◌≡◌, ◌≢◌, ◌≤◌, [], IfErr, IfOk, List, length, map};
ghost use Rattle.om_process.specs.Images.{program_of};
ghost use Rattle.om_following.specs.Following.{IsFollowed};
ghost use Rattle.om_report.specs.Telling.{AreInOrder, AreToldMade, Told};
ghost use Rattle.om_following.specs.declared.follower.FollowFault.TheVariants.{Unwanted};
ghost use Rattle.om_node.specs.Nodes.{AreAlwaysClean, HasCleanStores};
ghost use Rattle.om_report.specs.Reports.{IsToldReport};
ghost use Rattle.om_threads.specs.steps.Ends.{AreParts};
ghost use Rattle.om_threads.specs.steps.Starting.{IsNamedFor};
ghost use Rattle.om_cluster.specs.Ends.{FitsCluster};

use crate::cluster::{run_workers, settled};
use crate::main_task::MainTask;
use crate::results::Parts;
use om_board::{Blank, Naming};
use om_cluster::{Cluster, Config, Gate, Opener, ProcessThread, ground_of, stop_all};
use om_following::{FollowFault, Follower, Following};
use om_interval::MAX_PROCESSES;
use om_observers::{Herald, Observers};
use om_report::{FollowedReport, RunFault};
use std::alloc::Global;
use std::marker::Brand;
use std::sync::Wait;
use std::thread::Threads;
use std::time::Clock;

// It tells a follower of what they release. Where the run is to come to no end, it stops them.
impl<'h, K: Naming, R: Wait, F: Follower> MainTask<K, R> for Following<'h, K, F> {
    ghost Becomes = { λ old new. (start : F)
        → IsFollowed F.Tells K.OverClean K.programs K.cell.n old.front.vec start old.lanes.items old.fault old.follower
        → IsFollowed F.Tells K.OverClean K.programs K.cell.n new.front.vec start new.lanes.items new.fault new.follower };

    fn run_beside<G, O>(self, cluster: &Cluster<'_, K, R, G, O>) -> Following<'h, K, F> {
        let n = cluster.bells.len();
        let following = self.follow(cluster.rt, cluster.alloc, cluster.shared, n);
        if following.is_over() {
            stop_all(cluster);
        }
        following
    }
}

// Tells the follower of the rest, which the workers brought back: all have ended. Returns the report of what it was told.
fn close<K: Naming, R: Wait, G, O: Opener<R>, F: Follower>(
    cluster: &Cluster<'_, K, R, G, O>,
    parts: Result<Parts<K, O::Store>, RunFault>,
    following: Following<'_, K, F>,
) -> (Result<FollowedReport, FollowFault>, F)
    requires named { IsNamedFor O.Store.is_clean K.OverClean K.programs K.cell.n cluster.now.config.now.images.items }
    requires parts { IfOk parts (AreParts O.Store.is_clean cluster.now.config.now.images.items cluster.now.inboxes.now) }
    ensures told { (start : F) → IsFollowed F.Tells K.OverClean K.programs K.cell.n following.entry.front.vec start following.entry.lanes.items following.entry.fault following.entry.follower
        → IfOk result.0 (λ report. (told : List Told) × F.Tells start result.1 told
        × IsToldReport K.OverClean K.programs report.statuses.items report.front told) }
    ensures partly { (start : F) → IsFollowed F.Tells K.OverClean K.programs K.cell.n following.entry.front.vec start following.entry.lanes.items following.entry.fault following.entry.follower
        → IfErr result.0 (λ fault. fault ≢ Unwanted → (told : List Told) × F.Tells start result.1 told × AreInOrder told
        × (K.OverClean → AreToldMade K.programs K.cell.n told)) }
{
    let parts = match parts {
        Ok(parts) => parts,
        Err(fault) => {
            let following = following.look(cluster.rt, cluster.alloc, cluster.shared);
            let (fault, follower) = following.into_fault(fault);
            return (Err(fault), follower);
        }
    };
    let (statuses, harvests, _stores, _, _) = settled(cluster, parts);
    let following = following.complete(cluster.rt, cluster.alloc, cluster.shared, harvests);
    following.into_report(statuses)
}

fn run_named<
    'x,
    K: Naming + Send + Sync,
    R: Threads + Wait + Clock + Sync,
    G: Gate + Sync,
    O: Opener<R> + Sync,
    F: Follower,
    W: ProcessThread + Send + Sync,
>(
    rt: &'x R,
    alloc: Global,
    config: &'x Config,
    gate: &'x G,
    opener: &'x O,
    follower: F,
    blank: Blank,
) -> (Result<FollowedReport, FollowFault>, F)
    requires named { blank ≡ K.cell }
    requires size { blank.n ≡ length config.now.images.items }
    requires some { 1 ≤ length config.now.images.items }
    requires few { FitsCluster config.now }
    requires programs { K.programs ≡ map program_of config.now.images.items }
    requires clean { HasCleanStores K.OverClean O.Store.is_clean }
    requires start { F.Tells follower follower [] }
    ensures told { IfOk result.0 (λ report. (told : List Told) × F.Tells follower result.1 told
        × IsToldReport K.OverClean K.programs report.statuses.items report.front told) }
    ensures partly { IfErr result.0 (λ fault. fault ≢ Unwanted → (told : List Told) × F.Tells follower result.1 told × AreInOrder told
        × (K.OverClean → AreToldMade (map program_of config.now.images.items) (length config.now.images.items) told)) }
{
    let Ok((ground, ends, passes)) = ground_of::<K>(alloc, config.images.len(), blank) else {
        return (Err(FollowFault::Run(RunFault::Memory)), follower);
    };
    let herald = Herald::new(alloc);
    let following = match Following::new(rt, alloc, &ground.shared, &herald, follower) {
        Ok(following) => following,
        Err(follower) => return (Err(FollowFault::Run(RunFault::Memory)), follower),
    };
    let cluster = Cluster {
        rt,
        alloc,
        config,
        gate,
        opener,
        shared: &ground.shared,
        stop: &ground.stop,
        returns: &ground.returns,
        census: &ground.census,
        observers: Observers {
            herald: Some(&herald),
            watch: opener.watch(),
            ..Observers::none()
        },
        inboxes: &ground.inboxes,
        bells: &ground.bells,
        received: &ground.received,
    };
    let (parts, following) = run_workers::<K, R, G, O, Following<'_, K, F>, W>(
        &cluster, ends, passes, following,
    );
    close(&cluster, parts, following)
}

/// Runs a cluster as [`run_and_keep_stores`](crate::run_and_keep_stores) does, and tells `follower` of its outputs as they are released: those of a
/// process in order and each once, those of different processes in the order in which they were released. It comes back beside how
/// the run ended; no output is kept that it was told of. Where a run is refused, it was told of what was released by then; of less where memory
/// ran out for what is released, or it wanted no more.
///
/// Refused with `Unwanted` where the follower wanted no more, which stops all workers; else as `run_and_keep_stores` is, and with `Memory`
/// also where memory ran out for what is released.
pub fn run_and_follow<
    R: Threads + Wait + Clock + Sync,
    G: Gate + Sync,
    O: Opener<R> + Sync,
    F: Follower,
    W: ProcessThread + Send + Sync,
>(
    rt: &R,
    alloc: Global,
    config: &Config,
    gate: &G,
    opener: &O,
    follower: F,
) -> (Result<FollowedReport, FollowFault>, F)
    requires some { 1 ≤ length config.now.images.items }
    requires few { FitsCluster config.now }
    requires start { F.Tells follower follower [] }
    ensures told { IfOk result.0 (λ report. (told : List Told) × F.Tells follower result.1 told
        × IsToldReport (AreAlwaysClean O.Store.is_clean) (map program_of config.now.images.items) report.statuses.items report.front told) }
    ensures partly { IfErr result.0 (λ fault. fault ≢ Unwanted → (told : List Told) × F.Tells follower result.1 told × AreInOrder told
        × (AreAlwaysClean O.Store.is_clean → AreToldMade (map program_of config.now.images.items) (length config.now.images.items) told)) }
{
    let Ok(blank) = Blank::new(alloc, config.images.len()) else {
        return (Err(FollowFault::Run(RunFault::Memory)), follower);
    };
    run_named::<Brand, R, G, O, F, W>(rt, alloc, config, gate, opener, follower, blank)
}
