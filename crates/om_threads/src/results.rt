//! What workers bring back, and which fault is told of all.

ghost use Rattle.std.specs.Prelude.{◌≡◌, ◌≤◌, ◌↔◌, ◌⊎◌, ◌+◌, ◌++◌, ◌∷◌, [], ℕ, IfErr, IfNone, IfOk, IfSome, IsTrue, OnOk, length, map, vec_len};
ghost use Rattle.om_report.specs.Faults.{IsFaultOf};
ghost use Rattle.om_report.specs.declared.fault.RunFault.TheVariants.{Memory};
ghost use Rattle.om_threads.specs.steps.Ends.{AreBelow, AreEndsOf, AreOwnEnds, AreParts, HasRoom, IsLeastFault, IsOut, IsWell};
ghost use Rattle.om_cluster.specs.Ends.{IsGiven};
ghost use Rattle.om_links.specs.Network.{IsNetwork};

use om_board::{Naming, PutPass, TakePass};
use om_cluster::{Cluster, Finished, Opener};
use om_process::{Status, Witness};
use om_report::{Harvest, RunFault};
use om_stable::Stable;
use std::alloc::{AllocError, Global};
use std::sync::Wait;

// What all workers brought back, by process.
#[derive(Drop)]
pub(crate) struct Parts<K: Naming, S: Stable> {
    pub(crate) statuses: Vec<Status>,
    pub(crate) harvests: Vec<Harvest<K>>,
    pub(crate) stores: Vec<S>,
    // By sender, and there by receiver.
    pub(crate) puts: Vec<Vec<PutPass>>,
    // By receiver, and there by sender.
    pub(crate) takes: Vec<Vec<TakePass>>,
    pub(crate) witnesses: Vec<Witness>,
}

impl<K: Naming, S: Stable> Parts<K, S> {
    // Makes parts of nothing, with room for what so many workers bring back.
    fn with_room(alloc: Global, n: usize) -> Result<Parts<K, S>, AllocError>
        ensures statuses { IfOk result (λ parts. parts.statuses.items ≡ []) }
        ensures harvests { IfOk result (λ parts. parts.harvests.items ≡ []) }
        ensures stores { IfOk result (λ parts. parts.stores.items ≡ []) }
        ensures puts { IfOk result (λ parts. parts.puts.items ≡ []) }
        ensures takes { IfOk result (λ parts. parts.takes.items ≡ []) }
        ensures room { IfOk result (λ parts. HasRoom n parts) }
    {
        let mut parts = Parts {
            statuses: Vec::new(alloc),
            harvests: Vec::new(alloc),
            stores: Vec::new(alloc),
            puts: Vec::new(alloc),
            takes: Vec::new(alloc),
            witnesses: Vec::new(alloc),
        };
        parts.reserve(n)?;
        Ok(parts)
    }

    // Makes room for what so many more workers bring back.
    fn reserve(&mut self, n: usize) -> Result<(), AllocError>
        ensures statuses { self.new.statuses.items ≡ self.old.statuses.items }
        ensures harvests { self.new.harvests.items ≡ self.old.harvests.items }
        ensures stores { self.new.stores.items ≡ self.old.stores.items }
        ensures puts { self.new.puts.items ≡ self.old.puts.items }
        ensures takes { self.new.takes.items ≡ self.old.takes.items }
        ensures room { OnOk result (HasRoom n self.new) }
    {
        self.statuses.try_reserve(n)?;
        self.harvests.try_reserve(n)?;
        self.stores.try_reserve(n)?;
        self.puts.try_reserve(n)?;
        self.takes.try_reserve(n)?;
        self.witnesses.try_reserve(n)?;
        Ok(())
    }

    // Adds what a worker brought back.
    fn push(&mut self, one: Finished<K, S>)
        requires { HasRoom 1 self.old }
        ensures statuses { self.new.statuses.items ≡ self.old.statuses.items ++ one.status ∷ [] }
        ensures harvests { self.new.harvests.items ≡ self.old.harvests.items ++ one.harvest ∷ [] }
        ensures stores { self.new.stores.items ≡ self.old.stores.items ++ one.store ∷ [] }
        ensures puts { self.new.puts.items ≡ self.old.puts.items ++ one.ends.puts ∷ [] }
        ensures takes { self.new.takes.items ≡ self.old.takes.items ++ one.ends.takes ∷ [] }
        ensures room { (k : ℕ) → HasRoom (k + 1) self.old → HasRoom k self.new }
    {
        let Finished {
            status,
            harvest,
            store,
            ends,
            witness,
        } = one;
        self.statuses.push_reserved(status);
        self.harvests.push_reserved(harvest);
        self.stores.push_reserved(store);
        self.puts.push_reserved(ends.puts);
        self.takes.push_reserved(ends.takes);
        self.witnesses.push_reserved(witness);
    }
}

// Returns whether the worker's turns were out.
fn is_out(fault: RunFault) -> bool
    ensures { IsTrue result ↔ IsOut fault }
{
    match fault {
        RunFault::Turns(_) => true,
        RunFault::GateShut(_)
        | RunFault::Memory
        | RunFault::Fault(_)
        | RunFault::Load(_)
        | RunFault::StoreInUse(_)
        | RunFault::AnotherCluster(_)
        | RunFault::StoreMissing(_)
        | RunFault::NoThread => false,
    }
}

// Returns the fault that is told, of those that workers ended with.
fn fault_of<K: Naming, S: Stable>(results: &[Result<Finished<K, S>, RunFault>]) -> Option<RunFault>
    ensures none { IfNone result (AreBelow IsWell (length results.now) results.now) }
    ensures least { IfSome result (IsLeastFault results.now) }
{
    let mut last = None;
    for i in 0..results.len() {
        match &results[i] {
            Ok(_) => {}
            Err(fault) => {
                if !is_out(*fault) {
                    return Some(*fault);
                }
                last = last.or(Some(*fault));
            }
        }
    }
    last
}

// Returns what all workers brought back.
fn all_of<K: Naming, S: Stable>(
    alloc: Global,
    results: Vec<Result<Finished<K, S>, RunFault>>,
) -> Result<Vec<Finished<K, S>>, RunFault>
    ensures all { IfOk result (λ all. map Ok all.items ≡ results.items) }
    ensures fault { IfErr result (λ f. IsLeastFault results.items f ⊎ (f ≡ Memory)) }
{
    if let Some(fault) = fault_of(&results) {
        return Err(fault);
    }
    let Ok(mut all) = Vec::with_capacity(alloc, results.len()) else {
        return Err(RunFault::Memory);
    };
    for result in results {
        all.push_reserved(result?);
    }
    Ok(all)
}

// Parts what was brought back into each kind, by process.
fn parted<K: Naming, S: Stable>(
    alloc: Global,
    all: Vec<Finished<K, S>>,
) -> Result<Parts<K, S>, AllocError>
    ensures statuses { IfOk result (λ parts. parts.statuses.items ≡ map (λ f. f.status) all.items) }
    ensures stores { IfOk result (λ parts. parts.stores.items ≡ map (λ f. f.store) all.items) }
    ensures puts { IfOk result (λ parts. parts.puts.items ≡ map (λ f. f.ends.puts) all.items) }
    ensures takes { IfOk result (λ parts. parts.takes.items ≡ map (λ f. f.ends.takes) all.items) }
    ensures harvests { IfOk result (λ parts. parts.harvests.items ≡ map (λ f. f.harvest) all.items) }
{
    let mut parts = Parts::with_room(alloc, all.len())?;
    for one in all {
        parts.push(one);
    }
    Ok(parts)
}

// Returns what workers brought back, where each ended well.
pub(crate) fn gathered<K: Naming, R: Wait, G, O: Opener<R>>(
    cluster: &Cluster<'_, K, R, G, O>,
    results: Vec<Result<Finished<K, O::Store>, RunFault>>,
) -> Result<Parts<K, O::Store>, RunFault>
    requires images { length cluster.now.config.now.images.items ≡ K.cell.n }
    requires network { IsNetwork K.cell.n cluster.now.inboxes.now }
    requires long { vec_len results ≡ K.cell.n }
    requires each { AreEndsOf O.Store.is_clean cluster.now.config.now.images.items cluster.now.inboxes.now K.cell.n results.items }
    requires own { AreOwnEnds cluster.now.config.now K.cell.n results.items }
    requires some { 1 ≤ K.cell.n }
    ensures parts { IfOk result (AreParts O.Store.is_clean cluster.now.config.now.images.items cluster.now.inboxes.now) }
    ensures given { OnOk result (IsGiven cluster.now.config.now) }
    ensures fault { IfErr result (λ f. IsLeastFault results.items f ⊎ (f ≡ Memory)) }
    ensures own { IfErr result (IsFaultOf K.cell.n) }
{
    let all = all_of(cluster.alloc, results)?;
    match parted(cluster.alloc, all) {
        Ok(parts) => Ok(parts),
        Err(_) => Err(RunFault::Memory),
    }
}
