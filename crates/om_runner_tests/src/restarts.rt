ghost use Rattle.std.specs.Prelude.{◌≡◌, ◌≢◌, ◌≤◌, Err, IsErrOf};
ghost use Rattle.om_stable.specs.Count.{Rose};

use crate::clusters::{Always, RING, assert_ring, images, ring};
use om_interval::Pid;
use om_process::Witness;
use om_runner::{Config, OpenFault, Opener, Report, RunFault, run_and_keep_witnesses};
use om_stable::{Ledger, LedgerTable, MemLedger, Stable, StoreError, WriteBatch};
use std::alloc::Global;
use std::process::Abort;
use std::sync::atomic::Ordering::SeqCst;
use std::sync::atomic::{AtomicBool, AtomicU64};
use std::sync::{Mutex, MutexGuard, Wait};
use std::thread::Threads;
use std::time::Clock;

// How many calls of its stores a run has that nothing stops.
const ALL: u64 = 1_000_000_000;

// The stores of a cluster, which outlive its runs.
#[derive(Drop)]
pub struct Shelf {
    pub stores: Vec<Mutex<MemLedger>>,
    // How many calls of them pass before the program is stopped.
    pub calls: AtomicU64,
    // It is stopped too once they were given so many receipts.
    pub room: AtomicU64,
    // How many receipts they were given, and how often they were cut.
    pub receipts: AtomicU64,
    pub cuts: AtomicU64,
    // Whether they tell wrong senders of the receipts that they dropped.
    pub lie: AtomicBool,
}

// One of them, as a run has it. Nothing is said of what it holds.
#[derive(Drop)]
pub struct Left<'a> {
    shelf: &'a Shelf,
    store: &'a Mutex<MemLedger>,
    failures: u64,
}

// Counts a fault.
fn told<T>(failures: &mut u64, answer: Result<T, StoreError>) -> Result<T, StoreError>
    ensures fault { IsErrOf result StoreError.Fault → Rose failures.old failures.new }
    ensures count { failures.old ≤ failures.new }
    ensures same { result ≡ answer }
{
    if let Err(StoreError::Fault) = &answer {
        *failures = failures.saturating_add(1);
    }
    answer
}

// Names another of three processes as the first sender of each row.
fn falsify(rows: &mut [(u64, Vec<u8>)]) {
    for (_, senders) in rows {
        if let Some(first) = senders.first_mut() {
            *first = (*first % 3 + 1) % 3;
        }
    }
}

impl<'a> Left<'a> {
    // The store, for a call that passes: none does once the program is stopped.
    fn open(&self) -> Result<MutexGuard<'a, MemLedger>, StoreError>
        ensures { result ≢ Err StoreError.Present }
    {
        let left = self.shelf.calls.load(SeqCst);
        self.shelf.calls.store(left.saturating_sub(1), SeqCst);
        if left == 0 || self.shelf.receipts.load(SeqCst) >= self.shelf.room.load(SeqCst) {
            return Err(StoreError::Fault);
        }
        match self.store.try_lock() {
            Some(store) => Ok(store),
            None => Err(StoreError::Memory),
        }
    }
}

impl<'a> Stable for Left<'a> {
    ghost use Rattle.std.specs.Prelude.{false};
    ghost use Rattle.om_stable.specs.Content.{nothing};

    ghost content = { λ _. nothing };

    ghost failed = { λ s. s.failures };

    ghost is_clean = { λ _. false };

    ghost IsSound = { λ _. Unit {0} };

    ghost call_gives = { λ _ _ _. Unit {0} };

    fn put_receipts(
        &mut self,
        alloc: Global,
        first: u32,
        recs: &[Vec<u8>],
    ) -> Result<(), StoreError> {
        let answer = match self.open() {
            Ok(mut store) => store.put_receipts(alloc, first, recs),
            Err(error) => Err(error),
        };
        if answer.is_ok() {
            self.shelf.receipts.fetch_add(recs.len() as u64, SeqCst);
        }
        told(&mut self.failures, answer)
    }

    fn put_checkpoint(&mut self, alloc: Global, x: u32, bytes: &[u8]) -> Result<(), StoreError> {
        let answer = match self.open() {
            Ok(mut store) => store.put_checkpoint(alloc, x, bytes),
            Err(error) => Err(error),
        };
        told(&mut self.failures, answer)
    }

    fn effective(&mut self, alloc: Global, x: u32) -> Result<Option<(u32, Vec<u8>)>, StoreError> {
        let answer = match self.open() {
            Ok(mut store) => store.effective(alloc, x),
            Err(error) => Err(error),
        };
        told(&mut self.failures, answer)
    }

    fn receipts(
        &mut self,
        alloc: Global,
        after: u32,
        to: u32,
    ) -> Result<Vec<(u32, Vec<u8>)>, StoreError> {
        let answer = match self.open() {
            Ok(mut store) => store.receipts(alloc, after, to),
            Err(error) => Err(error),
        };
        told(&mut self.failures, answer)
    }

    fn cut(&mut self, alloc: Global, r: u32) -> Result<(), StoreError> {
        let answer = match self.open() {
            Ok(mut store) => store.cut(alloc, r),
            Err(error) => Err(error),
        };
        if answer.is_ok() {
            self.shelf.cuts.fetch_add(1, SeqCst);
        }
        told(&mut self.failures, answer)
    }

    fn prune(&mut self, alloc: Global, c: u32) -> Result<(), StoreError> {
        let answer = match self.open() {
            Ok(mut store) => store.prune(alloc, c),
            Err(error) => Err(error),
        };
        told(&mut self.failures, answer)
    }

    fn failures(&self) -> u64 {
        self.failures
    }
}

impl<'a> Ledger for Left<'a> {
    ghost use Rattle.std.specs.Prelude.{true, refl};
    ghost use Rattle.om_stable.specs.Ledger.{blank};

    ghost ledger = { λ _. blank };

    ghost keeps = { λ _. true };

    ghost stays = { λ old new error clean gives. refl };

    fn put_in(
        &mut self,
        alloc: Global,
        table: LedgerTable,
        first: u64,
        recs: &[Vec<u8>],
    ) -> Result<(), StoreError> {
        let answer = match self.open() {
            Ok(mut store) => store.put_in(alloc, table, first, recs),
            Err(error) => Err(error),
        };
        told(&mut self.failures, answer)
    }

    fn all_in(
        &mut self,
        alloc: Global,
        table: LedgerTable,
    ) -> Result<Vec<(u64, Vec<u8>)>, StoreError> {
        let answer = match self.open() {
            Ok(mut store) => store.all_in(alloc, table),
            Err(error) => Err(error),
        };
        let mut answer = answer;
        if let Ok(rows) = &mut answer {
            if table == LedgerTable::Senders && self.shelf.lie.load(SeqCst) {
                falsify(rows);
            }
        }
        told(&mut self.failures, answer)
    }

    fn put_batch(&mut self, alloc: Global, batch: &WriteBatch<'_>) -> Result<(), StoreError> {
        let answer = match self.open() {
            Ok(mut store) => store.put_batch(alloc, batch),
            Err(error) => Err(error),
        };
        if answer.is_ok() {
            let count = batch.receipts.len() as u64;
            self.shelf.receipts.fetch_add(count, SeqCst);
        }
        told(&mut self.failures, answer)
    }
}

// The store of a process on a shelf.
pub fn store_on(shelf: &Shelf, p: usize) -> Option<Left<'_>> {
    match shelf.stores.get(p) {
        Some(store) => Some(Left {
            shelf,
            store,
            failures: 0,
        }),
        None => None,
    }
}

// Makes stores of what stands on a shelf.
#[derive(Drop)]
pub struct OnShelf<'a> {
    pub shelf: &'a Shelf,
}

impl<'a, R> Opener<R> for OnShelf<'a> {
    type Store = Left<'a>;

    fn make(&self, _rt: &R, _alloc: Global, pid: Pid) -> Result<Left<'a>, OpenFault> {
        match store_on(self.shelf, pid.index()) {
            Some(store) => Ok(store),
            None => Err(OpenFault::Refused),
        }
    }

    fn resumes(&self) -> bool {
        true
    }
}

// So many stores that hold nothing.
pub fn blank_shelf(rt: &impl Abort, alloc: Global, n: usize) -> Shelf {
    let mut stores = Vec::new(alloc);
    for _ in 0..n {
        let store = Mutex::new(MemLedger::new(alloc));
        stores.push(store).expect(rt, "memory");
    }
    Shelf {
        stores,
        calls: AtomicU64::new(ALL),
        room: AtomicU64::new(ALL),
        receipts: AtomicU64::new(0),
        cuts: AtomicU64::new(0),
        lie: AtomicBool::new(false),
    }
}

// A run over a shelf, which is stopped after so many calls.
fn run<R: Threads + Wait + Clock + Abort + Sync>(
    rt: &R,
    alloc: Global,
    config: &Config,
    shelf: &Shelf,
    calls: u64,
) -> Result<(Report, Vec<Witness>), RunFault> {
    assert!(rt; 1 <= config.images.len() && config.images.len() <= 16);
    shelf.calls.store(calls, SeqCst);
    let opener = OnShelf { shelf };
    run_and_keep_witnesses(rt, alloc, config, &Always(true), &opener)
}

// Returns whether all six messages that a process received are from this one.
fn are_all_from(witness: &Witness, before: u32) -> bool {
    witness.senders.len() == 6
        && witness
            .senders
            .iter()
            .all(|from| u32::from(*from) == before)
}

// A run over a shelf to its end: the outputs and the codes are those of a ring of so many, and each process received all from the
// one before it.
pub fn assert_run<R: Threads + Wait + Clock + Abort + Sync>(
    rt: &R,
    alloc: Global,
    config: &Config,
    shelf: &Shelf,
    n: u32,
) {
    let (report, witnesses) = run(rt, alloc, config, shelf, ALL).expect(rt, "a report");
    assert_ring(rt, n, &report);
    drop(report);
    let mut before = n.saturating_sub(1);
    for p in 0..n {
        let is_all = witnesses
            .get(p as usize)
            .is_some_and(|witness| are_all_from(witness, before));
        assert!(rt; is_all, "{p}");
        before = p;
    }
    drop(witnesses);
}

// A ring that is stopped after so many calls, and after so many of its restart, and then taken up.
fn assert_taken_up<R: Threads + Wait + Clock + Abort + Sync>(
    rt: &R,
    alloc: Global,
    config: &Config,
    n: u32,
    calls: (u64, u64),
) {
    let shelf = blank_shelf(rt, alloc, n as usize);
    drop(run(rt, alloc, config, &shelf, calls.0));
    drop(run(rt, alloc, config, &shelf, calls.1));
    assert_run(rt, alloc, config, &shelf, n);
    assert_run(rt, alloc, config, &shelf, n);
}

// A ring of three whose stores have some sixty calls is stopped after each of them.
#[test]
fn a_ring_that_was_stopped_goes_on(rt: HostRuntime) {
    let config = ring(&rt, rt.alloc(), 3, &[(1, 3)]);
    for calls in 0..80u64 {
        assert_taken_up(&rt, rt.alloc(), &config, 3, (calls, calls));
    }
    drop(config);
}

#[test]
fn a_restart_that_was_stopped_goes_on(rt: HostRuntime) {
    let mut config = ring(&rt, rt.alloc(), 3, &[]);
    config.flush = 1;
    config.checkpoint = 2;
    for calls in 0..15u64 {
        assert_taken_up(&rt, rt.alloc(), &config, 3, (60, calls * 2));
        assert_taken_up(&rt, rt.alloc(), &config, 3, (calls * 5, 24));
    }
    drop(config);
}

// A first start that resumes is a run like another, whatever fails in it.
#[test]
fn a_first_start_is_a_run(rt: HostRuntime) {
    let config = ring(&rt, rt.alloc(), 8, &[(3, 3), (5, 5)]);
    let shelf = blank_shelf(&rt, rt.alloc(), 8);
    assert_run(&rt, rt.alloc(), &config, &shelf, 8);
    drop(config);
    drop(shelf);
}

// Returns how many records and checkpoints the stores of a shelf hold: how many receipts, and the newest checkpoint.
fn held(rt: &impl Abort, alloc: Global, shelf: &Shelf) -> Vec<(usize, Option<u32>)> {
    let mut all = Vec::new(alloc);
    for store in &shelf.stores {
        let mut store = store.try_lock().expect(rt, "a store");
        let receipts = store.receipts(alloc, 0, u32::MAX).expect(rt, "receipts");
        let newest = store.effective(alloc, u32::MAX).expect(rt, "a look");
        let newest = newest.map(|(x, _)| x);
        all.push((receipts.len(), newest)).expect(rt, "memory");
    }
    all
}

// A run over a shelf is refused with this fault, and the stores hold what they held.
fn assert_refused<R: Threads + Wait + Clock + Abort + Sync>(
    rt: &R,
    alloc: Global,
    config: &Config,
    shelf: &Shelf,
    fault: &RunFault,
) {
    let before = held(rt, alloc, shelf);
    let told = run(rt, alloc, config, shelf, ALL).err();
    let is_told = told.as_ref() == Some(fault);
    assert!(rt; is_told, "{told:?}");
    let after = held(rt, alloc, shelf);
    let is_same = before == after;
    drop(before);
    drop(after);
    assert!(rt; is_same);
}

// A shelf of a ring of three that was stopped after so many calls.
fn stopped<R: Threads + Wait + Clock + Abort + Sync>(
    rt: &R,
    alloc: Global,
    config: &Config,
    calls: u64,
) -> Shelf {
    let shelf = blank_shelf(rt, alloc, 3);
    drop(run(rt, alloc, config, &shelf, calls));
    shelf
}

#[test]
fn a_store_that_was_lost_is_missed(rt: HostRuntime) {
    let config = ring(&rt, rt.alloc(), 3, &[]);
    let mut shelf = stopped(&rt, rt.alloc(), &config, 60);
    let lost = shelf.stores.get_mut(1).expect(&rt, "a store");
    *lost = Mutex::new(MemLedger::new(rt.alloc()));
    assert_refused(
        &rt,
        rt.alloc(),
        &config,
        &shelf,
        &RunFault::StoreMissing(Pid::at(1)),
    );
    drop(shelf);
    drop(config);
}

// A ring of three whose processes have twice the memory.
fn with_more_memory(rt: &impl Abort, alloc: Global) -> Config {
    Config {
        images: images(rt, alloc, 3, &RING, 1_024),
        kills: Vec::new(alloc),
        flush: 2,
        checkpoint: 3,
        fuel: 1_000,
        turns: 50_000_000,
        gate_turns: 1,
    }
}

// Of a ring of two, or of three with more memory.
#[test]
fn stores_of_another_cluster_are_refused(rt: HostRuntime) {
    let config = ring(&rt, rt.alloc(), 3, &[]);
    let shelf = stopped(&rt, rt.alloc(), &config, 60);
    drop(config);
    let two = ring(&rt, rt.alloc(), 2, &[]);
    assert_another(&rt, rt.alloc(), two, &shelf);
    let greater = with_more_memory(&rt, rt.alloc());
    assert_another(&rt, rt.alloc(), greater, &shelf);
    drop(shelf);
}

// The stores are those of another cluster.
fn assert_another<R: Threads + Wait + Clock + Abort + Sync>(
    rt: &R,
    alloc: Global,
    config: Config,
    shelf: &Shelf,
) {
    let fault = RunFault::AnotherCluster(Pid::at(0));
    assert_refused(rt, alloc, &config, shelf, &fault);
    drop(config);
}

// Puts a receipt that is none behind all that process 2 stored.
fn put_none(rt: &impl Abort, alloc: Global, shelf: &Shelf) {
    let mut record = Vec::new(alloc);
    let none = Vec::from_slice(alloc, b"none").expect(rt, "memory");
    record.push(none).expect(rt, "memory");
    let store = shelf.stores.get(2).expect(rt, "a store");
    let mut open = store.try_lock().expect(rt, "a store");
    let put = open.put_receipts(alloc, 100, &record);
    drop(open);
    assert!(rt; put.is_ok());
}

#[test]
fn a_damaged_store_is_refused(rt: HostRuntime) {
    let config = ring(&rt, rt.alloc(), 3, &[]);
    let shelf = stopped(&rt, rt.alloc(), &config, 60);
    put_none(&rt, rt.alloc(), &shelf);
    let fault = RunFault::Fault(Pid::at(2));
    assert_refused(&rt, rt.alloc(), &config, &shelf, &fault);
    drop(shelf);
    drop(config);
}
