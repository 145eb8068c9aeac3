//! Clusters whose processes go on while what they store is written.

use crate::clusters::{Always, assert_ring, ring};
use crate::scribes::Keeper;
use om_interval::Pid;
use om_runner::{
    Act, Config, OpenFault, Opener, Record, Report, RunFault, run_and_record, run_cluster,
};
use om_stable::{FuseStable, Ledger, LedgerTable, MemStable, Stable, StoreError, WriteBatch};
use std::alloc::Global;
use std::process::Abort;
use std::sync::Wait;
use std::thread;
use std::thread::Threads;
use std::time::{Clock, Duration};

// A store in memory that takes so many milliseconds for a batch.
#[derive(Drop)]
struct Lingering<'a, R> {
    rt: &'a R,
    inner: FuseStable<MemStable>,
    millis: u64,
}

impl<'a, R: Clock> Stable for Lingering<'a, R> {
    ghost use Rattle.std.specs.Prelude.{true};
    ghost use Rattle.om_stable.specs.steps.Stop.{failed_behind};

    ghost content = { λ s. s.inner.inner };

    ghost failed = { λ s. failed_behind s.inner.stop 0 };

    ghost is_clean = { λ _. true };

    ghost IsSound = { λ _. Unit {0} };

    ghost call_gives = { λ _ _ _. Unit {0} };

    fn put_receipts(
        &mut self,
        alloc: Global,
        first: u32,
        recs: &[Vec<u8>],
    ) -> Result<(), StoreError> {
        self.inner.put_receipts(alloc, first, recs)
    }

    fn put_checkpoint(&mut self, alloc: Global, x: u32, bytes: &[u8]) -> Result<(), StoreError> {
        self.inner.put_checkpoint(alloc, x, bytes)
    }

    fn effective(&mut self, alloc: Global, x: u32) -> Result<Option<(u32, Vec<u8>)>, StoreError> {
        self.inner.effective(alloc, x)
    }

    fn receipts(
        &mut self,
        alloc: Global,
        after: u32,
        to: u32,
    ) -> Result<Vec<(u32, Vec<u8>)>, StoreError> {
        self.inner.receipts(alloc, after, to)
    }

    fn cut(&mut self, alloc: Global, r: u32) -> Result<(), StoreError> {
        self.inner.cut(alloc, r)
    }

    fn prune(&mut self, alloc: Global, c: u32) -> Result<(), StoreError> {
        self.inner.prune(alloc, c)
    }

    fn failures(&self) -> u64 {
        self.inner.failures()
    }
}

// It keeps nothing beside its records.
impl<'a, R: Clock> Ledger for Lingering<'a, R> {
    ghost use Rattle.std.specs.Prelude.{false, refl};
    ghost use Rattle.om_stable.specs.Ledger.{blank};

    ghost ledger = { λ _. blank };

    ghost keeps = { λ _. false };

    ghost stays = { λ old new error clean gives. refl };

    fn put_in(
        &mut self,
        alloc: Global,
        table: LedgerTable,
        first: u64,
        recs: &[Vec<u8>],
    ) -> Result<(), StoreError> {
        self.inner.put_in(alloc, table, first, recs)
    }

    fn all_in(
        &mut self,
        alloc: Global,
        table: LedgerTable,
    ) -> Result<Vec<(u64, Vec<u8>)>, StoreError> {
        self.inner.all_in(alloc, table)
    }

    fn put_batch(&mut self, alloc: Global, batch: &WriteBatch<'_>) -> Result<(), StoreError> {
        thread::sleep(self.rt, Duration::from_millis(self.millis));
        self.inner.put_batch(alloc, batch)
    }
}

// Makes such stores, of which that of one process stops a call.
#[derive(Drop)]
struct Apart<'a, R> {
    rt: &'a R,
    millis: u64,
    pid: Pid,
    calls: u64,
}

impl<'a, R: Clock + Sync> Opener<R> for Apart<'a, R> {
    type Store = Lingering<'a, R>;

    fn make(&self, _rt: &R, alloc: Global, pid: Pid) -> Result<Lingering<'a, R>, OpenFault> {
        let calls = if pid == self.pid {
            self.calls
        } else {
            u64::MAX
        };
        Ok(Lingering {
            rt: self.rt,
            inner: FuseStable::new(MemStable::new(alloc), calls),
            millis: self.millis,
        })
    }

    fn is_slow(&self) -> bool {
        true
    }
}

// A run over such stores.
fn run<R: Threads + Wait + Clock + Abort + Sync>(
    rt: &R,
    alloc: Global,
    config: &Config,
    (millis, pid, calls): (u64, Pid, u64),
) -> Result<Report, RunFault> {
    assert!(rt; 1 <= config.images.len() && config.images.len() <= 16);
    let opener = Apart {
        rt,
        millis,
        pid,
        calls,
    };
    run_cluster(rt, alloc, config, &Always(true), &opener)
}

// A ring of eight, of whose processes one fails at each of its receipts in turn, while its flights are held back.
#[test]
fn a_kill_at_each_receipt(rt: HostRuntime) {
    for millis in [0, 3] {
        for x in 1..7 {
            let mut config = ring(&rt, rt.alloc(), 8, &[(3, x)]);
            config.flush = 1;
            config.checkpoint = 2;
            let unstopped = (millis, Pid::at(0), u64::MAX);
            let report = run(&rt, rt.alloc(), &config, unstopped).expect(&rt, "a report");
            drop(config);
            assert_ring(&rt, 8, &report);
            drop(report);
        }
    }
}

// Process 2 of a ring of eight: its store stops each call in turn. A refused flight ends the run, and is told as the fault of the
// process; past the last call nothing is stopped.
#[test]
fn a_flight_is_refused(rt: HostRuntime) {
    let pid = Pid::at(2);
    let mut faults: usize = 0;
    for calls in 0..12 {
        let config = ring(&rt, rt.alloc(), 8, &[(2, 4)]);
        let told = run(&rt, rt.alloc(), &config, (0, pid, calls));
        drop(config);
        match told {
            Ok(report) => assert_ring(&rt, 8, &report),
            Err(fault) => {
                assert!(rt; fault == RunFault::Fault(pid), "{calls}");
                faults = faults.saturating_add(1);
            }
        }
    }
    assert!(rt; faults >= 6, "{faults}");
}

// Returns what was recorded of a run whose flights are held back.
fn recorded<R: Threads + Wait + Clock + Abort + Sync>(
    rt: &R,
    alloc: Global,
    config: &Config,
) -> (Report, Record) {
    assert!(rt; 1 <= config.images.len() && config.images.len() <= 16);
    let opener = Apart {
        rt,
        millis: 2,
        pid: Pid::at(0),
        calls: u64::MAX,
    };
    let keeper = Keeper::new(alloc);
    let (told, keeper) = run_and_record(rt, alloc, config, &Always(true), &opener, keeper);
    let Keeper { record, has_gaps } = keeper;
    assert!(rt; !has_gaps);
    (told.expect(rt, "a report"), record)
}

// Returns whether checkpoints are told as they are spelled, one of process p among them, and nothing of it is told as stored
// that it had not received.
fn are_flights(acts: &[Act], p: Pid) -> bool {
    let mut received: usize = 0;
    let mut stored: usize = 0;
    let mut is_spelled = false;
    for act in acts {
        match act {
            Act::Give {
                letter,
                interval: Some(_),
            } if letter.to == p => received = received.saturating_add(1),
            Act::FlushFirst { process, count } if *process == p => {
                stored = stored.saturating_add(*count)
            }
            Act::Spell { process } if *process == p => is_spelled = true,
            Act::Checkpoint { .. } => return false,
            _ => {}
        }
        if stored > received {
            return false;
        }
    }
    is_spelled
}

// The first receipt of each process begins a flight with a checkpoint, however fast the others are.
#[test]
fn flights_are_recorded(rt: HostRuntime) {
    let mut config = ring(&rt, rt.alloc(), 8, &[]);
    config.flush = 1;
    config.checkpoint = 1;
    let (report, record) = recorded(&rt, rt.alloc(), &config);
    drop(config);
    assert_ring(&rt, 8, &report);
    drop(report);
    assert!(rt; are_flights(&record.acts, Pid::at(1)));
    drop(record);
}
