use crate::clusters::{Always, images};
use crate::rows::is_set;
use om_interval::Pid;
use om_process::Status;
use om_runner::{Config, OpenFault, Opener, Report, run_cluster};
use om_stable::{FuseStable, Ledger, LedgerTable, MemStable, Stable, Stop, StoreError, WriteBatch};
use std::alloc::Global;
use std::process::Abort;
use std::sync::Wait;
use std::sync::atomic::AtomicBool;
use std::sync::atomic::Ordering::SeqCst;
use std::thread::Threads;
use std::time::Clock;

// Sends to itself, receives, and ends.
const SELF: [u32; 12] = [
    0x00400893, 0x00000073, 0x00100893, 0x00000593, 0x00400613, 0x00000073, 0x00200893, 0x04000513,
    0x00400593, 0x00000073, 0x00000893, 0x00000073,
];

// A store that puts receipts only once those of the other process are put, and else stops that call, which answers Fault.
#[derive(Drop)]
pub struct Meets<'a> {
    pub inner: FuseStable<MemStable>,
    pub own: &'a AtomicBool,
    pub other: &'a AtomicBool,
}

impl<'a> Stable for Meets<'a> {
    ghost use Rattle.std.specs.Prelude.{true};
    ghost use Rattle.om_stable.specs.steps.Stop.{failed_behind};

    ghost content = { λ m. m.inner.inner };

    ghost failed = { λ m. failed_behind m.inner.stop 0 };

    ghost is_clean = { λ _. true };

    ghost IsSound = { λ _. Unit {0} };

    ghost call_gives = { λ _ _ _. Unit {0} };

    fn put_receipts(
        &mut self,
        alloc: Global,
        first: u32,
        recs: &[Vec<u8>],
    ) -> Result<(), StoreError> {
        self.own.store(true, SeqCst);
        if !is_set(self.other) && self.inner.stop != Stop::Past {
            self.inner.stop = Stop::After(0);
        }
        self.inner.put_receipts(alloc, first, recs)
    }

    fn put_checkpoint(&mut self, alloc: Global, x: u32, bytes: &[u8]) -> Result<(), StoreError> {
        self.inner.put_checkpoint(alloc, x, bytes)
    }

    fn effective(&mut self, alloc: Global, x: u32) -> Result<Option<(u32, Vec<u8>)>, StoreError> {
        self.inner.effective(alloc, x)
    }

    fn receipts(
        &mut self,
        alloc: Global,
        after: u32,
        to: u32,
    ) -> Result<Vec<(u32, Vec<u8>)>, StoreError> {
        self.inner.receipts(alloc, after, to)
    }

    fn cut(&mut self, alloc: Global, r: u32) -> Result<(), StoreError> {
        self.inner.cut(alloc, r)
    }

    fn prune(&mut self, alloc: Global, c: u32) -> Result<(), StoreError> {
        self.inner.prune(alloc, c)
    }

    fn failures(&self) -> u64 {
        self.inner.failures()
    }
}

// It keeps nothing beside its records.
impl<'a> Ledger for Meets<'a> {
    ghost use Rattle.std.specs.Prelude.{false, refl};
    ghost use Rattle.om_stable.specs.Ledger.{blank};

    ghost ledger = { λ _. blank };

    ghost keeps = { λ _. false };

    ghost stays = { λ old new error clean gives. refl };

    fn put_in(
        &mut self,
        alloc: Global,
        table: LedgerTable,
        first: u64,
        recs: &[Vec<u8>],
    ) -> Result<(), StoreError> {
        self.inner.put_in(alloc, table, first, recs)
    }

    fn all_in(
        &mut self,
        alloc: Global,
        table: LedgerTable,
    ) -> Result<Vec<(u64, Vec<u8>)>, StoreError> {
        self.inner.all_in(alloc, table)
    }

    fn put_batch(&mut self, alloc: Global, batch: &WriteBatch<'_>) -> Result<(), StoreError> {
        let puts_receipts = !batch.receipts.is_empty();
        if puts_receipts {
            self.own.store(true, SeqCst);
        }
        if puts_receipts && !is_set(self.other) && self.inner.stop != Stop::Past {
            self.inner.stop = Stop::After(0);
        }
        self.inner.put_batch(alloc, batch)
    }
}

// Makes such stores, for two processes.
#[derive(Drop)]
struct MeetingPairs<'a> {
    zero: &'a AtomicBool,
    one: &'a AtomicBool,
}

impl<'a, R> Opener<R> for MeetingPairs<'a> {
    type Store = Meets<'a>;

    fn make(&self, _rt: &R, alloc: Global, pid: Pid) -> Result<Meets<'a>, OpenFault> {
        let (own, other) = if pid.index() == 0 {
            (self.zero, self.one)
        } else {
            (self.one, self.zero)
        };
        Ok(Meets {
            inner: FuseStable::new(MemStable::new(alloc), u64::MAX),
            own,
            other,
        })
    }
}

// A run of the two over such stores.
fn run<R: Threads + Wait + Clock + Abort + Sync>(rt: &R, alloc: Global, config: &Config) -> Report {
    let (zero, one) = (AtomicBool::new(false), AtomicBool::new(false));
    let stores = MeetingPairs {
        zero: &zero,
        one: &one,
    };
    assert!(rt; config.images.len() == 2);
    run_cluster(rt, alloc, config, &Always(true), &stores).expect(rt, "a report")
}

// Returns whether both ended with 4 in interval 1, and nothing was put out.
fn is_right(report: &Report) -> bool {
    let ended = [Status::Ended(4), Status::Ended(4)];
    for outputs in &report.released {
        if !outputs.is_empty() {
            return false;
        }
    }
    report.statuses.as_slice() == ended.as_slice()
        && report.front.vec.as_slice() == [1, 1].as_slice()
}

#[test]
fn two_at_work(rt: HostRuntime) {
    let config = Config {
        images: images(&rt, rt.alloc(), 2, &SELF, 128),
        kills: Vec::new(rt.alloc()),
        flush: 1,
        checkpoint: 16,
        fuel: 1_000,
        turns: 50_000_000,
        gate_turns: 1,
    };
    let report = run(&rt, rt.alloc(), &config);
    drop(config);
    let is_right = is_right(&report);
    drop(report);
    assert!(&rt; is_right);
}
