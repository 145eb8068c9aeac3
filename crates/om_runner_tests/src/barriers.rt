use crate::clusters::{Always, assert_ring, ring};
use crate::scribes::Keeper;
use om_interval::Pid;
use om_runner::{Act, Config, OpenFault, Opener, Record, Report, run_and_record};
use om_stable::{Ledger, LedgerTable, MemStable, Stable, StoreError, WriteBatch};
use std::alloc::Global;
use std::process::Abort;
use std::sync::Wait;
use std::sync::atomic::AtomicBool;
use std::sync::atomic::Ordering::SeqCst;
use std::thread;
use std::thread::Threads;
use std::time::{Clock, Duration};

// For how many milliseconds a slow store puts a checkpoint or cuts: the others have time for all that they might do.
const SLOW: u64 = 200;

// What is seen of the stores of a run.
#[derive(Drop)]
struct Seen {
    // The slow one has put its first checkpoint.
    is_made: AtomicBool,
    // Another put receipts before.
    is_early: AtomicBool,
}

// A store in memory, which may be slow.
#[derive(Drop)]
struct Paced<'a, R> {
    rt: &'a R,
    inner: MemStable,
    is_slow: bool,
    seen: &'a Seen,
}

impl<'a, R: Clock> Paced<'a, R> {
    fn linger(&self) {
        if self.is_slow {
            thread::sleep(self.rt, Duration::from_millis(SLOW));
        }
    }
}

impl<'a, R: Clock> Stable for Paced<'a, R> {
    ghost use Rattle.std.specs.Prelude.{true};

    ghost content = { λ s. s.inner };

    ghost failed = { λ _. 0 };

    ghost is_clean = { λ _. true };

    ghost IsSound = { λ _. Unit {0} };

    ghost call_gives = { λ _ _ _. Unit {0} };

    fn put_receipts(
        &mut self,
        alloc: Global,
        first: u32,
        recs: &[Vec<u8>],
    ) -> Result<(), StoreError> {
        if !self.seen.is_made.load(SeqCst) {
            self.seen.is_early.store(true, SeqCst);
        }
        self.inner.put_receipts(alloc, first, recs)
    }

    fn put_checkpoint(&mut self, alloc: Global, x: u32, bytes: &[u8]) -> Result<(), StoreError> {
        self.linger();
        if self.is_slow {
            self.seen.is_made.store(true, SeqCst);
        }
        self.inner.put_checkpoint(alloc, x, bytes)
    }

    fn effective(&mut self, alloc: Global, x: u32) -> Result<Option<(u32, Vec<u8>)>, StoreError> {
        self.inner.effective(alloc, x)
    }

    fn receipts(
        &mut self,
        alloc: Global,
        after: u32,
        to: u32,
    ) -> Result<Vec<(u32, Vec<u8>)>, StoreError> {
        self.inner.receipts(alloc, after, to)
    }

    fn cut(&mut self, alloc: Global, r: u32) -> Result<(), StoreError> {
        self.linger();
        self.inner.cut(alloc, r)
    }

    fn prune(&mut self, alloc: Global, c: u32) -> Result<(), StoreError> {
        self.inner.prune(alloc, c)
    }

    fn failures(&self) -> u64 {
        self.inner.failures()
    }
}

// It keeps nothing beside its records.
impl<'a, R: Clock> Ledger for Paced<'a, R> {
    ghost use Rattle.std.specs.Prelude.{false, refl};
    ghost use Rattle.om_stable.specs.Ledger.{blank};

    ghost ledger = { λ _. blank };

    ghost keeps = { λ _. false };

    ghost stays = { λ old new error clean gives. refl };

    fn put_in(
        &mut self,
        alloc: Global,
        table: LedgerTable,
        first: u64,
        recs: &[Vec<u8>],
    ) -> Result<(), StoreError> {
        self.inner.put_in(alloc, table, first, recs)
    }

    fn all_in(
        &mut self,
        alloc: Global,
        table: LedgerTable,
    ) -> Result<Vec<(u64, Vec<u8>)>, StoreError> {
        self.inner.all_in(alloc, table)
    }

    fn put_batch(&mut self, alloc: Global, batch: &WriteBatch<'_>) -> Result<(), StoreError> {
        if !batch.receipts.is_empty() && !self.seen.is_made.load(SeqCst) {
            self.seen.is_early.store(true, SeqCst);
        }
        if batch.checkpoint.is_some() {
            self.linger();
        }
        self.inner.put_batch(alloc, batch)
    }
}

// Makes such stores, of which that of one process is slow.
#[derive(Drop)]
struct OneSlow<'a, R> {
    rt: &'a R,
    slow: Pid,
    seen: &'a Seen,
}

impl<'a, R: Clock + Sync> Opener<R> for OneSlow<'a, R> {
    type Store = Paced<'a, R>;

    fn make(&self, _rt: &R, alloc: Global, pid: Pid) -> Result<Paced<'a, R>, OpenFault> {
        Ok(Paced {
            rt: self.rt,
            inner: MemStable::new(alloc),
            is_slow: pid == self.slow,
            seen: self.seen,
        })
    }
}

fn none_seen() -> Seen {
    Seen {
        is_made: AtomicBool::new(false),
        is_early: AtomicBool::new(false),
    }
}

// Returns what a run over stores of which one is slow reports, and what was recorded.
fn recorded<R: Threads + Wait + Clock + Abort + Sync>(
    rt: &R,
    alloc: Global,
    config: &Config,
    slow: u32,
    seen: &Seen,
) -> (Report, Record) {
    assert!(rt; 1 <= config.images.len() && config.images.len() <= 16 && slow < 16);
    let opener = OneSlow {
        rt,
        slow: Pid::at(slow as usize),
        seen,
    };
    let keeper = Keeper::new(alloc);
    let (told, keeper) = run_and_record(rt, alloc, config, &Always(true), &opener, keeper);
    let Keeper { record, has_gaps } = keeper;
    assert!(rt; !has_gaps);
    (told.expect(rt, "a report"), record)
}

// Returns whether nothing stands between the end of a round and the last of n returns but returns, and what is sent once more
// with them.
fn is_barred(acts: &[Act], n: usize) -> bool {
    let mut away = 0;
    for act in acts {
        match act {
            Act::Finish { .. } => {
                if away > 0 {
                    return false;
                }
                away = n;
            }
            Act::GoOn { .. } | Act::Back { .. } => {
                if away == 0 {
                    return false;
                }
                away -= 1;
            }
            Act::Resend { .. } | Act::Send { .. } => {}
            _ => {
                if away > 0 {
                    return false;
                }
            }
        }
    }
    away == 0
}

// Of a ring, of which those fail, in so many rounds, and which stores receipts by that number.
fn assert_barred<R: Threads + Wait + Clock + Abort + Sync>(
    rt: &R,
    alloc: Global,
    (n, kills, rounds): (u32, &[(u32, u32)], usize),
    flush: u32,
    slow: u32,
) {
    let mut config = ring(rt, alloc, n as usize, kills);
    config.flush = flush;
    let seen = none_seen();
    let (report, record) = recorded(rt, alloc, &config, slow, &seen);
    drop(config);
    assert_ring(rt, n, &report);
    drop(report);
    let is_barred = is_barred(&record.acts, n as usize);
    let met = record.recoveries.len();
    drop(record);
    assert!(rt; met == rounds, "{met}");
    assert!(rt; is_barred);
}

// Where nothing is stored before, the failure of process 3 takes all but processes 1 and 2 back to their start. Who is back has
// messages while process 0 still cuts its store.
#[test]
fn nobody_goes_on_before_all_are_up_again(rt: HostRuntime) {
    let one: (u32, &[(u32, u32)], usize) = (8, &[(3, 3)], 1);
    assert_barred(&rt, rt.alloc(), one, 7, 0);
    let two: (u32, &[(u32, u32)], usize) = (8, &[(3, 3), (5, 5)], 2);
    assert_barred(&rt, rt.alloc(), two, 7, 0);
    assert_barred(&rt, rt.alloc(), two, 2, 5);
    let three: (u32, &[(u32, u32)], usize) = (16, &[(3, 3), (5, 5), (5, 5)], 3);
    assert_barred(&rt, rt.alloc(), three, 7, 0);
}

// The last process of a ring is slow to put its first checkpoint, while the message is already on its way through the others.
#[test]
fn nobody_receives_before_all_stores_are_made(rt: HostRuntime) {
    let mut config = ring(&rt, rt.alloc(), 8, &[]);
    config.flush = 1;
    let seen = none_seen();
    let (report, record) = recorded(&rt, rt.alloc(), &config, 7, &seen);
    drop(config);
    drop(record);
    assert_ring(&rt, 8, &report);
    drop(report);
    assert!(&rt; seen.is_made.load(SeqCst));
    assert!(&rt; !seen.is_early.load(SeqCst));
}
