//! In each mode a cluster is run once, and fails as its file says: also where a check refuses what the threads did.

use super::modes::{AllAltering, TWICE, carry_out};
use crate::beside::Beside;
use om_commands::CommandError;
use om_interval::Pid;
use om_run_commands::RunMode;
use om_runner::{InMemory, OpenFault, Opener, Watch, Watched};
use std::alloc::Global;
use std::process::Abort;
use std::sync::Wait;
use std::sync::atomic::AtomicU64;
use std::sync::atomic::Ordering::SeqCst;
use std::thread::Threads;
use std::time::Clock;

static MODES: [RunMode<'static>; 5] = [
    RunMode::Plain,
    RunMode::Check,
    RunMode::Witness,
    RunMode::Record,
    RunMode::Follow,
];

// Makes the stores that another makes, and counts them.
#[derive(Drop)]
struct Counted<'a, O> {
    opener: &'a O,
    made: AtomicU64,
}

impl<'a, R, O: Opener<R>> Opener<R> for Counted<'a, O> {
    type Store = O::Store;

    fn make(&self, rt: &R, alloc: Global, pid: Pid) -> Result<O::Store, OpenFault> {
        self.made.fetch_add(1, SeqCst);
        self.opener.make(rt, alloc, pid)
    }

    fn resumes(&self) -> bool {
        self.opener.resumes()
    }
}

// Returns how many stores are made for a run of two processes of which one fails, and what is answered.
fn made<R: Threads + Wait + Clock + Sync, O: Opener<R> + Sync>(
    rt: &R,
    alloc: Global,
    mode: RunMode<'static>,
    opener: &O,
) -> (u64, Result<(), CommandError>) {
    let counted = Counted {
        opener,
        made: AtomicU64::new(0),
    };
    let mut beside = Beside::new(alloc);
    let told = carry_out(rt, alloc, mode, &counted, &mut beside, TWICE.as_bytes());
    (counted.made.load(SeqCst), told.0)
}

// A store is made for each process, and no other: a run that a check refuses is not tried again.
#[test]
fn a_cluster_is_run_once(rt: HostRuntime) {
    for mode in &MODES {
        let told = made(&rt, rt.alloc(), *mode, &InMemory);
        assert!(&rt; told == (2, Ok(())), "{mode:?}");
    }
    for mode in [RunMode::Check, RunMode::Witness] {
        let told = made(&rt, rt.alloc(), mode, &AllAltering);
        assert!(&rt; told == (2, Err(CommandError::Unlike)), "{mode:?}");
    }
}

// The failures that are seen of such a run.
fn failures<R: Threads + Wait + Clock + Abort + Sync>(
    rt: &R,
    alloc: Global,
    mode: RunMode<'static>,
) -> Vec<(Pid, u32)> {
    let watch = Watch::new(alloc, 2).expect(rt, "memory");
    let watched = Watched {
        opener: &InMemory,
        watch: Some(&watch),
    };
    let mut beside = Beside::new(alloc);
    let told = carry_out(rt, alloc, mode, &watched, &mut beside, TWICE.as_bytes());
    assert!(rt; told.0 == Ok(()), "{mode:?}");
    let failures = watch.failures(rt, alloc).expect(rt, "memory");
    drop(watch);
    failures
}

// The line `kill` of the file comes in each mode, in those that are checked too.
#[test]
fn kills_come_in_each_mode(rt: HostRuntime) {
    for mode in &MODES {
        let failures = failures(&rt, rt.alloc(), *mode);
        let wanted = [(Pid::at(1), 2)];
        assert!(&rt; failures.as_slice() == wanted.as_slice(), "{mode:?}");
    }
}
