//! What the report of a run says of its manager, and what threads share before any of them starts.

ghost use Rattle.std.specs.Prelude.{◌≡◌};

use crate::clusters::{Always, ring};
use crate::rows::process;
use om_runner::{Blank, Front, InMemory, Naming, Shared, run_cluster};
use std::alloc::Global;
use std::marker::Brand;
use std::process::Abort;
use std::sync::Wait;
use std::sync::atomic::Ordering::SeqCst;
use std::thread::Threads;
use std::time::Clock;

// The front of a ring of four over stores in memory as it ended.
fn front_of<R: Threads + Wait + Clock + Abort + Sync>(
    rt: &R,
    alloc: Global,
    kills: &[(u32, u32)],
) -> Front {
    let config = ring(rt, alloc, 4, kills);
    assert!(rt; 1 <= config.images.len() && config.images.len() <= 16);
    let told = run_cluster(rt, alloc, &config, &Always(true), &InMemory);
    drop(config);
    told.expect(rt, "a report").front
}

// Each failure made a round, and the recovery state is where the processes ended: each received six messages.
#[test]
fn a_report_has_the_last_front(rt: HostRuntime) {
    for (kills, rounds) in [([].as_slice(), 0), ([(2, 4)].as_slice(), 1)] {
        let front = front_of(&rt, rt.alloc(), kills);
        assert!(&rt; front.round == rounds && front.version > 0, "{front:?}");
        let ends = [6, 6, 6, 6];
        assert!(&rt; front.vec.as_slice() == ends.as_slice(), "{front:?}");
    }
}

// Returns how many failures were declared of processes that are not started yet.
fn declared<K: Naming>(rt: &impl Abort, alloc: Global, blank: Blank) -> u64
    requires { blank ≡ K.cell }
{
    let (shared, passes) = Shared::<K>::new(alloc, blank).expect(rt, "memory");
    drop(passes);
    shared.failures.load(SeqCst)
}

#[test]
fn no_failure_is_declared_at_the_start(rt: HostRuntime) {
    let blank = Blank::new(rt.alloc(), 2).expect(&rt, "memory");
    assert_eq!(&rt; declared::<Brand>(&rt, rt.alloc(), blank), 0);
}

// Process 1 of two is quiet, and nobody else has said anything: so not all are.
fn one_is_quiet<K: Naming, R: Wait + Abort>(rt: &R, alloc: Global, blank: Blank)
    requires named { blank ≡ K.cell }
{
    let (shared, passes) = Shared::<K>::new(alloc, blank).expect(rt, "memory");
    drop(passes);
    let mut board = shared.board.lock(rt);
    let pid = process(rt, 1);
    let is_right = pid.index() < board.manager().recovery().n() && !board.quiet(pid, 0);
    drop(board);
    drop(shared);
    assert!(rt; is_right);
}

#[test]
fn one_that_is_quiet_is_not_all(rt: HostRuntime) {
    let blank = Blank::new(rt.alloc(), 2).expect(&rt, "memory");
    one_is_quiet::<Brand, _>(&rt, rt.alloc(), blank);
}
