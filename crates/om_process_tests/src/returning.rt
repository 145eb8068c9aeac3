use super::parts::{are_same, begun, go_on, passing_on, ten};
use super::replaying::stored;
use om_interval::{Pid, Starts, Verdict};
use om_process::{Down, ProcCore, ReplayFault, StartFault};
use om_stable::{FuseStable, MemStable, Stable};
use std::alloc::Global;
use std::process::Abort;

fn verdict(r: u32, back: bool) -> Verdict {
    Verdict {
        round: 1,
        inc: u32::from(back),
        r,
        back,
    }
}

fn starts(rt: &impl Abort, alloc: Global, n: usize) -> Starts {
    assert!(rt; 1 <= n && n <= 16);
    Starts::new(alloc, n).expect(rt, "memory")
}

// Rolls a process back to an interval, as its first incarnation.
fn roll_back<S: Stable>(
    rt: &impl Abort,
    alloc: Global,
    down: Down,
    store: &mut S,
    r: u32,
) -> Result<ProcCore, (Down, ReplayFault)> {
    let starts = starts(rt, alloc, down.n);
    assert!(rt; starts.n() == down.n);
    let answer = down.roll_back(alloc, store, &starts, &verdict(r, true));
    drop(starts);
    answer
}

// The process that took ten messages fails, and comes back to interval 6 over this store.
fn ten_come_back(rt: &impl Abort, alloc: Global, store: &mut MemStable) -> ProcCore {
    let mut lost = MemStable::new(alloc);
    let down = ten(rt, alloc, &mut lost).fail();
    drop(lost);
    roll_back(rt, alloc, down, store, 6).expect(rt, "a process")
}

// Returns how many receipts stand above an interval and at or below another.
fn receipts(rt: &impl Abort, alloc: Global, store: &mut MemStable, after: u32, to: u32) -> usize {
    store.receipts(alloc, after, to).expect(rt, "a store").len()
}

// It is in interval 6, in its first incarnation behind a failure, and nothing is left above.
fn assert_back(rt: &impl Abort, alloc: Global, back: &ProcCore, store: &mut MemStable) {
    assert!(rt; receipts(rt, alloc, store, 6, 10) == 0);
    assert!(rt; (back.interval(), back.inc(), back.round()) == (6, 1, 1));
}

#[test]
fn a_process_that_comes_back_comes_to_the_same_end(rt: HostRuntime) {
    let mut store = MemStable::new(rt.alloc());
    let core = ten(&rt, rt.alloc(), &mut store);
    let mut back = ten_come_back(&rt, rt.alloc(), &mut store);
    assert_back(&rt, rt.alloc(), &back, &mut store);
    for ssn in 6..10 {
        go_on(&rt, rt.alloc(), &mut back, ssn);
    }
    let are_same = are_same(&back, &core);
    drop(back);
    drop(store);
    drop(core);
    assert!(rt; are_same);
}

// Returns whether it goes on from its interval, which is not cut.
fn goes_on(rt: &impl Abort, alloc: Global, core: &mut ProcCore) -> bool {
    let starts = starts(rt, alloc, 2);
    let goes_on = core.vec().n() == starts.n()
        && core.resume(alloc, &starts, &verdict(0, false)).is_ok();
    drop(starts);
    goes_on
}

#[test]
fn a_process_that_is_not_rolled_back_goes_on(rt: HostRuntime) {
    let mut store = MemStable::new(rt.alloc());
    let mut core = passing_on(&rt, rt.alloc(), &mut store);
    drop(store);
    let goes_on = goes_on(&rt, rt.alloc(), &mut core);
    let told = (core.round(), core.inc());
    drop(core);
    assert!(rt; goes_on && told == (1, 0));
}

// Returns why a process does not come back to interval 2.
fn refused(
    rt: &impl Abort,
    alloc: Global,
    down: Down,
    store: &mut MemStable,
) -> Option<ReplayFault> {
    let (_, fault) = roll_back(rt, alloc, down, store, 2).err()?;
    Some(fault)
}

fn assert_refused(
    rt: &impl Abort,
    alloc: Global,
    store: &mut MemStable,
    (number, n): (u32, usize),
    fault: ReplayFault,
) {
    let pid = Pid::new(number).expect(rt, "a process");
    let told = refused(rt, alloc, Down { pid, n }, store);
    assert!(rt; told == Some(fault), "{number} of {n}");
}

// Over the store of process 1 of 3 with receipt 1: why a process of that number, of so many, does not come back to interval 2. The
// checkpoint of another process is told before a receipt that is missing, and what is refused stays.
#[test]
fn a_checkpoint_of_another_process_is_damaged(rt: HostRuntime) {
    let heap = rt.alloc();
    let mut store = stored(&rt, heap);
    assert_refused(&rt, heap, &mut store, (0, 3), ReplayFault::Damaged(0));
    assert_refused(&rt, heap, &mut store, (1, 2), ReplayFault::Damaged(0));
    assert_refused(
        &rt,
        heap,
        &mut store,
        (1, 3),
        ReplayFault::MissingReceipt(2),
    );
    let left = receipts(&rt, heap, &mut store, 0, 9);
    drop(store);
    assert!(rt; left == 1);
}

// Stores all, once more what was refused once.
fn store_all<S: Stable>(rt: &impl Abort, alloc: Global, core: &mut ProcCore, store: &mut S) {
    let flushed = core.flush(alloc, store).is_ok() || core.flush(alloc, store).is_ok();
    let stored = core.checkpoint(alloc, store).is_ok() || core.checkpoint(alloc, store).is_ok();
    assert!(rt; flushed && stored);
}

fn start_again<S: Stable>(rt: &impl Abort, alloc: Global, store: &mut S) -> ProcCore {
    let first = match begun(rt, alloc, store) {
        Err(StartFault::Fault) => begun(rt, alloc, store),
        other => other,
    };
    first.expect(rt, "a start")
}

// The process that comes back to interval 6, at once or where the first time was refused.
fn come_back<S: Stable>(rt: &impl Abort, alloc: Global, down: Down, store: &mut S) -> ProcCore {
    let second = match roll_back(rt, alloc, down, store, 6) {
        Err((again, _)) => roll_back(rt, alloc, again, store, 6),
        back => back,
    };
    second.expect(rt, "a process")
}

// It starts, takes six messages and stores them.
fn six<S: Stable>(rt: &impl Abort, alloc: Global, store: &mut S) -> ProcCore {
    let mut core = start_again(rt, alloc, store);
    for ssn in 0..6 {
        go_on(rt, alloc, &mut core, ssn);
    }
    store_all(rt, alloc, &mut core, store);
    core
}

// Returns how many rows the manager is still to be told of, and the interval that it comes back to.
fn done<S: Stable>(rt: &impl Abort, alloc: Global, store: &mut S) -> (usize, u32) {
    let core = six(rt, alloc, store);
    let pending = core.pending().len();
    let back = come_back(rt, alloc, core.fail(), store);
    let interval = back.interval();
    drop(back);
    (pending, interval)
}

// Returns whether all is done over a store with a fuse of so many calls.
fn is_done(rt: &impl Abort, alloc: Global, calls: u64) -> bool {
    let mut store = FuseStable::new(MemStable::new(alloc), calls);
    let told = done(rt, alloc, &mut store);
    let failures = store.failures();
    drop(store);
    told == (7, 6) && failures == u64::from(calls < 6)
}

// A fuse at each call of a store in turn, until none is reached: start, flush, checkpoint and the three of a roll back.
#[test]
fn what_a_store_refused_is_done_again(rt: HostRuntime) {
    for calls in 0..7 {
        assert!(rt; is_done(&rt, rt.alloc(), calls), "{calls}");
    }
}
