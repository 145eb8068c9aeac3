use crate::clusters::{Always, Fused, ring, unstopped};
use crate::rows::front;
use crate::waiting::{ENDS, WAITS, cluster};
use om_interval::Pid;
use om_machine::Cause;
use om_process::Status;
use om_runner::{Config, Doing, Progress, RunFault, Sight, Watch, Watched, run_cluster};
use std::alloc::Global;
use std::process::Abort;
use std::sync::Wait;
use std::sync::atomic::AtomicBool;
use std::thread::Threads;
use std::time::Clock;

const WAITING: Doing = Doing::Up(Status::Waiting);

// Process 1 sends to process 0, and receives. The other receives once, and counts down from 2,147,479,552.
const COUNTS: [u32; 19] = [
    0x00400893, 0x00000073, 0x02051063, 0x00200893, 0x10000513, 0x00400593, 0x00000073, 0x7FFFF2B7,
    0xFFF28293, 0xFE029EE3, 0x00100893, 0x00000513, 0x10000593, 0x00400613, 0x00000073, 0x00200893,
    0x10000513, 0x00400593, 0x00000073,
];

// addi x5, x0, 7; jal x0, 8; and behind what is jumped over, ebreak.
const BREAKS: [u32; 4] = [0x00700293, 0x0080006F, 0x00000000, 0x00100073];

// Process 0 sends 4 bytes to process 1, which receives them, and loads from address -4.
const FAULTS: [u32; 15] = [
    0x00400893, 0x00000073, 0x02051063, 0x00100893, 0x00100513, 0x10000593, 0x00400613, 0x00000073,
    0x00000893, 0x00000073, 0x00200893, 0x10000513, 0x00400593, 0x00000073, 0xFFC02303,
];

// Returns why the run of a cluster that is watched came to no end.
fn fault_of<'a, R: Threads + Wait + Clock + Abort + Sync>(
    rt: &R,
    alloc: Global,
    config: &Config,
    opener: &'a Fused<'a>,
    watch: &'a Watch,
) -> Option<RunFault> {
    assert!(rt; 1 <= config.images.len() && config.images.len() <= 16);
    let watch = Some(watch);
    let watched = Watched { opener, watch };
    run_cluster(rt, alloc, config, &Always(true), &watched).err()
}

// Returns why the run of a cluster came to no end, and who watched it.
fn watched<R: Threads + Wait + Clock + Abort + Sync>(
    rt: &R,
    alloc: Global,
    config: &Config,
) -> (Option<RunFault>, Watch) {
    let set = AtomicBool::new(true);
    let opener = unstopped(&set);
    let watch = Watch::new(alloc, config.images.len()).expect(rt, "memory");
    let fault = fault_of(rt, alloc, config, &opener, &watch);
    (fault, watch)
}

// Returns what was seen of the processes of a cluster, and why its run came to no end.
pub fn seen<R: Threads + Wait + Clock + Abort + Sync>(
    rt: &R,
    alloc: Global,
    config: &Config,
) -> (Option<RunFault>, Vec<Sight>) {
    let (fault, watch) = watched(rt, alloc, config);
    let sights = watch.sights(rt, alloc).expect(rt, "memory");
    (fault, sights)
}

// What the processes of a run that is out of turns are seen to do, and in which interval.
fn assert_seen<R: Threads + Wait + Clock + Abort + Sync>(
    rt: &R,
    alloc: Global,
    config: Config,
    doing: &[(Doing, u32)],
) {
    let (fault, sights) = seen(rt, alloc, &config);
    drop(config);
    assert!(rt; matches!(fault, Some(RunFault::Turns(_))), "{fault:?}");
    assert!(rt; sights.len() == doing.len());
    for (sight, (doing, interval)) in sights.iter().zip(doing) {
        assert!(rt;
            sight.doing == *doing && sight.interval == *interval,
            "{sight:?}"
        );
    }
}

#[test]
fn those_that_wait_are_seen(rt: HostRuntime) {
    let alloc = rt.alloc();
    let waits = cluster(&rt, alloc, (2, &WAITS), &[], u64::MAX);
    assert_seen(&rt, alloc, waits, &[(WAITING, 0), (WAITING, 0)]);
    let ends = cluster(&rt, alloc, (2, &ENDS), &[], u64::MAX);
    let ended = Doing::Up(Status::Ended(0));
    assert_seen(&rt, alloc, ends, &[(ended, 0), (WAITING, 0)]);
}

// The other has sent before, and is seen at the end of that turn, however late it comes.
#[test]
fn one_that_runs_is_seen(rt: HostRuntime) {
    let alloc = rt.alloc();
    let counts = cluster(&rt, alloc, (2, &COUNTS), &[], 20_000);
    let runs = Doing::Up(Status::Ready);
    assert_seen(&rt, alloc, counts, &[(runs, 1), (WAITING, 0)]);
}

// Returns whether this is process `p` of a ring of eight that has ended: six receipts, and its code. What it had received
// before may be taken anew.
fn is_end_of_ring(sight: &Sight, p: u32) -> bool {
    let code = if p == 0 { 48 } else { p.wrapping_add(40) };
    sight.doing == Doing::Up(Status::Ended(code))
        && sight.has_ended()
        && sight.interval == 6
        && sight.taken >= 6
}

// At the end the last worker has read that the whole ring is recoverable.
fn assert_ring_is_seen<R: Threads + Wait + Clock + Abort + Sync>(
    rt: &R,
    alloc: Global,
    kills: &[(u32, u32)],
    rounds: u32,
) {
    let config = ring(rt, alloc, 8, kills);
    let (fault, sights) = seen(rt, alloc, &config);
    drop(config);
    assert!(rt; fault.is_none());
    assert_ends_of_ring(rt, &sights);
    assert_front(rt, &sights, rounds);
}

fn assert_ends_of_ring(rt: &impl Abort, sights: &[Sight]) {
    assert!(rt; sights.len() == 8);
    for (p, sight) in sights.iter().enumerate() {
        assert!(rt; is_end_of_ring(sight, p as u32), "{p} {sight:?}");
    }
}

fn assert_front(rt: &impl Abort, sights: &[Sight], rounds: u32) {
    let front = Progress::of(sights).front.expect(rt, "a front");
    let is_right = front.round == rounds && front.vec.as_slice() == [6; 8].as_slice();
    assert!(rt; is_right, "{front:?}");
}

#[test]
fn those_that_ended_are_seen(rt: HostRuntime) {
    assert_ring_is_seen(&rt, rt.alloc(), &[], 0);
    assert_ring_is_seen(&rt, rt.alloc(), &[(3, 3), (5, 5)], 2);
}

// Where and when this process was seen to trap, and of what.
fn assert_trap(
    rt: &impl Abort,
    sight: Option<&Sight>,
    cause: Cause,
    (interval, count, pc): (u32, u64, u32),
) {
    let sight = sight.expect(rt, "a sight");
    let is_right = sight.doing == Doing::Up(Status::Trapped(cause))
        && (sight.interval, sight.count, sight.pc) == (interval, count, pc);
    assert!(rt; is_right, "{sight:?}");
}

// The instruction that traps is not finished: pc is its address.
#[test]
fn where_a_process_trapped_is_seen(rt: HostRuntime) {
    let alloc = rt.alloc();
    let breaks = cluster(&rt, alloc, (1, &BREAKS), &[], u64::MAX);
    let sights = seen_to_end(&rt, alloc, breaks);
    assert_trap(&rt, sights.first(), Cause::Break, (0, 2, 12));
    let faults = cluster(&rt, alloc, (2, &FAULTS), &[], u64::MAX);
    let sights = seen_to_end(&rt, alloc, faults);
    assert_trap(&rt, sights.get(1), Cause::DataOutside, (1, 7, 56));
}

// What was seen of the processes of a cluster whose run came to its end.
fn seen_to_end<R: Threads + Wait + Clock + Abort + Sync>(
    rt: &R,
    alloc: Global,
    config: Config,
) -> Vec<Sight> {
    let (fault, sights) = seen(rt, alloc, &config);
    drop(config);
    assert!(rt; fault.is_none());
    sights
}

// Sends 257 bytes to process 0, then, as x10 says that it was refused, to process 2^32 - 1, and ends.
const REFUSED: [u32; 6] = [
    0x00100893, 0x10100613, 0x00000073, 0x00000073, 0x00000893, 0x00000073,
];

// Also where each turn is of one instruction.
#[test]
fn sends_that_are_refused_are_seen(rt: HostRuntime) {
    let alloc = rt.alloc();
    let mut refused = cluster(&rt, alloc, (2, &REFUSED), &[], u64::MAX);
    for fuel in [1, 1000] {
        refused.fuel = fuel;
        assert_two_refused(&rt, alloc, &refused);
    }
    drop(refused);
    let breaks = cluster(&rt, alloc, (1, &BREAKS), &[], u64::MAX);
    let (_, sights) = seen(&rt, alloc, &breaks);
    drop(breaks);
    assert!(&rt; sights.first().is_some_and(|sight| sight.refused == 0));
}

// Of each of two processes two sends were refused.
fn assert_two_refused<R: Threads + Wait + Clock + Abort + Sync>(
    rt: &R,
    alloc: Global,
    config: &Config,
) {
    let (fault, sights) = seen(rt, alloc, config);
    assert!(rt; fault.is_none() && sights.len() == 2);
    for sight in &sights {
        assert!(rt; sight.refused == 2 && sight.count == 5, "{sight:?}");
    }
}

// Returns whether this failure is one of these.
fn has_failure(failures: &[(Pid, u32)], p: usize, interval: u32) -> bool {
    failures
        .iter()
        .any(|failure| failure.0.index() == p && failure.1 == interval)
}

// The failures that were seen of a ring of eight of which these are to fail.
fn failures_of<R: Threads + Wait + Clock + Abort + Sync>(
    rt: &R,
    alloc: Global,
    kills: &[(u32, u32)],
) -> Vec<(Pid, u32)> {
    let config = ring(rt, alloc, 8, kills);
    let (fault, watch) = watched(rt, alloc, &config);
    drop(config);
    assert!(rt; fault.is_none());
    watch.failures(rt, alloc).expect(rt, "memory")
}

// Of the kills that are planned those alone are seen that came: none is at the start, and none behind the six receipts.
#[test]
fn failures_are_seen(rt: HostRuntime) {
    let alloc = rt.alloc();
    assert!(&rt; failures_of(&rt, alloc, &[]).is_empty());
    let failures = failures_of(&rt, alloc, &[(5, 5), (2, 7), (3, 3), (4, 0)]);
    assert!(&rt; failures.len() == 2);
    assert!(&rt; has_failure(&failures, 3, 3));
    assert!(&rt; has_failure(&failures, 5, 5));
}

// One that waits for a message.
fn sight(
    rt: &impl Abort,
    count: u64,
    (put, taken): (u64, u64),
    version: u64,
    vec: &[u32],
) -> Sight {
    Sight {
        doing: WAITING,
        interval: 5,
        count,
        pc: 0,
        refused: 0,
        put,
        taken,
        front: Some(front(rt, version, 1, vec)),
    }
}

// What is written of how far processes have come that are seen so.
fn assert_progress(rt: &impl Abort, alloc: Global, sights: &[Sight], wanted: &str) {
    let progress = Progress::of(sights);
    let text = format!(in alloc; "{progress}").expect(rt, "memory");
    assert_eq!(rt; text.as_str(), wanted);
}

#[test]
fn progress_is_the_sum_of_what_is_seen(rt: HostRuntime) {
    let older_last = [
        sight(&rt, 1_000, (3, 7), 9, &[4, 2]),
        sight(&rt, 234, (4, 3), 8, &[3, 2]),
    ];
    let wanted = "1234 instructions, 7 messages put, 10 taken, round 1, recovery state 4 2";
    assert_progress(&rt, rt.alloc(), &older_last, wanted);
    let older_first = [
        sight(&rt, 234, (4, 3), 8, &[3, 2]),
        sight(&rt, 1_000, (3, 7), 9, &[4, 2]),
    ];
    assert_progress(&rt, rt.alloc(), &older_first, wanted);
    let wanted = "0 instructions, 0 messages put, 0 taken";
    assert_progress(&rt, rt.alloc(), &[], wanted);
}

#[test]
fn what_a_process_waits_for_is_told(rt: HostRuntime) {
    let one = sight(&rt, 1_000, (3, 7), 9, &[4, 2]);
    let text = format!(in rt.alloc(); "{one}").expect(&rt, "memory");
    assert_eq!(&rt; text.as_str(), "waits for a message, interval 5");
}
