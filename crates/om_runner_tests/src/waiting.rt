use crate::clusters::{Always, RING, images, run, unstopped};
use crate::rows::process;
use om_interval::Pid;
use om_process::Status;
use om_runner::{Config, Report, RunFault};
use std::alloc::Global;
use std::process::Abort;
use std::sync::Wait;
use std::sync::atomic::AtomicBool;
use std::thread::Threads;
use std::time::Clock;

// Receives once, and ends.
pub const WAITS: [u32; 7] = [
    0x00200893, 0x10000513, 0x00400593, 0x00000073, 0x00000893, 0x00000513, 0x00000073,
];

// Sends to the next process, receives twice, and ends: of so many, each waits for a second message.
const SENDS: [u32; 21] = [
    0x00400893, 0x00000073, 0x00150313, 0x00B36463, 0x00000313, 0x00100893, 0x00030513, 0x10000593,
    0x00400613, 0x00000073, 0x00200893, 0x10000513, 0x00400593, 0x00000073, 0x00200893, 0x10000513,
    0x00400593, 0x00000073, 0x00000893, 0x00000513, 0x00000073,
];

// Process 0 ends at once. Each other sends to it, and receives once.
pub const ENDS: [u32; 18] = [
    0x00400893, 0x00000073, 0x00051863, 0x00000893, 0x00000513, 0x00000073, 0x00100893, 0x00000513,
    0x10000593, 0x00400613, 0x00000073, 0x00200893, 0x10000513, 0x00400593, 0x00000073, 0x00000893,
    0x00000513, 0x00000073,
];

// Process 0 counts down from 67,108,864, sends to process 1, and ends. The other receives once, and ends.
const COUNTS: [u32; 21] = [
    0x00400893, 0x00000073, 0x02051863, 0x040002B7, 0xFFF28293, 0xFE029EE3, 0x00100893, 0x00100513,
    0x10000593, 0x00400613, 0x00000073, 0x00000893, 0x00000513, 0x00000073, 0x00200893, 0x10000513,
    0x00400593, 0x00000073, 0x00000893, 0x00000513, 0x00000073,
];

// So many processes with the same program, of which those fail in these intervals.
pub fn cluster(
    rt: &impl Abort,
    alloc: Global,
    (n, words): (usize, &[u32]),
    kills: &[(u32, u32)],
    turns: u64,
) -> Config {
    let mut failures = Vec::new(alloc);
    for (p, x) in kills {
        let failure = (process(rt, *p), *x);
        failures.push(failure).expect(rt, "memory");
    }
    Config {
        images: images(rt, alloc, n, words, 512),
        kills: failures,
        flush: 1,
        checkpoint: 0,
        fuel: 31,
        turns,
        gate_turns: 1,
    }
}

// Returns what a run ends with.
fn end_of<R: Threads + Wait + Clock + Abort + Sync>(
    rt: &R,
    alloc: Global,
    config: &Config,
) -> Result<Report, RunFault> {
    let set = AtomicBool::new(true);
    let (report, stores) = run(rt, alloc, config, &Always(true), &unstopped(&set))?;
    drop(stores);
    Ok(report)
}

// There are more turns than the test has time for: they are spent at once.
fn assert_all_wait<R: Threads + Wait + Clock + Abort + Sync>(
    rt: &R,
    alloc: Global,
    row: (usize, &[u32]),
    kills: &[(u32, u32)],
) {
    let config = cluster(rt, alloc, row, kills, u64::MAX);
    let told = end_of(rt, alloc, &config).err();
    drop(config);
    assert!(rt; told == Some(RunFault::Turns(Pid::at(0))), "{told:?}");
}

#[test]
fn all_wait(rt: HostRuntime) {
    assert_all_wait(&rt, rt.alloc(), (1, &WAITS), &[]);
    assert_all_wait(&rt, rt.alloc(), (2, &WAITS), &[]);
    assert_all_wait(&rt, rt.alloc(), (16, &WAITS), &[]);
}

// All that is sent is received before.
#[test]
fn all_wait_that_have_sent(rt: HostRuntime) {
    assert_all_wait(&rt, rt.alloc(), (1, &SENDS), &[]);
    assert_all_wait(&rt, rt.alloc(), (2, &SENDS), &[]);
    assert_all_wait(&rt, rt.alloc(), (16, &SENDS), &[]);
    assert_all_wait(&rt, rt.alloc(), (16, &SENDS), &[(3, 1), (7, 1)]);
}

// Nobody receives what is sent.
#[test]
fn all_wait_but_one_that_ended(rt: HostRuntime) {
    assert_all_wait(&rt, rt.alloc(), (2, &ENDS), &[]);
    assert_all_wait(&rt, rt.alloc(), (16, &ENDS), &[]);
}

// Returns whether each of so many processes ended with a code.
fn have_ended(report: &Report, n: usize) -> bool {
    report.statuses.len() == n
        && report
            .statuses
            .iter()
            .all(|status| matches!(status, Status::Ended(_)))
}

fn assert_ends<R: Threads + Wait + Clock + Abort + Sync>(
    rt: &R,
    alloc: Global,
    n: usize,
    config: Config,
) {
    let told = end_of(rt, alloc, &config);
    drop(config);
    let report = told.expect(rt, "a report");
    let all = have_ended(&report, n);
    drop(report);
    assert!(rt; all);
}

// Process 0 takes 1,343 turns of 100,000 instructions each, some half a second. Process 1 has turns for a minute of sleeps, but
// were each of its looks for a message one, they would be over in a tenth of that time.
#[test]
fn one_waits_for_another(rt: HostRuntime) {
    let mut config = cluster(&rt, rt.alloc(), (2, &COUNTS), &[], 65_536);
    config.fuel = 100_000;
    assert_ends(&rt, rt.alloc(), 2, config);
}

// A ring of 40 rounds. Were a message noticed only where a sleep is over, a process would sleep about as long as it has waited,
// up to a second: more than a minute in all.
#[test]
fn long_ring(rt: HostRuntime) {
    let mut words = RING;
    words[6] = 0x02800393;
    let config = cluster(&rt, rt.alloc(), (8, &words), &[], 50_000_000);
    assert_ends(&rt, rt.alloc(), 8, config);
}
