use crate::at_work::Meets;
use crate::rows::{is_set, process};
use om_interval::Pid;
use om_isa::Ext;
use om_manager::Output;
use om_process::{Image, Status};
use om_runner::{Config, Gate, OpenFault, Opener, Report, RunFault, run_and_keep_stores};
use om_stable::{FuseStable, MemStable, Stable, Stop};
use std::alloc::Global;
use std::process::Abort;
use std::sync::Wait;
use std::sync::atomic::AtomicBool;
use std::sync::atomic::Ordering::SeqCst;
use std::thread::Threads;
use std::time::Clock;

// Each process takes 6 receipts; at each it adds 1 to a counter, outputs the counter and sends it on. Process 0 starts with
// 0, and at the end the code is the counter.
pub const RING: [u32; 34] = [
    0x00400893, 0x00000073, 0x00050293, 0x00150313, 0x00B36463, 0x00000313, 0x00600393, 0x00029C63,
    0x00100893, 0x00030513, 0x10000593, 0x00400613, 0x00000073, 0x00200893, 0x10000513, 0x00400593,
    0x00000073, 0x10002403, 0x00140413, 0x10802023, 0x00300893, 0x10000513, 0x00400593, 0x00000073,
    0x00100893, 0x00030513, 0x10000593, 0x00400613, 0x00000073, 0xFFF38393, 0xFA039EE3, 0x00000893,
    0x00040513, 0x00000073,
];

// Makes stores in memory, which count their calls. That of one process stops a call. None waits for another: the flag is set.
#[derive(Drop)]
pub struct Fused<'a> {
    pid: Pid,
    calls: u64,
    set: &'a AtomicBool,
}

// None of their calls is stopped.
pub fn unstopped(set: &AtomicBool) -> Fused<'_> {
    Fused {
        pid: Pid::at(0),
        calls: u64::MAX,
        set,
    }
}

impl<'a, R> Opener<R> for Fused<'a> {
    type Store = Meets<'a>;

    fn make(&self, _rt: &R, alloc: Global, pid: Pid) -> Result<Meets<'a>, OpenFault> {
        let calls = if pid == self.pid {
            self.calls
        } else {
            u64::MAX
        };
        Ok(Meets {
            inner: FuseStable::new(MemStable::new(alloc), calls),
            own: self.set,
            other: self.set,
        })
    }
}

// Returns how many calls a store has had that stops none.
fn calls_of(store: &Meets<'_>) -> u64 {
    match store.inner.stop {
        Stop::After(left) => u64::MAX - left,
        Stop::Past => u64::MAX,
    }
}

// Always gives the same answer.
#[derive(Drop)]
pub struct Always(pub bool);

impl Gate for Always {
    fn may_start(&self, _pid: Pid) -> bool {
        self.0
    }
}

// So many processes with the same program.
pub fn images(rt: &impl Abort, alloc: Global, n: usize, words: &[u32], size: u32) -> Vec<Image> {
    let mut images = Vec::new(alloc);
    for _ in 0..n {
        let image = Image {
            bytes: bytes_of(rt, alloc, words),
            size,
            ext: Ext::I,
        };
        images.push(image).expect(rt, "memory");
    }
    images
}

fn bytes_of(rt: &impl Abort, alloc: Global, words: &[u32]) -> Vec<u8> {
    let mut bytes = Vec::new(alloc);
    for word in words {
        let word = word.to_le_bytes();
        bytes.extend_from_slice(&word).expect(rt, "memory");
    }
    bytes
}

// So many processes of the ring, of which those fail in these intervals.
pub fn ring(rt: &impl Abort, alloc: Global, n: usize, kills: &[(u32, u32)]) -> Config {
    let mut failures = Vec::new(alloc);
    for (p, x) in kills {
        let failure = (process(rt, *p), *x);
        failures.push(failure).expect(rt, "memory");
    }
    Config {
        images: images(rt, alloc, n, &RING, 512),
        kills: failures,
        flush: 2,
        checkpoint: 3,
        fuel: 1_000,
        turns: 50_000_000,
        gate_turns: 1,
    }
}

// Returns whether these are the six outputs of a process of a ring of n, whose first number is `at`.
fn are_of_ring(outputs: &[Output], n: u32, at: u32) -> bool {
    if outputs.len() != 6 {
        return false;
    }
    for (l, output) in outputs.iter().enumerate() {
        let word = (l as u32).wrapping_mul(n).wrapping_add(at);
        if output.bytes.as_slice() != word.to_le_bytes().as_slice() {
            return false;
        }
    }
    true
}

// Returns whether process `p` of a ring of so many has its outputs and its code.
fn is_of_ring(report: &Report, n: u32, p: u32) -> bool {
    let at = if p == 0 { n } else { p };
    let code = n.wrapping_mul(5).wrapping_add(at);
    match (
        report.released.get(p as usize),
        report.statuses.get(p as usize),
    ) {
        (Some(outputs), Some(status)) => {
            are_of_ring(outputs, n, at) && *status == Status::Ended(code)
        }
        _ => false,
    }
}

// The outputs and the codes of a ring of so many.
pub fn assert_ring(rt: &impl Abort, n: u32, report: &Report) {
    for p in 0..n {
        assert!(rt; is_of_ring(report, n, p), "{p}");
    }
    assert!(rt; report.released.len() == n as usize);
    assert!(rt; report.statuses.len() == n as usize);
}

// A run over stores in memory.
pub fn run<'a, R: Threads + Wait + Clock + Abort + Sync, G: Gate + Sync>(
    rt: &R,
    alloc: Global,
    config: &Config,
    gate: &G,
    opener: &Fused<'a>,
) -> Result<(Report, Vec<Meets<'a>>), RunFault> {
    assert!(rt; 1 <= config.images.len() && config.images.len() <= 16);
    run_and_keep_stores(rt, alloc, config, gate, opener)
}

// A ring goes round one process at a time, so no two kills meet in one round of recovery: each that happens makes one.
fn assert_ring_runs<R: Threads + Wait + Clock + Abort + Sync, G: Gate + Sync>(
    rt: &R,
    alloc: Global,
    gate: &G,
    n: u32,
    (kills, rounds): (&[(u32, u32)], u32),
) {
    let config = ring(rt, alloc, n as usize, kills);
    let set = AtomicBool::new(true);
    let (report, stores) = run(rt, alloc, &config, gate, &unstopped(&set)).expect(rt, "a report");
    drop(config);
    drop(stores);
    assert_ring(rt, n, &report);
    let round = report.front.round;
    drop(report);
    assert!(rt; round == rounds, "{round}");
}

fn assert_kills<R: Threads + Wait + Clock + Abort + Sync>(
    rt: &R,
    alloc: Global,
    n: u32,
    row: (&[(u32, u32)], u32),
) {
    assert_ring_runs(rt, alloc, &Always(true), n, row);
}

#[test]
fn rings_with_kills(rt: HostRuntime) {
    assert_kills(&rt, rt.alloc(), 8, (&[(3, 3), (5, 5)], 2));
    assert_kills(&rt, rt.alloc(), 8, (&[(7, 6)], 1));
    assert_kills(&rt, rt.alloc(), 8, (&[(3, 7), (5, 0)], 0));
    assert_kills(&rt, rt.alloc(), 16, (&[(3, 3), (5, 5), (5, 5)], 3));
}

// Returns what one process's store of a ring of eight has had to do: so many calls, and the newest checkpoint's interval.
fn kept_by<R: Threads + Wait + Clock + Abort + Sync>(
    rt: &R,
    alloc: Global,
    config: &Config,
    p: usize,
) -> (u64, Option<u32>) {
    let set = AtomicBool::new(true);
    let told = run(rt, alloc, config, &Always(true), &unstopped(&set));
    let (report, mut stores) = told.expect(rt, "a report");
    drop(report);
    let store = stores.get_mut(p).expect(rt, "a store");
    let calls = calls_of(store);
    let newest = store.effective(alloc, u32::MAX).expect(rt, "a checkpoint");
    drop(stores);
    (calls, newest.map(|(x, _)| x))
}

// Process 1 of a ring of eight, by the numbers of `flush` and `checkpoint`: its store is called for checkpoint 0, once for each
// receipt at which it flushes or takes a checkpoint, and as the process ends where anything is left to store or to prune.
static NUMBERS: [(u32, u32, u64, u32); 8] = [
    (1, 7, 7, 0),
    (2, 7, 4, 0),
    (4, 7, 3, 0),
    (7, 7, 2, 0),
    (1, 1, 8, 6),
    (2, 2, 5, 6),
    (2, 3, 6, 6),
    (3, 6, 4, 6),
];

#[test]
fn flushes_by_their_number(rt: HostRuntime) {
    for (flush, checkpoint, calls, newest) in &NUMBERS {
        let mut config = ring(&rt, rt.alloc(), 8, &[]);
        config.flush = *flush;
        config.checkpoint = *checkpoint;
        let kept = kept_by(&rt, rt.alloc(), &config, 1);
        drop(config);
        assert!(&rt; kept == (*calls, Some(*newest)), "{kept:?}");
    }
}

// The newest checkpoint of each, where one is taken every so many receipts.
static CHECKPOINTS: [(u32, u32); 3] = [(4, 4), (3, 6), (6, 6)];

#[test]
fn checkpoints_by_their_number(rt: HostRuntime) {
    for (checkpoint, newest) in &CHECKPOINTS {
        let mut config = ring(&rt, rt.alloc(), 8, &[]);
        config.checkpoint = *checkpoint;
        let (_, kept) = kept_by(&rt, rt.alloc(), &config, 1);
        drop(config);
        assert!(&rt; kept == Some(*newest), "{kept:?}");
    }
}

// Process 3 fails as its third message comes, and nobody has flushed. Process 1 stores its log as it joins, and as its first
// receipt depends on nothing that is lost, it is rolled back to interval 1: a call to join, three to roll back (the newest
// checkpoint, the receipts, the cut) and one as it ends, beside that for checkpoint 0. A process that stored nothing as it
// joined would go back to interval 0 and need one call less.
#[test]
fn a_join_stores_the_log(rt: HostRuntime) {
    let mut config = ring(&rt, rt.alloc(), 8, &[(3, 3)]);
    config.flush = 7;
    config.checkpoint = 7;
    let kept = kept_by(&rt, rt.alloc(), &config, 1);
    drop(config);
    assert!(&rt; kept == (6, Some(0)), "{kept:?}");
}

// Why a ring of eight does not come to its end, with a gate that always gives this answer.
fn assert_fault<R: Threads + Wait + Clock + Abort + Sync>(
    rt: &R,
    alloc: Global,
    (is_open, turns, gate_turns): (bool, u64, u64),
    (pid, calls): (Pid, u64),
    wanted: RunFault,
) {
    let mut config = ring(rt, alloc, 8, &[]);
    config.turns = turns;
    config.gate_turns = gate_turns;
    let set = AtomicBool::new(true);
    let opener = Fused {
        pid,
        calls,
        set: &set,
    };
    let told = run(rt, alloc, &config, &Always(is_open), &opener).err();
    drop(config);
    assert!(rt; told == Some(wanted), "{told:?}");
}

// The store of process 2 fails at each of its six calls: as it starts, at receipts 2, 3, 4 and 6, and as the process ends.
#[test]
fn a_store_fails(rt: HostRuntime) {
    for calls in 0..6 {
        let pid = Pid::at(2);
        let row = (true, 50_000_000, 1);
        assert_fault(&rt, rt.alloc(), row, (pid, calls), RunFault::Fault(pid));
    }
}

#[test]
fn shut_gate(rt: HostRuntime) {
    let row = (false, 50_000_000, 10);
    let wanted = RunFault::GateShut(Pid::at(0));
    assert_fault(&rt, rt.alloc(), row, (Pid::at(0), u64::MAX), wanted);
}

#[test]
fn one_turn(rt: HostRuntime) {
    let row = (true, 1, 1);
    let wanted = RunFault::Turns(Pid::at(0));
    assert_fault(&rt, rt.alloc(), row, (Pid::at(0), u64::MAX), wanted);
}

// Lets each of two processes start only once it was asked for the other.
#[derive(Drop)]
struct Both {
    zero: AtomicBool,
    one: AtomicBool,
}

impl Gate for Both {
    fn may_start(&self, pid: Pid) -> bool {
        if pid.index() == 0 {
            self.zero.store(true, SeqCst);
            is_set(&self.one)
        } else {
            self.one.store(true, SeqCst);
            is_set(&self.zero)
        }
    }
}

#[test]
fn two_at_once(rt: HostRuntime) {
    let gate = Both {
        zero: AtomicBool::new(false),
        one: AtomicBool::new(false),
    };
    assert_ring_runs(&rt, rt.alloc(), &gate, 2, (&[], 0));
}
