//! Clusters over stores in tables: what each store holds when the run has ended, and a store that is refused.

ghost use Rattle.std.specs.Prelude.{◌≡◌, ◌≤◌, false, IfOk, length};
ghost use Rattle.om_interval.specs.declared.pid.TheConstants.{MAX_PROCESSES};

use om_commands::replay::replay;
use om_files::{Connects, InTables};
use om_interval::Pid;
use om_isa::Ext;
use om_manager::Output;
use om_process::{Image, Status};
use om_runner::{Config, Gate, OpenFault, Opener, Report, RunFault, run_and_keep_stores};
use om_stable::Stable;
use om_tables::SqlStable;
use sqlite::{Connection, MemStore};
use std::alloc::{AllocError, Global};
use std::process::Abort;
use std::sync::Wait;
use std::thread::Threads;
use std::time::Clock;

// Each process takes 6 receipts; at each it adds 1 to the counter at address 0100, puts it out and sends it on. Process 0
// starts with 0, and at the end the code is the counter.
static RING: [u32; 34] = [
    0x00400893, 0x00000073, 0x00050293, 0x00150313, 0x00B36463, 0x00000313, 0x00600393, 0x00029C63,
    0x00100893, 0x00030513, 0x10000593, 0x00400613, 0x00000073, 0x00200893, 0x10000513, 0x00400593,
    0x00000073, 0x10002403, 0x00140413, 0x10802023, 0x00300893, 0x10000513, 0x00400593, 0x00000073,
    0x00100893, 0x00030513, 0x10000593, 0x00400613, 0x00000073, 0xFFF38393, 0xFA039EE3, 0x00000893,
    0x00040513, 0x00000073,
];

// Databases in memory, of which that of one process has the tables of a store already.
#[derive(Drop)]
struct Databases {
    taken: Option<Pid>,
}

impl Connects for Databases {
    type Disk = MemStore;

    fn connect(&self, alloc: Global, pid: Pid) -> Result<Connection<MemStore>, OpenFault> {
        connected(alloc, self.taken == Some(pid))
    }
}

// A database in memory, with the tables of a store or with nothing.
fn connected(alloc: Global, has_tables: bool) -> Result<Connection<MemStore>, OpenFault>
    ensures { IfOk result (λ conn. conn.in_transaction ≡ false) }
{
    let Ok(conn) = Connection::open_in_memory(alloc) else {
        return Err(OpenFault::Memory);
    };
    if !conn.is_autocommit() {
        return Err(OpenFault::Memory);
    }
    if !has_tables {
        return Ok(conn);
    }
    match SqlStable::create(alloc, conn) {
        Ok(store) => Ok(store.into_connection()),
        Err(_) => Err(OpenFault::Memory),
    }
}

// Lets each process start at once.
#[derive(Drop)]
struct OpenGate;

impl Gate for OpenGate {
    fn may_start(&self, _pid: Pid) -> bool {
        true
    }
}

fn ring_image(alloc: Global) -> Result<Image, AllocError> {
    let mut bytes = Vec::new(alloc);
    for word in &RING {
        bytes.extend_from_slice(&word.to_le_bytes())?;
    }
    Ok(Image {
        bytes,
        size: 512,
        ext: Ext::I,
    })
}

// The ring of eight, of which two fail.
fn ring(alloc: Global) -> Result<Config, AllocError>
    ensures { IfOk result (λ config. length config.images.items ≡ 8) }
{
    let mut images = Vec::with_capacity(alloc, 8)?;
    for _ in 0..8usize {
        images.push(ring_image(alloc)?)?;
    }
    let mut kills = Vec::new(alloc);
    kills.push((Pid::at(3), 3))?;
    kills.push((Pid::at(5), 5))?;
    Ok(Config {
        images,
        kills,
        flush: 2,
        checkpoint: 3,
        fuel: 1_000,
        turns: 50_000_000,
        gate_turns: 1,
    })
}

// By process, the counter that comes with its last message. In the interval that this begins it stands as it came.
static COUNTERS: [u32; 8] = [47, 40, 41, 42, 43, 44, 45, 46];

fn check_replay<S: Stable>(rt: &impl Abort, alloc: Global, store: &mut S, counter: u32) {
    let mut written = Vec::new(alloc);
    let told = replay(alloc, store, 6, &mut written);
    let text = String::from_utf8(written).expect(rt, "a text");
    let line = format!(in alloc; "\n00000100 {:08x}0000", counter.swap_bytes()).expect(
        rt, "memory",
    );
    let is_there = text.starts_with("interval 6\n") && text.contains(line.as_str());
    assert!(rt; told == Ok(()) && is_there, "{counter}");
}

// Runs a cluster over stores that are made so, and gives the report with the stores as they stand when it has ended.
fn run_over<R: Threads + Wait + Clock + Sync, O: Opener<R> + Sync>(
    rt: &R,
    alloc: Global,
    config: &Config,
    opener: &O,
) -> Result<(Report, Vec<O::Store>), RunFault>
    requires some { 1 ≤ length config.now.images.items }
    requires few { length config.now.images.items ≤ MAX_PROCESSES }
{
    run_and_keep_stores(rt, alloc, config, &OpenGate, opener)
}

// The same of the ring over such databases.
fn run_ring<R: Threads + Wait + Clock + Sync, C: Connects + Sync + Drop>(
    rt: &R,
    alloc: Global,
    connects: C,
) -> Result<(Report, Vec<SqlStable<C::Disk>>), RunFault> {
    let config = ring(alloc).map_err(|_| RunFault::Memory)?;
    let opener = InTables { connects };
    run_over(rt, alloc, &config, &opener)
}

// Returns whether these are the outputs of a process of the ring, of which the last is this number.
fn are_outputs(outputs: &[Output], last: u32) -> bool {
    if outputs.len() != 6 {
        return false;
    }
    for (output, number) in outputs
        .iter()
        .zip((0..6).map(|l| last.wrapping_sub(40 - 8 * l)))
    {
        if output.bytes.as_slice() != number.to_le_bytes().as_slice() {
            return false;
        }
    }
    true
}

// The outputs and the codes of the ring: each process puts out one more than what comes, and ends with the last of them.
fn check_report(rt: &impl Abort, report: &Report) {
    assert!(rt; report.released.len() == 8 && report.statuses.len() == 8);
    for (outputs, counter) in report.released.iter().zip(&COUNTERS) {
        assert!(rt; are_outputs(outputs, *counter + 1), "{counter}");
    }
    for (status, counter) in report.statuses.iter().zip(&COUNTERS) {
        assert!(rt; *status == Status::Ended(*counter + 1), "{counter}");
    }
}

// Replays each of the stores.
fn check_replays<S: Stable>(rt: &impl Abort, alloc: Global, stores: &mut [S]) {
    assert!(rt; stores.len() == 8);
    for (store, counter) in stores.iter_mut().zip(&COUNTERS) {
        check_replay(rt, alloc, store, *counter);
    }
}

// Runs the ring, looks at its report and replays each of its stores, or has this fault.
fn check_ring<R: Threads + Wait + Clock + Abort + Sync, C: Connects + Sync + Drop>(
    rt: &R,
    alloc: Global,
    connects: C,
    fault: Option<RunFault>,
) {
    let told = match run_ring(rt, alloc, connects) {
        Ok((report, mut stores)) => {
            check_report(rt, &report);
            drop(report);
            check_replays(rt, alloc, &mut stores);
            drop(stores);
            None
        }
        Err(fault) => Some(fault),
    };
    assert!(rt; told == fault, "{told:?}");
}

// A store that holds something is refused.
#[test]
fn replays_of_a_ring_with_failures(rt: HostRuntime) {
    let taken = Pid::at(5);
    for (taken, fault) in [(None, None), (Some(taken), Some(RunFault::Load(taken)))] {
        check_ring(&rt, rt.alloc(), Databases { taken }, fault);
    }
}
