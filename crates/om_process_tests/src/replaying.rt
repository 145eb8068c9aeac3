use super::parts::{
    RECEIPT, accepted, are_same, bytes_of, first_stored, go_on, message, passing_on, put, replayed,
    started, ten, x,
};
use om_isa::WRITABLE_REGISTERS;
use om_process::{Accept, LAST_INTERVAL, ProcCore, ReplayFault};
use om_stable::{MemStable, Stable};
use std::alloc::Global;
use std::process::Abort;

// Process 1 of 3 with checkpoint 0 and receipt 1 in its store.
pub fn stored(rt: &impl Abort, alloc: Global) -> MemStable {
    let mut store = MemStable::new(alloc);
    drop(first_stored(rt, alloc, &mut store));
    store
}

// The process that such a store has at an interval.
fn stored_at(rt: &impl Abort, alloc: Global, interval: u32) -> ProcCore {
    let mut store = stored(rt, alloc);
    let core = replayed(rt, alloc, &mut store, interval);
    drop(store);
    core
}

// The count of instructions and pc, and the registers.
fn assert_machine(
    rt: &impl Abort,
    core: &ProcCore,
    state: (u64, u32),
    regs: [u32; WRITABLE_REGISTERS],
) {
    let machine = core.machine();
    assert!(rt; (machine.count(), machine.pc()) == state);
    assert!(rt; x(core, 0) == Some(0) && machine.regs() == regs);
}

#[test]
fn a_checkpoint_is_replayed(rt: HostRuntime) {
    let core = stored_at(&rt, rt.alloc(), 0);
    assert_machine(&rt, &core, (0, 0), [0; WRITABLE_REGISTERS]);
    drop(core);
}

// The memory has what was received.
fn assert_received(rt: &impl Abort, alloc: Global, core: &ProcCore) {
    let body = bytes_of(rt, alloc, "93081000");
    assert!(rt; core.machine().bytes(64, 4) == Some(body.as_slice()));
}

#[test]
fn a_receipt_is_replayed(rt: HostRuntime) {
    let core = stored_at(&rt, rt.alloc(), 1);
    // x10, x11 and x17
    let mut regs = [0; WRITABLE_REGISTERS];
    regs[9] = 4;
    regs[10] = 2;
    regs[16] = 2;
    assert_machine(&rt, &core, (4, 16), regs);
    assert_received(&rt, rt.alloc(), &core);
    drop(core);
}

fn fault(alloc: Global, store: &mut MemStable, x: u32) -> Option<ReplayFault> {
    match ProcCore::replay(alloc, store, x).err() {
        Some(ReplayFault::Memory) => ProcCore::replay(alloc, store, x).err(),
        fault => fault,
    }
}

#[test]
fn what_is_missing_is_told(rt: HostRuntime) {
    let (mut store, mut empty) = (stored(&rt, rt.alloc()), MemStable::new(rt.alloc()));
    let missing = fault(rt.alloc(), &mut store, 2);
    let nothing = fault(rt.alloc(), &mut empty, 0);
    drop(store);
    drop(empty);
    assert!(rt; missing == Some(ReplayFault::MissingReceipt(2)));
    assert!(rt; nothing == Some(ReplayFault::NoCheckpoint));
}

// The receipt with another byte at a place, and as long as that.
fn altered(rt: &impl Abort, alloc: Global, len: usize, place: usize, byte: u8) -> Vec<u8> {
    let mut receipt = bytes_of(rt, alloc, RECEIPT);
    if let Some(there) = receipt.get_mut(place) {
        *there = byte;
    }
    receipt.truncate(len);
    receipt
}

// Returns what a replay to 1 answers where receipt 1 is this.
fn refused(rt: &impl Abort, alloc: Global, receipt: Vec<u8>) -> Option<ReplayFault> {
    let mut store = MemStable::new(alloc);
    drop(started(rt, alloc, &mut store));
    put(rt, alloc, &mut store, receipt);
    let answer = fault(alloc, &mut store, 1);
    drop(store);
    answer
}

// How long the receipt is, the byte that is altered, and what is answered.
type Altered = (usize, usize, u8, Option<ReplayFault>);

// Cut; of another interval; with a number that is none; of another receiver, of a sender that is not there, one that is not the
// next, and ones at the counts beside that of the wait.
const ALTERED: [Altered; 8] = [
    (30, 4, 1, None),
    (29, 4, 1, Some(ReplayFault::Damaged(1))),
    (30, 4, 2, Some(ReplayFault::Damaged(1))),
    (30, 12, 1, Some(ReplayFault::Damaged(1))),
    (30, 2, 0, Some(ReplayFault::Mismatch(1))),
    (30, 3, 3, Some(ReplayFault::Mismatch(1))),
    (30, 16, 2, Some(ReplayFault::Mismatch(1))),
    (30, 16, 4, Some(ReplayFault::Mismatch(1))),
];

fn assert_altered(rt: &impl Abort, alloc: Global, (len, place, byte, fault): Altered) {
    let receipt = altered(rt, alloc, len, place, byte);
    assert!(rt;
        refused(rt, alloc, receipt) == fault,
        "{len} {place} {byte}"
    );
}

#[test]
fn altered_receipts_are_refused(rt: HostRuntime) {
    for row in ALTERED {
        assert_altered(&rt, rt.alloc(), row);
    }
}

// A checkpoint in version 1: that of a process of 1 at its start, with 4 bytes of memory. 184 bytes.
const FIRST_VERSION: &str = "\
43010100\
0000000000000000000000000000000000000000000000000000000000000000\
0000000000000000000000000000000000000000000000000000000000000000\
0000000000000000000000000000000000000000000000000000000000000000\
0000000000000000000000000000000000000000000000000000000000000000\
0000000000000000000000000000000000000000000000000000000000000000\
0400000073001000000000000000000000000000";

// Puts the checkpoint of that text, which has so many bytes.
fn store_checkpoint(
    rt: &impl Abort,
    alloc: Global,
    store: &mut MemStable,
    x: u32,
    (text, len): (&str, usize),
) {
    let bytes = bytes_of(rt, alloc, text);
    let is_put = store.put_checkpoint(alloc, x, &bytes).is_ok()
        || store.put_checkpoint(alloc, x, &bytes).is_ok();
    assert!(rt; is_put && bytes.len() == len);
}

// The count of instructions and the number of processes of what this store has at its start.
fn at_start(rt: &impl Abort, alloc: Global, store: &mut MemStable) -> (u64, usize) {
    let core = replayed(rt, alloc, store, 0);
    let told = (core.machine().count(), core.vec().n());
    drop(core);
    told
}

#[test]
fn a_checkpoint_of_version_1_is_replayed(rt: HostRuntime) {
    let mut store = MemStable::new(rt.alloc());
    store_checkpoint(&rt, rt.alloc(), &mut store, 0, (FIRST_VERSION, 184));
    let told = at_start(&rt, rt.alloc(), &mut store);
    store_checkpoint(&rt, rt.alloc(), &mut store, 3, (FIRST_VERSION, 184));
    let other = fault(rt.alloc(), &mut store, 4);
    drop(store);
    assert!(rt; told == (0, 1) && other == Some(ReplayFault::Damaged(3)));
}

// Process 0 of 2 waits in the last interval, and has got all but two of the messages from process 1. 204 bytes.
const LAST_OF_ALL: &str = "\
43020200ffffffffffffffff00000000\
0000000000000000000000000000000000000000000000000000000000000000\
0000000000000000000000000000000000000000000000000000000000000000\
0000000002000000\
0000000000000000000000000000000000000000000000000000000000000000\
000000000000000000000000000000000000000000000000\
ffffffff0000000001000000feffffff\
00000000000000000000000000000000\
04000000010000007300000000000000000000000000000000000000";

// That process.
fn in_last_interval(rt: &impl Abort, alloc: Global) -> ProcCore {
    let mut store = MemStable::new(alloc);
    store_checkpoint(rt, alloc, &mut store, u32::MAX, (LAST_OF_ALL, 204));
    let core = replayed(rt, alloc, &mut store, u32::MAX);
    drop(store);
    core
}

// What it answers to an empty message of that number.
fn assert_answered(rt: &impl Abort, alloc: Global, core: &mut ProcCore, ssn: u32, answer: Accept) {
    let next = message(rt, alloc, 1, 0, ssn, "");
    let told = accepted(alloc, core, &next);
    drop(next);
    assert!(rt; told == answer, "{ssn}");
}

#[test]
fn the_last_interval_takes_nothing(rt: HostRuntime) {
    assert!(rt; LAST_INTERVAL == u32::MAX);
    let mut core = in_last_interval(&rt, rt.alloc());
    assert_answered(&rt, rt.alloc(), &mut core, u32::MAX - 1, Accept::Full);
    assert_answered(&rt, rt.alloc(), &mut core, 0, Accept::Repeat);
    drop(core);
}

// Returns whether a replay to an interval is this process.
fn is_replayed(
    rt: &impl Abort,
    alloc: Global,
    store: &mut MemStable,
    interval: u32,
    core: &ProcCore,
) -> bool {
    let replayed = replayed(rt, alloc, store, interval);
    let is_it = are_same(&replayed, core);
    drop(replayed);
    is_it
}

fn assert_replayed(
    rt: &impl Abort,
    alloc: Global,
    store: &mut MemStable,
    interval: u32,
    core: &ProcCore,
) {
    assert!(rt; is_replayed(rt, alloc, store, interval, core), "{interval}");
}

// The process at its start, as it takes ten messages: each time it has to be what this store has there. At the end it made 9
// outputs.
fn assert_ten(rt: &impl Abort, alloc: Global, core: &mut ProcCore, store: &mut MemStable) {
    for ssn in 0..10 {
        assert_replayed(rt, alloc, store, ssn, core);
        go_on(rt, alloc, core, ssn);
    }
    assert_replayed(rt, alloc, store, 10, core);
    assert!(rt; core.outputs_from(0).len() == 9);
}

#[test]
fn ten_receipts_are_replayed(rt: HostRuntime) {
    let (mut store, mut other) = (MemStable::new(rt.alloc()), MemStable::new(rt.alloc()));
    drop(ten(&rt, rt.alloc(), &mut store));
    let mut core = passing_on(&rt, rt.alloc(), &mut other);
    assert_ten(&rt, rt.alloc(), &mut core, &mut store);
    drop(core);
    drop(store);
    drop(other);
}
