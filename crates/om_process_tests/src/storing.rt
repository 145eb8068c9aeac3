use super::parts::{RECEIPT, bytes_of, checkpoint, first_stored, flush, replayed};
use om_interval::Pid;
use om_isa::Ext;
use om_process::{PendingRow, ProcCore};
use om_stable::{MemStable, Stable, StoreError};
use std::alloc::Global;
use std::process::Abort;

// Returns whether there is one receipt, of interval 1, and these bytes.
fn is_first_receipt(receipts: &[(u32, Vec<u8>)], wanted: &[u8]) -> bool {
    match receipts.first() {
        Some((x, bytes)) => receipts.len() == 1 && *x == 1 && bytes.as_slice() == wanted,
        None => false,
    }
}

// Returns whether that receipt is stored, and no other.
fn is_stored(rt: &impl Abort, alloc: Global, store: &mut MemStable, text: &str) -> bool {
    let found = store.receipts(alloc, 0, 10).expect(rt, "receipts");
    let wanted = bytes_of(rt, alloc, text);
    is_first_receipt(&found, &wanted)
}

#[test]
fn a_flush_stores_the_receipt(rt: HostRuntime) {
    let mut store = MemStable::new(rt.alloc());
    drop(first_stored(&rt, rt.alloc(), &mut store));
    let is_stored = is_stored(&rt, rt.alloc(), &mut store, RECEIPT);
    drop(store);
    assert!(rt; is_stored);
}

// Returns whether the row is of interval 1 of process 1 of 3, after a message from process 2, and of this kind.
fn is_row(row: Option<&PendingRow>, ckpt: bool) -> bool {
    let Some(row) = row else {
        return false;
    };
    row.ckpt == ckpt
        && row.x == 1
        && row.vec.as_slice() == [0, 1, 0].as_slice()
        && row.got.as_slice() == [0, 0, 1].as_slice()
}

// Returns whether so many rows are left, of which the first is of this kind.
fn are_left(rows: &[PendingRow], left: usize, ckpt: bool) -> bool {
    is_row(rows.first(), ckpt) && rows.len() == left
}

// Notes so many rows, and compares what is left.
fn assert_left(rt: &impl Abort, core: &mut ProcCore, noted: usize, left: usize, ckpt: bool) {
    assert!(rt; noted <= core.pending().len());
    core.noted(noted);
    assert!(rt; are_left(core.pending(), left, ckpt), "{noted}");
}

// What is stored a second time is refused, or nothing.
fn store_twice(rt: &impl Abort, alloc: Global, core: &mut ProcCore, store: &mut MemStable) {
    flush(rt, alloc, core, store);
    checkpoint(rt, alloc, core, store);
    let again = core.checkpoint(alloc, store);
    assert!(rt; again == Err(StoreError::Present));
}

#[test]
fn what_is_stored_is_pending_until_it_is_noted(rt: HostRuntime) {
    let mut store = MemStable::new(rt.alloc());
    let mut core = first_stored(&rt, rt.alloc(), &mut store);
    store_twice(&rt, rt.alloc(), &mut core, &mut store);
    assert_left(&rt, &mut core, 0, 2, false);
    assert_left(&rt, &mut core, 1, 1, true);
    drop(store);
    drop(core);
}

// Starts a process of 1 with this word and 4 bytes of memory: whether it is started.
fn is_started(rt: &impl Abort, alloc: Global, ext: Ext, store: &mut MemStable) -> bool {
    let word = bytes_of(rt, alloc, "73001000");
    let answer = ProcCore::start(alloc, &word, 4, ext, Pid::at(0), 1, store);
    let is_ok = answer.is_ok();
    drop(answer);
    is_ok
}

// The checkpoint that it stores at its start.
fn first_checkpoint(rt: &impl Abort, alloc: Global, store: &mut MemStable) -> Vec<u8> {
    let stored = store.effective(alloc, 0).expect(rt, "a store");
    stored.expect(rt, "a checkpoint").1
}

// Returns what may be used once a process is replayed.
fn restored(rt: &impl Abort, alloc: Global, store: &mut MemStable) -> Ext {
    let core = replayed(rt, alloc, store, 0);
    let ext = core.machine().ext();
    drop(core);
    ext
}

// Behind kind, version, number of processes and process: 160 zeros, and from the size of the memory on.
const BEHIND_HEAD: &str = "\
0000000000000000000000000000000000000000000000000000000000000000\
0000000000000000000000000000000000000000000000000000000000000000\
0000000000000000000000000000000000000000000000000000000000000000\
0000000000000000000000000000000000000000000000000000000000000000\
0000000000000000000000000000000000000000000000000000000000000000\
040000000100000073001000000000000000000000000000";

// The checkpoint that is wanted, behind this head.
fn wanted(rt: &impl Abort, alloc: Global, head: &str) -> Vec<u8> {
    let mut want = bytes_of(rt, alloc, head);
    let behind = bytes_of(rt, alloc, BEHIND_HEAD);
    want.extend_from_slice(&behind).expect(rt, "memory");
    want
}

fn assert_first(rt: &impl Abort, alloc: Global, ext: Ext, head: &str) {
    let mut store = MemStable::new(alloc);
    let is_started = is_started(rt, alloc, ext, &mut store);
    let restored = restored(rt, alloc, &mut store);
    let bytes = first_checkpoint(rt, alloc, &mut store);
    drop(store);
    let wanted = wanted(rt, alloc, head);
    assert!(rt; is_started && restored == ext);
    assert!(rt; bytes.len() == 188 && bytes == wanted);
}

#[test]
fn a_start_stores_its_checkpoint(rt: HostRuntime) {
    assert_first(&rt, rt.alloc(), Ext::I, "43020100");
    assert_first(&rt, rt.alloc(), Ext::Im, "4d020100");
}
