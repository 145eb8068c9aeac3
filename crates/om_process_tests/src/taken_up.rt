//! What a run is told that takes up a store: rows, senders, and what the store is of. Process 1 of 3 has started over the store;
//! the rows are those that its receipts make by the rules of dependency vectors, by hand.

use crate::contents::{RECEIPT, put, start};
use om_interval::Pid;
use om_isa::Ext;
use om_look::{RowsFault, about_of, stored_rows, stored_senders};
use om_process::{Image, ProcCore};
use om_stable::{FuseStable, MemStable, Stable};
use std::alloc::Global;
use std::process::Abort;

// The receipt that began an interval of process 1: from which process, sent in which of its intervals, with which number.
fn receipt(x: u8, from: u8, sent: u8, number: u8) -> [u8; 30] {
    let mut bytes = RECEIPT;
    bytes[3] = from;
    bytes[4] = x;
    bytes[8] = sent;
    bytes[12] = number;
    bytes
}

// A row: whether it is a checkpoint's, the interval, the vector, and the messages got.
type Want = (bool, u32, [u32; 3], [u32; 3]);

fn check_rows<S: Stable>(rt: &impl Abort, alloc: Global, store: &mut S, want: &[Want]) {
    let rows = stored_rows(alloc, store, Pid::at(1), 3).expect(rt, "rows");
    assert!(rt; rows.len() == want.len());
    for (row, (ckpt, x, vec, got)) in rows.iter().zip(want) {
        assert!(rt; row.ckpt == *ckpt && row.x == *x, "{x}");
        assert!(rt; row.vec.as_slice() == vec.as_slice(), "{x}");
        assert!(rt; row.got.as_slice() == got.as_slice(), "{x}");
    }
}

fn check_senders<S: Stable>(rt: &impl Abort, alloc: Global, store: &mut S, want: &[(u32, usize)]) {
    let senders = stored_senders(alloc, store, Pid::at(1), 3).expect(rt, "senders");
    assert!(rt; senders.len() == want.len());
    for ((x, from), wanted) in senders.iter().zip(want) {
        assert!(rt; *x == wanted.0 && from.index() == wanted.1, "{x}");
    }
}

#[test]
fn a_start_has_one_row(rt: HostRuntime) {
    let mut store = MemStable::new(rt.alloc());
    check_rows(&rt, rt.alloc(), &mut store, &[]);
    check_senders(&rt, rt.alloc(), &mut store, &[]);
    start(&rt, rt.alloc(), &mut store);
    check_rows(
        &rt,
        rt.alloc(),
        &mut store,
        &[(true, 0, [0, 0, 0], [0, 0, 0])],
    );
    drop(store);
}

// Two receipts from process 2, sent in its intervals 4 and 3, with one from process 0 between them; then a gap.
#[test]
fn receipts_follow_without_a_gap(rt: HostRuntime) {
    let mut store = MemStable::new(rt.alloc());
    start(&rt, rt.alloc(), &mut store);
    put(&rt, rt.alloc(), &mut store, 1, &receipt(1, 2, 4, 0));
    put(&rt, rt.alloc(), &mut store, 2, &receipt(2, 0, 7, 0));
    put(&rt, rt.alloc(), &mut store, 3, &receipt(3, 2, 3, 1));
    put(&rt, rt.alloc(), &mut store, 5, &receipt(5, 2, 9, 2));
    let want = [
        (true, 0, [0, 0, 0], [0, 0, 0]),
        (false, 1, [0, 1, 4], [0, 0, 1]),
        (false, 2, [7, 2, 4], [1, 0, 1]),
        (false, 3, [7, 3, 4], [1, 0, 2]),
    ];
    check_rows(&rt, rt.alloc(), &mut store, &want);
    let senders = [(1, 2), (2, 0), (3, 2), (5, 2)];
    check_senders(&rt, rt.alloc(), &mut store, &senders);
    drop(store);
}

// Puts the checkpoint of interval 1, and receipts on both sides of it.
fn put_newest(rt: &impl Abort, alloc: Global, store: &mut MemStable) {
    start(rt, alloc, store);
    put(rt, alloc, store, 1, &receipt(1, 2, 4, 0));
    let mut core = ProcCore::replay(alloc, store, 1).expect(rt, "a process");
    core.checkpoint(alloc, store).expect(rt, "stored");
    drop(core);
    put(rt, alloc, store, 2, &receipt(2, 2, 5, 1));
}

static NEWEST: [Want; 4] = [
    (true, 1, [0, 1, 4], [0, 0, 1]),
    (false, 2, [0, 2, 5], [0, 0, 2]),
    (true, 0, [0, 0, 0], [0, 0, 0]),
    (false, 1, [0, 1, 4], [0, 0, 1]),
];

// From the newest checkpoint down, the receipt of its interval follows on the one before.
#[test]
fn the_newest_checkpoint_comes_first(rt: HostRuntime) {
    let mut store = MemStable::new(rt.alloc());
    put_newest(&rt, rt.alloc(), &mut store);
    check_rows(&rt, rt.alloc(), &mut store, &NEWEST);
    store.prune(rt.alloc(), 1).expect(&rt, "pruned");
    check_rows(&rt, rt.alloc(), &mut store, &NEWEST[..2]);
    check_senders(&rt, rt.alloc(), &mut store, &[(2, 2)]);
    drop(store);
}

// What is stored at interval 1, and why it stands for no row and no sender.
static REFUSED: [([u8; 4], RowsFault, Option<RowsFault>); 5] = [
    (
        [2, 2, 0, 0],
        RowsFault::Damaged(1),
        Some(RowsFault::Damaged(1)),
    ),
    (
        [1, 3, 0, 0],
        RowsFault::Damaged(1),
        Some(RowsFault::Damaged(1)),
    ),
    (
        [0, 2, 0, 0],
        RowsFault::Damaged(1),
        Some(RowsFault::Damaged(1)),
    ),
    (
        [1, 16, 0, 0],
        RowsFault::Damaged(1),
        Some(RowsFault::Damaged(1)),
    ),
    (
        [3, 2, 0, 1],
        RowsFault::Damaged(1),
        Some(RowsFault::Damaged(1)),
    ),
];

// Why no rows and no senders are told.
fn check_refused<S: Stable>(
    rt: &impl Abort,
    alloc: Global,
    store: &mut S,
    why: RowsFault,
    sender: Option<RowsFault>,
) {
    check_no_rows(rt, alloc, store, (1, 3), why);
    let senders = stored_senders(alloc, store, Pid::at(1), 3).err();
    assert!(rt; senders == sender, "{senders:?}");
}

// Why no rows are told of this process of so many.
fn check_no_rows<S: Stable>(
    rt: &impl Abort,
    alloc: Global,
    store: &mut S,
    (own, n): (u32, usize),
    why: RowsFault,
) {
    let own = Pid::new(own).expect(rt, "the name of a process");
    let rows = stored_rows(alloc, store, own, n).err();
    assert!(rt; rows == Some(why), "{rows:?}");
}

#[test]
fn records_that_are_refused(rt: HostRuntime) {
    for ([x, from, sent, number], why, sender) in &REFUSED {
        let record = receipt(*x, *from, *sent, *number);
        let mut store = MemStable::new(rt.alloc());
        start(&rt, rt.alloc(), &mut store);
        put(&rt, rt.alloc(), &mut store, 1, &record);
        check_refused(&rt, rt.alloc(), &mut store, *why, *sender);
        drop(store);
    }
}

// The second receipt of a sender has to be number 1.
#[test]
fn a_number_that_is_not_the_next(rt: HostRuntime) {
    let mut store = MemStable::new(rt.alloc());
    start(&rt, rt.alloc(), &mut store);
    put(&rt, rt.alloc(), &mut store, 1, &receipt(1, 2, 0, 0));
    put(&rt, rt.alloc(), &mut store, 2, &receipt(2, 2, 0, 0));
    let why = RowsFault::Mismatch(2);
    check_no_rows(&rt, rt.alloc(), &mut store, (1, 3), why);
    check_senders(&rt, rt.alloc(), &mut store, &[(1, 2), (2, 2)]);
    drop(store);
}

// Processes and numbers of processes that the store is not of.
static OTHERS: [(u32, usize); 4] = [(0, 3), (2, 3), (1, 2), (1, 4)];

// The store is another process's, or of another number of processes; or the receipt is another's.
#[test]
fn other_stores_are_refused(rt: HostRuntime) {
    let alloc = rt.alloc();
    let mut store = MemStable::new(alloc);
    start(&rt, alloc, &mut store);
    for other in &OTHERS {
        check_no_rows(&rt, alloc, &mut store, *other, RowsFault::Damaged(0));
    }
    put(&rt, alloc, &mut store, 1, &RECEIPT);
    let senders = stored_senders(alloc, &mut store, Pid::at(0), 3);
    assert!(&rt; senders.err() == Some(RowsFault::Damaged(1)));
    drop(store);
}

// A store right after its start, that stops behind so many calls.
fn fused(rt: &impl Abort, alloc: Global, calls: u64) -> FuseStable<MemStable> {
    let mut store = FuseStable::new(MemStable::new(alloc), calls);
    start(rt, alloc, &mut store);
    store
}

// A store that fails at its first or its second read.
#[test]
fn rows_of_stores_that_fail(rt: HostRuntime) {
    for calls in [1, 2] {
        let mut store = fused(&rt, rt.alloc(), calls);
        check_no_rows(&rt, rt.alloc(), &mut store, (1, 3), RowsFault::Fault);
        drop(store);
    }
}

#[test]
fn senders_of_stores_that_fail(rt: HostRuntime) {
    let mut store = fused(&rt, rt.alloc(), 1);
    let senders = stored_senders(rt.alloc(), &mut store, Pid::at(1), 3);
    assert!(&rt; senders.err() == Some(RowsFault::Fault));
    drop(store);
}

// Kind, version, process, number of processes, extension, and the size and the image, the lowest byte first.
#[test]
fn what_a_store_is_of(rt: HostRuntime) {
    let alloc = rt.alloc();
    let mut image = Image {
        bytes: Vec::from_slice(alloc, &[0x73, 0, 0, 0]).expect(&rt, "memory"),
        size: 0x0001_0040,
        ext: Ext::I,
    };
    let about = about_of(alloc, Pid::at(15), 16, &image).expect(&rt, "memory");
    let want = [0x41, 1, 15, 16, 0, 0x40, 0, 1, 0, 0x73, 0, 0, 0];
    assert_eq!(rt; about.as_slice(), want.as_slice());
    image.ext = Ext::Im;
    let about = about_of(alloc, Pid::at(0), 1, &image).expect(&rt, "memory");
    let want = [0x41, 1, 0, 1, 1, 0x40, 0, 1, 0, 0x73, 0, 0, 0];
    assert_eq!(rt; about.as_slice(), want.as_slice());
}
