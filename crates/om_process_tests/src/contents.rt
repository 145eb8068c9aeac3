//! The texts of stores, with records that are whole, altered and cut. The sizes and the faults are those of the formats.

use om_interval::Pid;
use om_isa::Ext;
use om_look::{LookFault, content_text};
use om_process::ProcCore;
use om_stable::{FuseStable, MemStable, Stable};
use std::alloc::Global;
use std::process::Abort;

static PROGRAM: [u32; 11] = [
    0x00200893, 0x04000513, 0x00400593, 0x00000073, 0x00100893, 0x00050613, 0x00000513, 0x04000593,
    0x00000073, 0x00000893, 0x00000073,
];

// The receipt of 4 bytes that began interval 1 of process 1 of 3.
pub(crate) const RECEIPT: [u8; 30] = [
    0x52, 1, 1, 2, 1, 0, 0, 0, 0, 0, 0, 0, 0, 0, 0, 0, 3, 0, 0, 0, 0, 0, 0, 0, 4, 0, 0x93, 0x08,
    0x10, 0x00,
];

// Process 1 of 3 has started over the store.
pub(crate) fn start<S: Stable>(rt: &impl Abort, alloc: Global, store: &mut S) {
    let mut image = Vec::new(alloc);
    for word in &PROGRAM {
        image
            .extend_from_slice(&word.to_le_bytes())
            .expect(rt, "memory");
    }
    let core = ProcCore::start(alloc, &image, 128, Ext::I, Pid::at(1), 3, store);
    assert!(rt; core.is_ok());
    drop(core);
}

pub(crate) fn put<S: Stable>(
    rt: &impl Abort,
    alloc: Global,
    store: &mut S,
    x: u32,
    receipt: &[u8],
) {
    let bytes = Vec::from_slice(alloc, receipt).expect(rt, "memory");
    let mut receipts = Vec::new(alloc);
    receipts.push(bytes).expect(rt, "memory");
    assert!(rt; receipts.len() == 1 && x < 1000);
    let put = store.put_receipts(alloc, x, &receipts);
    put.expect(rt, "stored");
}

fn check<S: Stable>(rt: &impl Abort, alloc: Global, store: &mut S, text: &str) {
    let told = content_text(alloc, store).expect(rt, "a text");
    assert_eq!(rt; told.as_str(), text);
}

#[test]
fn nothing(rt: HostRuntime) {
    check(&rt, rt.alloc(), &mut MemStable::new(rt.alloc()), "");
}

#[test]
fn a_start_and_a_receipt(rt: HostRuntime) {
    let mut store = MemStable::new(rt.alloc());
    start(&rt, rt.alloc(), &mut store);
    put(&rt, rt.alloc(), &mut store, 1, &RECEIPT);
    let text = "\
checkpoint 0 process 1 of 3 count 0 version 2 bytes 344
receipt 1 from 2 interval 0 number 0 count 3 bytes 4
replay 0 to 1
";
    check(&rt, rt.alloc(), &mut store, text);
    drop(store);
}

// A receipt is missing behind the first, so the last is of no use.
#[test]
fn a_gap(rt: HostRuntime) {
    let mut store = MemStable::new(rt.alloc());
    start(&rt, rt.alloc(), &mut store);
    put(&rt, rt.alloc(), &mut store, 1, &RECEIPT);
    put(&rt, rt.alloc(), &mut store, 3, &RECEIPT);
    let text = "\
checkpoint 0 process 1 of 3 count 0 version 2 bytes 344
receipt 1 from 2 interval 0 number 0 count 3 bytes 4
receipt 3 damaged interval 1
replay 0 to 1
";
    check(&rt, rt.alloc(), &mut store, text);
    drop(store);
}

// The line of a receipt of which a byte is another, and which is cut or longer, and the last interval that is replayed.
static ALTERED: [(usize, (usize, u8), &str, &str); 13] = [
    (30, (0, 0x53), "damaged kind", "0"),
    (30, (1, 2), "damaged version", "0"),
    (30, (2, 16), "damaged field 2", "0"),
    (30, (3, 16), "damaged field 3", "0"),
    (30, (4, 0), "damaged field 4", "0"),
    (30, (4, 2), "damaged interval 2", "0"),
    (30, (12, 1), "damaged field 12", "0"),
    (30, (25, 2), "damaged field 24", "0"),
    (30, (24, 5), "damaged short", "0"),
    (30, (24, 3), "damaged trailing", "0"),
    (29, (0, 0x52), "damaged short", "0"),
    (
        30,
        (16, 2),
        "from 2 interval 0 number 0 count 2 bytes 4",
        "0",
    ),
    (
        30,
        (8, 7),
        "from 2 interval 7 number 0 count 3 bytes 4",
        "1",
    ),
];

fn check_altered(
    rt: &impl Abort,
    alloc: Global,
    len: usize,
    (place, byte): (usize, u8),
    (line, last): (&str, &str),
) {
    let mut store = MemStable::new(alloc);
    start(rt, alloc, &mut store);
    put_altered(rt, alloc, &mut store, len, (place, byte));
    let first = "checkpoint 0 process 1 of 3 count 0 version 2 bytes 344";
    let text = format!(in alloc; "{first}\nreceipt 1 {line}\nreplay 0 to {last}\n");
    check(rt, alloc, &mut store, text.expect(rt, "memory").as_str());
    drop(store);
}

// Puts so many bytes of the receipt, of which one is another.
fn put_altered(
    rt: &impl Abort,
    alloc: Global,
    store: &mut MemStable,
    len: usize,
    (place, byte): (usize, u8),
) {
    let mut receipt = RECEIPT;
    assert!(rt; place < receipt.len() && len <= receipt.len());
    receipt[place] = byte;
    put(rt, alloc, store, 1, &receipt[..len]);
}

#[test]
fn receipts_that_are_altered(rt: HostRuntime) {
    for (len, change, line, last) in &ALTERED {
        check_altered(&rt, rt.alloc(), *len, *change, (*line, *last));
    }
}

// Puts the checkpoint of the process of a store in its interval 1 into another store.
fn put_checkpoint(rt: &impl Abort, alloc: Global, from: &mut MemStable, to: &mut MemStable) {
    let mut core = ProcCore::replay(alloc, from, 1).expect(rt, "a process");
    core.checkpoint(alloc, to).expect(rt, "stored");
    drop(core);
}

// The same into a store right after its start, and a third one that is none.
fn put_both(rt: &impl Abort, alloc: Global, store: &mut MemStable) {
    let mut from = MemStable::new(alloc);
    start(rt, alloc, &mut from);
    put(rt, alloc, &mut from, 1, &RECEIPT);
    put_checkpoint(rt, alloc, &mut from, store);
    drop(from);
    let none = store.put_checkpoint(alloc, 7, &[0x43, 2, 17]);
    none.expect(rt, "stored");
}

// The checkpoint of interval 1 stands for the receipt, which is not there: the two ranges are one. A third one is none.
#[test]
fn checkpoints(rt: HostRuntime) {
    let mut store = MemStable::new(rt.alloc());
    start(&rt, rt.alloc(), &mut store);
    put_both(&rt, rt.alloc(), &mut store);
    let text = "\
checkpoint 0 process 1 of 3 count 0 version 2 bytes 344
checkpoint 1 process 1 of 3 count 4 version 2 bytes 344
checkpoint 7 damaged field 2
replay 0 to 1
";
    check(&rt, rt.alloc(), &mut store, text);
    drop(store);
}

// The two calls that fill the store pass.
#[test]
fn a_store_that_fails(rt: HostRuntime) {
    let mut store = FuseStable::new(MemStable::new(rt.alloc()), 2);
    start(&rt, rt.alloc(), &mut store);
    put(&rt, rt.alloc(), &mut store, 1, &RECEIPT);
    let told = content_text(rt.alloc(), &mut store);
    assert!(&rt; told.err() == Some(LookFault::Fault));
    drop(store);
}
