//! The bodies of messages, as the command `show` writes them.

use crate::replay::{RECEIPT, fill};
use om_commands::{BytesForm, CommandError};
use om_look_commands::{show_all_bodies, show_bodies};
use om_stable::{FuseStable, Ledger, LedgerTable, MemLedger, MemStable, Stable};
use std::alloc::Global;
use std::process::Abort;

// Receipts of process 1, of the intervals from 1 on: whole ones, one that names interval 9, and one that is cut off.
static RECEIPTS: [&[u8]; 5] = [
    &[
        0x52, 1, 1, 2, 1, 0, 0, 0, 0, 0, 0, 0, 0, 0, 0, 0, 3, 0, 0, 0, 0, 0, 0, 0, 3, 0, b'h',
        b'i', b'\n',
    ],
    &[
        0x52, 1, 1, 0, 2, 0, 0, 0, 4, 0, 0, 0, 0, 0, 0, 0, 5, 0, 0, 0, 0, 0, 0, 0, 0, 0,
    ],
    &[
        0x52, 1, 1, 0, 9, 0, 0, 0, 4, 0, 0, 0, 1, 0, 0, 0, 7, 0, 0, 0, 0, 0, 0, 0, 1, 0, 7,
    ],
    &[0x52, 1, 1, 0, 4, 0, 0, 0],
    &[
        0x52, 1, 1, 15, 5, 0, 0, 0, 4, 0, 0, 0, 1, 0, 0, 0, 9, 0, 0, 0, 0, 0, 0, 0, 4, 0, 0, 255,
        b'"', b'7',
    ],
];

// Their lines.
const LINES: &str = "\
receipt 1 from 2 interval 0 number 0 count 3 bytes 3
receipt 2 from 0 interval 4 number 0 count 5 bytes 0
receipt 3 damaged interval 9
receipt 4 damaged short
receipt 5 from 15 interval 4 number 1 count 9 bytes 4
";

// Those of the bodies behind them, in each form.
static BODIES: [(BytesForm, &str); 2] = [
    (
        BytesForm::Hex,
        "body 1 from 2 68690a\nbody 2 from 0 -\nbody 5 from 15 00ff2237\n",
    ),
    (
        BytesForm::Text,
        "body 1 from 2 \"hi\\n\"\nbody 2 from 0 \"\"\nbody 5 from 15 \"\\000\\377\\\"7\"\n",
    ),
];

fn put_all<S: Stable>(rt: &impl Abort, alloc: Global, store: &mut S) {
    let mut receipts = Vec::new(alloc);
    for bytes in &RECEIPTS {
        let receipt = Vec::from_slice(alloc, bytes).expect(rt, "memory");
        receipts.push(receipt).expect(rt, "memory");
    }
    assert!(rt; receipts.len() == 5);
    store.put_receipts(alloc, 1, &receipts).expect(rt, "stored");
}

#[test]
fn bodies_in_each_form(rt: HostRuntime) {
    let alloc = rt.alloc();
    let mut store = MemStable::new(alloc);
    put_all(&rt, alloc, &mut store);
    for (form, bodies) in &BODIES {
        let mut text = Vec::new(alloc);
        let told = show_bodies(alloc, &mut store, *form, &mut text);
        assert!(&rt; told == Ok(()));
        let written = format!(in alloc; "{LINES}{bodies}").expect(&rt, "memory");
        assert!(&rt; text.as_slice() == written.as_bytes(), "{bodies}");
    }
    drop(store);
}

// What stands behind the records of a store that a run can take up, and the body of its one message.
const WHOLE: &str = "\
checkpoint 0 process 1 of 3 count 0 version 2 bytes 344
receipt 1 from 2 interval 0 number 0 count 3 bytes 4
replay 0 to 1
senders 0 02
body 1 from 2 93081000
";

// The next process of three sent a message to this one.
fn put_sender<S: Ledger>(rt: &impl Abort, alloc: Global, store: &mut S) {
    let mut rows = Vec::new(alloc);
    let row = Vec::from_slice(alloc, &[2]).expect(rt, "memory");
    rows.push(row).expect(rt, "memory");
    assert!(rt; rows.len() == 1);
    let put = store.put_in(alloc, LedgerTable::Senders, 0, &rows);
    put.expect(rt, "stored");
}

#[test]
fn bodies_stand_behind_a_ledger(rt: HostRuntime) {
    let alloc = rt.alloc();
    let mut store = MemLedger::new(alloc);
    fill(&rt, alloc, &mut store, &RECEIPT);
    put_sender(&rt, alloc, &mut store);
    let mut text = Vec::new(alloc);
    let told = show_all_bodies(alloc, &mut store, BytesForm::Hex, &mut text);
    assert!(&rt; told == Ok(()));
    assert!(&rt; text.as_slice() == WHOLE.as_bytes());
    drop(store);
}

// The calls of a look, each of which is stopped in turn: for the checkpoints, for the receipts, and for these once more.
#[test]
fn stores_that_fail(rt: HostRuntime) {
    let alloc = rt.alloc();
    for calls in 0..3u64 {
        let mut store = FuseStable::new(MemStable::new(alloc), calls);
        let mut text = Vec::new(alloc);
        let told = show_bodies(alloc, &mut store, BytesForm::Hex, &mut text);
        assert!(&rt; told == Err(CommandError::StoreFault), "{calls}");
        assert!(&rt; text.is_empty());
        drop(store);
    }
}
