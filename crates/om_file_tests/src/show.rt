//! The rows of the command `show` over a store that a run can take up.

use crate::replay::{RECEIPT, fill};
use om_commands::CommandError;
use om_look_commands::show_all;
use om_stable::{FuseStable, Ledger, LedgerTable, MemLedger};
use std::alloc::Global;
use std::process::Abort;

// The records of the store: those of a process of three in memory of 128 bytes, and its receipt.
const RECORDS: &str = "\
checkpoint 0 process 1 of 3 count 0 version 2 bytes 344
receipt 1 from 2 interval 0 number 0 count 3 bytes 4
replay 0 to 1
";

// A row of a table, and its line.
type Row = (LedgerTable, u64, &'static [u8], &'static str);

// What the store is of, senders and outputs; some of them none.
static ROWS: [Row; 8] = [
    (
        LedgerTable::About,
        0,
        &[0x41, 1, 1, 3, 0, 0x80, 0, 0, 0, 0x93, 0x08, 0x20, 0],
        "about 0 process 1 of 3 program rv32i memory 128 image 4\n",
    ),
    (
        LedgerTable::About,
        1,
        &[0x41, 1, 15, 16, 1, 0, 0, 1, 0],
        "about 1 process 15 of 16 program rv32im memory 65536 image 0\n",
    ),
    (LedgerTable::Senders, 0, &[2, 0, 15], "senders 0 02000f\n"),
    (LedgerTable::Senders, 3, &[], "senders 3 -\n"),
    (
        LedgerTable::Outputs,
        0,
        &[1, 0, 0, 0, 0x0A, 0xB0],
        "output 0 interval 1 0ab0\n",
    ),
    (
        LedgerTable::Outputs,
        1,
        &[255, 255, 255, 255],
        "output 1 interval 4294967295 -\n",
    ),
    (
        LedgerTable::Outputs,
        2,
        &[1, 0, 0],
        "output 2 damaged short\n",
    ),
    (
        LedgerTable::Outputs,
        9,
        &[0, 1, 0, 0, 7],
        "output 9 interval 256 07\n",
    ),
];

// Bytes that do not say what a store is of: too short, or with another kind, version or extension.
static NO_ABOUTS: [&[u8]; 4] = [
    &[0x41, 1, 1, 3, 0, 0x80, 0, 0],
    &[0x40, 1, 1, 3, 0, 0x80, 0, 0, 0],
    &[0x41, 2, 1, 3, 0, 0x80, 0, 0, 0],
    &[0x41, 1, 1, 3, 2, 0x80, 0, 0, 0],
];

fn put<S: Ledger>(
    rt: &impl Abort,
    alloc: Global,
    store: &mut S,
    (table, number): (LedgerTable, u64),
    bytes: &[u8],
) {
    let mut recs = Vec::new(alloc);
    let row = Vec::from_slice(alloc, bytes).expect(rt, "memory");
    recs.push(row).expect(rt, "memory");
    assert!(rt; recs.len() == 1 && number < 16);
    let told = store.put_in(alloc, table, number, &recs);
    assert!(rt; told.is_ok());
}

// What the command writes of the store.
fn check<S: Ledger>(rt: &impl Abort, alloc: Global, store: &mut S, written: &str) {
    let mut text = Vec::new(alloc);
    let told = show_all(alloc, store, &mut text);
    assert!(rt; told == Ok(()));
    assert!(rt; text.as_slice() == written.as_bytes(), "{written}");
}

#[test]
fn a_ledger_is_shown_behind_its_records(rt: HostRuntime) {
    let mut store = MemLedger::new(rt.alloc());
    check(&rt, rt.alloc(), &mut store, "");
    fill(&rt, rt.alloc(), &mut store, &RECEIPT);
    check(&rt, rt.alloc(), &mut store, RECORDS);
    let mut written = String::from_str(rt.alloc(), RECORDS).expect(&rt, "memory");
    for (table, number, bytes, line) in &ROWS {
        put(&rt, rt.alloc(), &mut store, (*table, *number), bytes);
        written.push_str(line).expect(&rt, "memory");
    }
    check(&rt, rt.alloc(), &mut store, &written);
    drop(store);
}

#[test]
fn a_store_that_does_not_say_what_it_is_of(rt: HostRuntime) {
    for bytes in &NO_ABOUTS {
        let mut store = MemLedger::new(rt.alloc());
        put(&rt, rt.alloc(), &mut store, (LedgerTable::About, 0), bytes);
        check(&rt, rt.alloc(), &mut store, "about 0 damaged\n");
        drop(store);
    }
}

// A row of an output of so many zeros.
fn zeros(rt: &impl Abort, alloc: Global, count: usize) -> Vec<u8> {
    let mut row = Vec::new(alloc);
    for _ in 0..count {
        row.push(0).expect(rt, "memory");
    }
    row
}

// Four bytes tell the interval, and the longest output has 256: a longer row is none.
#[test]
fn the_longest_output_is_shown(rt: HostRuntime) {
    let mut store = MemLedger::new(rt.alloc());
    let longest = zeros(&rt, rt.alloc(), 260);
    put(
        &rt,
        rt.alloc(),
        &mut store,
        (LedgerTable::Outputs, 0),
        &longest,
    );
    let longer = zeros(&rt, rt.alloc(), 261);
    put(
        &rt,
        rt.alloc(),
        &mut store,
        (LedgerTable::Outputs, 1),
        &longer,
    );
    let mut written = String::from_str(rt.alloc(), "output 0 interval 0 ").expect(&rt, "memory");
    for _ in 0..256 {
        written.push_str("00").expect(&rt, "memory");
    }
    written
        .push_str("\noutput 1 damaged trailing\n")
        .expect(&rt, "memory");
    check(&rt, rt.alloc(), &mut store, &written);
    drop(store);
}

// Each of the calls of a look is stopped in turn: three for the tables, and then those for the records.
#[test]
fn a_ledger_that_fails(rt: HostRuntime) {
    for calls in 0..5u64 {
        let mut store = FuseStable::new(MemLedger::new(rt.alloc()), calls);
        let mut text = Vec::new(rt.alloc());
        let told = show_all(rt.alloc(), &mut store, &mut text);
        assert!(&rt; told == Err(CommandError::StoreFault), "{calls}");
        assert!(&rt; text.is_empty());
        drop(store);
    }
}
