//! A ledger whose first reading is kept for the second. What is behind the cache stops at a call, which shows whether a reading
//! came to it.

ghost use Rattle.std.specs.Prelude.{◌≡◌, length};

use om_stable::{
    FuseStable, Ledger, LedgerRows, LedgerTable, MemLedger, Stable, StoreError, WriteBatch,
};
use om_tables::CachingLedger;
use std::alloc::Global;
use std::process::Abort;

// One record.
fn record(rt: &impl Abort, alloc: Global, bytes: &[u8]) -> Vec<Vec<u8>>
    ensures { length result.items ≡ 1 }
{
    let rec = bytes.to_vec(alloc).expect(rt, "memory");
    Vec::from_array(alloc, [rec]).expect(rt, "memory")
}

const ONE: &[u8] = b"one";

const TWO: &[u8] = b"two";

const THREE: &[u8] = b"three";

const FOUR: &[u8] = b"four";

// Puts one receipt.
fn put_receipt<S: Stable>(
    rt: &impl Abort,
    alloc: Global,
    store: &mut S,
    x: u32,
    bytes: &[u8],
) -> Result<(), StoreError> {
    let recs = record(rt, alloc, bytes);
    assert!(rt; x <= 4);
    store.put_receipts(alloc, x, &recs)
}

static THREE_RECEIPTS: [(u32, &[u8]); 3] = [(1, ONE), (2, TWO), (3, THREE)];

// Receipts 1 to 3 and checkpoint 0.
fn filled(rt: &impl Abort, alloc: Global) -> MemLedger {
    let mut store = MemLedger::new(alloc);
    for (x, bytes) in &THREE_RECEIPTS {
        let put = put_receipt(rt, alloc, &mut store, *x, bytes);
        put.expect(rt, "stored");
    }
    let put = store.put_checkpoint(alloc, 0, b"zero");
    put.expect(rt, "stored");
    store
}

type Cached = CachingLedger<FuseStable<MemLedger>>;

// Behind the cache so many calls pass before one that is stopped.
fn cached(rt: &impl Abort, alloc: Global, calls: u64) -> Cached {
    CachingLedger::new(FuseStable::new(filled(rt, alloc), calls))
}

// Asserts that these receipts are read above `after` and at or below `to`.
fn check(
    rt: &impl Abort,
    alloc: Global,
    store: &mut Cached,
    (after, to): (u32, u32),
    want: &[(u32, &[u8])],
) {
    let found = store.receipts(alloc, after, to).expect(rt, "receipts");
    assert!(rt; found.len() == want.len());
    for ((x, bytes), (number, rec)) in found.iter().zip(want) {
        assert!(rt;
            *x == *number && bytes.as_slice() == *rec,
            "receipt {number}"
        );
    }
}

// Asserts that a reading comes to what is behind the cache, where it is stopped.
fn check_stopped(rt: &impl Abort, alloc: Global, store: &mut Cached, (after, to): (u32, u32)) {
    let found = store.receipts(alloc, after, to);
    assert!(rt; matches!(found, Err(StoreError::Fault)));
    assert!(rt; store.failures() == 1);
}

const ALL: (u32, u32) = (0, u32::MAX);

// To where the second reading asks, and what it answers.
static SECOND: [(u32, &[(u32, &[u8])]); 5] = [
    (0, &[]),
    (1, &[(1, ONE)]),
    (2, &[(1, ONE), (2, TWO)]),
    (3, &[(1, ONE), (2, TWO), (3, THREE)]),
    (u32::MAX, &[(1, ONE), (2, TWO), (3, THREE)]),
];

// All is read.
fn check_all(rt: &impl Abort, alloc: Global, store: &mut Cached) {
    check(rt, alloc, store, ALL, &THREE_RECEIPTS);
}

// The second reading, up to where it asks, and the third, which is read anew.
#[test]
fn a_second_reading_is_answered_from_the_first(rt: HostRuntime) {
    let alloc = rt.alloc();
    for (to, want) in &SECOND {
        let mut store = cached(&rt, alloc, 1);
        check_all(&rt, alloc, &mut store);
        check(&rt, alloc, &mut store, (0, *to), want);
        check_stopped(&rt, alloc, &mut store, ALL);
        check_all(&rt, alloc, &mut store);
        drop(store);
    }
}

// What begins elsewhere or goes further is read anew, and what was read first stays.
#[test]
fn other_readings_are_read_anew(rt: HostRuntime) {
    let alloc = rt.alloc();
    for other in [(0, 3), (1, 4), (2, 3)] {
        let mut store = cached(&rt, alloc, 1);
        check(&rt, alloc, &mut store, (1, 3), &[(2, TWO), (3, THREE)]);
        check_stopped(&rt, alloc, &mut store, other);
        check(&rt, alloc, &mut store, (1, 2), &[(2, TWO)]);
        drop(store);
    }
}

// A change of a record.
#[derive(Clone, Copy)]
enum Change {
    PutReceipt,
    PutCheckpoint,
    Cut,
    Prune,
    Shed,
}

fn make_change(rt: &impl Abort, alloc: Global, store: &mut Cached, change: Change) {
    let done = match change {
        Change::PutReceipt => put_receipt(rt, alloc, store, 4, FOUR),
        Change::PutCheckpoint => store.put_checkpoint(alloc, 2, b"at two"),
        Change::Cut => store.cut(alloc, 1),
        Change::Prune => store.prune(alloc, 1),
        Change::Shed => shed(alloc, store),
    };
    done.expect(rt, "changed");
}

fn shed(alloc: Global, store: &mut Cached) -> Result<(), StoreError> {
    let none = LedgerRows {
        first: 0,
        recs: &[],
    };
    let batch = WriteBatch {
        first: 0,
        receipts: &[],
        checkpoint: None,
        outputs: none,
        senders: none,
        prune_to: Some(2),
    };
    store.put_batch(alloc, &batch)
}

// A change, and what is read behind it.
static CHANGES: [(Change, &[(u32, &[u8])]); 5] = [
    (
        Change::PutReceipt,
        &[(1, ONE), (2, TWO), (3, THREE), (4, FOUR)],
    ),
    (Change::PutCheckpoint, &[(1, ONE), (2, TWO), (3, THREE)]),
    (Change::Cut, &[(1, ONE)]),
    (Change::Prune, &[(2, TWO), (3, THREE)]),
    (Change::Shed, &[(3, THREE)]),
];

// Behind a change nothing that was read before is handed out.
#[test]
fn a_change_spends_what_was_read(rt: HostRuntime) {
    let alloc = rt.alloc();
    for (what, want) in &CHANGES {
        let mut store = cached(&rt, alloc, 2);
        check_all(&rt, alloc, &mut store);
        make_change(&rt, alloc, &mut store, *what);
        check_stopped(&rt, alloc, &mut store, ALL);
        check(&rt, alloc, &mut store, ALL, want);
        drop(store);
    }
}

// Puts one record into the table of what the store is of, and reads it.
fn check_about(rt: &impl Abort, alloc: Global, store: &mut Cached) {
    let recs = record(rt, alloc, b"about");
    let put = store.put_in(alloc, LedgerTable::About, 0, &recs);
    put.expect(rt, "stored");
    let about = store.all_in(alloc, LedgerTable::About).expect(rt, "read");
    assert!(rt; about.len() == 1);
    for (number, bytes) in &about {
        assert!(rt; *number == 0 && bytes.as_slice() == b"about".as_slice());
    }
}

// Looks at the newest checkpoint up to 3.
fn check_newest(rt: &impl Abort, alloc: Global, store: &mut Cached) {
    let checkpoint = store.effective(alloc, 3).expect(rt, "read");
    assert!(rt; checkpoint.map(|(x, _)| x) == Some(0));
}

// What changes no record spends nothing: a table of the ledger, and looks.
#[test]
fn other_calls_leave_what_was_read(rt: HostRuntime) {
    let alloc = rt.alloc();
    let mut store = cached(&rt, alloc, 4);
    check_all(&rt, alloc, &mut store);
    check_about(&rt, alloc, &mut store);
    check_newest(&rt, alloc, &mut store);
    check(&rt, alloc, &mut store, (0, 1), &[(1, ONE)]);
    check_stopped(&rt, alloc, &mut store, ALL);
    drop(store);
}
