//! What stores keep beside their records: in memory, behind a fuse, and in five tables.

ghost use Rattle.std.specs.Prelude.{◌≡◌, ◌+◌, ◌≤◌, length, true};
ghost use Rattle.om_stable.specs.declared.ledger.TheConstants.{LEDGER_NUMBERS};
ghost use Rattle.om_stable.specs.declared.stable.TheConstants.{INTERVALS};

use om_stable::{
    FuseStable, INTERVALS, LEDGER_NUMBERS, Ledger, LedgerRows, LedgerTable, MemLedger, MemStable,
    NewCheckpoint, Stable, StoreError, WriteBatch,
};
use om_tables::CachingLedger;
use std::alloc::{AllocError, Global};
use std::process::Abort;

mod batches;
mod stops;
mod tables;

// The last number of a table.
const LAST: u64 = LEDGER_NUMBERS - 1;

// So many records from a number on.
type Some = (u64, usize);

// A batch: its receipts, as many from an interval on, the interval of its checkpoint, its outputs and senders, and to where it is
// pruned.
#[derive(Clone, Copy)]
struct Batch {
    receipts: (u32, usize),
    checkpoint: Option<u32>,
    outputs: Some,
    senders: Some,
    prune_to: Option<u32>,
}

// A call of a ledger.
#[derive(Clone, Copy)]
enum Call {
    Put(LedgerTable, u64, usize),
    /// Outputs and senders, and the checkpoint to which it is pruned.
    Shed(u32, Some, Some),
    Write(Batch),
}

// A call, why it is refused, and the numbers of the outputs and the senders that are there afterwards.
type Row = (Call, Result<(), StoreError>, &'static [u64], &'static [u64]);

static ROWS: [Row; 11] = [
    (Call::Put(LedgerTable::Outputs, 0, 2), Ok(()), &[0, 1], &[]),
    (
        Call::Put(LedgerTable::Outputs, 1, 2),
        Err(StoreError::Present),
        &[0, 1],
        &[],
    ),
    (Call::Put(LedgerTable::Outputs, 1, 0), Ok(()), &[0, 1], &[]),
    (Call::Put(LedgerTable::About, 0, 1), Ok(()), &[0, 1], &[]),
    (
        Call::Put(LedgerTable::About, 0, 1),
        Err(StoreError::Present),
        &[0, 1],
        &[],
    ),
    (
        Call::Put(LedgerTable::Senders, LAST, 1),
        Ok(()),
        &[0, 1],
        &[LAST],
    ),
    (
        Call::Shed(1, (2, 1), (LAST, 1)),
        Err(StoreError::Present),
        &[0, 1],
        &[LAST],
    ),
    (
        Call::Shed(1, (1, 1), (0, 1)),
        Err(StoreError::Present),
        &[0, 1],
        &[LAST],
    ),
    (
        Call::Shed(2, (2, 1), (0, 1)),
        Ok(()),
        &[0, 1, 2],
        &[0, LAST],
    ),
    (
        Call::Shed(2, (3, 0), (1, 0)),
        Ok(()),
        &[0, 1, 2],
        &[0, LAST],
    ),
    (
        Call::Put(LedgerTable::Senders, 1, 1),
        Ok(()),
        &[0, 1, 2],
        &[0, 1, LAST],
    ),
];

// How many of the rows come before the one that prunes.
const UNPRUNED: usize = 8;

fn record_at(table: LedgerTable, x: u64) -> [u8; 9] {
    let [a, b, c, d, e, f, g, h] = x.to_le_bytes();
    let kind = match table {
        LedgerTable::Outputs => b'O',
        LedgerTable::Senders => b'S',
        LedgerTable::About => b'A',
    };
    [kind, a, b, c, d, e, f, g, h]
}

// So many records for a table.
fn records(
    alloc: Global,
    table: LedgerTable,
    (first, count): Some,
) -> Result<Vec<Vec<u8>>, AllocError> {
    let mut recs = Vec::new(alloc);
    for k in 0..count {
        if let Some(x) = first.checked_add(k as u64) {
            recs.push(record_at(table, x).to_vec(alloc)?)?;
        }
    }
    Ok(recs)
}

// Returns whether so many records from a number on have numbers.
fn fits(first: u64, recs: &[Vec<u8>]) -> bool
    ensures { result ≡ true → first + length recs.now ≤ LEDGER_NUMBERS }
{
    match first.checked_add(recs.len() as u64) {
        Some(end) => end <= LEDGER_NUMBERS,
        None => false,
    }
}

// Makes a call.
fn made<S: Ledger>(
    rt: &impl Abort,
    alloc: Global,
    store: &mut S,
    call: Call,
) -> Result<(), StoreError> {
    match call {
        Call::Put(table, first, count) => {
            let recs = records(alloc, table, (first, count))?;
            assert!(rt; fits(first, &recs));
            store.put_in(alloc, table, first, &recs)
        }
        Call::Shed(c, outputs, senders) => {
            let batch = Batch {
                receipts: (0, 0),
                checkpoint: None,
                outputs,
                senders,
                prune_to: Option::Some(c),
            };
            written(rt, alloc, store, batch)
        }
        Call::Write(batch) => written(rt, alloc, store, batch),
    }
}

// So many receipts, each with the bytes of its interval.
fn receipts((first, count): (u32, usize), alloc: Global) -> Result<Vec<Vec<u8>>, AllocError> {
    let mut recs = Vec::new(alloc);
    for k in 0..count {
        recs.push(
            u64::from(first)
                .saturating_add(k as u64)
                .to_le_bytes()
                .to_vec(alloc)?,
        )?;
    }
    Ok(recs)
}

fn written<S: Ledger>(
    rt: &impl Abort,
    alloc: Global,
    store: &mut S,
    batch: Batch,
) -> Result<(), StoreError> {
    let received = receipts(batch.receipts, alloc)?;
    let told = records(alloc, LedgerTable::Outputs, batch.outputs)?;
    let from = records(alloc, LedgerTable::Senders, batch.senders)?;
    assert!(rt; fits(batch.outputs.0, &told));
    assert!(rt; fits(batch.senders.0, &from));
    assert!(rt; have_intervals(batch.receipts.0, &received));
    let new = b"new".to_vec(alloc)?;
    let checkpoint = match batch.checkpoint {
        Some(x) => Some(NewCheckpoint { x, bytes: &new }),
        None => None,
    };
    let outputs = LedgerRows {
        first: batch.outputs.0,
        recs: &told,
    };
    let senders = LedgerRows {
        first: batch.senders.0,
        recs: &from,
    };
    let batch = WriteBatch {
        first: batch.receipts.0,
        receipts: &received,
        checkpoint,
        outputs,
        senders,
        prune_to: batch.prune_to,
    };
    store.put_batch(alloc, &batch)
}

// Returns whether so many receipts from an interval on have intervals.
fn have_intervals(first: u32, recs: &[Vec<u8>]) -> bool
    ensures { result ≡ true → first + length recs.now ≤ INTERVALS }
{
    u64::from(first).saturating_add(recs.len() as u64) <= INTERVALS
}

// Asserts that a table has records at these numbers alone, each as it was put.
fn check_table<S: Ledger>(
    rt: &impl Abort,
    alloc: Global,
    store: &mut S,
    table: LedgerTable,
    want: &[u64],
) {
    let found = store.all_in(alloc, table).expect(rt, "a table");
    assert!(rt; found.len() == want.len());
    for ((x, bytes), number) in found.iter().zip(want) {
        assert!(rt; *x == *number, "record {number}");
        let is_whole = bytes.as_slice() == record_at(table, *x).as_slice();
        assert!(rt; is_whole, "record {number}");
    }
}

// Puts checkpoints 0 and 2.
fn fill<S: Ledger>(alloc: Global, store: &mut S) -> Result<(), StoreError> {
    store.put_checkpoint(alloc, 0, b"at 0")?;
    store.put_checkpoint(alloc, 2, b"at 2")
}

// The intervals of its checkpoints at or below 1, and at or below 2.
fn checkpoints<S: Ledger>(alloc: Global, store: &mut S) -> (Option<u32>, Option<u32>) {
    let low = store.effective(alloc, 1).ok().flatten();
    let high = store.effective(alloc, 2).ok().flatten();
    (low.map(|(x, _)| x), high.map(|(x, _)| x))
}

// Makes a call of a row.
fn check_made<S: Ledger>(
    rt: &impl Abort,
    alloc: Global,
    store: &mut S,
    call: Call,
    (i, want): (usize, Result<(), StoreError>),
) {
    let got = made(rt, alloc, store, call);
    assert!(rt; got == want, "row {i}: {got:?}");
}

// The checkpoints behind a row.
fn check_checkpoints<S: Ledger>(rt: &impl Abort, alloc: Global, store: &mut S, i: usize) {
    let low = if i < UNPRUNED { Some(0) } else { None };
    assert!(rt; checkpoints(alloc, store) == (low, Some(2)), "row {i}");
}

// Plays the rows: a call that is refused leaves all as it was.
fn play<S: Ledger>(rt: &impl Abort, alloc: Global, store: &mut S) {
    fill(alloc, store).expect(rt, "stored");
    for (i, (call, want, outputs, senders)) in ROWS.iter().enumerate() {
        check_made(rt, alloc, store, *call, (i, *want));
        check_table(rt, alloc, store, LedgerTable::Outputs, outputs);
        check_table(rt, alloc, store, LedgerTable::Senders, senders);
        check_checkpoints(rt, alloc, store, i);
    }
    check_table(rt, alloc, store, LedgerTable::About, &[0]);
}

#[test]
fn ledgers_in_memory(rt: HostRuntime) {
    let mut store = MemLedger::new(rt.alloc());
    play(&rt, rt.alloc(), &mut store);
    drop(store);
}

#[test]
fn ledgers_behind_a_cache(rt: HostRuntime) {
    let mut store = CachingLedger::new(MemLedger::new(rt.alloc()));
    play(&rt, rt.alloc(), &mut store);
    drop(store);
}

// A put, an unlike batch and a reading, of which the fuse stops one: each that is, and which outputs are there then.
static STOPPED: [(u64, [bool; 3], &[u64]); 4] = [
    (0, [true, false, false], &[2]),
    (1, [false, true, false], &[0, 1]),
    (2, [false, false, true], &[0, 1, 2]),
    (3, [false, false, false], &[]),
];

const PUT: Call = Call::Put(LedgerTable::Outputs, 0, 2);

// Returns which of the three calls are refused.
fn stopped<S: Ledger>(rt: &impl Abort, alloc: Global, store: &mut S) -> [bool; 3] {
    let put = made(rt, alloc, store, PUT).is_err();
    let shed = made(rt, alloc, store, Call::Shed(0, (2, 1), (0, 1))).is_err();
    let read = store.all_in(alloc, LedgerTable::Outputs).is_err();
    [put, shed, read]
}

// A fuse stops one call of any kind, which leaves all as it was.
#[test]
fn ledgers_behind_a_fuse(rt: HostRuntime) {
    let alloc = rt.alloc();
    for (calls, wanted, outputs) in &STOPPED {
        let mut store = FuseStable::new(MemLedger::new(alloc), *calls);
        let found = stopped(&rt, alloc, &mut store);
        assert!(&rt; found.as_slice() == wanted.as_slice(), "{calls}");
        assert!(&rt; store.failures() == u64::from(*calls < 3), "{calls}");
        if *calls < 3 {
            check_table(&rt, alloc, &mut store, LedgerTable::Outputs, outputs);
        }
        drop(store);
    }
}

// A store that keeps nothing passes over what it is given, and is pruned.
#[test]
fn nothing_is_kept_without_a_ledger(rt: HostRuntime) {
    let alloc = rt.alloc();
    let mut store = MemStable::new(alloc);
    fill(alloc, &mut store).expect(&rt, "stored");
    for call in [PUT, PUT, Call::Shed(2, (0, 1), (0, 1))] {
        made(&rt, alloc, &mut store, call).expect(&rt, "passed over");
    }
    check_table(&rt, alloc, &mut store, LedgerTable::Outputs, &[]);
    check_table(&rt, alloc, &mut store, LedgerTable::Senders, &[]);
    assert!(&rt; checkpoints(alloc, &mut store) == (None, Some(2)));
    drop(store);
}
