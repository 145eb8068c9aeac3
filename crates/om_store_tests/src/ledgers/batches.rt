//! Batches: all of one is written, or nothing of it.

use super::tables::{connected, expected, taken_up};
use super::{Batch, Call, check_table, made};
use om_stable::{FuseStable, Ledger, LedgerTable, MemLedger, MemStable, StoreError};
use om_tables::{CachingLedger, SqlStable};
use std::alloc::Global;
use std::process::Abort;

// A batch with something of each kind, over a store with checkpoints 0 and 2, receipts 1 to 3, outputs 0 and 1 and senders at 0.
pub(super) const WHOLE: Batch = Batch {
    receipts: (4, 3),
    checkpoint: Some(6),
    outputs: (2, 2),
    senders: (1, 1),
    prune_to: Some(2),
};

// The same but for one part, which takes a place that is taken.
const TAKEN: [Batch; 4] = [
    Batch {
        receipts: (3, 3),
        ..WHOLE
    },
    Batch {
        checkpoint: Some(2),
        ..WHOLE
    },
    Batch {
        outputs: (1, 2),
        ..WHOLE
    },
    Batch {
        senders: (0, 2),
        ..WHOLE
    },
];

// A batch without receipts, pruned to the checkpoint that it brings, and one with nothing in it.
const PRUNED: Batch = Batch {
    receipts: (7, 0),
    checkpoint: Some(9),
    outputs: (4, 0),
    senders: (2, 0),
    prune_to: Some(9),
};

const NOTHING: Batch = Batch {
    receipts: (0, 0),
    checkpoint: None,
    outputs: (0, 0),
    senders: (0, 0),
    prune_to: None,
};

// Once the whole one is written: nine receipts, and five of which the third is there.
const NINE: Batch = Batch {
    receipts: (7, 9),
    ..NOTHING
};

const THIRD_IS_TAKEN: Batch = Batch {
    receipts: (1, 5),
    ..NOTHING
};

fn write<S: Ledger>(
    rt: &impl Abort,
    alloc: Global,
    store: &mut S,
    batch: Batch,
) -> Result<(), StoreError> {
    made(rt, alloc, store, Call::Write(batch))
}

// Writes a batch that collides with nothing.
fn write_well<S: Ledger>(rt: &impl Abort, alloc: Global, store: &mut S, batch: Batch) {
    write(rt, alloc, store, batch).expect(rt, "written");
}

fn fill<S: Ledger>(rt: &impl Abort, alloc: Global, store: &mut S) {
    super::fill(alloc, store).expect(rt, "stored");
    let first = Batch {
        receipts: (1, 3),
        outputs: (0, 2),
        senders: (0, 1),
        ..NOTHING
    };
    write_well(rt, alloc, store, first);
}

// Asserts that the store has receipts of these intervals, each with its bytes.
fn check_receipts<S: Ledger>(rt: &impl Abort, alloc: Global, store: &mut S, receipts: &[u32]) {
    let found = store.receipts(alloc, 0, u32::MAX).ok().expect(rt, "read");
    assert!(rt; found.len() == receipts.len());
    for ((x, bytes), want) in found.iter().zip(receipts) {
        assert!(rt; *x == *want, "receipt {want}");
        let is_whole = bytes.as_slice() == u64::from(*want).to_le_bytes().as_slice();
        assert!(rt; is_whole, "receipt {want}");
    }
}

// Asserts that the store has checkpoints of these intervals among 0 to 9.
fn check_checkpoints<S: Ledger>(
    rt: &impl Abort,
    alloc: Global,
    store: &mut S,
    checkpoints: &[u32],
) {
    let mut newest = None;
    for x in 0..10u32 {
        if checkpoints.contains(&x) {
            newest = Some(x);
        }
        let held = held_at(alloc, store, x);
        assert!(rt; held == newest, "checkpoint at {x}");
    }
}

fn held_at<S: Ledger>(alloc: Global, store: &mut S, x: u32) -> Option<u32> {
    store.effective(alloc, x).ok().flatten().map(|(c, _)| c)
}

// Asserts that the store has receipts of these intervals, each with its bytes, and checkpoints of these among 0 to 9.
fn check<S: Ledger>(
    rt: &impl Abort,
    alloc: Global,
    store: &mut S,
    receipts: &[u32],
    checkpoints: &[u32],
) {
    check_receipts(rt, alloc, store, receipts);
    check_checkpoints(rt, alloc, store, checkpoints);
}

fn check_tables<S: Ledger>(
    rt: &impl Abort,
    alloc: Global,
    store: &mut S,
    outputs: &[u64],
    senders: &[u64],
) {
    check_table(rt, alloc, store, LedgerTable::Outputs, outputs);
    check_table(rt, alloc, store, LedgerTable::Senders, senders);
}

// A batch that collides is refused, and leaves all records as they were.
fn check_taken<S: Ledger>(rt: &impl Abort, alloc: Global, store: &mut S, batch: Batch) {
    let refused = write(rt, alloc, store, batch);
    assert_eq!(rt; refused, Err(StoreError::Present));
    check(rt, alloc, store, &[1, 2, 3], &[0, 2]);
}

// Writes the batch with something of each kind.
fn check_whole<S: Ledger>(rt: &impl Abort, alloc: Global, store: &mut S) {
    write_well(rt, alloc, store, WHOLE);
    check(rt, alloc, store, &[3, 4, 5, 6], &[2, 6]);
}

// A batch whose third receipt is there leaves all as it was; one of nine is written.
fn check_nine<S: Ledger>(rt: &impl Abort, alloc: Global, store: &mut S) {
    let refused = write(rt, alloc, store, THIRD_IS_TAKEN);
    assert_eq!(rt; refused, Err(StoreError::Present));
    check(rt, alloc, store, &[3, 4, 5, 6], &[2, 6]);
    write_well(rt, alloc, store, NINE);
    let receipts = [3, 4, 5, 6, 7, 8, 9, 10, 11, 12, 13, 14, 15];
    check(rt, alloc, store, &receipts, &[2, 6]);
}

// Then the others are written.
fn check_others<S: Ledger>(rt: &impl Abort, alloc: Global, store: &mut S) {
    write_well(rt, alloc, store, NOTHING);
    check(rt, alloc, store, &[3, 4, 5, 6], &[2, 6]);
    check_nine(rt, alloc, store);
    write_well(rt, alloc, store, PRUNED);
    check(rt, alloc, store, &[10, 11, 12, 13, 14, 15], &[9]);
    check_tables(rt, alloc, store, &[0, 1, 2, 3], &[0, 1]);
}

// Each batch that collides leaves all as it was; then the others are written.
fn play<S: Ledger>(rt: &impl Abort, alloc: Global, store: &mut S) {
    fill(rt, alloc, store);
    for batch in &TAKEN {
        check_taken(rt, alloc, store, *batch);
        check_tables(rt, alloc, store, &[0, 1], &[0]);
    }
    check_whole(rt, alloc, store);
    check_tables(rt, alloc, store, &[0, 1, 2, 3], &[0, 1]);
    check_others(rt, alloc, store);
}

#[test]
fn batches_in_memory(rt: HostRuntime) {
    play(&rt, rt.alloc(), &mut MemLedger::new(rt.alloc()));
}

#[test]
fn batches_behind_a_cache(rt: HostRuntime) {
    let mut store = CachingLedger::new(MemLedger::new(rt.alloc()));
    play(&rt, rt.alloc(), &mut store);
    drop(store);
}

#[test]
fn batches_in_five_tables(rt: HostRuntime) {
    let alloc = rt.alloc();
    let mut store = expected(&rt, taken_up(&rt, alloc, connected(&rt, alloc)));
    play(&rt, alloc, &mut store);
    drop(store);
}

// A store without tables passes over outputs and senders, and looks at the rest.
fn play_without_tables<S: Ledger>(rt: &impl Abort, alloc: Global, store: &mut S) {
    fill(rt, alloc, store);
    for batch in &TAKEN[..2] {
        check_taken(rt, alloc, store, *batch);
    }
    check_whole(rt, alloc, store);
    check_tables(rt, alloc, store, &[], &[]);
}

#[test]
fn batches_without_tables(rt: HostRuntime) {
    play_without_tables(&rt, rt.alloc(), &mut MemStable::new(rt.alloc()));
}

#[test]
fn batches_in_two_tables(rt: HostRuntime) {
    let alloc = rt.alloc();
    let conn = connected(&rt, alloc);
    assert!(rt; conn.is_autocommit());
    let Ok(mut store) = SqlStable::create(alloc, conn) else {
        panic!(rt; "not made");
    };
    play_without_tables(&rt, alloc, &mut store);
}

// A fuse stops a batch, which leaves all as it was.
#[test]
fn a_batch_behind_a_fuse(rt: HostRuntime) {
    let alloc = rt.alloc();
    let mut inner = MemLedger::new(alloc);
    fill(&rt, alloc, &mut inner);
    let mut store = FuseStable::new(inner, 0);
    let stopped = write(&rt, alloc, &mut store, WHOLE);
    assert!(&rt; stopped == Err(StoreError::Fault));
    check(&rt, alloc, &mut store, &[1, 2, 3], &[0, 2]);
    write_well(&rt, alloc, &mut store, WHOLE);
    drop(store);
}
