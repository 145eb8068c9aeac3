use super::parts::{begun, flush, go_on, passing_on};
use om_process::{Flight, PendingRow, ProcCore};
use om_stable::{MemStable, Stable, StoreError};
use std::alloc::Global;
use std::process::Abort;

// A process that took so many messages, and stored none.
fn after(rt: &impl Abort, alloc: Global, store: &mut MemStable, receipts: u32) -> ProcCore {
    let mut core = match begun(rt, alloc, store) {
        Ok(core) => core,
        Err(_) => passing_on(rt, alloc, store),
    };
    for ssn in 0..receipts {
        go_on(rt, alloc, &mut core, ssn);
    }
    core
}

// Returns how many receipts are stored.
fn receipts(rt: &impl Abort, alloc: Global, store: &mut MemStable) -> usize {
    let found = match store.receipts(alloc, 0, 10) {
        Err(StoreError::Memory) => store.receipts(alloc, 0, 10),
        found => found,
    };
    found.expect(rt, "receipts").len()
}

fn flush_first(
    rt: &impl Abort,
    alloc: Global,
    core: &mut ProcCore,
    store: &mut MemStable,
    k: usize,
) {
    let is_stored = match core.flush_first(alloc, store, k) {
        Err(StoreError::Memory) => core.flush_first(alloc, store, k).is_ok(),
        told => told.is_ok(),
    };
    assert!(rt; is_stored, "{k}");
}

// The first k of three receipts are stored, and then what is left.
fn assert_first(rt: &impl Abort, alloc: Global, k: usize, wanted: usize) {
    let mut store = MemStable::new(alloc);
    let mut core = after(rt, alloc, &mut store, 3);
    flush_first(rt, alloc, &mut core, &mut store, k);
    let first = (receipts(rt, alloc, &mut store), core.pending().len());
    flush(rt, alloc, &mut core, &mut store);
    let all = (receipts(rt, alloc, &mut store), core.pending().len());
    drop(store);
    drop(core);
    assert!(rt; first == (wanted, wanted) && all == (3, 3), "{k}");
}

#[test]
fn the_first_receipts_are_stored(rt: HostRuntime) {
    for (k, wanted) in [(0, 0), (1, 1), (2, 2), (3, 3), (4, 3)] {
        assert_first(&rt, rt.alloc(), k, wanted);
    }
}

// Hands over two receipts and a checkpoint.
fn handed(rt: &impl Abort, alloc: Global, core: &mut ProcCore) -> Flight {
    match core.hand_over(alloc, 2, true) {
        Ok(flight) => flight,
        Err(_) => core.hand_over(alloc, 2, true).expect(rt, "a flight"),
    }
}

// Stores what a flight carries.
fn store_all(rt: &impl Abort, alloc: Global, store: &mut MemStable, flight: &Flight) {
    let first = flight.first;
    assert!(rt; flight.receipts.len() <= 2 && first == 1);
    let has_put = store.put_receipts(alloc, first, &flight.receipts).is_ok()
        || store.put_receipts(alloc, first, &flight.receipts).is_ok();
    let Some(checkpoint) = &flight.checkpoint else {
        assert!(rt; false);
        return;
    };
    let has_marked = store
        .put_checkpoint(alloc, checkpoint.row.x, &checkpoint.bytes)
        .is_ok()
        || store
            .put_checkpoint(alloc, checkpoint.row.x, &checkpoint.bytes)
            .is_ok();
    assert!(rt; has_put && has_marked);
}

// Returns whether the row is of this kind and interval.
fn is_row(row: &PendingRow, ckpt: bool, x: u32) -> bool {
    row.ckpt == ckpt && row.x == x
}

// Returns whether a checkpoint of interval 2 and two receipts are pending.
fn has_landed(rows: &[PendingRow]) -> bool {
    match rows {
        [first, second, third] => {
            is_row(first, true, 2) && is_row(second, false, 1) && is_row(third, false, 2)
        }
        _ => false,
    }
}

// A third message comes while two receipts are stored: it is stored by the next flush.
#[test]
fn what_comes_during_a_flight_goes_with_the_next(rt: HostRuntime) {
    let heap = rt.alloc();
    let mut store = MemStable::new(heap);
    let mut core = after(&rt, heap, &mut store, 2);
    let flight = handed(&rt, heap, &mut core);
    let was_pending = core.pending().len();
    go_on(&rt, heap, &mut core, 2);
    store_all(&rt, heap, &mut store, &flight);
    let has_noted = core.land(&flight).is_ok();
    let has_landed = has_landed(core.pending());
    flush(&rt, heap, &mut core, &mut store);
    let stored = receipts(&rt, heap, &mut store);
    let pending = core.pending().len();
    drop(flight);
    drop(store);
    drop(core);
    assert!(rt; was_pending == 0 && has_noted && has_landed);
    assert!(rt; stored == 3 && pending == 4);
}
