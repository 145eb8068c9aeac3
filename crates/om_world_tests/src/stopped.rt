//! Worlds that end, and what stands in their stores.

use crate::events::{STORED_IN_PARTS, pair};
use om_restart_laws::laws;
use om_stable::{MemStable, Stable};
use om_take_up::laws as starts;
use std::alloc::Global;
use std::process::Abort;

// Returns the stores of a world that ends after so many of the events.
fn stopped(rt: &impl Abort, alloc: Global, count: usize) -> Vec<MemStable> {
    let events = STORED_IN_PARTS.as_slice().get(..count).unwrap_or(&[]);
    let mut world = pair(alloc).expect(rt, "a world");
    let answers = world.play(alloc, events).expect(rt, "memory");
    drop(answers);
    let left = world.stop(alloc).expect(rt, "memory");
    left.into_stores(alloc).expect(rt, "memory")
}

// Returns how many receipts a store has, where its first checkpoint is there.
fn receipts_in(rt: &impl Abort, alloc: Global, store: &mut MemStable) -> usize {
    let first = store.effective(alloc, 0).expect(rt, "the store");
    assert!(rt; matches!(&first, Some((0, _))));
    drop(first);
    let found = store.receipts(alloc, 0, u32::MAX).expect(rt, "the store");
    let count = found.len();
    drop(found);
    count
}

fn check_left(rt: &impl Abort, alloc: Global, stores: &mut [MemStable], wanted: [usize; 2]) {
    assert!(rt; stores.len() == wanted.len());
    for (store, receipts) in stores.iter_mut().zip(wanted.iter()) {
        assert!(rt; receipts_in(rt, alloc, store) == *receipts, "{receipts}");
    }
}

// What was stored is left, by process, and nothing else.
#[test]
fn what_was_stored_is_left(rt: HostRuntime) {
    for (count, receipts) in [(0, 0), (5, 0), (6, 1), (7, 1), (8, 2)] {
        let mut stores = stopped(&rt, rt.alloc(), count);
        check_left(&rt, rt.alloc(), &mut stores, [0, receipts]);
        drop(stores);
    }
}

#[test]
fn laws_of_restarts_are_called(_rt: HostRuntime) {
    laws::rows_are_true();
    laws::taken_up();
    laws::not_lost();
    laws::a_start_goes_on();
    laws::a_restart_is_a_start();
    laws::a_chain_is_one_run();
    laws::stores_alone();
    laws::runs_are_one();
    laws::a_start_in_any_order();
    starts::any_order_is_a_restart();
}
