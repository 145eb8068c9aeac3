//! Where the process of a store stands, forward and back. Counts and places are those of the six instructions.

use crate::packets::{WHERE, asked, lines_of};
use crate::stores::{add_checkpoint, received};
use om_commands::CommandError;
use om_stable::MemStable;
use om_stored_debug::{debug_store, open_store};
use std::alloc::Global;
use std::process::Abort;

// What each of these packets is answered.
fn check(
    rt: &impl Abort,
    alloc: Global,
    store: &mut MemStable,
    interval: Option<u32>,
    packets: &[&str],
    wanted: &str,
) {
    let mut written = Vec::new(alloc);
    let asked = asked(rt, alloc, packets);
    let done = debug_store(alloc, store, interval, &mut asked.as_bytes(), &mut written);
    assert!(rt; done.is_ok());
    let told = lines_of(rt, alloc, &written, packets.len() + 2);
    assert_eq!(rt; told.as_str(), wanted);
}

// At the end of what is stored: right behind the third receipt. What it does then is known up to the next wait.
#[test]
fn at_the_end(rt: HostRuntime) {
    let alloc = rt.alloc();
    let mut store = received(&rt, alloc, &[1, 2, 3]);
    check(
        &rt,
        alloc,
        &mut store,
        None,
        &[WHERE, "$m40,4#31", "$vCont;c#a8", WHERE],
        "OK\nevent 6 of 7: run 1 5, 0 instructions done\nprocess 1: ready, 16 instructions\n\n03000000\nT05thread:1;replaylog:end;\nevent 7 of 7\nprocess 1: waiting, 21 instructions\n\nOK\n",
    );
    drop(store);
}

// At an interval before it; then back to the begin, a step forward, and on to the end.
#[test]
fn at_an_interval(rt: HostRuntime) {
    let alloc = rt.alloc();
    let mut store = received(&rt, alloc, &[1, 2, 3]);
    check(
        &rt,
        alloc,
        &mut store,
        Some(2),
        &[
            WHERE,
            "$m40,4#31",
            "$qRcmd,6576656e7473#d6",
            "$bs#d5",
            "$m40,4#31",
            "$bc#c5",
            WHERE,
            "$vCont;c#a8",
            "$m40,4#31",
        ],
        "OK\nevent 4 of 7: run 1 5, 0 instructions done\nprocess 1: ready, 10 instructions\n\n02000000\n   0 run 1 3\n   1 give 1 1\n   2 run 1 5\n   3 give 1 2\n=> 4 run 1 5\n   5 give 1 3\n   6 run 1 5\n\nT05thread:1;\n01000000\nT05thread:1;replaylog:begin;\nevent 0 of 7: run 1 3, 0 instructions done\nprocess 1: ready, 0 instructions\n\nT05thread:1;replaylog:end;\n03000000\nOK\n",
    );
    drop(store);
}

// A receipt is missing behind the first: what lies behind the gap is not shown, and asked for it is refused.
#[test]
fn a_gap(rt: HostRuntime) {
    let alloc = rt.alloc();
    let mut store = received(&rt, alloc, &[1, 3]);
    check(
        &rt,
        alloc,
        &mut store,
        None,
        &[WHERE],
        "OK\nevent 2 of 3: run 1 5, 0 instructions done\nprocess 1: ready, 4 instructions\n\nOK\n",
    );
    assert!(&rt;
        open_store(alloc, &mut store, Some(3)).err() == Some(CommandError::MissingReceipt(2))
    );
    drop(store);
}

// The store with the receipts 1 to 3, and with the checkpoint of interval 2.
fn with_a_checkpoint(rt: &impl Abort, alloc: Global) -> MemStable {
    let mut from = received(rt, alloc, &[1, 2, 3]);
    let mut store = received(rt, alloc, &[1, 2, 3]);
    add_checkpoint(rt, alloc, &mut store, &mut from, 2);
    store
}

// From the checkpoint at or below the interval.
#[test]
fn from_the_later_checkpoint(rt: HostRuntime) {
    let alloc = rt.alloc();
    let mut store = with_a_checkpoint(&rt, alloc);
    check(
        &rt,
        alloc,
        &mut store,
        Some(3),
        &[WHERE, "$bc#c5", WHERE],
        "OK\nevent 2 of 3: run 1 5, 0 instructions done\nprocess 1: ready, 16 instructions\n\nT05thread:1;replaylog:begin;\nevent 0 of 3: run 1 5, 0 instructions done\nprocess 1: ready, 10 instructions\n\nOK\n",
    );
}

// From the begin over the later one.
#[test]
fn over_the_later_checkpoint(rt: HostRuntime) {
    let alloc = rt.alloc();
    let mut store = with_a_checkpoint(&rt, alloc);
    check(
        &rt,
        alloc,
        &mut store,
        Some(1),
        &[WHERE, "$vCont;c#a8", WHERE],
        "OK\nevent 2 of 7: run 1 5, 0 instructions done\nprocess 1: ready, 4 instructions\n\nT05thread:1;replaylog:end;\nevent 7 of 7\nprocess 1: waiting, 21 instructions\n\nOK\n",
    );
}

// Nothing is stored.
#[test]
fn an_empty_store(rt: HostRuntime) {
    let alloc = rt.alloc();
    let mut store = MemStable::new(alloc);
    assert!(&rt; open_store(alloc, &mut store, None).err() == Some(CommandError::NoCheckpoint));
    assert!(&rt; open_store(alloc, &mut store, Some(0)).err() == Some(CommandError::NoCheckpoint));
    drop(store);
}
