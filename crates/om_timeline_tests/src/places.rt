//! Where the process of a store stands, forward and back. Counts, places and what t0 has are those of the six instructions.

use crate::stores::{add_checkpoint, put, receipt, received, started_with};
use om_process::{ReplayFault, Status};
use om_stable::{MemStable, Stable};
use om_stored_timeline::{MOST_BEHIND, stored_timeline};
use om_timeline::{Position, Timeline};
use om_world::Event;
use std::alloc::Global;
use std::process::Abort;

fn stands(
    rt: &impl Abort,
    alloc: Global,
    store: &mut MemStable,
    interval: Option<u32>,
) -> Timeline {
    let stored = stored_timeline(alloc, store, interval).expect(rt, "a timeline");
    assert!(rt; stored.process.index() == 1);
    stored.timeline
}

// What owns a store or a timeline only hands it on: each further call where one is owned is dear to prove, and so is a drop that no call
// makes.
fn stands_over(
    rt: &impl Abort,
    alloc: Global,
    intervals: &[u8],
    interval: Option<u32>,
) -> Timeline {
    let mut store = received(rt, alloc, intervals);
    let timeline = stands(rt, alloc, &mut store, interval);
    drop(store);
    timeline
}

// What is seen of it: the event that is next and how many there are, the count of instructions, pc, t0, and the first byte received.
type Seen = (usize, usize, u64, u32, u32, u8);

fn check(rt: &impl Abort, timeline: &Timeline, wanted: Seen) {
    let at = timeline.position();
    let machine = timeline.machine();
    let memory = machine.memory();
    assert!(rt; at.turns == 0 && 64 < memory.len());
    let events = timeline.events().len();
    // The registers from x1 on.
    let t0 = machine.regs()[4];
    let seen = (
        at.event,
        events,
        machine.count(),
        machine.pc(),
        t0,
        memory[64],
    );
    assert_eq!(rt; seen, wanted);
}

// Goes to before an event, and looks at what is seen there.
fn check_at(rt: &impl Abort, alloc: Global, timeline: &mut Timeline, event: usize, wanted: Seen) {
    let to = Position { event, turns: 0 };
    assert!(rt; timeline.go_to(alloc, to) == Ok(true));
    check(rt, timeline, wanted);
}

fn check_end(rt: &impl Abort, alloc: Global, timeline: &mut Timeline) {
    check(rt, timeline, (6, 7, 16, 16, 2, 3));
    check_at(rt, alloc, timeline, 7, (7, 7, 21, 12, 3, 3));
    assert!(rt; timeline.status() == Status::Waiting);
}

// At the end of what is stored: right behind the third receipt. What it does then is known up to the next wait.
#[test]
fn at_the_end(rt: HostRuntime) {
    let mut timeline = stands_over(&rt, rt.alloc(), &[1, 2, 3], None);
    check_end(&rt, rt.alloc(), &mut timeline);
    drop(timeline);
}

// Back from behind the second receipt to the begin, and on to the end.
static BACK_AND_FORTH: [(usize, Seen); 3] = [
    (3, (3, 7, 9, 12, 1, 1)),
    (0, (0, 7, 0, 0, 0, 0)),
    (7, (7, 7, 21, 12, 3, 3)),
];

fn check_interval(rt: &impl Abort, alloc: Global, timeline: &mut Timeline) {
    check(rt, timeline, (4, 7, 10, 16, 1, 2));
    assert!(rt; timeline.events() == EVENTS.as_slice());
    for (event, wanted) in &BACK_AND_FORTH {
        check_at(rt, alloc, timeline, *event, *wanted);
    }
}

// At an interval before it; then back to the begin, and on to the end.
#[test]
fn at_an_interval(rt: HostRuntime) {
    let mut timeline = stands_over(&rt, rt.alloc(), &[1, 2, 3], Some(2));
    check_interval(&rt, rt.alloc(), &mut timeline);
    drop(timeline);
}

// Two of each receipt, and the turns behind the last.
static EVENTS: [Event; 7] = [
    Event::Run {
        process: 1,
        fuel: 3,
    },
    Event::Give {
        process: 1,
        frame: 1,
    },
    Event::Run {
        process: 1,
        fuel: 5,
    },
    Event::Give {
        process: 1,
        frame: 2,
    },
    Event::Run {
        process: 1,
        fuel: 5,
    },
    Event::Give {
        process: 1,
        frame: 3,
    },
    Event::Run {
        process: 1,
        fuel: 5,
    },
];

// From its start on, where nothing is before it.
#[test]
fn at_the_start(rt: HostRuntime) {
    let timeline = stands_over(&rt, rt.alloc(), &[1], Some(0));
    check(&rt, &timeline, (0, 3, 0, 0, 0, 0));
    drop(timeline);
}

// What is seen of a store's process right behind its receipt of an interval, or at the end.
fn check_store(
    rt: &impl Abort,
    alloc: Global,
    store: &mut MemStable,
    interval: Option<u32>,
    wanted: Seen,
) {
    let timeline = stands(rt, alloc, store, interval);
    check(rt, &timeline, wanted);
    drop(timeline);
}

// Why there is no such timeline of a store.
fn check_refused(
    rt: &impl Abort,
    alloc: Global,
    store: &mut MemStable,
    interval: Option<u32>,
    fault: ReplayFault,
) {
    let told = stored_timeline(alloc, store, interval);
    let is_right = matches!(&told, Err(found) if *found == fault);
    drop(told);
    assert!(rt; is_right, "{fault:?}");
}

// A receipt is missing behind the first: what lies behind the gap is not shown, and asked for it is refused.
#[test]
fn a_gap(rt: HostRuntime) {
    let mut store = received(&rt, rt.alloc(), &[1, 3]);
    check_store(&rt, rt.alloc(), &mut store, None, (2, 3, 4, 16, 0, 1));
    let fault = ReplayFault::MissingReceipt(2);
    check_refused(&rt, rt.alloc(), &mut store, Some(3), fault);
    drop(store);
}

// The store with the receipts 1 to 3, and with the checkpoint of interval 2.
fn with_a_checkpoint(rt: &impl Abort, alloc: Global) -> MemStable {
    let mut from = received(rt, alloc, &[1, 2, 3]);
    let mut store = received(rt, alloc, &[1, 2, 3]);
    add_checkpoint(rt, alloc, &mut store, &mut from, 2);
    drop(from);
    store
}

fn check_later(rt: &impl Abort, alloc: Global, timeline: &mut Timeline) {
    check(rt, timeline, (2, 3, 16, 16, 2, 3));
    check_at(rt, alloc, timeline, 0, (0, 3, 10, 16, 1, 2));
}

// From the checkpoint at or below the interval.
#[test]
fn from_the_later_checkpoint(rt: HostRuntime) {
    let mut store = with_a_checkpoint(&rt, rt.alloc());
    let mut timeline = stands(&rt, rt.alloc(), &mut store, Some(3));
    check_later(&rt, rt.alloc(), &mut timeline);
    drop(timeline);
    drop(store);
}

// From the begin over the later one.
#[test]
fn over_the_later_checkpoint(rt: HostRuntime) {
    let mut store = with_a_checkpoint(&rt, rt.alloc());
    check_store(&rt, rt.alloc(), &mut store, Some(1), (2, 7, 4, 16, 0, 1));
    drop(store);
}

// Puts a second receipt, of which a byte is another.
fn put_altered(rt: &impl Abort, alloc: Global, store: &mut MemStable, (place, byte): (usize, u8)) {
    let mut bytes = receipt(2);
    assert!(rt; place < bytes.len());
    bytes[place] = byte;
    put(rt, alloc, store, 2, &bytes);
}

fn check_altered(
    rt: &impl Abort,
    alloc: Global,
    store: &mut MemStable,
    (place, byte, fault): (usize, u8, ReplayFault),
) {
    put_altered(rt, alloc, store, (place, byte));
    check_store(rt, alloc, store, Some(1), (2, 3, 4, 16, 0, 1));
    check_refused(rt, alloc, store, Some(2), fault);
}

// Receipts that are damaged, or that do not fit, end what is shown before them; asked for they are refused.
#[test]
fn receipts_that_do_not_fit(rt: HostRuntime) {
    for row in &REFUSED {
        let mut store = received(&rt, rt.alloc(), &[1]);
        check_altered(&rt, rt.alloc(), &mut store, *row);
        drop(store);
    }
}

// Another kind, another interval, another receiver, no such sender, a count before the wait and one behind it.
static REFUSED: [(usize, u8, ReplayFault); 6] = [
    (0, 0x53, ReplayFault::Damaged(2)),
    (4, 3, ReplayFault::Damaged(2)),
    (2, 0, ReplayFault::Mismatch(2)),
    (3, 3, ReplayFault::Mismatch(2)),
    (16, 8, ReplayFault::Mismatch(2)),
    (16, 10, ReplayFault::Mismatch(2)),
];

// Nothing is stored.
#[test]
fn an_empty_store(rt: HostRuntime) {
    let mut store = MemStable::new(rt.alloc());
    for interval in [None, Some(0)] {
        check_refused(
            &rt,
            rt.alloc(),
            &mut store,
            interval,
            ReplayFault::NoCheckpoint,
        );
    }
    drop(store);
}

fn check_damaged(rt: &impl Abort, alloc: Global, store: &mut MemStable) {
    let put = store.put_checkpoint(alloc, 4, &[0x43, 2, 17]);
    put.expect(rt, "stored");
    check_refused(rt, alloc, store, None, ReplayFault::Damaged(4));
    check_refused(rt, alloc, store, Some(3), ReplayFault::NoCheckpoint);
}

// The one checkpoint is none.
#[test]
fn a_damaged_checkpoint(rt: HostRuntime) {
    let mut store = MemStable::new(rt.alloc());
    check_damaged(&rt, rt.alloc(), &mut store);
    drop(store);
}

// Of a process that computes without end so many instructions are shown as are told, and no more: jal zero, 0.
#[test]
fn one_that_computes_without_end(rt: HostRuntime) {
    let mut store = started_with(&rt, rt.alloc(), &[0x0000_006f]);
    let timeline = stands(&rt, rt.alloc(), &mut store, None);
    let last = Event::Run {
        process: 1,
        fuel: MOST_BEHIND,
    };
    assert!(&rt; timeline.events() == [last].as_slice());
    drop(timeline);
    drop(store);
}
