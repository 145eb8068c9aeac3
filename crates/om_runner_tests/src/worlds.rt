//! Stores that a world left at any of its events are taken up by a cluster.

ghost use Rattle.std.specs.Prelude.{◌≡◌, IfOk, length};

use crate::clusters::ring;
use crate::restarts::{Left, Shelf, assert_run, blank_shelf, store_on};
use om_interval::Pid;
use om_look::about_of;
use om_process::Accept;
use om_runner::Config;
use om_stable::{Ledger, LedgerTable, MemLedger};
use om_world::{Answer, Event, World};
use std::alloc::Global;
use std::process::Abort;
use std::sync::Mutex;

// An event of the worked run.
#[derive(Clone, Copy)]
enum Step {
    Run(usize),
    // The frame is offered to the process.
    Give(usize, usize),
    Flush(usize),
    Checkpoint(usize),
    Fail(usize),
    Join(usize),
    Resume(usize),
}

fn event_of(step: Step) -> Event {
    match step {
        Step::Run(process) => Event::Run {
            process,
            fuel: 1_000,
        },
        Step::Give(process, frame) => Event::Give { process, frame },
        Step::Flush(process) => Event::Flush { process },
        Step::Checkpoint(process) => Event::Checkpoint { process },
        Step::Fail(process) => Event::Fail { process },
        Step::Join(process) => Event::Join { process },
        Step::Resume(process) => Event::Resume { process },
    }
}

// A ring of three goes round twice. Process 1 fails while its second receipt is in no store: that of process 2 which depends on it
// is stored, and is cut. The two go on, and process 2 fails too, with nothing lost.
static WORKED: [Step; 48] = [
    Step::Run(0),
    Step::Run(1),
    Step::Run(2),
    Step::Give(1, 0),
    Step::Run(1),
    Step::Give(2, 1),
    Step::Run(2),
    Step::Flush(1),
    Step::Give(0, 2),
    Step::Run(0),
    Step::Flush(0),
    Step::Checkpoint(0),
    Step::Give(1, 3),
    Step::Run(1),
    Step::Give(2, 4),
    Step::Run(2),
    Step::Flush(2),
    Step::Fail(1),
    Step::Join(0),
    Step::Join(2),
    Step::Resume(1),
    Step::Resume(2),
    Step::Resume(0),
    Step::Run(1),
    Step::Run(2),
    Step::Give(1, 3),
    Step::Run(1),
    Step::Flush(1),
    Step::Checkpoint(1),
    Step::Give(2, 8),
    Step::Run(2),
    Step::Give(0, 9),
    Step::Run(0),
    Step::Flush(2),
    Step::Fail(2),
    Step::Join(1),
    Step::Join(0),
    Step::Resume(0),
    Step::Resume(2),
    Step::Resume(1),
    Step::Run(2),
    Step::Give(1, 10),
    Step::Run(1),
    Step::Flush(1),
    Step::Give(2, 12),
    Step::Run(2),
    Step::Flush(2),
    Step::Checkpoint(2),
];

// The first so many events.
fn events(rt: &impl Abort, alloc: Global, count: usize) -> Vec<Event> {
    let mut events = Vec::new(alloc);
    for step in WORKED.iter().take(count) {
        events.push(event_of(*step)).expect(rt, "memory");
    }
    events
}

// The stores of three processes on a shelf.
fn three_left<'a>(rt: &impl Abort, alloc: Global, shelf: &'a Shelf) -> Vec<Left<'a>>
    ensures { length result.items ≡ 3 }
{
    let mut stores = Vec::with_capacity(alloc, 3).expect(rt, "memory");
    stores.push_reserved(store_on(shelf, 0).expect(rt, "a store"));
    stores.push_reserved(store_on(shelf, 1).expect(rt, "a store"));
    stores.push_reserved(store_on(shelf, 2).expect(rt, "a store"));
    stores
}

// Puts into each store what it is of, as a run does at its start.
fn put_abouts(rt: &impl Abort, alloc: Global, config: &Config, shelf: &Shelf) {
    for (p, store) in shelf.stores.iter().enumerate() {
        let image = config.images.get(p).expect(rt, "an image");
        assert!(rt; p < 16);
        let about = about_of(alloc, Pid::at(p), 3, image).expect(rt, "memory");
        put_about(rt, alloc, store, about);
    }
}

fn put_about(rt: &impl Abort, alloc: Global, store: &Mutex<MemLedger>, about: Vec<u8>) {
    let mut recs = Vec::new(alloc);
    recs.push(about).expect(rt, "memory");
    assert!(rt; recs.len() == 1);
    let mut open = store.try_lock().expect(rt, "a store");
    let put = open.put_in(alloc, LedgerTable::About, 0, &recs);
    drop(open);
    drop(recs);
    assert!(rt; put.is_ok());
}

// Returns whether an event was not refused, and a frame was taken.
fn is_done(answer: Answer) -> bool {
    match answer {
        Answer::Given(accept) => matches!(accept, Accept::Taken(_)),
        Answer::Refused(_) => false,
        _ => true,
    }
}

// Plays the first so many events over the stores of a shelf.
fn play(rt: &impl Abort, alloc: Global, config: &Config, shelf: &Shelf, count: usize) {
    let stores = three_left(rt, alloc, shelf);
    assert!(rt; config.images.len() == 3);
    let mut world = World::start(alloc, &config.images, stores).expect(rt, "a world");
    let events = events(rt, alloc, count);
    let answers = world.play(alloc, &events).expect(rt, "memory");
    let are_done = answers.iter().all(|answer| is_done(*answer));
    drop(world);
    assert!(rt; are_done, "{answers:?}");
}

// The program ends before the first event, and behind each: all but the stores is lost. The text is that of the ring.
#[test]
fn what_a_world_left_is_taken_up(rt: HostRuntime) {
    let config = ring(&rt, rt.alloc(), 3, &[]);
    for count in 0..=WORKED.len() {
        let shelf = blank_shelf(&rt, rt.alloc(), 3);
        put_abouts(&rt, rt.alloc(), &config, &shelf);
        play(&rt, rt.alloc(), &config, &shelf, count);
        assert_run(&rt, rt.alloc(), &config, &shelf, 3);
    }
    drop(config);
}
