//! Checkpoints that are stored before their rows are noted.

use crate::events::{check_answers, pair, recovered};
use om_manager::Gathered;
use om_process::{Accept, Status};
use om_world::{Answer, Event, Refusal};
use std::alloc::Global;
use std::process::Abort;

// Process 1 stores a checkpoint behind each of two messages. The row of the first is noted with no receipt, that of the second with
// the first receipt.
static SPELLED: [Event; 13] = [
    Event::Run {
        process: 0,
        fuel: 100,
    },
    Event::Run {
        process: 1,
        fuel: 100,
    },
    Event::Give {
        process: 1,
        frame: 0,
    },
    Event::Spell { process: 1 },
    Event::Spell { process: 1 },
    Event::FlushFirst {
        process: 1,
        count: 0,
    },
    Event::Run {
        process: 1,
        fuel: 100,
    },
    Event::Give {
        process: 1,
        frame: 1,
    },
    Event::Spell { process: 1 },
    Event::FlushFirst {
        process: 1,
        count: 1,
    },
    Event::Spell { process: 2 },
    Event::Fail { process: 1 },
    Event::Spell { process: 1 },
];

static SPELLED_ANSWERS: [Answer; 10] = [
    Answer::Noted(0),
    Answer::Refused(Refusal::Present),
    Answer::Noted(1),
    Answer::Ran {
        steps: 3,
        status: Status::Waiting,
        sent: 0,
        made: 0,
    },
    Answer::Given(Accept::Taken(2)),
    Answer::Noted(0),
    Answer::Noted(2),
    Answer::Refused(Refusal::NoProcess),
    Answer::Gathered(Gathered::Waiting),
    Answer::Refused(Refusal::NotUp),
];

// Process 1 stores a checkpoint, and fails before its row is noted: the round cuts it, and another of this interval can be stored.
static LOST: [Event; 11] = [
    Event::Run {
        process: 0,
        fuel: 100,
    },
    Event::Run {
        process: 1,
        fuel: 100,
    },
    Event::Give {
        process: 1,
        frame: 0,
    },
    Event::Spell { process: 1 },
    Event::Fail { process: 1 },
    Event::Join { process: 0 },
    Event::Resume { process: 1 },
    Event::Run {
        process: 1,
        fuel: 100,
    },
    Event::Give {
        process: 1,
        frame: 0,
    },
    Event::Spell { process: 1 },
    Event::Flush { process: 1 },
];

static LOST_ANSWERS: [Answer; 8] = [
    Answer::Noted(0),
    Answer::Gathered(Gathered::Waiting),
    Answer::Gathered(Gathered::Finished),
    Answer::Back {
        interval: 0,
        inc: 1,
    },
    Answer::Ran {
        steps: 3,
        status: Status::Waiting,
        sent: 0,
        made: 0,
    },
    Answer::Given(Accept::Taken(1)),
    Answer::Noted(0),
    Answer::Noted(2),
];

// Plays the events, and compares what is answered behind the first three.
fn assert_answers<R: Abort>(rt: &R, alloc: Global, events: &[Event], wanted: &[Answer]) {
    let mut world = pair(alloc).expect(rt, "a world");
    check_answers(rt, alloc, &mut world, events, (3, wanted));
    drop(world);
}

#[test]
fn a_checkpoint_is_noted_later(rt: HostRuntime) {
    assert_answers(&rt, rt.alloc(), &SPELLED, &SPELLED_ANSWERS);
    assert_answers(&rt, rt.alloc(), &LOST, &LOST_ANSWERS);
}

// What is spelled is recovered once it is noted, and not before.
#[test]
fn a_checkpoint_that_is_noted_is_recovered(rt: HostRuntime) {
    for (count, place) in [(4, 0), (5, 0), (6, 1), (9, 1), (10, 2)] {
        let events = SPELLED.as_slice().get(..count).unwrap_or(&[]);
        assert!(rt; recovered(&rt, rt.alloc(), events) == place, "{count}");
    }
    assert!(rt; recovered(&rt, rt.alloc(), &LOST) == 1);
}
