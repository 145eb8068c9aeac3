//! Worlds that start over their stores, at each point of scripts, beside worlds that never stopped.

use crate::events::{RUN_WITH_A_FAILURE, line};
use om_interval::Pid;
use om_stable::MemStable;
use om_world::{Answer, Event, Refusal, World};
use std::alloc::Global;
use std::process::Abort;

// How often each process runs, sends again, is offered all frames and stores, until nothing more comes.
const TURNS: usize = 4;

// Behind the round of the script with a failure, behind the return of process 0, and behind that of process 1: process 2 is not back.
static BETWEEN: [usize; 3] = [11, 12, LAST_BETWEEN];

const LAST_BETWEEN: usize = 13;

// More frames than a script makes.
const FRAMES: usize = 64;

// Before each event of the script, and behind the last.
const POINTS: usize = 25;

// The scripts that are drawn, and how many events each has.
static SEEDS: [u64; 6] = [1, 2, 3, 4, 5, 6];

const DRAWN: usize = 20;

fn play(rt: &impl Abort, alloc: Global, world: &mut World<MemStable>, event: Event) -> Answer {
    let answers = world.play(alloc, &[event]).expect(rt, "memory");
    let answer = answers.as_slice().first().copied().expect(rt, "an answer");
    answer
}

// Compares the answer to an event.
fn check(
    rt: &impl Abort,
    alloc: Global,
    world: &mut World<MemStable>,
    event: Event,
    wanted: Answer,
) {
    assert_eq!(rt; play(rt, alloc, world, event), wanted);
}

// Each process that is to come back does.
fn resume_all(rt: &impl Abort, alloc: Global, world: &mut World<MemStable>) {
    for process in 0..3 {
        let _ = play(rt, alloc, world, Event::Resume { process });
    }
}

// A process runs, and is offered each frame.
fn take_all(rt: &impl Abort, alloc: Global, world: &mut World<MemStable>, process: usize) {
    for frame in 0..FRAMES {
        let run = Event::Run { process, fuel: 100 };
        let _ = play(rt, alloc, world, run);
        let answer = play(rt, alloc, world, Event::Give { process, frame });
        if answer == Answer::Refused(Refusal::NoFrame) {
            return;
        }
    }
}

// Each process runs, is offered what there is, and stores it.
fn drive(rt: &impl Abort, alloc: Global, world: &mut World<MemStable>) {
    for _ in 0..TURNS {
        for process in 0..3 {
            let _ = play(rt, alloc, world, Event::Resend { process });
            take_all(rt, alloc, world, process);
            let _ = play(rt, alloc, world, Event::Flush { process });
        }
    }
}

// The bytes of the outputs of process 0 that are released, one after another.
fn released(rt: &impl Abort, alloc: Global, world: &World<MemStable>) -> Vec<u8> {
    assert!(rt; 1 <= world.manager().recovery().n());
    let mut bytes = Vec::new(alloc);
    for output in world.manager().released(Pid::at(0)) {
        let more = bytes.extend_from_slice(output.bytes.as_slice());
        more.expect(rt, "memory");
    }
    bytes
}

// Just these bytes are released.
fn check_released(rt: &impl Abort, alloc: Global, world: &World<MemStable>, wanted: &[u8]) {
    assert_eq!(rt; released(rt, alloc, world).as_slice(), wanted);
}

// A world that played so many events of a script.
fn begun(rt: &impl Abort, alloc: Global, script: &[Event], count: usize) -> World<MemStable> {
    let mut world = line(alloc).expect(rt, "a world");
    for event in script.get(..count).unwrap_or(script) {
        let _ = play(rt, alloc, &mut world, *event);
    }
    world
}

// Who is up joins and who is down comes back, as often as it takes until no round is open: one that is down can join once it is back.
fn settle(rt: &impl Abort, alloc: Global, world: &mut World<MemStable>) {
    for _ in 0..3 {
        for process in 0..3 {
            let _ = play(rt, alloc, world, Event::Join { process });
        }
        resume_all(rt, alloc, world);
    }
}

// What a script puts out in all, where nothing stops: something. What owns a world only hands it on: each further call where one is owned
// is dear to prove, and so is a drop that no call makes.
fn wanted(rt: &impl Abort, alloc: Global, script: &[Event]) -> Vec<u8> {
    let mut world = begun(rt, alloc, script, script.len());
    let whole = released_in_the_end(rt, alloc, &mut world);
    drop(world);
    assert!(rt; !whole.is_empty());
    whole
}

fn released_in_the_end(rt: &impl Abort, alloc: Global, world: &mut World<MemStable>) -> Vec<u8> {
    settle(rt, alloc, world);
    drive(rt, alloc, world);
    released(rt, alloc, world)
}

// Starts all over. Returns whether it was refused first, since not all knew the last round and one had stored.
fn restarted(rt: &impl Abort, alloc: Global, world: &mut World<MemStable>) -> bool {
    let answer = play(rt, alloc, world, Event::Restart);
    if answer == Answer::Restarted {
        return false;
    }
    assert_eq!(rt; answer, Answer::Refused(Refusal::Unsettled));
    settle(rt, alloc, world);
    check(rt, alloc, world, Event::Restart, Answer::Restarted);
    true
}

// A restart leaves all that was released, and in the end the same is released as without one. Returns whether it was refused first.
fn loses_nothing(
    rt: &impl Abort,
    alloc: Global,
    world: &mut World<MemStable>,
    whole: &[u8],
) -> bool {
    let before = released(rt, alloc, world);
    let recovery = world.manager().recovery();
    let is_unsettled = restarted(rt, alloc, world);
    assert!(rt; recovery.leq(&world.manager().recovery()));
    resume_all(rt, alloc, world);
    assert!(rt; released(rt, alloc, world).starts_with(&before));
    drive(rt, alloc, world);
    check_released(rt, alloc, world, whole);
    is_unsettled
}

// A restart behind so many events of the run with a failure, and a second one where one comes first, are not refused.
fn check_restart(rt: &impl Abort, alloc: Global, count: usize, is_second: bool, whole: &[u8]) {
    let mut world = begun(rt, alloc, &RUN_WITH_A_FAILURE, count);
    if is_second {
        check(rt, alloc, &mut world, Event::Restart, Answer::Restarted);
    }
    let is_unsettled = loses_nothing(rt, alloc, &mut world, whole);
    drop(world);
    assert!(rt; !is_unsettled, "{count}");
}

// At each point all that was released stays, each process comes back, and in the end the same is released as without a stop; between the
// finish of the round and the last return too, where nobody stores.
#[test]
fn a_restart_at_each_point_loses_nothing(rt: HostRuntime) {
    let alloc = rt.alloc();
    let whole = wanted(&rt, alloc, &RUN_WITH_A_FAILURE);
    for count in 0..POINTS {
        check_restart(&rt, alloc, count, false, &whole);
    }
}

// The round of the script is finished, and not all are back: all starts over, twice.
#[test]
fn a_restart_before_the_last_return_loses_nothing(rt: HostRuntime) {
    let alloc = rt.alloc();
    let whole = wanted(&rt, alloc, &RUN_WITH_A_FAILURE);
    for count in &BETWEEN {
        check_restart(&rt, alloc, *count, true, &whole);
    }
}

// Process 1 stores, of which so much is noted, and all that knew the last round still do, or not.
fn check_stores(
    rt: &impl Abort,
    alloc: Global,
    world: &mut World<MemStable>,
    (noted, is_settled): (Answer, bool),
) {
    check(rt, alloc, world, Event::Flush { process: 1 }, noted);
    assert!(rt; world.is_settled() == is_settled);
}

// Not where one has stored since, until all are back.
fn check_unsettled(rt: &impl Abort, alloc: Global, world: &mut World<MemStable>, whole: &[u8]) {
    take_all(rt, alloc, world, 1);
    assert!(rt; world.is_settled());
    check_stores(rt, alloc, world, (Answer::Noted(1), false));
    assert!(rt; loses_nothing(rt, alloc, world, whole));
}

#[test]
fn a_restart_before_the_last_return_wants_nothing_stored(rt: HostRuntime) {
    let alloc = rt.alloc();
    let whole = wanted(&rt, alloc, &RUN_WITH_A_FAILURE);
    let mut world = begun(&rt, alloc, &RUN_WITH_A_FAILURE, LAST_BETWEEN);
    check_unsettled(&rt, alloc, &mut world, &whole);
    drop(world);
}

// One that is back stores what it has not: nothing stands on a disk that did not before, and all starts over.
#[test]
fn a_flush_of_nothing_before_the_last_return_stores_nothing(rt: HostRuntime) {
    let alloc = rt.alloc();
    let whole = wanted(&rt, alloc, &RUN_WITH_A_FAILURE);
    let mut world = begun(&rt, alloc, &RUN_WITH_A_FAILURE, LAST_BETWEEN);
    check_stores(&rt, alloc, &mut world, (Answer::Noted(0), true));
    let is_unsettled = loses_nothing(&rt, alloc, &mut world, &whole);
    drop(world);
    assert!(&rt; !is_unsettled);
}

// The event that a number stands for: of thirty-six, nine run, nine are offers, and six store.
fn event_of(draw: u64) -> Event {
    let process = (draw % 3) as usize;
    match draw / 3 % 12 {
        0 | 1 | 2 => Event::Run { process, fuel: 100 },
        3 | 4 | 5 => Event::Give {
            process,
            frame: (draw / 36 % 4) as usize,
        },
        6 => Event::Flush { process },
        7 => Event::Checkpoint { process },
        8 => Event::Fail { process },
        9 => Event::Prune,
        10 => Event::Join { process },
        _ => Event::Resume { process },
    }
}

// The next number of a linear congruence modulo 2 ^ 64.
fn next_draw(draw: u64) -> u64 {
    draw.wrapping_mul(6_364_136_223_846_793_005)
        .wrapping_add(1_442_695_040_888_963_407)
}

// A script by its seed.
fn drawn(rt: &impl Abort, alloc: Global, seed: u64) -> Vec<Event> {
    let mut script = Vec::new(alloc);
    let mut draw = seed;
    for _ in 0..DRAWN {
        draw = next_draw(draw);
        script.push(event_of(draw >> 33)).expect(rt, "memory");
    }
    script
}

// A restart behind so many events of a script loses nothing, and is refused first where not all knew the last round and one had stored.
fn loses_nothing_behind(
    rt: &impl Abort,
    alloc: Global,
    script: &[Event],
    count: usize,
    whole: &[u8],
) {
    let mut world = begun(rt, alloc, script, count);
    let is_settled = world.is_settled();
    let is_unsettled = loses_nothing(rt, alloc, &mut world, whole);
    drop(world);
    assert!(rt; is_unsettled == !is_settled);
}

// At each point of each script that is drawn: with failures, rounds that are open or finished, checkpoints and prunes before it.
#[test]
fn a_restart_in_a_drawn_script_loses_nothing(rt: HostRuntime) {
    let alloc = rt.alloc();
    for seed in &SEEDS {
        let script = drawn(&rt, alloc, *seed);
        let whole = wanted(&rt, alloc, &script);
        for count in 0..DRAWN + 1 {
            loses_nothing_behind(&rt, alloc, &script, count, &whole);
        }
    }
}

// Ends the world, and takes up what is left.
fn taken_up(rt: &impl Abort, alloc: Global, world: World<MemStable>) -> World<MemStable> {
    assert!(rt; world.is_settled());
    let left = world.stop(alloc).expect(rt, "memory");
    let taken = World::take_up(alloc, left);
    assert!(rt; taken.is_ok());
    taken.ok().expect(rt, "a world")
}

// Ends the world, and goes on from what is left: all that was recovered and released is there, and no frame.
fn goes_on(rt: &impl Abort, alloc: Global, world: World<MemStable>) -> World<MemStable> {
    let before = released(rt, alloc, &world);
    let recovery = world.manager().recovery();
    let mut world = taken_up(rt, alloc, world);
    assert!(rt; recovery.leq(&world.manager().recovery()));
    check_released(rt, alloc, &world, &before);
    assert!(rt; world.frames().is_empty());
    resume_all(rt, alloc, &mut world);
    world
}

// A world that played so many events of a script, and in which all know the last round.
fn begun_and_settled(
    rt: &impl Abort,
    alloc: Global,
    script: &[Event],
    count: usize,
) -> World<MemStable> {
    let mut world = begun(rt, alloc, script, count);
    if !world.is_settled() {
        settle(rt, alloc, &mut world);
    }
    world
}

fn play_rest(rt: &impl Abort, alloc: Global, world: &mut World<MemStable>, rest: &[Event]) {
    for event in rest {
        let _ = play(rt, alloc, world, *event);
    }
    settle(rt, alloc, world);
}

// A chain of two stops, the second after so many further events: in the end the same is released as without any.
fn two_stops_lose_nothing(
    rt: &impl Abort,
    alloc: Global,
    script: &[Event],
    count: usize,
    whole: &[u8],
) {
    let world = begun_and_settled(rt, alloc, script, count);
    let mut world = goes_on(rt, alloc, world);
    let rest = script.get(count..).unwrap_or(&[]);
    play_rest(rt, alloc, &mut world, rest);
    let mut world = goes_on(rt, alloc, world);
    drive(rt, alloc, &mut world);
    check_released(rt, alloc, &world, whole);
    drop(world);
}

// What was stored before two stops and between them is not lost, and nothing is put out twice or otherwise, wherever a script stops.
#[test]
fn two_stops_in_a_drawn_script_lose_nothing(rt: HostRuntime) {
    let alloc = rt.alloc();
    for seed in &SEEDS {
        let script = drawn(&rt, alloc, *seed);
        let whole = wanted(&rt, alloc, &script);
        for count in 0..DRAWN + 1 {
            two_stops_lose_nothing(&rt, alloc, &script, count, &whole);
        }
    }
}

#[test]
fn two_stops_in_the_run_with_a_failure_lose_nothing(rt: HostRuntime) {
    let alloc = rt.alloc();
    let whole = wanted(&rt, alloc, &RUN_WITH_A_FAILURE);
    for count in 0..POINTS {
        two_stops_lose_nothing(&rt, alloc, &RUN_WITH_A_FAILURE, count, &whole);
    }
}

// The frames are just these, each from the one process to the other.
fn check_frames(rt: &impl Abort, world: &World<MemStable>, wanted: &[(usize, usize)]) {
    assert!(rt; world.frames().len() == wanted.len());
    for k in 0..wanted.len() {
        let message = world.frames().get(k).expect(rt, "a frame");
        assert_eq!(rt; (message.from.index(), message.to.index()), wanted[k]);
    }
}

// Behind what process 1 passed on.
const PASSED_ON: usize = 5;

fn check_passed_on(rt: &impl Abort, alloc: Global, world: &mut World<MemStable>) {
    check_frames(rt, world, &[(2, 1), (1, 0)]);
    let flush = Event::Flush { process: 1 };
    check(rt, alloc, world, flush, Answer::Noted(1));
    check(rt, alloc, world, Event::Restart, Answer::Restarted);
    check_frames(rt, world, &[]);
    resume_all(rt, alloc, world);
    let run = Event::Run {
        process: 1,
        fuel: 100,
    };
    let _ = play(rt, alloc, world, run);
    check_frames(rt, world, &[(1, 0)]);
}

// The frames are told in the order in which they were made. A restart leaves none, and what process 1 passes on is the first then.
#[test]
fn frames_are_told(rt: HostRuntime) {
    let mut world = begun(&rt, rt.alloc(), &RUN_WITH_A_FAILURE, PASSED_ON);
    check_passed_on(&rt, rt.alloc(), &mut world);
    drop(world);
}
