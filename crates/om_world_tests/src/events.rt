ghost use Rattle.std.specs.Prelude.{◌≡◌, IfOk, length};

use om_interval::Pid;
use om_isa::Ext;
use om_manager::{Gathered, Output};
use om_process::{Accept, Image, StartFault, Status};
use om_stable::{FuseStable, MemStable, Stable};
use om_world::{Answer, Event, Refusal, World, laws};
use std::alloc::{AllocError, Global};
use std::process::Abort;

// Receives, and puts out what came.
static RECEIVES: [u32; 8] = [
    0x0020_0893,
    0x0400_0513,
    0x0040_0593,
    0x0000_0073,
    0x0030_0893,
    0x0005_0593,
    0x0400_0513,
    0x0000_0073,
];

// Receives, and sends it to process 0.
static PASSES_ON: [u32; 9] = [
    0x0020_0893,
    0x0400_0513,
    0x0040_0593,
    0x0000_0073,
    0x0010_0893,
    0x0005_0613,
    0x0000_0513,
    0x0400_0593,
    0x0000_0073,
];

// Sends its first 4 bytes to process 1.
static SENDS: [u32; 4] = [0x0010_0893, 0x0010_0513, 0x0040_0613, 0x0000_0073];

// Ends with 0.
static ENDS: [u32; 2] = [0x0000_0893, 0x0000_0073];

// A program that ends with 0 after these words.
fn image(alloc: Global, words: &[u32], size: u32) -> Result<Image, AllocError> {
    let mut bytes = Vec::new(alloc);
    for word in words {
        bytes.extend_from_slice(&word.to_le_bytes())?;
    }
    for word in &ENDS {
        bytes.extend_from_slice(&word.to_le_bytes())?;
    }
    Ok(Image {
        bytes,
        size,
        ext: Ext::I,
    })
}

fn three_stores(alloc: Global) -> Result<Vec<MemStable>, AllocError>
    ensures { IfOk result (λ stores. length stores.items ≡ 3) }
{
    let mut stores = Vec::with_capacity(alloc, 3)?;
    stores.push_reserved(MemStable::new(alloc));
    stores.push_reserved(MemStable::new(alloc));
    stores.push_reserved(MemStable::new(alloc));
    Ok(stores)
}

fn three_images(alloc: Global) -> Result<Vec<Image>, AllocError>
    ensures { IfOk result (λ images. length images.items ≡ 3) }
{
    let mut images = Vec::with_capacity(alloc, 3)?;
    images.push_reserved(image(alloc, &RECEIVES, 128)?);
    images.push_reserved(image(alloc, &PASSES_ON, 128)?);
    images.push_reserved(image(alloc, &SENDS, 64)?);
    Ok(images)
}

// Three processes: the last sends to the second, which passes it on to the first, which puts it out.
pub fn line(alloc: Global) -> Result<World<MemStable>, StartFault> {
    let images = three_images(alloc)?;
    let stores = three_stores(alloc)?;
    World::start(alloc, &images, stores)
}

// Plays events, and compares some of the answers: those from a place on.
pub fn check_answers(
    rt: &impl Abort,
    alloc: Global,
    world: &mut World<MemStable>,
    events: &[Event],
    (from, wanted): (usize, &[Answer]),
) {
    let answers = world.play(alloc, events).expect(rt, "memory");
    let compared = answers.as_slice().get(from..).unwrap_or(&[]);
    let compared = compared.get(..wanted.len()).unwrap_or(compared);
    assert!(rt; answers.len() == events.len());
    assert_eq!(rt; compared, wanted);
}

// The three processes behind these events.
fn played(
    rt: &impl Abort,
    alloc: Global,
    events: &[Event],
    from: usize,
    wanted: &[Answer],
) -> World<MemStable> {
    let mut world = line(alloc).expect(rt, "a world");
    check_answers(rt, alloc, &mut world, events, (from, wanted));
    world
}

static PASSED_ON: [Event; 8] = [
    Event::Run {
        process: 0,
        fuel: 100,
    },
    Event::Run {
        process: 1,
        fuel: 100,
    },
    Event::Run {
        process: 2,
        fuel: 100,
    },
    Event::Give {
        process: 1,
        frame: 0,
    },
    Event::Run {
        process: 1,
        fuel: 100,
    },
    Event::Give {
        process: 0,
        frame: 1,
    },
    Event::Run {
        process: 0,
        fuel: 100,
    },
    Event::Flush { process: 0 },
];

pub static PASSED_ON_ANSWERS: [Answer; 8] = [
    Answer::Ran {
        steps: 3,
        status: Status::Waiting,
        sent: 0,
        made: 0,
    },
    Answer::Ran {
        steps: 3,
        status: Status::Waiting,
        sent: 0,
        made: 0,
    },
    Answer::Ran {
        steps: 5,
        status: Status::Ended(0),
        sent: 1,
        made: 0,
    },
    Answer::Given(Accept::Taken(1)),
    Answer::Ran {
        steps: 6,
        status: Status::Ended(0),
        sent: 1,
        made: 0,
    },
    Answer::Given(Accept::Taken(1)),
    Answer::Ran {
        steps: 5,
        status: Status::Ended(0),
        sent: 0,
        made: 1,
    },
    Answer::Noted(1),
];

fn check_passed_on(rt: &impl Abort, world: &World<MemStable>) {
    let recovery = world.manager().recovery();
    assert!(rt; world.frames().len() == 2 && recovery.get(Pid::at(0)) == 0);
    assert!(rt; world.core(Pid::at(3)).is_none());
    let first = world.core(Pid::at(0)).expect(rt, "a core");
    assert!(rt; first.inc() == 0 && first.interval() == 1);
}

// What owns a world only hands it on: each further call where one is owned is dear to prove, and so is a drop that no call makes.
#[test]
fn a_message_is_passed_on(rt: HostRuntime) {
    let world = played(&rt, rt.alloc(), &PASSED_ON, 0, &PASSED_ON_ANSWERS);
    check_passed_on(&rt, &world);
    drop(world);
}

static REFUSED: [Event; 9] = [
    Event::Run {
        process: 0,
        fuel: 100,
    },
    Event::Checkpoint { process: 0 },
    Event::Give {
        process: 0,
        frame: 5,
    },
    Event::Resend { process: 0 },
    Event::Trim { process: 0 },
    Event::Run {
        process: 3,
        fuel: 100,
    },
    Event::Prune,
    Event::Prune,
    Event::Checkpoint { process: 2 },
];

static REFUSED_ANSWERS: [Answer; 9] = [
    Answer::Ran {
        steps: 3,
        status: Status::Waiting,
        sent: 0,
        made: 0,
    },
    Answer::Refused(Refusal::Present),
    Answer::Refused(Refusal::NoFrame),
    Answer::Resent(0),
    Answer::Trimmed,
    Answer::Refused(Refusal::NoProcess),
    Answer::Pruned,
    Answer::Pruned,
    Answer::Refused(Refusal::Present),
];

#[test]
fn events_are_refused(rt: HostRuntime) {
    drop(played(&rt, rt.alloc(), &REFUSED, 0, &REFUSED_ANSWERS));
}

// The second process fails once its message has gone on to the first, whose record of it is stored: the message is an
// orphan, and the first is rolled back.
pub static RUN_WITH_A_FAILURE: [Event; 24] = [
    Event::Run {
        process: 0,
        fuel: 100,
    },
    Event::Run {
        process: 1,
        fuel: 100,
    },
    Event::Run {
        process: 2,
        fuel: 100,
    },
    Event::Give {
        process: 1,
        frame: 0,
    },
    Event::Run {
        process: 1,
        fuel: 100,
    },
    Event::Give {
        process: 0,
        frame: 1,
    },
    Event::Run {
        process: 0,
        fuel: 100,
    },
    Event::Flush { process: 0 },
    Event::Fail { process: 1 },
    Event::Join { process: 0 },
    Event::Join { process: 2 },
    Event::Resume { process: 0 },
    Event::Resume { process: 1 },
    Event::Resume { process: 2 },
    Event::Give {
        process: 0,
        frame: 1,
    },
    Event::Run {
        process: 1,
        fuel: 100,
    },
    Event::Give {
        process: 1,
        frame: 0,
    },
    Event::Run {
        process: 1,
        fuel: 100,
    },
    Event::Run {
        process: 0,
        fuel: 100,
    },
    Event::Give {
        process: 0,
        frame: 1,
    },
    Event::Give {
        process: 0,
        frame: 2,
    },
    Event::Run {
        process: 0,
        fuel: 100,
    },
    Event::Flush { process: 1 },
    Event::Flush { process: 0 },
];

// The answers from the failure on.
pub static FAILURE_ANSWERS: [Answer; 13] = [
    Answer::Gathered(Gathered::Waiting),
    Answer::Gathered(Gathered::Waiting),
    Answer::Gathered(Gathered::Finished),
    Answer::Back {
        interval: 0,
        inc: 1,
    },
    Answer::Back {
        interval: 0,
        inc: 1,
    },
    Answer::GoesOn,
    Answer::Given(Accept::Orphan),
    Answer::Ran {
        steps: 3,
        status: Status::Waiting,
        sent: 0,
        made: 0,
    },
    Answer::Given(Accept::Taken(1)),
    Answer::Ran {
        steps: 6,
        status: Status::Ended(0),
        sent: 1,
        made: 0,
    },
    Answer::Ran {
        steps: 3,
        status: Status::Waiting,
        sent: 0,
        made: 0,
    },
    Answer::Given(Accept::Orphan),
    Answer::Given(Accept::Taken(1)),
];

#[test]
fn a_process_fails_and_another_is_rolled_back(rt: HostRuntime) {
    let world = played(&rt, rt.alloc(), &RUN_WITH_A_FAILURE, 8, &FAILURE_ANSWERS);
    assert!(&rt; world.frames().len() == 3);
    check_the_end(&rt, &world);
    drop(world);
}

static RECOVERED: [u32; 3] = [1, 1, 0];

static RELEASED: [u8; 4] = [0x93, 0x08, 0x10, 0x00];

// The end of that run.
pub fn check_the_end<S: Stable>(rt: &impl Abort, world: &World<S>) {
    check_recovered(rt, world);
    check_process(rt, world, Pid::at(0), (1, 1));
    check_process(rt, world, Pid::at(1), (1, 1));
    check_process(rt, world, Pid::at(2), (0, 0));
}

// What is recoverable, and what is released.
fn check_recovered<S: Stable>(rt: &impl Abort, world: &World<S>) {
    let recovery = world.manager().recovery();
    assert_eq!(rt; recovery.as_slice(), RECOVERED.as_slice());
    check_released(rt, world.manager().released(Pid::at(0)));
    assert!(rt; world.manager().released(Pid::at(1)).is_empty());
    assert!(rt; world.manager().released(Pid::at(2)).is_empty());
}

// The incarnation and the interval of a process, which has ended with 0.
fn check_process<S: Stable>(
    rt: &impl Abort,
    world: &World<S>,
    pid: Pid,
    (inc, interval): (u32, u32),
) {
    let core = world.core(pid).expect(rt, "a core");
    let end = (core.inc(), core.interval(), core.status());
    assert_eq!(rt; end, (inc, interval, Status::Ended(0)));
}

fn check_released(rt: &impl Abort, released: &[Output]) {
    let bytes = match released {
        [output] => output.bytes.as_slice(),
        _ => &[],
    };
    assert_eq!(rt; bytes, RELEASED.as_slice());
}

// A store in memory that stops after so many calls, where it is the one that is to.
fn fused(alloc: Global, stops: bool, calls: u64) -> FuseStable<MemStable> {
    FuseStable::new(MemStable::new(alloc), if stops { calls } else { u64::MAX })
}

// The three processes, with one store that stops after so many calls.
fn fused_line(
    alloc: Global,
    store: usize,
    calls: u64,
) -> Result<World<FuseStable<MemStable>>, StartFault> {
    let images = three_images(alloc)?;
    let mut stores = Vec::with_capacity(alloc, 3)?;
    stores.push_reserved(fused(alloc, store == 0, calls));
    stores.push_reserved(fused(alloc, store == 1, calls));
    stores.push_reserved(fused(alloc, store == 2, calls));
    World::start(alloc, &images, stores)
}

// Plays an event, once more where the store stopped it, and says whether it did.
fn play_twice<S: Stable>(
    alloc: Global,
    world: &mut World<S>,
    event: Event,
) -> Result<bool, AllocError> {
    let stopped = world.play(alloc, &[event])?.as_slice()
        == [Answer::Refused(Refusal::Fault)].as_slice();
    if stopped {
        let _ = world.play(alloc, &[event])?;
    }
    Ok(stopped)
}

// Plays the run with a failure, and says whether a store stopped.
fn play_run<S: Stable>(alloc: Global, world: &mut World<S>) -> Result<bool, AllocError> {
    let mut stopped = false;
    for event in &RUN_WITH_A_FAILURE {
        if play_twice(alloc, world, *event)? {
            stopped = true;
        }
    }
    Ok(stopped)
}

// Plays it with a store that stops after so many calls, and says whether it stopped.
fn stops(rt: &impl Abort, alloc: Global, store: usize, calls: u64) -> bool {
    let mut world = fused_line(alloc, store, calls).expect(rt, "a world");
    let stopped = play_run(alloc, &mut world).expect(rt, "memory");
    check_the_end(rt, &world);
    drop(world);
    stopped
}

// Plays it with a store that stops at each of its calls in turn, after that of the start, until it stops no more. The third
// process stores nothing after its start.
fn stop_at_each_call(rt: &impl Abort, alloc: Global, store: usize) {
    assert!(rt; fused_line(alloc, store, 0).err() == Some(StartFault::Fault));
    for calls in 1..100 {
        if !stops(rt, alloc, store, calls) {
            assert!(rt; (calls > 1) == (store < 2), "{calls}");
            return;
        }
    }
    assert!(rt; false, "the store still stops");
}

#[test]
fn stores_stop_at_any_call(rt: HostRuntime) {
    for store in 0..3 {
        stop_at_each_call(&rt, rt.alloc(), store);
    }
}

// Returns what a start of one process with a memory of this size, over a store of its own, is refused with.
fn refused(alloc: Global, size: u32) -> Result<(), StartFault> {
    let mut images = Vec::with_capacity(alloc, 1)?;
    images.push_reserved(image(alloc, &SENDS, size)?);
    let mut stores = Vec::with_capacity(alloc, 1)?;
    stores.push_reserved(MemStable::new(alloc));
    let world = World::start(alloc, &images, stores);
    let answer = match &world {
        Ok(_) => Ok(()),
        Err(fault) => Err(*fault),
    };
    drop(world);
    answer
}

static STARTS: [(u32, Result<(), StartFault>); 3] = [
    (24, Ok(())),
    (20, Err(StartFault::ImageTooLong)),
    (22, Err(StartFault::BadSize)),
];

#[test]
fn starts_are_refused(rt: HostRuntime) {
    for (size, want) in &STARTS {
        assert_eq!(&rt; refused(rt.alloc(), *size), *want);
    }
}

#[test]
fn laws_are_called(_rt: HostRuntime) {
    laws::one_more();
    laws::cut();
    laws::closed();
    laws::released_first();
    laws::frames_cut();
}

// Receives twice.
static TAKES_TWO: [u32; 8] = [
    0x0020_0893,
    0x0400_0513,
    0x0040_0593,
    0x0000_0073,
    0x0020_0893,
    0x0400_0513,
    0x0040_0593,
    0x0000_0073,
];

// Sends its first 4 bytes to process 1, twice.
static SENDS_TWO: [u32; 8] = [
    0x0010_0893,
    0x0010_0513,
    0x0040_0613,
    0x0000_0073,
    0x0010_0893,
    0x0010_0513,
    0x0040_0613,
    0x0000_0073,
];

fn two_stores(alloc: Global) -> Result<Vec<MemStable>, AllocError>
    ensures { IfOk result (λ stores. length stores.items ≡ 2) }
{
    let mut stores = Vec::with_capacity(alloc, 2)?;
    stores.push_reserved(MemStable::new(alloc));
    stores.push_reserved(MemStable::new(alloc));
    Ok(stores)
}

fn two_images(alloc: Global) -> Result<Vec<Image>, AllocError>
    ensures { IfOk result (λ images. length images.items ≡ 2) }
{
    let mut images = Vec::with_capacity(alloc, 2)?;
    images.push_reserved(image(alloc, &SENDS_TWO, 64)?);
    images.push_reserved(image(alloc, &TAKES_TWO, 128)?);
    Ok(images)
}

// Two processes: the first sends two messages to the second.
pub fn pair(alloc: Global) -> Result<World<MemStable>, StartFault> {
    let images = two_images(alloc)?;
    let stores = two_stores(alloc)?;
    World::start(alloc, &images, stores)
}

// Process 1 takes both messages, and stores one receipt, none, what is left, and nothing more.
pub static STORED_IN_PARTS: [Event; 12] = [
    Event::Run {
        process: 0,
        fuel: 100,
    },
    Event::Run {
        process: 1,
        fuel: 100,
    },
    Event::Give {
        process: 1,
        frame: 0,
    },
    Event::Run {
        process: 1,
        fuel: 100,
    },
    Event::Give {
        process: 1,
        frame: 1,
    },
    Event::FlushFirst {
        process: 1,
        count: 1,
    },
    Event::FlushFirst {
        process: 1,
        count: 0,
    },
    Event::FlushFirst {
        process: 1,
        count: 2,
    },
    Event::Flush { process: 1 },
    Event::FlushFirst {
        process: 2,
        count: 1,
    },
    Event::Fail { process: 1 },
    Event::FlushFirst {
        process: 1,
        count: 1,
    },
];

static STORED_IN_PARTS_ANSWERS: [Answer; 7] = [
    Answer::Noted(1),
    Answer::Noted(0),
    Answer::Noted(1),
    Answer::Noted(0),
    Answer::Refused(Refusal::NoProcess),
    Answer::Gathered(Gathered::Waiting),
    Answer::Refused(Refusal::NotUp),
];

// The place of process 1 in the recovery state after so many of these events.
pub fn recovered(rt: &impl Abort, alloc: Global, events: &[Event]) -> u32 {
    let mut world = pair(alloc).expect(rt, "a world");
    let answers = world.play(alloc, events).expect(rt, "memory");
    drop(answers);
    let recovery = world.manager().recovery();
    assert!(rt; recovery.n() == 2);
    let place = recovery.get(Pid::at(1));
    drop(world);
    place
}

#[test]
fn a_log_is_stored_in_parts(rt: HostRuntime) {
    let mut world = pair(rt.alloc()).expect(&rt, "a world");
    let wanted = (5, STORED_IN_PARTS_ANSWERS.as_slice());
    check_answers(&rt, rt.alloc(), &mut world, &STORED_IN_PARTS, wanted);
    drop(world);
}

// What is stored is recovered, and no more.
#[test]
fn a_part_that_is_stored_is_recovered(rt: HostRuntime) {
    for (count, place) in [(5, 0), (6, 1), (7, 1), (8, 2)] {
        let events = STORED_IN_PARTS.as_slice().get(..count).unwrap_or(&[]);
        assert!(rt; recovered(&rt, rt.alloc(), events) == place, "{count}");
    }
}
