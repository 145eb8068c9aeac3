//! A process that receives, fails and comes back, at moments of its record.

ghost use Rattle.std.specs.Prelude.{◌≡◌, All, IfOk, length};
ghost use Rattle.om_world.specs.Holds.{Holds};
ghost use Rattle.om_world.specs.World.{IsEmpty, IsKnown};

use om_interval::Pid;
use om_isa::Ext;
use om_machine::Machine;
use om_process::{Image, StartFault, Status};
use om_stable::MemStable;
use om_timeline::{Deed, Peek, Position, Timeline};
use om_world::{Event, World};
use std::alloc::{AllocError, Global};
use std::process::Abort;

// Sends its first 4 bytes to process 1, and ends with 0.
static SENDS: [u32; 6] = [
    0x0010_0893,
    0x0010_0513,
    0x0040_0613,
    0x0000_0073,
    0x0000_0893,
    0x0000_0073,
];

// Receives 4 bytes at address 64, puts 3 into a7, and has no instruction behind it.
static RECEIVES: [u32; 5] = [
    0x0020_0893,
    0x0400_0513,
    0x0040_0593,
    0x0000_0073,
    0x0030_0893,
];

// What happens: process 1 waits, receives, goes on by one instruction, fails, and comes back to its start.
static EVENTS: [Event; 9] = [
    Event::Run {
        process: 0,
        fuel: 100,
    },
    Event::Run {
        process: 1,
        fuel: 100,
    },
    Event::Give {
        process: 1,
        frame: 0,
    },
    Event::Run {
        process: 1,
        fuel: 1,
    },
    Event::Fail { process: 1 },
    Event::Run {
        process: 1,
        fuel: 5,
    },
    Event::Join { process: 0 },
    Event::Resume { process: 1 },
    Event::Run {
        process: 1,
        fuel: 100,
    },
];

// Where the machine of process 1 stands behind so many events, by the manual: pc, and the instructions that it has finished.
static BEHIND: [(u32, u64); 10] = [
    (0, 0),
    (0, 0),
    (12, 3),
    (16, 4),
    (20, 5),
    (20, 5),
    (20, 5),
    (20, 5),
    (0, 0),
    (12, 3),
];

fn image(alloc: Global, words: &[u32]) -> Result<Image, AllocError> {
    let mut bytes = Vec::new(alloc);
    for word in words {
        bytes.extend_from_slice(&word.to_le_bytes())?;
    }
    Ok(Image {
        bytes,
        size: 68,
        ext: Ext::I,
    })
}

// Of a process of these words, and of one that receives.
fn images(alloc: Global, sends: &[u32]) -> Result<Vec<Image>, AllocError>
    ensures { IfOk result (λ images. length images.items ≡ 2) }
{
    let mut images = Vec::with_capacity(alloc, 2)?;
    images.push_reserved(image(alloc, sends)?);
    images.push_reserved(image(alloc, &RECEIVES)?);
    Ok(images)
}

fn stores(alloc: Global) -> Result<Vec<MemStable>, AllocError>
    ensures number { IfOk result (λ stores. length stores.items ≡ 2) }
    ensures empty { IfOk result (λ stores. All IsEmpty stores.items) }
{
    let mut stores = Vec::with_capacity(alloc, 2)?;
    stores.push_reserved(MemStable::new(alloc));
    stores.push_reserved(MemStable::new(alloc));
    Ok(stores)
}

// The world of both at its start.
fn begin(alloc: Global, sends: &[u32]) -> Result<World<MemStable>, StartFault>
    ensures known { IfOk result (λ world. IsKnown world) }
    ensures holds { IfOk result (λ world. Holds world) }
{
    let images = images(alloc, sends)?;
    let stores = stores(alloc)?;
    match World::start(alloc, &images, stores) {
        Ok(world) => Ok(world),
        Err(fault) => Err(fault),
    }
}

// The record of these events as a process sees it, if there is such a process.
fn record(
    rt: &impl Abort,
    alloc: Global,
    sends: &[u32],
    events: &[Event],
    process: Pid,
) -> Option<Timeline> {
    let world = begin(alloc, sends).expect(rt, "a world");
    let events = Vec::from_slice(alloc, events).expect(rt, "memory");
    Timeline::new(alloc, world, events, process).expect(rt, "memory")
}

fn seen_by(rt: &impl Abort, alloc: Global, process: u32) -> Option<Timeline> {
    let process = Pid::new(process).expect(rt, "the name of a process");
    record(rt, alloc, &SENDS, &EVENTS, process)
}

// The record as process 1 sees it, before its first event.
fn begun(rt: &impl Abort, alloc: Global) -> Timeline {
    seen_by(rt, alloc, 1).expect(rt, "a process")
}

// Plays all of the record, and stands behind it.
fn played(rt: &impl Abort, alloc: Global) -> Timeline {
    let mut timeline = begun(rt, alloc);
    for _ in 0..EVENTS.len() {
        assert_eq!(rt; timeline.look(alloc).expect(rt, "an event"), Peek::Next);
        assert!(rt; timeline.pass(alloc).expect(rt, "memory"));
    }
    timeline
}

// Returns where it stands: pc, and the instructions that are finished.
fn place(timeline: &Timeline) -> (u32, u64) {
    let machine = timeline.machine();
    (machine.pc(), machine.count())
}

fn go(rt: &impl Abort, alloc: Global, timeline: &mut Timeline, event: usize, turns: u64) -> bool {
    timeline
        .go_to(alloc, Position { event, turns })
        .expect(rt, "memory")
}

// It stands there behind so many events, and goes on where there are more.
fn check_next(
    rt: &impl Abort,
    alloc: Global,
    timeline: &mut Timeline,
    event: usize,
    wanted: (u32, u64),
) {
    let stands = (timeline.position().event, place(timeline));
    assert_eq!(rt; stands, (event, wanted));
    let more = timeline.look(alloc).expect(rt, "an event") == Peek::Next;
    let passed = timeline.pass(alloc).expect(rt, "memory");
    let is_right = more == (event < 9) && passed == more;
    assert!(rt; is_right, "{event}");
}

fn check_events(rt: &impl Abort, alloc: Global, timeline: &mut Timeline) {
    assert!(rt; timeline.events().len() == 9 && timeline.deeds().is_empty());
    for (event, wanted) in BEHIND.iter().enumerate() {
        check_next(rt, alloc, timeline, event, *wanted);
    }
}

// What owns a timeline only hands it on: each further call where one is owned is dear to prove, and so is a drop that no call makes.
#[test]
fn each_event_is_passed(rt: HostRuntime) {
    let mut timeline = begun(&rt, rt.alloc());
    check_events(&rt, rt.alloc(), &mut timeline);
    drop(timeline);
}

// Returns what an event did, in a word.
fn word(deed: &Deed) -> &'static str {
    match deed {
        Deed::Nothing => "nothing",
        Deed::Ran(3) => "ran 3",
        Deed::Ran(1) => "ran 1",
        Deed::Ran(_) => "ran",
        Deed::Took(0, body) if body.as_slice() == [0x93, 0x08, 0x10, 0x00].as_slice() => "took",
        Deed::Took(..) => "took another",
        Deed::Fell => "fell",
        Deed::Back(_) => "back",
    }
}

// What each of them did.
static WORDS: [&str; 9] = [
    "nothing", "ran 3", "took", "ran 1", "fell", "fell", "fell", "back", "ran 3",
];

fn check_words(rt: &impl Abort, deeds: &[Deed]) {
    assert!(rt; deeds.len() == 9);
    for (deed, wanted) in deeds.iter().zip(WORDS.iter()) {
        assert!(rt; word(deed) == *wanted, "{wanted}");
    }
}

#[test]
fn the_tape_has_what_was_done(rt: HostRuntime) {
    let timeline = played(&rt, rt.alloc());
    check_words(&rt, timeline.deeds());
    drop(timeline);
}

// Goes to a position, and stands there with this pc.
fn check_gone(
    rt: &impl Abort,
    alloc: Global,
    timeline: &mut Timeline,
    (event, turns, pc): (usize, u64, u32),
) {
    assert!(rt; go(rt, alloc, timeline, event, turns), "{event}");
    let at = timeline.position();
    let stands = (at.event, at.turns, timeline.machine().pc());
    assert_eq!(rt; stands, (event, turns, pc));
}

// There is no such position, and it stays.
fn check_not_gone(
    rt: &impl Abort,
    alloc: Global,
    timeline: &mut Timeline,
    (event, turns): (usize, u64),
) {
    let stood = place(timeline);
    let went = go(rt, alloc, timeline, event, turns);
    let stays = !went && place(timeline) == stood;
    assert!(rt; stays, "{event}");
}

// Back, forward, and to the middle of events.
static THERE: [(usize, u64, u32); 6] = [
    (1, 2, 8),
    (8, 1, 4),
    (3, 1, 20),
    (2, 0, 12),
    (9, 0, 12),
    (0, 0, 0),
];

static NOT_THERE: [(usize, u64); 4] = [(1, 4), (0, 1), (9, 1), (10, 0)];

fn check_positions(rt: &impl Abort, alloc: Global, timeline: &mut Timeline) {
    for to in &THERE {
        check_gone(rt, alloc, timeline, *to);
    }
    assert!(rt; place(timeline) == (0, 0));
    for to in &NOT_THERE {
        check_not_gone(rt, alloc, timeline, *to);
    }
}

#[test]
fn positions_are_gone_to(rt: HostRuntime) {
    let mut timeline = played(&rt, rt.alloc());
    check_positions(&rt, rt.alloc(), &mut timeline);
    drop(timeline);
}

// It is ready, goes on by one instruction, and stands at this pc.
fn check_step(rt: &impl Abort, timeline: &mut Timeline, pc: u32) {
    assert!(rt; timeline.status() == Status::Ready);
    assert!(rt; timeline.step_one());
    assert!(rt; timeline.machine().pc() == pc, "{pc}");
}

// The last bytes of the memory are those that came.
fn check_memory(rt: &impl Abort, machine: &Machine, came: [u8; 4]) {
    let memory = machine.memory();
    assert!(rt; memory.len() == 68);
    assert!(rt; &memory[64..] == came.as_slice());
}

// What process 1 has behind its message: how many bytes came, from whom, and the bytes.
fn check_received(rt: &impl Abort, machine: &Machine) {
    assert!(rt; machine.regs()[9] == 4 && machine.regs()[10] == 0);
    check_memory(rt, machine, [0x93, 0x08, 0x10, 0x00]);
}

static PLACES: [u32; 3] = [4, 8, 12];

// Through the first run, up to its end.
fn check_steps(rt: &impl Abort, alloc: Global, timeline: &mut Timeline) {
    check_gone(rt, alloc, timeline, (1, 0, 0));
    for pc in &PLACES {
        check_step(rt, timeline, *pc);
    }
    assert!(rt; !timeline.step_one());
    assert!(rt; timeline.status() == Status::Waiting);
}

// To what came, and back to the begin.
fn check_return(rt: &impl Abort, alloc: Global, timeline: &mut Timeline) {
    check_gone(rt, alloc, timeline, (3, 0, 16));
    check_received(rt, timeline.machine());
    timeline.rewind(alloc).expect(rt, "memory");
    assert!(rt; place(timeline) == (0, 0) && timeline.position().event == 0);
}

#[test]
fn instructions_are_gone_through(rt: HostRuntime) {
    let mut timeline = played(&rt, rt.alloc());
    check_steps(&rt, rt.alloc(), &mut timeline);
    check_return(&rt, rt.alloc(), &mut timeline);
    drop(timeline);
}

fn is_seen_by(rt: &impl Abort, alloc: Global, process: u32) -> bool {
    let seen = seen_by(rt, alloc, process);
    let is_there = seen.is_some();
    drop(seen);
    is_there
}

#[test]
fn a_process_that_is_not_there(rt: HostRuntime) {
    assert!(&rt; !is_seen_by(&rt, rt.alloc(), 2));
    assert!(&rt; is_seen_by(&rt, rt.alloc(), 0));
}

// Asks who it is, counts down from 65,536, sends its first 4 bytes to process 1, counts down from 65,536 again, and ends with 0:
// addi a7, zero, 4; ecall; lui a1, 16; addi a1, a1, -1; bne a1, zero, -4, and the send; the same count, and the end.
static COUNTS: [u32; 14] = [
    0x0040_0893,
    0x0000_0073,
    0x0001_05b7,
    0xfff5_8593,
    0xfe05_9ee3,
    0x0010_0893,
    0x0010_0513,
    0x0040_0613,
    0x0000_0073,
    0x0001_05b7,
    0xfff5_8593,
    0xfe05_9ee3,
    0x0000_0893,
    0x0000_0073,
];

// The first run ends in the middle of a count; the second goes to the end.
static LONG: [Event; 4] = [
    Event::Run {
        process: 0,
        fuel: 120_000,
    },
    Event::Run {
        process: 0,
        fuel: 2_000_000,
    },
    Event::Run {
        process: 1,
        fuel: 100,
    },
    Event::Give {
        process: 1,
        frame: 0,
    },
];

// Returns how often the next event is looked at until it is played, and whether there is one.
fn looks(rt: &impl Abort, alloc: Global, timeline: &mut Timeline) -> (u64, bool) {
    for parts in 0..100 {
        match timeline.look(alloc).expect(rt, "an event") {
            Peek::Next => return (parts, true),
            Peek::NotYet => {}
            Peek::End => return (parts, false),
        }
    }
    (100, false)
}

// The first run takes two parts more, and is gone into up to its end, and no further.
fn check_first_run(rt: &impl Abort, alloc: Global, timeline: &mut Timeline) {
    assert!(rt; looks(rt, alloc, timeline) == (2, true));
    assert!(rt; timeline.position().event == 0 && timeline.deeds().len() == 1);
    check_gone(rt, alloc, timeline, (0, 120_000, 16));
    assert!(rt; place(timeline) == (16, 120_000));
    check_not_gone(rt, alloc, timeline, (0, 120_001));
}

// The next event is there at the first look.
fn check_passed(rt: &impl Abort, alloc: Global, timeline: &mut Timeline) {
    assert!(rt; timeline.pass(alloc).expect(rt, "memory"));
    assert_eq!(rt; looks(rt, alloc, timeline), (0, true));
}

// The second run, to its end.
fn check_second_run(rt: &impl Abort, alloc: Global, timeline: &mut Timeline) {
    check_passed(rt, alloc, timeline);
    check_passed(rt, alloc, timeline);
    assert!(rt; place(timeline) == (52, 262_153) && timeline.status() == Status::Ended(0));
}

// The record of long runs, as a process sees it.
fn long(rt: &impl Abort, alloc: Global, process: Pid) -> Timeline {
    record(rt, alloc, &COUNTS, &LONG, process).expect(rt, "a process")
}

// A run in parts is the run: its deed, the machines in it, and what it sent. Each part has at most 50,000 instructions, and the part with
// the first message is the last one.
#[test]
fn a_long_run_is_played_in_parts(rt: HostRuntime) {
    let mut timeline = long(&rt, rt.alloc(), Pid::at(0));
    check_first_run(&rt, rt.alloc(), &mut timeline);
    check_second_run(&rt, rt.alloc(), &mut timeline);
    drop(timeline);
}

// By event, in how many parts a run of another process is looked at.
static PARTS: [(usize, u64); 4] = [(0, 2), (1, 0), (2, 0), (3, 0)];

fn check_part(
    rt: &impl Abort,
    alloc: Global,
    timeline: &mut Timeline,
    (event, parts): (usize, u64),
) {
    assert!(rt; looks(rt, alloc, timeline) == (parts, true), "{event}");
    assert!(rt; timeline.pass(alloc).expect(rt, "memory"), "{event}");
}

fn check_parts(rt: &impl Abort, alloc: Global, timeline: &mut Timeline) {
    for part in &PARTS {
        check_part(rt, alloc, timeline, *part);
    }
    assert!(rt; looks(rt, alloc, timeline) == (0, false));
    assert!(rt; place(timeline) == (16, 4));
    check_memory(rt, timeline.machine(), [0x93, 0x08, 0x40, 0x00]);
}

// Of a run of another process nothing is seen but what it sent.
#[test]
fn a_long_run_of_another(rt: HostRuntime) {
    let mut timeline = long(&rt, rt.alloc(), Pid::at(1));
    check_parts(&rt, rt.alloc(), &mut timeline);
    drop(timeline);
}
