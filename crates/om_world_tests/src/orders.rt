ghost use Rattle.std.specs.Prelude.{◌≡◌, ◌≤◌, IfOk, length};
ghost use Rattle.om_interval.specs.declared.pid.TheConstants.{MAX_PROCESSES};

use om_check::{Delivery, End, Explored, PlayFault, Scheduler, explore};
use om_interval::{MAX_PROCESSES, Pid};
use om_isa::Ext;
use om_manager::Output;
use om_process::{Accept, Image, StartFault, Status};
use om_stable::MemStable;
use om_world::{Answer, Event, World};
use std::alloc::{AllocError, Global};
use std::process::Abort;

// Process 0 receives from each other one and puts out what came; each other one sends its number to process 0.
pub static GATHERS: [u32; 25] = [
    0x0040_0893,
    0x0000_0073,
    0x1000_0493,
    0x0205_1A63,
    0xFFF5_8913,
    0x0409_0263,
    0x1000_0513,
    0x0040_0593,
    0x0020_0893,
    0x0000_0073,
    0x0005_0593,
    0x1000_0513,
    0x0030_0893,
    0x0000_0073,
    0xFFF9_0913,
    0xFD9F_F06F,
    0x00A4_8023,
    0x0000_0513,
    0x1000_0593,
    0x0010_0613,
    0x0010_0893,
    0x0000_0073,
    0x0000_0513,
    0x0000_0893,
    0x0000_0073,
];

// Process 0 receives, and then as many messages more as the number of the sender says; each other one sends its number to process 0.
pub static COUNTS: [u32; 25] = [
    0x0040_0893,
    0x0000_0073,
    0x1000_0493,
    0x0205_1A63,
    0x1000_0513,
    0x0040_0593,
    0x0020_0893,
    0x0000_0073,
    0x0005_8913,
    0x0209_0A63,
    0x1000_0513,
    0x0040_0593,
    0x0020_0893,
    0x0000_0073,
    0xFFF9_0913,
    0xFE9F_F06F,
    0x00A4_8023,
    0x0000_0513,
    0x1000_0593,
    0x0010_0613,
    0x0010_0893,
    0x0000_0073,
    0x0000_0513,
    0x0000_0893,
    0x0000_0073,
];

// More than any of these runs takes.
pub const MANY: u64 = 1_000;

fn image(alloc: Global, words: &[u32]) -> Result<Image, AllocError> {
    let mut bytes = Vec::new(alloc);
    for word in words {
        bytes.extend_from_slice(&word.to_le_bytes())?;
    }
    Ok(Image {
        bytes,
        size: 512,
        ext: Ext::I,
    })
}

fn three_stores(alloc: Global) -> Result<Vec<MemStable>, AllocError>
    ensures { IfOk result (λ stores. length stores.items ≡ 3) }
{
    let mut stores = Vec::with_capacity(alloc, 3)?;
    stores.push_reserved(MemStable::new(alloc));
    stores.push_reserved(MemStable::new(alloc));
    stores.push_reserved(MemStable::new(alloc));
    Ok(stores)
}

pub fn images(alloc: Global, words: &[u32], n: usize) -> Result<Vec<Image>, AllocError>
    ensures { IfOk result (λ images. length images.items ≡ n) }
{
    let mut images = Vec::new(alloc);
    for _ in 0..n {
        images.push(image(alloc, words)?)?;
    }
    Ok(images)
}

// Picks by a list of places, and behind its end the first.
#[derive(Drop)]
struct Listed {
    places: Vec<usize>,
    at: usize,
}

impl Scheduler for Listed {
    fn pick(&mut self, _deliveries: &[Delivery]) -> Option<usize> {
        let place = self.places.get(self.at).copied().unwrap_or(0);
        self.at = self.at.saturating_add(1);
        Some(place)
    }
}

// Gives up at once.
#[derive(Drop)]
struct Never;

impl Scheduler for Never {
    fn pick(&mut self, _deliveries: &[Delivery]) -> Option<usize> {
        None
    }
}

// Returns what the processes of a world put out, one behind the other.
pub fn put_out(alloc: Global, world: &World<MemStable>) -> Result<Vec<u8>, AllocError> {
    let mut bytes = Vec::new(alloc);
    let manager = world.manager();
    for p in 0..manager.recovery().n() {
        add_outputs(&mut bytes, manager.released(Pid::at(p)))?;
    }
    Ok(bytes)
}

fn add_outputs(bytes: &mut Vec<u8>, outputs: &[Output]) -> Result<(), AllocError> {
    for output in outputs {
        bytes.extend_from_slice(output.bytes.as_slice())?;
    }
    Ok(())
}

// The frame that an event gave to process 0.
fn given(event: Event) -> Option<usize> {
    match event {
        Event::Give { process, frame } if process == 0 => Some(frame),
        _ => None,
    }
}

// From whom process 0 received in a run, in order: it took each frame that it was given.
fn senders(alloc: Global, run: &Explored) -> Result<Vec<u8>, AllocError> {
    let mut senders = Vec::new(alloc);
    for event in run.events.as_slice() {
        if let Some(frame) = given(*event)
            && let Some(message) = run.world.frames().get(frame)
        {
            senders.push(message.from.index() as u8)?;
        }
    }
    Ok(senders)
}

// How many frames were taken.
fn taken(answers: &[Answer]) -> usize {
    let mut count: usize = 0;
    for answer in answers {
        if matches!(answer, Answer::Given(Accept::Taken(_))) {
            count = count.saturating_add(1);
        }
    }
    count
}

// The run of so many processes in which these places are picked.
fn run(rt: &impl Abort, alloc: Global, words: &[u32], n: usize, places: &[usize]) -> Explored {
    assert!(rt; n > 0);
    assert!(rt; n <= MAX_PROCESSES);
    let images = images(alloc, words, n).expect(rt, "memory");
    let mut scheduler = Listed {
        places: places.to_vec(alloc).expect(rt, "memory"),
        at: 0,
    };
    let run = explore(alloc, &images, &mut scheduler, MANY).expect(rt, "a run");
    run.expect(rt, "an end")
}

// How many processes there are, which places are picked, and what process 0 puts out.
static GATHERED: [(usize, &[usize], &[u8]); 9] = [
    (1, &[], &[]),
    (2, &[0], &[1]),
    (3, &[0, 0], &[1, 2]),
    (3, &[1, 0], &[2, 1]),
    (4, &[0, 0, 0], &[1, 2, 3]),
    (4, &[0, 1, 0], &[1, 3, 2]),
    (4, &[1, 0, 0], &[2, 1, 3]),
    (4, &[2, 0, 0], &[3, 1, 2]),
    (4, &[2, 1, 0], &[3, 2, 1]),
];

// A run to its end: what process 0 puts out of those from whom it received.
fn check_gathered(rt: &impl Abort, alloc: Global, run: &Explored, bytes: &[u8]) {
    assert!(rt; run.end == End::Whole);
    let put_out = put_out(alloc, &run.world).expect(rt, "memory");
    assert_eq!(rt; put_out.as_slice(), bytes);
    check_senders(rt, alloc, run, bytes);
}

// From whom process 0 received.
fn check_senders(rt: &impl Abort, alloc: Global, run: &Explored, from: &[u8]) {
    let senders = senders(alloc, run).expect(rt, "memory");
    assert_eq!(rt; senders.as_slice(), from);
}

// What owns a run only hands it on: each further call where one is owned is dear to prove, and so is a drop that no call makes.
#[test]
fn what_is_picked_is_received(rt: HostRuntime) {
    for (n, places, bytes) in &GATHERED {
        let run = run(&rt, rt.alloc(), &GATHERS, *n, places);
        check_gathered(&rt, rt.alloc(), &run, bytes);
        drop(run);
    }
}

// Which places are picked, from whom process 0 receives, and whether it waits then.
static COUNTED: [(&[usize], &[u8], End); 2] = [
    (&[0, 0], &[1, 2], End::Whole),
    (&[1, 0], &[2, 1], End::Stuck),
];

fn check_counted(rt: &impl Abort, alloc: Global, run: &Explored, from: &[u8], end: End) {
    assert!(rt; run.end == end);
    check_senders(rt, alloc, run, from);
    let core = run.world.core(Pid::at(0)).expect(rt, "a core");
    let waits = core.status() == Status::Waiting;
    assert!(rt; waits == (end == End::Stuck));
}

#[test]
fn an_order_in_which_a_process_waits_for_ever(rt: HostRuntime) {
    for (places, from, end) in &COUNTED {
        let run = run(&rt, rt.alloc(), &COUNTS, 3, places);
        check_counted(&rt, rt.alloc(), &run, from, *end);
        drop(run);
    }
}

// The world of three processes that gather.
fn three(alloc: Global) -> Result<World<MemStable>, StartFault> {
    let images = images(alloc, &GATHERS, 3)?;
    let stores = three_stores(alloc)?;
    World::start(alloc, &images, stores)
}

// Plays events, of which two are messages that are taken, from 2 and then from 1.
fn check_events(rt: &impl Abort, alloc: Global, world: &mut World<MemStable>, events: &[Event]) {
    let answers = world.play(alloc, events).expect(rt, "memory");
    assert!(rt; answers.len() == events.len() && taken(&answers) == 2);
    let bytes = put_out(alloc, world).expect(rt, "memory");
    assert!(rt; bytes.as_slice() == [2, 1].as_slice());
}

// The events of a run, played anew, lead to what it led to.
#[test]
fn what_happened_is_told(rt: HostRuntime) {
    let alloc = rt.alloc();
    let run = run(&rt, alloc, &GATHERS, 3, &[1, 0]);
    let mut world = three(alloc).expect(&rt, "a world");
    check_events(&rt, alloc, &mut world, &run.events);
    drop(world);
    drop(run);
}

// Returns what comes of a run, in a word, and of which process.
fn word_of(told: Result<Option<Explored>, PlayFault>) -> (&'static str, usize) {
    let word = match &told {
        Ok(run) => (run_word(run), 0),
        Err(fault) => fault_word(*fault),
    };
    drop(told);
    word
}

fn run_word(run: &Option<Explored>) -> &'static str {
    if run.is_some() { "ended" } else { "given up" }
}

fn fault_word(fault: PlayFault) -> (&'static str, usize) {
    match fault {
        PlayFault::NotSent(pid) => ("not sent", pid.index()),
        PlayFault::NotWaiting(pid) => ("not waiting", pid.index()),
        PlayFault::Spent(pid) => ("spent", pid.index()),
        PlayFault::NotEnded(pid) => ("not ended", pid.index()),
        PlayFault::Memory => ("memory", 0),
    }
}

// What comes of a run of three within so many instructions of each, where these places are picked.
fn word_of_three(
    rt: &impl Abort,
    alloc: Global,
    places: &[usize],
    most: u64,
) -> (&'static str, usize) {
    let images = images(alloc, &GATHERS, 3).expect(rt, "memory");
    let mut listed = Listed {
        places: places.to_vec(alloc).expect(rt, "memory"),
        at: 0,
    };
    word_of(explore(alloc, &images, &mut listed, most))
}

// Process 0 of three finishes 5 instructions, 11 for each message, and 3 more before it ends.
#[test]
fn the_most_instructions(rt: HostRuntime) {
    assert!(&rt; word_of_three(&rt, rt.alloc(), &[], 30) == ("ended", 0));
    assert!(&rt; word_of_three(&rt, rt.alloc(), &[], 29) == ("spent", 0));
}

// Each pick is given up.
fn word_of_none(alloc: Global, images: &[Image]) -> (&'static str, usize)
    requires some { 1 ≤ length images.now }
    requires few { length images.now ≤ MAX_PROCESSES }
{
    word_of(explore(alloc, images, &mut Never, MANY))
}

// Where nothing is picked, or what is not there; one that is alone ends.
#[test]
fn a_run_is_given_up(rt: HostRuntime) {
    let alloc = rt.alloc();
    let three = images(alloc, &GATHERS, 3).expect(&rt, "memory");
    assert!(&rt; word_of_none(alloc, &three) == ("given up", 0));
    assert!(&rt; word_of_three(&rt, alloc, &[2], MANY) == ("given up", 0));
    let alone = images_of_one(&rt, alloc);
    assert!(&rt; word_of_none(alloc, &alone) == ("ended", 0));
}

fn images_of_one(rt: &impl Abort, alloc: Global) -> Vec<Image>
    ensures { length result.items ≡ 1 }
{
    images(alloc, &GATHERS, 1).expect(rt, "memory")
}
