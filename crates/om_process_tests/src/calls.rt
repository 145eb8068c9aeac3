use crate::parts::{bytes_of, message, x};
use om_format::Message;
use om_interval::{Bounds, DepVec, Pid, Tag};
use om_isa::Ext;
use om_machine::Cause;
use om_machine::Cause::{BufferOutside, FetchOutside};
use om_process::{Accept, ProcCore, RunEnd, StartFault, Status, laws};
use om_stable::MemStable;
use std::alloc::Global;
use std::process::Abort;

// Receives, and puts out what came.
const OUTPUTS_IT: &str =
    "93082000130500049305400073000000930830009305050013050004730000009308000073000000";

// Sends its first 4 bytes to process 1.
const SENDS_FIRST: &str = "930810001305100013064000730000009308000073000000";

// Puts out the 8 bytes from address 8 on.
const OUTPUTS_EIGHT: &str = "93083000130580009305800073000000";

// Puts out the 9 bytes from address 8 on.
const OUTPUTS_NINE: &str = "93083000130580009305900073000000";

// Puts out the 257 bytes from address 8 on.
const OUTPUTS_TOO_LONG: &str = "93083000130580009305101073000000";

// What they put out.
const EIGHT: &str = "9305800073000000";

// Sends to process 1.
const SENDS: &str = "930810001305100073000000";

// Sends 257 bytes to process 0, and then, as x10 says that it was refused, to process 2^32 - 1.
const SENDS_TOO_LONG: &str = "93081000130610107300000073000000";

// Sends 256 bytes to process 0.
const SENDS_LONGEST: &str = "930810001306001073000000";

// The start of process `pid` of `n` with this program, over a store of its own.
fn start(
    rt: &impl Abort,
    alloc: Global,
    program: &str,
    size: u32,
    (pid, n): (u32, usize),
) -> Result<ProcCore, StartFault> {
    let image = bytes_of(rt, alloc, program);
    let pid = Pid::new(pid).expect(rt, "a process");
    let mut store = MemStable::new(alloc);
    let answer = ProcCore::start(alloc, &image, size, Ext::I, pid, n, &mut store);
    drop(store);
    answer
}

fn started(
    rt: &impl Abort,
    alloc: Global,
    program: &str,
    size: u32,
    place: (u32, usize),
) -> ProcCore {
    start(rt, alloc, program, size, place).expect(rt, "a start")
}

fn run(rt: &impl Abort, alloc: Global, core: &mut ProcCore, fuel: u64) -> RunEnd {
    core.run(alloc, fuel).expect(rt, "memory")
}

// Returns whether there are so many outputs from a number on, of which the first has these bytes.
fn has_outputs(core: &ProcCore, from: u64, count: usize, bytes: &[u8]) -> bool {
    let outputs = core.outputs_from(from);
    let is_first = match outputs.first() {
        Some(it) => it.seq == from && it.interval == 0 && it.bytes.as_slice() == bytes,
        None => true,
    };
    is_first && outputs.len() == count
}

// Returns whether a process of one stopped for this cause after so many steps, with this value in x10 and nothing sent.
fn has_stopped(
    core: &ProcCore,
    ran: RunEnd,
    (steps, refused): (u64, u64),
    cause: Cause,
    value: u32,
) -> bool {
    let status = Status::Trapped(cause);
    core.vec().n() == 1
        && core.outbox(Pid::at(0)).is_empty()
        && (ran, core.status())
            == (
                RunEnd {
                    steps,
                    status,
                    refused,
                },
                status,
            )
        && x(core, 10) == Some(value)
}

// Program, size, the steps and of these the sends that are refused, why it stops, x10, and how many outputs it makes.
type Call = (&'static str, u32, (u64, u64), Cause, u32, usize);

// A send to a process that is not there, one that is too long and then one to no process, an output of 8 bytes, one of which a byte lies outside memory, and one that is too long.
const CALLS: [Call; 5] = [
    (SENDS, 12, (3, 1), FetchOutside, u32::MAX, 0),
    (SENDS_TOO_LONG, 16, (4, 2), FetchOutside, u32::MAX, 0),
    (OUTPUTS_EIGHT, 16, (4, 0), FetchOutside, 0, 1),
    (OUTPUTS_NINE, 16, (3, 0), BufferOutside, 8, 0),
    (OUTPUTS_TOO_LONG, 16, (4, 0), FetchOutside, u32::MAX, 0),
];

fn is_carried_out(rt: &impl Abort, alloc: Global, call: Call) -> bool {
    let (program, size, steps, cause, value, made) = call;
    let mut core = started(rt, alloc, program, size, (0, 1));
    let ran = run(rt, alloc, &mut core, 10);
    let bytes = bytes_of(rt, alloc, EIGHT);
    let is_it = has_stopped(&core, ran, steps, cause, value) && has_outputs(&core, 0, made, &bytes);
    drop(core);
    is_it
}

fn assert_call(rt: &impl Abort, alloc: Global, call: Call) {
    assert!(rt; is_carried_out(rt, alloc, call), "{}", call.0);
}

#[test]
fn calls_are_carried_out_or_refused(rt: HostRuntime) {
    for call in CALLS {
        assert_call(&rt, rt.alloc(), call);
    }
}

// Runs and offers a message.
fn accepted(
    rt: &impl Abort,
    alloc: Global,
    core: &mut ProcCore,
    fuel: u64,
    (from, to, inc, ssn): (u32, u32, u32, u32),
) -> Accept {
    run(rt, alloc, core, fuel);
    let mut offered = message(rt, alloc, from, to, ssn, "01020304");
    offered.tag = Tag { inc, interval: 7 };
    let answer = core.accept(alloc, &offered);
    drop(offered);
    answer
}

// The fuel before it is offered, sender, receiver, incarnation and number of a message, and its answer.
type Offer = (u64, (u32, u32, u32, u32), Accept);

// To process 0 of 2: before the process waits, as it waits, and after it took the first message from 1.
const OFFERS: [Offer; 8] = [
    (0, (1, 0, 0, 0), Accept::NotWaiting),
    (10, (1, 1, 0, 0), Accept::Stranger),
    (10, (2, 0, 0, 0), Accept::Stranger),
    (10, (1, 0, 1, 0), Accept::Stranger),
    (10, (1, 0, 0, 1), Accept::Ahead),
    (10, (1, 0, 0, 0), Accept::Taken(1)),
    (0, (1, 0, 0, 0), Accept::Repeat),
    (0, (0, 0, 0, 0), Accept::NotWaiting),
];

fn assert_offer(rt: &impl Abort, alloc: Global, core: &mut ProcCore, offer: Offer) {
    let (fuel, offered, answer) = offer;
    let told = accepted(rt, alloc, core, fuel, offered);
    assert!(rt; told == answer, "{offered:?}");
}

// Returns whether the process took one message, which was sent in interval 7.
fn has_taken(core: &ProcCore) -> bool {
    core.interval() == 1
        && core.vec().as_slice() == [1, 7].as_slice()
        && core.got().as_slice() == [0, 1].as_slice()
        && core.machine().bytes(64, 4) == Some([1, 2, 3, 4].as_slice())
}

#[test]
fn messages_are_taken_or_refused(rt: HostRuntime) {
    let mut core = started(&rt, rt.alloc(), OUTPUTS_IT, 128, (0, 2));
    for offer in OFFERS {
        assert_offer(&rt, rt.alloc(), &mut core, offer);
    }
    let has_taken = has_taken(&core);
    drop(core);
    assert!(rt; has_taken);
}

// The `k`-th message to process 1 that is kept.
fn frame(rt: &impl Abort, alloc: Global, core: &ProcCore, k: usize) -> Option<Message> {
    assert!(rt; core.vec().n() > 1);
    core.frame(alloc, Pid::at(1), k).expect(rt, "memory")
}

// Drops the messages below these numbers, by receiver, and the outputs below one.
fn trim(rt: &impl Abort, core: &mut ProcCore, numbers: &[u32], released: u64) {
    let got = DepVec::from_slice(numbers).expect(rt, "a vector");
    assert!(rt; got.n() == core.vec().n());
    core.trim(&Bounds { got, released });
}

// The message from the third of three processes to the second.
fn assert_framed(rt: &impl Abort, alloc: Global, framed: &Message) {
    let tag = Tag {
        inc: 0,
        interval: 0,
    };
    let told = (framed.from, framed.to, framed.tag, framed.ssn);
    let body = bytes_of(rt, alloc, "93081000");
    let is_body = framed.body.as_slice() == body.as_slice();
    assert!(rt; is_body && told == (Pid::at(2), Pid::at(1), tag, 0));
}

fn assert_first_framed(rt: &impl Abort, alloc: Global, core: &ProcCore) {
    let framed = frame(rt, alloc, core, 0).expect(rt, "a message");
    assert_framed(rt, alloc, &framed);
    drop(framed);
}

// Whether that message is kept.
fn assert_kept(rt: &impl Abort, alloc: Global, core: &ProcCore, k: usize, is_kept: bool) {
    let framed = frame(rt, alloc, core, k);
    let told = framed.is_some();
    drop(framed);
    assert!(rt; told == is_kept, "{k}");
}

// The third of three processes sends to the second.
fn sent(rt: &impl Abort, alloc: Global) -> ProcCore {
    let mut core = started(rt, alloc, SENDS_FIRST, 64, (2, 3));
    let status = Status::Ended(0);
    let refused = 0;
    let wanted = RunEnd {
        steps: 5,
        status,
        refused,
    };
    assert!(rt; run(rt, alloc, &mut core, 10) == wanted);
    core
}

// Of the longest message nothing is refused; what is carried out in one run counts there alone.
#[test]
fn sends_that_are_refused_are_counted(rt: HostRuntime) {
    let heap = rt.alloc();
    let mut longest = started(&rt, heap, SENDS_LONGEST, 512, (0, 1));
    assert_eq!(&rt; run(&rt, heap, &mut longest, 10).refused, 0);
    assert_eq!(&rt; longest.outbox(Pid::at(0)).len(), 1);
    let mut core = started(&rt, heap, SENDS_TOO_LONG, 16, (0, 1));
    for refused in [0, 1, 1, 0] {
        let fuel = if refused == 0 { 2 } else { 1 };
        assert_eq!(&rt; run(&rt, heap, &mut core, fuel).refused, refused);
    }
}

#[test]
fn messages_are_framed_until_they_are_trimmed(rt: HostRuntime) {
    let heap = rt.alloc();
    let mut core = sent(&rt, heap);
    assert_first_framed(&rt, heap, &core);
    assert_kept(&rt, heap, &core, 1, false);
    trim(&rt, &mut core, &[0, 0, 0], 0);
    assert_kept(&rt, heap, &core, 0, true);
    trim(&rt, &mut core, &[0, 1, 0], 0);
    assert_kept(&rt, heap, &core, 0, false);
    drop(core);
}

// Returns whether so many outputs are left of a process that put out one text of 8 bytes.
fn are_left(rt: &impl Abort, alloc: Global, released: u64, left: usize) -> bool {
    let bytes = bytes_of(rt, alloc, EIGHT);
    let mut core = started(rt, alloc, OUTPUTS_EIGHT, 16, (0, 1));
    run(rt, alloc, &mut core, 10);
    trim(rt, &mut core, &[0], released);
    let are_left = has_outputs(&core, 0, left, &bytes) && has_outputs(&core, 1, 0, &bytes);
    drop(core);
    are_left
}

// A bound above what was made drops all there is.
#[test]
fn outputs_are_kept_until_they_are_trimmed(rt: HostRuntime) {
    for (released, left) in [(0, 1), (1, 0), (9, 0)] {
        assert!(rt; are_left(&rt, rt.alloc(), released, left), "{released}");
    }
}

#[test]
fn a_failed_process_keeps_its_place(rt: HostRuntime) {
    let down = started(&rt, rt.alloc(), SENDS_FIRST, 64, (2, 3)).fail();
    assert!(rt; down.pid == Pid::at(2) && down.n == 3);
}

// Process, number of processes, size of its memory, and what is answered.
type Start = (u32, usize, u32, Option<StartFault>);

// Both sides of each limit, in the order of the refusals.
const STARTS: [Start; 8] = [
    (0, 0, 6, Some(StartFault::BadPlace)),
    (0, 17, 6, Some(StartFault::BadPlace)),
    (1, 1, 6, Some(StartFault::BadPlace)),
    (0, 1, 6, Some(StartFault::BadSize)),
    (15, 16, 65_540, Some(StartFault::BadSize)),
    (0, 1, 20, Some(StartFault::ImageTooLong)),
    (15, 16, 24, None),
    (0, 1, 65_536, None),
];

fn assert_start(rt: &impl Abort, alloc: Global, (pid, n, size, fault): Start) {
    let answer = start(rt, alloc, SENDS_FIRST, size, (pid, n)).err();
    assert!(rt; answer == fault, "{pid} {n} {size}");
}

#[test]
fn starts_are_refused_in_their_order(rt: HostRuntime) {
    for start in STARTS {
        assert_start(&rt, rt.alloc(), start);
    }
}

// Returns what is answered to a start over this store.
fn started_over(rt: &impl Abort, alloc: Global, store: &mut MemStable) -> Option<StartFault> {
    let image = bytes_of(rt, alloc, "73000000");
    ProcCore::start(alloc, &image, 4, Ext::I, Pid::at(0), 1, store).err()
}

#[test]
fn a_store_takes_one_start(rt: HostRuntime) {
    let mut store = MemStable::new(rt.alloc());
    let first = started_over(&rt, rt.alloc(), &mut store);
    let second = started_over(&rt, rt.alloc(), &mut store);
    drop(store);
    assert!(rt; first.is_none() && second == Some(StartFault::Present));
}

#[test]
fn laws_are_called(_rt: HostRuntime) {
    laws::limits();
    laws::one_turn();
    laws::at_most_one();
    laws::waits_once();
    laws::turns_in_order();
    laws::runs_join_and_part();
    laws::going_on();
    laws::replayed_along();
    laws::replayed_grows();
    laws::replays();
    laws::said_before();
    laws::below_along();
    laws::made_at();
    laws::same_entry();
    laws::parts_go_on();
    laws::turns_count();
    laws::row_along();
}
