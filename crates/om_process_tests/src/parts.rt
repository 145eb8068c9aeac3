//! What the tests are made of. Bytes are given as hexadecimal text. What memory was refused for is done once more: so the tests also
//! hold where one allocation fails, whichever it is (tools/refused-memory).

use om_format::{Body, MAX_BODY, Message};
use om_interval::{Pid, Tag};
use om_isa::{Ext, Reg};
use om_process::{Accept, ProcCore, ReplayFault, StartFault};
use om_stable::{Stable, StoreError};
use std::alloc::Global;
use std::process::Abort;

// Receives, and sends what came to process 0.
const SENDS_IT_ON: &str = "\
9308200013050004930540007300000093081000130605001305000093050004730000009308000073000000";

// Receives, puts out what came and sends it to process 1, again and again.
const PASSES_ON: &str = "\
930820001305000893054000730000009308300013050008930540007300000093081000130510009305000813064000730000006ff0dffc";

// The receipt of the first message, which process 2 sent in interval 0 to process 1 of 3.
pub const RECEIPT: &str = "520101020100000000000000000000000300000000000000040093081000";

pub fn bytes_of(rt: &impl Abort, alloc: Global, text: &str) -> Vec<u8> {
    match hex::decode(alloc, text) {
        Ok(bytes) => bytes,
        Err(_) => hex::decode(alloc, text).expect(rt, "hexadecimal"),
    }
}

fn process(rt: &impl Abort, number: u32) -> Pid {
    Pid::new(number).expect(rt, "a process")
}

fn body(rt: &impl Abort, alloc: Global, text: &str) -> Body {
    let bytes = bytes_of(rt, alloc, text);
    assert!(rt; bytes.len() <= MAX_BODY);
    Body::from_slice(alloc, &bytes).expect(rt, "memory")
}

pub fn message(
    rt: &impl Abort,
    alloc: Global,
    from: u32,
    to: u32,
    ssn: u32,
    text: &str,
) -> Message {
    Message {
        from: process(rt, from),
        to: process(rt, to),
        tag: Tag {
            inc: 0,
            interval: 0,
        },
        ssn,
        body: body(rt, alloc, text),
    }
}

// Process 1 of 3 at its start.
pub fn started<S: Stable>(rt: &impl Abort, alloc: Global, store: &mut S) -> ProcCore {
    let image = bytes_of(rt, alloc, SENDS_IT_ON);
    match start(alloc, &image, store) {
        Ok(core) => core,
        Err(fault) => {
            assert!(rt; fault == StartFault::Memory);
            start(alloc, &image, store).expect(rt, "a start")
        }
    }
}

fn start<S: Stable>(alloc: Global, image: &[u8], store: &mut S) -> Result<ProcCore, StartFault> {
    ProcCore::start(alloc, image, 128, Ext::I, Pid::at(1), 3, store)
}

// Returns what a process answers to a message.
pub fn accepted(alloc: Global, core: &mut ProcCore, next: &Message) -> Accept {
    match core.accept(alloc, next) {
        Accept::Memory => core.accept(alloc, next),
        answer => answer,
    }
}

// Goes on to the next wait and offers a message.
fn offer(rt: &impl Abort, alloc: Global, core: &mut ProcCore, next: Message) -> Accept {
    let has_run = core.run(alloc, 100).is_ok() || core.run(alloc, 100).is_ok();
    assert!(rt; has_run);
    let answer = accepted(alloc, core, &next);
    drop(next);
    answer
}

// Takes its first message.
fn take_first(rt: &impl Abort, alloc: Global, core: &mut ProcCore) {
    let first = message(rt, alloc, 2, 1, 0, "93081000");
    assert!(rt; offer(rt, alloc, core, first) == Accept::Taken(1));
}

// Process 1 of 3 that took its first message, and stored it.
pub fn first_stored<S: Stable>(rt: &impl Abort, alloc: Global, store: &mut S) -> ProcCore {
    let mut core = started(rt, alloc, store);
    take_first(rt, alloc, &mut core);
    flush(rt, alloc, &mut core, store);
    core
}

// Process 0 of 2 at its start.
pub fn begun<S: Stable>(
    rt: &impl Abort,
    alloc: Global,
    store: &mut S,
) -> Result<ProcCore, StartFault> {
    let image = bytes_of(rt, alloc, PASSES_ON);
    ProcCore::start(alloc, &image, 132, Ext::I, Pid::at(0), 2, store)
}

pub fn passing_on<S: Stable>(rt: &impl Abort, alloc: Global, store: &mut S) -> ProcCore {
    begun(rt, alloc, store).expect(rt, "a start")
}

// It goes on to the next wait and takes the message of that number.
pub fn go_on(rt: &impl Abort, alloc: Global, core: &mut ProcCore, ssn: u32) {
    let next = message(rt, alloc, 1, 0, ssn, "0a0b0c0d");
    let answer = offer(rt, alloc, core, next);
    assert!(rt; matches!(answer, Accept::Taken(_)), "{ssn}");
}

pub fn flush<S: Stable>(rt: &impl Abort, alloc: Global, core: &mut ProcCore, store: &mut S) {
    let is_stored = match core.flush(alloc, store) {
        Err(StoreError::Memory) => core.flush(alloc, store).is_ok(),
        told => told.is_ok(),
    };
    assert!(rt; is_stored);
}

pub fn checkpoint<S: Stable>(rt: &impl Abort, alloc: Global, core: &mut ProcCore, store: &mut S) {
    assert!(rt; core.checkpoint(alloc, store).is_ok());
}

// It took ten messages, and stored each, and a checkpoint of interval 4.
pub fn ten<S: Stable>(rt: &impl Abort, alloc: Global, store: &mut S) -> ProcCore {
    let mut core = passing_on(rt, alloc, store);
    for ssn in 0..10 {
        go_on(rt, alloc, &mut core, ssn);
        flush(rt, alloc, &mut core, store);
        if ssn == 3 {
            checkpoint(rt, alloc, &mut core, store);
        }
    }
    core
}

// Puts one receipt.
pub fn put<S: Stable>(rt: &impl Abort, alloc: Global, store: &mut S, receipt: Vec<u8>) {
    let mut receipts = Vec::new(alloc);
    receipts.push(receipt).expect(rt, "memory");
    let is_put = receipts.len() == 1 && store.put_receipts(alloc, 1, &receipts).is_ok();
    assert!(rt; is_put);
}

pub fn replayed<S: Stable>(rt: &impl Abort, alloc: Global, store: &mut S, x: u32) -> ProcCore {
    match ProcCore::replay(alloc, store, x) {
        Ok(core) => core,
        Err(fault) => {
            assert!(rt; fault == ReplayFault::Memory);
            ProcCore::replay(alloc, store, x).expect(rt, "a replay")
        }
    }
}

// A register of a process.
pub fn x(core: &ProcCore, r: u8) -> Option<u32> {
    Some(core.machine().reg(Reg::new(r)?))
}

// Returns whether two processes of 2 made the same.
fn made_same(a: &ProcCore, b: &ProcCore) -> bool {
    a.vec().n() == 2
        && b.vec().n() == 2
        && a.outbox(Pid::at(1)) == b.outbox(Pid::at(1))
        && a.outputs_from(0) == b.outputs_from(0)
}

// Returns whether two processes of 2 are one: in all but their incarnation, their round, the starts and what is still to be stored.
pub fn are_same(a: &ProcCore, b: &ProcCore) -> bool {
    a.machine() == b.machine()
        && a.interval() == b.interval()
        && a.vec() == b.vec()
        && a.got() == b.got()
        && made_same(a, b)
}
