use om_interval::{DepVec, Pid};
use om_recover::{Note, Row, RowKind};
use om_runner::{Board, Front, Frontier, Naming, Pass};
use std::alloc::Global;
use std::process::Abort;
use std::sync::Wait;
use std::sync::atomic::AtomicBool;
use std::sync::atomic::Ordering::SeqCst;
use std::thread;

// How often a flag is looked at before a thread gives up.
const LOOKS: u32 = 100_000_000;

// Returns whether the flag is set in time.
pub fn is_set(flag: &AtomicBool) -> bool {
    for _ in 0..LOOKS {
        if flag.load(SeqCst) {
            return true;
        }
        thread::yield_now();
    }
    false
}

pub fn process(rt: &impl Abort, number: u32) -> Pid {
    Pid::new(number).expect(rt, "a process")
}

pub fn vector(rt: &impl Abort, numbers: &[u32]) -> DepVec {
    DepVec::from_slice(numbers).expect(rt, "a vector")
}

// Notes the receipt of interval 1 of process 0 of 2, which depends on no other: the recovery state is raised.
pub fn noted<K: Naming, R: Wait + Abort>(
    rt: &R,
    alloc: Global,
    board: &mut Board<K>,
    frontier: &Frontier<K>,
) {
    let row = Row {
        kind: RowKind::Log,
        pid: process(rt, 0),
        interval: 1,
        vec: vector(rt, &[1, 0]),
        got: vector(rt, &[0, 1]),
    };
    let told = board.note(rt, alloc, 0, row, frontier);
    assert!(rt; told == Ok(Note::Noted { raised: true }));
}

pub fn last<K: Naming>(rt: &impl Abort, passes: &mut Vec<Pass<K>>) -> Pass<K> {
    passes.pop().expect(rt, "a pass")
}

pub fn front(rt: &impl Abort, version: u64, round: u32, vec: &[u32]) -> Front {
    Front {
        version,
        round,
        vec: vector(rt, vec),
    }
}
