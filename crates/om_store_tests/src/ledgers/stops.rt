//! Ledgers over files that stop: they can be taken up after the stop, with what was there before the stopped call, or after it.

use super::tables::taken_up;
use super::{Call, checkpoints, fill, made};
use crate::stopping::{ENDLESS, Which, bytes_of, calls_of, closed, open};
use om_stable::{Ledger, LedgerTable, MemLedger, StoreError};
use om_tables::SqlLedger;
use sqlite::{Alter, Connection, Files};
use sqlite_disk::{Fuse, Memory};
use std::alloc::Global;
use std::process::Abort;

// The calls that a stop falls into, over a store with checkpoints 0 and 2, outputs 0 and 1 and senders at 0.
static CALLS: [Call; 5] = [
    Call::Put(LedgerTable::Outputs, 2, 3),
    Call::Put(LedgerTable::Senders, 1, 1),
    Call::Put(LedgerTable::About, 0, 1),
    Call::Shed(2, (2, 2), (1, 1)),
    Call::Write(super::batches::WHOLE),
];

// How a run ended.
#[derive(Clone, Copy)]
enum Ended {
    /// Before the call.
    Early,
    /// In the call, which left all as it was, or made all of its change.
    Stopped,
    /// Without a stop.
    Done,
}

// What is done with a store.
#[derive(Clone, Copy)]
enum Task {
    /// It is taken up, and nothing is put into it.
    TakeUp,
    /// It is filled.
    Fill,
    /// A call of it is made.
    Make(Call),
    /// It is read.
    Look,
}

// What a store holds.
#[derive(PartialEq, Drop)]
struct Held {
    outputs: Vec<(u64, Vec<u8>)>,
    senders: Vec<(u64, Vec<u8>)>,
    about: Vec<(u64, Vec<u8>)>,
    receipts: Vec<(u32, Vec<u8>)>,
    // The newest up to 1, and up to 2.
    checkpoints: (Option<u32>, Option<u32>),
    // The newest of all.
    newest: Option<u32>,
}

#[inline(never)]
fn content_of<S: Ledger>(alloc: Global, store: &mut S) -> Result<Held, StoreError> {
    Ok(Held {
        outputs: store.all_in(alloc, LedgerTable::Outputs)?,
        senders: store.all_in(alloc, LedgerTable::Senders)?,
        about: store.all_in(alloc, LedgerTable::About)?,
        receipts: store.receipts(alloc, 0, u32::MAX)?,
        checkpoints: checkpoints(alloc, store),
        newest: store.effective(alloc, u32::MAX)?.map(|(x, _)| x),
    })
}

#[inline(never)]
fn fill_all<S: Ledger>(rt: &impl Abort, alloc: Global, store: &mut S) -> Result<(), StoreError> {
    fill(alloc, store)?;
    made(rt, alloc, store, Call::Put(LedgerTable::Outputs, 0, 2))?;
    made(rt, alloc, store, Call::Put(LedgerTable::Senders, 0, 1))
}

// Returns what the ledger in memory holds after the call, or before it.
fn expected(rt: &impl Abort, alloc: Global, call: Option<Call>) -> Result<Held, StoreError> {
    let mut store = MemLedger::new(alloc);
    fill_all(rt, alloc, &mut store)?;
    if let Some(call) = call {
        made(rt, alloc, &mut store, call)?;
    }
    content_of(alloc, &mut store)
}

// What came of a task: the answer, and what was read.
#[derive(Drop)]
struct Outcome {
    answer: Result<(), StoreError>,
    held: Option<Held>,
}

#[inline(never)]
fn carry_out<S: Ledger>(rt: &impl Abort, alloc: Global, store: &mut S, task: Task) -> Outcome {
    let mut held = None;
    let answer = match task {
        Task::TakeUp => Ok(()),
        Task::Fill => fill_all(rt, alloc, store),
        Task::Make(call) => made(rt, alloc, store, call),
        Task::Look => {
            held = content_of(alloc, store).ok();
            Ok(())
        }
    };
    Outcome { answer, held }
}

// Takes the store over the connection up, and does the task where it could be. What the tables lie in is handed back.
#[inline(never)]
fn done_over<S: Alter + Drop>(
    rt: &impl Abort,
    alloc: Global,
    conn: Connection<S>,
    task: Task,
) -> (Option<Outcome>, S) {
    match taken_up(rt, alloc, conn) {
        Ok(mut store) => {
            let outcome = carry_out(rt, alloc, &mut store, task);
            (Some(outcome), handed_back(store))
        }
        Err((_, conn)) => (None, conn.into_store()),
    }
}

#[inline(never)]
fn handed_back<S: Alter + Drop>(store: SqlLedger<S>) -> S {
    store.into_connection().into_store()
}

// Opens files with these bytes and does the task, as far as the stop lets it.
fn done(
    rt: &impl Abort,
    alloc: Global,
    bytes: (&[u8], &[u8]),
    calls: (u64, u64),
    task: Task,
) -> Option<(Option<Outcome>, Files<Fuse<Memory>>)> {
    let conn = open(alloc, bytes, calls)?;
    let (outcome, store) = done_over(rt, alloc, conn, task);
    Some((outcome, closed(store)))
}

// The files of a store that was filled without a stop.
fn filled(rt: &impl Abort, alloc: Global) -> Option<Files<Fuse<Memory>>> {
    let (filled, files) = done(rt, alloc, (&[], &[]), ENDLESS, Task::Fill)?;
    let is_filled = is_well(&filled);
    drop(filled);
    if is_filled {
        Some(files)
    } else {
        drop(files);
        None
    }
}

fn is_well(outcome: &Option<Outcome>) -> bool {
    match outcome {
        Some(outcome) => outcome.answer == Ok(()),
        None => false,
    }
}

// Returns what is taken up without a stop.
fn found(rt: &impl Abort, alloc: Global, files: &Files<Fuse<Memory>>) -> Option<Held> {
    let (looked, _files) = done(rt, alloc, bytes_of(files), ENDLESS, Task::Look)?;
    looked?.held
}

// Makes the call with a stop, and takes up what is there afterwards.
fn run(
    rt: &impl Abort,
    alloc: Global,
    start: &Files<Fuse<Memory>>,
    call: Call,
    calls: (u64, u64),
) -> Result<Ended, StoreError> {
    let Some((outcome, files)) = done(rt, alloc, bytes_of(start), calls, Task::Make(call)) else {
        return Ok(Ended::Early);
    };
    let left = found(rt, alloc, &files);
    let before = left == Some(expected(rt, alloc, None)?);
    let after = left == Some(expected(rt, alloc, Some(call))?);
    match outcome.map(|outcome| outcome.answer) {
        None if before => Ok(Ended::Early),
        Some(Ok(())) if after => Ok(Ended::Done),
        Some(Err(StoreError::Fault)) if before || after => Ok(Ended::Stopped),
        _ => Err(StoreError::Fault),
    }
}

// Takes up what is in files that have nothing, with a stop, and again without one: the store holds nothing.
fn take_up(rt: &impl Abort, alloc: Global, calls: (u64, u64)) -> Result<Ended, StoreError> {
    let Some((outcome, files)) = done(rt, alloc, (&[], &[]), calls, Task::TakeUp) else {
        return Ok(Ended::Early);
    };
    let is_done = outcome.is_some();
    drop(outcome);
    let left = found(rt, alloc, &files);
    drop(files);
    if !is_nothing(alloc, &left)? {
        return Err(StoreError::Fault);
    }
    Ok(if is_done { Ended::Done } else { Ended::Stopped })
}

fn is_nothing(alloc: Global, left: &Option<Held>) -> Result<bool, StoreError> {
    let mut store = MemLedger::new(alloc);
    let nothing = content_of(alloc, &mut store);
    drop(store);
    Ok(*left == Some(nothing?))
}

// One run with a stop: of a call over a store that was filled, or of the taking up of files that have nothing.
fn stopped_at(
    rt: &impl Abort,
    alloc: Global,
    start: &Files<Fuse<Memory>>,
    call: Option<Call>,
    calls: (u64, u64),
) -> Result<Ended, StoreError> {
    match call {
        Some(call) => run(rt, alloc, start, call, calls),
        None => take_up(rt, alloc, calls),
    }
}

// Stops at each call of one file in turn, until a run ends without a stop: how many stops fell into it.
fn stops(rt: &impl Abort, alloc: Global, call: Option<Call>, which: Which) -> u64 {
    let start = filled(rt, alloc).expect(rt, "files without a stop");
    let mut stopped = 0;
    for calls in 0..200u64 {
        match stopped_at(rt, alloc, &start, call, calls_of(which, calls)) {
            Ok(Ended::Early) => {}
            Ok(Ended::Stopped) => stopped = u64::saturating_add(stopped, 1),
            Ok(Ended::Done) => return stopped,
            Err(_) => panic!(rt; "torn at {calls}"),
        }
    }
    panic!(rt; "each run was stopped");
}

// The log takes each change first, so it is there that some stops fall into it.
fn check_stops(rt: &impl Abort, alloc: Global, call: Option<Call>) {
    let in_log = stops(rt, alloc, call, Which::Log);
    let in_database = stops(rt, alloc, call, Which::Database);
    assert!(rt; 0 < in_log);
    assert!(rt; in_database <= in_log);
}

#[test]
fn taking_up_stops(rt: HostRuntime) {
    check_stops(&rt, rt.alloc(), None);
}

#[test]
fn puts_and_sheds_stop(rt: HostRuntime) {
    for call in &CALLS {
        check_stops(&rt, rt.alloc(), Some(*call));
    }
}
