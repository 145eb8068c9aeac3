//! Stores over files that stop: what is found after the stop is what was there before the stopped call, or after it.

use super::{checkpoint_at, receipts_from};
use crate::databases::store_over;
use crate::stopping::{ENDLESS, Which, bytes_of, calls_of, closed, open};
use om_stable::{MemStable, Stable, StoreError};
use om_tables::SqlStable;
use sqlite::{Alter, Connection, Files};
use sqlite_disk::{Fuse, Memory};
use std::alloc::Global;
use std::process::Abort;

// The call that a stop falls into, over a store with receipts 1 to 3 and checkpoints 0 and 2.
#[derive(Clone, Copy)]
enum Change {
    PutReceipts,
    PutCheckpoint,
    Cut,
    Prune,
}

// How a run ended.
#[derive(Clone, Copy)]
enum Ended {
    /// Before the call.
    Early,
    /// In the call, which left all as it was, or made all of its change.
    Stopped,
    /// Without a stop.
    Done,
    /// Neither before nor after.
    Torn,
}

// What a store holds.
#[derive(PartialEq, Drop)]
struct Held {
    receipts: Vec<(u32, Vec<u8>)>,
    checkpoints: Vec<(u32, Vec<u8>)>,
}

// Returns what a store holds now. This and what follows is not inlined: over files it would be one function, which takes the
// compiler a minute.
#[inline(never)]
fn content_of<S: Stable>(alloc: Global, store: &mut S) -> Result<Held, StoreError> {
    let receipts = store.receipts(alloc, 0, u32::MAX)?;
    let mut checkpoints = Vec::new(alloc);
    let mut below = Some(u32::MAX);
    for _ in 0..8 {
        let Some(x) = below else {
            break;
        };
        let Some((found, bytes)) = store.effective(alloc, x)? else {
            break;
        };
        below = found.checked_sub(1);
        checkpoints.push((found, bytes))?;
    }
    Ok(Held {
        receipts,
        checkpoints,
    })
}

#[inline(never)]
fn fill<S: Stable>(alloc: Global, store: &mut S) -> Result<(), StoreError> {
    let receipts = receipts_from(alloc, 1, 3)?;
    if receipts.len() == 3 {
        store.put_receipts(alloc, 1, &receipts)?;
    }
    store.put_checkpoint(alloc, 0, &checkpoint_at(0))?;
    store.put_checkpoint(alloc, 2, &checkpoint_at(2))
}

#[inline(never)]
fn apply<S: Stable>(alloc: Global, store: &mut S, change: Change) -> Result<(), StoreError> {
    match change {
        Change::PutReceipts => {
            let receipts = receipts_from(alloc, 4, 3)?;
            if receipts.len() == 3 {
                store.put_receipts(alloc, 4, &receipts)?;
            }
            Ok(())
        }
        Change::PutCheckpoint => store.put_checkpoint(alloc, 3, &checkpoint_at(3)),
        Change::Cut => store.cut(alloc, 1),
        Change::Prune => store.prune(alloc, 2),
    }
}

// Returns what the store in memory holds after the change, or before it.
fn expected(alloc: Global, change: Option<Change>) -> Result<Held, StoreError> {
    let mut store = MemStable::new(alloc);
    fill(alloc, &mut store)?;
    if let Some(change) = change {
        apply(alloc, &mut store, change)?;
    }
    content_of(alloc, &mut store)
}

// What is done with a store.
#[derive(Clone, Copy)]
enum Task {
    /// It is made, and nothing is put into it.
    Make,
    /// It is made and filled.
    Fill,
    /// It is changed.
    Apply(Change),
    /// It is read.
    Look,
}

// What came of it: the answer, whether it was counted as a failure, and what was read.
#[derive(Drop)]
struct Outcome {
    answer: Result<(), StoreError>,
    counted: bool,
    held: Option<Held>,
}

#[inline(never)]
fn carry_out<S: Stable>(alloc: Global, store: &mut S, task: Task) -> Outcome {
    let mut held = None;
    let answer = match task {
        Task::Make => Ok(()),
        Task::Fill => fill(alloc, store),
        Task::Apply(change) => apply(alloc, store, change),
        Task::Look => {
            held = content_of(alloc, store).ok();
            Ok(())
        }
    };
    let counted = store.failures() == 1;
    Outcome {
        answer,
        counted,
        held,
    }
}

// Makes or takes the store over the connection, and does the task where it could be made or taken. What the tables lie in is
// handed back.
#[inline(never)]
fn done_over<S: Alter + Drop>(
    rt: &impl Abort,
    alloc: Global,
    conn: Connection<S>,
    task: Task,
) -> (Option<Outcome>, S) {
    let is_new = matches!(task, Task::Make | Task::Fill);
    match store_over(rt, alloc, conn, is_new) {
        Ok(mut store) => {
            let outcome = carry_out(alloc, &mut store, task);
            (Some(outcome), handed_back(store))
        }
        Err((_, conn)) => (None, conn.into_store()),
    }
}

#[inline(never)]
fn handed_back<S: Alter + Drop>(store: SqlStable<S>) -> S {
    store.into_connection().into_store()
}

// Opens files with these bytes and does the task, as far as the stop lets it. This is the one place where the generic
// calls meet the files: each such place is dear to prove.
fn done(
    rt: &impl Abort,
    alloc: Global,
    bytes: (&[u8], &[u8]),
    calls: (u64, u64),
    task: Task,
) -> Option<(Option<Outcome>, Files<Fuse<Memory>>)> {
    let conn = open(alloc, bytes, calls)?;
    let (outcome, store) = done_over(rt, alloc, conn, task);
    Some((outcome, closed(store)))
}

// The files of a store that was filled without a stop.
fn filled(rt: &impl Abort, alloc: Global) -> Option<Files<Fuse<Memory>>> {
    let (filled, files) = done(rt, alloc, (&[], &[]), ENDLESS, Task::Fill)?;
    let is_filled = is_well(&filled);
    drop(filled);
    if is_filled {
        Some(files)
    } else {
        drop(files);
        None
    }
}

fn is_well(outcome: &Option<Outcome>) -> bool {
    match outcome {
        Some(outcome) => outcome.answer == Ok(()),
        None => false,
    }
}

// Returns what the files hold, opened and adopted without a stop.
fn found(rt: &impl Abort, alloc: Global, files: &Files<Fuse<Memory>>) -> Option<Held> {
    let (looked, _files) = done(rt, alloc, bytes_of(files), ENDLESS, Task::Look)?;
    looked?.held
}

// Makes the change with a stop, and looks at what is there afterwards.
fn run(
    rt: &impl Abort,
    alloc: Global,
    start: &Files<Fuse<Memory>>,
    change: Change,
    calls: (u64, u64),
) -> Result<Ended, StoreError> {
    let task = Task::Apply(change);
    let Some((changed, files)) = done(rt, alloc, bytes_of(start), calls, task) else {
        return Ok(Ended::Early);
    };
    let Some(changed) = changed else {
        return Ok(Ended::Early);
    };
    let left = found(rt, alloc, &files);
    let before = left == Some(expected(alloc, None)?);
    let after = left == Some(expected(alloc, Some(change))?);
    Ok(match changed.answer {
        Ok(()) if after => Ended::Done,
        Err(StoreError::Fault) if changed.counted && (before || after) => Ended::Stopped,
        _ => Ended::Torn,
    })
}

// Makes a store in files that have nothing, with a stop, and looks at what is there afterwards: a store of nothing, or files
// in which one can be made.
fn make(rt: &impl Abort, alloc: Global, calls: (u64, u64)) -> Ended {
    let Some((made, files)) = done(rt, alloc, (&[], &[]), calls, Task::Make) else {
        return Ended::Early;
    };
    let is_there = holds_nothing(rt, alloc, &files);
    let again = done(rt, alloc, bytes_of(&files), ENDLESS, Task::Make);
    let can_be_made = matches!(again, Some((Some(_), _)));
    match made {
        Some(_) if is_there && !can_be_made => Ended::Done,
        None if is_there != can_be_made => Ended::Stopped,
        _ => Ended::Torn,
    }
}

fn holds_nothing(rt: &impl Abort, alloc: Global, files: &Files<Fuse<Memory>>) -> bool {
    match found(rt, alloc, files) {
        Some(held) => held.receipts.is_empty() && held.checkpoints.is_empty(),
        None => false,
    }
}

// Stops at each call of one file in turn as a store is made, until one is made: how many stops fell into it.
fn stops_of_making(rt: &impl Abort, alloc: Global, which: Which) -> u64 {
    let mut stopped = 0;
    for calls in 0..200u64 {
        match make(rt, alloc, calls_of(which, calls)) {
            Ended::Early => {}
            Ended::Stopped => stopped = u64::saturating_add(stopped, 1),
            Ended::Done => return stopped,
            Ended::Torn => panic!(rt; "torn at {calls}"),
        }
    }
    panic!(rt; "each making was stopped");
}

// The log takes each change first, so it is there that some stops fall into it.
fn check_stops(rt: &impl Abort, alloc: Global, change: Change) {
    let in_log = stops(rt, alloc, change, Which::Log);
    let in_database = stops(rt, alloc, change, Which::Database);
    assert!(rt; 0 < in_log);
    assert!(rt; in_database <= in_log);
}

// Stops at each call of one file in turn, until a run ends without a stop: how many stops fell into the change.
fn stops(rt: &impl Abort, alloc: Global, change: Change, which: Which) -> u64 {
    let start = filled(rt, alloc).expect(rt, "files without a stop");
    let mut stopped = 0;
    for calls in 0..200u64 {
        match run(rt, alloc, &start, change, calls_of(which, calls)) {
            Ok(Ended::Early) => {}
            Ok(Ended::Stopped) => stopped = u64::saturating_add(stopped, 1),
            Ok(Ended::Done) => return stopped,
            _ => panic!(rt; "torn or refused at {calls:?}"),
        }
    }
    panic!(rt; "each run was stopped");
}

// The tables of a store are both made, or neither is.
#[test]
fn making_stops(rt: HostRuntime) {
    let in_log = stops_of_making(&rt, rt.alloc(), Which::Log);
    let in_database = stops_of_making(&rt, rt.alloc(), Which::Database);
    assert!(rt; 0 < in_log);
    assert!(rt; in_database <= in_log);
}

#[test]
fn puts_of_receipts_stop(rt: HostRuntime) {
    check_stops(&rt, rt.alloc(), Change::PutReceipts);
}

#[test]
fn puts_of_a_checkpoint_stop(rt: HostRuntime) {
    check_stops(&rt, rt.alloc(), Change::PutCheckpoint);
}

#[test]
fn cuts_stop(rt: HostRuntime) {
    check_stops(&rt, rt.alloc(), Change::Cut);
}

#[test]
fn prunes_stop(rt: HostRuntime) {
    check_stops(&rt, rt.alloc(), Change::Prune);
}
