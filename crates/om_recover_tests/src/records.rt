use om_interval::{DepVec, MAX_PROCESSES, Pid};
use om_recover::{Note, NoteError, Records, Row, RowKind, Work, laws};
use std::alloc::Global;
use std::process::Abort;
use std::test::Fail;

const LOG: RowKind = RowKind::Log;

const CKPT: RowKind = RowKind::Checkpoint;

const NOTED: Result<Note, NoteError> = Ok(Note::Noted { raised: false });

const RAISED: Result<Note, NoteError> = Ok(Note::Noted { raised: true });

const KNOWN: Result<Note, NoteError> = Ok(Note::Known);

const STRANGER: Result<Note, NoteError> = Err(NoteError::Stranger);

const BAD_VECTOR: Result<Note, NoteError> = Err(NoteError::BadVector);

const DIFFERS: Result<Note, NoteError> = Err(NoteError::Differs);

const AFTER_1: Result<Note, NoteError> = Err(NoteError::Disorder(1));

const BEFORE_4: Result<Note, NoteError> = Err(NoteError::Disorder(4));

// A call of records, and what they tell then.
#[derive(Clone, Copy)]
enum Step<'a> {
    /// A note by the call for its kind: kind, process and interval; vector and counts; the answer and the recovery state.
    Note((RowKind, u32, u32), (&'a [u32], &'a [u32]), Result<Note, NoteError>, &'a [u32]),
    /// A note by the call for rows of either kind.
    Offer((RowKind, u32, u32), (&'a [u32], &'a [u32]), Result<Note, NoteError>, &'a [u32]),
    /// Of a process: its effective checkpoint, and what it had got.
    Used(u32, u32, &'a [u32]),
    /// The recovery state.
    State(&'a [u32]),
    Cut,
    Prune,
}

fn vector(numbers: &[u32]) -> Option<DepVec> {
    DepVec::from_slice(numbers)
}

// Notes a row by the call for its kind, or by the one for both, and once more where memory ran out and the recovery state is as it
// was. None where the row names no process or vector, and where the state is another.
fn noted(
    alloc: Global,
    records: &mut Records,
    row: (RowKind, u32, u32),
    lists: (&[u32], &[u32]),
    offers: bool,
) -> Option<Result<Note, NoteError>> {
    let before = records.recovery();
    let told = noted_once(alloc, records, row, lists, offers)?;
    if told != Err(NoteError::Memory) {
        return Some(told);
    }
    if records.recovery() != before {
        return None;
    }
    noted_once(alloc, records, row, lists, offers)
}

fn noted_once(
    alloc: Global,
    records: &mut Records,
    (kind, pid, interval): (RowKind, u32, u32),
    (vec, got): (&[u32], &[u32]),
    offers: bool,
) -> Option<Result<Note, NoteError>> {
    let mut work = Work::new();
    let pid = Pid::new(pid)?;
    let (vec, got) = (vector(vec)?, vector(got)?);
    if offers {
        let row = Row {
            kind,
            pid,
            interval,
            vec,
            got,
        };
        return Some(records.note(alloc, row, &mut work));
    }
    Some(match kind {
        LOG => records.note_logged(alloc, pid, interval, &vec, &got, &mut work),
        CKPT => records.note_checkpoint(alloc, pid, interval, &vec, &got, &mut work),
    })
}

fn has_used(records: &Records, number: u32, effective: u32, got: &[u32]) -> Option<bool> {
    let pid = Pid::new(number)?;
    if records.n() <= pid.index() {
        return None;
    }
    Some(
        records.effective(pid) == effective
            && records.got(pid).as_slice() == got
            && has_got_from_each(records, pid, got),
    )
}

// The same counts, read one at a time.
fn has_got_from_each(records: &Records, pid: Pid, got: &[u32]) -> bool {
    if records.n() <= pid.index() || records.n() != got.len() {
        return false;
    }
    for q in 0..got.len() {
        if records.got_from(pid, Pid::at(q)) != got[q] {
            return false;
        }
    }
    true
}

// Returns whether the step holds: its call is made. None where it names no process or vector.
fn holds(alloc: Global, records: &mut Records, step: &Step) -> Option<bool> {
    match *step {
        Step::Note(row, (vec, got), answer, state) => {
            let told = noted(alloc, records, row, (vec, got), false)?;
            Some(told == answer && records.recovery().as_slice() == state)
        }
        Step::Offer(row, (vec, got), answer, state) => {
            let told = noted(alloc, records, row, (vec, got), true)?;
            Some(told == answer && records.recovery().as_slice() == state)
        }
        Step::State(state) => Some(records.recovery().as_slice() == state),
        Step::Used(pid, effective, got) => has_used(records, pid, effective, got),
        Step::Cut => {
            records.cut();
            Some(true)
        }
        Step::Prune => {
            records.prune();
            Some(true)
        }
    }
}

// Plays the steps with the records of so many processes.
fn play(rt: &impl Abort, alloc: Global, n: usize, steps: &[Step]) -> Result<(), Fail> {
    assert!(rt; 1 <= n && n <= MAX_PROCESSES);
    let mut records = match Records::new(alloc, n) {
        Ok(records) => records,
        Err(_) => Records::new(alloc, n)?,
    };
    assert_eq!(rt; records.n(), n);
    for (i, step) in steps.iter().enumerate() {
        let told = holds(alloc, &mut records, step);
        assert_eq!(rt; told, Some(true), "step {i} of {n} processes");
    }
    Ok(())
}

// The answers of a cluster of two processes, one row of each kind of answer but out of memory.
#[test]
fn answers_and_recovery_states(rt: HostRuntime) -> Result<(), Fail> {
    let steps = [
        Step::State(&[0, 0]),
        Step::Note((LOG, 0, 1), (&[1, 1], &[0, 1]), NOTED, &[0, 0]),
        Step::Note((LOG, 0, 2), (&[2, 0], &[0, 2]), AFTER_1, &[0, 0]),
        Step::Note((LOG, 0, 2), (&[2, 1], &[0, 0]), AFTER_1, &[0, 0]),
        Step::Note((LOG, 0, 1), (&[1, 1], &[0, 1]), KNOWN, &[0, 0]),
        Step::Note((LOG, 0, 1), (&[1, 0], &[0, 1]), DIFFERS, &[0, 0]),
        Step::Note((CKPT, 0, 1), (&[1, 1], &[1, 0]), DIFFERS, &[0, 0]),
        Step::Note((LOG, 0, 3), (&[2, 0], &[0, 2]), BAD_VECTOR, &[0, 0]),
        Step::Note((LOG, 0, 0), (&[0, 0], &[0, 0]), BAD_VECTOR, &[0, 0]),
        Step::Note((LOG, 2, 1), (&[0, 0], &[0, 0]), STRANGER, &[0, 0]),
        Step::Note((LOG, 1, 1), (&[0, 1], &[1, 0]), RAISED, &[1, 1]),
        Step::Note((CKPT, 1, 4), (&[3, 4], &[4, 0]), NOTED, &[1, 1]),
        Step::Note((LOG, 1, 3), (&[4, 3], &[3, 0]), BEFORE_4, &[1, 1]),
        Step::Note((LOG, 1, 3), (&[3, 3], &[5, 0]), BEFORE_4, &[1, 1]),
    ];
    play(&rt, rt.alloc(), 2, &steps)
}

// Sixteen processes are a cluster, and the last of them is a process of it.
#[test]
fn sixteen_processes_are_recovered(rt: HostRuntime) -> Result<(), Fail> {
    let last = [0, 0, 0, 0, 0, 0, 0, 0, 0, 0, 0, 0, 0, 0, 0, 1];
    let last = last.as_slice();
    let steps = [
        Step::Note((LOG, 15, 1), (last, &[0; 16]), RAISED, last),
        Step::Note((LOG, 0, 1), (&[1; 15], &[0; 16]), BAD_VECTOR, last),
        Step::Note((LOG, 0, 1), (&[1; 16], &[0; 15]), BAD_VECTOR, last),
    ];
    play(&rt, rt.alloc(), 16, &steps)
}

// A chain of needs over three processes closes with its last note. After a cut and a prune the same notes are known
// where their rows were kept, and noted anew where they went.
#[test]
fn a_chain_is_cut_and_pruned(rt: HostRuntime) -> Result<(), Fail> {
    let none = [0, 0, 0].as_slice();
    let steps = [
        Step::Note((LOG, 0, 1), (&[1, 2, 0], none), NOTED, none),
        Step::Note((LOG, 1, 1), (&[0, 1, 1], none), NOTED, none),
        Step::Note((LOG, 1, 2), (&[0, 2, 1], none), NOTED, none),
        Step::Note((LOG, 2, 1), (&[1, 0, 1], none), RAISED, &[1, 2, 1]),
        Step::Note((LOG, 1, 3), (&[0, 3, 1], none), RAISED, &[1, 3, 1]),
        Step::Note((LOG, 1, 5), (&[0, 5, 1], none), NOTED, &[1, 3, 1]),
        Step::Note((CKPT, 1, 2), (&[0, 2, 1], none), NOTED, &[1, 3, 1]),
        Step::Used(0, 0, none),
        Step::Used(1, 2, none),
        Step::Used(2, 0, none),
        Step::Cut,
        Step::Prune,
        Step::State(&[1, 3, 1]),
        Step::Note((LOG, 0, 1), (&[1, 2, 0], none), KNOWN, &[1, 3, 1]),
        Step::Note((LOG, 1, 1), (&[0, 1, 1], none), NOTED, &[1, 3, 1]),
        Step::Note((LOG, 1, 2), (&[0, 2, 1], none), KNOWN, &[1, 3, 1]),
        Step::Note((LOG, 2, 1), (&[1, 0, 1], none), KNOWN, &[1, 3, 1]),
        Step::Note((LOG, 1, 3), (&[0, 3, 1], none), KNOWN, &[1, 3, 1]),
        Step::Note((LOG, 1, 5), (&[0, 5, 1], none), NOTED, &[1, 3, 1]),
        Step::Note((CKPT, 1, 2), (&[0, 2, 1], none), KNOWN, &[1, 3, 1]),
    ];
    play(&rt, rt.alloc(), 3, &steps)
}

// What the rows that the recovery state uses had got, and which checkpoints it uses.
#[test]
fn checkpoints_and_counts_of_the_state(rt: HostRuntime) -> Result<(), Fail> {
    let steps = [
        Step::Note((LOG, 0, 1), (&[1, 0], &[0, 1]), RAISED, &[1, 0]),
        Step::Used(0, 0, &[0, 1]),
        Step::Note((CKPT, 0, 2), (&[2, 0], &[0, 2]), RAISED, &[2, 0]),
        Step::Used(0, 2, &[0, 2]),
        Step::Note((LOG, 0, 3), (&[3, 0], &[1, 2]), RAISED, &[3, 0]),
        Step::Used(0, 2, &[1, 2]),
        Step::Note((CKPT, 0, 5), (&[5, 0], &[1, 4]), RAISED, &[5, 0]),
        Step::Used(0, 5, &[1, 4]),
        Step::Note((CKPT, 0, 9), (&[9, 4], &[1, 7]), NOTED, &[5, 0]),
        Step::Used(0, 5, &[1, 4]),
        Step::Prune,
        Step::Used(0, 5, &[1, 4]),
        Step::Note((LOG, 1, 4), (&[0, 4], &[0, 0]), NOTED, &[5, 0]),
        Step::Offer((CKPT, 1, 4), (&[0, 4], &[0, 0]), RAISED, &[9, 4]),
    ];
    play(&rt, rt.alloc(), 2, &steps)
}

#[test]
fn laws_are_called(_rt: HostRuntime) {
    laws::maximum_is_recoverable();
    laws::greatest_is_unique();
    laws::recoverable_has_rows();
    laws::cut_keeps_the_greatest();
    laws::prune_keeps_the_greatest();
    laws::later_offers_do_not_tell_a_prune();
}
