ghost use Rattle.std.specs.Prelude.{◌<◌, IfSome};
ghost use Rattle.om_manager.specs.State.{process_count};

use om_interval::{DepVec, MAX_PROCESSES, Pid, Tag};
use om_manager::{
    FailError, Gathered, JoinError, Manager, Output, OutputError, OutputNote, RecordError,
    is_last_round,
};
use om_recover::{Note, NoteError, RowKind};
use std::alloc::{AllocError, Global};
use std::fmt::Display;
use std::process::Abort;
use std::test::Fail;

const LOG: RowKind = RowKind::Log;

const CKPT: RowKind = RowKind::Checkpoint;

const NOTED: Result<Note, RecordError> = Ok(Note::Noted { raised: false });

const RAISED: Result<Note, RecordError> = Ok(Note::Noted { raised: true });

const STALE: Result<Note, RecordError> = Err(RecordError::Stale { round: 1 });

const STRANGER: Result<Note, RecordError> = Err(RecordError::Refused(NoteError::Stranger));

const HELD: Result<OutputNote, OutputError> = Ok(OutputNote::Held);

const DIFFERS: Result<OutputNote, OutputError> = Err(OutputError::Differs);

// A call of a manager with its answer, or a part of what it tells. Process, round and interval come first.
#[derive(Clone, Copy)]
enum Row<'a> {
    /// The kind stands before them; vector, counts and the answer behind.
    Note(RowKind, (u32, u32, u32), &'a [u32], &'a [u32], Result<Note, RecordError>),
    /// An output: its number, its bytes, and the answer.
    Output((u32, u32, u32), u64, &'a [u8], Result<OutputNote, OutputError>),
    Fail((u32, u32), Result<Gathered, FailError>),
    Join((u32, u32, u32), Result<Gathered, JoinError>),
    Prune,
    /// The version, the round, whether it gathers, and the recovery state.
    Front((u64, u32, bool), &'a [u32]),
    /// Of a process: round, incarnation, interval, and whether it goes back.
    Verdict(u32, (u32, u32, u32, bool)),
    /// Of a process: the number of its next output, and its released outputs with their numbers and intervals.
    Released(u32, u64, &'a [(u64, u32, &'a [u8])]),
    /// Of a process: its effective checkpoint, what receivers got, and how many outputs are released.
    Bounds(u32, u32, (&'a [u32], u64)),
    /// The starts of a process's incarnations, as far as the second.
    Starts(u32, [Option<u64>; 3]),
    /// Whether a message of a process's incarnation, sent in an interval, is an orphan.
    Orphan(u32, (u32, u32), bool),
}

// A process of the manager's cluster.
fn member(manager: &Manager, number: u32) -> Option<Pid>
    ensures { IfSome result (λ pid. pid < process_count manager.now) }
{
    let pid = Pid::new(number)?;
    if pid.index() < manager.recovery().n() {
        Some(pid)
    } else {
        None
    }
}

fn vector(numbers: &[u32]) -> Option<DepVec> {
    DepVec::from_slice(numbers)
}

// Returns whether the call for its kind notes a row with this answer, the second time where memory ran out at first.
fn notes(
    alloc: Global,
    manager: &mut Manager,
    kind: RowKind,
    (pid, round, x): (u32, u32, u32),
    (vec, got): (&[u32], &[u32]),
    answer: Result<Note, RecordError>,
) -> Option<bool> {
    let pid = Pid::new(pid)?;
    let (vec, got) = (vector(vec)?, vector(got)?);
    let row = (pid, round, x);
    let told = match noted(alloc, manager, kind, row, (&vec, &got)) {
        Err(RecordError::Refused(NoteError::Memory)) => {
            noted(alloc, manager, kind, row, (&vec, &got))
        }
        told => told,
    };
    Some(told == answer)
}

fn noted(
    alloc: Global,
    manager: &mut Manager,
    kind: RowKind,
    (pid, round, x): (Pid, u32, u32),
    (vec, got): (&DepVec, &DepVec),
) -> Result<Note, RecordError> {
    match kind {
        RowKind::Log => manager.note_logged(alloc, pid, round, x, vec, got),
        RowKind::Checkpoint => manager.note_checkpoint(alloc, pid, round, x, vec, got),
    }
}

// The answer to an output, once more where memory ran out.
fn output(
    alloc: Global,
    manager: &mut Manager,
    (pid, round, x): (Pid, u32, u32),
    seq: u64,
    bytes: &[u8],
) -> Result<OutputNote, OutputError> {
    match manager.note_output(alloc, pid, round, x, seq, bytes) {
        Err(OutputError::Memory) => manager.note_output(alloc, pid, round, x, seq, bytes),
        told => told,
    }
}

// The answer to a failure, once more where memory ran out.
fn failed(
    alloc: Global,
    manager: &mut Manager,
    pid: Pid,
    round: u32,
) -> Result<Gathered, FailError> {
    match manager.fail(alloc, pid, round) {
        Err(FailError::Memory) => manager.fail(alloc, pid, round),
        told => told,
    }
}

// The answer to a join, once more where memory ran out.
fn joined(
    alloc: Global,
    manager: &mut Manager,
    (pid, round, current): (Pid, u32, u32),
) -> Result<Gathered, JoinError> {
    match manager.join(alloc, pid, round, current) {
        Err(JoinError::Memory) => manager.join(alloc, pid, round, current),
        told => told,
    }
}

fn has_verdict(
    manager: &Manager,
    number: u32,
    (round, inc, r, back): (u32, u32, u32, bool),
) -> Option<bool> {
    let told = manager.verdict(member(manager, number)?);
    Some((told.round, told.inc, told.r, told.back) == (round, inc, r, back))
}

fn has_released(
    manager: &Manager,
    number: u32,
    next: u64,
    want: &[(u64, u32, &[u8])],
) -> Option<bool> {
    let pid = member(manager, number)?;
    let outputs = manager.released(pid);
    if manager.next_output(pid) != next || outputs.len() != want.len() {
        return Some(false);
    }
    for (output, (seq, interval, bytes)) in outputs.iter().zip(want) {
        let is_it = output.seq == *seq && output.interval == *interval;
        if !is_it || output.bytes.as_slice() != *bytes {
            return Some(false);
        }
    }
    Some(true)
}

fn has_bounds(
    manager: &Manager,
    number: u32,
    effective: u32,
    (got, released): (&[u32], u64),
) -> Option<bool> {
    let pid = member(manager, number)?;
    let bounds = manager.bounds(pid);
    let is_effective = manager.effective(pid) == effective;
    Some(is_effective && bounds.got.as_slice() == got && bounds.released == released)
}

fn has_starts(manager: &Manager, number: u32, want: [Option<u64>; 3]) -> Option<bool> {
    let pid = Pid::new(number)?;
    let starts = manager.starts();
    if starts.n() <= pid.index() {
        return None;
    }
    let told = [
        starts.start(pid, 0),
        starts.start(pid, 1),
        starts.start(pid, 2),
    ];
    Some(told == want)
}

fn is_orphan(manager: &Manager, number: u32, (inc, interval): (u32, u32)) -> Option<bool> {
    let pid = Pid::new(number)?;
    let starts = manager.starts();
    if starts.n() <= pid.index() {
        return None;
    }
    Some(starts.is_orphan(pid, Tag { inc, interval }))
}

fn has_front(manager: &Manager, front: (u64, u32, bool), recovery: &[u32]) -> bool {
    (manager.version(), manager.round(), manager.gathering()) == front
        && manager.recovery().as_slice() == recovery
}

// Returns whether the row holds: its call is made. None where it names no process or vector.
fn holds(alloc: Global, manager: &mut Manager, row: &Row) -> Option<bool> {
    match *row {
        Row::Note(kind, place, vec, got, answer) => {
            notes(alloc, manager, kind, place, (vec, got), answer)
        }
        Row::Output((pid, round, x), seq, bytes, answer) => {
            let told = output(alloc, manager, (Pid::new(pid)?, round, x), seq, bytes);
            Some(told == answer)
        }
        Row::Fail((pid, round), answer) => {
            Some(failed(alloc, manager, Pid::new(pid)?, round) == answer)
        }
        Row::Join((pid, round, current), answer) => {
            Some(joined(alloc, manager, (Pid::new(pid)?, round, current)) == answer)
        }
        Row::Prune => {
            manager.prune();
            Some(true)
        }
        Row::Front(front, recovery) => Some(has_front(manager, front, recovery)),
        Row::Verdict(pid, want) => has_verdict(manager, pid, want),
        Row::Released(pid, next, want) => has_released(manager, pid, next, want),
        Row::Bounds(pid, effective, want) => has_bounds(manager, pid, effective, want),
        Row::Starts(pid, want) => has_starts(manager, pid, want),
        Row::Orphan(pid, tag, want) => Some(is_orphan(manager, pid, tag)? == want),
    }
}

// Plays the rows with the manager of a new cluster of so many processes.
fn play(rt: &impl Abort, alloc: Global, name: &str, n: usize, rows: &[Row]) -> Result<(), Fail> {
    assert!(rt; 1 <= n && n <= MAX_PROCESSES);
    let mut manager = match Manager::new(alloc, n) {
        Ok(manager) => manager,
        Err(_) => Manager::new(alloc, n)?,
    };
    for (i, row) in rows.iter().enumerate() {
        let told = holds(alloc, &mut manager, row);
        assert_eq!(rt; told, Some(true), "row {i}: {name}");
    }
    Ok(())
}

const WAITING: Result<Gathered, FailError> = Ok(Gathered::Waiting);

const FINISHED: Result<Gathered, FailError> = Ok(Gathered::Finished);

const JOINED: Result<Gathered, JoinError> = Ok(Gathered::Waiting);

const CLOSED: Result<Gathered, JoinError> = Ok(Gathered::Finished);

// What is shown, the number of processes, and the rows.
const SCRIPTS: [(&str, usize, &[Row]); 12] = [
    (
        "a round cuts what depends on the lost process, and calls of the round before are stale",
        2,
        &[
            Row::Note(LOG, (0, 0, 1), &[1, 1], &[0, 1], NOTED),
            Row::Output((0, 0, 1), 0, b"A", HELD),
            Row::Fail((1, 0), WAITING),
            Row::Front((1, 0, true), &[0, 0]),
            Row::Join((0, 0, 1), CLOSED),
            Row::Front((2, 1, false), &[0, 0]),
            Row::Released(0, 0, &[]),
            Row::Verdict(0, (1, 1, 0, true)),
            Row::Verdict(1, (1, 1, 0, true)),
            Row::Starts(0, [Some(0), Some(1), None]),
            Row::Orphan(0, (0, 1), true),
            Row::Orphan(0, (0, 0), false),
            Row::Orphan(0, (1, 1), false),
            Row::Note(LOG, (0, 0, 1), &[1, 1], &[0, 1], STALE),
            Row::Note(CKPT, (0, 0, 1), &[1, 1], &[0, 1], STALE),
            Row::Output((0, 0, 1), 0, b"A", Err(OutputError::Stale { round: 1 })),
            Row::Fail((0, 0), Err(FailError::Stale { round: 1 })),
            Row::Join((0, 0, 1), Err(JoinError::Stale { round: 1 })),
            Row::Join((0, 1, 0), Err(JoinError::NoRound)),
            Row::Front((2, 1, false), &[0, 0]),
        ],
    ),
    (
        "strangers are refused in any round",
        1,
        &[
            Row::Note(LOG, (1, 7, 1), &[0, 1], &[0, 0], STRANGER),
            Row::Note(CKPT, (1, 7, 1), &[0, 1], &[0, 0], STRANGER),
            Row::Output((1, 7, 1), 0, b"A", Err(OutputError::Stranger)),
            Row::Fail((1, 7), Err(FailError::Stranger)),
            Row::Join((1, 7, 1), Err(JoinError::Stranger)),
            Row::Front((0, 0, false), &[0]),
        ],
    ),
    (
        "one process finishes a round by its failure",
        1,
        &[
            Row::Verdict(0, (0, 0, 0, false)),
            Row::Fail((0, 0), FINISHED),
            Row::Front((1, 1, false), &[0]),
            Row::Verdict(0, (1, 1, 0, true)),
        ],
    ),
    (
        "outputs are released as the state rises",
        1,
        &[
            Row::Output((0, 0, 2), 0, b"A", HELD),
            Row::Note(LOG, (0, 0, 1), &[1], &[1], RAISED),
            Row::Released(0, 1, &[]),
            Row::Note(LOG, (0, 0, 2), &[2], &[2], RAISED),
            Row::Released(0, 1, &[(0, 2, b"A")]),
            Row::Output((0, 0, 2), 0, b"A", Ok(OutputNote::Known)),
            Row::Output((0, 0, 2), 2, b"A", Err(OutputError::Gap(1))),
            Row::Front((2, 0, false), &[2]),
        ],
    ),
    (
        "outputs are held beyond the state alone",
        1,
        &[
            Row::Note(LOG, (0, 0, 1), &[1], &[1], RAISED),
            Row::Output((0, 0, 1), 0, b"A", Ok(OutputNote::Released)),
            Row::Output((0, 0, 2), 1, b"B", HELD),
            Row::Released(0, 2, &[(0, 1, b"A")]),
            Row::Bounds(0, 0, (&[1], 1)),
            Row::Fail((0, 0), FINISHED),
            Row::Released(0, 1, &[(0, 1, b"A")]),
        ],
    ),
    (
        "other outputs of a number are refused",
        1,
        &[
            Row::Output((0, 0, 2), 0, b"A", HELD),
            Row::Output((0, 0, 2), 0, b"B", DIFFERS),
            Row::Output((0, 0, 1), 0, b"A", DIFFERS),
            Row::Output((0, 0, 1), 1, b"B", DIFFERS),
            Row::Output((0, 0, 2), 1, b"B", HELD),
            Row::Released(0, 2, &[]),
        ],
    ),
    (
        "a survivor at the state goes on",
        2,
        &[
            Row::Note(LOG, (0, 0, 1), &[1, 0], &[1, 0], RAISED),
            Row::Fail((1, 0), WAITING),
            Row::Join((0, 0, 1), CLOSED),
            Row::Front((3, 1, false), &[1, 0]),
            Row::Verdict(0, (1, 0, 1, false)),
            Row::Verdict(1, (1, 1, 0, true)),
            Row::Starts(0, [Some(0), None, None]),
        ],
    ),
    (
        "a failure after a join counts",
        3,
        &[
            Row::Fail((2, 0), WAITING),
            Row::Join((0, 0, 0), JOINED),
            Row::Join((0, 0, 0), Err(JoinError::Joined)),
            Row::Fail((0, 0), WAITING),
            Row::Fail((0, 0), WAITING),
            Row::Join((0, 0, 0), Err(JoinError::Joined)),
            Row::Join((1, 0, 0), CLOSED),
            Row::Verdict(0, (1, 1, 0, true)),
            Row::Verdict(1, (1, 0, 0, false)),
        ],
    ),
    (
        "two failures are one round",
        3,
        &[
            Row::Fail((0, 0), WAITING),
            Row::Fail((1, 0), WAITING),
            Row::Front((1, 0, true), &[0, 0, 0]),
            Row::Join((2, 0, 0), CLOSED),
            Row::Front((2, 1, false), &[0, 0, 0]),
            Row::Verdict(1, (1, 1, 0, true)),
            Row::Verdict(2, (1, 0, 0, false)),
        ],
    ),
    (
        "pruned rows are not needed later",
        1,
        &[
            Row::Note(LOG, (0, 0, 1), &[1], &[1], RAISED),
            Row::Note(CKPT, (0, 0, 1), &[1], &[1], NOTED),
            Row::Prune,
            Row::Note(LOG, (0, 0, 2), &[2], &[2], RAISED),
            Row::Bounds(0, 1, (&[2], 0)),
            Row::Fail((0, 0), FINISHED),
            Row::Note(CKPT, (0, 1, 3), &[3], &[3], RAISED),
            Row::Prune,
            Row::Note(LOG, (0, 1, 4), &[4], &[4], RAISED),
            Row::Front((5, 1, false), &[4]),
            Row::Bounds(0, 3, (&[4], 0)),
        ],
    ),
    (
        "bounds count what receivers got",
        2,
        &[
            Row::Note(LOG, (1, 0, 1), &[0, 1], &[1, 0], RAISED),
            Row::Note(LOG, (1, 0, 2), &[9, 2], &[2, 0], NOTED),
            Row::Bounds(0, 0, (&[0, 1], 0)),
            Row::Bounds(1, 0, (&[0, 0], 0)),
        ],
    ),
    (
        "the largest cluster gathers",
        MAX_PROCESSES,
        &[
            Row::Fail((15, 0), WAITING),
            Row::Join((0, 0, 0), JOINED),
            Row::Join((1, 0, 0), JOINED),
            Row::Join((2, 0, 0), JOINED),
            Row::Join((3, 0, 0), JOINED),
            Row::Join((4, 0, 0), JOINED),
            Row::Join((5, 0, 0), JOINED),
            Row::Join((6, 0, 0), JOINED),
            Row::Join((7, 0, 0), JOINED),
            Row::Join((8, 0, 0), JOINED),
            Row::Join((9, 0, 0), JOINED),
            Row::Join((10, 0, 0), JOINED),
            Row::Join((11, 0, 0), JOINED),
            Row::Join((12, 0, 0), JOINED),
            Row::Join((13, 0, 0), JOINED),
            Row::Join((14, 0, 1), CLOSED),
            Row::Front((2, 1, false), &[0; MAX_PROCESSES]),
            Row::Verdict(13, (1, 0, 0, false)),
            Row::Verdict(14, (1, 1, 0, true)),
            Row::Verdict(15, (1, 1, 0, true)),
        ],
    ),
];

#[test]
fn scripts_have_their_answers(rt: HostRuntime) -> Result<(), Fail> {
    for (name, n, rows) in &SCRIPTS {
        play(&rt, rt.alloc(), name, *n, rows)?;
    }
    Ok(())
}

fn has_text<E: Display>(alloc: Global, error: &E, text: &str) -> Result<bool, AllocError> {
    Ok(error.to_string(alloc)?.as_str() == text)
}

#[test]
fn refusals_are_told(rt: HostRuntime) -> Result<(), Fail> {
    let heap = rt.alloc();
    let stale = RecordError::Stale { round: 7 };
    let refused = RecordError::Refused(NoteError::Differs);
    let are_told = [
        has_text(heap, &stale, "the manager is in round 7")?,
        has_text(
            heap,
            &refused,
            "a record of this interval has other vectors",
        )?,
        has_text(heap, &OutputError::Gap(3), "the next output is 3")?,
        has_text(heap, &FailError::Spent, "there is no further round")?,
        has_text(heap, &JoinError::NoRound, "no gathering is open")?,
    ];
    assert_eq!(rt; are_told, [true; 5]);
    Ok(())
}

// The numbers are of 32 bits (2^32 - 1 is the last).
#[test]
fn the_last_round_is_known(rt: HostRuntime) {
    assert!(rt; !is_last_round(0));
    assert!(rt; !is_last_round(4_294_967_294));
    assert!(rt; is_last_round(4_294_967_295));
}

// Three outputs of each interval, of which each is held until its interval is noted.
const OUTPUTS: u64 = 300;

fn interval_of(seq: u64) -> u32 {
    u32::try_from(seq / 3).unwrap_or(0).wrapping_add(1)
}

// Returns whether so many outputs are released, in order, with their numbers, intervals and bytes.
fn are_released(released: &[Output], count: u64) -> bool {
    if released.len() as u64 != count {
        return false;
    }
    for (output, seq) in released.iter().zip(0..count) {
        let is_it = output.seq == seq && output.interval == interval_of(seq);
        if !is_it || output.bytes.as_slice() != seq.to_le_bytes().as_slice() {
            return false;
        }
    }
    true
}

// Notes the log of an interval of the one process, and tells whether that released the outputs up to there.
fn releases(alloc: Global, manager: &mut Manager, x: u32) -> Option<bool> {
    let noted = notes(alloc, manager, LOG, (0, 0, x), (&[x], &[x]), RAISED)?;
    let pid = member(manager, 0)?;
    Some(noted && are_released(manager.released(pid), u64::from(x) * 3))
}

#[test]
fn hundreds_of_outputs_are_released_in_order(rt: HostRuntime) -> Result<(), Fail> {
    let mut manager = match Manager::new(rt.alloc(), 1) {
        Ok(manager) => manager,
        Err(_) => Manager::new(rt.alloc(), 1)?,
    };
    for seq in 0..OUTPUTS {
        let place = (Pid::at(0), 0, interval_of(seq));
        let told = output(rt.alloc(), &mut manager, place, seq, &seq.to_le_bytes());
        assert_eq!(&rt; told, HELD, "{seq}");
    }
    for x in 1..=100 {
        let told = releases(rt.alloc(), &mut manager, x);
        assert_eq!(&rt; told, Some(true), "{x}");
    }
    Ok(())
}
