//! Records against a plain search over a list of rows, on scripts of clusters of 2 to 16 processes.
use om_interval::{DepVec, Pid};
use om_recover::{Note, Records, Row, RowKind, Work};
use std::alloc::{AllocError, Global};
use std::ops::Range;
use std::process::Abort;
use std::test::Fail;

// The receipts of a script, for each process.
const RECEIPTS: usize = 12;

// Numbers that look random: the generator of Knuth's MMIX.
#[derive(Drop)]
struct Numbers(u64);

impl Numbers {
    fn below(&mut self, bound: usize) -> usize {
        self.0 = self
            .0
            .wrapping_mul(6_364_136_223_846_793_005)
            .wrapping_add(1_442_695_040_888_963_407);
        if bound == 0 {
            return 0;
        }
        (self.0 >> 33) as usize % bound
    }
}

// What stands at an interval of a process: a checkpoint, a log.
#[derive(Clone, Copy)]
struct AtInterval {
    stored: bool,
    logged: bool,
}

// By interval, what stands there of a process.
fn standing(alloc: Global, rows: &[Row], pid: Pid) -> Result<Vec<AtInterval>, AllocError> {
    let nothing = AtInterval {
        stored: false,
        logged: false,
    };
    let mut by_interval = vec![in alloc; nothing; top(rows, pid) as usize + 1]?;
    for row in rows {
        if row.pid == pid
            && let Some(there) = by_interval.get_mut(row.interval as usize)
        {
            match row.kind {
                RowKind::Checkpoint => there.stored = true,
                RowKind::Log => there.logged = true,
            }
        }
    }
    Ok(by_interval)
}

// By interval, whether it is stable: a checkpoint stands at it or below, and a log at each interval between.
fn stable(alloc: Global, rows: &[Row], pid: Pid) -> Result<Vec<bool>, AllocError> {
    let mut by_interval = Vec::new(alloc);
    let mut is_below = false;
    for at in &standing(alloc, rows, pid)? {
        is_below = at.stored || (at.logged && is_below);
        by_interval.push(is_below)?;
    }
    Ok(by_interval)
}

// The greatest stable interval up to a bound.
fn greatest_stable(stable: &[bool], bound: u32) -> u32 {
    for x in (0..=bound).rev() {
        if stable.get(x as usize) == Some(&true) {
            return x;
        }
    }
    0
}

fn process(p: usize) -> Option<Pid> {
    Pid::new(u32::try_from(p).ok()?)
}

fn place(state: &DepVec, pid: Pid) -> u32 {
    state.as_slice().get(pid.index()).copied().unwrap_or(0)
}

fn with_place(state: &DepVec, pid: Pid, x: u32) -> DepVec {
    let mut changed = *state;
    if pid.index() < changed.n() {
        changed.set(pid, x);
    }
    changed
}

// A process whose row at the state depends on an interval beyond the state.
fn blocked(rows: &[Row], state: &DepVec) -> Option<Pid> {
    for row in rows {
        if row.interval == place(state, row.pid) && !row.vec.leq(state) {
            return Some(row.pid);
        }
    }
    None
}

fn top(rows: &[Row], pid: Pid) -> u32 {
    let mut highest = 0;
    for row in rows {
        if row.pid == pid {
            highest = row.interval.max(highest);
        }
    }
    highest
}

// The greatest recoverable state, from the tops downwards.
fn recovered(alloc: Global, rows: &[Row], n: usize) -> Result<DepVec, Fail> {
    let mut state = DepVec::zeros(n).ok_or("a cluster")?;
    let mut stables = Vec::new(alloc);
    for p in 0..n {
        let pid = process(p).ok_or("a process")?;
        let intervals = stable(alloc, rows, pid)?;
        state = with_place(&state, pid, greatest_stable(&intervals, top(rows, pid)));
        stables.push(intervals)?;
    }
    for _ in 0..100_000 {
        let Some(pid) = blocked(rows, &state) else {
            return Ok(state);
        };
        let lower = place(&state, pid).saturating_sub(1);
        let intervals = stables.get(pid.index()).ok_or("a process")?;
        state = with_place(&state, pid, greatest_stable(intervals, lower));
    }
    Err("the search did not end".into())
}

fn greatest_checkpoint(rows: &[Row], pid: Pid, bound: u32) -> u32 {
    let mut greatest = 0;
    for row in rows {
        if row.pid == pid && row.kind == RowKind::Checkpoint && row.interval <= bound {
            greatest = row.interval.max(greatest);
        }
    }
    greatest
}

// By process, the checkpoint that is used for its place of the state.
fn used_checkpoints(rows: &[Row], state: &DepVec) -> Option<DepVec> {
    let mut checkpoints = *state;
    for p in 0..state.n() {
        let pid = process(p)?;
        let used = greatest_checkpoint(rows, pid, place(state, pid));
        checkpoints = with_place(&checkpoints, pid, used);
    }
    Some(checkpoints)
}

// The vectors of a process after it received a message from another.
fn received(
    vecs: &[DepVec],
    gots: &[DepVec],
    receiver: usize,
    sender: usize,
) -> Option<(DepVec, DepVec)> {
    let at = process(receiver)?;
    let from = process(sender)?;
    let before = vecs.get(receiver)?;
    let counts = gots.get(receiver)?;
    let tag = place(vecs.get(sender)?, from);
    let vec = with_place(before, from, place(before, from).max(tag));
    let vec = with_place(&vec, at, place(&vec, at).saturating_add(1));
    let got = with_place(counts, from, place(counts, from).saturating_add(1));
    Some((vec, got))
}

// The rows of a run of so many receipts, each a log, a checkpoint or both.
fn rows_of_a_run(
    alloc: Global,
    numbers: &mut Numbers,
    n: usize,
    receipts: usize,
) -> Result<Vec<Row>, Fail> {
    let zeros = DepVec::zeros(n).ok_or("a cluster")?;
    let mut vecs = vec![in alloc; zeros; n]?;
    let mut gots = vec![in alloc; zeros; n]?;
    let mut rows = Vec::new(alloc);
    for _ in 0..receipts {
        let receiver = numbers.below(n);
        let sender = numbers.below(n);
        let (vec, got) = received(&vecs, &gots, receiver, sender).ok_or("a process")?;
        put(&mut vecs, receiver, vec);
        put(&mut gots, receiver, got);
        let pid = process(receiver).ok_or("a process")?;
        let log = Row {
            kind: RowKind::Log,
            pid,
            interval: place(&vec, pid),
            vec,
            got,
        };
        push_records(&mut rows, &log, numbers.below(8))?;
    }
    shuffle(&mut rows, numbers);
    Ok(rows)
}

fn put(vectors: &mut [DepVec], at: usize, vector: DepVec) {
    if let Some(there) = vectors.get_mut(at) {
        *there = vector;
    }
}

fn push_records(rows: &mut Vec<Row>, log: &Row, choice: usize) -> Result<(), AllocError> {
    if choice != 0 {
        rows.push(*log)?;
    }
    if choice < 3 {
        rows.push(Row {
            kind: RowKind::Checkpoint,
            ..*log
        })?;
    }
    Ok(())
}

// Moves each row up to eight places.
fn shuffle(rows: &mut [Row], numbers: &mut Numbers) {
    for i in 0..rows.len() {
        let j = i.saturating_add(numbers.below(9));
        if j < rows.len() {
            rows.swap(i, j);
        }
    }
}

// Notes a row in the records and in the list: whether the records answer as the list has it, of which this was the state.
fn offer(
    alloc: Global,
    records: &mut Records,
    rows: &mut Vec<Row>,
    row: Row,
    state: &mut DepVec,
) -> Result<bool, Fail> {
    let was_there = rows.contains(&row);
    if !was_there {
        rows.push(row)?;
    }
    let before = *state;
    *state = recovered(alloc, rows, records.n())?;
    Ok(match records.note(alloc, row, &mut Work::new()) {
        Ok(Note::Known) => was_there,
        Ok(Note::Noted { raised }) => !was_there && raised == (before != *state),
        Err(_) => false,
    })
}

// Returns whether the records tell of a process the checkpoint that is used for its place of the state, and what it had
// received there.
fn tells_of(records: &Records, rows: &[Row], number: usize) -> Option<bool> {
    let pid = process(number)?;
    if pid.index() >= records.n() {
        return None;
    }
    let at = place(&records.recovery(), pid);
    let row = rows
        .iter()
        .find(|row| row.pid == pid && row.interval == at)?;
    let used = greatest_checkpoint(rows, pid, at);
    Some(records.effective(pid) == used && records.got(pid) == row.got)
}

fn tells_of_all(records: &Records, rows: &[Row]) -> bool {
    for p in 0..records.n() {
        if tells_of(records, rows, p) != Some(true) {
            return false;
        }
    }
    true
}

fn cut(records: &mut Records, rows: &mut Vec<Row>) {
    let state = records.recovery();
    records.cut();
    rows.retain(|row| row.interval <= place(&state, row.pid));
}

fn prune(records: &mut Records, rows: &mut Vec<Row>) -> Result<(), Fail> {
    let state = records.recovery();
    records.prune();
    let used = used_checkpoints(rows, &state).ok_or("a cluster")?;
    rows.retain(|row| place(&used, row.pid) <= row.interval);
    Ok(())
}

fn first_rows(alloc: Global, n: usize) -> Result<Vec<Row>, Fail> {
    let zeros = DepVec::zeros(n).ok_or("a cluster")?;
    let mut rows = Vec::new(alloc);
    for p in 0..n {
        rows.push(Row {
            kind: RowKind::Checkpoint,
            pid: process(p).ok_or("a process")?,
            interval: 0,
            vec: zeros,
            got: zeros,
        })?;
    }
    Ok(rows)
}

// A script twice over, with a cut or a prune now and then: after each step the state is that of the plain search, with the
// checkpoints that are used for it and what was received there.
fn assert_script(rt: &impl Abort, alloc: Global, seed: u64) -> Result<(), Fail> {
    let mut numbers = Numbers(seed);
    let n = 2 + (seed % 15) as usize;
    let script = rows_of_a_run(alloc, &mut numbers, n, RECEIPTS * n)?;
    let mut records = Records::new(alloc, n)?;
    let mut rows = first_rows(alloc, n)?;
    let mut state = DepVec::zeros(n).ok_or("a cluster")?;
    for row in script.iter().chain(&script) {
        let is_told = offer(alloc, &mut records, &mut rows, *row, &mut state)?;
        match numbers.below(12) {
            0 => cut(&mut records, &mut rows),
            1 => prune(&mut records, &mut rows)?,
            _ => {}
        }
        let is_state = records.recovery() == state && tells_of_all(&records, &rows);
        assert!(rt; is_told && is_state, "script {seed}: {row:?}");
    }
    Ok(())
}

fn assert_scripts(rt: &impl Abort, alloc: Global, seeds: Range<u64>) -> Result<(), Fail> {
    for seed in seeds {
        assert_script(rt, alloc, seed)?;
    }
    Ok(())
}

// A thousand scripts, in four tests for the time that one test is given.
#[test]
fn scripts_to_250(rt: HostRuntime) -> Result<(), Fail> {
    assert_scripts(&rt, rt.alloc(), 0..250)
}

#[test]
fn scripts_to_500(rt: HostRuntime) -> Result<(), Fail> {
    assert_scripts(&rt, rt.alloc(), 250..500)
}

#[test]
fn scripts_to_750(rt: HostRuntime) -> Result<(), Fail> {
    assert_scripts(&rt, rt.alloc(), 500..750)
}

#[test]
fn scripts_to_1_000(rt: HostRuntime) -> Result<(), Fail> {
    assert_scripts(&rt, rt.alloc(), 750..1_000)
}
