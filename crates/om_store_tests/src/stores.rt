use om_stable::{FuseStable, INTERVALS, MemStable, Stable, Stop, StoreError, laws};
use std::alloc::{AllocError, Global};
use std::process::Abort;

mod caller;
mod stops;
mod tables;

// The last interval.
const LAST: u32 = u32::MAX;

// A call of a store. A record put at `x` is `receipt_at(x)` or `checkpoint_at(x)`.
#[derive(Clone, Copy)]
enum Call {
    /// Puts this many receipts from this interval on.
    PutReceipts(u32, u32),
    PutCheckpoint(u32),
    Effective(u32),
    Receipts(u32, u32),
    Cut(u32),
    Prune(u32),
}

// A call, and the intervals of the records that it answers or why it is refused.
type Row = (Call, Result<&'static [u32], StoreError>);

static CUT_AND_PUT_AGAIN: [Row; 18] = [
    (Call::PutReceipts(1, 3), Ok(&[])),
    (Call::PutCheckpoint(0), Ok(&[])),
    (Call::PutCheckpoint(2), Ok(&[])),
    (Call::Effective(1), Ok(&[0])),
    (Call::Effective(2), Ok(&[2])),
    (Call::Effective(9), Ok(&[2])),
    (Call::Receipts(0, 2), Ok(&[1, 2])),
    (Call::PutReceipts(3, 2), Err(StoreError::Present)),
    (Call::PutCheckpoint(2), Err(StoreError::Present)),
    (Call::PutReceipts(9, 0), Ok(&[])),
    (Call::Receipts(0, LAST), Ok(&[1, 2, 3])),
    (Call::Effective(LAST), Ok(&[2])),
    (Call::Cut(1), Ok(&[])),
    (Call::Receipts(0, LAST), Ok(&[1])),
    (Call::Effective(LAST), Ok(&[0])),
    (Call::PutReceipts(2, 2), Ok(&[])),
    (Call::Receipts(0, LAST), Ok(&[1, 2, 3])),
    (Call::Receipts(2, 1), Ok(&[])),
];

static PRUNE_AND_PUT_LAST: [Row; 12] = [
    (Call::PutReceipts(1, 3), Ok(&[])),
    (Call::PutCheckpoint(0), Ok(&[])),
    (Call::PutCheckpoint(2), Ok(&[])),
    (Call::Prune(2), Ok(&[])),
    (Call::Receipts(0, LAST), Ok(&[3])),
    (Call::Effective(LAST), Ok(&[2])),
    (Call::Effective(1), Ok(&[])),
    (Call::PutReceipts(LAST, 1), Ok(&[])),
    (Call::PutCheckpoint(LAST), Ok(&[])),
    (Call::Receipts(LAST - 1, LAST), Ok(&[LAST])),
    (Call::Effective(LAST), Ok(&[LAST])),
    (Call::Effective(LAST - 1), Ok(&[2])),
];

// Some of three, of four, of five, of eight and of nine at once, and of the last four intervals; one of five, whose third is there.
static PUT_MANY_AT_ONCE: [Row; 13] = [
    (Call::PutReceipts(1, 3), Ok(&[])),
    (Call::PutReceipts(4, 4), Ok(&[])),
    (Call::PutReceipts(8, 5), Ok(&[])),
    (
        Call::Receipts(0, LAST),
        Ok(&[1, 2, 3, 4, 5, 6, 7, 8, 9, 10, 11, 12]),
    ),
    (Call::PutReceipts(15, 1), Ok(&[])),
    (Call::PutReceipts(13, 5), Err(StoreError::Present)),
    (Call::Receipts(11, LAST), Ok(&[12, 15])),
    (Call::Cut(12), Ok(&[])),
    (Call::PutReceipts(13, 8), Ok(&[])),
    (Call::PutReceipts(21, 9), Ok(&[])),
    (
        Call::Receipts(11, LAST),
        Ok(&[
            12, 13, 14, 15, 16, 17, 18, 19, 20, 21, 22, 23, 24, 25, 26, 27, 28, 29,
        ]),
    ),
    (Call::PutReceipts(LAST - 3, 4), Ok(&[])),
    (
        Call::Receipts(29, LAST),
        Ok(&[LAST - 3, LAST - 2, LAST - 1, LAST]),
    ),
];

// A kind of store.
#[derive(Clone, Copy)]
enum Kind {
    Memory,
    Fuse,
    Tables,
}

// Plays each list of rows at an empty store of the kind.
fn play_all(rt: &impl Abort, alloc: Global, kind: Kind) {
    for rows in [
        CUT_AND_PUT_AGAIN.as_slice(),
        PRUNE_AND_PUT_LAST.as_slice(),
        PUT_MANY_AT_ONCE.as_slice(),
    ] {
        match kind {
            Kind::Memory => play_in_memory(rt, alloc, rows),
            Kind::Fuse => play_behind_each(rt, alloc, rows),
            Kind::Tables => tables::play_in_tables(rt, alloc, rows),
        }
    }
}

fn receipt_at(x: u32) -> [u8; 5] {
    let [a, b, c, d] = x.to_le_bytes();
    [b'R', a, b, c, d]
}

fn checkpoint_at(x: u32) -> [u8; 5] {
    let [a, b, c, d] = x.to_le_bytes();
    [b'C', a, b, c, d]
}

// The receipts at `count` intervals from `first` on, as far as there are intervals.
fn receipts_from(alloc: Global, first: u32, count: u32) -> Result<Vec<Vec<u8>>, AllocError> {
    let mut recs = Vec::new(alloc);
    for k in 0..count {
        if let Some(x) = first.checked_add(k) {
            recs.push(receipt_at(x).to_vec(alloc)?)?;
        }
    }
    Ok(recs)
}

// Puts this many receipts from this interval on.
fn put_receipts<S: Stable>(
    rt: &impl Abort,
    alloc: Global,
    store: &mut S,
    first: u32,
    count: u32,
) -> Result<(), StoreError> {
    let recs = receipts_from(alloc, first, count)?;
    assert!(rt; recs.len() as u64 <= INTERVALS - u64::from(first));
    store.put_receipts(alloc, first, &recs)
}

// Adds the interval of a record. Its bytes have to be those that were put.
fn add_found(
    rt: &impl Abort,
    (x, bytes): (u32, &[u8]),
    put: [u8; 5],
    found: &mut Vec<u32>,
) -> Result<(), StoreError> {
    assert_eq!(rt; bytes, put.as_slice());
    found.push(x).map_err(AllocError::from)?;
    Ok(())
}

// Adds the interval of the effective checkpoint.
fn add_effective<S: Stable>(
    rt: &impl Abort,
    alloc: Global,
    store: &mut S,
    x: u32,
    found: &mut Vec<u32>,
) -> Result<(), StoreError> {
    match &store.effective(alloc, x)? {
        Some((c, bytes)) => add_found(rt, (*c, bytes), checkpoint_at(*c), found),
        None => Ok(()),
    }
}

// Adds the intervals of the receipts between two intervals.
fn add_receipts<S: Stable>(
    rt: &impl Abort,
    alloc: Global,
    store: &mut S,
    ends: (u32, u32),
    found: &mut Vec<u32>,
) -> Result<(), StoreError> {
    let receipts = store.receipts(alloc, ends.0, ends.1)?;
    add_all(rt, &receipts, found)
}

fn add_all(
    rt: &impl Abort,
    receipts: &[(u32, Vec<u8>)],
    found: &mut Vec<u32>,
) -> Result<(), StoreError> {
    for (x, bytes) in receipts {
        add_found(rt, (*x, bytes), receipt_at(*x), found)?;
    }
    Ok(())
}

// Makes a call, and adds the intervals that it answers.
fn add_answer<S: Stable>(
    rt: &impl Abort,
    alloc: Global,
    store: &mut S,
    call: Call,
    found: &mut Vec<u32>,
) -> Result<(), StoreError> {
    match call {
        Call::PutReceipts(first, count) => put_receipts(rt, alloc, store, first, count),
        Call::PutCheckpoint(x) => store.put_checkpoint(alloc, x, &checkpoint_at(x)),
        Call::Effective(x) => add_effective(rt, alloc, store, x, found),
        Call::Receipts(after, to) => add_receipts(rt, alloc, store, (after, to), found),
        Call::Cut(r) => store.cut(alloc, r),
        Call::Prune(c) => store.prune(alloc, c),
    }
}

// The intervals that a call answers.
fn answer<S: Stable>(
    rt: &impl Abort,
    alloc: Global,
    store: &mut S,
    call: Call,
) -> Result<Vec<u32>, StoreError> {
    let mut found = Vec::new(alloc);
    add_answer(rt, alloc, store, call, &mut found)?;
    Ok(found)
}

// At which row a Fault came, and whether a call was refused as memory ran out.
#[derive(Clone, Copy)]
struct Refused {
    fault: Option<usize>,
    memory: bool,
}

// Returns whether a call of a row was refused for a Fault or out of memory, and notes it.
fn is_refused(
    rt: &impl Abort,
    i: usize,
    got: &Result<Vec<u32>, StoreError>,
    refused: &mut Refused,
) -> bool {
    match got {
        Err(StoreError::Memory) => refused.memory = true,
        Err(StoreError::Fault) => {
            assert!(rt; refused.fault.is_none(), "row {i}");
            refused.fault = Some(i);
        }
        _ => return false,
    }
    true
}

// Makes a call of a row. One that is refused for a Fault, or out of memory where a run refuses an allocation, is made once more: it has
// left all as it was.
fn answered<S: Stable>(
    rt: &impl Abort,
    alloc: Global,
    store: &mut S,
    (i, call): (usize, Call),
    refused: &mut Refused,
) -> Result<Vec<u32>, StoreError> {
    let mut got = answer(rt, alloc, store, call);
    for _ in 0..2 {
        if !is_refused(rt, i, &got, refused) {
            break;
        }
        got = answer(rt, alloc, store, call);
    }
    got
}

fn check_row(
    rt: &impl Abort,
    i: usize,
    got: &Result<Vec<u32>, StoreError>,
    want: Result<&'static [u32], StoreError>,
) {
    let is_right = match (got, want) {
        (Ok(found), Ok(want)) => found.as_slice() == want,
        (Err(error), Err(want)) => *error == want,
        _ => false,
    };
    assert!(rt; is_right, "row {i}: {got:?}");
}

// Plays the rows, and tells at which a Fault came.
fn play<S: Stable>(rt: &impl Abort, alloc: Global, store: &mut S, rows: &[Row]) -> Refused {
    let mut refused = Refused {
        fault: None,
        memory: false,
    };
    for (i, (call, want)) in rows.iter().enumerate() {
        let got = answered(rt, alloc, store, (i, *call), &mut refused);
        check_row(rt, i, &got, *want);
    }
    refused
}

// Plays the rows at a store that does not fail.
fn play_whole<S: Stable>(rt: &impl Abort, alloc: Global, store: &mut S, rows: &[Row]) {
    let refused = play(rt, alloc, store, rows);
    assert!(rt; refused.fault.is_none() && store.failures() == 0);
}

fn play_in_memory(rt: &impl Abort, alloc: Global, rows: &[Row]) {
    let mut store = MemStable::new(alloc);
    play_whole(rt, alloc, &mut store, rows);
    drop(store);
}

#[test]
fn rows_in_memory(rt: HostRuntime) {
    play_all(&rt, rt.alloc(), Kind::Memory);
    laws::between_is_all_between();
    laws::with_all_holds_all();
    laws::limits();
}

// Plays the rows behind a fuse of so many calls.
fn play_behind(rt: &impl Abort, alloc: Global, rows: &[Row], calls: usize) {
    let mut store = FuseStable::new(MemStable::new(alloc), calls as u64);
    let refused = play(rt, alloc, &mut store, rows);
    let reached = refused.fault.is_some();
    let stopped = if refused.memory {
        refused.fault
    } else if calls < rows.len() {
        Some(calls)
    } else {
        None
    };
    assert_eq!(rt;
        (store.failures(), store.stop == Stop::Past, refused.fault),
        (u64::from(reached), reached, stopped)
    );
    drop(store);
}

fn play_behind_each(rt: &impl Abort, alloc: Global, rows: &[Row]) {
    for calls in 0..=rows.len() {
        play_behind(rt, alloc, rows, calls);
    }
}

#[test]
fn rows_behind_a_fuse(rt: HostRuntime) {
    play_all(&rt, rt.alloc(), Kind::Fuse);
}

#[test]
fn rows_in_tables(rt: HostRuntime) {
    play_all(&rt, rt.alloc(), Kind::Tables);
}
