//! Long chains that never close. A search that remembered no failed climb would read them at each note, which takes minutes; a
//! test has one.
use om_interval::{DepVec, MAX_PROCESSES, Pid};
use om_recover::{Records, Row, RowKind, Work};
use std::alloc::Global;
use std::process::Abort;
use std::test::Fail;

fn with_place(vector: &DepVec, p: u32, x: u32) -> Option<DepVec> {
    let pid = Pid::new(p)?;
    let mut changed = *vector;
    if pid.index() < changed.n() {
        changed.set(pid, x);
    }
    Some(changed)
}

// A row of an interval of a process of `n`, which depends on others.
fn row(kind: RowKind, n: usize, p: u32, x: u32, needs: &[(u32, u32)]) -> Option<Row> {
    let zeros = DepVec::zeros(n)?;
    let mut vec = zeros;
    for (q, y) in needs {
        vec = with_place(&vec, *q, *y)?;
    }
    Some(Row {
        kind,
        pid: Pid::new(p)?,
        interval: x,
        vec: with_place(&vec, p, x)?,
        got: zeros,
    })
}

fn log(n: usize, p: u32, x: u32, needs: &[(u32, u32)]) -> Option<Row> {
    row(RowKind::Log, n, p, x, needs)
}

fn push(rows: &mut Vec<Row>, row: Option<Row>) -> Result<(), Fail> {
    rows.push(row.ok_or("a row")?)?;
    Ok(())
}

// Two processes that need each other's next interval.
fn push_chain(rows: &mut Vec<Row>, n: usize, size: u32) -> Result<(), Fail> {
    for k in 1..size {
        push(rows, log(n, 0, k, &[(1, k)]))?;
        push(rows, log(n, 1, k, &[(0, k.saturating_add(1))]))?;
    }
    Ok(())
}

// A third process goes on alone beside the chain.
fn steps(alloc: Global, size: u32) -> Result<Vec<Row>, Fail> {
    let mut rows = Vec::new(alloc);
    for k in 1..size {
        push(&mut rows, log(3, 0, k, &[(1, k)]))?;
        push(&mut rows, log(3, 1, k, &[(0, k.saturating_add(1))]))?;
        push(&mut rows, log(3, 2, k, &[]))?;
    }
    Ok(rows)
}

// The missing end of the chain moves on, and a fifth process goes on alone.
fn roots(alloc: Global, size: u32) -> Result<Vec<Row>, Fail> {
    let mut rows = Vec::new(alloc);
    push_chain(&mut rows, 5, size)?;
    let end = [(1, size.saturating_sub(1)), (2, 1)];
    push(&mut rows, log(5, 0, size, &end))?;
    for i in 1..size {
        let even = i.saturating_mul(2);
        push(&mut rows, log(5, 2, i, &[(3, i)]))?;
        push(&mut rows, log(5, 4, even.saturating_sub(1), &[]))?;
        push(&mut rows, log(5, 3, i, &[(2, i.saturating_add(1))]))?;
        push(&mut rows, log(5, 4, even, &[]))?;
    }
    Ok(rows)
}

// Each note fills a gap of a far process, downwards, while another goes on alone.
fn gaps(alloc: Global, size: u32) -> Result<Vec<Row>, Fail> {
    let mut rows = Vec::new(alloc);
    let far = (3, 1_000_000);
    push_chain(&mut rows, 4, size)?;
    let end = [(1, size.saturating_sub(1)), far];
    push(&mut rows, log(4, 0, size, &end))?;
    for i in 1..size {
        let gap = size.saturating_sub(i).saturating_mul(3);
        push(&mut rows, row(RowKind::Checkpoint, 4, 2, gap, &[far]))?;
        push(&mut rows, log(4, 3, i, &[]))?;
    }
    Ok(rows)
}

// The chain passes through the least stable interval of a third process, which falls at each note, while another goes on
// alone.
fn falls(alloc: Global, size: u32) -> Result<Vec<Row>, Fail> {
    let mut rows = Vec::new(alloc);
    for k in 1..size {
        push(&mut rows, log(5, 0, k, &[(1, k), (2, 1)]))?;
        push(&mut rows, log(5, 1, k, &[(0, k.saturating_add(1))]))?;
    }
    let end = [(1, size.saturating_sub(1)), (2, 1), (4, 1)];
    push(&mut rows, log(5, 0, size, &end))?;
    for i in 1..size {
        let low = size.saturating_mul(2).saturating_sub(i);
        push(
            &mut rows,
            row(RowKind::Checkpoint, 5, 2, low, &[(4, 1_000_000)]),
        )?;
        push(&mut rows, log(5, 3, i, &[]))?;
    }
    Ok(rows)
}

// Notes the rows: the state is then that of the process that went on alone.
fn assert_state(rt: &impl Abort, alloc: Global, rows: &[Row], state: &[u32]) -> Result<(), Fail> {
    assert!(rt; 1 <= state.len() && state.len() <= MAX_PROCESSES);
    let mut records = Records::new(alloc, state.len())?;
    for row in rows {
        let told = records.note(alloc, *row, &mut Work::new());
        assert!(rt; told.is_ok(), "{row:?}");
    }
    assert_eq!(rt; records.recovery().as_slice(), state);
    Ok(())
}

#[test]
fn notes_beside_a_chain(rt: HostRuntime) -> Result<(), Fail> {
    let rows = steps(rt.alloc(), 40_000)?;
    assert_state(&rt, rt.alloc(), &rows, &[0, 0, 39_999])
}

#[test]
fn notes_that_move_a_chains_end(rt: HostRuntime) -> Result<(), Fail> {
    let rows = roots(rt.alloc(), 20_000)?;
    assert_state(&rt, rt.alloc(), &rows, &[0, 0, 0, 0, 39_998])
}

#[test]
fn notes_that_fill_gaps(rt: HostRuntime) -> Result<(), Fail> {
    let rows = gaps(rt.alloc(), 40_000)?;
    assert_state(&rt, rt.alloc(), &rows, &[0, 0, 0, 39_999])
}

#[test]
fn notes_below_what_a_chain_passes_through(rt: HostRuntime) -> Result<(), Fail> {
    let rows = falls(rt.alloc(), 40_000)?;
    assert_state(&rt, rt.alloc(), &rows, &[0, 0, 0, 39_999, 0])
}
