//! Records are looked for and read.
ghost use Rattle.std.specs.Prelude.{◌≡◌, ◌+◌, ◌≤◌, ℕ, List, length, map, [], false, Option, Some, None, IfOk, IfSome, IfNone};
ghost use Rattle.std.specs.Bool.{OnTrue, OnFalse};
ghost use Rattle.std.specs.FinMap as finite;
ghost use Rattle.om_tables.specs.steps.Halfway.{shown};
ghost use Rattle.om_tables.specs.steps.Statements.{Asks, Told, ShowsAny, ShowsEffective, shown_entry, IsIdle};
ghost use Rattle.om_stable.specs.Content.{Records, IsFree, IsTaken, IsEffective, between, rows_of};
ghost use Rattle.om_stable.specs.declared.stable.TheConstants.{INTERVALS};
ghost use Rattle.sqlite.specs.Held.{state};

use crate::refusal::{Refusal, query_all, read};
use sqlite::{Alter, Connection, Row, params};
use std::alloc::Global;

// Returns a row, where one of the intervals from `first` to `last` has a receipt.
fn any_receipt_rows<S: Alter>(
    conn: &mut Connection<S>,
    first: u32,
    last: u32,
) -> Result<Vec<Row>, Refusal>
    requires idle { IsIdle (state S.Store conn.old) }
    ensures idle { IsIdle (state S.Store conn.new) }
    ensures found { Told (state S.Store conn.old) (state S.Store conn.new)
        (λ c. IfOk result (λ rows. ShowsAny c.receipts first last rows.items)) }
    ensures asks { Asks (state S.Store conn.old) (state S.Store conn.new) }
{
    query_all(
        conn,
        "SELECT x FROM receipts WHERE x >= ?1 AND x <= ?2 LIMIT 1",
        params![first, last],
    )
}

// Returns a row, where one of the intervals from `first` to `last` has a checkpoint.
fn any_checkpoint_rows<S: Alter>(
    conn: &mut Connection<S>,
    first: u32,
    last: u32,
) -> Result<Vec<Row>, Refusal>
    requires idle { IsIdle (state S.Store conn.old) }
    ensures idle { IsIdle (state S.Store conn.new) }
    ensures found { Told (state S.Store conn.old) (state S.Store conn.new)
        (λ c. IfOk result (λ rows. ShowsAny c.checkpoints first last rows.items)) }
    ensures asks { Asks (state S.Store conn.old) (state S.Store conn.new) }
{
    query_all(
        conn,
        "SELECT x FROM checkpoints WHERE x >= ?1 AND x <= ?2 LIMIT 1",
        params![first, last],
    )
}

// Returns whether one of the `count` intervals from `first` on has a receipt.
pub(crate) fn has_any_receipt<S: Alter>(
    conn: &mut Connection<S>,
    first: u32,
    count: usize,
) -> Result<bool, Refusal>
    requires fits { first + count ≤ INTERVALS }
    requires idle { IsIdle (state S.Store conn.old) }
    ensures idle { IsIdle (state S.Store conn.new) }
    ensures taken { Told (state S.Store conn.old) (state S.Store conn.new)
        (λ c. IfOk result (λ r. OnTrue r (IsTaken c.receipts first count))) }
    ensures free { Told (state S.Store conn.old) (state S.Store conn.new)
        (λ c. IfOk result (λ r. OnFalse r (IsFree c.receipts first count))) }
    ensures asks { Asks (state S.Store conn.old) (state S.Store conn.new) }
{
    if count == 0 {
        return Ok(false);
    }
    let last = first + (count - 1) as u32;
    let rows = any_receipt_rows(conn, first, last)?;
    Ok(!rows.is_empty())
}

// Returns whether `x` has a checkpoint.
pub(crate) fn has_checkpoint<S: Alter>(conn: &mut Connection<S>, x: u32) -> Result<bool, Refusal>
    requires idle { IsIdle (state S.Store conn.old) }
    ensures idle { IsIdle (state S.Store conn.new) }
    ensures taken { Told (state S.Store conn.old) (state S.Store conn.new)
        (λ c. IfOk result (λ r. OnTrue r (IsTaken c.checkpoints x 1))) }
    ensures free { Told (state S.Store conn.old) (state S.Store conn.new)
        (λ c. IfOk result (λ r. OnFalse r (IsFree c.checkpoints x 1))) }
    ensures asks { Asks (state S.Store conn.old) (state S.Store conn.new) }
{
    let rows = any_checkpoint_rows(conn, x, x)?;
    Ok(!rows.is_empty())
}

// Reads the interval and the bytes that a row shows.
fn record_in(row: &Row) -> Result<(u32, Vec<u8>), Refusal>
    ensures { IfOk result (λ found. (found.0, found.1.items) ≡ shown_entry row.now) }
{
    Ok((read(row, 0)?, read(row, 1)?))
}

fn records_in(alloc: Global, rows: &[Row]) -> Result<Vec<(u32, Vec<u8>)>, Refusal>
    ensures { IfOk result (λ found. rows_of found.items ≡ map shown_entry rows.now) }
{
    let mut found = Vec::with_capacity(alloc, rows.len())?;
    for row in rows {
        found.push(record_in(row)?)?;
    }
    Ok(found)
}

// Returns the receipts above `after` and at or below `to`, as rows.
fn receipt_rows<S: Alter>(
    conn: &mut Connection<S>,
    after: u32,
    to: u32,
) -> Result<Vec<Row>, Refusal>
    requires idle { IsIdle (state S.Store conn.old) }
    ensures idle { IsIdle (state S.Store conn.new) }
    ensures found { Told (state S.Store conn.old) (state S.Store conn.new)
        (λ c. IfOk result (λ rows. rows.items ≡ map shown (between c.receipts after to))) }
    ensures asks { Asks (state S.Store conn.old) (state S.Store conn.new) }
{
    query_all(
        conn,
        "SELECT x, body FROM receipts WHERE x > ?1 AND x <= ?2 ORDER BY x",
        params![after, to],
    )
}

// Returns the receipts above `after` and at or below `to`.
pub(crate) fn receipts<S: Alter>(
    conn: &mut Connection<S>,
    alloc: Global,
    after: u32,
    to: u32,
) -> Result<Vec<(u32, Vec<u8>)>, Refusal>
    requires idle { IsIdle (state S.Store conn.old) }
    ensures idle { IsIdle (state S.Store conn.new) }
    ensures found { Told (state S.Store conn.old) (state S.Store conn.new)
        (λ c. IfOk result (λ found. rows_of found.items ≡ between c.receipts after to)) }
    ensures asks { Asks (state S.Store conn.old) (state S.Store conn.new) }
{
    let rows = receipt_rows(conn, after, to)?;
    records_in(alloc, &rows)
}

// Returns the greatest checkpoint at or below `x`, as a row, if there is one.
fn effective_rows<S: Alter>(conn: &mut Connection<S>, x: u32) -> Result<Vec<Row>, Refusal>
    requires idle { IsIdle (state S.Store conn.old) }
    ensures idle { IsIdle (state S.Store conn.new) }
    ensures found { Told (state S.Store conn.old) (state S.Store conn.new)
        (λ c. IfOk result (λ rows. ShowsEffective c.checkpoints x rows.items)) }
    ensures asks { Asks (state S.Store conn.old) (state S.Store conn.new) }
{
    query_all(
        conn,
        "SELECT x, body FROM checkpoints WHERE x <= ?1 ORDER BY x DESC LIMIT 1",
        params![x],
    )
}

fn first_in(rows: &[Row]) -> Result<Option<(u32, Vec<u8>)>, Refusal>
    ensures effective { (held : Records) (x : ℕ) → ShowsEffective held x rows.now
        → IfOk result (λ found. IfSome found (λ e. IsEffective held x e.0)) }
    ensures bytes { (held : Records) (x : ℕ) → ShowsEffective held x rows.now
        → IfOk result (λ found. IfSome found (λ e. finite.get held e.0 ≡ Some e.1.items)) }
    ensures none { (held : Records) (x : ℕ) → ShowsEffective held x rows.now
        → IfOk result (λ found. IfNone found (IsFree held 0 (x + 1))) }
{
    match rows.first() {
        Some(row) => Ok(Some(record_in(row)?)),
        None => Ok(None),
    }
}

// Returns the greatest checkpoint at or below `x`.
pub(crate) fn effective<S: Alter>(
    conn: &mut Connection<S>,
    x: u32,
) -> Result<Option<(u32, Vec<u8>)>, Refusal>
    requires idle { IsIdle (state S.Store conn.old) }
    ensures idle { IsIdle (state S.Store conn.new) }
    ensures effective { Told (state S.Store conn.old) (state S.Store conn.new)
        (λ c. IfOk result (λ found. IfSome found (λ e. IsEffective c.checkpoints x e.0))) }
    ensures bytes { Told (state S.Store conn.old) (state S.Store conn.new)
        (λ c. IfOk result (λ found. IfSome found (λ e. finite.get c.checkpoints e.0 ≡ Some e.1.items))) }
    ensures none { Told (state S.Store conn.old) (state S.Store conn.new)
        (λ c. IfOk result (λ found. IfNone found (IsFree c.checkpoints 0 (x + 1)))) }
    ensures asks { Asks (state S.Store conn.old) (state S.Store conn.new) }
{
    let rows = effective_rows(conn, x)?;
    first_in(&rows)
}
