//! The further tables of a ledger are made, filled and read. No clause says what they hold.
ghost use Rattle.std.specs.Prelude.{◌≡◌, ◌+◌, ◌≤◌, pos, length};
ghost use Rattle.om_stable.specs.declared.ledger.TheConstants.{LEDGER_NUMBERS};
ghost use Rattle.sqlite.specs.Held.{state};
ghost use Rattle.om_tables.specs.steps.Statements.{IsIdle, IsSameReference, IsWithinIntervals};

use crate::creating::create_both;
use crate::refusal::{Refusal, commit, execute, query_all, read};
use crate::writing::write_records;
use om_stable::{LedgerTable, WriteBatch};
use sqlite::{Alter, Connection, Row, Transaction, params};
use std::alloc::Global;

// Returns the number of a row of a table that holds `first + k`, which is below 2^63.
fn number_of(first: u64, k: usize) -> i64
    requires { first + k + 1 ≤ LEDGER_NUMBERS }
    ensures { result ≡ pos (first + k) }
{
    (first + k as u64) as i64
}

fn create_further<S: Alter>(tx: &mut Transaction<'_, S>) -> Result<(), Refusal>
    ensures same_reference { IsSameReference tx.old.conn.ghost_name tx.new.conn.ghost_name }
{
    execute(
        tx,
        "CREATE TABLE outputs (x INTEGER PRIMARY KEY, body BLOB NOT NULL)",
        &[],
    )?;
    execute(
        tx,
        "CREATE TABLE senders (x INTEGER PRIMARY KEY, body BLOB NOT NULL)",
        &[],
    )?;
    execute(
        tx,
        "CREATE TABLE about (x INTEGER PRIMARY KEY, body BLOB NOT NULL)",
        &[],
    )?;
    Ok(())
}

// Makes all five tables, or none.
pub(crate) fn create_five<S: Alter>(conn: &mut Connection<S>) -> Result<(), Refusal>
    requires idle { IsIdle (state S.Store conn.old) }
    ensures idle { IsIdle (state S.Store conn.new) }
{
    let mut tx = conn.transaction();
    create_both(&mut tx)?;
    create_further(&mut tx)?;
    commit(tx)
}

fn insert_row<S: Alter>(
    tx: &mut Transaction<'_, S>,
    table: LedgerTable,
    x: i64,
    body: &[u8],
) -> Result<usize, Refusal>
    ensures same_reference { IsSameReference tx.old.conn.ghost_name tx.new.conn.ghost_name }
{
    let text = match table {
        LedgerTable::Outputs => "INSERT INTO outputs (x, body) VALUES (?1, ?2)",
        LedgerTable::Senders => "INSERT INTO senders (x, body) VALUES (?1, ?2)",
        LedgerTable::About => "INSERT INTO about (x, body) VALUES (?1, ?2)",
    };
    execute(tx, text, params![x, body])
}

fn insert_rows<S: Alter>(
    tx: &mut Transaction<'_, S>,
    table: LedgerTable,
    first: u64,
    recs: &[Vec<u8>],
) -> Result<(), Refusal>
    requires { first + length recs.now ≤ LEDGER_NUMBERS }
    ensures same_reference { IsSameReference tx.old.conn.ghost_name tx.new.conn.ghost_name }
{
    for (k, body) in recs.iter().enumerate() {
        insert_row(tx, table, number_of(first, k), body)?;
    }
    Ok(())
}

// Puts rows into a table from number `first` on, all or none.
pub(crate) fn put_rows<S: Alter>(
    conn: &mut Connection<S>,
    table: LedgerTable,
    first: u64,
    recs: &[Vec<u8>],
) -> Result<(), Refusal>
    requires fits { first + length recs.now ≤ LEDGER_NUMBERS }
    requires idle { IsIdle (state S.Store conn.old) }
    ensures idle { IsIdle (state S.Store conn.new) }
{
    let mut tx = conn.transaction();
    insert_rows(&mut tx, table, first, recs)?;
    commit(tx)
}

// Writes all of a batch, or nothing of it.
pub(crate) fn write_five<S: Alter>(
    conn: &mut Connection<S>,
    batch: &WriteBatch<'_>,
) -> Result<(), Refusal>
    requires receipts { IsWithinIntervals batch.now }
    requires outputs { batch.now.outputs.first + length batch.now.outputs.recs.now ≤ LEDGER_NUMBERS }
    requires senders { batch.now.senders.first + length batch.now.senders.recs.now ≤ LEDGER_NUMBERS }
    requires idle { IsIdle (state S.Store conn.old) }
    ensures idle { IsIdle (state S.Store conn.new) }
{
    let (outputs, senders) = (batch.outputs, batch.senders);
    let mut tx = conn.transaction();
    write_records(&mut tx, batch)?;
    insert_rows(&mut tx, LedgerTable::Outputs, outputs.first, outputs.recs)?;
    insert_rows(&mut tx, LedgerTable::Senders, senders.first, senders.recs)?;
    commit(tx)
}

fn rows_in_table<S: Alter>(
    conn: &mut Connection<S>,
    table: LedgerTable,
) -> Result<Vec<Row>, Refusal>
    requires idle { IsIdle (state S.Store conn.old) }
    ensures idle { IsIdle (state S.Store conn.new) }
{
    let text = match table {
        LedgerTable::Outputs => "SELECT x, body FROM outputs ORDER BY x",
        LedgerTable::Senders => "SELECT x, body FROM senders ORDER BY x",
        LedgerTable::About => "SELECT x, body FROM about ORDER BY x",
    };
    query_all(conn, text, &[])
}

// Reads the number and the bytes that a row shows. A number below 0 is out of range.
fn numbered_in(row: &Row) -> Result<(u64, Vec<u8>), Refusal> {
    Ok((read(row, 0)?, read(row, 1)?))
}

// Returns all of a table, ascending.
pub(crate) fn all_in<S: Alter>(
    conn: &mut Connection<S>,
    alloc: Global,
    table: LedgerTable,
) -> Result<Vec<(u64, Vec<u8>)>, Refusal>
    requires idle { IsIdle (state S.Store conn.old) }
    ensures idle { IsIdle (state S.Store conn.new) }
{
    let rows = rows_in_table(conn, table)?;
    let mut found = Vec::with_capacity(alloc, rows.len())?;
    for row in &rows {
        found.push(numbered_in(row)?)?;
    }
    Ok(found)
}
