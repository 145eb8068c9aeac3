//! Ledgers over tables in memory, and which databases are taken up.

use super::{PUT, ROWS, check_table, made, play};
use om_stable::{Ledger, LedgerTable, Stable};
use om_tables::{SqlLedger, SqlStable, TablesError};
use sqlite::{Alter, Connection, MemStore};
use std::alloc::Global;
use std::process::Abort;

pub(super) fn connected(rt: &impl Abort, alloc: Global) -> Connection<MemStore> {
    Connection::open_in_memory(alloc).expect(rt, "memory")
}

#[inline(never)]
pub(super) fn taken_up<S: Alter + Drop>(
    rt: &impl Abort,
    alloc: Global,
    conn: Connection<S>,
) -> Result<SqlLedger<S>, (TablesError, Connection<S>)> {
    assert!(rt; conn.is_autocommit());
    SqlLedger::take_up(alloc, conn)
}

#[inline(never)]
pub(super) fn expected<S: Alter + Drop>(
    rt: &impl Abort,
    store: Result<SqlLedger<S>, (TablesError, Connection<S>)>,
) -> SqlLedger<S> {
    match store {
        Ok(store) => store,
        Err((error, _conn)) => panic!(rt; "{error:?}"),
    }
}

#[inline(never)]
fn refused<S: Alter + Drop>(
    rt: &impl Abort,
    store: Result<SqlLedger<S>, (TablesError, Connection<S>)>,
) -> (TablesError, Connection<S>) {
    match store {
        Ok(_) => panic!(rt; "taken up"),
        Err(refused) => refused,
    }
}

// Plays the rows over the connection, which is handed back.
fn played_over<S: Alter + Drop>(
    rt: &impl Abort,
    alloc: Global,
    conn: Connection<S>,
) -> Connection<S> {
    let mut store = expected(rt, taken_up(rt, alloc, conn));
    play(rt, alloc, &mut store);
    assert!(rt; store.failures() == 0);
    store.into_connection()
}

// What is there behind the rows.
fn check_played<S: Ledger>(rt: &impl Abort, alloc: Global, store: &mut S) {
    let (_, _, outputs, senders) = ROWS[ROWS.len() - 1];
    check_table(rt, alloc, store, LedgerTable::Outputs, outputs);
    check_table(rt, alloc, store, LedgerTable::Senders, senders);
    check_table(rt, alloc, store, LedgerTable::About, &[0]);
    let held = store.effective(alloc, 2).ok().flatten().map(|(x, _)| x);
    assert!(rt; held == Some(2));
}

// The rows over five tables, which are then taken up again with all that they hold.
#[test]
fn ledgers_in_tables(rt: HostRuntime) {
    let alloc = rt.alloc();
    let conn = played_over(&rt, alloc, connected(&rt, alloc));
    let mut store = expected(&rt, taken_up(&rt, alloc, conn));
    check_played(&rt, alloc, &mut store);
    drop(store);
}

// Five tables in another order.
static IN_ANOTHER_ORDER: [&str; 5] = [
    "CREATE TABLE about (x INTEGER PRIMARY KEY, body BLOB NOT NULL)",
    "CREATE TABLE checkpoints (x INTEGER PRIMARY KEY, body BLOB NOT NULL)",
    "CREATE TABLE senders (x INTEGER PRIMARY KEY, body BLOB NOT NULL)",
    "CREATE TABLE receipts (x INTEGER PRIMARY KEY, body BLOB NOT NULL)",
    "CREATE TABLE outputs (x INTEGER PRIMARY KEY, body BLOB NOT NULL)",
];

#[test]
fn tables_in_another_order_are_taken_up(rt: HostRuntime) {
    let alloc = rt.alloc();
    let mut conn = connected(&rt, alloc);
    for statement in &IN_ANOTHER_ORDER {
        assert!(rt; conn.execute(statement, &[]).is_ok());
    }
    let mut store = expected(&rt, taken_up(&rt, alloc, conn));
    let put = made(&rt, alloc, &mut store, PUT);
    put.expect(&rt, "stored");
    check_table(&rt, alloc, &mut store, LedgerTable::Outputs, &[0, 1]);
    drop(store);
}

fn check_not_taken_up<S: Alter + Drop>(rt: &impl Abort, alloc: Global, conn: Connection<S>) {
    let (error, _conn) = refused(rt, taken_up(rt, alloc, conn));
    assert_eq!(rt; error, TablesError::NoTables);
}

// What is made beside the tables, or in place of one: such a database is not taken up, and is handed back as it was.
static OTHERS: [&str; 3] = [
    "CREATE TABLE more (x INTEGER PRIMARY KEY)",
    "CREATE INDEX bodies ON outputs (body)",
    "DROP TABLE senders",
];

#[test]
fn other_tables_are_not_taken_up(rt: HostRuntime) {
    let alloc = rt.alloc();
    for statement in &OTHERS {
        let store = expected(&rt, taken_up(&rt, alloc, connected(&rt, alloc)));
        let mut conn = store.into_connection();
        assert!(rt; conn.execute(statement, &[]).is_ok());
        check_not_taken_up(&rt, alloc, conn);
    }
}

// A store of two tables is not taken up.
#[test]
fn two_tables_are_not_taken_up(rt: HostRuntime) {
    let alloc = rt.alloc();
    let conn = connected(&rt, alloc);
    assert!(rt; conn.is_autocommit());
    let Ok(store) = SqlStable::create(alloc, conn) else {
        panic!(rt; "not made");
    };
    check_not_taken_up(&rt, alloc, store.into_connection());
}
