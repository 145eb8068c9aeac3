//! The rows of the stores over tables in memory, and which connections are taken.

use super::{Row, play_whole};
use crate::databases::{expected, refused, store_over};
use om_stable::Stable;
use om_tables::TablesError;
use sqlite::{Alter, Connection, MemStore};
use std::alloc::Global;
use std::process::Abort;

fn connected(rt: &impl Abort, alloc: Global) -> Connection<MemStore> {
    Connection::open_in_memory(alloc).expect(rt, "memory")
}

pub(super) fn play_in_tables(rt: &impl Abort, alloc: Global, rows: &[Row]) {
    play_over(rt, alloc, connected(rt, alloc), rows);
}

fn play_over<S: Alter + Drop>(rt: &impl Abort, alloc: Global, conn: Connection<S>, rows: &[Row]) {
    let mut store = expected(rt, store_over(rt, alloc, conn, true));
    play_whole(rt, alloc, &mut store, rows);
    drop(store);
}

// Where no store is, none is taken.
fn check_missing<S: Alter + Drop>(
    rt: &impl Abort,
    alloc: Global,
    conn: Connection<S>,
) -> Connection<S> {
    let (missing, conn) = refused(rt, store_over(rt, alloc, conn, false));
    assert_eq!(rt; missing, TablesError::NoTables);
    conn
}

// Where there are tables, none are made.
fn check_present<S: Alter + Drop>(
    rt: &impl Abort,
    alloc: Global,
    conn: Connection<S>,
) -> Connection<S> {
    let (present, conn) = refused(rt, store_over(rt, alloc, conn, true));
    assert_eq!(rt; present, TablesError::Present);
    conn
}

fn put_at_7<S: Stable>(rt: &impl Abort, alloc: Global, store: &mut S) {
    let put = store.put_checkpoint(alloc, 7, b"at 7");
    put.expect(rt, "stored");
}

fn check_at_7<S: Stable>(rt: &impl Abort, alloc: Global, store: &mut S) {
    let found = store.effective(alloc, 9).ok().flatten();
    let (x, bytes) = found.expect(rt, "a checkpoint");
    assert_eq!(rt; (x, bytes.as_slice()), (7, b"at 7".as_slice()));
    assert!(rt; store.failures() == 0);
}

// Makes a store with a checkpoint over the connection, which is handed back.
fn made_with_one<S: Alter + Drop>(
    rt: &impl Abort,
    alloc: Global,
    conn: Connection<S>,
) -> Connection<S> {
    let mut store = expected(rt, store_over(rt, alloc, conn, true));
    put_at_7(rt, alloc, &mut store);
    store.into_connection()
}

fn check_taken_with_one<S: Alter + Drop>(rt: &impl Abort, alloc: Global, conn: Connection<S>) {
    let mut store = expected(rt, store_over(rt, alloc, conn, false));
    check_at_7(rt, alloc, &mut store);
    drop(store);
}

// A connection that is handed back still works: each is taken by the other call.
fn check_once<S: Alter + Drop>(rt: &impl Abort, alloc: Global, conn: Connection<S>) {
    let conn = check_missing(rt, alloc, conn);
    let conn = made_with_one(rt, alloc, conn);
    let conn = check_present(rt, alloc, conn);
    check_taken_with_one(rt, alloc, conn);
}

#[test]
fn tables_are_made_once_and_taken_where_they_are(rt: HostRuntime) {
    check_once(&rt, rt.alloc(), connected(&rt, rt.alloc()));
}

// Whether the two tables of a store are made first, and statements then. What these make is not just such tables.
static OTHERS: [(bool, [&str; 2]); 5] = [
    (
        false,
        [
            "CREATE TABLE receipts (x INTEGER PRIMARY KEY, body BLOB NOT NULL)",
            "",
        ],
    ),
    (
        false,
        [
            "CREATE TABLE checkpoints (x INTEGER PRIMARY KEY, body BLOB NOT NULL)",
            "",
        ],
    ),
    (
        false,
        [
            "CREATE TABLE receipts (x INTEGER PRIMARY KEY)",
            "CREATE TABLE others (x INTEGER PRIMARY KEY)",
        ],
    ),
    (true, ["CREATE TABLE more (x INTEGER PRIMARY KEY)", ""]),
    (true, ["CREATE INDEX bodies ON receipts (body)", ""]),
];

fn check_others<S: Alter + Drop>(
    rt: &impl Abort,
    alloc: Global,
    mut conn: Connection<S>,
    has_tables: bool,
    statements: &[&str; 2],
) {
    if has_tables {
        conn = expected(rt, store_over(rt, alloc, conn, true)).into_connection();
    }
    for statement in statements {
        assert!(rt; statement.is_empty() || conn.execute(statement, &[]).is_ok());
    }
    let conn = check_missing(rt, alloc, conn);
    let _conn = check_present(rt, alloc, conn);
}

#[test]
fn other_tables_are_not_taken(rt: HostRuntime) {
    for (has_tables, statements) in &OTHERS {
        let conn = connected(&rt, rt.alloc());
        check_others(&rt, rt.alloc(), conn, *has_tables, statements);
    }
}
