//! The same over the bytes of a database's file and of its log, as a run leaves them. Counts and places are those of the six instructions.

use crate::packets::{WHERE, asked, lines_of};
use crate::stores::fill;
use om_commands::CommandError;
use om_copies::DatabaseBytes;
use om_stored_debug::debug_in;
use om_tables::{SqlLedger, SqlStable};
use sqlite::{Alter, Connection, FileStore, Files};
use sqlite_disk::Memory;
use std::alloc::Global;
use std::process::Abort;

// What comes at interval 2 of three.
const ANSWERS: &str =
    "OK\nevent 4 of 7: run 1 5, 0 instructions done\nprocess 1: ready, 10 instructions\n\n02000000\nT05thread:1;replaylog:begin;\nOK\n";

fn no_bytes(alloc: Global) -> DatabaseBytes {
    DatabaseBytes {
        file: Vec::new(alloc),
        log: Vec::new(alloc),
    }
}

#[inline(never)]
fn new_database(rt: &impl Abort, alloc: Global) -> Connection<FileStore<Memory>> {
    no_bytes(alloc).open(alloc).expect(rt, "a database")
}

fn bytes_of(rt: &impl Abort, alloc: Global, files: &Files<Memory>) -> DatabaseBytes {
    DatabaseBytes {
        file: Vec::from_slice(alloc, files.db.bytes()).expect(rt, "memory"),
        log: Vec::from_slice(alloc, files.log.bytes()).expect(rt, "memory"),
    }
}

// Makes a store of two tables with three receipts. What is made of a database is generic over what it lies in: each call at files is dear
// to prove.
#[inline(never)]
fn with_two_tables<S: Alter + Drop>(
    rt: &impl Abort,
    alloc: Global,
    conn: Connection<S>,
) -> Connection<S> {
    assert!(rt; conn.is_autocommit());
    match SqlStable::create(alloc, conn) {
        Ok(mut store) => {
            fill(rt, alloc, &mut store, &[1, 2, 3]);
            store.into_connection()
        }
        Err((error, _conn)) => panic!(rt; "{error:?}"),
    }
}

// Makes a store of five tables with three receipts.
#[inline(never)]
fn with_five_tables<S: Alter + Drop>(
    rt: &impl Abort,
    alloc: Global,
    conn: Connection<S>,
) -> Connection<S> {
    assert!(rt; conn.is_autocommit());
    match SqlLedger::take_up(alloc, conn) {
        Ok(mut store) => {
            fill(rt, alloc, &mut store, &[1, 2, 3]);
            store.into_connection()
        }
        Err((error, _conn)) => panic!(rt; "{error:?}"),
    }
}

// The store of two tables, as a run leaves it that ends well.
#[inline(never)]
fn two_tables(rt: &impl Abort, alloc: Global) -> DatabaseBytes {
    let conn = with_two_tables(rt, alloc, new_database(rt, alloc));
    match conn.close_files() {
        Ok(files) => bytes_of(rt, alloc, &files),
        Err((error, _store)) => panic!(rt; "{error:?}"),
    }
}

// The store of five tables, as a run leaves it that was killed: what it wrote last stands in the log.
#[inline(never)]
fn five_tables(rt: &impl Abort, alloc: Global) -> DatabaseBytes {
    let conn = with_five_tables(rt, alloc, new_database(rt, alloc));
    let files = conn.into_store().close();
    bytes_of(rt, alloc, &files)
}

fn check(rt: &impl Abort, alloc: Global, bytes: &DatabaseBytes) {
    let packets = [WHERE, "$m40,4#31", "$bc#c5"];
    let mut written = Vec::new(alloc);
    let asked = asked(rt, alloc, &packets);
    let done = debug_in(alloc, bytes, Some(2), &mut asked.as_bytes(), &mut written);
    assert!(rt; done.is_ok());
    let told = lines_of(rt, alloc, &written, packets.len() + 2);
    assert_eq!(rt; told.as_str(), ANSWERS);
}

// Nothing is answered.
fn check_refused(
    rt: &impl Abort,
    alloc: Global,
    bytes: &DatabaseBytes,
    interval: Option<u32>,
    error: CommandError,
) {
    let mut written = Vec::new(alloc);
    let asked = asked(rt, alloc, &[WHERE]);
    let done = debug_in(alloc, bytes, interval, &mut asked.as_bytes(), &mut written);
    assert!(rt; done == Err(error) && written.is_empty());
}

#[test]
fn a_store_of_two_tables(rt: HostRuntime) {
    let bytes = two_tables(&rt, rt.alloc());
    check(&rt, rt.alloc(), &bytes);
    check_refused(
        &rt,
        rt.alloc(),
        &bytes,
        Some(4),
        CommandError::MissingReceipt(4),
    );
}

#[test]
fn a_store_of_five_tables(rt: HostRuntime) {
    let bytes = five_tables(&rt, rt.alloc());
    assert!(&rt; !bytes.log.is_empty());
    check(&rt, rt.alloc(), &bytes);
    check_refused(
        &rt,
        rt.alloc(),
        &bytes,
        Some(4),
        CommandError::MissingReceipt(4),
    );
}

// Bytes of no database, and of one that has no tables.
#[test]
fn bytes_of_no_store(rt: HostRuntime) {
    let alloc = rt.alloc();
    let text = DatabaseBytes {
        file: Vec::from_slice(alloc, b"text").expect(&rt, "memory"),
        log: Vec::new(alloc),
    };
    check_refused(&rt, alloc, &text, None, CommandError::StoreFault);
    check_refused(&rt, alloc, &no_bytes(alloc), None, CommandError::StoreFault);
}
