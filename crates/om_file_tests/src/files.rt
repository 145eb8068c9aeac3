//! The rows of `replay` over a file of the system: as a run leaves it that was killed, with its rows in the log beside it, and as one
//! that ended well.

use crate::places::{new_folder, path_in, remove};
use crate::replay::{RECEIPT, ROWS, fill};
use om_files::replay_file;
use om_store_files::{is_written, settle};
use om_tables::SqlStable;
use sqlite::{Alter, Connection};
use std::alloc::Global;
use std::process::Abort;

// Makes the store of the rows over a new database. It is generic over what that lies in: each call at files is dear to prove.
fn make_over<S: Alter + Drop>(stop: &impl Abort, alloc: Global, conn: Connection<S>) {
    assert!(stop; conn.is_autocommit());
    match SqlStable::create(alloc, conn) {
        Ok(mut store) => fill(stop, alloc, &mut store, &RECEIPT),
        Err((error, _conn)) => panic!(stop; "{error:?}"),
    }
}

// Makes the store of the rows in a new file.
fn make(rt: &HostRuntime, stop: &impl Abort, file: &str) {
    let conn = Connection::open(rt, file).expect(stop, "a database");
    make_over(stop, rt.alloc(), conn);
}

fn check_rows(rt: &HostRuntime, stop: &impl Abort, file: &str) {
    for (interval, written, answer) in &ROWS {
        let mut text = Vec::new(rt.alloc());
        let told = replay_file(rt, file, *interval, &mut text);
        let is_right = told == *answer && text.as_slice() == written.as_bytes();
        assert!(stop; is_right, "{interval}");
    }
}

#[test]
fn rows_of_a_file_and_its_log(rt: HostRuntime) {
    let folder = new_folder(&rt, &rt);
    let prefix = path_in(&rt, &rt, &folder, "s");
    let file = path_in(&rt, &rt, &folder, "s0.db");
    let log = path_in(&rt, &rt, &folder, "s0.db-wal");
    make(&rt, &rt, &file);
    assert!(&rt; is_written(&rt, &log));
    check_rows(&rt, &rt, &file);
    settle(&rt, &rt, &prefix, 1);
    assert!(&rt; !is_written(&rt, &log));
    check_rows(&rt, &rt, &file);
    remove(&rt, &rt, &folder);
}
