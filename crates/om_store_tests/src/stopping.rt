//! Files in memory that stop after so many calls.

use sqlite::{Connection, FileStore, Files, Options};
use sqlite_disk::{Disk, Fuse, Memory};
use std::alloc::Global;

pub type Stopping = FileStore<Fuse<Memory>>;

/// Calls of the two files that never stop.
pub const ENDLESS: (u64, u64) = (u64::MAX, u64::MAX);

/// Which of the two files stops.
#[derive(Clone, Copy)]
pub enum Which {
    Log,
    Database,
}

/// Opens files with these bytes, which stop after so many calls of each.
pub fn open(
    alloc: Global,
    bytes: (&[u8], &[u8]),
    calls: (u64, u64),
) -> Option<Connection<Stopping>> {
    let mut log = Memory::new(alloc);
    let mut db = Memory::new(alloc);
    if log.write_at(0, bytes.0).is_err() || db.write_at(0, bytes.1).is_err() {
        return None;
    }
    let files = Files {
        log: Fuse::new(log, calls.0),
        db: Fuse::new(db, calls.1),
    };
    match Connection::open_files(alloc, files, Options::new(1)) {
        Ok(conn) => Some(conn),
        Err((_, left)) => {
            let _files = left.into_files();
            None
        }
    }
}

/// The files of a connection that is closed.
#[inline(never)]
pub fn closed(store: Stopping) -> Files<Fuse<Memory>> {
    store.close()
}

/// The bytes of the files.
pub fn bytes_of(files: &Files<Fuse<Memory>>) -> (&[u8], &[u8]) {
    (files.log.inner().bytes(), files.db.inner().bytes())
}

/// The calls of both files before a stop, of which one has so many.
pub fn calls_of(which: Which, calls: u64) -> (u64, u64) {
    match which {
        Which::Log => (calls, u64::MAX),
        Which::Database => (u64::MAX, calls),
    }
}
