//! Which file of a cluster could not be used, and why, for whoever is told of a store fault.

ghost use Rattle.std.specs.Prelude.{◌≡◌, false};

use crate::copying::copy_of;
use om_commands::CommandError;
use om_store_files::store_of;
use om_tables::{SqlLedger, SqlStable};
use sqlite::{Connection, FileStore};
use sqlite_disk::Memory;
use sqlite_schema::schema::Schema;
use std::alloc::AllocError;
use std::io::{ErrorKind, Read};
use std::{fmt, fs, io};

/// Why a file cannot be used as a store.
#[derive(Clone, Copy, Debug)]
pub enum FileFault {
    /// It cannot be opened.
    Unreadable(io::Error),
    /// It is no regular file.
    NoFile,
    /// It has nothing in it, begins with a zero, or is a database with nothing in it: a run was killed as it made it.
    HalfMade,
    /// It does not begin as a database of SQLite does.
    NoDatabase,
    /// It is a database that cannot be read, or is in use.
    BadDatabase,
    /// It is a database without the tables of a store, or with them in another order.
    NoTables,
    /// There is an index, a view or a table beside the tables of a store.
    MoreThanTables,
    /// It is a store of a run that does not take up stores, and one that does is to take it.
    Closed,
    /// It is a store; what was refused may have been so for another cause.
    Store,
}

impl fmt::Display for FileFault {
    fn fmt<W: fmt::Write>(&self, f: &mut fmt::Formatter<W>) -> fmt::Result {
        let what = match self {
            FileFault::Unreadable(error) => return write!(f, "{error}"),
            FileFault::NoFile => "is no file",
            FileFault::HalfMade => "is half a store, of a run that was killed as it made it",
            FileFault::NoDatabase => "is no database of SQLite",
            FileFault::BadDatabase => "cannot be read as a database: it is damaged, or in use",
            FileFault::NoTables =>
                "is a database without the tables of a store, receipts and checkpoints, made in this order",
            FileFault::MoreThanTables =>
                "has an index, a view or a table beside those of a store: remove it from a copy",
            FileFault::Closed =>
                "is a store of a run without --resume, which no run takes up: another --store, or move it",
            FileFault::Store => "is a store; it failed as it was used",
        };
        f.write_str(what)
    }
}

/// A file that could not be used, and why.
#[derive(Debug, Drop)]
pub struct Blame {
    pub file: String,
    pub fault: FileFault,
}

impl fmt::Display for Blame {
    fn fmt<W: fmt::Write>(&self, f: &mut fmt::Formatter<W>) -> fmt::Result {
        write!(f, "{}: {}", self.file, self.fault)
    }
}

/// Returns the first file of so many processes that has something in it and is no store that a run can take up. The files are
/// only read.
pub fn first_unusable(
    rt: &HostRuntime,
    prefix: &str,
    n: usize,
) -> Result<Option<Blame>, AllocError> {
    for process in 0..n {
        let file = store_of(rt.alloc(), prefix, process)?;
        match fault_to_resume(rt, file.as_str()) {
            FileFault::Store => {}
            fault => return Ok(Some(Blame { file, fault })),
        }
    }
    Ok(None)
}

// Returns why no run can take up a file. One that is not there, or is half made, is made by a run that resumes.
fn fault_to_resume(rt: &HostRuntime, file: &str) -> FileFault {
    if fs::symlink_metadata(rt, file).is_err() {
        return FileFault::Store;
    }
    match fault_of(rt, file) {
        FileFault::HalfMade => FileFault::Store,
        FileFault::Store if !is_open_store(rt, file) => FileFault::Closed,
        fault => fault,
    }
}

// Returns whether a file is a store of the kind that a run can take up.
fn is_open_store(rt: &HostRuntime, file: &str) -> bool {
    match copy_of(rt, file) {
        Ok(conn) => SqlLedger::adopt(conn).is_ok(),
        Err(_) => false,
    }
}

/// Returns why a file cannot be used as a store. It is only read.
pub fn fault_of(rt: &HostRuntime, file: &str) -> FileFault {
    match fs::metadata(rt, file) {
        Err(error) => FileFault::Unreadable(error),
        Ok(found) if !found.is_file() => FileFault::NoFile,
        Ok(_) => fault_of_file(rt, file),
    }
}

// Returns why a regular file cannot be used as a store. It begins with the first letter of its format once it is made.
fn fault_of_file(rt: &HostRuntime, file: &str) -> FileFault {
    match start_of(rt, file) {
        Err(error) => return FileFault::Unreadable(error),
        Ok(None | Some(0)) => return FileFault::HalfMade,
        Ok(Some(b'S')) => {}
        Ok(Some(_)) => return FileFault::NoDatabase,
    }
    match copy_of(rt, file) {
        Ok(conn) => fault_of_tables(rt, conn),
        Err(CommandError::NoMemory) => {
            FileFault::Unreadable(io::Error::from(ErrorKind::OutOfMemory))
        }
        Err(_) => FileFault::BadDatabase,
    }
}

// Reads the first byte of a file, if it has one.
fn start_of(rt: &HostRuntime, file: &str) -> io::Result<Option<u8>> {
    let mut first = [0];
    match fs::open(rt, file)?.read(&mut first)? {
        0 => Ok(None),
        _ => Ok(Some(first[0])),
    }
}

// Returns what is the matter with the tables of a database.
fn fault_of_tables(rt: &HostRuntime, conn: Connection<FileStore<Memory>>) -> FileFault
    requires { conn.in_transaction ≡ false }
{
    let conn = match SqlStable::adopt(rt.alloc(), conn) {
        Ok(_) => return FileFault::Store,
        Err((_, conn)) => conn,
    };
    match SqlLedger::adopt(conn) {
        Ok(_) => FileFault::Store,
        Err((_, conn)) => fault_of_schema(conn.schema()),
    }
}

fn fault_of_schema(schema: &Schema) -> FileFault {
    if !schema.indexes.is_empty() || !schema.views.is_empty() {
        return FileFault::MoreThanTables;
    }
    if schema.tables.is_empty() {
        return FileFault::HalfMade;
    }
    if schema.tables.len() > 2 {
        FileFault::MoreThanTables
    } else {
        FileFault::NoTables
    }
}
