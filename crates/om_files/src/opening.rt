//! How the database of a store is opened, and made where there is none.

ghost use Rattle.std.specs.Prelude.{false, IfOk, OnOk, IsTrue};
ghost use Rattle.sqlite_store.specs.Unopened.{AreUsable};
ghost use Rattle.om_files.specs.Quiet.{IsIdle};

use crate::connecting::refusal_of_opening;
use om_runner::OpenFault;
use sqlite::{Connection, FileStore, Options};
use sqlite_disk::{Disk, Files, Memory};
use sqlite_pager::{Error, PageSize, Pager};
use sqlite_pool::probe_blank;
use sqlite_store::{OpenError, Unopened};
use std::alloc::Global;
use std::io;

/// The bytes of a page of a database that is made here: 1 KiB. A commit digests, copies and writes whole pages, and the receipts of
/// one take some hundred bytes.
const PAGE_BYTES: usize = 1024;

/// How many pages that were read a database in memory keeps beside itself: it has one, and 1 is the least.
const BLANK_PAGES_KEPT: usize = 1;

/// The bytes of the head of a frame of a log.
const FRAME_HEAD: usize = 24;

// Opens the database of these files, with the pages that it has. Where there is none yet, or one that an open left half made, it
// is made with pages of PAGE_BYTES.
pub(crate) fn opened<D: Disk + Drop>(
    alloc: Global,
    mut files: Files<D>,
    options: Options,
) -> Result<Connection<FileStore<D>>, OpenFault>
    requires log { IsTrue (D.Disk.is_usable files.log) }
    requires db { IsTrue (D.Disk.is_usable files.db) }
    ensures idle { IfOk result IsIdle }
{
    let size = PageSize::new(PAGE_BYTES).unwrap();
    match probe_blank(alloc, &mut files, size, false) {
        Ok(true) => made(alloc, files, size, options),
        Ok(false) => opened_whole(alloc, files, options),
        Err(Error::OutOfMemory) => Err(OpenFault::Memory),
        Err(_) => Err(OpenFault::Refused),
    }
}

// Makes a database with pages of this size. Where the files hold nothing, it is made in memory and laid into them, which takes
// fewer syncs.
fn made<D: Disk + Drop>(
    alloc: Global,
    mut files: Files<D>,
    size: PageSize,
    options: Options,
) -> Result<Connection<FileStore<D>>, OpenFault>
    requires log { IsTrue (D.Disk.is_usable files.log) }
    requires db { IsTrue (D.Disk.is_usable files.db) }
    ensures idle { IfOk result IsIdle }
{
    match are_bare(&mut files) {
        Ok(true) => laid(alloc, files, size, options),
        Ok(false) => made_in_place(alloc, files, size, options),
        Err(_) => Err(OpenFault::Refused),
    }
}

// Returns whether neither file holds anything.
fn are_bare<D: Disk>(files: &mut Files<D>) -> io::Result<bool>
    requires log { IsTrue (D.Disk.is_usable files.old.log) }
    requires db { IsTrue (D.Disk.is_usable files.old.db) }
    ensures log { IsTrue (D.Disk.is_usable files.new.log) }
    ensures db { IsTrue (D.Disk.is_usable files.new.db) }
{
    Ok(files.log.len()? == 0 && files.db.len()? == 0)
}

// Makes a database in memory, and lays what its files hold into these, which hold nothing.
fn laid<D: Disk + Drop>(
    alloc: Global,
    mut files: Files<D>,
    size: PageSize,
    options: Options,
) -> Result<Connection<FileStore<D>>, OpenFault>
    requires log { IsTrue (D.Disk.is_usable files.log) }
    requires db { IsTrue (D.Disk.is_usable files.db) }
    ensures idle { IfOk result IsIdle }
{
    let blank = blank(alloc, size, options)?;
    if lay(&mut files, blank.log.bytes(), blank.db.bytes()).is_err() {
        return Err(OpenFault::Refused);
    }
    opened_whole(alloc, files, options)
}

// Lays a database of one page and its log, which has that page in a commit, into files that hold nothing. As long as the file has
// nothing the log stands for nothing, and from then on it has what the file may lack; so a crash leaves none, or that one.
fn lay<D: Disk>(files: &mut Files<D>, log: &[u8], page: &[u8]) -> io::Result<()>
    requires log { IsTrue (D.Disk.is_usable files.old.log) }
    requires db { IsTrue (D.Disk.is_usable files.old.db) }
    ensures log { OnOk result (IsTrue (D.Disk.is_usable files.new.log)) }
    ensures db { OnOk result (IsTrue (D.Disk.is_usable files.new.db)) }
{
    files.log.write_at(0, log)?;
    // Behind the commit stands no other.
    files.log.write_at(log.len(), &[0; FRAME_HEAD])?;
    files.log.sync()?;
    files.db.write_at(0, page)?;
    files.db.sync()
}

// Returns a database of one page and its log, in memory.
fn blank(alloc: Global, size: PageSize, options: Options) -> Result<Files<Memory>, OpenFault> {
    let files = Files {
        log: Memory::new(alloc),
        db: Memory::new(alloc),
    };
    let options = Options {
        cache_pages: BLANK_PAGES_KEPT,
        ..options
    };
    match begun(alloc, files, size, options)?.create() {
        Ok(store) => Ok(store.close()),
        Err(refused) => Err(fault_of_making(refused)),
    }
}

// Makes a database in files that an open left half made.
fn made_in_place<D: Disk + Drop>(
    alloc: Global,
    files: Files<D>,
    size: PageSize,
    options: Options,
) -> Result<Connection<FileStore<D>>, OpenFault>
    requires log { IsTrue (D.Disk.is_usable files.log) }
    requires db { IsTrue (D.Disk.is_usable files.db) }
    ensures idle { IfOk result IsIdle }
{
    let store = match begun(alloc, files, size, options)?.create() {
        Ok(store) => store,
        Err(refused) => return Err(fault_of_making(refused)),
    };
    match Connection::over(alloc, store) {
        Ok(conn) => Ok(conn),
        Err(refused) => Err(fault_of(refused)),
    }
}

// Returns a database in these files that is neither opened nor made yet.
fn begun<D: Disk + Drop>(
    alloc: Global,
    files: Files<D>,
    size: PageSize,
    options: Options,
) -> Result<Unopened<D>, OpenFault>
    requires log { IsTrue (D.Disk.is_usable files.log) }
    requires db { IsTrue (D.Disk.is_usable files.db) }
    ensures usable { IfOk result AreUsable }
{
    let Ok(pager) = Pager::new(alloc, files, size, options) else {
        return Err(OpenFault::Memory);
    };
    match Unopened::new(alloc, pager, &[]) {
        Ok(unopened) => Ok(unopened),
        Err(_) => Err(OpenFault::Memory),
    }
}

// Opens the database that these files hold.
fn opened_whole<D: Disk + Drop>(
    alloc: Global,
    files: Files<D>,
    options: Options,
) -> Result<Connection<FileStore<D>>, OpenFault>
    requires log { IsTrue (D.Disk.is_usable files.log) }
    requires db { IsTrue (D.Disk.is_usable files.db) }
    ensures idle { IfOk result IsIdle }
{
    match Connection::open_files(alloc, files, options) {
        Ok(conn) => Ok(conn),
        Err(refused) => Err(fault_of(refused)),
    }
}

// Returns why no database is opened, and drops what is left of it.
fn fault_of<T: Drop>(refused: (sqlite::Error, T)) -> OpenFault {
    refusal_of_opening(&refused.0)
}

// Returns why no database is made, and drops what is left of it.
fn fault_of_making<T: Drop>(refused: (OpenError, T)) -> OpenFault {
    match refused.0 {
        OpenError::OutOfMemory => OpenFault::Memory,
        _ => OpenFault::Refused,
    }
}
