//! The files of a cluster behind its run.

ghost use Rattle.std.specs.Prelude.{IsTrue};
ghost use Rattle.om_store_files.specs.FileDisk.{of_file};

use crate::halves::Half;
use crate::log_copy::LogCopy;
use crate::names::{is_written, log_of, store_of};
use crate::noted_pair::open_noted;
use crate::noting::NotedFile;
use crate::options::connection_options;
use sqlite::Options;
use sqlite_disk::{Disk, Files};
use sqlite_pager::Pager;
use sqlite_wal::probe_page_size;
use std::alloc::{AllocError, Global};
use std::thread::{Threads, map_indices};
use std::{fs, io};

// How many pages that were read are kept meanwhile: none is read twice, and 1 is the least.
const PAGES_KEPT: usize = 1;

/// Copies the logs of the databases of so many processes into their files, and removes them: each store is in its one file.
/// What cannot be settled stays as it is, a whole store in two files.
///
/// Each store in a thread of its own: what a disk takes to sync many files at once is little more than it takes for one.
pub fn settle<R: Threads + Sync>(threads: &R, rt: &HostRuntime, prefix: &str, n: usize) {
    let settles = |process: usize| -> bool { settle_one(rt, prefix, process).is_ok() };
    let _ = map_indices(threads, rt.alloc(), n, &settles);
}

// Removes the log where it was copied to its end.
fn settle_one(rt: &HostRuntime, prefix: &str, process: usize) -> Result<(), AllocError> {
    let file = store_of(rt.alloc(), prefix, process)?;
    // The log lies beside the file itself, whatever links lead to it.
    let Ok(place) = fs::canonicalize(rt, file.as_str()) else {
        return Ok(());
    };
    let log = log_of(rt.alloc(), place.as_str())?;
    if !is_written(rt, &log) {
        return Ok(());
    }
    let Some(options) = connection_options(rt) else {
        return Ok(());
    };
    if let Ok(files) = open_noted(rt, file.as_str(), None) {
        let Files {
            log: mut frames,
            db,
        } = files;
        // As long as they are open nobody else has them.
        if let Some(_pages) = copied_in(rt.alloc(), &mut frames, db, options) {
            let _ = fs::remove_file(rt, log.as_str());
        }
    }
    Ok(())
}

// Copies a log into the file of its database, and returns the pages where all of them are there. It is a copy of the log in memory
// that is emptied: the log itself stands as long as the file may not be whole.
fn copied_in(
    alloc: Global,
    log: &mut NotedFile,
    db: NotedFile,
    options: Options,
) -> Option<Pager<Half>>
    requires log { IsTrue (of_file.is_usable log.old.inner) }
    requires db { IsTrue (of_file.is_usable db.inner) }
{
    let files = Files {
        log: Half::Log(copy_of(alloc, log).ok()?),
        db: Half::File(db),
    };
    copied(alloc, files, options)
}

// Returns what a log holds, in memory.
fn copy_of(alloc: Global, log: &mut NotedFile) -> io::Result<LogCopy>
    requires { IsTrue (of_file.is_usable log.old.inner) }
{
    let mut bytes = vec![in alloc; 0u8; log.len()?]?;
    log.read_at(0, &mut bytes)?;
    Ok(LogCopy::new(bytes))
}

// Copies the log of a database into its file, and returns the pages where all of them are there. What stands in them is no matter
// here, so the database itself is not opened.
fn copied<D: Disk + Drop>(alloc: Global, mut files: Files<D>, options: Options) -> Option<Pager<D>>
    requires log { IsTrue (D.Disk.is_usable files.log) }
    requires db { IsTrue (D.Disk.is_usable files.db) }
{
    let Ok(Some(size)) = probe_page_size(&mut files) else {
        return None;
    };
    let options = Options {
        cache_pages: PAGES_KEPT,
        ..options
    };
    let mut pager = Pager::new(alloc, files, size, options).ok()?;
    pager.recover().ok()?;
    pager.checkpoint().ok()?;
    Some(pager)
}
