//! The bytes of a database's file and of its log, and the database that they hold.

ghost use Rattle.std.specs.Prelude.{◌≡◌, false, IfErr, IfOk, OnOk, IsTrue};
ghost use Rattle.sqlite.specs.Files.{file_state};
ghost use Rattle.sqlite_disk.specs.Memory.{memory_bytes, memory_is_usable};
ghost use Rattle.om_copies.specs.Held.{IsHeldIn};

use crate::error::{CopyError, error_of};
use sqlite::{Connection, FileStore, Files, Options};
use sqlite_disk::{Disk, Memory};
use std::alloc::Global;

// Pages that are read again are tested by digests under this key. Any serves, since memory does not lie.
const KEY: u64 = 0;

// How many pages that were read are kept beside that copy, 4 KiB each. They are cleared as it is opened.
const CACHE_PAGES: usize = 64;

/// What the file of a database holds, and the log beside it; the log is empty where there is none.
#[derive(Debug, Drop)]
pub struct DatabaseBytes {
    pub file: Vec<u8>,
    pub log: Vec<u8>,
}

impl DatabaseBytes {
    /// Opens the database that the bytes hold, over a copy of them in memory; where they are of none that was ever written to, an empty
    /// one. `Memory`; `NoDatabase`, where they hold none.
    pub fn open(&self, alloc: Global) -> Result<Connection<FileStore<Memory>>, CopyError>
        ensures idle { IfOk result (λ conn. conn.in_transaction ≡ false) }
        ensures is_open { IfOk result (λ conn. IsTrue (file_state conn).is_open) }
        ensures settled { IfOk result (λ conn. (file_state conn).now ≡ (file_state conn).committed) }
        ensures held { IfOk result (λ conn. IsHeldIn self.now.file.items self.now.log.items (file_state conn).now) }
    {
        let files = Files {
            log: memory_of(alloc, &self.log)?,
            db: memory_of(alloc, &self.file)?,
        };
        let options = Options {
            cache_pages: CACHE_PAGES,
            ..Options::new(KEY)
        };
        match Connection::open_files(alloc, files, options) {
            Ok(conn) => Ok(conn),
            Err((error, _)) => Err(error_of(&error)),
        }
    }
}

// Makes a file in memory that holds these bytes.
fn memory_of(alloc: Global, bytes: &[u8]) -> Result<Memory, CopyError>
    ensures bytes { IfOk result (λ memory. memory_bytes memory ≡ bytes.now) }
    ensures usable { IfOk result (λ memory. IsTrue (memory_is_usable memory)) }
{
    let mut memory = Memory::new(alloc);
    if memory.write_at(0, bytes).is_err() {
        return Err(CopyError::Memory);
    }
    Ok(memory)
}

/// Asks whether a connection answers still. One that does was open all along, so that what it answered is what its database holds.
pub fn still_answers(conn: &mut Connection<FileStore<Memory>>) -> Result<(), CopyError>
    ensures { OnOk result (IsTrue (file_state conn.old).is_open) }
{
    match conn.prepare("SELECT 1") {
        Ok(_) => Ok(()),
        Err(error) => Err(error_of(&error)),
    }
}
