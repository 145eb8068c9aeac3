//! The files of a database, whose first error is noted.

ghost use Rattle.std.specs.Prelude.{IfOk, IsTrue};
ghost use Rattle.om_store_files.specs.FileDisk.{of_file};

use crate::noting::{Note, NotedFile};
use sqlite_disk::Files;
use sqlite_std_file::{OpenError, Unknown, open};
use std::alloc::AllocError;

/// Opens a database file and its log, as [`open`] does, and notes in both what the system answers where a call fails from then on.
pub fn open_noted(
    rt: &HostRuntime,
    path: &str,
    note: Option<&Note>,
) -> Result<Files<NotedFile>, OpenError>
    ensures log { IfOk result (λ files. IsTrue (of_file.is_usable files.log.inner)) }
    ensures db { IfOk result (λ files. IsTrue (of_file.is_usable files.db.inner)) }
{
    let Files { log, db } = open(rt, path, Unknown)?;
    // They were synced as they were opened.
    Ok(Files {
        log: NotedFile {
            inner: log,
            note: shared(note)?,
            is_synced: true,
        },
        db: NotedFile {
            inner: db,
            note: shared(note)?,
            is_synced: true,
        },
    })
}

// Returns the same note, where there is one.
fn shared(note: Option<&Note>) -> Result<Option<Note>, AllocError> {
    match note {
        Some(note) => Ok(Some(note.share()?)),
        None => Ok(None),
    }
}
