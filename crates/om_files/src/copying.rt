//! A database of a file that is only read: what the file and its log hold is read whole, and opened from there.

ghost use Rattle.std.specs.Prelude.{IfErr, IfOk};
ghost use Rattle.om_files.specs.Quiet.{IsQuiet, IsIdle};

use om_commands::CommandError;
use om_copies::{CopyError, DatabaseBytes};
use om_store_files::{is_written, log_of};
use sqlite::{Connection, FileStore};
use sqlite_disk::Memory;
use std::path::PathBuf;
use std::{fs, io};

// Reads the database that a file and its log hold. A file that is not there, or has nothing, is a `StoreFault`; where the
// database is in use, so may be what is read of it.
pub(crate) fn copy_of(
    rt: &HostRuntime,
    file: &str,
) -> Result<Connection<FileStore<Memory>>, CommandError>
    ensures idle { IfOk result IsIdle }
    ensures refused { IfErr result IsQuiet }
{
    let bytes = bytes_of(rt, file)?;
    match bytes.open(rt.alloc()) {
        Ok(conn) => Ok(conn),
        Err(CopyError::Memory) => Err(CommandError::NoMemory),
        Err(CopyError::NoDatabase) => Err(CommandError::StoreFault),
    }
}

/// Returns what a file and its log hold, each read once. A file that is not there, or has nothing, is a `StoreFault`.
pub fn bytes_of(rt: &HostRuntime, file: &str) -> Result<DatabaseBytes, CommandError>
    ensures { IfErr result IsQuiet }
{
    let alloc = rt.alloc();
    if !is_written(rt, file) {
        return Err(CommandError::StoreFault);
    }
    // The log lies beside the file itself, whatever links lead to it.
    let place = place_of(rt, file)?;
    let log = log_of(alloc, place.as_str())?;
    let log = if is_written(rt, log.as_str()) {
        read(rt, log.as_str())?
    } else {
        Vec::new(alloc)
    };
    let file = read(rt, place.as_str())?;
    Ok(DatabaseBytes { file, log })
}

// Returns the path of a file, with no link in it.
fn place_of(rt: &HostRuntime, file: &str) -> Result<PathBuf, CommandError>
    ensures { IfErr result IsQuiet }
{
    fs::canonicalize(rt, file).map_err(refusal_of_reading)
}

fn read(rt: &HostRuntime, path: &str) -> Result<Vec<u8>, CommandError>
    ensures { IfErr result IsQuiet }
{
    fs::read(rt, path).map_err(refusal_of_reading)
}

fn refusal_of_reading(error: io::Error) -> CommandError
    ensures { IsQuiet result }
{
    match error.kind() {
        io::ErrorKind::OutOfMemory => CommandError::NoMemory,
        _ => CommandError::StoreFault,
    }
}
