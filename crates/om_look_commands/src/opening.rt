//! The database of bytes, and whether what was told of it is known.

ghost use Rattle.std.specs.Prelude.{◌≡◌, ◌≢◌, ◌⊎◌, false, Ok, Err, IfErr, IfOk, OnOk, IsTrue};
ghost use Rattle.sqlite.specs.Files.{file_state};
ghost use Rattle.om_copies.specs.Held.{IsHeldIn};
ghost use Rattle.om_commands.specs.Replay.{IsNoMatterOfContent};
ghost use Rattle.om_tables.specs.Store.{is_sure};

use om_commands::CommandError;
use om_copies::{CopyError, DatabaseBytes, still_answers};
use sqlite::{Connection, FileStore};
use sqlite_disk::Memory;
use std::alloc::Global;

/// Opens the database that bytes hold. Refused where they hold none, and where memory ran out.
pub fn opened(
    alloc: Global,
    bytes: &DatabaseBytes,
) -> Result<Connection<FileStore<Memory>>, CommandError>
    ensures idle { IfOk result (λ conn. conn.in_transaction ≡ false) }
    ensures settled { IfOk result (λ conn. (file_state conn).now ≡ (file_state conn).committed) }
    ensures held { IfOk result (λ conn. IsHeldIn bytes.now.file.items bytes.now.log.items (file_state conn).now) }
    ensures error { IfErr result IsNoMatterOfContent }
    ensures silent { result ≢ Err CommandError.CannotWrite }
{
    match bytes.open(alloc) {
        Ok(conn) => Ok(conn),
        Err(error) => Err(refusal_of(error)),
    }
}

fn refusal_of(error: CopyError) -> CommandError
    ensures known { IsNoMatterOfContent result }
    ensures silent { result ≢ CommandError.CannotWrite }
{
    match error {
        CopyError::Memory => CommandError::NoMemory,
        CopyError::NoDatabase => CommandError::StoreFault,
    }
}

/// Returns what was told over a connection into memory, where that answers still; then what was told is what its database holds. Refused
/// else, and where memory ran out.
pub fn known(
    told: Result<(), CommandError>,
    mut conn: Connection<FileStore<Memory>>,
) -> Result<(), CommandError>
    ensures told { OnOk result (told ≡ Ok tt) }
    ensures sure { OnOk result (IsTrue (is_sure (file_state conn))) }
    ensures error { IfErr result (λ error. IsNoMatterOfContent error
        ⊎ ((told ≡ Err error) × IsTrue (is_sure (file_state conn)))) }
    ensures silent { result ≢ Err CommandError.CannotWrite }
{
    match still_answers(&mut conn) {
        Ok(()) => in_memory(told),
        Err(error) => Err(refusal_of(error)),
    }
}

// Returns what was told into memory: only memory refuses what is written there.
pub(crate) fn in_memory(told: Result<(), CommandError>) -> Result<(), CommandError>
    ensures told { OnOk result (told ≡ Ok tt) }
    ensures error { IfErr result (λ error. IsNoMatterOfContent error ⊎ (told ≡ Err error)) }
    ensures silent { result ≢ Err CommandError.CannotWrite }
{
    match told {
        Ok(()) => Ok(()),
        Err(CommandError::CannotWrite) => Err(CommandError::NoMemory),
        Err(error) => Err(error),
    }
}
