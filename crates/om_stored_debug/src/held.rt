//! The command `debug` over the store that the bytes of a database's file and of its log hold.

ghost use Rattle.std.specs.Prelude.{◌≡◌, ◌⊎◌, false, Err, IfErr, IfOk, IsTrue, OnOk};
ghost use Rattle.std.specs.Io.KnownBytes.{Keeps};
ghost use Rattle.sqlite.specs.Files.{file_state};
ghost use Rattle.sqlite.specs.Held.{state};
ghost use Rattle.om_commands.specs.Replay.{IsNoMatterOfContent};
ghost use Rattle.om_commands.specs.declared.error.CommandError.{CommandError};
ghost use Rattle.om_debug.specs.Stops.{DebugState};
ghost use Rattle.om_debug_command.specs.Debug.{IsBefore, IsServed};
ghost use Rattle.om_inferiors.specs.declared.shown.Shown.TheVariants.{One};
ghost use Rattle.om_look_commands.specs.Looks.{IsErrorIn, IsSoIn};
ghost use Rattle.om_stored_debug.specs.Shown.{IsErrorOfShownStore, IsErrorOfStore, IsShown};
ghost use Rattle.om_tables.specs.Store.{HasBothTables, IsFormed, content_in, is_sure};

use crate::command::{answer, open_store};
use om_commands::CommandError;
use om_copies::DatabaseBytes;
use om_debug::{Debugger, Wish};
use om_look_commands::{known, opened};
use om_tables::{SqlLedger, SqlStable};
use sqlite::{Alter, Connection, FileStore};
use sqlite_disk::Memory;
use std::alloc::Global;
use std::io::Write;

/// Answers the packets of gdb about the process whose store the database of these bytes is, as [`debug_store`](crate::debug_store) does: a
/// store of two tables, or of five, which a run can take up. Bytes that hold no store are a `StoreFault`. Refused as by `debug_store`.
pub fn debug_in<P: Wish, W: Write>(
    alloc: Global,
    bytes: &DatabaseBytes,
    interval: Option<u32>,
    packets: &mut P,
    writer: &mut W,
) -> Result<(), CommandError>
    ensures served { OnOk result (IsSoIn bytes.now.file.items bytes.now.log.items (λ held. (d : DebugState) × IsShown held interval d
        × IsServed (One d) (P.remaining packets.old) (P.remaining packets.new) (W.contents writer.old) (W.contents writer.new))) }
    ensures error { IfErr result (IsErrorIn bytes.now.file.items bytes.now.log.items (λ held. IsErrorOfShownStore held interval)) }
    ensures silent { IfErr result (λ error. IsBefore error (Keeps (W.contents writer.old) (W.contents writer.new))) }
    ensures unread { IfErr result (λ error. IsBefore error (Keeps (P.remaining packets.old) (P.remaining packets.new))) }
{
    let debugger = open_in(alloc, bytes, interval)?;
    answer(alloc, debugger, packets, writer)
}

// Shows the process whose store the database of these bytes is.
fn open_in(
    alloc: Global,
    bytes: &DatabaseBytes,
    interval: Option<u32>,
) -> Result<Debugger, CommandError>
    ensures opened { IfOk result (λ d. IsSoIn bytes.now.file.items bytes.now.log.items (λ held. IsShown held interval d)) }
    ensures error { IfErr result (IsErrorIn bytes.now.file.items bytes.now.log.items (λ held. IsErrorOfStore held interval)) }
{
    match SqlLedger::adopt(opened(alloc, bytes)?) {
        Ok(store) => open_of_five(alloc, store, interval),
        Err((_, conn)) => open_of_two(alloc, conn, interval),
    }
}

// Shows the process of a store of five tables.
#[inline(never)]
fn open_of_five(
    alloc: Global,
    mut store: SqlLedger<FileStore<Memory>>,
    interval: Option<u32>,
) -> Result<Debugger, CommandError> {
    open_store(alloc, &mut store, interval)
}

// Shows the process of a store of two tables.
#[inline(never)]
fn open_of_two(
    alloc: Global,
    conn: Connection<FileStore<Memory>>,
    interval: Option<u32>,
) -> Result<Debugger, CommandError>
    requires { conn.in_transaction ≡ false }
    ensures opened { IfOk result (λ d. IsFormed (file_state conn) → IsShown (content_in (file_state conn).now) interval d) }
    ensures error { IfErr result (λ error. IsNoMatterOfContent error
        ⊎ (IsFormed (file_state conn) → IsErrorOfStore (content_in (file_state conn).now) interval error)) }
{
    let (shown, conn) = open_over(alloc, conn, interval);
    match known(Ok(()), conn) {
        Ok(()) => shown,
        Err(error) => Err(error),
    }
}

// Shows the process whose store a database holds. The connection is handed back. Without the tables of a store nothing is read:
// `StoreFault`.
fn open_over<S: Alter + Drop>(
    alloc: Global,
    conn: Connection<S>,
    interval: Option<u32>,
) -> (Result<Debugger, CommandError>, Connection<S>)
    requires { conn.in_transaction ≡ false }
    ensures opened { IsTrue (is_sure (state S.Store result.1)) → IsFormed (state S.Store conn)
        → IfOk result.0 (IsShown (content_in (state S.Store conn).now) interval) }
    ensures error { IsTrue (is_sure (state S.Store result.1)) → IsFormed (state S.Store conn)
        → IfErr result.0 (IsErrorOfStore (content_in (state S.Store conn).now) interval) }
    ensures no_tables { (HasBothTables (state S.Store conn).now.schema → ⊥) → result ≡ (Err CommandError.StoreFault, conn) }
    ensures same { IsTrue (is_sure (state S.Store result.1)) → IsFormed (state S.Store conn)
        → content_in (state S.Store result.1).now ≡ content_in (state S.Store conn).now }
{
    match SqlStable::adopt(alloc, conn) {
        Ok(mut store) => {
            let shown = open_store(alloc, &mut store, interval);
            (shown, store.into_connection())
        }
        Err((_, conn)) => (Err(CommandError::StoreFault), conn),
    }
}
