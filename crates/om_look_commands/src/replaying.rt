//! The state of a process in an interval, from a database that holds its store.

ghost use Rattle.std.specs.Prelude.{◌≡◌, ◌≢◌, ◌⊎◌, ℕ, List, false, IsTrue, IfErr, IfOk, OnOk, Err};
ghost use Rattle.std.specs.Io.KnownBytes.{Appends, Keeps};
ghost use Rattle.sqlite.specs.Files.{file_state};
ghost use Rattle.sqlite.specs.Held.{state};
ghost use Rattle.om_tables.specs.Store.{IsFormed, content_in, is_sure};
ghost use Rattle.om_commands.specs.Command.{IsSilent};
ghost use Rattle.om_commands.specs.Replay.{IsNoMatterOfContent, IsReplayError, IsReplayText};
ghost use Rattle.om_look_commands.specs.Looks.{IsErrorIn, IsSoIn, LeavesTables, RefusesWithoutTables};

use crate::opening::{in_memory, known, opened};
use om_commands::replay::replay;
use om_commands::{CommandError, write_answer};
use om_copies::DatabaseBytes;
use om_tables::{SqlLedger, SqlStable};
use sqlite::{Alter, Connection, FileStore};
use sqlite_disk::Memory;
use std::alloc::Global;
use std::io::Write;

/// Replays the process whose store a database holds to an interval, and writes its state as
/// [`replay`](om_commands::replay::replay) does. The connection is handed back. Without the tables of a store nothing is
/// read or written: `StoreFault`.
pub fn replay_over<S: Alter + Drop, W: Write>(
    alloc: Global,
    conn: Connection<S>,
    interval: u32,
    writer: &mut W,
) -> (Result<(), CommandError>, Connection<S>)
    requires { conn.in_transaction ≡ false }
    ensures text { IsTrue (is_sure (state S.Store result.1)) → IsFormed (state S.Store conn)
        → OnOk result.0 ((text : List ℕ) × IsReplayText (content_in (state S.Store conn).now) interval text
        × Appends (W.contents writer.old) (W.contents writer.new) text) }
    ensures error { IsTrue (is_sure (state S.Store result.1)) → IsFormed (state S.Store conn)
        → IfErr result.0 (IsReplayError (content_in (state S.Store conn).now) interval) }
    ensures no_tables { RefusesWithoutTables (state S.Store conn) conn result }
    ensures silent { IfErr result.0 (λ error. IsSilent error (Keeps (W.contents writer.old) (W.contents writer.new))) }
    ensures same { LeavesTables (state S.Store conn) (state S.Store result.1) }
{
    match SqlStable::adopt(alloc, conn) {
        Ok(mut store) => {
            let told = replay(alloc, &mut store, interval, writer);
            (told, store.into_connection())
        }
        Err((_, conn)) => (Err(CommandError::StoreFault), conn),
    }
}

/// Replays the process whose store the database of these bytes is to an interval, and writes its state, as [`replay_over`] does: a store of
/// two tables, or of five, which a run can take up. Bytes that hold no store are a `StoreFault`. Refused, nothing is written, unless it
/// was the writer that refused.
pub fn replay_in<W: Write>(
    alloc: Global,
    bytes: &DatabaseBytes,
    interval: u32,
    writer: &mut W,
) -> Result<(), CommandError>
    ensures text { OnOk result ((text : List ℕ) × IsSoIn bytes.now.file.items bytes.now.log.items (λ held. IsReplayText held interval text)
        × Appends (W.contents writer.old) (W.contents writer.new) text) }
    ensures error { IfErr result (IsErrorIn bytes.now.file.items bytes.now.log.items (λ held. IsReplayError held interval)) }
    ensures silent { IfErr result (λ error. IsSilent error (Keeps (W.contents writer.old) (W.contents writer.new))) }
{
    let text = replayed(alloc, bytes, interval)?;
    write_answer(writer, &text)
}

// Returns the text that `replay_in` writes.
fn replayed(alloc: Global, bytes: &DatabaseBytes, interval: u32) -> Result<Vec<u8>, CommandError>
    ensures text { IfOk result (λ text. IsSoIn bytes.now.file.items bytes.now.log.items (λ held. IsReplayText held interval text.items)) }
    ensures error { IfErr result (IsErrorIn bytes.now.file.items bytes.now.log.items (λ held. IsReplayError held interval)) }
    ensures silent { result ≢ Err CommandError.CannotWrite }
{
    match SqlLedger::adopt(opened(alloc, bytes)?) {
        Ok(store) => replayed_of_five(alloc, store, interval),
        Err((_, conn)) => replayed_of_two(alloc, conn, interval),
    }
}

// Returns the text that `replay_in` writes of a store of five tables.
#[inline(never)]
fn replayed_of_five(
    alloc: Global,
    mut store: SqlLedger<FileStore<Memory>>,
    interval: u32,
) -> Result<Vec<u8>, CommandError>
    ensures silent { result ≢ Err CommandError.CannotWrite }
{
    let mut text = Vec::new(alloc);
    in_memory(replay(alloc, &mut store, interval, &mut text))?;
    Ok(text)
}

// Returns the text that `replay_in` writes of a store of two tables.
#[inline(never)]
fn replayed_of_two(
    alloc: Global,
    conn: Connection<FileStore<Memory>>,
    interval: u32,
) -> Result<Vec<u8>, CommandError>
    requires { conn.in_transaction ≡ false }
    ensures text { IfOk result (λ text. IsFormed (file_state conn)
        → IsReplayText (content_in (file_state conn).now) interval text.items) }
    ensures error { IfErr result (λ error. IsNoMatterOfContent error
        ⊎ (IsFormed (file_state conn) → IsReplayError (content_in (file_state conn).now) interval error)) }
    ensures silent { result ≢ Err CommandError.CannotWrite }
{
    let mut text = Vec::new(alloc);
    let (told, conn) = replay_over(alloc, conn, interval, &mut text);
    known(told, conn)?;
    Ok(text)
}
