//! The command `replay` with steps: how a process goes on, from a database that holds its store.

ghost use Rattle.std.specs.Prelude.{◌≡◌, ◌≢◌, ◌⊎◌, ℕ, List, false, IsTrue, IfErr, IfOk, OnOk, Err};
ghost use Rattle.std.specs.Io.KnownBytes.{Appends, Keeps};
ghost use Rattle.sqlite.specs.Files.{file_state};
ghost use Rattle.sqlite.specs.Held.{state};
ghost use Rattle.om_tables.specs.Store.{IsFormed, content_in, is_sure};
ghost use Rattle.om_commands.specs.Command.{IsSilent};
ghost use Rattle.om_commands.specs.Replay.{IsNoMatterOfContent, IsReplayError};
ghost use Rattle.om_commands.specs.ReplaySteps.{IsStepsText};
ghost use Rattle.om_look_commands.specs.Looks.{IsErrorIn, IsSoIn, LeavesTables, RefusesWithoutTables};

use crate::opening::{in_memory, known, opened};
use om_commands::steps::replay_steps;
use om_commands::{CommandError, write_answer};
use om_copies::DatabaseBytes;
use om_tables::{SqlLedger, SqlStable};
use sqlite::{Alter, Connection, FileStore};
use sqlite_disk::Memory;
use std::alloc::Global;
use std::io::Write;

/// Replays the process whose store a database holds to an interval, and goes on from there, as
/// [`replay_steps`](om_commands::steps::replay_steps) does. The connection is handed back. Without the tables of a store nothing
/// is read or written: `StoreFault`.
pub fn steps_over<S: Alter + Drop, W: Write>(
    alloc: Global,
    conn: Connection<S>,
    interval: u32,
    steps: u64,
    traced: bool,
    writer: &mut W,
) -> (Result<(), CommandError>, Connection<S>)
    requires { conn.in_transaction ≡ false }
    ensures text { IsTrue (is_sure (state S.Store result.1)) → IsFormed (state S.Store conn)
        → OnOk result.0 ((text : List ℕ) × IsStepsText (content_in (state S.Store conn).now) interval steps traced text
        × Appends (W.contents writer.old) (W.contents writer.new) text) }
    ensures error { IsTrue (is_sure (state S.Store result.1)) → IsFormed (state S.Store conn)
        → IfErr result.0 (IsReplayError (content_in (state S.Store conn).now) interval) }
    ensures no_tables { RefusesWithoutTables (state S.Store conn) conn result }
    ensures silent { IfErr result.0 (λ error. IsSilent error (Keeps (W.contents writer.old) (W.contents writer.new))) }
    ensures same { LeavesTables (state S.Store conn) (state S.Store result.1) }
{
    match SqlStable::adopt(alloc, conn) {
        Ok(mut store) => {
            let told = replay_steps(alloc, &mut store, interval, steps, traced, writer);
            (told, store.into_connection())
        }
        Err((_, conn)) => (Err(CommandError::StoreFault), conn),
    }
}

/// Writes how the process goes on whose store the database of these bytes is, as [`steps_over`] does: a store of two tables, or of five,
/// which a run can take up. Bytes that hold no store are a `StoreFault`. Refused, nothing is written, unless it was the writer that
/// refused.
pub fn steps_in<W: Write>(
    alloc: Global,
    bytes: &DatabaseBytes,
    interval: u32,
    steps: u64,
    traced: bool,
    writer: &mut W,
) -> Result<(), CommandError>
    ensures text { OnOk result ((text : List ℕ)
        × IsSoIn bytes.now.file.items bytes.now.log.items (λ held. IsStepsText held interval steps traced text)
        × Appends (W.contents writer.old) (W.contents writer.new) text) }
    ensures error { IfErr result (IsErrorIn bytes.now.file.items bytes.now.log.items (λ held. IsReplayError held interval)) }
    ensures silent { IfErr result (λ error. IsSilent error (Keeps (W.contents writer.old) (W.contents writer.new))) }
{
    let text = stepped(alloc, bytes, interval, steps, traced)?;
    write_answer(writer, &text)
}

// Returns the text that `steps_in` writes.
fn stepped(
    alloc: Global,
    bytes: &DatabaseBytes,
    interval: u32,
    steps: u64,
    traced: bool,
) -> Result<Vec<u8>, CommandError>
    ensures text { IfOk result (λ text. IsSoIn bytes.now.file.items bytes.now.log.items (λ held. IsStepsText held interval steps traced text.items)) }
    ensures error { IfErr result (IsErrorIn bytes.now.file.items bytes.now.log.items (λ held. IsReplayError held interval)) }
    ensures silent { result ≢ Err CommandError.CannotWrite }
{
    match SqlLedger::adopt(opened(alloc, bytes)?) {
        Ok(store) => stepped_of_five(alloc, store, interval, steps, traced),
        Err((_, conn)) => stepped_of_two(alloc, conn, interval, steps, traced),
    }
}

// Returns the text that `steps_in` writes of a store of five tables,
// whatever these lie in: a call at files is dear to prove.
fn text_of_five<D: Alter + Drop>(
    alloc: Global,
    store: &mut SqlLedger<D>,
    interval: u32,
    steps: u64,
    traced: bool,
) -> Result<Vec<u8>, CommandError>
    ensures silent { result ≢ Err CommandError.CannotWrite }
{
    let mut text = Vec::new(alloc);
    in_memory(replay_steps(alloc, store, interval, steps, traced, &mut text))?;
    Ok(text)
}

// Returns the text that `steps_in` writes of a store of five tables.
#[inline(never)]
fn stepped_of_five(
    alloc: Global,
    mut store: SqlLedger<FileStore<Memory>>,
    interval: u32,
    steps: u64,
    traced: bool,
) -> Result<Vec<u8>, CommandError>
    ensures silent { result ≢ Err CommandError.CannotWrite }
{
    let text = text_of_five(alloc, &mut store, interval, steps, traced);
    drop(store);
    text
}

// Returns the text that `steps_in` writes of a store of two tables.
#[inline(never)]
fn stepped_of_two(
    alloc: Global,
    conn: Connection<FileStore<Memory>>,
    interval: u32,
    steps: u64,
    traced: bool,
) -> Result<Vec<u8>, CommandError>
    requires { conn.in_transaction ≡ false }
    ensures text { IfOk result (λ text. IsFormed (file_state conn)
        → IsStepsText (content_in (file_state conn).now) interval steps traced text.items) }
    ensures error { IfErr result (λ error. IsNoMatterOfContent error
        ⊎ (IsFormed (file_state conn) → IsReplayError (content_in (file_state conn).now) interval error)) }
    ensures silent { result ≢ Err CommandError.CannotWrite }
{
    let mut text = Vec::new(alloc);
    let (told, conn) = steps_over(alloc, conn, interval, steps, traced, &mut text);
    known(told, conn)?;
    Ok(text)
}
