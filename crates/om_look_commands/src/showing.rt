//! The command `show`: over a store that keeps something beside its records, and from a database that holds a store.

ghost use Rattle.std.specs.Prelude.{◌≡◌, ◌≢◌, ◌++◌, ℕ, List, false, IsTrue, IfErr, IfOk, OnOk, IsErrOf, Err};
ghost use Rattle.std.specs.Io.KnownBytes.{Appends, Keeps};
ghost use Rattle.sqlite.specs.Files.{file_state};
ghost use Rattle.sqlite.specs.Held.{state};
ghost use Rattle.om_tables.specs.Store.{IsFormed, content_in, is_sure};
ghost use Rattle.om_commands.specs.Command.{IsSilent};
ghost use Rattle.om_commands.specs.Replay.{IsNoMatterOfContent};
ghost use Rattle.om_ledger_text.specs.Shown.{IsLedgerShown};
ghost use Rattle.om_look.specs.Show.{IsShown};
ghost use Rattle.om_stable.specs.Calls.{IsCleanCall, UsesStore};
ghost use Rattle.om_look_commands.specs.Looks.{IsSoIn, LeavesTables, RefusesWithoutTables};

use crate::opening::{in_memory, known, opened};
use om_commands::show::show;
use om_commands::{CommandError, write_answer};
use om_copies::DatabaseBytes;
use om_ledger_text::all_text;
use om_stable::Ledger;
use om_tables::{SqlLedger, SqlStable};
use sqlite::{Alter, Connection, FileStore};
use sqlite_disk::Memory;
use std::alloc::Global;
use std::io::Write;

/// Writes what a store holds, as [`show`](om_commands::show::show) does, and behind it a line for each row of what it keeps beside
/// its records. Its content stays, and nothing that it holds is a reason to refuse. Refused, nothing is written, unless it was the
/// writer that refused.
pub fn show_all<S: Ledger, W: Write>(
    alloc: Global,
    store: &mut S,
    writer: &mut W,
) -> Result<(), CommandError>
    ensures text { IsCleanCall S.is_clean S.IsSound store.old store.new
        → OnOk result ((text : List ℕ) × (more : List ℕ) × IsShown (S.content store.old) text
        × IsLedgerShown (S.ledger store.old) more × Appends (W.contents writer.old) (W.contents writer.new) (text ++ more)) }
    ensures error { IfErr result IsNoMatterOfContent }
    ensures silent { IfErr result (λ error. IsSilent error (Keeps (W.contents writer.old) (W.contents writer.new))) }
    ensures same { IsCleanCall S.is_clean S.IsSound store.old store.new → S.content store.new ≡ S.content store.old }
    ensures used { UsesStore S.failed S.is_clean S.IsSound store.old (IsErrOf result CommandError.StoreFault) store.new }
{
    let text = all_text(alloc, store)?;
    write_answer(writer, text.as_bytes())
}

/// Writes what the store holds that is in a database, as [`show`](om_commands::show::show) does. The connection is handed back.
/// Without the tables of a store nothing is read or written: `StoreFault`.
pub fn show_over<S: Alter + Drop, W: Write>(
    alloc: Global,
    conn: Connection<S>,
    writer: &mut W,
) -> (Result<(), CommandError>, Connection<S>)
    requires { conn.in_transaction ≡ false }
    ensures text { IsTrue (is_sure (state S.Store result.1)) → IsFormed (state S.Store conn)
        → OnOk result.0 ((text : List ℕ) × IsShown (content_in (state S.Store conn).now) text
        × Appends (W.contents writer.old) (W.contents writer.new) text) }
    ensures error { IfErr result.0 IsNoMatterOfContent }
    ensures no_tables { RefusesWithoutTables (state S.Store conn) conn result }
    ensures silent { IfErr result.0 (λ error. IsSilent error (Keeps (W.contents writer.old) (W.contents writer.new))) }
    ensures same { LeavesTables (state S.Store conn) (state S.Store result.1) }
{
    match SqlStable::adopt(alloc, conn) {
        Ok(mut store) => {
            let told = show(alloc, &mut store, writer);
            (told, store.into_connection())
        }
        Err((_, conn)) => (Err(CommandError::StoreFault), conn),
    }
}

/// Writes what the store holds that the database of these bytes is: of two tables, as [`show_over`] does, or of five, which a run can take
/// up, as [`show_all`] does. Bytes that hold no store are a `StoreFault`. Refused, nothing is written, unless it was the writer that
/// refused.
pub fn show_in<W: Write>(
    alloc: Global,
    bytes: &DatabaseBytes,
    writer: &mut W,
) -> Result<(), CommandError>
    ensures text { OnOk result ((text : List ℕ) × IsSoIn bytes.now.file.items bytes.now.log.items (λ held. IsShown held text)
        × Appends (W.contents writer.old) (W.contents writer.new) text) }
    ensures error { IfErr result IsNoMatterOfContent }
    ensures silent { IfErr result (λ error. IsSilent error (Keeps (W.contents writer.old) (W.contents writer.new))) }
{
    let text = shown(alloc, bytes)?;
    write_answer(writer, &text)
}

// Returns the text that `show_in` writes.
fn shown(alloc: Global, bytes: &DatabaseBytes) -> Result<Vec<u8>, CommandError>
    ensures text { IfOk result (λ text. IsSoIn bytes.now.file.items bytes.now.log.items (λ held. IsShown held text.items)) }
    ensures error { IfErr result IsNoMatterOfContent }
    ensures silent { result ≢ Err CommandError.CannotWrite }
{
    match SqlLedger::adopt(opened(alloc, bytes)?) {
        Ok(store) => shown_of_five(alloc, store),
        Err((_, conn)) => shown_of_two(alloc, conn),
    }
}

// Returns the text that `show_in` writes of a store of five tables.
#[inline(never)]
fn shown_of_five(
    alloc: Global,
    mut store: SqlLedger<FileStore<Memory>>,
) -> Result<Vec<u8>, CommandError>
    ensures error { IfErr result IsNoMatterOfContent }
    ensures silent { result ≢ Err CommandError.CannotWrite }
{
    let mut text = Vec::new(alloc);
    in_memory(show_all(alloc, &mut store, &mut text))?;
    Ok(text)
}

// Returns the text that `show_in` writes of a store of two tables.
#[inline(never)]
fn shown_of_two(alloc: Global, conn: Connection<FileStore<Memory>>) -> Result<Vec<u8>, CommandError>
    requires { conn.in_transaction ≡ false }
    ensures text { IfOk result (λ text. IsFormed (file_state conn) → IsShown (content_in (file_state conn).now) text.items) }
    ensures error { IfErr result IsNoMatterOfContent }
    ensures silent { result ≢ Err CommandError.CannotWrite }
{
    let mut text = Vec::new(alloc);
    let (told, conn) = show_over(alloc, conn, &mut text);
    known(told, conn)?;
    Ok(text)
}
