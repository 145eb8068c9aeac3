//! The command `show` with the bodies of messages: of a store, and from a database that holds one.

ghost use Rattle.std.specs.Prelude.{◌≡◌, ◌≢◌, ◌++◌, ℕ, List, false, IsTrue, IfErr, IfOk, OnOk, IsErrOf, Err};
ghost use Rattle.std.specs.Io.KnownBytes.{Appends, Keeps};
ghost use Rattle.om_body_text.specs.Bodies.{AreBodies};
ghost use Rattle.sqlite.specs.Files.{file_state};
ghost use Rattle.sqlite.specs.Held.{state};
ghost use Rattle.om_tables.specs.Store.{IsFormed, content_in, is_sure};
ghost use Rattle.om_commands.specs.Command.{IsSilent};
ghost use Rattle.om_look_commands.specs.Looks.{IsShownWithBodies, IsSoIn, LeavesTables, RefusesWithoutTables};
ghost use Rattle.om_commands.specs.Replay.{IsNoMatterOfContent};
ghost use Rattle.om_ledger_text.specs.Shown.{IsLedgerShown};
ghost use Rattle.om_look.specs.Show.{IsShown};
ghost use Rattle.om_stable.specs.Calls.{IsCleanCall, UsesStore};

use crate::opening::{in_memory, known, opened};
use om_body_text::bodies_text;
use om_commands::{BytesForm, CommandError, write_answer};
use om_copies::DatabaseBytes;
use om_ledger_text::all_text;
use om_look::content_text;
use om_stable::{Ledger, Stable};
use om_tables::{SqlLedger, SqlStable};
use sqlite::{Alter, Connection, FileStore};
use sqlite_disk::Memory;
use std::alloc::Global;
use std::io::Write;

/// Writes what a store holds, as [`show`](om_commands::show::show) does, and behind it a line for the body of each message that it
/// received, in a form. Its content stays, and nothing that it holds is a reason to refuse. Refused, nothing is written, unless it
/// was the writer that refused.
pub fn show_bodies<S: Stable, W: Write>(
    alloc: Global,
    store: &mut S,
    form: BytesForm,
    writer: &mut W,
) -> Result<(), CommandError>
    ensures text { IsCleanCall S.is_clean S.IsSound store.old store.new
        → OnOk result ((text : List ℕ) × (bodies : List ℕ) × IsShown (S.content store.old) text
        × AreBodies form (S.content store.old) bodies × Appends (W.contents writer.old) (W.contents writer.new) (text ++ bodies)) }
    ensures error { IfErr result IsNoMatterOfContent }
    ensures silent { IfErr result (λ error. IsSilent error (Keeps (W.contents writer.old) (W.contents writer.new))) }
    ensures same { IsCleanCall S.is_clean S.IsSound store.old store.new → S.content store.new ≡ S.content store.old }
    ensures used { UsesStore S.failed S.is_clean S.IsSound store.old (IsErrOf result CommandError.StoreFault) store.new }
{
    let mut text = content_text(alloc, store)?;
    let bodies = bodies_text(alloc, store, form)?;
    text.push_str(&bodies)?;
    write_answer(writer, text.as_bytes())
}

/// Writes what a store holds that keeps something beside its records, as [`show_bodies`] does: the lines of that stand between, as
/// [`show_all`](crate::show_all) writes them.
pub fn show_all_bodies<S: Ledger, W: Write>(
    alloc: Global,
    store: &mut S,
    form: BytesForm,
    writer: &mut W,
) -> Result<(), CommandError>
    ensures text { IsCleanCall S.is_clean S.IsSound store.old store.new
        → OnOk result ((text : List ℕ) × (more : List ℕ) × (bodies : List ℕ) × IsShown (S.content store.old) text
        × IsLedgerShown (S.ledger store.old) more × AreBodies form (S.content store.old) bodies
        × Appends (W.contents writer.old) (W.contents writer.new) ((text ++ more) ++ bodies)) }
    ensures error { IfErr result IsNoMatterOfContent }
    ensures silent { IfErr result (λ error. IsSilent error (Keeps (W.contents writer.old) (W.contents writer.new))) }
    ensures same { IsCleanCall S.is_clean S.IsSound store.old store.new → S.content store.new ≡ S.content store.old }
    ensures used { UsesStore S.failed S.is_clean S.IsSound store.old (IsErrOf result CommandError.StoreFault) store.new }
{
    let mut text = all_text(alloc, store)?;
    let bodies = bodies_text(alloc, store, form)?;
    text.push_str(&bodies)?;
    write_answer(writer, text.as_bytes())
}

/// Writes what the store holds that is in a database, with the bodies of messages, as [`show_bodies`] does. The connection is handed
/// back. Without the tables of a store nothing is read or written: `StoreFault`.
pub fn show_bodies_over<S: Alter + Drop, W: Write>(
    alloc: Global,
    conn: Connection<S>,
    form: BytesForm,
    writer: &mut W,
) -> (Result<(), CommandError>, Connection<S>)
    requires { conn.in_transaction ≡ false }
    ensures text { IsTrue (is_sure (state S.Store result.1)) → IsFormed (state S.Store conn)
        → OnOk result.0 ((text : List ℕ) × (bodies : List ℕ) × IsShown (content_in (state S.Store conn).now) text
        × AreBodies form (content_in (state S.Store conn).now) bodies
        × Appends (W.contents writer.old) (W.contents writer.new) (text ++ bodies)) }
    ensures error { IfErr result.0 IsNoMatterOfContent }
    ensures no_tables { RefusesWithoutTables (state S.Store conn) conn result }
    ensures silent { IfErr result.0 (λ error. IsSilent error (Keeps (W.contents writer.old) (W.contents writer.new))) }
    ensures same { LeavesTables (state S.Store conn) (state S.Store result.1) }
{
    match SqlStable::adopt(alloc, conn) {
        Ok(mut store) => {
            let told = show_bodies(alloc, &mut store, form, writer);
            (told, store.into_connection())
        }
        Err((_, conn)) => (Err(CommandError::StoreFault), conn),
    }
}

/// Writes what the store holds that the database of these bytes is, with the bodies of messages: of two tables, as [`show_bodies_over`]
/// does, or of five, which a run can take up, as [`show_all_bodies`] does. Bytes that hold no store are a `StoreFault`. Refused, nothing
/// is written, unless it was the writer that refused.
pub fn show_bodies_in<W: Write>(
    alloc: Global,
    bytes: &DatabaseBytes,
    form: BytesForm,
    writer: &mut W,
) -> Result<(), CommandError>
    ensures text { OnOk result ((text : List ℕ)
        × IsSoIn bytes.now.file.items bytes.now.log.items (λ held. IsShownWithBodies form held text)
        × Appends (W.contents writer.old) (W.contents writer.new) text) }
    ensures error { IfErr result IsNoMatterOfContent }
    ensures silent { IfErr result (λ error. IsSilent error (Keeps (W.contents writer.old) (W.contents writer.new))) }
{
    let text = shown(alloc, bytes, form)?;
    write_answer(writer, &text)
}

// Returns the text that `show_bodies_in` writes.
fn shown(alloc: Global, bytes: &DatabaseBytes, form: BytesForm) -> Result<Vec<u8>, CommandError>
    ensures text { IfOk result (λ text. IsSoIn bytes.now.file.items bytes.now.log.items (λ held. IsShownWithBodies form held text.items)) }
    ensures error { IfErr result IsNoMatterOfContent }
    ensures silent { result ≢ Err CommandError.CannotWrite }
{
    match SqlLedger::adopt(opened(alloc, bytes)?) {
        Ok(store) => shown_of_five(alloc, store, form),
        Err((_, conn)) => shown_of_two(alloc, conn, form),
    }
}

// Returns the text that `show_bodies_in` writes of a store of five tables,
// whatever these lie in: a call at files is dear to prove.
fn text_of_five<D: Alter + Drop>(
    alloc: Global,
    store: &mut SqlLedger<D>,
    form: BytesForm,
) -> Result<Vec<u8>, CommandError>
    ensures error { IfErr result IsNoMatterOfContent }
    ensures silent { result ≢ Err CommandError.CannotWrite }
{
    let mut text = Vec::new(alloc);
    in_memory(show_all_bodies(alloc, store, form, &mut text))?;
    Ok(text)
}

// Returns the text that `show_bodies_in` writes of a store of five tables.
#[inline(never)]
fn shown_of_five(
    alloc: Global,
    mut store: SqlLedger<FileStore<Memory>>,
    form: BytesForm,
) -> Result<Vec<u8>, CommandError>
    ensures error { IfErr result IsNoMatterOfContent }
    ensures silent { result ≢ Err CommandError.CannotWrite }
{
    let text = text_of_five(alloc, &mut store, form);
    drop(store);
    text
}

// Returns the text that `show_bodies_in` writes of a store of two tables.
#[inline(never)]
fn shown_of_two(
    alloc: Global,
    conn: Connection<FileStore<Memory>>,
    form: BytesForm,
) -> Result<Vec<u8>, CommandError>
    requires { conn.in_transaction ≡ false }
    ensures text { IfOk result (λ text. IsFormed (file_state conn)
        → IsShownWithBodies form (content_in (file_state conn).now) text.items) }
    ensures error { IfErr result IsNoMatterOfContent }
    ensures silent { result ≢ Err CommandError.CannotWrite }
{
    let mut text = Vec::new(alloc);
    let (told, conn) = show_bodies_over(alloc, conn, form, &mut text);
    known(told, conn)?;
    Ok(text)
}
