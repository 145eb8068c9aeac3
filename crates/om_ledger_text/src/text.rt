//! The text of all that a store keeps beside its records.

ghost use Rattle.std.specs.Prelude.{◌≡◌, ◌++◌, ℕ, List, IfOk, IsErrOf, OnOk, string_bytes};
ghost use Rattle.std.specs.FinMap as map;
ghost use Rattle.om_ledger_text.specs.Lines.{IsLineIn};
ghost use Rattle.om_ledger_text.specs.Shown.{AreShown, IsLedgerShown};
ghost use Rattle.om_look.specs.Lines.{AreLines};
ghost use Rattle.om_look.specs.Show.{IsShown};
ghost use Rattle.om_look.specs.declared.fault.LookFault.{LookFault};
ghost use Rattle.om_stable.specs.Calls.{IsCleanCall, UsesStore};
ghost use Rattle.om_stable.specs.Content.{rows_of};
ghost use Rattle.om_stable.specs.Ledger.{in_table};

use crate::rows::push_row;
use om_look::{LookFault, content_text};
use om_stable::{Ledger, LedgerTable, StoreError};
use std::alloc::{AllocError, Global};

/// Returns the text of what a store keeps beside its records: a line for what it is of, for each row of senders, and for each
/// released output. A row that is none has a line that says so. The store keeps all that it holds.
///
/// Refused with `Fault` and `Memory` where they arise.
pub fn ledger_text<S: Ledger>(alloc: Global, store: &mut S) -> Result<String, LookFault>
    ensures text { IsCleanCall S.is_clean S.IsSound store.old store.new
        → IfOk result (λ text. IsLedgerShown (S.ledger store.old) (string_bytes text)) }
    ensures same { IsCleanCall S.is_clean S.IsSound store.old store.new → S.content store.new ≡ S.content store.old }
    ensures tables { IsCleanCall S.is_clean S.IsSound store.old store.new → S.ledger store.new ≡ S.ledger store.old }
    ensures used { UsesStore S.failed S.is_clean S.IsSound store.old (IsErrOf result LookFault.Fault) store.new }
{
    let about = rows_in(alloc, store, LedgerTable::About)?;
    let senders = rows_in(alloc, store, LedgerTable::Senders)?;
    let outputs = rows_in(alloc, store, LedgerTable::Outputs)?;
    Ok(text_of(alloc, &about, &senders, &outputs)?)
}

/// Returns the text of all that a store holds: that of its records, as [`content_text`] makes it, and behind it that of what it
/// keeps beside them. Its content stays.
///
/// Refused with `Fault` and `Memory` where they arise.
pub fn all_text<S: Ledger>(alloc: Global, store: &mut S) -> Result<String, LookFault>
    ensures text { IsCleanCall S.is_clean S.IsSound store.old store.new
        → IfOk result (λ all. (text : List ℕ) × (more : List ℕ) × IsShown (S.content store.old) text
        × IsLedgerShown (S.ledger store.old) more × (string_bytes all ≡ text ++ more)) }
    ensures same { IsCleanCall S.is_clean S.IsSound store.old store.new → S.content store.new ≡ S.content store.old }
    ensures used { UsesStore S.failed S.is_clean S.IsSound store.old (IsErrOf result LookFault.Fault) store.new }
{
    // The text of the records says nothing of the tables, which are read first.
    let more = ledger_text(alloc, store)?;
    let mut text = content_text(alloc, store)?;
    text.push_str(&more)?;
    Ok(text)
}

// Reads the rows of a table.
fn rows_in<S: Ledger>(
    alloc: Global,
    store: &mut S,
    table: LedgerTable,
) -> Result<Vec<(u64, Vec<u8>)>, LookFault>
    ensures found { IsCleanCall S.is_clean S.IsSound store.old store.new
        → IfOk result (λ found. rows_of found.items ≡ map.entries (in_table (S.ledger store.old) table)) }
    ensures same { IsCleanCall S.is_clean S.IsSound store.old store.new → S.content store.new ≡ S.content store.old }
    ensures tables { IsCleanCall S.is_clean S.IsSound store.old store.new → S.ledger store.new ≡ S.ledger store.old }
    ensures used { UsesStore S.failed S.is_clean S.IsSound store.old (IsErrOf result LookFault.Fault) store.new }
{
    match store.all_in(alloc, table) {
        Ok(found) => Ok(found),
        Err(StoreError::Memory) => Err(LookFault::Memory),
        Err(_) => Err(LookFault::Fault),
    }
}

// Returns the text of the rows of the three tables.
fn text_of(
    alloc: Global,
    about: &[(u64, Vec<u8>)],
    senders: &[(u64, Vec<u8>)],
    outputs: &[(u64, Vec<u8>)],
) -> Result<String, AllocError>
    ensures { IfOk result (λ text. AreShown (rows_of about.now) (rows_of senders.now) (rows_of outputs.now) (string_bytes text)) }
{
    let mut text = String::new(alloc);
    push_rows(alloc, &mut text, LedgerTable::About, about)?;
    push_rows(alloc, &mut text, LedgerTable::Senders, senders)?;
    push_rows(alloc, &mut text, LedgerTable::Outputs, outputs)?;
    Ok(text)
}

// Writes the lines of a table's rows.
fn push_rows(
    alloc: Global,
    text: &mut String,
    table: LedgerTable,
    rows: &[(u64, Vec<u8>)],
) -> Result<(), AllocError>
    ensures { OnOk result ((lines : List ℕ) × AreLines (IsLineIn table) (rows_of rows.now) lines
        × (string_bytes text.new ≡ string_bytes text.old ++ lines)) }
{
    for (number, bytes) in rows {
        push_row(alloc, text, table, *number, bytes)?;
    }
    Ok(())
}
