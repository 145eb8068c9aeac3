//! A row of a table as a line.

ghost use Rattle.std.specs.Prelude.{◌≡◌, ◌++◌, ◌∷◌, ℕ, List, OnOk, string_bytes};
ghost use Rattle.om_ledger_text.specs.Lines.{IsLineIn, SaysAbout, SaysIn, SaysOutput, output_text, table_text};
ghost use Rattle.om_look.specs.Trace.{body_text};

use crate::about::{about_in, push_about};
use om_process::Made;
use om_restart::{OUTPUT_HEAD, read_output};
use om_stable::LedgerTable;
use std::alloc::{AllocError, Global};
use std::fmt::Write;

// Writes the line of a row of a table.
pub(crate) fn push_row(
    alloc: Global,
    text: &mut String,
    table: LedgerTable,
    number: u64,
    bytes: &[u8],
) -> Result<(), AllocError>
    ensures { OnOk result ((line : List ℕ) × IsLineIn table (number, bytes.now) line
        × (string_bytes text.new ≡ string_bytes text.old ++ line)) }
{
    let word = table_word(table);
    write!(text, "{word} {number}")?;
    say(alloc, text, table, number, bytes)?;
    text.push('\n')
}

fn table_word(table: LedgerTable) -> &'static str
    ensures { result.now ≡ table_text table }
{
    match table {
        LedgerTable::Outputs => "output",
        LedgerTable::Senders => "senders",
        LedgerTable::About => "about",
    }
}

// Writes what a row of a table says.
fn say(
    alloc: Global,
    text: &mut String,
    table: LedgerTable,
    number: u64,
    bytes: &[u8],
) -> Result<(), AllocError>
    ensures { OnOk result ((said : List ℕ) × SaysIn table (number, bytes.now) said
        × (string_bytes text.new ≡ string_bytes text.old ++ said)) }
{
    match table {
        LedgerTable::Outputs => say_output(alloc, text, number, bytes),
        LedgerTable::Senders => push_bytes(alloc, text, bytes),
        LedgerTable::About => say_about(text, bytes),
    }
}

// Writes what a row says as an output.
fn say_output(alloc: Global, text: &mut String, number: u64, bytes: &[u8]) -> Result<(), AllocError>
    ensures { OnOk result ((said : List ℕ) × SaysOutput (number, bytes.now) said
        × (string_bytes text.new ≡ string_bytes text.old ++ said)) }
{
    match read_output(alloc, number, bytes)? {
        Some(output) => push_output(alloc, text, &output),
        None if bytes.len() < OUTPUT_HEAD => text.push_str(" damaged short"),
        None => text.push_str(" damaged trailing"),
    }
}

fn push_output(alloc: Global, text: &mut String, output: &Made) -> Result<(), AllocError>
    ensures { OnOk result (string_bytes text.new ≡ string_bytes text.old ++ output_text output.now) }
{
    let interval = output.interval;
    write!(text, " interval {interval}")?;
    push_bytes(alloc, text, output.bytes.as_slice())
}

// Writes a space and bytes in hexadecimal, or a mark where there are none.
fn push_bytes(alloc: Global, text: &mut String, bytes: &[u8]) -> Result<(), AllocError>
    ensures { OnOk result (string_bytes text.new ≡ string_bytes text.old ++ 32 ∷ body_text bytes.now) }
{
    text.push(' ')?;
    if bytes.is_empty() {
        return text.push('-');
    }
    text.push_str(&hex::encode(alloc, bytes)?)
}

// Writes what a row says that the store is of.
fn say_about(text: &mut String, bytes: &[u8]) -> Result<(), AllocError>
    ensures { OnOk result ((said : List ℕ) × SaysAbout bytes.now said
        × (string_bytes text.new ≡ string_bytes text.old ++ said)) }
{
    match about_in(bytes) {
        Some(about) => push_about(text, &about),
        None => text.push_str(" damaged"),
    }
}
