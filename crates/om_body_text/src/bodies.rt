//! The bodies of messages, a line for each.

ghost use Rattle.std.specs.Prelude.{◌≡◌, ◌≢◌, ◌++◌, ℕ, List, IfOk, IsErrOf, OnOk, string_bytes};
ghost use Rattle.om_body_text.specs.Bodies.{AreBodies, IsBodyLine, message_line};
ghost use Rattle.om_format.specs.Receipts.{receipt_record};
ghost use Rattle.om_format.specs.declared.error.DecodeError.{DecodeError};
ghost use Rattle.om_look.specs.Lines.{AreLines};
ghost use Rattle.om_look.specs.declared.fault.LookFault.{LookFault};
ghost use Rattle.om_process.specs.declared.limits.TheConstants.{LAST_INTERVAL};
ghost use Rattle.om_stable.specs.Calls.{IsCleanCall, UsesStore};
ghost use Rattle.om_stable.specs.Content.{between, rows_of};

use om_commands::{BytesForm, push_bytes_in};
use om_format::{DecodeError, Receipt, decode_receipt};
use om_look::LookFault;
use om_process::LAST_INTERVAL;
use om_stable::{Stable, StoreError};
use std::alloc::{AllocError, Global};
use std::fmt::Write;

/// Returns a line for the body of each receipt that a store holds, in order: the interval that it began, its sender, and its bytes in
/// a form. A receipt that is damaged has no line. The store keeps its content.
///
/// Refused with `Fault` and `Memory` where they arise.
pub fn bodies_text<S: Stable>(
    alloc: Global,
    store: &mut S,
    form: BytesForm,
) -> Result<String, LookFault>
    ensures text { IsCleanCall S.is_clean S.IsSound store.old store.new
        → IfOk result (λ text. AreBodies form (S.content store.old) (string_bytes text)) }
    ensures same { IsCleanCall S.is_clean S.IsSound store.old store.new → S.content store.new ≡ S.content store.old }
    ensures used { UsesStore S.failed S.is_clean S.IsSound store.old (IsErrOf result LookFault.Fault) store.new }
{
    let receipts = receipts_of(alloc, store)?;
    let mut text = String::new(alloc);
    push_bodies(alloc, &mut text, form, &receipts)?;
    Ok(text)
}

// Reads all receipts.
fn receipts_of<S: Stable>(alloc: Global, store: &mut S) -> Result<Vec<(u32, Vec<u8>)>, LookFault>
    ensures found { IsCleanCall S.is_clean S.IsSound store.old store.new
        → IfOk result (λ found. rows_of found.items ≡ between (S.content store.old).receipts 0 LAST_INTERVAL) }
    ensures same { IsCleanCall S.is_clean S.IsSound store.old store.new → S.content store.new ≡ S.content store.old }
    ensures used { UsesStore S.failed S.is_clean S.IsSound store.old (IsErrOf result LookFault.Fault) store.new }
{
    match store.receipts(alloc, 0, LAST_INTERVAL) {
        Ok(found) => Ok(found),
        Err(StoreError::Memory) => Err(LookFault::Memory),
        Err(_) => Err(LookFault::Fault),
    }
}

// Writes the lines of the bodies of these receipts.
fn push_bodies(
    alloc: Global,
    text: &mut String,
    form: BytesForm,
    receipts: &[(u32, Vec<u8>)],
) -> Result<(), AllocError>
    ensures { OnOk result ((lines : List ℕ) × AreLines (IsBodyLine form) (rows_of receipts.now) lines
        × (string_bytes text.new ≡ string_bytes text.old ++ lines)) }
{
    for (x, bytes) in receipts {
        push_line(alloc, text, form, *x, bytes)?;
    }
    Ok(())
}

// Writes the line of the body of a receipt, if it is one.
fn push_line(
    alloc: Global,
    text: &mut String,
    form: BytesForm,
    x: u32,
    bytes: &[u8],
) -> Result<(), AllocError>
    ensures { OnOk result ((line : List ℕ) × IsBodyLine form (x, bytes.now) line
        × (string_bytes text.new ≡ string_bytes text.old ++ line)) }
{
    match decode_receipt(alloc, bytes) {
        Ok(receipt) => push_message(alloc, text, form, x, &receipt),
        Err(error) => refuse_memory(error),
    }
}

// Passes over bytes that are no receipt: only memory that ran out is refused.
fn refuse_memory(error: DecodeError) -> Result<(), AllocError>
    ensures { OnOk result (error ≢ DecodeError.Memory) }
{
    match error {
        DecodeError::Memory => Err(AllocError),
        DecodeError::Short
        | DecodeError::Kind
        | DecodeError::Version
        | DecodeError::Field(_)
        | DecodeError::Trailing => Ok(()),
    }
}

// Writes the line of a message, if the receipt tells of this interval.
fn push_message(
    alloc: Global,
    text: &mut String,
    form: BytesForm,
    x: u32,
    receipt: &Receipt,
) -> Result<(), AllocError>
    ensures { OnOk result (string_bytes text.new
        ≡ string_bytes text.old ++ message_line form x (receipt_record receipt.now)) }
{
    if receipt.interval != x {
        return Ok(());
    }
    let from = receipt.from.index();
    write!(text, "body {x} from {from} ")?;
    push_bytes_in(alloc, text, form, receipt.body.as_slice())?;
    text.push('\n')
}
