//! The text of what a store holds.

ghost use Rattle.std.specs.Prelude.{◌≡◌, ◌++◌, ℕ, List, IfOk, IsErrOf, OnOk, string_bytes};
ghost use Rattle.om_look.specs.Lines.{AreLines, IsReceiptLine};
ghost use Rattle.om_look.specs.Show.{IsShown};
ghost use Rattle.om_look.specs.declared.fault.LookFault.{LookFault};
ghost use Rattle.om_look.specs.steps.Found.{IsTextOf, lines_text};
ghost use Rattle.om_stable.specs.Calls.{IsCleanCall, UsesStore};
ghost use Rattle.om_stable.specs.Content.{rows_of};

use crate::fault::LookFault;
use crate::gathering::{Found, gather};
use crate::lines::push_receipt;
use crate::reading::receipts_of;
use crate::spans::{push_spans, spans_of};
use om_stable::Stable;
use std::alloc::{AllocError, Global};

/// Makes the text of what a store holds: a line for each checkpoint, for each receipt, and for each range of intervals to which
/// the process can be replayed. A record that does not decode has a line too, which says why. The store keeps its content.
///
/// From each checkpoint the process is replayed once, or twice where a receipt is missing behind it: the work is linear in what
/// is stored.
pub fn content_text<S: Stable>(alloc: Global, store: &mut S) -> Result<String, LookFault>
    ensures text { IsCleanCall S.is_clean S.IsSound store.old store.new
        → IfOk result (λ text. IsShown (S.content store.old) (string_bytes text)) }
    ensures same { IsCleanCall S.is_clean S.IsSound store.old store.new → S.content store.new ≡ S.content store.old }
    ensures used { UsesStore S.failed S.is_clean S.IsSound store.old (IsErrOf result LookFault.Fault) store.new }
{
    let found = gather(alloc, store)?;
    let receipts = receipts_of(alloc, store)?;
    text_of(alloc, &found, &receipts)
}

// Returns the text of these records.
fn text_of(alloc: Global, found: &[Found], receipts: &[(u32, Vec<u8>)]) -> Result<String, LookFault>
    ensures text { IfOk result (λ text. IsTextOf found.now (rows_of receipts.now) (string_bytes text)) }
    ensures refused { IsErrOf result LookFault.Fault → ⊥ }
{
    let mut text = String::new(alloc);
    push_found(&mut text, found)?;
    push_receipts(alloc, &mut text, receipts)?;
    push_spans(&mut text, &spans_of(alloc, found)?)?;
    Ok(text)
}

// Writes the lines of the checkpoints.
fn push_found(text: &mut String, found: &[Found]) -> Result<(), AllocError>
    ensures { OnOk result (string_bytes text.new ≡ string_bytes text.old ++ lines_text found.now) }
{
    for f in found {
        text.push_str(&f.line)?;
    }
    Ok(())
}

// Writes the lines of the receipts.
fn push_receipts(
    alloc: Global,
    text: &mut String,
    receipts: &[(u32, Vec<u8>)],
) -> Result<(), LookFault>
    ensures lines { OnOk result ((lines : List ℕ) × AreLines IsReceiptLine (rows_of receipts.now) lines
        × (string_bytes text.new ≡ string_bytes text.old ++ lines)) }
    ensures refused { IsErrOf result LookFault.Fault → ⊥ }
{
    for (x, bytes) in receipts {
        push_receipt(alloc, text, *x, bytes)?;
    }
    Ok(())
}
