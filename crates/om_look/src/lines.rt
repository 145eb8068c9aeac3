//! Records as lines.

ghost use Rattle.std.specs.Prelude.{◌≡◌, ◌≢◌, ◌++◌, List, ℕ, Err, OnOk, length, string_bytes};
ghost use Rattle.om_format.specs.CheckpointViews.{checkpoint_record};
ghost use Rattle.om_format.specs.Receipts.{receipt_record};
ghost use Rattle.om_format.specs.declared.error.DecodeError.{DecodeError};
ghost use Rattle.om_look.specs.Lines.{IsCheckpointLine, IsReceiptLine, checkpoint_text, fault_text, receipt_text};
ghost use Rattle.om_look.specs.steps.Saying.{SaysCheckpoint, SaysReceipt, damage_text};
ghost use Rattle.om_look.specs.declared.fault.LookFault.{LookFault};

use crate::fault::LookFault;
use om_format::{Checkpoint, DecodeError, Receipt, decode_checkpoint, decode_receipt};
use std::alloc::{AllocError, Global};
use std::fmt::Write;

// Writes the line of a checkpoint.
pub(crate) fn push_checkpoint(
    alloc: Global,
    text: &mut String,
    x: u32,
    bytes: &[u8],
) -> Result<(), LookFault>
    ensures line { OnOk result ((line : List ℕ) × IsCheckpointLine (x, bytes.now) line
        × (string_bytes text.new ≡ string_bytes text.old ++ line)) }
    ensures refused { result ≢ Err LookFault.Fault }
{
    write!(text, "checkpoint {x}")?;
    say_checkpoint(alloc, text, x, bytes)?;
    text.push('\n')?;
    Ok(())
}

// Writes what a record says as a checkpoint.
fn say_checkpoint(alloc: Global, text: &mut String, x: u32, bytes: &[u8]) -> Result<(), LookFault>
    ensures said { OnOk result ((said : List ℕ) × SaysCheckpoint (x, bytes.now) said
        × (string_bytes text.new ≡ string_bytes text.old ++ said)) }
    ensures refused { result ≢ Err LookFault.Fault }
{
    match decode_checkpoint(alloc, bytes) {
        Ok(checkpoint) => Ok(push_head(text, x, &checkpoint, bytes)?),
        Err(error) => push_damage(text, error),
    }
}

#[tactic(auto, unfolding(crate::specs::Lines::head_text))]
fn push_head(
    text: &mut String,
    x: u32,
    checkpoint: &Checkpoint,
    bytes: &[u8],
) -> Result<(), AllocError>
    ensures { OnOk result (string_bytes text.new
        ≡ string_bytes text.old ++ checkpoint_text (x, bytes.now) (checkpoint_record checkpoint.now)) }
{
    let head = &checkpoint.head;
    let named = head.interval;
    if named != x {
        return write!(text, " damaged interval {named}");
    }
    let pid = head.pid.index();
    let n = head.vec.n();
    let count = head.count;
    let version = bytes.get(1).copied().unwrap_or(0);
    let len = bytes.len();
    write!(
        text,
        " process {pid} of {n} count {count} version {version} bytes {len}"
    )
}

// Writes the line of a receipt.
pub(crate) fn push_receipt(
    alloc: Global,
    text: &mut String,
    x: u32,
    bytes: &[u8],
) -> Result<(), LookFault>
    ensures line { OnOk result ((line : List ℕ) × IsReceiptLine (x, bytes.now) line
        × (string_bytes text.new ≡ string_bytes text.old ++ line)) }
    ensures refused { result ≢ Err LookFault.Fault }
{
    write!(text, "receipt {x}")?;
    say_receipt(alloc, text, x, bytes)?;
    text.push('\n')?;
    Ok(())
}

// Writes what a record says as a receipt.
fn say_receipt(alloc: Global, text: &mut String, x: u32, bytes: &[u8]) -> Result<(), LookFault>
    ensures said { OnOk result ((said : List ℕ) × SaysReceipt (x, bytes.now) said
        × (string_bytes text.new ≡ string_bytes text.old ++ said)) }
    ensures refused { result ≢ Err LookFault.Fault }
{
    match decode_receipt(alloc, bytes) {
        Ok(receipt) => Ok(push_message(text, x, &receipt)?),
        Err(error) => push_damage(text, error),
    }
}

#[tactic(auto, unfolding(crate::specs::Lines::message_text))]
fn push_message(text: &mut String, x: u32, receipt: &Receipt) -> Result<(), AllocError>
    ensures { OnOk result (string_bytes text.new
        ≡ string_bytes text.old ++ receipt_text x (receipt_record receipt.now)) }
{
    let named = receipt.interval;
    if named != x {
        return write!(text, " damaged interval {named}");
    }
    let from = receipt.from.index();
    let sender_interval = receipt.sender_interval;
    let ssn = receipt.ssn;
    let count = receipt.count;
    let len = receipt.body.as_slice().len();
    write!(
        text,
        " from {from} interval {sender_interval} number {ssn} count {count} bytes {len}"
    )
}

// Writes why bytes are no record.
fn push_damage(text: &mut String, error: DecodeError) -> Result<(), LookFault>
    ensures told { OnOk result ((error ≢ DecodeError.Memory)
        × (string_bytes text.new ≡ string_bytes text.old ++ damage_text error)) }
    ensures refused { result ≢ Err LookFault.Fault }
{
    text.push_str(" damaged ")?;
    match error {
        DecodeError::Short => text.push_str("short")?,
        DecodeError::Kind => text.push_str("kind")?,
        DecodeError::Version => text.push_str("version")?,
        DecodeError::Field(offset) => write!(text, "field {offset}")?,
        DecodeError::Trailing => text.push_str("trailing")?,
        DecodeError::Memory => return Err(LookFault::Memory),
    }
    Ok(())
}
