//! Records to bytes.

ghost use Rattle.std.specs.Prelude.{◌≡◌, ◌<◌, ◌≤◌, ℕ, All, IfOk, length, map, slice_index};
ghost use Rattle.om_pages.specs.Pages.{kept_pages, page_at, page_count};
ghost use Rattle.om_format.specs.steps.CheckpointBytes.{checkpoint_bytes, AreWithin};
ghost use Rattle.om_format.specs.CheckpointViews.{checkpoint_record, record_of_parts};
ghost use Rattle.om_format.specs.Checkpoints.{IsCheckpoint, SpellsCheckpoint};
ghost use Rattle.om_format.specs.Receipts.{receipt_record, SpellsReceipt};
ghost use Rattle.om_format.specs.steps.ReceiptBytes.{receipt_bytes, IsReceipt};
ghost use Rattle.om_format.specs.declared.version.Version.TheVariants.{V2};

use crate::checkpoint::Checkpoint;
use crate::checkpoint_writing::{
    put_head, put_memory, put_outputs, put_queues, put_vectors, room_for,
};
use crate::head::Head;
use crate::limits::{RECEIPT_KIND, RECEIPT_VERSION};
use crate::queue::Queue;
use crate::receipt::Receipt;
use om_pages::kept_indices;
use std::alloc::{AllocError, Global};

// The bytes of a receipt before its body.
const RECEIPT_FRONT: usize = 26;

fn receipt_bytes(alloc: Global, receipt: &Receipt) -> Result<Vec<u8>, AllocError>
    ensures bytes { IfOk result (λ v. v.items ≡ receipt_bytes (receipt_record receipt.now)) }
    ensures lawful { IfOk result (λ _. IsReceipt (receipt_record receipt.now)) }
{
    let body = receipt.body.as_slice();
    let mut out = Vec::with_capacity(alloc, RECEIPT_FRONT + body.len())?;
    out.extend_from_slice(&[RECEIPT_KIND, RECEIPT_VERSION])?;
    out.extend_from_slice(&[receipt.to.index() as u8, receipt.from.index() as u8])?;
    out.extend_from_slice(&receipt.interval.to_le_bytes())?;
    out.extend_from_slice(&receipt.sender_interval.to_le_bytes())?;
    out.extend_from_slice(&receipt.ssn.to_le_bytes())?;
    out.extend_from_slice(&receipt.count.to_le_bytes())?;
    out.extend_from_slice(&(body.len() as u16).to_le_bytes())?;
    out.extend_from_slice(body)?;
    Ok(out)
}

/// Returns the bytes that spell a receipt.
pub fn encode_receipt(alloc: Global, receipt: &Receipt) -> Result<Vec<u8>, AllocError>
    ensures { IfOk result (λ v. SpellsReceipt (receipt_record receipt.now) v.items) }
{
    receipt_bytes(alloc, receipt)
}

// Writes the bytes of a checkpoint of these parts.
fn checkpoint_bytes(
    alloc: Global,
    head: &Head,
    memory: &[u8],
    pages: &[u16],
    kept: &[Queue],
    outputs: &Queue,
) -> Result<Vec<u8>, AllocError>
    requires lawful { IsCheckpoint (record_of_parts head.now memory.now kept.now outputs.now) }
    requires pages { map (page_at memory.now) pages.now ≡ kept_pages memory.now }
    requires within { All (λ index. index < page_count (length memory.now)) pages.now }
    requires few { length pages.now ≤ page_count (length memory.now) }
    ensures bytes { IfOk result (λ v. v.items ≡ checkpoint_bytes (record_of_parts head.now memory.now kept.now outputs.now)) }
    ensures fits { IfOk result (λ v. (i : ℕ) → slice_index v.items i < 256) }
    ensures within { IfOk result (λ _. AreWithin head.now) }
{
    let room = room_for(head.vec.n(), pages.len(), kept, outputs);
    let mut out = Vec::with_capacity(alloc, room)?;
    put_head(&mut out, head)?;
    put_vectors(&mut out, head)?;
    put_memory(&mut out, head.made, memory, pages)?;
    put_queues(&mut out, kept)?;
    put_outputs(&mut out, outputs)?;
    Ok(out)
}

/// Returns the bytes that spell a checkpoint in version 2. What is kept of its memory is copied once.
pub fn encode_checkpoint(alloc: Global, checkpoint: &Checkpoint) -> Result<Vec<u8>, AllocError>
    ensures { IfOk result (λ v. SpellsCheckpoint V2 (checkpoint_record checkpoint.now) v.items) }
{
    let memory = checkpoint.memory.as_slice();
    let pages = kept_indices(alloc, memory)?;
    encode_parts(
        alloc,
        &checkpoint.head,
        memory,
        &pages,
        &checkpoint.kept,
        &checkpoint.outputs,
    )
}

/// Returns the bytes that spell a checkpoint of these parts in version 2: its head, its memory, the messages that are kept, by
/// receiver, and the outputs. What is kept of the memory is copied once, and no other page of it is looked at.
///
/// `pages` are the indices of the memory's pages that are kept, from the least on.
pub fn encode_parts(
    alloc: Global,
    head: &Head,
    memory: &[u8],
    pages: &[u16],
    kept: &[Queue],
    outputs: &Queue,
) -> Result<Vec<u8>, AllocError>
    requires lawful { IsCheckpoint (record_of_parts head.now memory.now kept.now outputs.now) }
    requires pages { map (page_at memory.now) pages.now ≡ kept_pages memory.now }
    requires within { All (λ index. index < page_count (length memory.now)) pages.now }
    requires few { length pages.now ≤ page_count (length memory.now) }
    ensures { IfOk result (λ v. SpellsCheckpoint V2 (record_of_parts head.now memory.now kept.now outputs.now) v.items) }
{
    checkpoint_bytes(alloc, head, memory, pages, kept, outputs)
}
