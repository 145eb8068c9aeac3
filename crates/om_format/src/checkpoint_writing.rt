//! The parts of a checkpoint, each written behind what was written before.

ghost use Rattle.std.specs.Prelude.{◌≡◌, ◌<◌, ◌≤◌, ◌^◌, ◌++◌, ℕ, All, OnOk, length, map, slice_index};
ghost use Rattle.std.specs.List.{flat_map};
ghost use Rattle.om_format.specs.steps.CheckpointBytes.{head_bytes, vector_bytes, page_bytes, memory_bytes, entry_bytes, message_bytes, output_bytes, AreWords};
ghost use Rattle.om_format.specs.Formats.{four};
ghost use Rattle.om_format.specs.Queues.{queue_record};
ghost use Rattle.om_format.specs.Spelling.{numbers};
ghost use Rattle.om_pages.specs.Pages.{page_at, page_count, kept_pages};
ghost use Rattle.om_format.specs.Versions.{kind_of};
ghost use Rattle.om_isa.specs.declared.memory.TheConstants.{MAX_MEMORY};

use crate::head::Head;
use crate::limits::{CHECKPOINT_KIND, CHECKPOINT_KIND_M, CHECKPOINT_VERSION_2};
use crate::queue::{Queue, QueueEntry};
use om_isa::Ext;
use om_pages::{PAGE, page_of};
use std::alloc::AllocError;

// Returns the kind of a checkpoint, which tells which instructions its program may use.
fn kind_of(ext: Ext) -> u8
    ensures { result ≡ kind_of ext }
{
    match ext {
        Ext::I => CHECKPOINT_KIND,
        Ext::Im => CHECKPOINT_KIND_M,
    }
}

pub(crate) fn put_head(out: &mut Vec<u8>, head: &Head) -> Result<(), AllocError>
    ensures bytes { OnOk result (out.new.items ≡ out.old.items ++ head_bytes (length head.now.vec) head.now) }
    ensures interval { OnOk result (head.now.interval < 2 ^ 32) }
    ensures count { OnOk result (head.now.count < 2 ^ 64) }
    ensures pc { OnOk result (head.now.pc < 2 ^ 32) }
{
    out.extend_from_slice(&[kind_of(head.ext), CHECKPOINT_VERSION_2])?;
    out.extend_from_slice(&[head.vec.n() as u8, head.pid.index() as u8])?;
    out.extend_from_slice(&head.interval.to_le_bytes())?;
    out.extend_from_slice(&head.count.to_le_bytes())?;
    out.extend_from_slice(&head.pc.to_le_bytes())?;
    Ok(())
}

fn put_words(out: &mut Vec<u8>, words: &[u32]) -> Result<(), AllocError>
    ensures bytes { OnOk result (out.new.items ≡ out.old.items ++ numbers four words.now) }
    ensures within { OnOk result (AreWords words.now) }
{
    for word in words {
        out.extend_from_slice(&word.to_le_bytes())?;
    }
    Ok(())
}

pub(crate) fn put_vectors(out: &mut Vec<u8>, head: &Head) -> Result<(), AllocError>
    ensures bytes { OnOk result (out.new.items ≡ out.old.items ++ vector_bytes head.now) }
    ensures regs { OnOk result (AreWords head.now.regs) }
    ensures vec { OnOk result (AreWords head.now.vec) }
    ensures got { OnOk result (AreWords head.now.got) }
    ensures sent { OnOk result (AreWords head.now.sent) }
{
    put_words(out, &head.regs)?;
    put_words(out, head.vec.as_slice())?;
    put_words(out, head.got.as_slice())?;
    put_words(out, head.sent.as_slice())?;
    Ok(())
}

// Writes a page of a memory that has this index.
fn put_page(out: &mut Vec<u8>, index: usize, page: &[u8]) -> Result<(), AllocError>
    requires { index < 2 ^ 16 }
    ensures { OnOk result (out.new.items ≡ out.old.items ++ page_bytes (record { index = index; bytes = page.now })) }
{
    out.extend_from_slice(&(index as u16).to_le_bytes())?;
    out.extend_from_slice(page)?;
    Ok(())
}

// Writes the pages of a memory that have these indices.
fn put_pages(out: &mut Vec<u8>, memory: &[u8], indices: &[u16]) -> Result<(), AllocError>
    requires most { length memory.now ≤ MAX_MEMORY }
    requires within { All (λ index. index < page_count (length memory.now)) indices.now }
    ensures { OnOk result (out.new.items ≡ out.old.items ++ flat_map page_bytes (map (page_at memory.now) indices.now)) }
{
    for index in indices {
        let page = page_of(memory, usize::from(*index));
        put_page(out, usize::from(*index), page)?;
    }
    Ok(())
}

// Writes the number of outputs, and the memory, of which the pages at these indices are kept.
pub(crate) fn put_memory(
    out: &mut Vec<u8>,
    made: u64,
    memory: &[u8],
    kept: &[u16],
) -> Result<(), AllocError>
    requires most { length memory.now ≤ MAX_MEMORY }
    requires kept { map (page_at memory.now) kept.now ≡ kept_pages memory.now }
    requires within { All (λ index. index < page_count (length memory.now)) kept.now }
    requires few { length kept.now ≤ page_count (length memory.now) }
    ensures { OnOk result (out.new.items ≡ out.old.items ++ memory_bytes made memory.now) }
{
    out.extend_from_slice(&made.to_le_bytes())?;
    out.extend_from_slice(&(memory.len() as u32).to_le_bytes())?;
    out.extend_from_slice(&(kept.len() as u16).to_le_bytes())?;
    put_pages(out, memory, kept)?;
    Ok(())
}

fn put_entries(out: &mut Vec<u8>, entries: &[QueueEntry]) -> Result<(), AllocError>
    ensures { OnOk result (out.new.items ≡ out.old.items ++ flat_map entry_bytes entries.now) }
{
    for entry in entries {
        let body = entry.body.as_slice();
        out.extend_from_slice(&entry.interval.to_le_bytes())?;
        out.extend_from_slice(&(body.len() as u16).to_le_bytes())?;
        out.extend_from_slice(body)?;
    }
    Ok(())
}

// Writes a queue of messages, of which the number of the first has four bytes.
fn put_messages(out: &mut Vec<u8>, queue: &Queue) -> Result<(), AllocError>
    ensures { OnOk result (out.new.items ≡ out.old.items ++ message_bytes (queue_record queue.now)) }
{
    let first = queue.first.to_le_bytes();
    out.extend_from_slice(&[first[0], first[1], first[2], first[3]])?;
    put_entries(out, &queue.entries)
}

pub(crate) fn put_queues(out: &mut Vec<u8>, queues: &[Queue]) -> Result<(), AllocError>
    ensures { OnOk result (out.new.items ≡ out.old.items ++ flat_map message_bytes (map queue_record queues.now)) }
{
    for queue in queues {
        put_messages(out, queue)?;
    }
    Ok(())
}

pub(crate) fn put_outputs(out: &mut Vec<u8>, queue: &Queue) -> Result<(), AllocError>
    ensures bytes { OnOk result (out.new.items ≡ out.old.items ++ output_bytes (queue_record queue.now)) }
    ensures fits { OnOk result ((i : ℕ) → slice_index out.new.items i < 256) }
{
    out.extend_from_slice(&queue.first.to_le_bytes())?;
    put_entries(out, &queue.entries)?;
    Ok(())
}

// Returns the room, in bytes, for all of a checkpoint of n processes, of which so many pages are kept, or the greatest number
// where that is more: it is made at once, and what was written need not be moved.
pub(crate) fn room_for(n: usize, pages: usize, kept: &[Queue], outputs: &Queue) -> usize {
    let mut room = room_for_queue(outputs);
    for queue in kept {
        room = room.saturating_add(room_for_queue(queue));
    }
    room.saturating_add(162)
        .saturating_add(n.saturating_mul(12))
        .saturating_add((PAGE + 2).saturating_mul(pages))
}

// Returns no less than a queue has bytes.
fn room_for_queue(queue: &Queue) -> usize {
    let mut room: usize = 8;
    for entry in &queue.entries {
        room = room.saturating_add(6 + entry.body.as_slice().len());
    }
    room
}
