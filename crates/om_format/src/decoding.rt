//! Bytes to records.

ghost use Rattle.std.specs.Prelude.{◌≡◌, ◌⊎◌, ◌+◌, ◌*◌, ◌<◌, ◌^◌, Some, Ok, IfOk, IfErr, IsOk, length, map, true};
ghost use Rattle.om_format.specs.CheckpointViews.{checkpoint_record};
ghost use Rattle.om_format.specs.Checkpoints.{CheckpointRecord, IsCheckpoint, IsFrontRead, IsSpelled, SpellsCheckpoint, checkpoint_fault};
ghost use Rattle.om_isa.specs.Memory.{is_memory_size};
ghost use Rattle.om_format.specs.FirstFault.{AreRead};
ghost use Rattle.om_format.specs.Outcomes.{Gives};
ghost use Rattle.om_format.specs.steps.Telling.{Tells};
ghost use Rattle.om_format.specs.Queues.{queue_record};
ghost use Rattle.om_format.specs.Receipts.{ReceiptRecord, receipt_record, receipt_fault, receipt_format, SpellsReceipt};
ghost use Rattle.om_format.specs.steps.CheckpointReading.{before_memory_at, rest_at, checkpoint_of};
ghost use Rattle.om_format.specs.steps.Offsets.{memory_offset};
ghost use Rattle.om_format.specs.steps.Reading.{ends_at, order_at, receipt_fields_at, receipt_at};
ghost use Rattle.om_format.specs.declared.version.Version.{Version};
ghost use Rattle.om_interval.specs.declared.pid.TheConstants.{MAX_PROCESSES};

use crate::body::Body;
use crate::checkpoint::Checkpoint;
use crate::checkpoint_reading::{Front, front_at};
use crate::error::DecodeError;
use crate::limits::{RECEIPT_KIND, RECEIPT_VERSION};
use crate::memory::MemoryBytes;
use crate::memory_reading::memory_at;
use crate::offsets::memory_offset;
use crate::queue::Queue;
use crate::queue_reading::{outputs_at, queues_at};
use crate::reading::{body_at, end_at, pid_at, u8_at, u32_at, u64_at};
use crate::receipt::Receipt;
use om_interval::Pid;
use std::alloc::Global;

// Reads the receiver and the sender, behind the kind and the version.
#[tactic(auto, unfolding(crate::specs::steps::Reading::ends_at, crate::specs::steps::Reading::opening_at))]
fn ends_at(bytes: &[u8]) -> Result<(usize, usize, &[u8]), DecodeError>
    ensures exact { Tells (λ x. (x.0, x.1, x.2.now)) result (ends_at bytes.now) }
    ensures to { IfOk result (λ x. x.0 < MAX_PROCESSES) }
    ensures from { IfOk result (λ x. x.1 < MAX_PROCESSES) }
{
    let (kind, rest) = u8_at(bytes)?;
    if kind != RECEIPT_KIND {
        return Err(DecodeError::Kind);
    }
    let (version, rest) = u8_at(rest)?;
    if version != RECEIPT_VERSION {
        return Err(DecodeError::Version);
    }
    let (to, rest) = pid_at(2, rest)?;
    let (from, rest) = pid_at(3, rest)?;
    Ok((to, from, rest))
}

// Reads the interval of the receiver, that of the sender, and the number of the message.
#[tactic(auto, unfolding(crate::specs::steps::Reading::order_at))]
fn order_at(bytes: &[u8]) -> Result<(u32, u32, u32, &[u8]), DecodeError>
    ensures exact { Tells (λ x. (x.0, x.1, x.2, x.3.now)) result (order_at bytes.now) }
    ensures numbered { IfOk result (λ x. x.2 < x.0) }
{
    let (interval, rest) = u32_at(bytes)?;
    if interval < 1 {
        return Err(DecodeError::Field(4));
    }
    let (sender_interval, rest) = u32_at(rest)?;
    let (ssn, rest) = u32_at(rest)?;
    if ssn >= interval {
        return Err(DecodeError::Field(12));
    }
    Ok((interval, sender_interval, ssn, rest))
}

#[tactic(auto, unfolding(crate::specs::steps::Reading::receipt_at, crate::specs::steps::Reading::receipt_fields_at))]
fn receipt_at(alloc: Global, bytes: &[u8]) -> Result<Receipt, DecodeError>
    ensures exact { Gives receipt_record result (receipt_at bytes.now) }
    ensures memory { IfErr result (λ e. e ≡ DecodeError.Memory → IsOk (receipt_fields_at bytes.now)) }
{
    let (to, from, rest) = ends_at(bytes)?;
    let (interval, sender_interval, ssn, rest) = order_at(rest)?;
    let (count, rest) = u64_at(rest)?;
    let (body, rest) = body_at(24, rest)?;
    let body = Body::from_slice(alloc, body)?;
    end_at(rest)?;
    Ok(Receipt {
        to: Pid::at(to),
        from: Pid::at(from),
        interval,
        sender_interval,
        ssn,
        count,
        body,
    })
}

/// Reads the receipt that the bytes spell, all of the bytes; else returns the first fault of the bytes from the left.
/// `Memory` where there was none for the body, and every field is whole and allowed.
pub fn decode_receipt(alloc: Global, bytes: &[u8]) -> Result<Receipt, DecodeError>
    ensures found { IfOk result (λ r. SpellsReceipt (receipt_record r) bytes.now) }
    ensures only { (r : ReceiptRecord) → SpellsReceipt r bytes.now → Gives receipt_record result (Ok r) }
    ensures fault { IfErr result (λ e. (receipt_fault bytes.now ≡ Some e)
        ⊎ ((e ≡ DecodeError.Memory) × AreRead receipt_format bytes.now)) }
{
    receipt_at(alloc, bytes)
}

// The memory and the queues of a checkpoint.
#[derive(Drop)]
struct Rest {
    memory: MemoryBytes,
    kept: Vec<Queue>,
    outputs: Queue,
}

#[tactic(auto, unfolding(crate::specs::steps::CheckpointReading::rest_at))]
fn rest_at(alloc: Global, front: &Front, bytes: &[u8]) -> Result<Rest, DecodeError>
    requires size { is_memory_size front.now.size ≡ true }
    requires room { memory_offset front.now.n + length bytes.now < 2 ^ 64 }
    ensures exact { Gives (λ x. (x.memory, map queue_record x.kept.items, queue_record x.outputs)) result
        (rest_at front.now bytes.now) }
    ensures memory { IfErr result (λ e. e ≡ DecodeError.Memory
        → IsOk (before_memory_at front.now.version front.now.size (memory_offset front.now.n) bytes.now)) }
{
    let head = front.head;
    let memory = memory_at(
        alloc,
        front.version,
        front.size,
        memory_offset(front.n),
        bytes,
    )?;
    let stops = head.sent.as_slice();
    let kept = queues_at(alloc, head.interval, stops, memory.offset, memory.rest)?;
    let outputs = outputs_at(alloc, head.interval, head.made, kept.offset, kept.rest)?;
    end_at(outputs.rest)?;
    Ok(Rest {
        memory: memory.value,
        kept: kept.value,
        outputs: outputs.value,
    })
}

/// Reads the checkpoint that the bytes spell in one of the versions, all of the bytes; else returns the first fault of the
/// bytes from the left. `Memory` where there was none for the memory or a queue, and the fields before the bytes of the
/// memory are whole and allowed.
pub fn decode_checkpoint(alloc: Global, bytes: &[u8]) -> Result<Checkpoint, DecodeError>
    ensures found { IfOk result (λ c. IsSpelled (checkpoint_record c) bytes.now) }
    ensures only { (version : Version) (r : CheckpointRecord) → SpellsCheckpoint version r bytes.now
        → Gives checkpoint_record result (Ok r) }
    ensures fault { IfErr result (λ e. (checkpoint_fault bytes.now ≡ Some e)
        ⊎ ((e ≡ DecodeError.Memory) × IsFrontRead bytes.now)) }
{
    match front_at(bytes) {
        Ok((front, behind)) => match rest_at(alloc, &front, behind) {
            Ok(rest) => Ok(fitted(front, rest)),
            Err(fault) => Err(fault),
        },
        Err(fault) => Err(fault),
    }
}

// Makes the checkpoint of these parts.
fn fitted(front: Front, rest: Rest) -> Checkpoint
    requires { IsCheckpoint (checkpoint_of front rest.memory (map queue_record rest.kept.items) (queue_record rest.outputs)) }
    ensures { checkpoint_record result
        ≡ checkpoint_of front rest.memory (map queue_record rest.kept.items) (queue_record rest.outputs) }
{
    let Rest {
        memory,
        kept,
        outputs,
    } = rest;
    Checkpoint {
        head: front.head,
        memory,
        kept,
        outputs,
    }
}
