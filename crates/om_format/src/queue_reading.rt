//! The queues of a checkpoint.

ghost use Rattle.std.specs.Prelude.{◌+◌, ◌<◌, ◌^◌, IfOk, length, map};
ghost use Rattle.om_format.specs.Formats.{four, eight};
ghost use Rattle.om_format.specs.Outcomes.{Gives};
ghost use Rattle.om_format.specs.steps.CheckpointReading.{entry_at, entries_at, queue_at, queues_at};
ghost use Rattle.om_format.specs.Queues.{queue_record};
ghost use Rattle.om_format.specs.steps.Reading.{LeavesBehind};

use crate::body::Body;
use crate::error::DecodeError;
use crate::queue::{Queue, QueueEntry};
use crate::reading::{Taken, body_at, u32_at, u64_at};
use std::alloc::Global;

// Reads an entry from the interval `low` on, and not newer than the checkpoint.
#[tactic(auto, unfolding(crate::specs::steps::CheckpointReading::entry_at))]
fn entry_at<'a>(
    alloc: Global,
    newest: u32,
    low: u32,
    offset: usize,
    bytes: &'a [u8],
) -> Result<Taken<'a, QueueEntry>, DecodeError>
    requires room { offset + length bytes.now < 2 ^ 64 }
    ensures exact { Gives (λ x. (x.value, x.offset, x.rest.now)) result (entry_at newest low offset bytes.now) }
    ensures left { IfOk result (λ x. LeavesBehind offset bytes.now x.offset x.rest.now) }
{
    let (interval, rest) = u32_at(bytes)?;
    if interval < low || interval > newest {
        return Err(DecodeError::Field(offset));
    }
    let (content, rest) = body_at(offset + 4, rest)?;
    let body = Body::from_slice(alloc, content)?;
    Ok(Taken {
        value: QueueEntry { interval, body },
        offset: offset + 6 + content.len(),
        rest,
    })
}

// Reads `count` entries, as long as there are bytes.
fn entries_at<'a>(
    alloc: Global,
    newest: u32,
    count: u64,
    offset: usize,
    bytes: &'a [u8],
) -> Result<Taken<'a, Vec<QueueEntry>>, DecodeError>
    requires room { offset + length bytes.now < 2 ^ 64 }
    ensures exact { Gives (λ x. (x.value.items, x.offset, x.rest.now)) result
        (entries_at newest 0 count offset bytes.now) }
    ensures left { IfOk result (λ x. LeavesBehind offset bytes.now x.offset x.rest.now) }
{
    let mut value = Vec::new(alloc);
    let mut low = 0;
    let mut offset = offset;
    let mut rest = bytes;
    for _ in 0..count {
        let taken = entry_at(alloc, newest, low, offset, rest)?;
        low = taken.value.interval;
        offset = taken.offset;
        rest = taken.rest;
        value.push(taken.value)?;
    }
    Ok(Taken {
        value,
        offset,
        rest,
    })
}

// Reads the kept messages to one process, up to the number `stop`.
#[tactic(auto, unfolding(crate::specs::steps::CheckpointReading::queue_at))]
fn messages_at<'a>(
    alloc: Global,
    newest: u32,
    stop: u32,
    offset: usize,
    bytes: &'a [u8],
) -> Result<Taken<'a, Queue>, DecodeError>
    requires room { offset + length bytes.now < 2 ^ 64 }
    ensures exact { Gives (λ x. (queue_record x.value, x.offset, x.rest.now)) result
        (queue_at four newest stop offset bytes.now) }
    ensures left { IfOk result (λ x. LeavesBehind offset bytes.now x.offset x.rest.now) }
{
    let (first, rest) = u32_at(bytes)?;
    if first > stop {
        return Err(DecodeError::Field(offset));
    }
    let kept = entries_at(alloc, newest, u64::from(stop - first), offset + 4, rest)?;
    Ok(Taken {
        value: Queue {
            first: u64::from(first),
            entries: kept.value,
        },
        offset: kept.offset,
        rest: kept.rest,
    })
}

// Reads the kept outputs, up to the number `stop`.
#[tactic(auto, unfolding(crate::specs::steps::CheckpointReading::queue_at))]
pub(crate) fn outputs_at<'a>(
    alloc: Global,
    newest: u32,
    stop: u64,
    offset: usize,
    bytes: &'a [u8],
) -> Result<Taken<'a, Queue>, DecodeError>
    requires room { offset + length bytes.now < 2 ^ 64 }
    ensures { Gives (λ x. (queue_record x.value, x.offset, x.rest.now)) result
        (queue_at eight newest stop offset bytes.now) }
{
    let (first, rest) = u64_at(bytes)?;
    if first > stop {
        return Err(DecodeError::Field(offset));
    }
    let kept = entries_at(alloc, newest, stop - first, offset + 8, rest)?;
    Ok(Taken {
        value: Queue {
            first,
            entries: kept.value,
        },
        offset: kept.offset,
        rest: kept.rest,
    })
}

// Reads the kept messages to each process, up to the numbers `stops`.
pub(crate) fn queues_at<'a>(
    alloc: Global,
    newest: u32,
    stops: &[u32],
    offset: usize,
    bytes: &'a [u8],
) -> Result<Taken<'a, Vec<Queue>>, DecodeError>
    requires room { offset + length bytes.now < 2 ^ 64 }
    ensures exact { Gives (λ x. (map queue_record x.value.items, x.offset, x.rest.now)) result
        (queues_at newest stops.now offset bytes.now) }
    ensures left { IfOk result (λ x. LeavesBehind offset bytes.now x.offset x.rest.now) }
{
    let mut value = Vec::new(alloc);
    let mut offset = offset;
    let mut rest = bytes;
    for stop in stops {
        let taken = messages_at(alloc, newest, *stop, offset, rest)?;
        offset = taken.offset;
        rest = taken.rest;
        value.push(taken.value)?;
    }
    Ok(Taken {
        value,
        offset,
        rest,
    })
}
