//! The memory of a checkpoint.

ghost use Rattle.std.specs.Prelude.{◌≡◌, ◌+◌, ◌<◌, ◌≤◌, ◌^◌, IfOk, IfErr, IsOk, length, true};
ghost use Rattle.om_isa.specs.declared.memory.TheConstants.{MAX_MEMORY};
ghost use Rattle.om_isa.specs.Memory.{is_memory_size};
ghost use Rattle.om_format.specs.Outcomes.{Gives};
ghost use Rattle.om_format.specs.steps.Telling.{Tells};
ghost use Rattle.om_pages.specs.Pages.{page_count, page_size};
ghost use Rattle.om_format.specs.steps.CheckpointReading.{next_page_at, pages_at, memory_at, before_memory_at};
ghost use Rattle.om_format.specs.declared.version.Version.TheVariants.{V2};
ghost use Rattle.om_format.specs.steps.Reading.{LeavesBehind};

use crate::error::DecodeError;
use crate::memory::MemoryBytes;
use crate::reading::{Taken, bytes_at, u16_at};
use crate::version::Version;
use om_pages::{PAGE, is_kept, page_count, page_size};
use std::alloc::Global;

// Reads the index of a page of a memory of this size, from `low` on, its bytes, and those after it.
#[tactic(auto, unfolding(crate::specs::steps::CheckpointReading::next_page_at))]
fn page_at(
    size: usize,
    low: usize,
    offset: usize,
    bytes: &[u8],
) -> Result<(usize, &[u8], &[u8]), DecodeError>
    requires most { size ≤ MAX_MEMORY }
    requires room { offset + length bytes.now < 2 ^ 64 }
    ensures exact { Tells (λ x. (record { index = x.0; bytes = x.1.now }, x.2.now)) result
        (next_page_at size low offset bytes.now) }
    ensures above { IfOk result (λ x. low ≤ x.0) }
    ensures below { IfOk result (λ x. x.0 < page_count size) }
    ensures whole { IfOk result (λ x. length x.1.now ≡ page_size size x.0) }
    ensures left { IfOk result (λ x. 2 + length x.1.now + length x.2.now ≡ length bytes.now) }
{
    let (index, rest) = u16_at(bytes)?;
    let index = index as usize;
    if index < low || index >= page_count(size) {
        return Err(DecodeError::Field(offset));
    }
    let (page, rest) = bytes_at(page_size(size, index), rest)?;
    if !is_kept(page) {
        return Err(DecodeError::Field(offset + 2));
    }
    Ok((index, page, rest))
}

// Reads a memory of which so many pages are kept: the others are zeros.
fn pages_at<'a>(
    alloc: Global,
    size: usize,
    count: usize,
    offset: usize,
    bytes: &'a [u8],
) -> Result<Taken<'a, Vec<u8>>, DecodeError>
    requires most { size ≤ MAX_MEMORY }
    requires room { offset + length bytes.now < 2 ^ 64 }
    ensures exact { Gives (λ x. (x.value.items, x.offset, x.rest.now)) result
        (pages_at size 0 count offset bytes.now) }
    ensures size { IfOk result (λ x. length x.value.items ≡ size) }
    ensures left { IfOk result (λ x. LeavesBehind offset bytes.now x.offset x.rest.now) }
{
    let mut value = Vec::with_capacity(alloc, size)?;
    let mut low = 0;
    let mut offset = offset;
    let mut rest = bytes;
    for _ in 0..count {
        let (index, page, after) = page_at(size, low, offset, rest)?;
        value.resize(index * PAGE, 0)?;
        value.extend_from_slice(page)?;
        low = index + 1;
        offset += 2 + page.len();
        rest = after;
    }
    value.resize(size, 0)?;
    Ok(Taken {
        value,
        offset,
        rest,
    })
}

// Reads a memory of this size, of which the pages that are not all zeros are kept.
#[tactic(auto, unfolding(crate::specs::steps::CheckpointReading::memory_at, crate::specs::steps::CheckpointReading::before_memory_at))]
fn counted_at<'a>(
    alloc: Global,
    size: usize,
    offset: usize,
    bytes: &'a [u8],
) -> Result<Taken<'a, Vec<u8>>, DecodeError>
    requires most { size ≤ MAX_MEMORY }
    requires room { offset + length bytes.now < 2 ^ 64 }
    ensures exact { Gives (λ x. (x.value.items, x.offset, x.rest.now)) result
        (memory_at V2 size offset bytes.now) }
    ensures before { IfOk result (λ _. IsOk (before_memory_at V2 size offset bytes.now)) }
    ensures memory { IfErr result (λ e. e ≡ DecodeError.Memory → IsOk (before_memory_at V2 size offset bytes.now)) }
    ensures size { IfOk result (λ x. length x.value.items ≡ size) }
    ensures left { IfOk result (λ x. LeavesBehind offset bytes.now x.offset x.rest.now) }
{
    let (count, rest) = u16_at(bytes)?;
    let count = count as usize;
    if count > page_count(size) {
        return Err(DecodeError::Field(offset));
    }
    pages_at(alloc, size, count, offset + 2, rest)
}

// Reads a memory of this size, in the form of this version.
#[tactic(auto, unfolding(crate::specs::steps::CheckpointReading::memory_at, crate::specs::steps::CheckpointReading::before_memory_at))]
pub(crate) fn memory_at<'a>(
    alloc: Global,
    version: Version,
    size: usize,
    offset: usize,
    bytes: &'a [u8],
) -> Result<Taken<'a, MemoryBytes>, DecodeError>
    requires size { is_memory_size size ≡ true }
    requires room { offset + length bytes.now < 2 ^ 64 }
    ensures exact { Gives (λ x. (x.value, x.offset, x.rest.now)) result
        (memory_at version size offset bytes.now) }
    ensures before { IfOk result (λ _. IsOk (before_memory_at version size offset bytes.now)) }
    ensures memory { IfErr result (λ e. e ≡ DecodeError.Memory → IsOk (before_memory_at version size offset bytes.now)) }
    ensures left { IfOk result (λ x. LeavesBehind offset bytes.now x.offset x.rest.now) }
{
    match version {
        Version::V1 => {
            let (all, rest) = bytes_at(size, bytes)?;
            let value = MemoryBytes::from_vec(Vec::from_slice(alloc, all)?);
            Ok(Taken {
                value,
                offset: offset + all.len(),
                rest,
            })
        }
        Version::V2 => {
            let taken = counted_at(alloc, size, offset, bytes)?;
            Ok(Taken {
                value: MemoryBytes::from_vec(taken.value),
                offset: taken.offset,
                rest: taken.rest,
            })
        }
    }
}
