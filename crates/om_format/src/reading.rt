//! Fields of a record, from the left: each is read from the front of the bytes, and leaves those after it.

ghost use Rattle.std.specs.Prelude.{◌≡◌, ◌+◌, ◌<◌, ◌≤◌, IfOk, length};
ghost use Rattle.om_format.specs.Formats.{one, two, four, eight};
ghost use Rattle.om_format.specs.steps.Telling.{Tells};
ghost use Rattle.om_format.specs.steps.Reading.{number_at, pid_at, body_at, bytes_at, end_at};
ghost use Rattle.om_interval.specs.declared.pid.TheConstants.{MAX_PROCESSES};
ghost use Rattle.om_format.specs.declared.limits.TheConstants.{MAX_BODY};

use crate::error::DecodeError;
use crate::limits::MAX_BODY;
use om_interval::MAX_PROCESSES;

#[tactic(auto, unfolding(crate::specs::steps::Reading::number_at))]
pub(crate) fn u8_at(bytes: &[u8]) -> Result<(u8, &[u8]), DecodeError>
    ensures exact { Tells (λ x. (x.0, x.1.now)) result (number_at one bytes.now) }
    ensures left { IfOk result (λ x. 1 + length x.1.now ≡ length bytes.now) }
{
    if bytes.len() < 1 {
        return Err(DecodeError::Short);
    }
    let (front, rest) = bytes.split_at(1);
    Ok((front[0], rest))
}

#[tactic(auto, unfolding(crate::specs::steps::Reading::number_at))]
pub(crate) fn u16_at(bytes: &[u8]) -> Result<(u16, &[u8]), DecodeError>
    ensures exact { Tells (λ x. (x.0, x.1.now)) result (number_at two bytes.now) }
    ensures left { IfOk result (λ x. 2 + length x.1.now ≡ length bytes.now) }
{
    if bytes.len() < 2 {
        return Err(DecodeError::Short);
    }
    let (front, rest) = bytes.split_at(2);
    let number = u16::from_le_bytes([front[0], front[1]]);
    Ok((number, rest))
}

#[tactic(auto, unfolding(crate::specs::steps::Reading::number_at))]
pub(crate) fn u32_at(bytes: &[u8]) -> Result<(u32, &[u8]), DecodeError>
    ensures exact { Tells (λ x. (x.0, x.1.now)) result (number_at four bytes.now) }
    ensures left { IfOk result (λ x. 4 + length x.1.now ≡ length bytes.now) }
{
    if bytes.len() < 4 {
        return Err(DecodeError::Short);
    }
    let (front, rest) = bytes.split_at(4);
    let number = u32::from_le_bytes([front[0], front[1], front[2], front[3]]);
    Ok((number, rest))
}

#[tactic(auto, unfolding(crate::specs::steps::Reading::number_at))]
pub(crate) fn u64_at(bytes: &[u8]) -> Result<(u64, &[u8]), DecodeError>
    ensures exact { Tells (λ x. (x.0, x.1.now)) result (number_at eight bytes.now) }
    ensures left { IfOk result (λ x. 8 + length x.1.now ≡ length bytes.now) }
{
    if bytes.len() < 8 {
        return Err(DecodeError::Short);
    }
    let (front, rest) = bytes.split_at(8);
    let number = u64::from_le_bytes([
        front[0], front[1], front[2], front[3], front[4], front[5], front[6], front[7],
    ]);
    Ok((number, rest))
}

// Reads the number of a process, which stands at the offset.
#[tactic(auto, unfolding(crate::specs::steps::Reading::pid_at))]
pub(crate) fn pid_at(offset: usize, bytes: &[u8]) -> Result<(usize, &[u8]), DecodeError>
    ensures exact { Tells (λ x. (x.0, x.1.now)) result (pid_at offset bytes.now) }
    ensures below { IfOk result (λ x. x.0 < MAX_PROCESSES) }
{
    let (pid, rest) = u8_at(bytes)?;
    let pid = pid as usize;
    if pid < MAX_PROCESSES {
        Ok((pid, rest))
    } else {
        Err(DecodeError::Field(offset))
    }
}

// Reads `count` bytes. Refused with `Short` where there are fewer.
#[tactic(auto, unfolding(crate::specs::steps::Reading::bytes_at))]
pub(crate) fn bytes_at(count: usize, bytes: &[u8]) -> Result<(&[u8], &[u8]), DecodeError>
    ensures exact { Tells (λ x. (x.0.now, x.1.now)) result (bytes_at count bytes.now) }
    ensures whole { IfOk result (λ x. length x.0.now ≡ count) }
    ensures left { IfOk result (λ x. count + length x.1.now ≡ length bytes.now) }
{
    if bytes.len() < count {
        return Err(DecodeError::Short);
    }
    Ok(bytes.split_at(count))
}

// Reads the bytes of a body; its length stands at the offset.
#[tactic(auto, unfolding(crate::specs::steps::Reading::counted_at))]
pub(crate) fn body_at(offset: usize, bytes: &[u8]) -> Result<(&[u8], &[u8]), DecodeError>
    ensures exact { Tells (λ x. (x.0.now, x.1.now)) result (body_at offset bytes.now) }
    ensures within { IfOk result (λ x. length x.0.now ≤ MAX_BODY) }
    ensures left { IfOk result (λ x. 2 + length x.0.now + length x.1.now ≡ length bytes.now) }
{
    let (len, rest) = u16_at(bytes)?;
    let len = len as usize;
    if len > MAX_BODY {
        return Err(DecodeError::Field(offset));
    }
    bytes_at(len, rest)
}

// Reads the end of a record. Refused with `Trailing` where bytes are left.
#[tactic(auto, unfolding(crate::specs::steps::Reading::end_at))]
pub(crate) fn end_at(bytes: &[u8]) -> Result<(), DecodeError>
    ensures { Tells (λ _. tt) result (end_at bytes.now) }
{
    match bytes {
        [] => Ok(()),
        [_, ..] => Err(DecodeError::Trailing),
    }
}

// What was read, the offset after it in the record, and the bytes after it.
#[derive(Drop)]
pub(crate) struct Taken<'a, T> {
    pub value: T,
    pub offset: usize,
    pub rest: &'a [u8],
}
