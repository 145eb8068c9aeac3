//! The fields of a checkpoint before its memory, from the left.

ghost use Rattle.std.specs.Prelude.{◌≡◌, ◌+◌, ◌*◌, ◌<◌, ◌≤◌, ◌^◌, IfOk, length, sum, true};
ghost use Rattle.om_isa.specs.declared.memory.TheConstants.{MAX_MEMORY};
ghost use Rattle.om_isa.specs.declared.registers.TheConstants.{WRITABLE_REGISTERS};
ghost use Rattle.om_format.specs.Formats.{four};
ghost use Rattle.om_isa.specs.Memory.{is_memory_size};
ghost use Rattle.om_format.specs.FirstFault.{values_at};
ghost use Rattle.om_format.specs.steps.Telling.{Tells};
ghost use Rattle.om_format.specs.Versions.{is_kind, kind_of, is_version, version_number, is_cluster_size};
ghost use Rattle.om_format.specs.steps.Reading.{numbers_at, opening_at};
ghost use Rattle.om_format.specs.steps.Offsets.{memory_offset};
ghost use Rattle.om_format.specs.steps.CheckpointReading.{place_at, progress_at, vectors_at, made_at, front_at};
ghost use Rattle.om_interval.specs.declared.pid.TheConstants.{MAX_PROCESSES};

use crate::error::DecodeError;
use crate::head::Head;
use crate::limits::{
    CHECKPOINT_KIND, CHECKPOINT_KIND_M, CHECKPOINT_VERSION_1, CHECKPOINT_VERSION_2,
    MAX_PROCESSES_OF_VERSION_1,
};
use crate::offsets::{CLUSTER, COUNT, OWN, PC, VECTOR, got_offset, made_offset, size_offset};
use crate::reading::{u8_at, u32_at, u64_at};
use crate::version::Version;
use om_interval::{DepVec, MAX_PROCESSES, Pid};
use om_isa::{Ext, WRITABLE_REGISTERS, is_memory_size};

// Reads the kind of a checkpoint, and its version.
#[tactic(auto, unfolding(crate::specs::steps::Reading::opening_at))]
fn kind_at(bytes: &[u8]) -> Result<(Ext, Version, &[u8]), DecodeError>
    ensures exact { Tells (λ x. (kind_of x.0, version_number x.1, x.2.now)) result (opening_at is_kind is_version bytes.now) }
    ensures left { IfOk result (λ x. 2 + length x.2.now ≡ length bytes.now) }
{
    let (kind, rest) = u8_at(bytes)?;
    let ext = if kind == CHECKPOINT_KIND {
        Ext::I
    } else if kind == CHECKPOINT_KIND_M {
        Ext::Im
    } else {
        return Err(DecodeError::Kind);
    };
    let (number, rest) = u8_at(rest)?;
    let version = if number == CHECKPOINT_VERSION_1 {
        Version::V1
    } else if number == CHECKPOINT_VERSION_2 {
        Version::V2
    } else {
        return Err(DecodeError::Version);
    };
    Ok((ext, version, rest))
}

// Returns whether a checkpoint of this version can be of n processes.
fn is_cluster_size(version: Version, n: usize) -> bool
    ensures { result ≡ is_cluster_size version n }
{
    let most = match version {
        Version::V1 => MAX_PROCESSES_OF_VERSION_1,
        Version::V2 => MAX_PROCESSES,
    };
    1 <= n && n <= most
}

// Reads the number of processes, and which one this is.
#[tactic(auto, unfolding(crate::specs::steps::CheckpointReading::place_at))]
fn place_at(version: Version, bytes: &[u8]) -> Result<(usize, usize, &[u8]), DecodeError>
    ensures exact { Tells (λ x. (x.0, x.1, x.2.now)) result (place_at version bytes.now) }
    ensures within { IfOk result (λ x. x.0 ≤ MAX_PROCESSES) }
    ensures own { IfOk result (λ x. x.1 < x.0) }
    ensures left { IfOk result (λ x. 2 + length x.2.now ≡ length bytes.now) }
{
    let (n, rest) = u8_at(bytes)?;
    let n = n as usize;
    if !is_cluster_size(version, n) {
        return Err(DecodeError::Field(CLUSTER));
    }
    let (pid, rest) = u8_at(rest)?;
    let pid = pid as usize;
    if pid >= n {
        return Err(DecodeError::Field(OWN));
    }
    Ok((n, pid, rest))
}

// Reads the interval, how many instructions were finished, and the address of the next one.
#[tactic(auto, unfolding(crate::specs::steps::CheckpointReading::progress_at))]
fn progress_at(bytes: &[u8]) -> Result<(u32, u64, u32, &[u8]), DecodeError>
    ensures exact { Tells (λ x. (x.0, x.1, x.2, x.3.now)) result (progress_at bytes.now) }
    ensures left { IfOk result (λ x. 16 + length x.3.now ≡ length bytes.now) }
{
    let (interval, rest) = u32_at(bytes)?;
    let (count, rest) = u64_at(rest)?;
    if count < u64::from(interval) {
        return Err(DecodeError::Field(COUNT));
    }
    let (pc, rest) = u32_at(rest)?;
    if pc % 4 != 0 {
        return Err(DecodeError::Field(PC));
    }
    Ok((interval, count, pc, rest))
}

// Reads the bytes of so many numbers of 32 bits.
#[tactic(auto, using(crate::proofs::Numbers::values_front), unfolding(crate::specs::steps::Reading::numbers_at))]
fn words_at(count: usize, bytes: &[u8]) -> Result<(&[u8], &[u8]), DecodeError>
    requires { count < 2 ^ 32 }
    ensures exact { Tells (λ x. (values_at four count x.0.now, x.1.now)) result
        (numbers_at four count bytes.now) }
    ensures whole { IfOk result (λ x. length x.0.now ≡ count * 4) }
    ensures left { IfOk result (λ x. count * 4 + length x.1.now ≡ length bytes.now) }
{
    let size = count * 4;
    if bytes.len() < size {
        return Err(DecodeError::Short);
    }
    Ok(bytes.split_at(size))
}

// Reads as many numbers as there are places.
fn read_words(front: &[u8], places: &mut [u32])
    requires { length front.now ≡ length places.old * 4 }
    ensures { places.new ≡ values_at four (length places.old) front.now }
{
    let mut rest = front;
    for i in 0..places.len() {
        let (word, after) = rest.split_at(4);
        places[i] = u32::from_le_bytes([word[0], word[1], word[2], word[3]]);
        rest = after;
    }
}

// Reads the registers x1 to x31.
fn regs_of(front: &[u8]) -> [u32; WRITABLE_REGISTERS]
    requires { length front.now ≡ WRITABLE_REGISTERS * 4 }
    ensures { result ≡ values_at four WRITABLE_REGISTERS front.now }
{
    let mut regs = [0; WRITABLE_REGISTERS];
    read_words(front, &mut regs);
    regs
}

// Reads the vector of n numbers.
fn vector_of(n: usize, front: &[u8]) -> DepVec
    requires some { 1 ≤ n }
    requires within { n ≤ MAX_PROCESSES }
    requires whole { length front.now ≡ n * 4 }
    ensures numbers { result ≡ values_at four n front.now }
    ensures places { length result ≡ n }
{
    let mut places = [0; MAX_PROCESSES];
    read_words(front, &mut places[..n]);
    DepVec::from_slice(&places[..n]).unwrap()
}

// Returns the sum of the places.
fn sum_of(vector: &DepVec) -> u64
    ensures { result ≡ sum vector.now }
{
    let mut total = 0;
    for number in vector.as_slice() {
        total += u64::from(*number);
    }
    total
}

// Reads the dependency vector, the numbers got and the numbers sent, of n processes.
#[tactic(auto, unfolding(crate::specs::steps::CheckpointReading::vectors_at))]
fn vectors_at(
    n: usize,
    pid: Pid,
    interval: u32,
    bytes: &[u8],
) -> Result<(DepVec, DepVec, DepVec, &[u8]), DecodeError>
    requires within { n ≤ MAX_PROCESSES }
    requires own { pid < n }
    ensures exact { Tells (λ x. (x.0, x.1, x.2, x.3.now)) result (vectors_at n pid interval bytes.now) }
    ensures left { IfOk result (λ x. 12 * n + length x.3.now ≡ length bytes.now) }
{
    let (front, rest) = words_at(n, bytes)?;
    let vec = vector_of(n, front);
    if vec.get(pid) != interval {
        return Err(DecodeError::Field(VECTOR));
    }
    let (front, rest) = words_at(n, rest)?;
    let got = vector_of(n, front);
    if sum_of(&got) != u64::from(interval) {
        return Err(DecodeError::Field(got_offset(n)));
    }
    let (front, rest) = words_at(n, rest)?;
    let sent = vector_of(n, front);
    Ok((vec, got, sent, rest))
}

// Returns how many outputs were made by that count, and the size of the memory, behind the vectors of n processes.
#[tactic(auto, unfolding(crate::specs::steps::CheckpointReading::made_at))]
fn made_at(n: usize, count: u64, bytes: &[u8]) -> Result<(u64, usize, &[u8]), DecodeError>
    requires { n ≤ MAX_PROCESSES }
    ensures exact { Tells (λ x. (x.0, x.1, x.2.now)) result (made_at n count bytes.now) }
    ensures size { IfOk result (λ x. is_memory_size x.1 ≡ true) }
    ensures left { IfOk result (λ x. 12 + length x.2.now ≡ length bytes.now) }
{
    let (made, rest) = u64_at(bytes)?;
    if made > count {
        return Err(DecodeError::Field(made_offset(n)));
    }
    let (size, rest) = u32_at(rest)?;
    let size = size as usize;
    if !is_memory_size(size) {
        return Err(DecodeError::Field(size_offset(n)));
    }
    Ok((made, size, rest))
}

// What stands before the memory of a checkpoint of n processes, and the size of that memory.
#[derive(Clone, Copy)]
pub(crate) struct Front {
    pub version: Version,
    pub n: usize,
    pub head: Head,
    pub size: usize,
}

#[tactic(auto, unfolding(crate::specs::steps::CheckpointReading::front_at))]
pub(crate) fn front_at(bytes: &[u8]) -> Result<(Front, &[u8]), DecodeError>
    ensures exact { Tells (λ x. (x.0, x.1.now)) result (front_at bytes.now) }
    ensures within { IfOk result (λ x. x.0.n ≤ MAX_PROCESSES) }
    ensures size { IfOk result (λ x. is_memory_size x.0.size ≡ true) }
    ensures left { IfOk result (λ x. memory_offset x.0.n + length x.1.now ≡ length bytes.now) }
{
    let (ext, version, rest) = kind_at(bytes)?;
    let (n, pid, rest) = place_at(version, rest)?;
    let (interval, count, pc, rest) = progress_at(rest)?;
    let (words, rest) = words_at(WRITABLE_REGISTERS, rest)?;
    let regs = regs_of(words);
    let pid = Pid::at(pid);
    let (vec, got, sent, rest) = match vectors_at(n, pid, interval, rest) {
        Ok(vectors) => vectors,
        Err(fault) => return Err(fault),
    };
    let (made, size, rest) = made_at(n, count, rest)?;
    let head = Head {
        ext,
        pid,
        interval,
        count,
        pc,
        regs,
        vec,
        got,
        sent,
        made,
    };
    let front = Front {
        version,
        n,
        head,
        size,
    };
    Ok((front, rest))
}
