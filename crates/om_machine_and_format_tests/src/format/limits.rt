//! Both sides of each limit of a record.

use crate::format::records::{
    Record, assert_bytes, assert_spelled, bytes_of, checkpoint_fault, receipt_fault, repeat,
    respelled,
};
use crate::same::{assert_same, assert_same_at};
use om_format::{DecodeError, MAX_BODY, MAX_PROCESSES_OF_VERSION_1, PAGE};
use om_interval::MAX_PROCESSES;
use om_isa::is_memory_size;
use std::alloc::Global;
use std::process::Abort;

const SIZES: [(usize, bool); 5] = [
    (0, false),
    (4, true),
    (6, false),
    (65_536, true),
    (65_540, false),
];

#[test]
fn limits_and_sizes_are_these(rt: HostRuntime) {
    let limits = (MAX_BODY, MAX_PROCESSES_OF_VERSION_1, MAX_PROCESSES, PAGE);
    assert_same(&rt, &limits, &(256, 8, 16, 256));
    for (len, wanted) in &SIZES {
        assert_same_at(&rt, len, &is_memory_size(*len), wanted);
    }
}

// The receipt with another body, of so many bytes.
fn receipt_with_body(rt: &impl Abort, alloc: Global, len: u16) -> Vec<u8> {
    let mut bytes = bytes_of(rt, alloc, Record::BeforeBody);
    repeat(rt, &mut bytes, &len.to_le_bytes(), 1);
    repeat(rt, &mut bytes, &[0xAB], len as usize);
    bytes
}

// A length, and the fault of a record with a body of it, if it is one.
type Length = (u16, Option<DecodeError>);

const OF_RECEIPTS: [Length; 4] = [
    (0, None),
    (256, None),
    (257, Some(DecodeError::Field(24))),
    (65_535, Some(DecodeError::Field(24))),
];

fn assert_receipt(rt: &impl Abort, alloc: Global, (len, want): &Length) {
    let bytes = receipt_with_body(rt, alloc, *len);
    let fault = receipt_fault(alloc, &bytes);
    assert_same_at(rt, len, &fault, want);
}

#[test]
fn bodies_of_receipts_have_at_most_256_bytes(rt: HostRuntime) {
    let alloc = rt.alloc();
    for length in &OF_RECEIPTS {
        assert_receipt(&rt, alloc, length);
    }
}

// A checkpoint at its start, of n processes and a memory of so many bytes, all zero but the first.
fn checkpoint(rt: &impl Abort, alloc: Global, version: u8, n: u8, size: u32) -> Vec<u8> {
    let mut bytes = Vec::new(alloc);
    repeat(rt, &mut bytes, &[0x43, version, n, 0x00], 1);
    repeat(rt, &mut bytes, &[0x00], 148 + 12 * n as usize);
    repeat(rt, &mut bytes, &size.to_le_bytes(), 1);
    let rest = (size as usize).saturating_sub(1);
    let (page, zeros) = if version == 1 {
        ([0x01].as_slice(), rest)
    } else {
        ([0x01, 0x00, 0x00, 0x00, 0x01].as_slice(), rest.min(255))
    };
    repeat(rt, &mut bytes, page, 1);
    repeat(rt, &mut bytes, &[0x00], zeros + 4 * n as usize + 8);
    bytes
}

// Version, processes, bytes of memory, and the fault of such a checkpoint, if it is one.
type Limit = (u8, u8, u32, Option<DecodeError>);

const LIMITS: [Limit; 13] = [
    (1, 1, 4, None),
    (1, 8, 4, None),
    (1, 9, 4, Some(DecodeError::Field(2))),
    (2, 1, 4, None),
    (2, 16, 4, None),
    (2, 17, 4, Some(DecodeError::Field(2))),
    (1, 1, 0, Some(DecodeError::Field(164))),
    (1, 1, 65_536, None),
    (1, 1, 65_540, Some(DecodeError::Field(164))),
    (2, 1, 0, Some(DecodeError::Field(164))),
    (2, 1, 65_536, None),
    (2, 1, 65_540, Some(DecodeError::Field(164))),
    (2, 16, 65_536, None),
];

fn assert_limit(rt: &impl Abort, alloc: Global, (version, n, size, want): &Limit) {
    let bytes = checkpoint(rt, alloc, *version, *n, *size);
    let fault = checkpoint_fault(alloc, &bytes);
    assert_same_at(rt, &(version, n, size), &fault, want);
    if want.is_none() {
        let newer = checkpoint(rt, alloc, 2, *n, *size);
        assert_bytes(rt, &respelled(rt, alloc, &bytes), &newer);
    }
}

#[test]
fn processes_and_memories_have_their_limits(rt: HostRuntime) {
    let alloc = rt.alloc();
    for limit in &LIMITS {
        assert_limit(&rt, alloc, limit);
    }
}

// The checkpoint with an output of so many bytes.
fn checkpoint_with_output(rt: &impl Abort, alloc: Global, len: u16) -> Vec<u8> {
    let mut bytes = bytes_of(rt, alloc, Record::BeforeOutput);
    repeat(rt, &mut bytes, &len.to_le_bytes(), 1);
    repeat(rt, &mut bytes, &[0xCD], len as usize);
    bytes
}

const OF_ENTRIES: [Length; 4] = [
    (0, None),
    (256, None),
    (257, Some(DecodeError::Field(186))),
    (65_535, Some(DecodeError::Field(186))),
];

fn assert_output(rt: &impl Abort, alloc: Global, (len, want): &Length) {
    let bytes = checkpoint_with_output(rt, alloc, *len);
    let fault = checkpoint_fault(alloc, &bytes);
    assert_same_at(rt, len, &fault, want);
    assert_spelled(rt, alloc, &bytes);
}

#[test]
fn bodies_of_entries_have_at_most_256_bytes(rt: HostRuntime) {
    let alloc = rt.alloc();
    for length in &OF_ENTRIES {
        assert_output(&rt, alloc, length);
    }
}
