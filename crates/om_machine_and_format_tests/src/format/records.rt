//! Records of the tests, as bytes. Bytes are given as hexadecimal text.

use crate::same::{assert_same, assert_same_at};
use om_format::{
    Checkpoint, DecodeError, Receipt, decode_checkpoint, decode_receipt, encode_checkpoint,
};
use std::alloc::Global;
use std::process::Abort;

// A text, and how many times it stands.
type Part = (&'static str, usize);

// The receipt of the second process in a run of three.
const RECEIPT: [Part; 1] = [(
    "520101020100000000000000000000000300000000000000040093081000",
    1,
)];

// The registers: each byte of register i is i.
const REGISTERS: &str = "\
0101010102020202030303030404040405050505060606060707070708080808\
090909090a0a0a0a0b0b0b0b0c0c0c0c0d0d0d0d0e0e0e0e0f0f0f0f10101010\
1111111112121212131313131414141415151515161616161717171718181818\
191919191a1a1a1a1b1b1b1b1c1c1c1c1d1d1d1d1e1e1e1e1f1f1f1f";

// The checkpoint, in version 1, of a machine of four bytes at its start: 184 bytes.
const FIRST_IN_VERSION_1: [Part; 4] = [
    ("43010100", 1),
    ("00", 160),
    ("0400000073001000", 1),
    ("00", 12),
];

// The same in version 2: 188 bytes.
const FIRST_IN_VERSION_2: [Part; 4] = [
    ("43020100", 1),
    ("00", 160),
    ("040000000100000073001000", 1),
    ("00", 12),
];

// A checkpoint of version 1 with entries: 234 bytes. Its first fields, the registers, its vectors with the number of its outputs,
// its memory, its messages to process 0 and to process 1, and its outputs.
const WITH_ENTRIES: [Part; 8] = [
    ("4301020003000000140000000000000008000000", 1),
    (REGISTERS, 1),
    ("03000000010000000100000002000000", 1),
    ("01000000040000000200000000000000", 1),
    ("080000007300100000000000", 1),
    ("00000000010000000200aabb", 1),
    ("02000000010000000000030000000300010203", 1),
    ("01000000000000000300000001007f", 1),
];

// A checkpoint of version 2 of 16 processes, with entries and a memory of 600 bytes: its first page is kept, the second is
// all zero, and the last has 88 bytes. 800 bytes.
const OF_16_PROCESSES: [Part; 19] = [
    ("4d02100f03000000140000000000000008000000", 1),
    (REGISTERS, 1),
    ("01000000", 1),
    ("00", 56),
    ("03000000", 1),
    ("0100000002000000", 1),
    ("00", 56),
    ("010000000000000002000000", 1),
    ("00", 52),
    ("02000000000000005802000002000000", 1),
    ("11", 256),
    ("0200", 1),
    ("00", 87),
    ("7e", 1),
    ("00000000010000000200aabb", 1),
    ("00000000", 1),
    ("00000000010000000000030000000300010203", 1),
    ("00000000", 13),
    ("01000000000000000300000001007f", 1),
];

// The receipt of a body, up to the length of it.
const BEFORE_BODY: [Part; 1] = [("520101020100000000000000000000000300000000000000", 1)];

// A checkpoint of version 2 of one process that made an output, up to the length of it: one instruction, one page of zeros.
const BEFORE_OUTPUT: [Part; 6] = [
    ("43020100000000000100000000000000", 1),
    ("00", 140),
    ("0100000000000000040000000000", 1),
    ("00000000", 1),
    ("0000000000000000", 1),
    ("00000000", 1),
];

// The records, and what stands before the length of a body or of an output. The texts are named in one function, since each
// that names them builds them anew.
#[derive(Clone, Copy)]
pub enum Record {
    Receipt,
    FirstInVersion1,
    FirstInVersion2,
    WithEntries,
    Of16Processes,
    BeforeBody,
    BeforeOutput,
}

fn parts_of(record: Record) -> &'static [Part] {
    match record {
        Record::Receipt => &RECEIPT,
        Record::FirstInVersion1 => &FIRST_IN_VERSION_1,
        Record::FirstInVersion2 => &FIRST_IN_VERSION_2,
        Record::WithEntries => &WITH_ENTRIES,
        Record::Of16Processes => &OF_16_PROCESSES,
        Record::BeforeBody => &BEFORE_BODY,
        Record::BeforeOutput => &BEFORE_OUTPUT,
    }
}

// A record with its byte at an offset made another one.
pub fn changed(rt: &impl Abort, alloc: Global, record: Record, offset: usize, byte: u8) -> Vec<u8> {
    let record = bytes_of(rt, alloc, record);
    with_byte(rt, alloc, &record, offset, byte)
}

// The bytes that the texts of a record spell, one after the other.
pub fn bytes_of(rt: &impl Abort, alloc: Global, record: Record) -> Vec<u8> {
    let mut bytes = Vec::new(alloc);
    for (text, times) in parts_of(record) {
        let part = hex::decode(alloc, text).expect(rt, "hexadecimal");
        repeat(rt, &mut bytes, &part, *times);
    }
    bytes
}

// Adds these bytes so many times.
pub fn repeat(rt: &impl Abort, out: &mut Vec<u8>, bytes: &[u8], times: usize) {
    for _ in 0..times {
        out.extend_from_slice(bytes).expect(rt, "memory");
    }
}

// These bytes with another one in the place of one of them.
pub fn with_byte(rt: &impl Abort, alloc: Global, bytes: &[u8], offset: usize, byte: u8) -> Vec<u8> {
    let mut changed = Vec::from_slice(alloc, bytes).expect(rt, "memory");
    assert!(rt; offset < changed.len());
    changed[offset] = byte;
    changed
}

// Returns why bytes are no receipt, None where they are one.
pub fn receipt_fault(alloc: Global, bytes: &[u8]) -> Option<DecodeError> {
    decode_receipt(alloc, bytes).err()
}

// Returns why bytes are no checkpoint, None where they are one.
pub fn checkpoint_fault(alloc: Global, bytes: &[u8]) -> Option<DecodeError> {
    decode_checkpoint(alloc, bytes).err()
}

// The receipt that the bytes are.
pub fn receipt_of(rt: &impl Abort, alloc: Global, bytes: &[u8]) -> Receipt {
    decode_receipt(alloc, bytes).expect(rt, "a receipt")
}

// The checkpoint that the bytes are.
pub fn checkpoint_of(rt: &impl Abort, alloc: Global, bytes: &[u8]) -> Checkpoint {
    decode_checkpoint(alloc, bytes).expect(rt, "a checkpoint")
}

// The checkpoint as bytes, in version 2.
pub fn spelled(rt: &impl Abort, alloc: Global, checkpoint: &Checkpoint) -> Vec<u8> {
    encode_checkpoint(alloc, checkpoint).expect(rt, "memory")
}

// An offset, what its byte becomes, and the fault of that.
pub type Damage = (usize, u8, DecodeError);

fn assert_damage(rt: &impl Abort, alloc: Global, record: &[u8], (offset, byte, want): &Damage) {
    let damaged = with_byte(rt, alloc, record, *offset, *byte);
    let fault = checkpoint_fault(alloc, &damaged);
    assert_same_at(rt, &(offset, byte), &fault, &Some(*want));
}

// A damaged checkpoint has its faults.
pub fn assert_damages(rt: &impl Abort, alloc: Global, record: &[u8], damages: &[Damage]) {
    for damage in damages {
        assert_damage(rt, alloc, record, damage);
    }
}

// These bytes and one more.
pub fn with_end(rt: &impl Abort, alloc: Global, bytes: &[u8]) -> Vec<u8> {
    let mut longer = Vec::from_slice(alloc, bytes).expect(rt, "memory");
    repeat(rt, &mut longer, &[0], 1);
    longer
}

// A checkpoint that is cut anywhere is short.
fn assert_short(rt: &impl Abort, alloc: Global, bytes: &[u8]) {
    for cut in 0..bytes.len() {
        let fault = checkpoint_fault(alloc, &bytes[..cut]);
        assert_same_at(rt, &cut, &fault, &Some(DecodeError::Short));
    }
}

// A whole checkpoint: cut anywhere it is short, and nothing may follow it.
pub fn assert_whole(rt: &impl Abort, alloc: Global, bytes: &[u8]) {
    assert_short(rt, alloc, bytes);
    let longer = with_end(rt, alloc, bytes);
    let faults = (
        checkpoint_fault(alloc, bytes),
        checkpoint_fault(alloc, &longer),
    );
    assert_same(rt, &faults, &(None, Some(DecodeError::Trailing)));
}

// Returns what bytes of version 1 with a memory of one page say, in version 2.
fn in_version_2(rt: &impl Abort, alloc: Global, bytes: &[u8]) -> Vec<u8> {
    assert!(rt; bytes.len() > 3);
    let size_at = 152 + 12 * usize::from(bytes[2]);
    let memory_at = size_at + 4;
    assert!(rt; memory_at <= bytes.len());
    let end = memory_at + usize::from(bytes[size_at]);
    assert!(rt; end <= bytes.len());
    let mut newer = Vec::new(alloc);
    repeat(rt, &mut newer, &bytes[..1], 1);
    repeat(rt, &mut newer, &[2], 1);
    repeat(rt, &mut newer, &bytes[2..memory_at], 1);
    put_page(rt, &mut newer, &bytes[memory_at..end]);
    repeat(rt, &mut newer, &bytes[end..], 1);
    newer
}

// Adds a memory of one page as version 2 keeps it: how many pages are kept, and the page behind its index.
fn put_page(rt: &impl Abort, out: &mut Vec<u8>, memory: &[u8]) {
    if memory.iter().all(|byte| *byte == 0) {
        repeat(rt, out, &[0, 0], 1);
    } else {
        repeat(rt, out, &[1, 0, 0, 0], 1);
        repeat(rt, out, memory, 1);
    }
}

// The bytes of the checkpoint that these bytes are, in version 2.
pub fn respelled(rt: &impl Abort, alloc: Global, bytes: &[u8]) -> Vec<u8> {
    spelled(rt, alloc, &checkpoint_of(rt, alloc, bytes))
}

pub fn assert_bytes(rt: &impl Abort, bytes: &[u8], wanted: &[u8]) {
    assert_same(rt, &bytes, &wanted);
}

// Bytes of a checkpoint of version 2 spell it; what those of version 1 spell is spelled in version 2.
fn assert_newer(rt: &impl Abort, alloc: Global, bytes: &[u8], newer: &[u8]) {
    if bytes.get(1) == Some(&1) {
        assert_bytes(rt, newer, &in_version_2(rt, alloc, bytes));
    } else {
        assert_bytes(rt, newer, bytes);
    }
}

// Bytes are refused, or are a checkpoint that is spelled as its version asks.
pub fn assert_spelled(rt: &impl Abort, alloc: Global, bytes: &[u8]) {
    if let Ok(checkpoint) = decode_checkpoint(alloc, bytes) {
        assert_newer(rt, alloc, bytes, &spelled(rt, alloc, &checkpoint));
    }
}
