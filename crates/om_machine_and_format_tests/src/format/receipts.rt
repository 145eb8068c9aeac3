//! Receipts as bytes.

use crate::format::records::{
    Record, assert_bytes, bytes_of, receipt_fault, receipt_of, with_byte, with_end,
};
use crate::same::{assert_same, assert_same_at};
use om_format::{DecodeError, Receipt, decode_receipt, encode_receipt, laws};
use std::alloc::Global;
use std::process::Abort;

// The receipt as bytes.
fn spelled(rt: &impl Abort, alloc: Global, receipt: &Receipt) -> Vec<u8> {
    encode_receipt(alloc, receipt).expect(rt, "memory")
}

fn assert_fields(rt: &impl Abort, receipt: &Receipt) {
    let processes = (receipt.to.index(), receipt.from.index());
    let intervals = (receipt.interval, receipt.sender_interval);
    let numbers = (receipt.ssn, receipt.count);
    let told = (processes, intervals, numbers, receipt.body.as_slice());
    let body = [0x93, 0x08, 0x10, 0x00].as_slice();
    assert_same(rt, &told, &((1, 2), (1, 0), (0, 3), body));
}

// The receipt is read, and spelled as it was.
fn assert_read(rt: &impl Abort, alloc: Global, bytes: &[u8]) {
    let receipt = receipt_of(rt, alloc, bytes);
    assert_fields(rt, &receipt);
    assert_bytes(rt, &spelled(rt, alloc, &receipt), bytes);
}

// A receipt that is cut anywhere is short.
fn assert_short(rt: &impl Abort, alloc: Global, bytes: &[u8]) {
    for cut in 0..bytes.len() {
        let fault = receipt_fault(alloc, &bytes[..cut]);
        assert_same_at(rt, &cut, &fault, &Some(DecodeError::Short));
    }
}

// A receipt of a byte more is too long.
fn assert_long(rt: &impl Abort, alloc: Global, bytes: &[u8]) {
    let longer = with_end(rt, alloc, bytes);
    let fault = receipt_fault(alloc, &longer);
    assert_same(rt, &fault, &Some(DecodeError::Trailing));
}

// An offset, what its byte becomes, and the fault of that, if it is one.
type Damage = (usize, u8, Option<DecodeError>);

const DAMAGES: [Damage; 11] = [
    (0, 0x43, Some(DecodeError::Kind)),
    (1, 0x02, Some(DecodeError::Version)),
    (2, 0x0F, None),
    (2, 0x10, Some(DecodeError::Field(2))),
    (3, 0x0F, None),
    (3, 0x10, Some(DecodeError::Field(3))),
    (4, 0x00, Some(DecodeError::Field(4))),
    (12, 0x01, Some(DecodeError::Field(12))),
    (24, 0x03, Some(DecodeError::Trailing)),
    (24, 0x05, Some(DecodeError::Short)),
    (25, 0x02, Some(DecodeError::Field(24))),
];

fn assert_damage(rt: &impl Abort, alloc: Global, record: &[u8], (offset, byte, want): &Damage) {
    let damaged = with_byte(rt, alloc, record, *offset, *byte);
    let fault = receipt_fault(alloc, &damaged);
    assert_same_at(rt, &(offset, byte), &fault, want);
}

fn assert_damages(rt: &impl Abort, alloc: Global, record: &[u8]) {
    for damage in &DAMAGES {
        assert_damage(rt, alloc, record, damage);
    }
}

// Bytes are refused, or spell a receipt.
fn assert_spelled(rt: &impl Abort, alloc: Global, bytes: &[u8]) {
    if let Ok(receipt) = decode_receipt(alloc, bytes) {
        assert_bytes(rt, &spelled(rt, alloc, &receipt), bytes);
    }
}

// So does each byte of the receipt that is made each other byte.
fn assert_each_byte(rt: &impl Abort, alloc: Global, record: &[u8]) {
    for offset in 0..record.len() {
        for byte in 0..=255 {
            let changed = with_byte(rt, alloc, record, offset, byte);
            assert_spelled(rt, alloc, &changed);
        }
    }
}

#[test]
fn receipts_are_read_whole_or_not_at_all(rt: HostRuntime) {
    let alloc = rt.alloc();
    let record = bytes_of(&rt, alloc, Record::Receipt);
    assert_read(&rt, alloc, &record);
    assert_short(&rt, alloc, &record);
    assert_long(&rt, alloc, &record);
    assert_damages(&rt, alloc, &record);
    assert_each_byte(&rt, alloc, &record);
    laws::one_spelling_of_a_receipt();
    laws::one_reading_of_a_receipt();
    laws::receipt_or_fault();
    laws::limits();
}
