//! Checkpoints as bytes, in both versions.

use crate::format::records::{
    Damage, Record, assert_bytes, assert_damages, assert_spelled, assert_whole, bytes_of, changed,
    checkpoint_fault, checkpoint_of, spelled, with_byte,
};
use crate::same::assert_same;
use om_format::{Checkpoint, DecodeError, Queue, laws};
use om_isa::Ext;
use std::alloc::Global;
use std::process::Abort;

const RECORDS: [(Record, usize); 4] = [
    (Record::FirstInVersion1, 184),
    (Record::FirstInVersion2, 188),
    (Record::WithEntries, 234),
    (Record::Of16Processes, 800),
];

#[test]
fn records_are_whole_and_have_their_lengths(rt: HostRuntime) {
    let alloc = rt.alloc();
    for (record, len) in &RECORDS {
        let record = bytes_of(&rt, alloc, *record);
        assert_same(&rt, &record.len(), len);
        assert_whole(&rt, alloc, &record);
    }
}

fn assert_machine(rt: &impl Abort, checkpoint: &Checkpoint, ext: Ext) {
    let told = (checkpoint.head.ext, checkpoint.memory.as_slice());
    assert_same(rt, &told, &(ext, &[0x73, 0x00, 0x10, 0x00]));
}

// A first checkpoint is read, and is spelled in version 2.
fn assert_newer(rt: &impl Abort, alloc: Global, bytes: &[u8], newer: &[u8], ext: Ext) {
    let checkpoint = checkpoint_of(rt, alloc, bytes);
    assert_machine(rt, &checkpoint, ext);
    assert_bytes(rt, &spelled(rt, alloc, &checkpoint), newer);
}

// A first checkpoint, its first byte, and the extension that this is: the machine's own, and M.
const FIRSTS: [(Record, u8, Ext); 4] = [
    (Record::FirstInVersion1, 0x43, Ext::I),
    (Record::FirstInVersion1, 0x4D, Ext::Im),
    (Record::FirstInVersion2, 0x43, Ext::I),
    (Record::FirstInVersion2, 0x4D, Ext::Im),
];

#[test]
fn the_first_checkpoint_in_both_versions(rt: HostRuntime) {
    let alloc = rt.alloc();
    for (record, kind, ext) in &FIRSTS {
        let bytes = changed(&rt, alloc, *record, 0, *kind);
        let newer = changed(&rt, alloc, Record::FirstInVersion2, 0, *kind);
        assert_newer(&rt, alloc, &bytes, &newer, *ext);
    }
    laws::one_spelling_of_a_checkpoint();
    laws::one_reading_of_a_checkpoint();
    laws::checkpoint_or_fault();
}

const DAMAGES_OF_VERSION_1: [Damage; 5] = [
    (0, 0x52, DecodeError::Kind),
    (1, 0x00, DecodeError::Version),
    (2, 0x00, DecodeError::Field(2)),
    (2, 0x09, DecodeError::Field(2)),
    (16, 0x02, DecodeError::Field(16)),
];

const DAMAGES_OF_VERSION_2: [Damage; 6] = [
    (0, 0x52, DecodeError::Kind),
    (1, 0x03, DecodeError::Version),
    (2, 0x00, DecodeError::Field(2)),
    (2, 0x11, DecodeError::Field(2)),
    (168, 0x02, DecodeError::Field(168)),
    (170, 0x01, DecodeError::Field(170)),
];

const DAMAGES_OF_A_BLANK_PAGE: [Damage; 1] = [(174, 0x00, DecodeError::Field(172))];

const DAMAGES_OF_ENTRIES: [Damage; 11] = [
    (3, 0x02, DecodeError::Field(3)),
    (8, 0x02, DecodeError::Field(8)),
    (144, 0x02, DecodeError::Field(144)),
    (152, 0x02, DecodeError::Field(152)),
    (168, 0x15, DecodeError::Field(168)),
    (176, 0x06, DecodeError::Field(176)),
    (200, 0x05, DecodeError::Field(200)),
    (210, 0x00, DecodeError::Field(210)),
    (210, 0x04, DecodeError::Field(210)),
    (215, 0x01, DecodeError::Field(214)),
    (219, 0x03, DecodeError::Field(219)),
];

const DAMAGES_OF_PAGES: [Damage; 6] = [
    (348, 0x03, DecodeError::Field(698)),
    (348, 0x04, DecodeError::Field(348)),
    (350, 0x03, DecodeError::Field(350)),
    (608, 0x00, DecodeError::Field(608)),
    (608, 0x03, DecodeError::Field(608)),
    (697, 0x00, DecodeError::Field(610)),
];

// Of pages of which the first is called the second.
const DAMAGES_OF_SWAPPED_PAGES: [Damage; 2] = [
    (608, 0x00, DecodeError::Field(608)),
    (608, 0x01, DecodeError::Field(608)),
];

// A record, an offset and its byte, and the damages of it so. The byte at 0 is the record's own, that at 172 makes its page
// a blank one, and that at 350 swaps two pages.
const DAMAGED: [(Record, (usize, u8), &[Damage]); 6] = [
    (Record::FirstInVersion1, (0, 0x43), &DAMAGES_OF_VERSION_1),
    (Record::FirstInVersion2, (0, 0x43), &DAMAGES_OF_VERSION_2),
    (
        Record::FirstInVersion2,
        (172, 0x00),
        &DAMAGES_OF_A_BLANK_PAGE,
    ),
    (Record::WithEntries, (0, 0x43), &DAMAGES_OF_ENTRIES),
    (Record::Of16Processes, (0, 0x4D), &DAMAGES_OF_PAGES),
    (
        Record::Of16Processes,
        (350, 0x01),
        &DAMAGES_OF_SWAPPED_PAGES,
    ),
];

#[test]
fn damaged_checkpoints_have_their_faults(rt: HostRuntime) {
    let alloc = rt.alloc();
    for (record, (offset, byte), damages) in &DAMAGED {
        let record = changed(&rt, alloc, *record, *offset, *byte);
        assert_damages(&rt, alloc, &record, damages);
    }
}

// A number for each way in which a checkpoint is refused, and 0 where it is not.
fn number_of(fault: Option<DecodeError>) -> u32 {
    match fault {
        None => 0,
        Some(DecodeError::Short) => 1,
        Some(DecodeError::Kind) => 2,
        Some(DecodeError::Version) => 3,
        Some(DecodeError::Trailing) => 4,
        Some(DecodeError::Field(offset)) => match u32::try_from(offset) {
            Ok(offset) => offset.wrapping_add(5),
            Err(_) => u32::MAX,
        },
        Some(DecodeError::Memory) => u32::MAX,
    }
}

// The record is refused, or spells another checkpoint; why, as one more digit of a sum.
fn add_fault(rt: &impl Abort, alloc: Global, record: &[u8], sum: u32) -> u32 {
    assert_spelled(rt, alloc, record);
    let fault = checkpoint_fault(alloc, record);
    sum.wrapping_mul(31).wrapping_add(number_of(fault))
}

// Adds what becomes of the record with the byte at an offset made the first byte, and so many that follow it.
fn add_faults(
    rt: &impl Abort,
    alloc: Global,
    (record, offset): (&[u8], usize),
    (first, more): (u8, u8),
    mut sum: u32,
) -> u32 {
    for step in 0..=more {
        let changed = with_byte(rt, alloc, record, offset, first.wrapping_add(step));
        sum = add_fault(rt, alloc, &changed, sum);
    }
    sum
}

// The sum of what becomes of the record with each of its bytes made others.
fn sum_of_faults(rt: &impl Abort, alloc: Global, record: &[u8], bytes: (u8, u8)) -> u32 {
    let mut sum = 0;
    for offset in 0..record.len() {
        sum = add_faults(rt, alloc, (record, offset), bytes, sum);
    }
    sum
}

// A record; the first of the bytes that its bytes are made, and how many follow it: all, and from 0xFF to 0x02; and the sum
// that a plain reader of the format in another language comes to.
const CHANGED: [(Record, (u8, u8), u32); 4] = [
    (Record::FirstInVersion1, (0x00, 255), 0x2E0E_61DE),
    (Record::FirstInVersion2, (0x00, 255), 0x9F83_3CC8),
    (Record::WithEntries, (0xFF, 3), 0xFBB5_2F34),
    (Record::Of16Processes, (0xFF, 3), 0xC4ED_58DF),
];

#[test]
fn a_changed_byte_is_refused_or_spells_another_checkpoint(rt: HostRuntime) {
    let alloc = rt.alloc();
    for (record, bytes, sum) in &CHANGED {
        let record = bytes_of(&rt, alloc, *record);
        let told = sum_of_faults(&rt, alloc, &record, *bytes);
        assert!(&rt; told == *sum);
    }
}

// An entry as its interval and its body.
type ToldEntry<'a> = (u32, &'a [u8]);

// A queue as its first number, the number of its entries, and its first two, where there is none 0 and nothing.
type ToldQueue<'a> = (u64, usize, [ToldEntry<'a>; 2]);

fn told_entry(queue: &Queue, place: usize) -> ToldEntry<'_> {
    match queue.entries.get(place) {
        Some(entry) => (entry.interval, entry.body.as_slice()),
        None => (0, &[]),
    }
}

fn told_queue(queue: &Queue) -> ToldQueue<'_> {
    let entries = [told_entry(queue, 0), told_entry(queue, 1)];
    (queue.first, queue.entries.len(), entries)
}

// Returns whether each byte of register i is i.
fn has_registers(checkpoint: &Checkpoint) -> bool {
    let mut register = 0x0101_0101;
    for value in checkpoint.head.regs {
        if u64::from(value) != register {
            return false;
        }
        register = (register + 0x0101_0101) % (1 << 32);
    }
    true
}

const OUTPUTS: ToldQueue = (1, 1, [(3, &[0x7F]), (0, &[])]);

// The fields that the two checkpoints with entries share.
fn assert_fields(rt: &impl Abort, checkpoint: &Checkpoint) {
    let head = &checkpoint.head;
    let told = (head.interval, head.count, head.pc, head.made);
    let outputs = told_queue(&checkpoint.outputs);
    assert_same(
        rt,
        &(told, has_registers(checkpoint)),
        &((3, 20, 8, 2), true),
    );
    assert_same(rt, &outputs, &OUTPUTS);
}

// For how many processes messages are kept, and those for the first three, where there is none as for an empty queue.
type ToldKept<'a> = (usize, [ToldQueue<'a>; 3]);

fn told_at(kept: &[Queue], place: usize) -> ToldQueue<'_> {
    match kept.get(place) {
        Some(queue) => told_queue(queue),
        None => (0, 0, [(0, &[]), (0, &[])]),
    }
}

fn told_kept(kept: &[Queue]) -> ToldKept<'_> {
    (
        kept.len(),
        [told_at(kept, 0), told_at(kept, 1), told_at(kept, 2)],
    )
}

const KEPT_OF_2: ToldKept = (
    2,
    [
        (0, 1, [(1, &[0xAA, 0xBB]), (0, &[])]),
        (2, 2, [(1, &[]), (3, &[1, 2, 3])]),
        (0, 0, [(0, &[]), (0, &[])]),
    ],
);

type Vectors = (usize, [&'static [u32]; 3]);

// The process of the checkpoint of two, and its vectors.
const VECTORS_OF_2: Vectors = (0, [&[3, 1], &[1, 2], &[1, 4]]);

fn assert_of_2(rt: &impl Abort, checkpoint: &Checkpoint) {
    let head = &checkpoint.head;
    let vectors = [
        head.vec.as_slice(),
        head.got.as_slice(),
        head.sent.as_slice(),
    ];
    assert_same(rt, &(head.pid.index(), vectors), &VECTORS_OF_2);
    let memory = [0x73, 0x00, 0x10, 0x00, 0, 0, 0, 0];
    assert_bytes(rt, checkpoint.memory.as_slice(), &memory);
    assert_same(rt, &told_kept(&checkpoint.kept), &KEPT_OF_2);
}

#[test]
fn checkpoints_with_entries_are_read_and_written(rt: HostRuntime) {
    let alloc = rt.alloc();
    let bytes = bytes_of(&rt, alloc, Record::WithEntries);
    let checkpoint = checkpoint_of(&rt, alloc, &bytes);
    assert_fields(&rt, &checkpoint);
    assert_of_2(&rt, &checkpoint);
}

// Returns whether the memory of 600 bytes has its three pages.
fn has_pages(memory: &[u8]) -> bool {
    for (place, byte) in memory.iter().enumerate() {
        let want = match place {
            0..=255 => 0x11,
            599 => 0x7E,
            _ => 0x00,
        };
        if *byte != want {
            return false;
        }
    }
    memory.len() == 600
}

const KEPT_OF_16: ToldKept = (
    16,
    [
        (0, 1, [(1, &[0xAA, 0xBB]), (0, &[])]),
        (0, 0, [(0, &[]), (0, &[])]),
        (0, 2, [(1, &[]), (3, &[1, 2, 3])]),
    ],
);

fn assert_of_16(rt: &impl Abort, checkpoint: &Checkpoint) {
    let head = &checkpoint.head;
    let told = (head.ext, head.pid.index(), head.vec.n());
    let has_pages = has_pages(checkpoint.memory.as_slice());
    assert_same(rt, &(told, has_pages), &((Ext::Im, 15, 16), true));
    assert_same(rt, &told_kept(&checkpoint.kept), &KEPT_OF_16);
}

#[test]
fn checkpoints_of_16_processes_are_read_and_written(rt: HostRuntime) {
    let alloc = rt.alloc();
    let bytes = bytes_of(&rt, alloc, Record::Of16Processes);
    let checkpoint = checkpoint_of(&rt, alloc, &bytes);
    assert_fields(&rt, &checkpoint);
    assert_of_16(&rt, &checkpoint);
    assert_bytes(&rt, &spelled(&rt, alloc, &checkpoint), &bytes);
}
