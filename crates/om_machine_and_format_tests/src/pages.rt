//! Which pages of a machine's memory hold a byte other than zero, by each way in which a byte comes there.

use crate::same::assert_same_at;
use om_isa::{Ext, WRITABLE_REGISTERS, is_memory_size};
use om_machine::{EnvCall, Event, Machine};
use std::alloc::Global;
use std::process::Abort;

// A memory of zeros but for the bytes at these places.
fn memory(rt: &impl Abort, alloc: Global, size: usize, set: &[usize]) -> Vec<u8> {
    let mut bytes = Vec::new(alloc);
    bytes.resize(size, 0).expect(rt, "memory");
    for place in set {
        assert!(rt; *place < bytes.len());
        bytes[*place] = 1;
    }
    bytes
}

// Compares the pages that a machine tells with those that are wanted.
fn assert_pages(rt: &impl Abort, alloc: Global, machine: &Machine, row: &[u32], wanted: &[u16]) {
    let kept = machine.kept_pages(alloc).expect(rt, "memory");
    assert_same_at(rt, &row, &kept.as_slice(), &wanted);
}

type Bytes = (u32, &'static [usize], &'static [u16]);

// The size of a memory, the places of its bytes that are not zero, and the pages: none, the first and the last byte of a page, a
// page of one word behind a whole one, and the last of 256.
const MEMORIES: [Bytes; 6] = [
    (1024, &[], &[]),
    (1024, &[0], &[0]),
    (1024, &[255, 512], &[0, 2]),
    (1024, &[256, 1023], &[1, 3]),
    (260, &[259], &[1]),
    (65_536, &[65_535], &[255]),
];

// A machine that is restored with these bytes.
fn restored(rt: &impl Abort, alloc: Global, bytes: &[u8]) -> Machine {
    assert!(rt; is_memory_size(bytes.len()));
    let regs = [0; WRITABLE_REGISTERS];
    Machine::restore(alloc, &regs, 0, 0, bytes, Ext::I).expect(rt, "a machine")
}

#[test]
fn pages_of_an_image_and_of_a_restored_memory(rt: HostRuntime) {
    let alloc = rt.alloc();
    for (size, set, wanted) in &MEMORIES {
        let bytes = memory(&rt, alloc, *size as usize, set);
        let loaded = Machine::load(alloc, &bytes, *size, Ext::I).expect(&rt, "a machine");
        assert_pages(&rt, alloc, &loaded, &[*size], wanted);
        assert_pages(&rt, alloc, &restored(&rt, alloc, &bytes), &[*size], wanted);
    }
}

type Stores = (&'static [u32], &'static [u16]);

// 1 into x1, and then stores of it: a byte, a word and half a word on each side of a page's end (511, 508, 512, 1022), of zero
// into a page (768), a word and zero over it, twice into one page, and into the word that is run next.
const STORES: [Stores; 8] = [
    (&[0x00100093, 0x1E100FA3], &[0, 1]),
    (&[0x00100093, 0x1E102E23], &[0, 1]),
    (&[0x00100093, 0x20102023], &[0, 2]),
    (&[0x00100093, 0x3E101F23], &[0, 3]),
    (&[0x00100093, 0x30002023], &[0]),
    (&[0x00100093, 0x20102023, 0x20002023], &[0]),
    (&[0x00100093, 0x1E102E23, 0x1E100FA3], &[0, 1]),
    (&[0x00100093, 0x00102423, 0x00000013], &[0]),
];

// A machine with a program and a memory of 4 pages.
fn program(rt: &impl Abort, alloc: Global, words: &[u32]) -> Machine {
    let mut image = Vec::new(alloc);
    for word in words {
        image
            .extend_from_slice(&word.to_le_bytes())
            .expect(rt, "memory");
    }
    Machine::load(alloc, &image, 1024, Ext::I).expect(rt, "a machine")
}

// Stores tell the same pages in one run, twice over, and step by step.
#[test]
fn pages_that_were_stored_to(rt: HostRuntime) {
    let alloc = rt.alloc();
    for (words, wanted) in &STORES {
        let mut machine = program(&rt, alloc, words);
        machine.run(words.len() as u64);
        assert_pages(&rt, alloc, &machine, words, wanted);
        let mut machine = program(&rt, alloc, words);
        for _ in *words {
            machine.step();
        }
        assert_pages(&rt, alloc, &machine, words, wanted);
    }
}

// x17 = 2, the buffer's address into x10 and its size into x11, and the call.
const RECEIVE: [u32; 4] = [0x00200893, 0x1FE00513, 0x00400593, 0x00000073];

type Body = (&'static [u8], &'static [u16]);

// What comes into the buffer, of the bytes 510 to 513, and the pages.
const BODIES: [Body; 4] = [
    (&[], &[0]),
    (&[0, 9], &[0, 1]),
    (&[0, 0, 9], &[0, 2]),
    (&[9, 0, 0, 9, 9], &[0, 1, 2]),
];

#[test]
fn pages_that_a_receive_wrote(rt: HostRuntime) {
    let alloc = rt.alloc();
    for (body, wanted) in &BODIES {
        let mut machine = program(&rt, alloc, &RECEIVE);
        machine.run(9);
        if let Event::Call(EnvCall::Receive { addr, cap }) = machine.peek() {
            assert!(rt; machine.bytes(addr, cap).is_some());
            machine.finish_receive(1, body);
        }
        assert_pages(&rt, alloc, &machine, &RECEIVE, wanted);
    }
}
