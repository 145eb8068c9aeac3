//! The texts of registers and memory, as gdb 13.1 understood them.

use om_isa::{Ext, is_memory_size};
use om_machine::Machine;
use om_requests::{memory_text, piece_text, registers_text, target_text};
use std::alloc::Global;
use std::process::Abort;

// The first words of a program's memory.
static WORDS: [u32; 16] = [
    0x0000_2117,
    0x0001_0113,
    0x0000_0097,
    0x12c0_80e7,
    0x0000_0893,
    0x0000_0073,
    0x0000_0737,
    0x0000_07b7,
    0x23c7_2503,
    0x2547_a783,
    0xff01_0113,
    0x00f5_6463,
    0x0015_0513,
    0x0000_06b7,
    0x2386_a783,
    0x0001_2423,
];

// A machine at an address, with some numbers in its registers.
fn machine(rt: &impl Abort, alloc: Global) -> Machine {
    let mut regs = [0; 31];
    regs[0] = 0x1d0;
    regs[1] = 0x1fd0;
    regs[7] = 3;
    regs[9] = 1;
    regs[10] = 4;
    regs[16] = 4;
    regs[17] = 1;
    let mut memory = Vec::new(alloc);
    for word in &WORDS {
        memory
            .extend_from_slice(&word.to_le_bytes())
            .expect(rt, "memory");
    }
    memory.resize(8192, 0).expect(rt, "memory");
    assert!(rt; is_memory_size(memory.len()));
    Machine::restore(alloc, &regs, 0x18, 0, &memory, Ext::I).expect(rt, "memory")
}

#[test]
fn registers(rt: HostRuntime) {
    let text = registers_text(rt.alloc(), &machine(&rt, rt.alloc())).expect(&rt, "memory");
    assert_eq!(&rt;
        text.as_str(),
        "00000000d0010000d01f0000000000000000000000000000000000000000000003000000000000000100000004000000000000000000000000000000000000000000000004000000010000000000000000000000000000000000000000000000000000000000000000000000000000000000000000000000000000000000000018000000"
    );
}

// Addresses and numbers of bytes, and what is answered.
static PLACES: [(u32, u32, &str); 9] = [
    (
        0,
        64,
        "172100001301010097000000e780c012930800007300000037070000b70700000325c72383a74725130101ff6364f50013051500b706000083a7862323240100",
    ),
    (0x18, 4, "37070000"),
    (0x19, 2, "0700"),
    (0x18, 0, ""),
    // The last bytes of memory, and what lies behind them.
    (8191, 1, "00"),
    (8190, 4, "0000"),
    (8190, 0xffff_ffff, "0000"),
    (8192, 1, "E01"),
    (0xffff_ffff, 0xffff_ffff, "E01"),
];

#[test]
fn memory(rt: HostRuntime) {
    let machine = machine(&rt, rt.alloc());
    for (address, count, answer) in &PLACES {
        let text = memory_text(rt.alloc(), &machine, *address, *count).expect(&rt, "memory");
        assert_eq!(&rt; text.as_str(), *answer);
    }
}

// Offsets and numbers of bytes, and the pieces of a text of seven.
static PIECES: [(u32, u32, &[u8]); 8] = [
    (0, 7, b"labcdefg"),
    (0, 6, b"mabcdef"),
    (1, 6, b"lbcdefg"),
    (1, 5, b"mbcdef"),
    (6, 4096, b"lg"),
    (7, 1, b"l"),
    (0xffff_ffff, 0xffff_ffff, b"l"),
    (2, 0, b"m"),
];

#[test]
fn pieces(rt: HostRuntime) {
    for (offset, count, piece) in &PIECES {
        let found = piece_text(rt.alloc(), b"abcdefg", *offset, *count).expect(&rt, "memory");
        assert_eq!(&rt; found.as_slice(), *piece);
    }
}

#[test]
fn registers_are_described(rt: HostRuntime) {
    let text = target_text();
    assert_eq!(&rt; text.matches("<reg ").count(), 33);
    assert!(&rt; text.contains("<architecture>riscv:rv32</architecture>"));
    assert!(&rt; text.contains("name=\"fp\" bitsize=\"32\" regnum=\"8\" type=\"data_ptr\""));
    assert!(&rt; text.contains("name=\"pc\" bitsize=\"32\" regnum=\"32\" type=\"code_ptr\""));
}
