use crate::same::{assert_same, assert_same_at};
use om_isa::{
    Ext, FenceBits, Imm12, Inst, Off13, Off21, Reg, Shamt, Upper, WriteFault, decode, encode,
};
use std::alloc::Global;
use std::process::Abort;

// The text of an instruction.
fn text_of(rt: &impl Abort, alloc: Global, instruction: &Inst) -> Vec<u8> {
    let mut text = Vec::new(alloc);
    instruction.write_text(&mut text).expect(rt, "memory");
    text
}

type Word = (u32, Ext, &'static str);

// The texts are GNU objdump's, laid out as `write_text` does; that of the fence follows the manual.
const WORDS: [Word; 15] = [
    (0x00500093, Ext::I, "addi x1, x0, 5"),
    (0xFE000EE3, Ext::I, "beq x0, x0, -4"),
    (0x0FF0000F, Ext::I, "fence x0, x0, 0xff"),
    (0x123452B7, Ext::I, "lui x5, 0x12345"),
    (0x41F0D093, Ext::I, "srai x1, x1, 31"),
    (0x5DC570EF, Ext::I, "jal x1, 357852"),
    (0x002502E7, Ext::I, "jalr x5, 2(x10)"),
    (0xB80B2E83, Ext::I, "lw x29, -1152(x22)"),
    (0x80080F23, Ext::I, "sb x0, -2018(x16)"),
    (0x40DC03B3, Ext::I, "sub x7, x24, x13"),
    (0x40DC03B3, Ext::Im, "sub x7, x24, x13"),
    (0x022081B3, Ext::Im, "mul x3, x1, x2"),
    (0x0220F1B3, Ext::Im, "remu x3, x1, x2"),
    (0x00000073, Ext::I, "ecall"),
    (0x00100073, Ext::Im, "ebreak"),
];

#[test]
fn words_have_their_texts(rt: HostRuntime) {
    let alloc = rt.alloc();
    for (word, ext, wanted) in &WORDS {
        let instruction = decode(*word, *ext).expect(&rt, "an instruction");
        let text = text_of(&rt, alloc, &instruction);
        let told = (text.as_slice(), encode(&instruction));
        assert_same(&rt, &told, &(wanted.as_bytes(), *word));
    }
}

const OF_NO_INSTRUCTION: [(u32, Ext); 5] = [
    (0x022081B3, Ext::I),
    (0x0220F1B3, Ext::I),
    (0x40004033, Ext::Im),
    (0x00001073, Ext::Im),
    (0x00000000, Ext::I),
];

#[test]
fn other_words_are_no_instructions(rt: HostRuntime) {
    for (word, ext) in &OF_NO_INSTRUCTION {
        assert_same_at(&rt, word, &decode(*word, *ext).is_none(), &true);
    }
}

// The fields of instructions that have ranges.
#[derive(Clone, Copy)]
enum Field {
    Register,
    Shift,
    Immediate,
    Branch,
    Jump,
    Upper,
    Fence,
}

// Returns what a field keeps of a number: the number, or None where it does not fit. A match costs a proof less than a `?`.
fn kept(field: Field, number: i32) -> Option<i32> {
    match field {
        Field::Register => match u8::try_from(number) {
            Ok(number) => match Reg::new(number) {
                Some(register) => Some(i32::from(register.value())),
                None => None,
            },
            Err(_) => None,
        },
        Field::Shift => match u8::try_from(number) {
            Ok(number) => match Shamt::new(number) {
                Some(shift) => Some(i32::from(shift.value())),
                None => None,
            },
            Err(_) => None,
        },
        Field::Immediate => Imm12::new(number).map(Imm12::value),
        Field::Branch => Off13::new(number).map(Off13::value),
        Field::Jump => Off21::new(number).map(Off21::value),
        Field::Upper => match u32::try_from(number) {
            Ok(number) => match Upper::new(number) {
                Some(upper) => i32::try_from(upper.value()).ok(),
                None => None,
            },
            Err(_) => None,
        },
        Field::Fence => match u16::try_from(number) {
            Ok(number) => match FenceBits::new(number) {
                Some(bits) => Some(i32::from(bits.value())),
                None => None,
            },
            Err(_) => None,
        },
    }
}

// A field, a number, and whether it fits.
const FIELDS: [(Field, i32, bool); 28] = [
    (Field::Register, 0, true),
    (Field::Register, 31, true),
    (Field::Register, 32, false),
    (Field::Register, 255, false),
    (Field::Shift, 0, true),
    (Field::Shift, 31, true),
    (Field::Shift, 32, false),
    (Field::Shift, 255, false),
    (Field::Immediate, -2049, false),
    (Field::Immediate, -2048, true),
    (Field::Immediate, 2047, true),
    (Field::Immediate, 2048, false),
    (Field::Branch, -4098, false),
    (Field::Branch, -4096, true),
    (Field::Branch, 4093, false),
    (Field::Branch, 4094, true),
    (Field::Branch, 4096, false),
    (Field::Jump, -1_048_578, false),
    (Field::Jump, -1_048_576, true),
    (Field::Jump, 1_048_574, true),
    (Field::Jump, 1_048_575, false),
    (Field::Jump, 1_048_576, false),
    (Field::Upper, 0, true),
    (Field::Upper, 1_048_575, true),
    (Field::Upper, 1_048_576, false),
    (Field::Fence, 0, true),
    (Field::Fence, 4095, true),
    (Field::Fence, 4096, false),
];

#[test]
fn fields_keep_their_ranges(rt: HostRuntime) {
    for (field, number, lawful) in &FIELDS {
        let wanted = lawful.then_some(*number);
        assert_same_at(
            &rt,
            &(*field as u8, number),
            &kept(*field, *number),
            &wanted,
        );
    }
}

#[test]
fn a_full_writer_is_a_fault(rt: HostRuntime) {
    let mut buffer = [0; 4];
    let mut room = buffer.as_mut_slice();
    assert_same(&rt, &Inst::Ecall.write_text(&mut room), &Err(WriteFault));
}

#[test]
fn an_instruction_is_shown_by_its_word(rt: HostRuntime) {
    let shown = format!(in rt.alloc(); "{:?}", Inst::Ebreak).expect(&rt, "memory");
    assert_same(&rt, &shown.as_str(), &"Inst(00100073)");
}
