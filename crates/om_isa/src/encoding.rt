//! From an instruction to its word.

ghost use Rattle.std.specs.Prelude.{◌≡◌, ℕ, ◌*◌, ◌^◌, ◌<◌};
ghost use Rattle.om_isa.specs.Rows.{Decodes, Fits};
ghost use Rattle.om_isa.specs.Words.{IsR, IsI, IsS, IsB, IsU, IsJ, IsFence};

use crate::ext::Ext;
use crate::fields::{FenceBits, Imm12, Off13, Off21, Reg, Shamt, Upper};
use crate::inst::Inst;
use crate::words::bits;
use crate::{rows, shape};

// Returns a field at its place in a word, from bit lo on.
fn place(field: u32, lo: u32) -> u32
    requires within { lo < 32 }
    requires fits { field * 2 ^ lo < 2 ^ 32 }
    ensures { result ≡ field * 2 ^ lo }
{
    field << lo
}

fn word_r(opcode: u32, funct3: u32, funct7: u32, rd: Reg, rs1: Reg, rs2: Reg) -> u32
    requires opcode_fits { opcode < 2 ^ 7 }
    requires funct3_fits { funct3 < 2 ^ 3 }
    requires funct7_fits { funct7 < 2 ^ 7 }
    ensures is { IsR result opcode funct3 funct7 rd rs1 rs2 }
    ensures only { (w : ℕ) → IsR w opcode funct3 funct7 rd rs1 rs2 → w ≡ result }
{
    let registers = place(rd.value().into(), 7)
        + place(rs1.value().into(), 15)
        + place(rs2.value().into(), 20);
    opcode + place(funct3, 12) + place(funct7, 25) + registers
}

fn word_i(opcode: u32, funct3: u32, rd: Reg, rs1: Reg, imm: Imm12) -> u32
    requires opcode_fits { opcode < 2 ^ 7 }
    requires funct3_fits { funct3 < 2 ^ 3 }
    ensures is { IsI result opcode funct3 rd rs1 imm }
    ensures only { (w : ℕ) → IsI w opcode funct3 rd rs1 imm → w ≡ result }
{
    let imm = imm.value().cast_unsigned();
    let registers = place(rd.value().into(), 7) + place(rs1.value().into(), 15);
    opcode + place(funct3, 12) + registers + place(bits(imm, 11, 0), 20)
}

fn word_b(opcode: u32, funct3: u32, rs1: Reg, rs2: Reg, offset: Off13) -> u32
    requires opcode_fits { opcode < 2 ^ 7 }
    requires funct3_fits { funct3 < 2 ^ 3 }
    ensures is { IsB result opcode funct3 rs1 rs2 offset }
    ensures only { (w : ℕ) → IsB w opcode funct3 rs1 rs2 offset → w ≡ result }
{
    let offset = offset.value().cast_unsigned();
    let low = place(bits(offset, 11, 11), 7) + place(bits(offset, 4, 1), 8);
    let high = place(bits(offset, 10, 5), 25) + place(bits(offset, 12, 12), 31);
    let registers = place(rs1.value().into(), 15) + place(rs2.value().into(), 20);
    opcode + place(funct3, 12) + registers + low + high
}

fn word_shift(opcode: u32, funct3: u32, funct7: u32, rd: Reg, rs1: Reg, shamt: Shamt) -> u32
    requires opcode_fits { opcode < 2 ^ 7 }
    requires funct3_fits { funct3 < 2 ^ 3 }
    requires funct7_fits { funct7 < 2 ^ 7 }
    ensures is { IsR result opcode funct3 funct7 rd rs1 shamt }
    ensures only { (w : ℕ) → IsR w opcode funct3 funct7 rd rs1 shamt → w ≡ result }
{
    let registers = place(rd.value().into(), 7) + place(rs1.value().into(), 15);
    opcode + place(funct3, 12) + place(funct7, 25) + registers + place(shamt.value().into(), 20)
}

fn word_s(opcode: u32, funct3: u32, rs1: Reg, rs2: Reg, imm: Imm12) -> u32
    requires opcode_fits { opcode < 2 ^ 7 }
    requires funct3_fits { funct3 < 2 ^ 3 }
    ensures is { IsS result opcode funct3 rs1 rs2 imm }
    ensures only { (w : ℕ) → IsS w opcode funct3 rs1 rs2 imm → w ≡ result }
{
    let imm = imm.value().cast_unsigned();
    let registers = place(rs1.value().into(), 15) + place(rs2.value().into(), 20);
    let parts = place(bits(imm, 4, 0), 7) + place(bits(imm, 11, 5), 25);
    opcode + place(funct3, 12) + registers + parts
}

fn word_u(opcode: u32, rd: Reg, upper: Upper) -> u32
    requires opcode_fits { opcode < 2 ^ 7 }
    ensures is { IsU result opcode rd upper }
    ensures only { (w : ℕ) → IsU w opcode rd upper → w ≡ result }
{
    opcode + place(rd.value().into(), 7) + place(upper.value(), 12)
}

fn word_j(opcode: u32, rd: Reg, offset: Off21) -> u32
    requires opcode_fits { opcode < 2 ^ 7 }
    ensures is { IsJ result opcode rd offset }
    ensures only { (w : ℕ) → IsJ w opcode rd offset → w ≡ result }
{
    let offset = offset.value().cast_unsigned();
    let low = place(bits(offset, 19, 12), 12) + place(bits(offset, 11, 11), 20);
    let high = place(bits(offset, 10, 1), 21) + place(bits(offset, 20, 20), 31);
    opcode + place(rd.value().into(), 7) + low + high
}

fn word_fence(opcode: u32, funct3: u32, rd: Reg, rs1: Reg, bits: FenceBits) -> u32
    requires opcode_fits { opcode < 2 ^ 7 }
    requires funct3_fits { funct3 < 2 ^ 3 }
    ensures is { IsFence result opcode funct3 rd rs1 bits }
    ensures only { (w : ℕ) → IsFence w opcode funct3 rd rs1 bits → w ≡ result }
{
    let registers = place(rd.value().into(), 7) + place(rs1.value().into(), 15);
    opcode + place(funct3, 12) + registers + place(bits.value().into(), 20)
}

// The word of a row with these codes and fields.
macro_rules! word_of {
    (u ($($code:literal),+) $a:ident $b:ident $c:ident) => {
        word_u($($code),+, $a, $b)
    };
    (j ($($code:literal),+) $a:ident $b:ident $c:ident) => {
        word_j($($code),+, $a, $b)
    };
    (i ($($code:literal),+) $a:ident $b:ident $c:ident) => {
        word_i($($code),+, $a, $b, $c)
    };
    (b ($($code:literal),+) $a:ident $b:ident $c:ident) => {
        word_b($($code),+, $a, $b, $c)
    };
    (s ($($code:literal),+) $a:ident $b:ident $c:ident) => {
        word_s($($code),+, $a, $b, $c)
    };
    (shift ($($code:literal),+) $a:ident $b:ident $c:ident) => {
        word_shift($($code),+, $a, $b, $c)
    };
    (r ($($code:literal),+) $a:ident $b:ident $c:ident) => {
        word_r($($code),+, $a, $b, $c)
    };
    (fence ($($code:literal),+) $a:ident $b:ident $c:ident) => {
        word_fence($($code),+, $a, $b, $c)
    };
    (whole ($word:literal) $a:ident $b:ident $c:ident) => {
        $word
    };
}

macro_rules! encode_rows {
    ([$i:ident] $($name:ident $ext:ident $text:tt $form:ident $codes:tt $effect:tt,)*) => {
        match *$i {
            $(shape!($name $form a b c) => word_of!($form $codes a b c),)*
        }
    };
}

/// Returns the one word that decodes to the instruction, in a program that may use all instructions.
pub fn encode(i: &Inst) -> u32
    ensures decodes { Decodes Ext.Im result i.now }
    ensures only { (w : ℕ) → Decodes Ext.Im w i.now → w ≡ result }
{
    encode_by_rows(i)
}

// Returns the one word that fits the instruction's row.
fn encode_by_rows(i: &Inst) -> u32
    ensures fits { Fits result i.now }
    ensures only { (w : ℕ) → Fits w i.now → w ≡ result }
{
    rows!(encode_rows!(i))
}
