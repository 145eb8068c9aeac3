//! Instructions with their fields.

use crate::encoding::encode;
use crate::fields::{FenceBits, Imm12, Off13, Off21, Reg, Shamt, Upper};
use std::fmt;

/// An instruction of RV32IM with its fields (RISC-V unprivileged specification, RV32I 2.1 and RV32M 2.0):
/// registers, immediates as they are signed, offsets in bytes from the instruction's own address, and the
/// upper 20 bits of an immediate of 32 bits.
///
/// Two instructions are the same exactly where their words are, which [`encode`] gives.
#[derive(Clone, Copy)]
pub enum Inst {
    Lui { rd: Reg, upper: Upper },
    Auipc { rd: Reg, upper: Upper },
    Jal { rd: Reg, offset: Off21 },
    Jalr { rd: Reg, rs1: Reg, imm: Imm12 },
    Beq { rs1: Reg, rs2: Reg, offset: Off13 },
    Bne { rs1: Reg, rs2: Reg, offset: Off13 },
    Blt { rs1: Reg, rs2: Reg, offset: Off13 },
    Bge { rs1: Reg, rs2: Reg, offset: Off13 },
    Bltu { rs1: Reg, rs2: Reg, offset: Off13 },
    Bgeu { rs1: Reg, rs2: Reg, offset: Off13 },
    Lb { rd: Reg, rs1: Reg, imm: Imm12 },
    Lh { rd: Reg, rs1: Reg, imm: Imm12 },
    Lw { rd: Reg, rs1: Reg, imm: Imm12 },
    Lbu { rd: Reg, rs1: Reg, imm: Imm12 },
    Lhu { rd: Reg, rs1: Reg, imm: Imm12 },
    Sb { rs1: Reg, rs2: Reg, imm: Imm12 },
    Sh { rs1: Reg, rs2: Reg, imm: Imm12 },
    Sw { rs1: Reg, rs2: Reg, imm: Imm12 },
    Addi { rd: Reg, rs1: Reg, imm: Imm12 },
    Slti { rd: Reg, rs1: Reg, imm: Imm12 },
    Sltiu { rd: Reg, rs1: Reg, imm: Imm12 },
    Xori { rd: Reg, rs1: Reg, imm: Imm12 },
    Ori { rd: Reg, rs1: Reg, imm: Imm12 },
    Andi { rd: Reg, rs1: Reg, imm: Imm12 },
    Slli { rd: Reg, rs1: Reg, shamt: Shamt },
    Srli { rd: Reg, rs1: Reg, shamt: Shamt },
    Srai { rd: Reg, rs1: Reg, shamt: Shamt },
    Add { rd: Reg, rs1: Reg, rs2: Reg },
    Sub { rd: Reg, rs1: Reg, rs2: Reg },
    Sll { rd: Reg, rs1: Reg, rs2: Reg },
    Slt { rd: Reg, rs1: Reg, rs2: Reg },
    Sltu { rd: Reg, rs1: Reg, rs2: Reg },
    Xor { rd: Reg, rs1: Reg, rs2: Reg },
    Srl { rd: Reg, rs1: Reg, rs2: Reg },
    Sra { rd: Reg, rs1: Reg, rs2: Reg },
    Or { rd: Reg, rs1: Reg, rs2: Reg },
    And { rd: Reg, rs1: Reg, rs2: Reg },
    Fence { rd: Reg, rs1: Reg, bits: FenceBits },
    Ecall,
    Ebreak,
    Mul { rd: Reg, rs1: Reg, rs2: Reg },
    Mulh { rd: Reg, rs1: Reg, rs2: Reg },
    Mulhsu { rd: Reg, rs1: Reg, rs2: Reg },
    Mulhu { rd: Reg, rs1: Reg, rs2: Reg },
    Div { rd: Reg, rs1: Reg, rs2: Reg },
    Divu { rd: Reg, rs1: Reg, rs2: Reg },
    Rem { rd: Reg, rs1: Reg, rs2: Reg },
    Remu { rd: Reg, rs1: Reg, rs2: Reg },
}

/// An instruction is shown by its word.
impl fmt::Debug for Inst {
    fn fmt<W: fmt::Write>(&self, f: &mut fmt::Formatter<W>) -> fmt::Result {
        write!(f, "Inst({:08x})", encode(self))
    }
}
