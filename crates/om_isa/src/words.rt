//! The fields of a word.

ghost use Rattle.std.specs.Prelude.{◌≡◌, ◌*◌, ◌<◌, ◌≤◌, pos};
ghost use Rattle.om_isa.specs.Words.{bits_of, sign_of, immediate_i, immediate_s, immediate_b, immediate_j};

use crate::fields::{FenceBits, Imm12, Off13, Off21, Reg, Shamt, Upper};

// Returns bits `hi` to `lo` of a word, both included.
#[tactic(auto, using(crate::proofs::Bits::and_ones))]
pub fn bits(w: u32, hi: u32, lo: u32) -> u32
    requires ordered { lo ≤ hi }
    requires within { hi < 32 }
    ensures { result ≡ bits_of w hi lo }
{
    (w >> lo) & (u32::MAX >> (31 - (hi - lo)))
}

pub fn opcode(w: u32) -> u32
    ensures { result ≡ bits_of w 6 0 }
{
    bits(w, 6, 0)
}

pub fn funct3(w: u32) -> u32
    ensures { result ≡ bits_of w 14 12 }
{
    bits(w, 14, 12)
}

pub fn funct7(w: u32) -> u32
    ensures { result ≡ bits_of w 31 25 }
{
    bits(w, 31, 25)
}

pub fn rd(w: u32) -> Reg
    ensures { result ≡ bits_of w 11 7 }
{
    Reg {
        value: bits(w, 11, 7) as u8,
    }
}

pub fn rs1(w: u32) -> Reg
    ensures { result ≡ bits_of w 19 15 }
{
    Reg {
        value: bits(w, 19, 15) as u8,
    }
}

pub fn rs2(w: u32) -> Reg
    ensures { result ≡ bits_of w 24 20 }
{
    Reg {
        value: bits(w, 24, 20) as u8,
    }
}

pub fn shamt(w: u32) -> Shamt
    ensures { result ≡ bits_of w 24 20 }
{
    Shamt {
        value: bits(w, 24, 20) as u8,
    }
}

pub fn fence_bits(w: u32) -> FenceBits
    ensures { result ≡ bits_of w 31 20 }
{
    FenceBits {
        value: bits(w, 31, 20) as u16,
    }
}

pub fn upper(w: u32) -> Upper
    ensures { result ≡ bits_of w 31 12 }
{
    Upper {
        value: bits(w, 31, 12),
    }
}

// Returns 1 where an immediate of the word is below 0.
fn sign(w: u32) -> i32
    ensures { result ≡ pos (sign_of w) }
{
    bits(w, 31, 31) as i32
}

pub fn imm_i(w: u32) -> Imm12
    ensures { result ≡ immediate_i w }
{
    Imm12 { value: high_12(w) }
}

// Returns bits 31 to 20 as a signed number, which costs one shift.
#[tactic(auto, using(crate::proofs::Bits::signed_bits))]
fn high_12(w: u32) -> i32
    ensures { result ≡ immediate_i w }
{
    w.cast_signed() >> 20
}

pub fn imm_s(w: u32) -> Imm12
    ensures { result ≡ immediate_s w }
{
    Imm12 {
        value: high_7_low_5(w),
    }
}

// Returns bits 31 to 25 as a signed number, and bits 11 to 7 behind them.
#[tactic(auto, using(crate::proofs::Bits::high_bits))]
fn high_7_low_5(w: u32) -> i32
    ensures { result ≡ immediate_s w }
{
    (w.cast_signed() >> 25) * 32 + bits(w, 11, 7) as i32
}

pub fn offset_b(w: u32) -> Off13
    ensures { result ≡ immediate_b w }
{
    let low = 2048 * bits(w, 7, 7) + 32 * bits(w, 30, 25) + 2 * bits(w, 11, 8);
    Off13 {
        value: low as i32 - 4096 * sign(w),
    }
}

pub fn offset_j(w: u32) -> Off21
    ensures { result ≡ immediate_j w }
{
    let low = 4096 * bits(w, 19, 12) + 2048 * bits(w, 20, 20) + 2 * bits(w, 30, 21);
    Off21 {
        value: low as i32 - 1_048_576 * sign(w),
    }
}
