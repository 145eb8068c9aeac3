//! From a word to its instruction.

ghost use Rattle.std.specs.Prelude.{◌≡◌, ◌↔◌, Some};
ghost use Rattle.om_isa.specs.declared.inst.Inst.{Inst};
ghost use Rattle.om_isa.specs.derived.Decoded.{decoded};
ghost use Rattle.om_isa.specs.Rows.{Decodes, Fits, extension_of};

use crate::ext::Ext;
use crate::inst::Inst;
use crate::words::{
    fence_bits, funct3, funct7, imm_i, imm_s, offset_b, offset_j, opcode, rd, rs1, rs2, shamt,
    upper,
};
use crate::{rows, shape};

// The codes of a form among the opcode, the funct3, the funct7 and the whole of a word.
macro_rules! codes {
    (u ($opcode:literal)) => {
        ($opcode, _, _, _)
    };
    (j ($opcode:literal)) => {
        ($opcode, _, _, _)
    };
    (whole ($word:literal)) => {
        (_, _, _, $word)
    };
    ($form:ident ($opcode:literal, $funct3:literal)) => {
        ($opcode, $funct3, _, _)
    };
    ($form:ident ($opcode:literal, $funct3:literal, $funct7:literal)) => {
        ($opcode, $funct3, $funct7, _)
    };
}

// The variant of a row with the fields of a word.
macro_rules! fields_of {
    ($w:ident $name:ident u) => {
        Inst::$name { rd: rd($w), upper: upper($w) }
    };
    ($w:ident $name:ident j) => {
        Inst::$name { rd: rd($w), offset: offset_j($w) }
    };
    ($w:ident $name:ident i) => {
        Inst::$name { rd: rd($w), rs1: rs1($w), imm: imm_i($w) }
    };
    ($w:ident $name:ident b) => {
        Inst::$name { rs1: rs1($w), rs2: rs2($w), offset: offset_b($w) }
    };
    ($w:ident $name:ident s) => {
        Inst::$name { rs1: rs1($w), rs2: rs2($w), imm: imm_s($w) }
    };
    ($w:ident $name:ident shift) => {
        Inst::$name { rd: rd($w), rs1: rs1($w), shamt: shamt($w) }
    };
    ($w:ident $name:ident r) => {
        Inst::$name { rd: rd($w), rs1: rs1($w), rs2: rs2($w) }
    };
    ($w:ident $name:ident fence) => {
        Inst::$name { rd: rd($w), rs1: rs1($w), bits: fence_bits($w) }
    };
    ($w:ident $name:ident whole) => {
        Inst::$name
    };
}

macro_rules! decode_rows {
    ([$w:ident] $($name:ident $ext:ident $text:tt $form:ident $codes:tt $effect:tt,)*) => {
        match (opcode($w), funct3($w), funct7($w), $w) {
            $(codes!($form $codes) => Some(fields_of!($w $name $form)),)*
            _ => None,
        }
    };
}

macro_rules! extension_rows {
    ([$i:ident] $($name:ident $ext:ident $text:tt $form:ident $codes:tt $effect:tt,)*) => {
        match *$i {
            $(Inst::$name { .. } => Ext::$ext,)*
        }
    };
}

/// Returns the instruction that a word stands for in a program of this extension, or `None` where it fits no
/// row of it.
#[inline(always)]
pub fn decode(w: u32, ext: Ext) -> Option<Inst>
    // The result equals at most one instruction, so no word fits two rows.
    ensures exact { (i : Inst) → Decodes ext w i ↔ (result ≡ Some i) }
    ensures function { result ≡ decoded ext w }
{
    let inst = decode_by_rows(w)?;
    ext.has(extension_of(&inst)).then_some(inst)
}

// Returns the instruction of a word's row, whatever the extension.
#[inline(always)]
fn decode_by_rows(w: u32) -> Option<Inst>
    ensures { (i : Inst) → Fits w i ↔ (result ≡ Some i) }
{
    rows!(decode_rows!(w))
}

// Returns the least extension that has an instruction.
#[inline(always)]
fn extension_of(i: &Inst) -> Ext
    ensures { result ≡ extension_of i.now }
{
    rows!(extension_rows!(i))
}
