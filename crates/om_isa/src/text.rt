//! From an instruction to its text.

ghost use Rattle.std.specs.Prelude.{OnOk};
ghost use Rattle.std.specs.Io.KnownBytes.{Appends};
ghost use Rattle.om_isa.specs.Text.{address_text, fence_text, jump_text, number_text, registers_text, upper_text, text_of};

use crate::fields::{FenceBits, Imm12, Off21, Reg, Upper};
use crate::inst::Inst;
use crate::{rows, shape};
use std::io::Write;
use thiserror::Error;

/// The writer refused. Some of the text may have been written.
#[derive(Clone, Copy, Debug, PartialEq, Eq, Error)]
#[error("the writer refused")]
pub struct WriteFault;

#[tactic(auto, unfolding(crate::specs::Text::upper_text))]
fn write_upper<W: Write>(out: &mut W, name: &str, rd: Reg, upper: Upper) -> Result<(), WriteFault>
    ensures { OnOk result (Appends (W.contents out.old) (W.contents out.new)
        (upper_text name.now rd upper)) }
{
    let rd = rd.value();
    let upper = upper.value();
    write!(out, "{name} x{rd}, 0x{upper:x}").map_err(|_| WriteFault)
}

#[tactic(auto, unfolding(crate::specs::Text::jump_text))]
fn write_jump<W: Write>(out: &mut W, name: &str, rd: Reg, offset: Off21) -> Result<(), WriteFault>
    ensures { OnOk result (Appends (W.contents out.old) (W.contents out.new)
        (jump_text name.now rd offset)) }
{
    let rd = rd.value();
    let offset = offset.value();
    write!(out, "{name} x{rd}, {offset}").map_err(|_| WriteFault)
}

#[tactic(auto, unfolding(crate::specs::Text::address_text))]
fn write_address<W: Write>(
    out: &mut W,
    name: &str,
    a: Reg,
    imm: Imm12,
    base: Reg,
) -> Result<(), WriteFault>
    ensures { OnOk result (Appends (W.contents out.old) (W.contents out.new)
        (address_text name.now a imm base)) }
{
    let a = a.value();
    let imm = imm.value();
    let base = base.value();
    write!(out, "{name} x{a}, {imm}(x{base})").map_err(|_| WriteFault)
}

#[tactic(auto, unfolding(crate::specs::Text::number_text))]
fn write_number<W: Write>(
    out: &mut W,
    name: &str,
    a: Reg,
    b: Reg,
    number: i32,
) -> Result<(), WriteFault>
    ensures { OnOk result (Appends (W.contents out.old) (W.contents out.new)
        (number_text name.now a b number)) }
{
    let a = a.value();
    let b = b.value();
    write!(out, "{name} x{a}, x{b}, {number}").map_err(|_| WriteFault)
}

#[tactic(auto, unfolding(crate::specs::Text::registers_text))]
fn write_registers<W: Write>(
    out: &mut W,
    name: &str,
    a: Reg,
    b: Reg,
    c: Reg,
) -> Result<(), WriteFault>
    ensures { OnOk result (Appends (W.contents out.old) (W.contents out.new)
        (registers_text name.now a b c)) }
{
    let a = a.value();
    let b = b.value();
    let c = c.value();
    write!(out, "{name} x{a}, x{b}, x{c}").map_err(|_| WriteFault)
}

#[tactic(auto, unfolding(crate::specs::Text::fence_text))]
fn write_fence<W: Write>(
    out: &mut W,
    name: &str,
    rd: Reg,
    rs1: Reg,
    bits: FenceBits,
) -> Result<(), WriteFault>
    ensures { OnOk result (Appends (W.contents out.old) (W.contents out.new)
        (fence_text name.now rd rs1 bits)) }
{
    let rd = rd.value();
    let rs1 = rs1.value();
    let bits = bits.value();
    write!(out, "{name} x{rd}, x{rs1}, 0x{bits:x}").map_err(|_| WriteFault)
}

fn write_name<W: Write>(out: &mut W, name: &str) -> Result<(), WriteFault>
    ensures { OnOk result (Appends (W.contents out.old) (W.contents out.new) name.now) }
{
    out.write_all(name.as_bytes()).map_err(|_| WriteFault)
}

// Writes a row's name and operands.
macro_rules! write_row {
    (upper $form:ident $out:ident $name:literal $a:ident $b:ident $c:ident) => {
        write_upper($out, $name, $a, $b)
    };
    (jump $form:ident $out:ident $name:literal $a:ident $b:ident $c:ident) => {
        write_jump($out, $name, $a, $b)
    };
    (address i $out:ident $name:literal $a:ident $b:ident $c:ident) => {
        write_address($out, $name, $a, $c, $b)
    };
    (address s $out:ident $name:literal $a:ident $b:ident $c:ident) => {
        write_address($out, $name, $b, $c, $a)
    };
    (number shift $out:ident $name:literal $a:ident $b:ident $c:ident) => {
        write_number($out, $name, $a, $b, i32::from($c.value()))
    };
    (number $form:ident $out:ident $name:literal $a:ident $b:ident $c:ident) => {
        write_number($out, $name, $a, $b, $c.value())
    };
    (registers $form:ident $out:ident $name:literal $a:ident $b:ident $c:ident) => {
        write_registers($out, $name, $a, $b, $c)
    };
    (fence $form:ident $out:ident $name:literal $a:ident $b:ident $c:ident) => {
        write_fence($out, $name, $a, $b, $c)
    };
    (name $form:ident $out:ident $name:literal $a:ident $b:ident $c:ident) => {
        write_name($out, $name)
    };
}

macro_rules! write_rows {
    (
        [$inst:ident $out:ident]
        $($name:ident $ext:ident ($text:literal $layout:ident) $form:ident $codes:tt $effect:tt,)*
    ) => {
        match *$inst {
            $(shape!($name $form a b c) => write_row!($layout $form $out $text a b c),)*
        }
    };
}

impl Inst {
    /// Writes the instruction's text: its name, a space, and its operands parted by a comma and a space.
    pub fn write_text<W: Write>(&self, out: &mut W) -> Result<(), WriteFault>
        ensures bytes { OnOk result (Appends (W.contents out.old) (W.contents out.new)
            (text_of self.now)) }
    {
        rows!(write_rows!(self out))
    }
}
