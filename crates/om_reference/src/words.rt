//! Words and their texts: each line is `WORD TEXT`, eight hexadecimal digits, a space, and the text of the instruction or
//! `none`.
//!
//! The texts are those of GNU objdump 2.40 (`-m riscv:rv32 -M numeric,no-aliases`), laid out as this project does; a
//! second decoder, by quotients, agreed on every word. Fence words and shifts with bit 25 set follow the tables of the
//! RISC-V unprivileged specification. Of the 3,000 words 1,184 are `none`: words of other extensions, reserved ones, and
//! words one bit away from an instruction. A second file has 240 words of RV32M, 30 of each instruction, with the texts
//! that GNU objdump 2.40 gives them.

ghost use Rattle.std.specs.Prelude.{◌≡◌, ◌↔◌, IfOk, codes, true};
ghost use Rattle.om_isa.specs.Rows.{Decodes};
ghost use Rattle.om_isa.specs.Text.{text_of};
ghost use Rattle.om_isa.specs.declared.inst.Inst.{Inst};

use om_isa::{Ext, decode};
use std::alloc::{AllocError, Global};

/// Returns whether a line's word has the line's text in a program of RV32I. A line of another form does not agree.
pub fn agrees(alloc: Global, line: &str) -> Result<bool, AllocError> {
    match parts(line) {
        Some((word, text)) => has_text(alloc, word, Ext::I, text.as_bytes()),
        None => Ok(false),
    }
}

/// Returns whether a line's word has the line's text in a program of RV32IM, and is no instruction in one of RV32I.
pub fn agrees_with_m_alone(alloc: Global, line: &str) -> Result<bool, AllocError> {
    match parts(line) {
        Some((word, text)) => {
            Ok(has_text(alloc, word, Ext::Im, text.as_bytes())? && decode(word, Ext::I).is_none())
        }
        None => Ok(false),
    }
}

// Returns the word and the text of a line.
fn parts(line: &str) -> Option<(u32, &str)> {
    let (word, text) = line.split_once(' ')?;
    Some((u32::from_str_radix(word, 16).ok()?, text))
}

// Returns whether this is the text of the word's instruction, or `none` where it is no instruction.
fn has_text(alloc: Global, word: u32, ext: Ext, text: &[u8]) -> Result<bool, AllocError>
    ensures instruction { (i : Inst) → Decodes ext word i → IfOk result (λ same. (same ≡ true) ↔ (text.now ≡ text_of i)) }
    ensures none { ((i : Inst) → Decodes ext word i → ⊥) → IfOk result (λ same. (same ≡ true) ↔ (text.now ≡ codes "none")) }
{
    let Some(instruction) = decode(word, ext) else {
        return Ok(text == b"none".as_slice());
    };
    let mut written = Vec::new(alloc);
    match instruction.write_text(&mut written) {
        Ok(()) => Ok(written.as_slice() == text),
        Err(_) => Err(AllocError),
    }
}
