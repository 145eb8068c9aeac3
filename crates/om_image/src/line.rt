//! The line of a program.

ghost use Rattle.std.specs.Prelude.{◌≡◌, ◌≤◌, ◌↔◌, ◌∷◌, ◌++◌, [], IfOk, IfErr, IsTrue, OnOk, length, map, string_bytes};
ghost use Rattle.om_isa.specs.declared.memory.TheConstants.{MAX_MEMORY};
ghost use Rattle.om_image.specs.Image.{IsElf, IsImageLine, keyword};
ghost use Rattle.om_look.specs.Trace.{word_text};
ghost use Rattle.om_image.specs.steps.Lines.{IsErrorOfLine, IsTaken, spaced};

use crate::error::ImageError;
use crate::words::{texts_of, words_of};
use om_isa::Ext;
use om_scripts::Programs;
use om_text::{BuildError, LineError};
use std::alloc::{AllocError, Global};

// Makes the line of the program whose memory begins with the bytes.
pub(crate) fn line_of(
    alloc: Global,
    ext: Ext,
    name: &[u8],
    size: &[u8],
    bytes: &[u8],
) -> Result<Vec<u8>, ImageError>
    ensures line { IfOk result (λ text. IsImageLine ext name.now size.now bytes.now text.items) }
    ensures short { OnOk result (length bytes.now ≤ MAX_MEMORY) }
    ensures raw { OnOk result (IsElf bytes.now → ⊥) }
    ensures error { IfErr result (IsErrorOfLine ext name.now size.now bytes.now) }
{
    if is_elf(bytes) {
        return Err(ImageError::Elf);
    }
    let words = words_of(alloc, bytes)?;
    let texts = texts_of(alloc, &words)?;
    check(alloc, ext, name, size, &texts)?;
    Ok(joined(alloc, ext, name, size, &texts)?)
}

// Returns whether these are the bytes of an ELF file.
fn is_elf(bytes: &[u8]) -> bool
    ensures { IsTrue result ↔ IsElf bytes.now }
{
    bytes.len() >= 4 && bytes[0] == 0x7f && bytes[1] == b'E' && bytes[2] == b'L' && bytes[3] == b'F'
}

// Reads the line as a script does.
fn check(
    alloc: Global,
    ext: Ext,
    name: &[u8],
    size: &[u8],
    texts: &[String],
) -> Result<(), BuildError<LineError>>
    ensures { IsTaken ext (name.now ∷ size.now ∷ map string_bytes texts.now) result }
{
    let words = line_words(alloc, name, size, texts)?;
    let mut programs = Programs::new(alloc);
    programs.add_program(alloc, ext, &words)
}

// Returns the words of the line behind its first.
fn line_words<'a>(
    alloc: Global,
    name: &'a [u8],
    size: &'a [u8],
    texts: &'a [String],
) -> Result<Vec<&'a [u8]>, AllocError>
    ensures { IfOk result (λ words. map (λ word. word.now) words.items ≡ name.now ∷ size.now ∷ map string_bytes texts.now) }
{
    let mut words = Vec::with_capacity(alloc, texts.len() + 2)?;
    words.push(name)?;
    words.push(size)?;
    for text in texts {
        words.push(text.as_bytes())?;
    }
    Ok(words)
}

// Joins the words, each behind a space but the first, and the end of the line.
fn joined(
    alloc: Global,
    ext: Ext,
    name: &[u8],
    size: &[u8],
    texts: &[String],
) -> Result<Vec<u8>, AllocError>
    ensures { IfOk result (λ line. line.items
        ≡ (keyword ext ++ spaced (name.now ∷ size.now ∷ map string_bytes texts.now)) ++ 10 ∷ []) }
{
    let mut line = Vec::new(alloc);
    line.extend_from_slice(keyword(ext).as_bytes())?;
    add(&mut line, name)?;
    add(&mut line, size)?;
    for text in texts {
        add(&mut line, text.as_bytes())?;
    }
    line.push(b'\n')?;
    Ok(line)
}

// Adds a word behind a space.
fn add(line: &mut Vec<u8>, word: &[u8]) -> Result<(), AllocError>
    ensures { OnOk result (line.new.items ≡ line.old.items ++ 32 ∷ word.now) }
{
    line.push(b' ')?;
    line.extend_from_slice(word)
}

// Returns the first word of the line.
fn keyword(ext: Ext) -> &'static str
    ensures { result.now ≡ keyword ext }
{
    match ext {
        Ext::I => "program",
        Ext::Im => "program-m",
    }
}
