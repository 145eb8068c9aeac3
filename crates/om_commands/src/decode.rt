//! The command `decode`: the texts of words of the machine.

ghost use Rattle.std.specs.Prelude.{◌≡◌, ◌++◌, ◌∷◌, [], ℕ, List, IfSome, IfOk, IfErr, OnOk};
ghost use Rattle.std.specs.Io.KnownBytes.{Appends, Keeps};
ghost use Rattle.om_commands.specs.Command.{IsErrorOf, IsSilent};
ghost use Rattle.om_commands.specs.Decode.{IsDecoded, IsListing, IsTextOf};
ghost use Rattle.om_commands.specs.WordScript.{word_script_line};

use crate::command::{read_input, write_answer};
use crate::error::CommandError;
use crate::word_script::WordScript;
use om_isa::Ext;
use std::alloc::{AllocError, Global};
use std::io::{Read, Write};

/// Reads words of the machine, one on each line, and then writes the text of each on a line of its own: that of its
/// instruction, with these extensions, or `none`. An input without words has an empty answer.
pub fn decode<R: Read, W: Write>(
    alloc: Global,
    ext: Ext,
    reader: &mut R,
    writer: &mut W,
) -> Result<(), CommandError>
    ensures text { IfSome (R.remaining reader.old) (λ bytes. OnOk result ((text : List ℕ) × IsDecoded ext bytes text
        × Appends (W.contents writer.old) (W.contents writer.new) text)) }
    ensures error { IfSome (R.remaining reader.old) (λ bytes.
        IfErr result (IsErrorOf word_script_line [] (λ _. ⊥) bytes)) }
    ensures silent { IfErr result (λ error. IsSilent error (Keeps (W.contents writer.old) (W.contents writer.new))) }
{
    let script = read_input(alloc, reader, WordScript::new(alloc))?;
    let text = listing(alloc, ext, &script.words)?;
    write_answer(writer, &text)
}

// Returns the text of each word, on a line of its own.
fn listing(alloc: Global, ext: Ext, words: &[u32]) -> Result<Vec<u8>, AllocError>
    ensures { IfOk result (λ text. IsListing ext words.now text.items) }
{
    let mut text = Vec::new(alloc);
    for word in words {
        push_line(&mut text, ext, *word)?;
    }
    Ok(text)
}

// Writes the text of a word, and ends the line.
fn push_line(text: &mut Vec<u8>, ext: Ext, word: u32) -> Result<(), AllocError>
    ensures { OnOk result ((line : List ℕ) × IsTextOf ext word line × (text.new.items ≡ text.old.items ++ line ++ 10 ∷ [])) }
{
    push_text(text, ext, word)?;
    text.push(b'\n')?;
    Ok(())
}

// Writes the text of the instruction that a word stands for, or `none`.
fn push_text(text: &mut Vec<u8>, ext: Ext, word: u32) -> Result<(), AllocError>
    ensures { OnOk result ((line : List ℕ) × IsTextOf ext word line × (text.new.items ≡ text.old.items ++ line)) }
{
    match om_isa::decode(word, ext) {
        Some(instruction) => instruction.write_text(text).map_err(|_| AllocError),
        None => text.extend_from_slice(b"none"),
    }
}
