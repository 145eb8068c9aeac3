//! What every command over a script does: it reads the whole of its input, and writes its answer.

ghost use Rattle.std.specs.Prelude.{◌≡◌, IfSome, IfOk, IfErr, OnOk, OnErr, Err};
ghost use Rattle.std.specs.Io.KnownBytes.{Appends};
ghost use Rattle.om_commands.specs.Command.{IsScript, IsErrorOf};

use crate::error::CommandError;
use om_text::{Builder, read_script, read_text};
use std::alloc::Global;
use std::io::{Read, Write};

/// Reads an input whole, as the script of a builder: `TooLong`, `CannotRead`, `NoMemory`, or the first faulty line.
pub fn read_input<R: Read, B: Builder + Drop>(
    alloc: Global,
    reader: &mut R,
    builder: B,
) -> Result<B, CommandError>
    ensures script { IfSome (R.remaining reader.old) (λ bytes.
        IfOk result (λ built. IsScript B.meaning (B.state builder) bytes (B.state built))) }
    ensures error { IfSome (R.remaining reader.old) (λ bytes.
        IfErr result (IsErrorOf B.meaning (B.state builder) (λ _. ⊥) bytes)) }
{
    let bytes = read_text(alloc, reader)?;
    Ok(read_script(alloc, &bytes, builder)?)
}

/// Writes the text of an answer whole; refused with `CannotWrite`.
pub fn write_answer<W: Write>(writer: &mut W, text: &[u8]) -> Result<(), CommandError>
    ensures text { OnOk result (Appends (W.contents writer.old) (W.contents writer.new) text.now) }
    ensures error { OnErr result (result ≡ Err CommandError.CannotWrite) }
{
    writer
        .write_all(text)
        .map_err(|_| CommandError::CannotWrite)
}
