//! The command `frontier`: the recovery state after each note of a record script.

ghost use Rattle.std.specs.Prelude.{◌≡◌, ◌⊎◌, ℕ, List, None, IfSome, IfOk, IfErr, OnOk, string_bytes, Some};
ghost use Rattle.std.specs.Io.KnownBytes.{Appends, Keeps};
ghost use Rattle.om_commands.specs.Command.{IsErrorOf, IsSilent};
ghost use Rattle.om_commands.specs.Frontier.{IsFrontier};
ghost use Rattle.om_commands.specs.RecordScript.{no_records, record_script_line};
ghost use Rattle.om_commands.specs.Report.{IsReport};

use crate::command::write_answer;
use crate::error::CommandError;
use crate::record_script::RecordScript;
use crate::report::report;
use om_text::{read_script, read_text};
use std::alloc::Global;
use std::io::{Read, Write};

/// Reads a record script whole, and then writes the answer to each of its notes and the recovery state.
pub fn frontier<R: Read, W: Write>(
    alloc: Global,
    reader: &mut R,
    writer: &mut W,
) -> Result<(), CommandError>
    ensures text { IfSome (R.remaining reader.old) (λ bytes. OnOk result ((text : List ℕ) × IsFrontier bytes text
        × Appends (W.contents writer.old) (W.contents writer.new) text)) }
    ensures error { IfSome (R.remaining reader.old) (λ bytes.
        IfErr result (IsErrorOf record_script_line no_records (λ script. script.processes ≡ None) bytes)) }
    ensures silent { IfErr result (λ error. IsSilent error (Keeps (W.contents writer.old) (W.contents writer.new))) }
{
    // The script's bytes are kept to the end: once so large a block is freed, the allocator grows others by copies.
    let bytes = read_text(alloc, reader)?;
    let script = read_script(alloc, &bytes, RecordScript::new(alloc))?;
    let text = answer(alloc, &script)?;
    write_answer(writer, text.as_bytes())
}

// Returns the text that answers a script.
fn answer(alloc: Global, script: &RecordScript) -> Result<String, CommandError>
    ensures text { IfOk result (λ text. (n : ℕ) × (script.now.processes ≡ Some n) × IsReport n script.now.notes (string_bytes text)) }
    ensures error { IfErr result (λ error. (error ≡ CommandError.NoMemory)
        ⊎ ((error ≡ CommandError.EmptyScript) × (script.now.processes ≡ None))) }
{
    let Some(n) = script.processes() else {
        return Err(CommandError::EmptyScript);
    };
    Ok(report(alloc, n, script.notes())?)
}
