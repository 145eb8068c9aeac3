//! The command `show`: what a store holds, and to where it can be replayed.

ghost use Rattle.std.specs.Prelude.{◌≡◌, ℕ, List, IfErr, OnOk, IsErrOf};
ghost use Rattle.std.specs.Io.KnownBytes.{Appends, Keeps};
ghost use Rattle.om_look.specs.Show.{IsShown};
ghost use Rattle.om_stable.specs.Calls.{IsCleanCall, UsesStore, LeavesContent};
ghost use Rattle.om_commands.specs.Command.{IsSilent};
ghost use Rattle.om_commands.specs.Replay.{IsNoMatterOfContent};
ghost use Rattle.om_commands.specs.steps.Errors.{error_of_look};

use crate::command::write_answer;
use crate::error::CommandError;
use om_look::{LookFault, content_text};
use om_stable::Stable;
use std::alloc::Global;
use std::io::Write;

/// Writes what a store holds: a line for each checkpoint, for each receipt, and for each range of intervals to which the process
/// can be replayed. The store keeps its content, and no record of it is a reason to refuse. Refused, nothing is written,
/// unless it was the writer that refused.
pub fn show<S: Stable, W: Write>(
    alloc: Global,
    store: &mut S,
    writer: &mut W,
) -> Result<(), CommandError>
    ensures text { IsCleanCall S.is_clean S.IsSound store.old store.new
        → OnOk result ((text : List ℕ) × IsShown (S.content store.old) text
        × Appends (W.contents writer.old) (W.contents writer.new) text) }
    ensures error { IfErr result IsNoMatterOfContent }
    ensures silent { IfErr result (λ error. IsSilent error (Keeps (W.contents writer.old) (W.contents writer.new))) }
    ensures same { LeavesContent S.content S.is_clean S.IsSound store.old store.new }
    ensures used { UsesStore S.failed S.is_clean S.IsSound store.old (IsErrOf result CommandError.StoreFault) store.new }
{
    let text = content_text(alloc, store)?;
    write_answer(writer, text.as_bytes())
}

impl From<LookFault> for CommandError {
    ghost from_gives = { λ fault e. e ≡ error_of_look fault };

    fn from(fault: LookFault) -> CommandError {
        match fault {
            LookFault::Fault => CommandError::StoreFault,
            LookFault::Memory => CommandError::NoMemory,
        }
    }
}
