//! The command `replay`: the state of a process in an interval, from what its store holds.

ghost use Rattle.std.specs.Prelude.{ℕ, List, IfOk, IfErr, OnOk, IsErrOf, Err, ◌≢◌, string_bytes};
ghost use Rattle.std.specs.Io.KnownBytes.{Appends, Keeps};
ghost use Rattle.om_stable.specs.Calls.{IsCleanCall, UsesStore, LeavesContent};
ghost use Rattle.om_commands.specs.Command.{IsSilent};
ghost use Rattle.om_commands.specs.Replay.{IsReplayText, TellsReplayError, RefusesForNoContent};

use crate::command::write_answer;
use crate::error::CommandError;
use crate::state_text::state_text;
use om_process::ProcCore;
use om_stable::Stable;
use std::alloc::Global;
use std::io::Write;

/// Replays the process whose records a store holds to an interval, and then writes its state: the interval, the count of
/// instructions, pc, registers, memory, and what it is about to do. The store keeps its content. Refused, nothing is
/// written, unless it was the writer that refused.
pub fn replay<S: Stable, W: Write>(
    alloc: Global,
    store: &mut S,
    interval: u32,
    writer: &mut W,
) -> Result<(), CommandError>
    ensures text { IsCleanCall S.is_clean S.IsSound store.old store.new
        → OnOk result ((text : List ℕ) × IsReplayText (S.content store.old) interval text
        × Appends (W.contents writer.old) (W.contents writer.new) text) }
    ensures error { TellsReplayError S.content S.is_clean S.IsSound interval store.old result store.new }
    ensures only { RefusesForNoContent S.content S.is_clean S.IsSound interval store.old result store.new }
    ensures silent { IfErr result (λ error. IsSilent error (Keeps (W.contents writer.old) (W.contents writer.new))) }
    ensures same { LeavesContent S.content S.is_clean S.IsSound store.old store.new }
    ensures used { UsesStore S.failed S.is_clean S.IsSound store.old (IsErrOf result CommandError.StoreFault) store.new }
{
    let text = replayed(alloc, store, interval)?;
    write_answer(writer, text.as_bytes())
}

// Returns the text of the process that is replayed.
fn replayed<S: Stable>(alloc: Global, store: &mut S, interval: u32) -> Result<String, CommandError>
    ensures text { IsCleanCall S.is_clean S.IsSound store.old store.new
        → IfOk result (λ text. IsReplayText (S.content store.old) interval (string_bytes text)) }
    ensures error { TellsReplayError S.content S.is_clean S.IsSound interval store.old result store.new }
    ensures only { RefusesForNoContent S.content S.is_clean S.IsSound interval store.old result store.new }
    ensures silent { result ≢ Err CommandError.CannotWrite }
    ensures same { LeavesContent S.content S.is_clean S.IsSound store.old store.new }
    ensures used { UsesStore S.failed S.is_clean S.IsSound store.old (IsErrOf result CommandError.StoreFault) store.new }
{
    let core = ProcCore::replay(alloc, store, interval)?;
    Ok(state_text(alloc, &core)?)
}
