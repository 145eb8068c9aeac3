//! The command `replay` with a number of steps: the state of a process some instructions behind an interval.

ghost use Rattle.std.specs.Prelude.{◌≡◌, ◌≢◌, ◌++◌, ℕ, List, IfOk, IfErr, OnOk, IsErrOf, Err};
ghost use Rattle.std.specs.Io.KnownBytes.{Appends, Keeps};
ghost use Rattle.om_stable.specs.Calls.{IsCleanCall, UsesStore, LeavesContent};
ghost use Rattle.om_commands.specs.Command.{IsSilent};
ghost use Rattle.om_commands.specs.Replay.{TellsReplayError, RefusesForNoContent};
ghost use Rattle.om_commands.specs.ReplaySteps.{IsStepsText, TakesSteps};
ghost use Rattle.om_commands.specs.steps.Behind.{IsTextBehind};

use crate::command::write_answer;
use crate::error::CommandError;
use crate::state_text::state_text;
use om_look::trace;
use om_process::ProcCore;
use om_stable::Stable;
use std::alloc::{AllocError, Global};
use std::io::Write;

/// Replays the process whose records a store holds to an interval, runs it at most `steps` instructions from there, and then
/// writes its state as [`replay`](crate::replay::replay) does; with a trace, before it a line for each of these instructions,
/// for each message that it sent and for each output that it made. The store keeps its content. Refused, nothing is
/// written, unless it was the writer that refused.
pub fn replay_steps<S: Stable, W: Write>(
    alloc: Global,
    store: &mut S,
    interval: u32,
    steps: u64,
    traced: bool,
    writer: &mut W,
) -> Result<(), CommandError>
    ensures text { IsCleanCall S.is_clean S.IsSound store.old store.new
        → OnOk result ((text : List ℕ) × IsStepsText (S.content store.old) interval steps traced text
        × Appends (W.contents writer.old) (W.contents writer.new) text) }
    ensures error { TellsReplayError S.content S.is_clean S.IsSound interval store.old result store.new }
    ensures only { RefusesForNoContent S.content S.is_clean S.IsSound interval store.old result store.new }
    ensures silent { IfErr result (λ error. IsSilent error (Keeps (W.contents writer.old) (W.contents writer.new))) }
    ensures same { LeavesContent S.content S.is_clean S.IsSound store.old store.new }
    ensures used { UsesStore S.failed S.is_clean S.IsSound store.old (IsErrOf result CommandError.StoreFault) store.new }
{
    let text = stepped(alloc, store, interval, steps, traced)?;
    write_answer(writer, &text)
}

// Returns the text of the process that is replayed and goes on.
fn stepped<S: Stable>(
    alloc: Global,
    store: &mut S,
    interval: u32,
    steps: u64,
    traced: bool,
) -> Result<Vec<u8>, CommandError>
    ensures text { IsCleanCall S.is_clean S.IsSound store.old store.new
        → IfOk result (λ text. IsStepsText (S.content store.old) interval steps traced text.items) }
    ensures error { TellsReplayError S.content S.is_clean S.IsSound interval store.old result store.new }
    ensures only { RefusesForNoContent S.content S.is_clean S.IsSound interval store.old result store.new }
    ensures silent { result ≢ Err CommandError.CannotWrite }
    ensures same { LeavesContent S.content S.is_clean S.IsSound store.old store.new }
    ensures used { UsesStore S.failed S.is_clean S.IsSound store.old (IsErrOf result CommandError.StoreFault) store.new }
{
    let core = ProcCore::replay(alloc, store, interval)?;
    Ok(text_behind(alloc, core, steps, traced)?)
}

// Returns the text of a process that goes on from here, and gives the process up by a call: at the end of a scope each of its parts
// would be dropped, which the prover goes through one by one.
fn text_behind(
    alloc: Global,
    core: ProcCore,
    steps: u64,
    traced: bool,
) -> Result<Vec<u8>, AllocError>
    ensures { IfOk result (λ text. IsTextBehind core steps traced text.items) }
{
    let mut core = core;
    let text = text_along(alloc, &mut core, steps, traced);
    drop(core);
    text
}

// Returns the lines of a process's trace, if there is to be one, and the text of where it stands then.
fn text_along(
    alloc: Global,
    core: &mut ProcCore,
    steps: u64,
    traced: bool,
) -> Result<Vec<u8>, AllocError>
    ensures { IfOk result (λ text. IsTextBehind core.old steps traced text.items) }
{
    let mut text = Vec::new(alloc);
    go_on(alloc, core, steps, traced, &mut text)?;
    text.extend_from_slice(state_text(alloc, core)?.as_bytes())?;
    Ok(text)
}

// Runs a process, and writes the lines of its trace, if there is to be one.
fn go_on(
    alloc: Global,
    core: &mut ProcCore,
    steps: u64,
    traced: bool,
    text: &mut Vec<u8>,
) -> Result<(), AllocError>
    ensures { OnOk result ((lines : List ℕ) × TakesSteps steps traced core.old core.new lines
        × (text.new.items ≡ text.old.items ++ lines)) }
{
    if traced {
        trace(alloc, core, steps, text)?;
    } else {
        core.run(alloc, steps)?;
    }
    Ok(())
}
