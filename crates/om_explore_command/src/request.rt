//! The request `explore`: a cluster file is read once, and the runs of its cluster are explored.

ghost use Rattle.std.specs.Prelude.{◌≡◌, ◌⊎◌, ◌≤◌, ℕ, List, IfErr, IfOk, IfSome, OnErr, OnOk, length, string_bytes};
ghost use Rattle.std.specs.Io.KnownBytes.{Appends, Keeps};
ghost use Rattle.om_commands.specs.Command.{IsSilent};
ghost use Rattle.om_run_commands.specs.Run.{IsErrorOfRun};
ghost use Rattle.om_run_commands.specs.steps.Scripts.{IsErrorOfScript};
ghost use Rattle.om_explore_command.specs.Request.{IsExploreAnswer, IsExploredFile};

use crate::context::ExploreContext;
use crate::exploration::{Exploration, explored};
use crate::options::Options;
use crate::text::exploration_text;
use om_commands::{CommandError, read_input, write_answer};
use om_run_commands::{ClusterScript, events_text};
use om_world::Event;
use std::alloc::{AllocError, Global};
use std::io::{Read, Write};

// Makes a script of `sim`: the lines of programs and processes, and then these events.
fn witness_of(
    alloc: Global,
    script: &ClusterScript,
    events: &[Event],
) -> Result<Vec<u8>, AllocError> {
    let events = events_text(alloc, events)?;
    let mut bytes = Vec::from_slice(alloc, script.lines())?;
    bytes.extend_from_slice(events.as_bytes())?;
    Ok(bytes)
}

// Writes a script that leads to each text.
fn write_witnesses<C: ExploreContext>(
    alloc: Global,
    script: &ClusterScript,
    exploration: &Exploration,
    context: &mut C,
) -> Result<(), CommandError>
    ensures { IfErr result (λ error. (error ≡ CommandError.CannotWrite) ⊎ (error ≡ CommandError.NoMemory)) }
{
    for k in 0..exploration.found.len() {
        let witness = witness_of(alloc, script, &exploration.found[k].outcome.events)?;
        context.write_witness(k + 1, &witness)?;
    }
    Ok(())
}

// Writes them where the context wants them.
fn write_wanted<C: ExploreContext>(
    alloc: Global,
    script: &ClusterScript,
    exploration: &Exploration,
    context: &mut C,
) -> Result<(), CommandError>
    ensures { IfErr result (λ error. (error ≡ CommandError.CannotWrite) ⊎ (error ≡ CommandError.NoMemory)) }
{
    if context.wants_witnesses() {
        return write_witnesses(alloc, script, exploration, context);
    }
    Ok(())
}

// Returns the text that answers a script of a process or more. Where the context wants witnesses, they are written.
fn explored_text<C: ExploreContext>(
    alloc: Global,
    script: &ClusterScript,
    options: &Options,
    context: &mut C,
) -> Result<String, CommandError>
    requires { 1 ≤ length script.now.cluster.processes }
    ensures text { IfOk result (λ text. IsExploreAnswer options.now.form options.now.is_all script.now (string_bytes text)) }
    ensures error { IfErr result (IsErrorOfScript script.now) }
{
    let programs = script.programs();
    let limit = options.turns.saturating_mul(script.fuel());
    let exploration = explored(alloc, programs, options, limit, context)?;
    write_wanted(alloc, script, &exploration, context)?;
    Ok(exploration_text(alloc, options.form, programs, &exploration, options.is_all)?)
}

// Returns the text that answers a script.
fn answer<C: ExploreContext>(
    alloc: Global,
    script: &ClusterScript,
    options: &Options,
    context: &mut C,
) -> Result<String, CommandError>
    ensures text { IfOk result (λ text. IsExploreAnswer options.now.form options.now.is_all script.now (string_bytes text)) }
    ensures error { IfErr result (IsErrorOfScript script.now) }
{
    if script.programs().n() == 0 {
        return Err(CommandError::EmptyScript);
    }
    explored_text(alloc, script, options, context)
}

// Writes the text that answers a script.
fn write_explored<C: ExploreContext, W: Write>(
    alloc: Global,
    script: &ClusterScript,
    options: &Options,
    context: &mut C,
    writer: &mut W,
) -> Result<(), CommandError>
    ensures text { OnOk result ((text : List ℕ) × IsExploreAnswer options.now.form options.now.is_all script.now text
        × Appends (W.contents writer.old) (W.contents writer.new) text) }
    ensures error { IfErr result (IsErrorOfScript script.now) }
    ensures silent { IfErr result (λ error. IsSilent error (Keeps (W.contents writer.old) (W.contents writer.new))) }
{
    let text = answer(alloc, script, options, context)?;
    write_answer(writer, text.as_bytes())
}

/// Reads a cluster file whole, plays runs without failures of its cluster in different orders of receipts, and writes the texts that
/// they come to: how often each came, where each differs from the first, and how many there are. In a run a process finishes at most
/// as many instructions as its turns have. Where the context wants witnesses, it gets for each text a script of `sim` that leads to
/// it, before the text is written.
///
/// Refused as `run` is, with `OutOfTurns` where a process comes to its limit; then nothing is written, unless it was the writer that
/// refused.
pub fn explore_file<C: ExploreContext, I: Read, W: Write>(
    alloc: Global,
    options: &Options,
    context: &mut C,
    reader: &mut I,
    writer: &mut W,
) -> Result<(), CommandError>
    ensures text { IfSome (I.remaining reader.old) (λ bytes. OnOk result ((text : List ℕ) × IsExploredFile options.now.form options.now.is_all bytes text
        × Appends (W.contents writer.old) (W.contents writer.new) text)) }
    ensures error { IfSome (I.remaining reader.old) (λ bytes. IfErr result (IsErrorOfRun bytes)) }
    ensures silent { IfErr result (λ error. IsSilent error (Keeps (W.contents writer.old) (W.contents writer.new))) }
{
    let script = ClusterScript::new(alloc, context.wants_witnesses());
    match read_input(alloc, reader, script) {
        Ok(script) => write_explored(alloc, &script, options, context, writer),
        Err(error) => Err(error),
    }
}
