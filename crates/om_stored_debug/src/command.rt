//! The command `debug` over a store.

ghost use Rattle.std.specs.Prelude.{◌≡◌, ◌++◌, [], IfErr, IfOk, IsErrOf, OnOk, codes, decimal};
ghost use Rattle.std.specs.Io.KnownBytes.{Keeps};
ghost use Rattle.om_commands.specs.declared.error.CommandError.{CommandError};
ghost use Rattle.om_debug.specs.Stops.{DebugState};
ghost use Rattle.om_debug_command.specs.Debug.{IsBefore, IsServed};
ghost use Rattle.om_inferiors.specs.declared.shown.Shown.TheVariants.{One};
ghost use Rattle.om_stable.specs.Calls.{IsCleanCall, UsesStore};
ghost use Rattle.om_stored_debug.specs.Shown.{IsErrorOfShownStore, IsErrorOfStore, IsShown};
ghost use Rattle.om_stored_debug.specs.steps.Errors.{IsErrorOfServing};

use om_commands::CommandError;
use om_debug::{Debugger, Wish};
use om_inferiors::{ServeError, Shown, serve};
use om_stable::Stable;
use om_stored_timeline::{StoredTimeline, stored_timeline};
use std::alloc::{AllocError, Global};
use std::io::Write;

/// Shows the process of a store under its number, where [`stored_timeline`] says. The store keeps its content. Refused as a replay to the
/// interval is.
pub fn open_store<S: Stable>(
    alloc: Global,
    store: &mut S,
    interval: Option<u32>,
) -> Result<Debugger, CommandError>
    ensures shown { IsCleanCall S.is_clean S.IsSound store.old store.new → IfOk result (IsShown (S.content store.old) interval) }
    ensures error { IsCleanCall S.is_clean S.IsSound store.old store.new
        → IfErr result (IsErrorOfStore (S.content store.old) interval) }
    ensures same { IsCleanCall S.is_clean S.IsSound store.old store.new → S.content store.new ≡ S.content store.old }
    ensures used { UsesStore S.failed S.is_clean S.IsSound store.old (IsErrOf result CommandError.StoreFault) store.new }
{
    let stored = stored_timeline(alloc, store, interval)?;
    Ok(shown(alloc, stored)?)
}

// Shows the process of a store, which has no other name there than its number.
fn shown(alloc: Global, stored: StoredTimeline) -> Result<Debugger, AllocError>
    ensures timeline { IfOk result (λ d. d.timeline ≡ stored.timeline) }
    ensures breaks { IfOk result (λ d. d.breaks ≡ []) }
    ensures watches { IfOk result (λ d. d.watches ≡ []) }
    ensures name { IfOk result (λ d. d.name ≡ codes "process " ++ decimal stored.process) }
{
    let number = stored.process.index();
    let name = format!(in alloc; "process {number}")?;
    Debugger::new(alloc, stored.timeline, &name)
}

/// Answers the packets of gdb about the process of a store, which stands at first where [`open_store`] says, until it has no more or
/// leaves. While the process moves the packets' reader is asked whether a stop is wished. The store keeps its content. Refused before the
/// first packet as by `open_store`, and then where the packets cannot be read, an answer cannot be written, or memory runs out.
pub fn debug_store<S: Stable, P: Wish, W: Write>(
    alloc: Global,
    store: &mut S,
    interval: Option<u32>,
    packets: &mut P,
    writer: &mut W,
) -> Result<(), CommandError>
    ensures served { IsCleanCall S.is_clean S.IsSound store.old store.new → OnOk result ((d : DebugState) × IsShown (S.content store.old) interval d
        × IsServed (One d) (P.remaining packets.old) (P.remaining packets.new) (W.contents writer.old) (W.contents writer.new)) }
    ensures error { IsCleanCall S.is_clean S.IsSound store.old store.new
        → IfErr result (IsErrorOfShownStore (S.content store.old) interval) }
    ensures silent { IfErr result (λ error. IsBefore error (Keeps (W.contents writer.old) (W.contents writer.new))) }
    ensures unread { IfErr result (λ error. IsBefore error (Keeps (P.remaining packets.old) (P.remaining packets.new))) }
    ensures same { IsCleanCall S.is_clean S.IsSound store.old store.new → S.content store.new ≡ S.content store.old }
{
    let debugger = open_store(alloc, store, interval)?;
    answer(alloc, debugger, packets, writer)
}

// Answers packets about a process.
pub(crate) fn answer<P: Wish, W: Write>(
    alloc: Global,
    debugger: Debugger,
    packets: &mut P,
    writer: &mut W,
) -> Result<(), CommandError>
    ensures served { OnOk result (IsServed (One debugger) (P.remaining packets.old) (P.remaining packets.new) (W.contents writer.old) (W.contents writer.new)) }
    ensures error { IfErr result IsErrorOfServing }
{
    match serve(alloc, Shown::One(debugger), packets, writer) {
        Ok(()) => Ok(()),
        Err(ServeError::CannotRead) => Err(CommandError::CannotRead),
        Err(ServeError::CannotWrite) => Err(CommandError::CannotWrite),
        Err(ServeError::NoMemory) => Err(CommandError::NoMemory),
    }
}
