//! The command `debug`: a process of a record under gdb.

ghost use Rattle.std.specs.Prelude.{◌≡◌, ◌⊎◌, ◌<◌, ◌≤◌, IfSome, IfOk, IfErr, None, OnOk, length};
ghost use Rattle.std.specs.Io.KnownBytes.{Keeps};
ghost use Rattle.om_interval.specs.declared.pid.TheConstants.{MAX_PROCESSES};
ghost use Rattle.om_scripts.specs.Named.{place_of};
ghost use Rattle.om_debug.specs.Stops.{DebugState};
ghost use Rattle.om_inferiors.specs.declared.shown.Shown.TheVariants.{One};
ghost use Rattle.om_debug_command.specs.Debug.{IsBefore, IsBegunAt, IsErrorOfDebug, IsOpened, IsPlaced, IsServed};

use om_commands::sim::start;
use om_commands::{CommandError, SimScript, read_input};
use om_debug::{Debugger, Wish};
use om_inferiors::{ServeError, Shown, serve};
use om_interval::Pid;
use om_timeline::Timeline;
use std::alloc::{AllocError, Global};
use std::io::{Read, Write};

/// Reads a record whole, which is a script of `sim`, and then answers the packets of gdb about its process of this name, until it has
/// no more or leaves. While the process moves the packets' reader is asked whether a stop is wished. Refused before the first packet as
/// by `open`, and then where the packets cannot be read, an answer cannot be written, or memory runs out.
pub fn debug<R: Read, P: Wish, W: Write>(
    alloc: Global,
    process: &str,
    input: &mut R,
    packets: &mut P,
    writer: &mut W,
) -> Result<(), CommandError>
    ensures served { IfSome (R.remaining input.old) (λ bytes. OnOk result ((d : DebugState) × IsOpened bytes process.now d
        × IsServed (One d) (P.remaining packets.old) (P.remaining packets.new) (W.contents writer.old) (W.contents writer.new))) }
    ensures error { IfSome (R.remaining input.old) (λ bytes. IfErr result (IsErrorOfDebug bytes process.now)) }
    ensures silent { IfErr result (λ error. IsBefore error (Keeps (W.contents writer.old) (W.contents writer.new))) }
    ensures unread { IfErr result (λ error. IsBefore error (Keeps (P.remaining packets.old) (P.remaining packets.new))) }
{
    let debugger = open(alloc, process, input)?;
    match serve(alloc, Shown::One(debugger), packets, writer) {
        Ok(()) => Ok(()),
        Err(ServeError::CannotRead) => Err(CommandError::CannotRead),
        Err(ServeError::CannotWrite) => Err(CommandError::CannotWrite),
        Err(ServeError::NoMemory) => Err(CommandError::NoMemory),
    }
}

/// Reads a record whole, and stands before its first event with the process of this name. Refused with the faults of `sim`, and
/// with `NoSuchProcess` where no process has the name.
pub fn open<R: Read>(alloc: Global, process: &str, input: &mut R) -> Result<Debugger, CommandError>
    ensures opened { IfSome (R.remaining input.old) (λ bytes. IfOk result (IsOpened bytes process.now)) }
    ensures error { IfSome (R.remaining input.old) (λ bytes. IfErr result (IsErrorOfDebug bytes process.now)) }
{
    let script = read_input(alloc, input, SimScript::new(alloc))?;
    begin(alloc, process, &script)
}

// Stands before the first event of a script.
fn begin(alloc: Global, process: &str, script: &SimScript) -> Result<Debugger, CommandError>
    ensures opened { IfOk result (IsBegunAt script.now process.now) }
    ensures error { IfErr result (λ error. (error ≡ CommandError.NoMemory)
        ⊎ ((error ≡ CommandError.NoSuchProcess) × (1 ≤ length script.now.cluster.processes)
        × (place_of process.now script.now.cluster.processes ≡ None))
        ⊎ ((error ≡ CommandError.EmptyScript) × (length script.now.cluster.processes ≡ 0))) }
{
    let programs = script.programs();
    if programs.n() == 0 {
        return Err(CommandError::EmptyScript);
    }
    let Some(place) = programs.place(process) else {
        return Err(CommandError::NoSuchProcess);
    };
    Ok(stand(alloc, script, place, process)?)
}

// Stands before the first event of a script with the process at a place.
pub(crate) fn stand(
    alloc: Global,
    script: &SimScript,
    place: usize,
    name: &str,
) -> Result<Debugger, AllocError>
    requires { place < length script.now.cluster.processes }
    ensures { IfOk result (IsPlaced script.now place) }
{
    let programs = script.programs();
    // No script has more.
    let _ = programs.n();
    let world = start(alloc, programs)?;
    let events = Vec::from_slice(alloc, script.events())?;
    match Timeline::new(alloc, world, events, Pid::at(place))? {
        Some(timeline) => Ok(Debugger::new(alloc, timeline, name)?),
        // At the start each process is up.
        None => unreachable!(),
    }
}
