//! The command `debug` over all processes of a record.

ghost use Rattle.std.specs.Prelude.{◌≡◌, ◌⊎◌, ◌<◌, ◌≤◌, ◌+◌, IfSome, IfOk, IfErr, Some, OnOk, length, slice_get, string_bytes};
ghost use Rattle.std.specs.Io.KnownBytes.{Keeps};
ghost use Rattle.om_commands.specs.Sim.{IsErrorOfSim};
ghost use Rattle.om_inferiors.specs.declared.inferior.Inferior.{Inferior};
ghost use Rattle.om_inferiors.specs.declared.inferiors.Inferiors.{Inferiors};
ghost use Rattle.om_inferiors.specs.declared.shown.Shown.TheVariants.{All};
ghost use Rattle.om_debug_command.specs.Debug.{AreBegun, IsAllOpened, IsBegunAll, IsErrorOfAll, IsMember, IsServed, IsBeforeAll};
ghost use Rattle.om_debug_command.specs.Symbols.{AreRun, IsUnknown};
ghost use Rattle.om_debug_command.specs.declared.error.DebugError.TheVariants.{NoSuchName, Refused};

use crate::command::stand;
use crate::error::DebugError;
use crate::symbols::{Symbols, check_known, file_for};
use om_commands::{CommandError, SimScript, read_input};
use om_debug::Wish;
use om_inferiors::{Inferior, Inferiors, ServeError, Shown, serve};
use std::alloc::{AllocError, Global};
use std::io::{Read, Write};

/// Reads a record whole, which is a script of `sim`, and then answers the packets of gdb about all its processes, until it has no more or
/// leaves them; it is told which files have the symbols of their programs. While they move the packets' reader is asked whether a stop is
/// wished. Refused before the first packet as by `open_all`, and then where the packets cannot be read, an answer cannot be written, or
/// memory runs out.
pub fn debug_all<R: Read, P: Wish, W: Write>(
    alloc: Global,
    symbols: &[Symbols],
    input: &mut R,
    packets: &mut P,
    writer: &mut W,
) -> Result<(), DebugError>
    ensures served { IfSome (R.remaining input.old) (λ bytes. OnOk result ((d : Inferiors) × IsAllOpened bytes symbols.now d
        × IsServed (All d) (P.remaining packets.old) (P.remaining packets.new) (W.contents writer.old) (W.contents writer.new))) }
    ensures error { IfSome (R.remaining input.old) (λ bytes. IfErr result (IsErrorOfAll bytes symbols.now)) }
    ensures silent { IfErr result (λ error. IsBeforeAll error (Keeps (W.contents writer.old) (W.contents writer.new))) }
    ensures unread { IfErr result (λ error. IsBeforeAll error (Keeps (P.remaining packets.old) (P.remaining packets.new))) }
{
    let inferiors = open_all(alloc, symbols, input)?;
    match serve(alloc, Shown::All(inferiors), packets, writer) {
        Ok(()) => Ok(()),
        Err(ServeError::CannotRead) => Err(DebugError::Refused(CommandError::CannotRead)),
        Err(ServeError::CannotWrite) => Err(DebugError::Refused(CommandError::CannotWrite)),
        Err(ServeError::NoMemory) => Err(DebugError::Refused(CommandError::NoMemory)),
    }
}

/// Reads a record whole, and stands before its first event with all its processes, each with the file that is given for its program.
/// Refused with the faults of `sim`, and with `NoSuchName` where a file is given for a program that no process runs.
pub fn open_all<R: Read>(
    alloc: Global,
    symbols: &[Symbols],
    input: &mut R,
) -> Result<Inferiors, DebugError>
    ensures opened { IfSome (R.remaining input.old) (λ bytes. IfOk result (IsAllOpened bytes symbols.now)) }
    ensures error { IfSome (R.remaining input.old) (λ bytes. IfErr result (IsErrorOfAll bytes symbols.now)) }
{
    let script = read_input(alloc, input, SimScript::new(alloc))?;
    begin_all(alloc, &script, symbols)
}

// Stands before the first event of a script with all its processes.
fn begin_all(
    alloc: Global,
    script: &SimScript,
    symbols: &[Symbols],
) -> Result<Inferiors, DebugError>
    ensures opened { IfOk result (IsBegunAll script.now symbols.now) }
    ensures error { IfErr result (λ error. (error ≡ Refused CommandError.NoMemory)
        ⊎ ((error ≡ Refused CommandError.EmptyScript) × (length script.now.cluster.processes ≡ 0))
        ⊎ ((error ≡ NoSuchName) × IsUnknown script.now.cluster symbols.now)) }
{
    let count = script.programs().n();
    if count == 0 {
        return Err(DebugError::Refused(CommandError::EmptyScript));
    }
    check_known(script.programs(), symbols)?;
    Ok(Inferiors::new(members_of(alloc, script, symbols, count)?))
}

// Returns the first so many processes.
fn members_of(
    alloc: Global,
    script: &SimScript,
    symbols: &[Symbols],
    count: usize,
) -> Result<Vec<Inferior>, AllocError>
    requires { count ≤ length script.now.cluster.processes }
    ensures count { IfOk result (λ members. length members.items ≡ count) }
    ensures members { IfOk result (λ members. AreBegun script.now symbols.now members.items) }
{
    let mut members = Vec::new(alloc);
    for place in 0..count {
        members.push(member_at(alloc, script, symbols, place)?)?;
    }
    Ok(members)
}

// Returns the process at a place, before the first event.
fn member_at(
    alloc: Global,
    script: &SimScript,
    symbols: &[Symbols],
    place: usize,
) -> Result<Inferior, AllocError>
    requires { place < length script.now.cluster.processes }
    ensures { IfOk result (IsMember script.now symbols.now place) }
{
    let programs = script.programs();
    let name = programs.name(place).unwrap_or("");
    let file = file_for(alloc, symbols, programs, place)?;
    let debugger = stand(alloc, script, place, name)?;
    Ok(Inferior {
        number: place as u32 + 1,
        name: String::from_str(alloc, name)?,
        file,
        debugger,
    })
}
