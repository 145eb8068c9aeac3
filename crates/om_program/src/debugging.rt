//! Processes of a record, or that of a store, under gdb, whose packets come over standard input.

ghost use Rattle.std.specs.Prelude.{◌≡◌, IfErr, IfOk, IfSome};
ghost use Rattle.om_arguments.specs.declared.arguments.Request.TheVariants.{Debug};
ghost use Rattle.om_program.specs.Answers.{IsErrorOfShownFile};
ghost use Rattle.om_program.specs.Refusals.{IsRefusal, names_given, names_of};
ghost use Rattle.om_program.specs.steps.Ends.{IsRefusalOfAll, IsRefusalOfOne};

use om_arguments::SymbolFile;
use om_commands::CommandError;
use om_debug::Wish;
use om_debug_command::{DebugError, Symbols, debug, debug_all};
use om_files::{bytes_of, fault_of};
use om_inbox::{Inbox, Taker};
use om_outcomes::Reasons;
use om_stored_debug::debug_in;
use std::alloc::{AllocError, Global};
use std::io::{Read, Write};
use std::rt::Runtime;
use std::sync::{Arc, Wait};
use std::thread;
use std::thread::Threads;

// Answers packets about a process of a record, or about all. A thread reads them from standard input, so that a wish to stop is seen while
// processes move. Nobody waits for it: it ends with the input, or with the program.
pub(crate) fn debug_over<R: Threads + Wait + Copy + Send + 'static, I: Read, W: Write>(
    rt: &HostRuntime,
    threads: &R,
    process: Option<&str>,
    given: &[SymbolFile<'_>],
    input: &mut I,
    writer: &mut W,
    reasons: &mut Reasons,
) -> Result<(), DebugError>
    ensures { IfSome (I.remaining input.old) (λ bytes. IfErr result (IsRefusal (Debug process.entry) given.now bytes)) }
{
    let Ok(inbox) = Arc::new(rt.alloc(), Inbox::new(rt.alloc())) else {
        return Err(DebugError::Refused(CommandError::NoMemory));
    };
    if !begin_reading(rt, threads, &inbox)? {
        return Err(DebugError::Refused(CommandError::NoThread));
    }
    let mut packets = Taker::new(threads, &inbox);
    let outcome = match process {
        Some(name) => debug_one(rt.alloc(), name, input, &mut packets, writer),
        None => debug_given(rt.alloc(), given, input, &mut packets, writer),
    };
    inbox.close(threads);
    if let Some(refusal) = packets.refusal() {
        reasons.add("standard input", refusal);
    }
    outcome
}

// Answers packets about the process whose store a file holds, which is read whole before. Packets come as to `debug_over`. Of a store
// that failed the reason is added, where it is heard.
pub(crate) fn debug_file<R: Threads + Wait + Copy + Send + 'static, W: Write>(
    rt: &HostRuntime,
    threads: &R,
    file: &str,
    interval: Option<u32>,
    writer: &mut W,
    reasons: &mut Reasons,
) -> Result<(), CommandError>
    ensures { IfErr result (IsErrorOfShownFile interval) }
{
    let outcome = debug_bytes(rt, threads, file, interval, writer, reasons);
    if outcome == Err(CommandError::StoreFault) && reasons.are_heard {
        reasons.add(file, fault_of(rt, file));
    }
    outcome
}

// Answers packets about the process whose store is in the bytes that the file and its log hold.
fn debug_bytes<R: Threads + Wait + Copy + Send + 'static, W: Write>(
    rt: &HostRuntime,
    threads: &R,
    file: &str,
    interval: Option<u32>,
    writer: &mut W,
    reasons: &mut Reasons,
) -> Result<(), CommandError>
    ensures { IfErr result (IsErrorOfShownFile interval) }
{
    let bytes = bytes_of(rt, file)?;
    let Ok(inbox) = Arc::new(rt.alloc(), Inbox::new(rt.alloc())) else {
        return Err(CommandError::NoMemory);
    };
    if !begin_reading(rt, threads, &inbox)? {
        return Err(CommandError::NoThread);
    }
    let mut packets = Taker::new(threads, &inbox);
    let outcome = debug_in(rt.alloc(), &bytes, interval, &mut packets, writer);
    inbox.close(threads);
    if let Some(refusal) = packets.refusal() {
        reasons.add("standard input", refusal);
    }
    outcome
}

// Answers packets about the process of a name.
fn debug_one<I: Read, P: Wish, W: Write>(
    alloc: Global,
    name: &str,
    input: &mut I,
    packets: &mut P,
    writer: &mut W,
) -> Result<(), DebugError>
    ensures { IfSome (I.remaining input.old) (λ bytes. IfErr result (IsRefusalOfOne name.now bytes)) }
{
    match debug(alloc, name, input, packets, writer) {
        Ok(()) => Ok(()),
        Err(error) => Err(DebugError::Refused(error)),
    }
}

// Answers packets about all processes, with the files that are given for their programs.
fn debug_given<I: Read, P: Wish, W: Write>(
    alloc: Global,
    given: &[SymbolFile<'_>],
    input: &mut I,
    packets: &mut P,
    writer: &mut W,
) -> Result<(), DebugError>
    ensures { IfSome (I.remaining input.old) (λ bytes. IfErr result (IsRefusalOfAll given.now bytes)) }
{
    let symbols = symbols_of(alloc, given)?;
    debug_all(alloc, &symbols, input, packets, writer)
}

// Returns the files that are given, each for its program.
fn symbols_of(alloc: Global, given: &[SymbolFile<'_>]) -> Result<Vec<Symbols>, AllocError>
    ensures { IfOk result (λ symbols. names_of symbols.items ≡ names_given given.now) }
{
    let mut symbols = Vec::new(alloc);
    for one in given {
        symbols.push(Symbols {
            program: String::from_str(alloc, one.program)?,
            file: String::from_str(alloc, one.file)?,
        })?;
    }
    Ok(symbols)
}

// Starts the thread that reads standard input, and answers whether there is one.
fn begin_reading<R: Threads + Wait + Copy + Send + 'static>(
    rt: &HostRuntime,
    threads: &R,
    inbox: &Arc<Inbox, Global>,
) -> Result<bool, AllocError> {
    let theirs = Arc::try_clone(inbox)?;
    let mut reader = rt.reader();
    let own = *threads;
    let thread = thread::spawn(threads, move || theirs.fill(&own, &mut reader));
    Ok(thread.is_ok())
}
