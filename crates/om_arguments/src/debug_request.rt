//! The subcommand `debug`: which processes of which record it shows, and how it is asked for.

ghost use Rattle.std.specs.Prelude.{◌≡◌, ◌↔◌, ◌==◌, IfOk, IfSome, IsErr, codes};
ghost use Rattle.std.specs.List.{after_first, before_first};
ghost use Rattle.om_arguments.specs.steps.Requests.{asked_by};
ghost use Rattle.om_arguments.specs.declared.arguments.Subcommand.{Subcommand};

use crate::arguments::{Request, STANDARD_STREAM};
use crate::building::{ArgumentText, CommandText, OPTION, WORD};
use crate::commands::{INPUT, VERBOSE_FLAG};
use crate::mistake::{Mistake, needed, number_for};
use clap::{ArgAction, ArgMatches};
use std::alloc::{AllocError, Global};

pub(crate) const DEBUG: &str = "debug";

const PROCESS: &str = "process";

const ELF: &str = "elf";

const STORE: &str = "store";

const STORE_WORDS: &str = "--store <FILE> [INTERVAL]";

// With a store no record is named.
const USAGE: &str = "\
omlog debug [OPTIONS] <RECORD>
       omlog debug [OPTIONS] --store <FILE> [INTERVAL]";

/// What `--help` tells of `debug`.
pub const DEBUG_HELP: &str = "\
Shows processes of a record to gdb, at any moment of the run, forward and back.
gdb starts the command, and its packets come over standard input and output:

  target remote | omlog debug --process w1 record.txt
  target remote | omlog debug --elf queue=queue.elf record.txt
  target remote | omlog debug --store q1.db 16

RECORD is a script of sim, as run writes one with --record or --witness. It is
played as sim plays it, and is only read; standard input has the packets, so -
is no name of it. Time is the order of the record. At first it stands before
the first event. With --process the process NAME alone is shown; the others go
on in the record, unseen. Without it each process is an inferior of gdb, and
time goes on for all of them. Say in gdb, before target remote:
  set schedule-multiple on
  set osabi none
  set architecture riscv:rv32
With --elf PROGRAM=FILE, once for each program, gdb is told that FILE has the
symbols of each process that runs PROGRAM. FILE itself is read by gdb alone.

With --store FILE [INTERVAL] one process is shown without a record, from the
checkpoints and receipts that its store FILE holds, as run --store leaves one.
At first it stands right behind its receipt INTERVAL, where replay shows it, or
behind the last one. Backwards it comes to the checkpoint that replay begins
with, and forward as far as receipts are stored without a gap; behind the last
one it goes on until it waits, ends or traps, by at most 20000000 instructions.
Each receipt is two events: run P K, the instructions before it, and give P X,
the message that began interval X. FILE is only read.

In gdb:
  step, next, finish, continue, break, watch, rwatch, awatch, and backwards
  reverse-step, reverse-next, reverse-finish, reverse-continue
  thread N.1            goes over to the process of the number N, from 1 on
  monitor where         the next event, and how the processes stand
  monitor events        the events around here
  monitor goto EVENT    goes to before an event, which are numbered from 0;
                        then say: maintenance flush register-cache
  monitor help          these commands
Signals:
  SIGPWR            the process failed; until it is back it is shown as it was
  SIGSEGV SIGBUS SIGILL SIGTRAP    it trapped at this instruction
Registers and memory cannot be changed.

Refused, on standard error, status 1, before the first packet:
  no such process   no process of the record has this name
  no such name      no process of the record runs a program of this name
  empty script      there is no process
And with --store:
  no checkpoint       none is stored at INTERVAL or below
  damaged Y           the record of interval Y cannot be read
  missing receipt Y   the receipt of interval Y is not stored, the least such
  mismatch Y          the receipt of interval Y does not fit the process
  store fault         FILE is not there, or is no store
A faulty record is refused whole, as by sim. The status is 0 when gdb is done.

Example: from the end of a run back to what wrote the variable found.
  omlog run --record record.txt < cluster.txt
  gdb-multiarch program.elf \\
      -ex 'target remote | omlog debug --process w1 record.txt'
  (gdb) continue
  (gdb) watch -location found
  (gdb) reverse-continue";

pub(crate) const DEBUG_COMMAND: CommandText = CommandText {
    name: DEBUG,
    about: "A process of a record under gdb, forward and back",
    help: DEBUG_HELP,
    usage: Some(USAGE),
    arguments: &[
        PROCESS_OPTION,
        ELF_OPTION,
        STORE_OPTION,
        RECORD_FILE,
        VERBOSE_FLAG,
    ],
};

const PROCESS_OPTION: ArgumentText = ArgumentText {
    name: PROCESS,
    help: "The one process that is shown (default: all)",
    values: &["NAME"],
    ..OPTION
};

const ELF_OPTION: ArgumentText = ArgumentText {
    name: ELF,
    help: "The file with the symbols of a program, for gdb to read; once for each",
    action: ArgAction::Append,
    values: &["PROGRAM=FILE"],
    excludes: &[PROCESS],
    ..OPTION
};

const STORE_OPTION: ArgumentText = ArgumentText {
    name: STORE,
    help: "A store whose process is shown, and the interval (default: the last)",
    values: &["FILE", "INTERVAL"],
    excludes: &[PROCESS, ELF, INPUT],
    ..OPTION
};

const RECORD_FILE: ArgumentText = ArgumentText {
    name: INPUT,
    help: "The record, a script of sim",
    values: &["RECORD"],
    is_required: true,
    ..WORD
};

/// The file that has the symbols of a program.
#[derive(Clone, Copy, Debug, PartialEq, Eq)]
pub struct SymbolFile<'a> {
    pub program: &'a str,
    pub file: &'a str,
}

// Makes the request to show a process of a record, or all, or the process of a store.
pub(crate) fn debug_request<'a>(found: &ArgMatches<'a>) -> Result<Request<'a>, Mistake<'a>>
    ensures { IfOk result (λ request. asked_by request ≡ Subcommand.Debug) }
{
    if let Some(words) = found.get_strs(STORE) {
        return store_request(words);
    }
    record_request(found)
}

// Makes the request to show the process of a store, at an interval that is a number, where one is given.
fn store_request<'a>(words: &[&'a str]) -> Result<Request<'a>, Mistake<'a>>
    ensures { IfOk result (λ request. asked_by request ≡ Subcommand.Debug) }
{
    let Some(file) = words.first() else {
        return Err(Mistake::Absent(STORE_WORDS));
    };
    let interval = match words.get(1) {
        Some(word) => Some(number_for(STORE_WORDS, word)?),
        None => None,
    };
    Ok(Request::DebugStore { file, interval })
}

// Makes the request to show a process of a record, or all.
fn record_request<'a>(found: &ArgMatches<'a>) -> Result<Request<'a>, Mistake<'a>>
    ensures { IfOk result (λ request. asked_by request ≡ Subcommand.Debug) }
{
    refuse_stream(needed(found, INPUT)?)?;
    check_symbols(found.get_strs(ELF).unwrap_or(&[]))?;
    Ok(Request::Debug {
        process: found.get_str(PROCESS),
    })
}

// Refuses standard input as a record: packets come over it.
fn refuse_stream<'a>(path: &str) -> Result<(), Mistake<'a>>
    ensures { IsErr result ↔ (path.now ≡ codes "-") }
{
    if path == STANDARD_STREAM {
        return Err(Mistake::NoRecord("<RECORD>"));
    }
    Ok(())
}

// Returns the program and the file of a word PROGRAM=FILE, of which neither is empty.
fn symbols_in<'a>(word: &'a str) -> Option<SymbolFile<'a>>
    ensures program { IfSome result (λ s. s.program.now ≡ before_first (λ byte. byte == 61) word.now) }
    ensures file { IfSome result (λ s. s.file.now ≡ after_first (λ byte. byte == 61) word.now) }
{
    let (program, file) = word.split_once('=')?;
    if program.is_empty() || file.is_empty() {
        return None;
    }
    Some(SymbolFile { program, file })
}

// Refuses a word that is no PROGRAM=FILE, and one whose program has a file already.
fn check_symbols<'a>(words: &[&'a str]) -> Result<(), Mistake<'a>> {
    for (place, word) in words.iter().enumerate() {
        match symbols_in(word) {
            None => return Err(Mistake::NoSymbols(word)),
            Some(symbols) if is_named(&words[..place], symbols.program) => {
                return Err(Mistake::NamedTwice(word));
            }
            Some(_) => {}
        }
    }
    Ok(())
}

// Returns whether one of these words gives a file to the program.
fn is_named(words: &[&str], program: &str) -> bool {
    words.iter().any(|word| symbols_in(word).is_some_and(|symbols| symbols.program == program))
}

// Returns the files with the symbols of programs that are given.
pub(crate) fn symbols_of<'a>(
    alloc: Global,
    found: &ArgMatches<'a>,
) -> Result<Vec<SymbolFile<'a>>, AllocError> {
    let mut all = Vec::new(alloc);
    for word in found.get_strs(ELF).unwrap_or(&[]) {
        if let Some(symbols) = symbols_in(word) {
            all.push(symbols)?;
        }
    }
    Ok(all)
}
