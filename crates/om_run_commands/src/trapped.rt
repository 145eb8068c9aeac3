//! Which processes of a run trapped, and of what, for whoever is told more of it.

ghost use Rattle.std.specs.Prelude.{◌≡◌, ◌++◌, IfOk, OnOk, string_bytes};
ghost use Rattle.std.specs.List.{list_any};
ghost use Rattle.om_look.specs.Trace.{word_text};
ghost use Rattle.om_run_commands.specs.Trapped.{cause_line, cause_words, is_trap, status_line, trap_line, traps_text};

use crate::cluster_script::ClusterScript;
use om_commands::name_of;
use om_machine::Cause;
use om_process::Status;
use om_runner::{Doing, Sight};
use om_scripts::Programs;
use std::alloc::{AllocError, Global};
use std::fmt::Write;

/// Returns whether one of these processes trapped.
pub fn has_trapped(statuses: &[Status]) -> bool
    ensures { result ≡ list_any is_trap statuses.now }
{
    for status in statuses {
        if is_trap(*status) {
            return true;
        }
    }
    false
}

fn is_trap(status: Status) -> bool
    ensures { result ≡ is_trap status }
{
    matches!(status, Status::Trapped(_))
}

/// Says which processes of a cluster file trapped, by what was seen of each in the end: a line for each, with its name, the number of
/// the cause, what it is, and pc. Refused where memory ran out.
pub fn trapped_text(
    alloc: Global,
    script: &ClusterScript,
    sights: &[Sight],
) -> Result<String, AllocError>
    ensures { IfOk result (λ text. string_bytes text ≡ traps_text script.now.cluster sights.now) }
{
    let mut text = String::new(alloc);
    push_traps(alloc, &mut text, script.programs(), sights)?;
    Ok(text)
}

// Writes a line for each process that trapped.
fn push_traps(
    alloc: Global,
    text: &mut String,
    programs: &Programs,
    sights: &[Sight],
) -> Result<(), AllocError>
    ensures { OnOk result (string_bytes text.new ≡ string_bytes text.old ++ traps_text programs.now sights.now) }
{
    for p in 0..sights.len() {
        push_trap(
            alloc,
            text,
            name_of(programs, p),
            sights[p].doing,
            sights[p].pc,
        )?;
    }
    Ok(())
}

// Writes the line of a process, where it trapped.
fn push_trap(
    alloc: Global,
    text: &mut String,
    name: &str,
    doing: Doing,
    pc: u32,
) -> Result<(), AllocError>
    ensures { OnOk result (string_bytes text.new ≡ string_bytes text.old ++ trap_line name.now doing pc) }
{
    match doing {
        Doing::Up(status) => push_status(alloc, text, name, status, pc),
        _ => Ok(()),
    }
}

// Writes the line of a process with this status, where it trapped.
fn push_status(
    alloc: Global,
    text: &mut String,
    name: &str,
    status: Status,
    pc: u32,
) -> Result<(), AllocError>
    ensures { OnOk result (string_bytes text.new ≡ string_bytes text.old ++ status_line name.now status pc) }
{
    match status {
        Status::Trapped(cause) => push_cause(alloc, text, name, cause, pc),
        _ => Ok(()),
    }
}

// Writes the line of a process that trapped.
fn push_cause(
    alloc: Global,
    text: &mut String,
    name: &str,
    cause: Cause,
    pc: u32,
) -> Result<(), AllocError>
    ensures { OnOk result (string_bytes text.new ≡ string_bytes text.old ++ cause_line name.now cause pc) }
{
    let number = cause.number();
    let words = cause_words(cause);
    write!(text, "{name}: trapped {number}, {words}, at ")?;
    push_word(alloc, text, pc)?;
    text.push('\n')
}

// Writes a number in eight hexadecimal digits.
fn push_word(alloc: Global, text: &mut String, word: u32) -> Result<(), AllocError>
    ensures { OnOk result (string_bytes text.new ≡ string_bytes text.old ++ word_text word) }
{
    text.push_str(&hex::encode(alloc, word.to_be_bytes())?)
}

// Returns what a cause is.
fn cause_words(cause: Cause) -> &'static str
    ensures { result.now ≡ cause_words cause }
{
    match cause {
        Cause::Illegal => "no instruction has the word at pc",
        Cause::Break => "ebreak",
        Cause::FetchOutside => "pc lies outside memory",
        Cause::TargetMisaligned => "a jump or a branch to no multiple of 4",
        Cause::DataMisaligned => "2 or 4 bytes at no multiple of their number",
        Cause::DataOutside => "a load or a store outside memory",
        Cause::UnknownCall => "no call has the number in x17",
        Cause::BufferOutside => "the buffer of a call lies outside memory",
        Cause::CountFull => "2^64 - 1 instructions",
    }
}
