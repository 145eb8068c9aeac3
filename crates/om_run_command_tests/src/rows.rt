//! Rows of the commands that run a cluster: what a command is given, and what it must write or be refused with.

use crate::beside::Beside;
use om_commands::{BytesForm, CommandError};
use om_process::Status;
use om_run_commands::{RunMode, run_file};
use om_runner::InMemory;
use std::alloc::Global;
use std::io::{Read, Write};
use std::process::Abort;
use std::sync::Wait;
use std::thread::Threads;
use std::time::Clock;

/// A run over stores in memory, in which a worker takes so many turns, with the bytes of outputs in a form.
#[derive(Clone, Copy)]
pub struct Command {
    pub mode: RunMode<'static>,
    pub form: BytesForm,
    pub turns: u64,
}

/// How the text of a row is meant.
#[derive(Clone, Copy)]
pub enum How {
    /// It is all that is written.
    Writes,
    /// The command is refused, nothing is written, and this is the line of the error.
    Refused,
}

/// The end of an input, and what must come of it. Tables of rows are static: one in a function's body would be built there, and
/// each of its rows proved.
pub type Row = (&'static str, How, &'static str);

/// Compares what the command makes of each row's input, behind the head that all have.
pub fn check<R: Threads + Wait + Clock + Abort + Sync>(
    rt: &R,
    alloc: Global,
    command: Command,
    head: &str,
    rows: &[Row],
) {
    for (end, how, wanted) in rows {
        let input = format!(in alloc; "{head}{end}").expect(rt, "memory");
        check_input(rt, alloc, command, &input, *how, wanted);
    }
}

/// Compares what the command makes of an input.
pub fn check_input<R: Threads + Wait + Clock + Abort + Sync>(
    rt: &R,
    alloc: Global,
    command: Command,
    input: &str,
    how: How,
    wanted: &str,
) {
    let mut reader = input.as_bytes();
    let (answer, written) = carry_out(rt, alloc, command, &mut reader, Vec::new(alloc));
    check_answer(rt, alloc, input, (answer, &written), (how, wanted));
}

/// Returns what the command answers over these streams, and what it leaves of the writer.
pub fn carry_out<R: Threads + Wait + Clock + Sync, I: Read, W: Write + Drop>(
    rt: &R,
    alloc: Global,
    command: Command,
    reader: &mut I,
    writer: W,
) -> (Result<(), CommandError>, W) {
    let mut beside = Beside::new(alloc);
    let Command { mode, form, turns } = command;
    let (answer, writer) = run_file(
        rt,
        alloc,
        mode,
        form,
        turns,
        &InMemory,
        &mut beside,
        reader,
        writer,
    );
    (outcome_of(answer), writer)
}

/// Returns whether a run ended well, or why it was refused.
pub fn outcome_of(answer: Result<Vec<Status>, CommandError>) -> Result<(), CommandError> {
    match answer {
        Ok(_) => Ok(()),
        Err(error) => Err(error),
    }
}

/// Compares what a command answered to this input, and what it wrote.
pub fn check_answer(
    rt: &impl Abort,
    alloc: Global,
    input: &str,
    (answer, written): (Result<(), CommandError>, &[u8]),
    (how, wanted): (How, &str),
) {
    let (refusal, text) = match how {
        How::Writes => ("", wanted),
        How::Refused => (wanted, ""),
    };
    check_line(rt, alloc, input, answer, refusal);
    assert!(rt; written == text.as_bytes(), "{input}");
}

// Compares the line of an error, which is empty where there is none.
fn check_line(
    rt: &impl Abort,
    alloc: Global,
    input: &str,
    answer: Result<(), CommandError>,
    refusal: &str,
) {
    let line = match answer {
        Ok(()) => String::new(alloc),
        Err(error) => format!(in alloc; "{error}").expect(rt, "memory"),
    };
    assert!(rt; line.as_str() == refusal, "{input}: {line}");
}
