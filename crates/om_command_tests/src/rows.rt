//! Rows of the commands that read a text: what a command is given, and what it must write or be refused with.

use crate::ending::check_end;
use om_commands::decode::decode;
use om_commands::frontier::frontier;
use om_commands::sim::sim;
use om_commands::{BytesForm, CommandError};
use om_isa::Ext;
use std::alloc::Global;
use std::process::Abort;

/// A command that reads a text.
#[derive(Clone, Copy)]
pub enum Command {
    Frontier,
    Decode(Ext),
    Sim,
    /// With the bytes of outputs as text.
    SimText,
}

/// How the text of a row is meant.
#[derive(Clone, Copy)]
pub enum How {
    /// It is all that is written.
    Writes,
    /// What is written begins with it.
    Begins,
    /// The command is refused, nothing is written, and this is the line of the error.
    Refused,
}

/// An input, or the end of one, and what must come of it. Tables of rows are static: one in a function's body would be built
/// there, and each of its rows proved.
pub type Row = (&'static str, How, &'static str);

/// Compares what the command makes of each row's input, behind the head that all have.
pub fn check(rt: &impl Abort, alloc: Global, command: Command, head: &str, rows: &[Row]) {
    for (end, how, wanted) in rows {
        let input = format!(in alloc; "{head}{end}").expect(rt, "memory");
        check_input(rt, alloc, command, &input, *how, wanted);
    }
}

// Compares what the command makes of an input.
fn check_input(
    rt: &impl Abort,
    alloc: Global,
    command: Command,
    input: &str,
    how: How,
    wanted: &str,
) {
    let mut written = Vec::new(alloc);
    let answer = carry_out(alloc, command, input.as_bytes(), &mut written);
    check_answer(rt, alloc, input, (answer, &written), (how, wanted));
}

fn carry_out(
    alloc: Global,
    command: Command,
    mut input: &[u8],
    written: &mut Vec<u8>,
) -> Result<(), CommandError> {
    match command {
        Command::Frontier => frontier(alloc, &mut input, written),
        Command::Decode(ext) => decode(alloc, ext, &mut input, written),
        Command::Sim => sim(alloc, BytesForm::Hex, &mut input, written),
        Command::SimText => sim(alloc, BytesForm::Text, &mut input, written),
    }
}

// Compares what a command answered to this input, how it ends then, and what it wrote.
fn check_answer(
    rt: &impl Abort,
    alloc: Global,
    input: &str,
    (answer, written): (Result<(), CommandError>, &[u8]),
    (how, wanted): (How, &str),
) {
    let told = shown(written, how, wanted.len());
    let (line, text) = match how {
        How::Refused => (Some(wanted), ""),
        _ => (None, wanted),
    };
    check_end(rt, alloc, answer, line);
    assert_eq!(rt; told, text.as_bytes(), "{input}");
}

// Returns what is compared of what was written: so many bytes where it has to begin with them, else all.
fn shown(written: &[u8], how: How, count: usize) -> &[u8] {
    match how {
        How::Begins if count <= written.len() => &written[..count],
        _ => written,
    }
}
