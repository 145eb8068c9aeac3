//! Outputs that are written as they are released.

use super::rings::{ring, ring_ends};
use crate::rows::{Command, carry_out};
use om_commands::{BytesForm, CommandError};
use om_run_commands::RunMode;
use std::alloc::Global;
use std::io;
use std::io::Write;
use std::process::Abort;
use std::sync::Wait;
use std::thread::Threads;
use std::time::Clock;

// The turns of a worker.
const TURNS: u64 = 50_000_000;

// Returns what a run that is followed answers and writes.
fn followed<R: Threads + Wait + Clock + Abort + Sync>(
    rt: &R,
    alloc: Global,
    turns: u64,
    mut input: &[u8],
) -> (Result<(), CommandError>, String) {
    let (mode, form) = (RunMode::Follow, BytesForm::Hex);
    let written = Vec::new(alloc);
    let command = Command { mode, form, turns };
    let (answer, written) = carry_out(rt, alloc, command, &mut input, written);
    let text = String::from_utf8(written).ok().expect(rt, "text");
    (answer, text)
}

// Adds the lines that begin so, in their order.
fn add_lines(rt: &impl Abort, text: &mut String, written: &str, start: &str) {
    for line in written.lines() {
        if line.starts_with(start) {
            writeln!(text, "{line}").expect(rt, "memory");
        }
    }
}

// The lines of outputs by process, and then those of ends.
fn by_process(rt: &impl Abort, alloc: Global, written: &str, n: u32) -> String {
    let mut text = String::new(alloc);
    for p in 0..n {
        let start = format!(in alloc; "out p{p} ").expect(rt, "memory");
        add_lines(rt, &mut text, written, &start);
    }
    add_lines(rt, &mut text, written, "end ");
    text
}

// By process, the lines are those of a run that is not followed.
#[test]
fn rings_are_followed(rt: HostRuntime) {
    for more in ["", "kill p3 3\nkill p5 5\nflush 2\ncheckpoint 3\n"] {
        let input = ring(&rt, rt.alloc(), 8, more);
        let (answer, written) = followed(&rt, rt.alloc(), TURNS, input.as_bytes());
        let lines = by_process(&rt, rt.alloc(), &written, 8);
        let ends = ring_ends(&rt, rt.alloc(), 8);
        assert!(&rt;
            answer == Ok(()) && lines == ends && written.len() == ends.len(),
            "{written}"
        );
    }
}

// c sends to a, and then never ends; a puts out what came, and ends.
const ENDLESS: &str = "program pc 64 00100893 00100513 00400613 00000073 0000006F\n\
program pa 128 00200893 04000513 00400593 00000073 00300893 00050593 04000513 00000073 00000893 00000073\n\
proc c pc\nproc a pa\nfuel 3000\n";

// What was released is written where the run is refused.
#[test]
fn what_was_released_is_written(rt: HostRuntime) {
    let told = followed(&rt, rt.alloc(), 100_000, ENDLESS.as_bytes());
    assert!(&rt;
        told.0 == Err(CommandError::OutOfTurns) && told.1.as_str() == "out a 0 93081000\n",
        "{}",
        told.1
    );
}

// Returns what a run that is followed writes of one process.
fn followed_raw<R: Threads + Wait + Clock + Abort + Sync>(
    rt: &R,
    alloc: Global,
    name: &'static str,
    turns: u64,
    mut input: &[u8],
) -> (Result<(), CommandError>, Vec<u8>) {
    let (mode, form) = (RunMode::FollowRaw(name), BytesForm::Hex);
    let command = Command { mode, form, turns };
    carry_out(rt, alloc, command, &mut input, Vec::new(alloc))
}

// The bytes that were released of a process are written where the run is refused: at its end nothing more would have been.
#[test]
fn bytes_that_were_released_are_written(rt: HostRuntime) {
    let file = ENDLESS.as_bytes();
    let of_a = followed_raw(&rt, rt.alloc(), "a", 100_000, file);
    assert!(&rt;
        of_a.0 == Err(CommandError::OutOfTurns)
            && of_a.1.as_slice() == b"\x93\x08\x10\x00".as_slice()
    );
    let of_c = followed_raw(&rt, rt.alloc(), "c", 1_000, file);
    assert!(&rt; of_c.0 == Err(CommandError::OutOfTurns) && of_c.1.is_empty());
}

// r puts out its first bytes, and only then takes a message of q, which it sends back. q puts out what comes back: after r's output
// is released.
const PAIR: &str =
    "program pq 128 00100893 00100513 00400613 00000073 00200893 04000513 00400593 00000073 00300893 00050593 04000513 00000073 00000893 00000513 00000073\n\
program pr 128 00300893 00400593 00000073 00200893 04000513 00400593 00000073 00100893 00000513 04000593 00400613 00000073 00000893 00000513 00000073\n\
proc q pq\nproc r pr\n";

// Lines of different processes come in the order of their releases, also where that is not the order of the processes.
#[test]
fn lines_come_in_the_order_of_releases(rt: HostRuntime) {
    for more in ["", "fuel 1\n", "kill q 1\n", "kill r 1\n"] {
        let input = format!(in rt.alloc(); "{PAIR}{more}").expect(&rt, "memory");
        let (answer, written) = followed(&rt, rt.alloc(), TURNS, input.as_bytes());
        assert!(&rt;
            answer == Ok(())
                && written.as_str()
                    == "out r 0 93083000\nout q 0 93081000\nend q ended 0\nend r ended 0\n",
            "{written}"
        );
    }
}

// Takes so many bytes, and then refuses.
#[derive(Drop)]
struct Narrow {
    taken: Vec<u8>,
    room: usize,
}

impl Write for Narrow {
    fn write(&mut self, buf: &[u8]) -> io::Result<usize> {
        let count = buf.len().min(self.room);
        if count == 0 || self.taken.extend_from_slice(&buf[..count]).is_err() {
            return Err(io::Error::from(io::ErrorKind::Other));
        }
        self.room -= count;
        Ok(count)
    }

    fn flush(&mut self) -> io::Result<()> {
        Ok(())
    }
}

// Returns what a run that is followed answers to a writer that takes so many bytes, and what it took.
fn narrowed<R: Threads + Wait + Clock + Abort + Sync>(
    rt: &R,
    alloc: Global,
    room: usize,
    mut input: &[u8],
) -> (Result<(), CommandError>, String) {
    let writer = Narrow {
        taken: Vec::new(alloc),
        room,
    };
    let (mode, form, turns) = (RunMode::Follow, BytesForm::Hex, TURNS);
    let command = Command { mode, form, turns };
    let (answer, writer) = carry_out(rt, alloc, command, &mut input, writer);
    let text = String::from_utf8(writer.taken).ok().expect(rt, "text");
    (answer, text)
}

// How long the line of an output of a ring of 8 is.
const LINE: usize = 18;

// Returns whether the whole lines are by process the first of those of a ring of 8.
fn are_first(rt: &impl Abort, alloc: Global, written: &str) -> bool {
    let whole = written
        .get(..written.len() / LINE * LINE)
        .expect(rt, "lines");
    let ends = ring_ends(rt, alloc, 8);
    for p in 0..8u32 {
        let start = format!(in alloc; "out p{p} ").expect(rt, "memory");
        let (mut own, mut all) = (String::new(alloc), String::new(alloc));
        add_lines(rt, &mut own, whole, &start);
        add_lines(rt, &mut all, &ends, &start);
        if !all.starts_with(own.as_str()) {
            return false;
        }
    }
    true
}

// A writer that refuses ends the run, wherever it does. What it took before is right.
#[test]
fn a_writer_refuses(rt: HostRuntime) {
    for room in [0, LINE, 100, 48 * LINE, 48 * LINE + 1] {
        let input = ring(&rt, rt.alloc(), 8, "");
        let (answer, written) = narrowed(&rt, rt.alloc(), room, input.as_bytes());
        let lines = written.get(..room.min(48 * LINE)).expect(&rt, "lines");
        assert!(&rt;
            answer == Err(CommandError::CannotWrite)
                && written.len() == room
                && are_first(&rt, rt.alloc(), lines),
            "{written}"
        );
    }
}

// c has turns for many minutes: the run ends in time only where an output is written as soon as it is released.
#[test]
fn an_output_is_written_while_others_run(rt: HostRuntime) {
    let (answer, written) = narrowed(&rt, rt.alloc(), 0, ENDLESS.as_bytes());
    assert!(&rt;
        answer == Err(CommandError::CannotWrite) && written.is_empty(),
        "{written}"
    );
}

// A faulty file writes nothing.
#[test]
fn a_faulty_file_is_refused(rt: HostRuntime) {
    let told = followed(&rt, rt.alloc(), TURNS, b"");
    assert!(&rt;
        told.0 == Err(CommandError::EmptyScript) && told.1.is_empty(),
        "{}",
        told.1
    );
}
