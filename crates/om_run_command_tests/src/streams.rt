//! Streams that fail in the midst of the commands that run a cluster.

use crate::rows::{Command, carry_out};
use om_commands::{BytesForm, CommandError};
use om_run_commands::RunMode;
use std::alloc::Global;
use std::io;
use std::io::{Read, Write};
use std::process::Abort;
use std::sync::Wait;
use std::thread::Threads;
use std::time::Clock;

/// A stream that refuses after a number of calls.
#[derive(Drop)]
pub struct Failing {
    pub calls: u32,
}

impl Read for Failing {
    fn read(&mut self, buf: &mut [u8]) -> io::Result<usize> {
        if self.calls == 0 || buf.is_empty() {
            return Err(io::Error::from(io::ErrorKind::Other));
        }
        self.calls -= 1;
        buf[0] = b'#';
        Ok(1)
    }
}

impl Write for Failing {
    fn write(&mut self, buf: &[u8]) -> io::Result<usize> {
        if self.calls == 0 || buf.is_empty() {
            return Err(io::Error::from(io::ErrorKind::Other));
        }
        self.calls -= 1;
        Ok(1)
    }

    fn flush(&mut self) -> io::Result<()> {
        Ok(())
    }
}

const ONE: &[u8] = b"program a 16 00000893 00000073\nproc p a\n";

static MODES: [RunMode<'static>; 5] = [
    RunMode::Plain,
    RunMode::Check,
    RunMode::Witness,
    RunMode::Record,
    RunMode::Follow,
];

// Compares what a command answers where its input cannot be read to the end: nothing is written.
fn check_unread<R: Threads + Wait + Clock + Abort + Sync>(rt: &R, alloc: Global, command: Command) {
    let mut failing = Failing { calls: 3 };
    let (unread, written) = carry_out(rt, alloc, command, &mut failing, Vec::new(alloc));
    assert!(rt; unread == Err(CommandError::CannotRead) && written.is_empty());
}

// And where its text cannot be written to the end.
fn check_unwritten<R: Threads + Wait + Clock + Abort + Sync>(
    rt: &R,
    alloc: Global,
    command: Command,
) {
    let mut reader = ONE;
    let (unwritten, _) = carry_out(rt, alloc, command, &mut reader, Failing { calls: 3 });
    assert!(rt; unwritten == Err(CommandError::CannotWrite));
}

#[test]
fn streams_that_fail(rt: HostRuntime) {
    for mode in &MODES {
        let command = Command {
            mode: *mode,
            form: BytesForm::Hex,
            turns: 1_000,
        };
        check_unread(&rt, rt.alloc(), command);
        check_unwritten(&rt, rt.alloc(), command);
    }
}
