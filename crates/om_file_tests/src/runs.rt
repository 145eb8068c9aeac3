//! Texts of the example clusters over both kinds of store, checked and unchecked, with failures and without.

ghost use Rattle.std.specs.Prelude.{◌≡◌, false, IfOk};

use om_commands::{BytesForm, CommandError};
use om_examples::{BANK, BANK_ENDS, PIPELINE, PIPELINE_ENDS, QUEUE, QUEUE_ENDS};
use om_files::{Connects, InTables};
use om_interval::Pid;
use om_process::Status;
use om_run_commands::{ClusterScript, RunContext, RunMode, run_file};
use om_runner::{InMemory, OpenFault, Opener};
use sqlite::{Connection, MemStore};
use std::alloc::Global;
use std::process::Abort;
use std::sync::Wait;
use std::thread::Threads;
use std::time::Clock;

// Databases in memory.
#[derive(Drop)]
struct Databases;

impl Connects for Databases {
    type Disk = MemStore;

    fn connect(&self, alloc: Global, _pid: Pid) -> Result<Connection<MemStore>, OpenFault> {
        match Connection::open_in_memory(alloc) {
            Ok(conn) if conn.is_autocommit() => Ok(conn),
            _ => Err(OpenFault::Memory),
        }
    }
}

// Has nothing to make ready for a run.
#[derive(Drop)]
struct Nothing;

impl RunContext for Nothing {
    fn begin(&mut self, _script: &ClusterScript) -> Result<(), CommandError> {
        Ok(())
    }

    fn write(&mut self, _text: &[u8]) -> Result<(), CommandError> {
        Ok(())
    }

    fn end(&mut self, _script: &ClusterScript, _outcome: Result<&[Status], CommandError>) {}
}

// Returns what a run over such stores answers and writes.
fn carry_out<R: Threads + Wait + Clock + Sync, O: Opener<R> + Sync>(
    rt: &R,
    alloc: Global,
    (mode, turns): (RunMode<'static>, u64),
    opener: &O,
    mut input: &[u8],
) -> (Result<(), CommandError>, Vec<u8>) {
    let written = Vec::new(alloc);
    let (answer, written) = run_file(
        rt,
        alloc,
        mode,
        BytesForm::Hex,
        turns,
        opener,
        &mut Nothing,
        &mut input,
        written,
    );
    match answer {
        Ok(_) => (Ok(()), written),
        Err(error) => (Err(error), written),
    }
}

// The turns of a worker.
const TURNS: u64 = 50_000_000;

// A run of the input over such stores writes the text, checked or not.
fn check_over<R: Threads + Wait + Clock + Abort + Sync, O: Opener<R> + Sync>(
    rt: &R,
    alloc: Global,
    opener: &O,
    input: &str,
    text: &str,
) {
    for mode in [RunMode::Plain, RunMode::Check] {
        let told = carry_out(rt, alloc, (mode, TURNS), opener, input.as_bytes());
        let is_right = told.0 == Ok(()) && told.1.as_slice() == text.as_bytes();
        assert!(rt; is_right, "{mode:?} {input}");
    }
}

// The same over stores in memory and in tables.
fn check_run<R: Threads + Wait + Clock + Abort + Sync>(
    rt: &R,
    alloc: Global,
    input: &str,
    text: &str,
) {
    let tables = InTables {
        connects: Databases,
    };
    check_over(rt, alloc, &InMemory, input, text);
    check_over(rt, alloc, &tables, input, text);
}

// The file without its lines that begin so.
fn without(rt: &impl Abort, alloc: Global, file: &str, word: &str) -> String {
    let mut text = String::new(alloc);
    for line in file.lines() {
        if !line.starts_with(word) {
            writeln!(text, "{line}").expect(rt, "memory");
        }
    }
    text
}

// A cluster file in which three failures are planned, and its text.
static EXAMPLES: [(&str, &str); 3] = [
    (QUEUE, QUEUE_ENDS),
    (BANK, BANK_ENDS),
    (PIPELINE, PIPELINE_ENDS),
];

// The failures are there, and change nothing of the text.
#[test]
fn programs_in_c(rt: HostRuntime) {
    for (file, ends) in &EXAMPLES {
        let quiet = without(&rt, rt.alloc(), file, "kill");
        let rest = quiet.lines().count();
        assert!(&rt; rest.checked_add(3) == Some(file.lines().count()));
        check_run(&rt, rt.alloc(), file, ends);
        check_run(&rt, rt.alloc(), &quiet, ends);
    }
}
