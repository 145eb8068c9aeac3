//! Texts of rings over stores in memory, checked and unchecked, with failures and without.

use super::rings::{ring, ring_ends};
use crate::beside::Beside;
use crate::rows::outcome_of;
use om_commands::{BytesForm, CommandError};
use om_run_commands::{RunMode, run_file};
use om_runner::InMemory;
use std::alloc::Global;
use std::process::Abort;
use std::sync::Wait;
use std::thread::Threads;
use std::time::Clock;

// Returns what a run over stores in memory answers and writes.
fn carry_out<R: Threads + Wait + Clock + Sync>(
    rt: &R,
    alloc: Global,
    (mode, turns): (RunMode<'static>, u64),
    mut input: &[u8],
) -> (Result<(), CommandError>, Vec<u8>) {
    let mut beside = Beside::new(alloc);
    let written = Vec::new(alloc);
    let (answer, written) = run_file(
        rt,
        alloc,
        mode,
        BytesForm::Hex,
        turns,
        &InMemory,
        &mut beside,
        &mut input,
        written,
    );
    (outcome_of(answer), written)
}

// The modes in which all is written at the end.
static MODES: [RunMode<'static>; 4] = [
    RunMode::Plain,
    RunMode::Check,
    RunMode::Witness,
    RunMode::Record,
];

// The turns of a worker.
const TURNS: u64 = 50_000_000;

// A run of the input writes the text in each of these modes.
fn check_run<R: Threads + Wait + Clock + Abort + Sync>(
    rt: &R,
    alloc: Global,
    input: &str,
    text: &str,
) {
    for mode in &MODES {
        let told = carry_out(rt, alloc, (*mode, TURNS), input.as_bytes());
        assert!(rt;
            told.0 == Ok(()) && told.1.as_slice() == text.as_bytes(),
            "{mode:?} {input}"
        );
    }
}

// Rings, and how they fail.
static RINGS: [(u32, &str); 4] = [
    (8, ""),
    (8, "kill p3 3\nkill p5 5\nflush 2\ncheckpoint 3\n"),
    (16, "kill p3 3\nkill p5 5\nflush 2\ncheckpoint 3\n"),
    (16, "kill p3 3\nkill p15 5\nfuel 100\n"),
];

#[test]
fn rings_with_failures(rt: HostRuntime) {
    for (n, more) in &RINGS {
        let input = ring(&rt, rt.alloc(), *n, more);
        let ends = ring_ends(&rt, rt.alloc(), *n);
        check_run(&rt, rt.alloc(), &input, &ends);
    }
}

// One turn is too few.
#[test]
fn rings_without_turns(rt: HostRuntime) {
    let input = ring(&rt, rt.alloc(), 8, "kill p3 3\nkill p5 5\n");
    for mode in &MODES {
        let told = carry_out(&rt, rt.alloc(), (*mode, 1), input.as_bytes());
        assert!(&rt;
            told.0 == Err(CommandError::OutOfTurns) && told.1.is_empty(),
            "{mode:?}"
        );
    }
}
