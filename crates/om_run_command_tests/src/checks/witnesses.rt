//! The scripts of runs without failures that clusters come to, played by `sim`.

use super::plays::GATHER;
use super::rings::ring;
use crate::beside::Beside;
use crate::rows::outcome_of;
use om_commands::sim::sim;
use om_commands::{BytesForm, CommandError};
use om_run_commands::{RunMode, run_file};
use om_runner::InMemory;
use std::alloc::Global;
use std::process::Abort;
use std::sync::Wait;
use std::thread::Threads;
use std::time::Clock;

// The turns of a worker.
const TURNS: u64 = 50_000_000;

// The lines of outputs of a text.
fn outputs_of(rt: &impl Abort, alloc: Global, text: &[u8]) -> String {
    let text = String::from_utf8(text.to_vec(alloc).expect(rt, "memory")).expect(rt, "a text");
    let mut outputs = String::new(alloc);
    for line in text.lines() {
        if line.starts_with("out ") {
            outputs.push_str(line).expect(rt, "memory");
            outputs.push('\n').expect(rt, "memory");
        }
    }
    outputs
}

// Runs a cluster and plays its witness, which comes to the same outputs; and how many lines they have.
fn check_witness<R: Threads + Wait + Clock + Abort + Sync>(rt: &R, alloc: Global, input: &str) {
    let mut beside = Beside::new(alloc);
    let mut played = Vec::new(alloc);
    let (ran, written) = run_file(
        rt,
        alloc,
        RunMode::Witness,
        BytesForm::Hex,
        TURNS,
        &InMemory,
        &mut beside,
        &mut input.as_bytes(),
        Vec::new(alloc),
    );
    assert!(rt; ran.is_ok(), "{input}");
    let simulated = sim(
        alloc,
        BytesForm::Hex,
        &mut beside.file.as_slice(),
        &mut played,
    );
    assert!(rt; simulated == Ok(()), "{input}");
    let outputs = outputs_of(rt, alloc, &written);
    assert!(rt;
        !outputs.is_empty() && outputs.as_str() == outputs_of(rt, alloc, &played).as_str(),
        "{input}"
    );
}

#[test]
fn witnesses_that_are_played(rt: HostRuntime) {
    let more = format!(in rt.alloc(); "{GATHER}kill p0 1\nkill p0 2\nflush 1\n").expect(
        &rt, "memory",
    );
    check_witness(&rt, rt.alloc(), GATHER);
    check_witness(&rt, rt.alloc(), &more);
    let ring = ring(&rt, rt.alloc(), 16, "kill p3 3\nkill p15 5\nfuel 100\n");
    check_witness(&rt, rt.alloc(), &ring);
}

// Nothing is written of a run whose witness cannot be.
#[test]
fn witnesses_that_are_not_written(rt: HostRuntime) {
    for writes in 0..2 {
        let mut beside = Beside::new(rt.alloc());
        beside.writes = writes;
        let (told, written) = run_file(
            &rt,
            rt.alloc(),
            RunMode::Witness,
            BytesForm::Hex,
            TURNS,
            &InMemory,
            &mut beside,
            &mut GATHER.as_bytes(),
            Vec::new(rt.alloc()),
        );
        assert!(&rt;
            outcome_of(told) == Err(CommandError::CannotWrite) && written.is_empty(),
            "{writes}"
        );
    }
}
