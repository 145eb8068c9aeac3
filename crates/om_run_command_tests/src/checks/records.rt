//! Records of runs, played event by event.

use super::modes::carry_out;
use super::rings::{ring, ring_ends};
use crate::beside::Beside;
use crate::rows::How::Writes;
use crate::rows::{check_answer, outcome_of};
use om_commands::BytesForm;
use om_commands::sim::sim;
use om_interval::Pid;
use om_run_commands::{RunMode, run_file};
use om_runner::{InMemory, OpenFault, Opener};
use om_stable::MemStable;
use std::alloc::Global;
use std::process::Abort;
use std::sync::Wait;
use std::thread::Threads;
use std::time::Clock;

// The turns of a worker.
const TURNS: u64 = 50_000_000;

// Rings, how they are run, and what the record says of their failures.
static RINGS: [(u32, &str, &[&str]); 2] = [
    (
        8,
        "kill p3 3\nkill p5 5\nflush 2\ncheckpoint 3\n",
        &[
            "# p3 fails as interval 3 begins\nfail 3\n",
            "# p3 goes back to 2, incarnation 1\nresume 3\n",
            "# p5 fails as interval 5 begins\nfail 5\n",
            "# p5 goes back to 4, incarnation 1\nresume 5\n",
        ],
    ),
    (
        16,
        "kill p15 6\nflush 4\ncheckpoint 5\nfuel 10\n",
        &[
            "# p15 fails as interval 6 begins\nfail 15\n",
            "# p15 goes back to 5, incarnation 1\nresume 15\n",
        ],
    ),
];

// Makes stores in memory, each of which a thread of its own writes, as it does slow ones.
#[derive(Drop)]
struct Apart;

impl<R> Opener<R> for Apart {
    type Store = MemStable;

    fn make(&self, _rt: &R, alloc: Global, _pid: Pid) -> Result<MemStable, OpenFault> {
        Ok(MemStable::new(alloc))
    }

    fn is_slow(&self) -> bool {
        true
    }
}

#[test]
fn records_are_played(rt: HostRuntime) {
    for (n, more, comments) in &RINGS {
        let input = ring(&rt, rt.alloc(), *n, more);
        let script = recorded(&rt, rt.alloc(), &InMemory, &input, *n);
        check_contains(&rt, &script, comments);
        assert!(&rt; !script.contains("\nspell "), "{script}");
        check_played(&rt, rt.alloc(), &script, *n);
    }
}

fn check_contains(rt: &impl Abort, script: &str, comments: &[&str]) {
    for comment in comments {
        assert!(rt; script.contains(comment), "{comment}");
    }
}

// What is played of a record comes to the end of the ring.
fn check_played(rt: &impl Abort, alloc: Global, script: &str, n: u32) {
    let told = played(rt, alloc, script);
    check_end(rt, alloc, &told, n);
}

// Where threads of their own write the stores, a checkpoint is spelled as it is handed over: that of each first receipt here.
#[test]
fn records_of_flights_are_played(rt: HostRuntime) {
    for (n, more, _) in &RINGS {
        let more = format!(in rt.alloc(); "{more}checkpoint 1\n").expect(&rt, "memory");
        let input = ring(&rt, rt.alloc(), *n, &more);
        let script = recorded(&rt, rt.alloc(), &Apart, &input, *n);
        check_spelled(&rt, &script);
        check_played(&rt, rt.alloc(), &script, *n);
    }
}

// Checkpoints are spelled, and not stored in one go.
fn check_spelled(rt: &impl Abort, script: &str) {
    let is_spelled = script.contains("\nspell ") && !script.contains("\ncheckpoint ");
    assert!(rt; is_spelled, "{script}");
}

// What is checked of a run, and the text of a run that is checked, is that of any run there too.
#[test]
fn flights_are_checked(rt: HostRuntime) {
    for mode in [RunMode::Plain, RunMode::Check, RunMode::Witness] {
        for (n, more, _) in &RINGS {
            check_flight(&rt, rt.alloc(), mode, (*n, *more));
        }
    }
}

// The text of a ring of n processes whose stores are written by threads of their own.
fn check_flight<R: Threads + Wait + Clock + Abort + Sync>(
    rt: &R,
    alloc: Global,
    mode: RunMode<'static>,
    (n, more): (u32, &str),
) {
    let input = ring(rt, alloc, n, more);
    let mut beside = Beside::new(alloc);
    let told = carry_out(rt, alloc, mode, &Apart, &mut beside, input.as_bytes());
    let ends = ring_ends(rt, alloc, n);
    let is_right = told.0 == Ok(()) && told.1.as_slice() == ends.as_bytes();
    assert!(rt; is_right, "{mode:?}");
}

// The record of a ring of n processes that is run with this cluster file, whose text is that of any run.
fn recorded<R: Threads + Wait + Clock + Abort + Sync, O: Opener<R> + Sync>(
    rt: &R,
    alloc: Global,
    opener: &O,
    input: &str,
    n: u32,
) -> String {
    let mut beside = Beside::new(alloc);
    let (answer, text) = run_file(
        rt,
        alloc,
        RunMode::Record,
        BytesForm::Hex,
        TURNS,
        opener,
        &mut beside,
        &mut input.as_bytes(),
        Vec::new(alloc),
    );
    let ends = ring_ends(rt, alloc, n);
    let answer = outcome_of(answer);
    check_answer(rt, alloc, input, (answer, &text), (Writes, &ends));
    let Beside { file, .. } = beside;
    text_of(rt, file)
}

// Returns what `sim` tells of a record.
fn played(rt: &impl Abort, alloc: Global, script: &str) -> String {
    let mut told = Vec::new(alloc);
    let answer = sim(alloc, BytesForm::Hex, &mut script.as_bytes(), &mut told);
    assert!(rt; answer.is_ok(), "{script}");
    text_of(rt, told)
}

fn text_of(rt: &impl Abort, bytes: Vec<u8>) -> String {
    String::from_utf8(bytes).ok().expect(rt, "text")
}

// In the end of a record of a ring all processes have ended in interval 6, that is recoverable, and all outputs are released.
fn check_end(rt: &impl Abort, alloc: Global, told: &str, n: u32) {
    let ends = ring_ends(rt, alloc, n);
    let sixes = " 6".repeat(alloc, n as usize).expect(rt, "memory");
    let recovery = format!(in alloc; "\nrecovery{sixes}\n").expect(rt, "memory");
    assert!(rt; told.contains(recovery.as_str()), "{told}");
    for line in ends.lines() {
        if let Some(end) = line.strip_prefix("end ") {
            check_process(rt, alloc, told, end);
        } else {
            check_line(rt, alloc, told, line);
        }
    }
}

// What was told has the line.
fn check_line(rt: &impl Abort, alloc: Global, told: &str, line: &str) {
    let whole = format!(in alloc; "\n{line}\n").expect(rt, "memory");
    assert!(rt; told.contains(whole.as_str()), "{line}");
}

// A line of what was told says that the process has ended so.
fn check_process(rt: &impl Abort, alloc: Global, told: &str, end: &str) {
    let Some((name, status)) = end.split_once(' ') else {
        return;
    };
    let head = format!(in alloc; "proc {name} inc ").expect(rt, "memory");
    let tail = format!(in alloc; " interval 6 {status}").expect(rt, "memory");
    let found = told.lines().any(|line| line.starts_with(head.as_str())
        && line.ends_with(tail.as_str()));
    assert!(rt; found, "{end}");
}
