//! Cluster files, and what the command writes of a run of their clusters.

use crate::beside::Beside;
use crate::rows::How::{Refused, Writes};
use crate::rows::{Command, How, Row, carry_out, check, check_answer, check_input, outcome_of};
use om_commands::{BytesForm, CommandError};
use om_interval::Pid;
use om_run_commands::{RunMode, run_file};
use om_runner::{OpenFault, Opener};
use om_stable::MemStable;
use std::alloc::Global;
use std::process::Abort;
use std::sync::Wait;
use std::thread::Threads;
use std::time::Clock;

// The turns of a worker where nothing else is said.
const TURNS: u64 = 50_000_000;

// A process that ends at once with 0.
const ONE: &str = "program a 16 00000893 00000073\nproc p a\n";

// Lines behind it that say how it is run.
static LINES: [Row; 3] = [
    ("", Writes, "end p ended 0\n"),
    (
        "kill p 0\nkill p 4294967295\nflush 1\nflush 4294967295\ncheckpoint 1\ncheckpoint 4294967295\n",
        Writes,
        "end p ended 0\n",
    ),
    (
        "fuel 1\nfuel 18446744073709551615\n",
        Writes,
        "end p ended 0\n",
    ),
];

static FAULTY: [Row; 25] = [
    ("", Refused, "empty script"),
    ("program a 4\n", Refused, "empty script"),
    ("flush 1\nfuel 1\n", Refused, "empty script"),
    ("program a 6\n", Refused, "line 1: bad size"),
    ("proc x nosuch\n", Refused, "line 1: no such name"),
    ("run 0 1\n", Refused, "line 1: unknown line"),
    ("kill p\n", Refused, "line 1: wrong count of words"),
    ("kill p 1 2\n", Refused, "line 1: wrong count of words"),
    ("kill p-q 4294967296\n", Refused, "line 1: bad number"),
    ("kill p-q 1\n", Refused, "line 1: bad name"),
    ("kill p 1\n", Refused, "line 1: no such name"),
    ("flush\n", Refused, "line 1: wrong count of words"),
    ("flush 1 2\n", Refused, "line 1: wrong count of words"),
    ("flush 0\n", Refused, "line 1: bad number"),
    ("flush 4294967296\n", Refused, "line 1: bad number"),
    ("checkpoint\n", Refused, "line 1: wrong count of words"),
    ("checkpoint 0\n", Refused, "line 1: bad number"),
    ("checkpoint 4294967296\n", Refused, "line 1: bad number"),
    ("fuel\n", Refused, "line 1: wrong count of words"),
    ("fuel 0\n", Refused, "line 1: bad number"),
    ("fuel 18446744073709551616\n", Refused, "line 1: bad number"),
    ("fuel 1\nprogram a 4\n", Refused, "line 2: out of place"),
    ("flush 1\nprogram a 4\n", Refused, "line 2: out of place"),
    (
        "checkpoint 1\nprogram a 4\n",
        Refused,
        "line 2: out of place",
    ),
    (
        "program a 4\nproc p a\nkill p 1\nproc q a\n",
        Refused,
        "line 4: out of place",
    ),
];

// A process that goes round for ever, of which one turn is taken.
static ENDLESS: [Row; 1] = [("program a 16 0000006f\nproc p a\n", Refused, "out of turns")];

// How many failures of the one process are planned, and what comes of it.
static FAILURES: [(usize, How, &str); 2] = [
    (64, Writes, "end p ended 0\n"),
    (65, Refused, "line 67: too many"),
];

static MODES: [RunMode<'static>; 5] = [
    RunMode::Plain,
    RunMode::Check,
    RunMode::Witness,
    RunMode::Record,
    RunMode::Follow,
];

#[test]
fn cluster_files_and_their_texts(rt: HostRuntime) {
    for mode in &MODES {
        let command = Command {
            mode: *mode,
            form: BytesForm::Hex,
            turns: TURNS,
        };
        check(&rt, rt.alloc(), command, ONE, &LINES);
        check(&rt, rt.alloc(), command, "", &FAULTY);
        check(
            &rt,
            rt.alloc(),
            Command {
                turns: 1,
                ..command
            },
            "",
            &ENDLESS,
        );
    }
}

// p puts out the bytes 22 5c 0a 09 0d 20 7e 7f 00 38 ff 1f and then "hi".
const SPEAK: &str = "\
program speak 64 00300893 03000513 00c00593 00000073 00300893 03c00513 00200593 00000073 00000893 00000513 00000073 00000013 \
090a5c22 7f7e200d 1fff3800 00006968
program quiet 16 00000893 00000073
proc p speak
proc q quiet
";

static HEX: [Row; 1] = [(
    "",
    Writes,
    "out p 0 225c0a090d207e7f0038ff1f\nout p 1 6869\nend p ended 0\nend q ended 0\n",
)];

static TEXT: [Row; 1] = [(
    "",
    Writes,
    r#"out p 0 "\"\\\n\t\r ~\177\0008\377\037"
out p 1 "hi"
end p ended 0
end q ended 0
"#,
)];

// Each mode writes outputs in the form that it is given.
#[test]
fn outputs_in_their_forms(rt: HostRuntime) {
    for mode in &MODES {
        let command = Command {
            mode: *mode,
            form: BytesForm::Hex,
            turns: TURNS,
        };
        check(&rt, rt.alloc(), command, SPEAK, &HEX);
        check(
            &rt,
            rt.alloc(),
            Command {
                form: BytesForm::Text,
                ..command
            },
            SPEAK,
            &TEXT,
        );
    }
}

// By the process that is asked for: its bytes alone, one output behind the other; and a name of no process.
static RAW: [(&str, Result<(), CommandError>, &[u8]); 4] = [
    ("p", Ok(()), b"\"\\\n\t\r ~\x7f\x008\xff\x1fhi"),
    ("q", Ok(()), b""),
    ("speak", Err(CommandError::NoSuchProcess), b""),
    ("", Err(CommandError::NoSuchProcess), b""),
];

// What is written of a run in which one process alone is written of.
fn check_alone<R: Threads + Wait + Clock + Abort + Sync>(
    rt: &R,
    alloc: Global,
    mode: RunMode<'static>,
    outcome: Result<(), CommandError>,
    bytes: &[u8],
) {
    let command = Command {
        mode,
        form: BytesForm::Hex,
        turns: TURNS,
    };
    let mut reader = SPEAK.as_bytes();
    let told = carry_out(rt, alloc, command, &mut reader, Vec::new(alloc));
    assert!(rt; told.0 == outcome && told.1.as_slice() == bytes, "{mode:?}");
}

#[test]
fn outputs_of_one_process_alone(rt: HostRuntime) {
    for (name, outcome, bytes) in &RAW {
        for mode in [RunMode::Raw(*name), RunMode::FollowRaw(*name)] {
            check_alone(&rt, rt.alloc(), mode, *outcome, *bytes);
        }
    }
}

#[test]
fn failures_that_are_planned(rt: HostRuntime) {
    for (count, how, wanted) in &FAILURES {
        let kills = "kill p 9\n"
            .repeat(rt.alloc(), *count)
            .expect(&rt, "memory");
        let input = format!(in rt.alloc(); "{ONE}{kills}").expect(&rt, "memory");
        let command = Command {
            mode: RunMode::Plain,
            form: BytesForm::Hex,
            turns: TURNS,
        };
        check_input(&rt, rt.alloc(), command, &input, *how, wanted);
    }
}

// Makes stores in memory, and refuses to for the process at one place.
#[derive(Drop)]
struct Refusing {
    place: usize,
    fault: OpenFault,
}

impl<R> Opener<R> for Refusing {
    type Store = MemStable;

    fn make(&self, _rt: &R, alloc: Global, pid: Pid) -> Result<MemStable, OpenFault> {
        if pid.index() == self.place {
            return Err(self.fault);
        }
        Ok(MemStable::new(alloc))
    }
}

const TWO: &str = "program a 16 00000893 00000073\nproc p a\nproc q a\n";

static REFUSALS: [(usize, OpenFault, How, &str); 4] = [
    (1, OpenFault::Refused, Refused, "store fault"),
    (1, OpenFault::InUse, Refused, "store in use"),
    (1, OpenFault::Memory, Refused, "no memory"),
    (
        2,
        OpenFault::Refused,
        Writes,
        "end p ended 0\nend q ended 0\n",
    ),
];

#[test]
fn stores_that_are_not_made(rt: HostRuntime) {
    for (place, fault, how, wanted) in &REFUSALS {
        let opener = Refusing {
            place: *place,
            fault: *fault,
        };
        let (answer, written) = run_file(
            &rt,
            rt.alloc(),
            RunMode::Plain,
            BytesForm::Hex,
            TURNS,
            &opener,
            &mut Beside::new(rt.alloc()),
            &mut TWO.as_bytes(),
            Vec::new(rt.alloc()),
        );
        let answer = outcome_of(answer);
        check_answer(&rt, rt.alloc(), TWO, (answer, &written), (*how, wanted));
    }
}
