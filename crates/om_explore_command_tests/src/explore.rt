//! What is written of an exploration.

ghost use Rattle.std.specs.Prelude.{◌≡◌};

use crate::asking::{make_beside, options, played, told, written};
use crate::clusters::{COUNTS, GATHERS, LOCK, RING, SIX, TWO, TWO_AS_TEXT};
use om_commands::BytesForm;
use om_explore_command::Options;
use std::alloc::Global;
use std::process::Abort;

// A cluster file of these processes with one program.
fn file(rt: &impl Abort, alloc: Global, program: &str, names: &[&str]) -> String {
    let mut text = String::from_str(alloc, program).expect(rt, "memory");
    for name in names {
        let line = format!(in alloc; "proc {name} g\n").expect(rt, "memory");
        text.push_str(&line).expect(rt, "memory");
    }
    text
}

const ALL: u64 = 1_000;

// All runs of these processes with one program come to this text.
fn check_all(rt: &impl Abort, alloc: Global, (program, names): (&str, &[&str]), wanted: &str) {
    let input = file(rt, alloc, program, names);
    let text = written(rt, alloc, &options(true, ALL), &input);
    assert_eq!(rt; text.as_str(), wanted);
}

// So many runs that are drawn come to a text that ends so.
fn check_drawn(
    rt: &impl Abort,
    alloc: Global,
    (program, names): (&str, &[&str]),
    (runs, end): (u64, &str),
) {
    let input = file(rt, alloc, program, names);
    let text = written(rt, alloc, &options(false, runs), &input);
    assert!(rt; text.ends_with(end), "{text}");
}

#[test]
fn all_runs(rt: HostRuntime) {
    check_all(&rt, rt.alloc(), (GATHERS, &["a", "b", "c"]), TWO);
    check_all(&rt, rt.alloc(), (GATHERS, &["a", "b", "c", "d"]), SIX);
    check_all(&rt, rt.alloc(), (COUNTS, &["a", "b", "c"]), LOCK);
}

// One walk comes to the first text, and there are more.
#[test]
fn not_all_runs(rt: HostRuntime) {
    let alloc = rt.alloc();
    let race = file(&rt, alloc, GATHERS, &["a", "b", "c"]);
    let text = written(&rt, alloc, &options(true, 1), &race);
    assert!(&rt; text.ends_with("one text in 1 runs, not all\n"));
}

// A program, its processes, how many runs are drawn, and how the text ends.
static DRAWN: [(&str, &[&str], u64, &str); 4] = [
    (RING, &[], 10, "one text in 10 runs\n"),
    (GATHERS, &["a", "b", "c"], 20, "2 texts in 20 runs\n"),
    (GATHERS, &["a", "b", "c", "d"], 100, "6 texts in 100 runs\n"),
    (COUNTS, &["a", "b", "c"], 20, "2 texts in 20 runs\n"),
];

#[test]
fn drawn_runs(rt: HostRuntime) {
    for (program, names, runs, end) in &DRAWN {
        check_drawn(&rt, rt.alloc(), (*program, *names), (*runs, *end));
    }
    let lock = file(&rt, rt.alloc(), COUNTS, &["a", "b", "c"]);
    let text = written(&rt, rt.alloc(), &options(false, 20), &lock);
    assert!(&rt; text.contains(" waiting a\n"));
}

// Process `a` of three finishes 30 instructions.
#[test]
fn the_most_turns(rt: HostRuntime) {
    let alloc = rt.alloc();
    let mut race = file(&rt, alloc, GATHERS, &["a", "b", "c"]);
    race.push_str("fuel 10\n").expect(&rt, "memory");
    for is_all in [true, false] {
        let mut options = options(is_all, ALL);
        options.turns = 3;
        let text = written(&rt, alloc, &options, &race);
        assert!(&rt; text.contains("2 texts in "));
        options.turns = 2;
        check_out_of_turns(&rt, alloc, &options, &race);
    }
}

fn check_out_of_turns(rt: &impl Abort, alloc: Global, options: &Options, input: &str) {
    let mut context = make_beside(alloc, false);
    let text = told(rt, alloc, options, input, &mut context);
    assert!(rt; text.as_str() == "out of turns");
    context.check_spent(rt, " a");
}

// With the bytes as text only the lines of where texts differ are others, and digests stay.
#[test]
fn bytes_as_text(rt: HostRuntime) {
    let alloc = rt.alloc();
    let race = file(&rt, alloc, GATHERS, &["a", "b", "c"]);
    let mut options = options(true, ALL);
    options.form = BytesForm::Text;
    let text = written(&rt, alloc, &options, &race);
    assert_eq!(&rt; text.as_str(), TWO_AS_TEXT);
}

// Inputs that are refused, and with what.
static REFUSED: [(&str, &str); 3] = [
    ("", "empty script"),
    ("program a 4\n", "empty script"),
    ("program a 6\n", "line 1: bad size"),
];

#[test]
fn what_is_refused(rt: HostRuntime) {
    for (input, line) in &REFUSED {
        let text = written(&rt, rt.alloc(), &options(false, 1), input);
        assert_eq!(&rt; text.as_str(), *line);
    }
}

// What `a` puts out in each of the two runs.
static PUT_OUT: [&str; 2] = ["out a 0 01\nout a 1 02\n", "out a 0 02\nout a 1 01\n"];

// Each witness, played, comes to its outputs.
fn check_witnesses(rt: &impl Abort, alloc: Global, witnesses: &[Vec<u8>]) {
    assert!(rt; witnesses.len() == 2);
    for k in 0..2 {
        let world = played(rt, alloc, &witnesses[k]);
        assert!(rt; world.ends_with(PUT_OUT[k]));
    }
}

#[test]
fn witnesses(rt: HostRuntime) {
    let alloc = rt.alloc();
    let race = file(&rt, alloc, GATHERS, &["a", "b", "c"]);
    let mut context = make_beside(alloc, true);
    let text = told(&rt, alloc, &options(true, ALL), &race, &mut context);
    assert!(&rt; text.as_str() == TWO);
    context.check_spent(&rt, "");
    check_witnesses(&rt, alloc, &context.witnesses);
    drop(context);
}
