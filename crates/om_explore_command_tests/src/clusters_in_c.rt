//! Explorations of the example clusters in C, whose outputs do not depend on the order in which messages come.

ghost use Rattle.std.specs.Prelude.{◌≡◌};

use crate::asking::{make_beside, options, played, told, written};
use om_examples::{BANK, BANK_ENDS, PIPELINE, PIPELINE_ENDS, QUEUE, QUEUE_ENDS};
use sha2::{Digest, Sha256};
use std::alloc::Global;
use std::process::Abort;

// Returns what is told of a text that so many runs came to.
fn line_of(rt: &impl Abort, alloc: Global, text: &str, runs: u64) -> String {
    let digest = hex::encode(alloc, Sha256::digest(text.as_bytes())).expect(rt, "memory");
    format!(in alloc; "text 1 runs {runs} sha256 {digest}\n").expect(rt, "memory")
}

// Each example, what it prints, and how many runs are drawn of it.
static EXAMPLES: [(&str, &str, u64); 3] = [
    (QUEUE, QUEUE_ENDS, 3),
    (BANK, BANK_ENDS, 30),
    (PIPELINE, PIPELINE_ENDS, 30),
];

#[test]
fn drawn_runs(rt: HostRuntime) {
    let alloc = rt.alloc();
    for (input, text, runs) in &EXAMPLES {
        let mut expected = line_of(&rt, alloc, text, *runs);
        let last = format!(in alloc; "one text in {runs} runs\n").expect(&rt, "memory");
        expected.push_str(&last).expect(&rt, "memory");
        let told = written(&rt, alloc, &options(false, *runs), input);
        assert_eq!(&rt; told.as_str(), expected.as_str());
    }
}

// How many walks are made. Over four accounts there are far more.
const WALKS: u64 = 200;

// The program of an example, in a cluster of these processes.
fn with_processes(rt: &impl Abort, alloc: Global, input: &str, processes: &str) -> String {
    let (program, _) = input.split_once('\n').expect(rt, "a line");
    format!(in alloc; "{program}\n{processes}").expect(rt, "memory")
}

// The lines of outputs of what an example prints.
fn outputs_of<'a>(rt: &impl Abort, text: &'a str) -> &'a str {
    let (outputs, _) = text.split_once("end ").expect(rt, "an end");
    outputs
}

// The sum of two accounts.
const TWO_ACCOUNTS: &str = "out p0 0 d0070000\nend p0 ended 0\nend p1 ended 0\n";

// Where each process receives from one other alone there is one order.
#[test]
fn all_runs(rt: HostRuntime) {
    let alloc = rt.alloc();
    let bank = with_processes(&rt, alloc, BANK, "proc p0 bank\nproc p1 bank\n");
    for (input, text) in [(bank.as_str(), TWO_ACCOUNTS), (PIPELINE, PIPELINE_ENDS)] {
        let mut expected = line_of(&rt, alloc, text, 1);
        expected
            .push_str("one text in all 1 runs\n")
            .expect(&rt, "memory");
        let told = written(&rt, alloc, &options(true, WALKS), input);
        assert_eq!(&rt; told.as_str(), expected.as_str());
    }
}

// The sums of the accounts are the same in all orders.
#[test]
fn not_all_runs(rt: HostRuntime) {
    let alloc = rt.alloc();
    let told = written(&rt, alloc, &options(true, WALKS), BANK);
    assert!(&rt; told.starts_with("text 1 runs "));
    assert!(&rt; told.contains("\none text in "));
    assert!(&rt; told.ends_with(" runs, not all\n"));
}

// The run that leads to a text puts out what the text says.
#[test]
fn witnesses(rt: HostRuntime) {
    let alloc = rt.alloc();
    for (input, text, _) in &EXAMPLES {
        let mut context = make_beside(alloc, true);
        told(&rt, alloc, &options(false, 1), input, &mut context);
        assert_eq!(&rt; context.witnesses.len(), 1);
        let world = played(&rt, alloc, &context.witnesses[0]);
        assert!(&rt; world.ends_with(outputs_of(&rt, text)));
    }
}
