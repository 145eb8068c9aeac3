//! A cluster file whose run is ended between two failures, and taken up with a check.

ghost use Rattle.std.specs.Prelude.{◌≤◌};

use crate::clusters::RING;
use crate::restarts::{OnShelf, Shelf, blank_shelf};
use om_commands::{BytesForm, CommandError};
use om_process::Status;
use om_run_commands::{ClusterScript, RunContext, RunMode, run_file};
use std::alloc::Global;
use std::process::Abort;
use std::sync::Wait;
use std::sync::atomic::Ordering::SeqCst;
use std::thread::Threads;
use std::time::Clock;

// The turns of a worker.
const TURNS: u64 = 50_000_000;

// More receipts than any run here is given.
const ALL: u64 = 1_000_000_000;

// Each receipt is stored before its process goes on, so that receipts are stored in the order in which the ring goes round: those
// before the first failure are 3, and those before the second 13.
const FAILURES: &str = "\
proc p0 ring
proc p1 ring
proc p2 ring
kill p1 2
kill p2 5
flush 1
checkpoint 2
";

// The ring goes round six times.
const RECEIPTS: u64 = 18;

const RING_ENDS: &str = "\
out p0 0 03000000
out p0 1 06000000
out p0 2 09000000
out p0 3 0c000000
out p0 4 0f000000
out p0 5 12000000
out p1 0 01000000
out p1 1 04000000
out p1 2 07000000
out p1 3 0a000000
out p1 4 0d000000
out p1 5 10000000
out p2 0 02000000
out p2 1 05000000
out p2 2 08000000
out p2 3 0b000000
out p2 4 0e000000
out p2 5 11000000
end p0 ended 18
end p1 ended 16
end p2 ended 17
";

// Has nothing to make ready for a run.
#[derive(Drop)]
struct Nothing;

impl RunContext for Nothing {
    fn begin(&mut self, _script: &ClusterScript) -> Result<(), CommandError> {
        Ok(())
    }

    fn write(&mut self, _text: &[u8]) -> Result<(), CommandError> {
        Ok(())
    }

    fn end(&mut self, _script: &ClusterScript, _outcome: Result<&[Status], CommandError>) {}
}

// The cluster file.
fn script(rt: &impl Abort, alloc: Global) -> String {
    let mut text = String::from_str(alloc, "program ring 512").expect(rt, "memory");
    for word in &RING {
        write!(text, " {word:08x}").expect(rt, "memory");
    }
    writeln!(text).expect(rt, "memory");
    text.push_str(FAILURES).expect(rt, "memory");
    text
}

// What came of a start: its answer, what it wrote, and how many receipts its stores were given and how often they were cut.
#[derive(Debug, Drop)]
struct Outcome {
    answer: Result<(), CommandError>,
    text: Vec<u8>,
    receipts: u64,
    cuts: u64,
}

// Runs the cluster over a shelf, until its stores were given so many receipts.
fn start<R: Threads + Wait + Clock + Abort + Sync>(
    rt: &R,
    alloc: Global,
    shelf: &Shelf,
    mode: RunMode<'_>,
    room: u64,
) -> Outcome {
    shelf.room.store(room, SeqCst);
    shelf.receipts.store(0, SeqCst);
    shelf.cuts.store(0, SeqCst);
    let input = script(rt, alloc);
    let (answer, text) = run_file(
        rt,
        alloc,
        mode,
        BytesForm::Hex,
        TURNS,
        &OnShelf { shelf },
        &mut Nothing,
        &mut input.as_bytes(),
        Vec::new(alloc),
    );
    Outcome {
        answer: answer.map(|_| ()),
        text,
        receipts: shelf.receipts.load(SeqCst),
        cuts: shelf.cuts.load(SeqCst),
    }
}

// Returns how many failures there are before the ring was given so many receipts.
fn failures_before(receipts: u64) -> u64
    ensures { result ≤ 2 }
{
    if receipts > 13 {
        2
    } else if receipts > 3 {
        1
    } else {
        0
    }
}

// Each start cuts the stores of all three, and each failure that of one.
fn assert_start(rt: &impl Abort, start: Outcome, receipts: u64, failures: u64, is_whole: bool) {
    let is_told = if is_whole {
        start.answer == Ok(()) && start.text.as_slice() == RING_ENDS.as_bytes()
    } else {
        start.answer == Err(CommandError::StoreFault) && start.text.is_empty()
    };
    let is_so = is_told
        && start.receipts == receipts
        && start.cuts.checked_sub(3) == Some(failures);
    assert!(rt; is_so, "{receipts} {failures} {start:?}");
}

// The program is ended behind each receipt. What was stored before is not received again, a failure that was before it is not
// repeated, and one that was not comes behind the restart. The text is that of the ring, with a check that knows all senders.
#[test]
fn two_failures_and_a_crash_with_a_check(rt: HostRuntime) {
    for room in 1..=RECEIPTS {
        let shelf = blank_shelf(&rt, rt.alloc(), 3);
        let before = failures_before(room);
        let first = start(&rt, rt.alloc(), &shelf, RunMode::Check, room);
        assert_start(&rt, first, room, before, false);
        let second = start(&rt, rt.alloc(), &shelf, RunMode::Check, ALL);
        assert_start(&rt, second, RECEIPTS - room, 2 - before, true);
        let third = start(&rt, rt.alloc(), &shelf, RunMode::Check, ALL);
        assert_start(&rt, third, 0, 0, true);
    }
}

// Over stores that name wrong senders the text is that of the ring, and only a check finds them out.
#[test]
fn a_check_of_what_was_taken_up_reads_its_senders(rt: HostRuntime) {
    let shelf = blank_shelf(&rt, rt.alloc(), 3);
    let first = start(&rt, rt.alloc(), &shelf, RunMode::Check, ALL);
    assert_start(&rt, first, RECEIPTS, 2, true);
    shelf.lie.store(true, SeqCst);
    let plain = start(&rt, rt.alloc(), &shelf, RunMode::Plain, ALL);
    assert_start(&rt, plain, 0, 0, true);
    let checked = start(&rt, rt.alloc(), &shelf, RunMode::Check, ALL);
    let is_refused = checked.answer == Err(CommandError::Unlike) && checked.text.is_empty();
    assert!(&rt; is_refused, "{checked:?}");
}
