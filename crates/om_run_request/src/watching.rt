//! A run of which more is said on standard error: how far it has come, and what its processes waited for where it came to no end.

ghost use Rattle.std.specs.Prelude.{◌≡◌, ◌⊎◌, IsTrue, MatchResult, Ok, Err};
ghost use Rattle.om_run_request.specs.Asked.{AnswersRun, IsSilentUnfollowed, LeavesPart, TellsErrorOf};

use crate::asked::run_asked;
use crate::surroundings::{Job, Surroundings};
use om_arguments::Running;
use om_interval::MAX_PROCESSES;
use om_outcomes::{Failure, Output, Reasons};
use om_process::Status;
use om_run_commands::has_trapped;
use om_runner::{Opener, Progress, Watch, Watched};
use om_store_files::settle;
use std::alloc::Global;
use std::io::{IsTerminal, Read, Write};
use std::sync::Wait;
use std::sync::atomic::AtomicBool;
use std::sync::atomic::Ordering::SeqCst;
use std::thread;
use std::thread::{Parker, Threads};
use std::time::{Clock, Duration};

// How many seconds after a line of progress the next comes.
const PERIOD: u64 = 1;

// Begins the lines of progress, and ends them.
#[derive(Drop)]
pub(crate) struct Stage {
    has_begun: AtomicBool,
    is_over: AtomicBool,
    to_begin: Parker,
    to_end: Parker,
}

impl Stage {
    fn new() -> Stage {
        Stage {
            has_begun: AtomicBool::new(false),
            is_over: AtomicBool::new(false),
            to_begin: Parker::new(),
            to_end: Parker::new(),
        }
    }

    // Notes that the cluster starts.
    pub(crate) fn begin(&self) {
        self.has_begun.store(true, SeqCst);
        self.to_begin.unpark();
    }

    // Notes that the run is over, or was refused before the cluster started.
    fn end(&self) {
        self.is_over.store(true, SeqCst);
        self.to_begin.unpark();
        self.to_end.unpark();
    }

    // Waits until the cluster starts, or the run is over.
    fn wait<R: Wait>(&self, rt: &R) {
        for _ in rt.forever() {
            if self.has_begun.load(SeqCst) || self.is_over.load(SeqCst) {
                return;
            }
            self.to_begin.park(rt);
        }
    }

    // Sleeps for a period, or until the run is over, and says whether it is.
    fn sleep<R: Wait>(&self, rt: &R) -> bool {
        if !self.is_over.load(SeqCst) {
            self.to_end.park_timeout(rt, Duration::from_secs(PERIOD));
        }
        self.is_over.load(SeqCst)
    }
}

// Says each second how far the cluster has come, from its start until the run is over. Where it cannot be said, nothing comes of it.
fn say_progress<R: Wait + Eprint>(rt: &R, alloc: Global, watch: &Watch, stage: &Stage) {
    stage.wait(rt);
    for _ in rt.forever() {
        if stage.sleep(rt) {
            return;
        }
        if let Ok(sights) = watch.sights(rt, alloc) {
            let _ = rt.eprintln(Progress::of(&sights));
        }
    }
}

// Runs the cluster of an input as it is asked for, with what it has beside.
#[inline(never)]
fn run_as<'a, 'w, R: Threads + Wait + Clock + Sync, O: Opener<R> + Sync, I: Read, W: Write + Drop>(
    threads: &R,
    running: Running<'_>,
    opener: &O,
    surroundings: &mut Surroundings<'a, 'w, R>,
    reader: &mut I,
    writer: W,
) -> (Result<(), Failure>, W)
    ensures text { AnswersRun running.entry ((store : O.Store) → IsTrue (O.Store.is_clean store))
        (I.remaining reader.old) result.0 (W.contents writer) (W.contents result.1) }
    ensures error { TellsErrorOf running.entry (I.remaining reader.old) result.0 }
    ensures silent { IsSilentUnfollowed running.entry result.0 (W.contents writer) (W.contents result.1) }
    ensures partly { LeavesPart running.entry ((store : O.Store) → IsTrue (O.Store.is_clean store))
        (I.remaining reader.old) result.0 (W.contents writer) (W.contents result.1) }
{
    let rt = surroundings.rt;
    let (outcome, output) = run_asked(
        threads,
        rt.alloc(),
        running,
        opener,
        surroundings,
        reader,
        Output::new(writer),
    );
    // Threads beside each other put them there, so it waits until all others are joined.
    if let Some(prefix) = running.prefix {
        settle(threads, rt, prefix, surroundings.written);
    }
    output.tell_refusal(&mut surroundings.reasons);
    let ended = output.ended(outcome);
    (
        judged(ended, running.strict, surroundings.lacks_kill),
        output.to,
    )
}

// Returns how a run ended, where a process that trapped, or a kill that did not come, may be a failure.
fn judged(
    ended: Result<Vec<Status>, Failure>,
    is_strict: bool,
    lacks_kill: bool,
) -> Result<(), Failure>
    ensures { MatchResult ended (λ _. (result ≡ Ok tt) ⊎ (result ≡ Err Failure.Strict)) (λ failure. result ≡ Err failure) }
{
    let statuses = ended?;
    if is_strict && (has_trapped(&statuses) || lacks_kill) {
        return Err(Failure::Strict);
    }
    Ok(())
}

// Runs the cluster as it is asked for, while a thread beside says how far it has come.
fn run_and_say<
    'a,
    'w,
    R: Threads + Wait + Clock + Eprint + Sync,
    O: Opener<R> + Sync,
    I: Read,
    W: Write + Drop,
>(
    threads: &R,
    running: Running<'_>,
    opener: &O,
    seen: (&Watch, &Stage),
    surroundings: &mut Surroundings<'a, 'w, R>,
    reader: &mut I,
    writer: W,
) -> (Result<(), Failure>, W)
    ensures text { AnswersRun running.entry ((store : O.Store) → IsTrue (O.Store.is_clean store))
        (I.remaining reader.old) result.0 (W.contents writer) (W.contents result.1) }
    ensures error { TellsErrorOf running.entry (I.remaining reader.old) result.0 }
    ensures silent { IsSilentUnfollowed running.entry result.0 (W.contents writer) (W.contents result.1) }
    ensures partly { LeavesPart running.entry ((store : O.Store) → IsTrue (O.Store.is_clean store))
        (I.remaining reader.old) result.0 (W.contents writer) (W.contents result.1) }
{
    let (watch, stage) = seen;
    let alloc = surroundings.rt.alloc();
    thread::scope(
        thread::scope_env(),
        threads,
        |scope| -> (Result<(), Failure>, W)
            ensures text { AnswersRun running.entry ((store : O.Store) → IsTrue (O.Store.is_clean store))
                (I.remaining reader.entry.now) result.0 (W.contents writer) (W.contents result.1) }
            ensures error { TellsErrorOf running.entry (I.remaining reader.entry.now) result.0 }
            ensures silent { IsSilentUnfollowed running.entry result.0 (W.contents writer) (W.contents result.1) }
            ensures partly { LeavesPart running.entry ((store : O.Store) → IsTrue (O.Store.is_clean store))
                (I.remaining reader.entry.now) result.0 (W.contents writer) (W.contents result.1) }
        {
            let beside = scope.spawn(move || say_progress(threads, alloc, watch, stage));
            let told = run_as(threads, running, opener, surroundings, reader, writer);
            stage.end();
            if let Ok(beside) = beside {
                beside.join(threads);
            }
            told
        },
    )
}

// Runs the cluster as it is asked for, where somebody may watch its processes.
fn run_seen<
    'a,
    'w,
    R: Threads + Wait + Clock + Eprint + Sync,
    O: Opener<R> + Sync,
    I: Read,
    W: Write + Drop,
>(
    threads: &R,
    running: Running<'_>,
    opener: &O,
    stage: &Stage,
    surroundings: &mut Surroundings<'a, 'w, R>,
    reader: &mut I,
    writer: W,
) -> (Result<(), Failure>, W)
    ensures text { AnswersRun running.entry ((store : O.Store) → IsTrue (O.Store.is_clean store))
        (I.remaining reader.old) result.0 (W.contents writer) (W.contents result.1) }
    ensures error { TellsErrorOf running.entry (I.remaining reader.old) result.0 }
    ensures silent { IsSilentUnfollowed running.entry result.0 (W.contents writer) (W.contents result.1) }
    ensures partly { LeavesPart running.entry ((store : O.Store) → IsTrue (O.Store.is_clean store))
        (I.remaining reader.old) result.0 (W.contents writer) (W.contents result.1) }
{
    let watch = surroundings.watch;
    let opener = Watched { opener, watch };
    match watch {
        Some(watch) if surroundings.rt.stderr().is_terminal() => run_and_say(
            threads,
            running,
            &opener,
            (watch, stage),
            surroundings,
            reader,
            writer,
        ),
        _ => run_as(threads, running, &opener, surroundings, reader, writer),
    }
}

// Runs the cluster of an input, with what it has beside; reasons come behind those that are there.
fn run_beside<
    'a,
    'w,
    R: Threads + Wait + Clock + Eprint + Sync,
    O: Opener<R> + Sync,
    I: Read,
    W: Write + Drop,
>(
    rt: &'a HostRuntime,
    threads: &'a R,
    job: Job<'a>,
    seen: (Option<&'w Watch>, &'w Stage),
    opener: &O,
    reader: &mut I,
    writer: W,
    reasons: &mut Reasons,
) -> (Result<(), Failure>, W)
    ensures text { AnswersRun job.entry.running ((store : O.Store) → IsTrue (O.Store.is_clean store))
        (I.remaining reader.old) result.0 (W.contents writer) (W.contents result.1) }
    ensures error { TellsErrorOf job.entry.running (I.remaining reader.old) result.0 }
    ensures silent { IsSilentUnfollowed job.entry.running result.0 (W.contents writer) (W.contents result.1) }
    ensures partly { LeavesPart job.entry.running ((store : O.Store) → IsTrue (O.Store.is_clean store))
        (I.remaining reader.old) result.0 (W.contents writer) (W.contents result.1) }
{
    let (watch, stage) = seen;
    let mut surroundings = Surroundings::new(rt, threads, job, watch, stage, reasons.are_heard);
    let told = run_seen(
        threads,
        job.running,
        opener,
        stage,
        &mut surroundings,
        reader,
        writer,
    );
    reasons.add_all(&surroundings.reasons);
    told
}

// Runs the cluster of an input over stores that are made so. Where more is to be said, or each kill is to come, its processes are
// watched.
pub(crate) fn run_watched<
    'a,
    R: Threads + Wait + Clock + Eprint + Sync,
    O: Opener<R> + Sync,
    I: Read,
    W: Write + Drop,
>(
    rt: &'a HostRuntime,
    threads: &'a R,
    job: Job<'a>,
    opener: &O,
    reader: &mut I,
    writer: W,
    reasons: &mut Reasons,
) -> (Result<(), Failure>, W)
    ensures text { AnswersRun job.entry.running ((store : O.Store) → IsTrue (O.Store.is_clean store))
        (I.remaining reader.old) result.0 (W.contents writer) (W.contents result.1) }
    ensures error { TellsErrorOf job.entry.running (I.remaining reader.old) result.0 }
    ensures silent { IsSilentUnfollowed job.entry.running result.0 (W.contents writer) (W.contents result.1) }
    ensures partly { LeavesPart job.entry.running ((store : O.Store) → IsTrue (O.Store.is_clean store))
        (I.remaining reader.old) result.0 (W.contents writer) (W.contents result.1) }
{
    let stage = Stage::new();
    if !reasons.are_heard && !job.running.strict {
        return run_beside(
            rt,
            threads,
            job,
            (None, &stage),
            opener,
            reader,
            writer,
            reasons,
        );
    }
    match Watch::new(rt.alloc(), MAX_PROCESSES) {
        Ok(watch) => run_beside(
            rt,
            threads,
            job,
            (Some(&watch), &stage),
            opener,
            reader,
            writer,
            reasons,
        ),
        Err(refused) => (Err(Failure::from(refused)), writer),
    }
}
