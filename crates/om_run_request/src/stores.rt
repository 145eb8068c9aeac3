//! The run over memory, or over the files of a prefix.

ghost use Rattle.std.specs.Prelude.{◌≡◌, None};
ghost use Rattle.om_run_request.specs.Asked.{AnswersRun, IsSilentUnfollowed, LeavesPart, TellsErrorOf};

use crate::surroundings::Job;
use crate::watching::run_watched;
use om_arguments::Running;
use om_files::{Connects, Files, InTables, TakenUp};
use om_interval::MAX_PROCESSES;
use om_outcomes::{Failure, Reasons};
use om_runner::InMemory;
use om_store_files::Notes;
use std::io::{Read, Write};
use std::sync::Wait;
use std::thread::Threads;
use std::time::Clock;

/// Runs the cluster that is read, as it is asked for, over the files of the prefix that is asked for, or over memory where none is. `input` is
/// the file that is read, where one is named: no file that is written may be it. Where more is to be said, reasons are added.
///
/// Refused, nothing is written but with `--follow`, unless it was the writer that refused. `Strict` where it is asked for, and a process
/// trapped or a line `kill` did not come: then the text is written.
pub fn run_request<'a, R: Threads + Wait + Clock + Eprint + Sync, I: Read, W: Write + Drop>(
    rt: &HostRuntime,
    threads: &R,
    running: Running<'a>,
    input: Option<&'a str>,
    reader: &mut I,
    writer: W,
    reasons: &mut Reasons,
) -> (Result<(), Failure>, W)
    ensures text { AnswersRun running.entry (running.entry.prefix ≡ None)
        (I.remaining reader.old) result.0 (W.contents writer) (W.contents result.1) }
    ensures error { TellsErrorOf running.entry (I.remaining reader.old) result.0 }
    ensures silent { IsSilentUnfollowed running.entry result.0 (W.contents writer) (W.contents result.1) }
    ensures partly { LeavesPart running.entry (running.entry.prefix ≡ None)
        (I.remaining reader.old) result.0 (W.contents writer) (W.contents result.1) }
{
    let job = Job {
        running,
        input,
        notes: None,
    };
    match running.prefix {
        Some(prefix) => run_in_files(rt, threads, job, prefix, reader, writer, reasons),
        None => run_watched(rt, threads, job, &InMemory, reader, writer, reasons),
    }
}

// Runs the cluster over the files of the prefix. It stands apart, since the type of the stores is great.
#[inline(never)]
fn run_in_files<R: Threads + Wait + Clock + Eprint + Sync, I: Read, W: Write + Drop>(
    rt: &HostRuntime,
    threads: &R,
    job: Job<'_>,
    prefix: &str,
    reader: &mut I,
    writer: W,
    reasons: &mut Reasons,
) -> (Result<(), Failure>, W)
    ensures text { AnswersRun job.entry.running ⊥ (I.remaining reader.old) result.0 (W.contents writer) (W.contents result.1) }
    ensures error { TellsErrorOf job.entry.running (I.remaining reader.old) result.0 }
    ensures silent { IsSilentUnfollowed job.entry.running result.0 (W.contents writer) (W.contents result.1) }
    ensures partly { LeavesPart job.entry.running ⊥ (I.remaining reader.old) result.0 (W.contents writer) (W.contents result.1) }
{
    let notes = match Notes::new(rt.alloc(), MAX_PROCESSES) {
        Ok(notes) => notes,
        Err(refused) => return (Err(Failure::from(refused)), writer),
    };
    let job = Job {
        notes: Some(&notes),
        ..job
    };
    let files = Files {
        rt,
        prefix,
        notes: &notes,
    };
    run_over_tables(rt, threads, job, files, reader, writer, reasons)
}

// Runs a cluster over stores in the databases that are connected: such that it makes, or such that an earlier run left.
fn run_over_tables<
    R: Threads + Wait + Clock + Eprint + Sync,
    C: Connects + Sync + Drop,
    I: Read,
    W: Write + Drop,
>(
    rt: &HostRuntime,
    threads: &R,
    job: Job<'_>,
    connects: C,
    reader: &mut I,
    writer: W,
    reasons: &mut Reasons,
) -> (Result<(), Failure>, W)
    ensures text { AnswersRun job.entry.running ⊥ (I.remaining reader.old) result.0 (W.contents writer) (W.contents result.1) }
    ensures error { TellsErrorOf job.entry.running (I.remaining reader.old) result.0 }
    ensures silent { IsSilentUnfollowed job.entry.running result.0 (W.contents writer) (W.contents result.1) }
    ensures partly { LeavesPart job.entry.running ⊥ (I.remaining reader.old) result.0 (W.contents writer) (W.contents result.1) }
{
    if job.running.resumes {
        run_again(rt, threads, job, connects, reader, writer, reasons)
    } else {
        run_anew(rt, threads, job, connects, reader, writer, reasons)
    }
}

#[inline(never)]
fn run_anew<
    R: Threads + Wait + Clock + Eprint + Sync,
    C: Connects + Sync + Drop,
    I: Read,
    W: Write + Drop,
>(
    rt: &HostRuntime,
    threads: &R,
    job: Job<'_>,
    connects: C,
    reader: &mut I,
    writer: W,
    reasons: &mut Reasons,
) -> (Result<(), Failure>, W)
    ensures text { AnswersRun job.entry.running ⊥ (I.remaining reader.old) result.0 (W.contents writer) (W.contents result.1) }
    ensures error { TellsErrorOf job.entry.running (I.remaining reader.old) result.0 }
    ensures silent { IsSilentUnfollowed job.entry.running result.0 (W.contents writer) (W.contents result.1) }
    ensures partly { LeavesPart job.entry.running ⊥ (I.remaining reader.old) result.0 (W.contents writer) (W.contents result.1) }
{
    let opener = InTables { connects };
    run_watched(rt, threads, job, &opener, reader, writer, reasons)
}

#[inline(never)]
fn run_again<
    R: Threads + Wait + Clock + Eprint + Sync,
    C: Connects + Sync + Drop,
    I: Read,
    W: Write + Drop,
>(
    rt: &HostRuntime,
    threads: &R,
    job: Job<'_>,
    connects: C,
    reader: &mut I,
    writer: W,
    reasons: &mut Reasons,
) -> (Result<(), Failure>, W)
    ensures text { AnswersRun job.entry.running ⊥ (I.remaining reader.old) result.0 (W.contents writer) (W.contents result.1) }
    ensures error { TellsErrorOf job.entry.running (I.remaining reader.old) result.0 }
    ensures silent { IsSilentUnfollowed job.entry.running result.0 (W.contents writer) (W.contents result.1) }
    ensures partly { LeavesPart job.entry.running ⊥ (I.remaining reader.old) result.0 (W.contents writer) (W.contents result.1) }
{
    let opener = TakenUp { connects };
    run_watched(rt, threads, job, &opener, reader, writer, reasons)
}
