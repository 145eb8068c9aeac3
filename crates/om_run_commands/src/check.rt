//! The command `run --check`: a cluster that is run, and compared with the run without failures that it comes to.

ghost use Rattle.std.specs.Prelude.{◌≡◌, ◌≤◌, ℕ, List, IsTrue, length, IfOk, IfErr};
ghost use Rattle.std.specs.Io.KnownBytes.{Appends, Keeps};
ghost use Rattle.om_report.specs.Reports.{IsReport};
ghost use Rattle.om_scripts.specs.Programs.{programs_of};
ghost use Rattle.om_run_commands.specs.steps.Modes.{IsCheckedAnswer};
ghost use Rattle.om_run_commands.specs.steps.Scripts.{IsErrorOfCheckedScript, IsErrorOfScript};
ghost use Rattle.om_commands.specs.Command.{IsSilent};

use crate::checked::{checked_events, checked_text};
use crate::cluster_script::ClusterScript;
use crate::context::{RunContext, write_script};
use crate::error::error_of_run;
use crate::event_text::events_text;
use crate::run::{OpenGate, config_of};
use om_commands::{BytesForm, CommandError, write_answer};
use om_process::{Status, Witness};
use om_runner::{Opener, Report, run_and_keep_witnesses};
use std::alloc::Global;
use std::io::Write;
use std::sync::Wait;
use std::thread::Threads;
use std::time::Clock;

// Runs as `run` of [`crate::run`] does, and then plays, in one thread, the run without failures in which each process receives
// what it received in its threads: what is written is the text of that run, to the byte.
//
// Refused with the errors of `run`, in their order; then with `Unlike` where the threads' outputs or statuses are not those
// of that run, or there is none, and with `NoMemory` where memory ran out for it. Refused, nothing is written, unless it was
// the writer that refused.
pub(crate) fn run_checked<R: Threads + Wait + Clock + Sync, O: Opener<R> + Sync, W: Write>(
    rt: &R,
    alloc: Global,
    form: BytesForm,
    turns: u64,
    opener: &O,
    script: &ClusterScript,
    writer: &mut W,
) -> Result<Vec<Status>, CommandError>
    requires { 1 ≤ length script.now.cluster.processes }
    ensures text { IfOk result (λ statuses. (text : List ℕ) × IsCheckedAnswer form statuses.items script.now text
        × Appends (W.contents writer.old) (W.contents writer.new) text) }
    ensures error { IfErr result (IsErrorOfCheckedScript script.now) }
    ensures silent { IfErr result (λ error. IsSilent error (Keeps (W.contents writer.old) (W.contents writer.new))) }
{
    let (report, witnesses) = reported(rt, alloc, turns, opener, script)?;
    let text = checked_text(alloc, form, script.programs(), &report, &witnesses)?;
    write_answer(writer, text.as_bytes())?;
    Ok(report.statuses)
}

// Runs as [`run_checked`] does, and writes that run as a script of `sim` to the file of the context, before the text: the lines
// of programs and processes, and then the events.
pub(crate) fn run_with_witness<
    R: Threads + Wait + Clock + Sync,
    O: Opener<R> + Sync,
    C: RunContext,
    W: Write,
>(
    rt: &R,
    alloc: Global,
    form: BytesForm,
    turns: u64,
    opener: &O,
    context: &mut C,
    script: &ClusterScript,
    writer: &mut W,
) -> Result<Vec<Status>, CommandError>
    requires { 1 ≤ length script.now.cluster.processes }
    ensures text { IfOk result (λ statuses. (text : List ℕ) × IsCheckedAnswer form statuses.items script.now text
        × Appends (W.contents writer.old) (W.contents writer.new) text) }
    ensures error { IfErr result (IsErrorOfCheckedScript script.now) }
    ensures silent { IfErr result (λ error. IsSilent error (Keeps (W.contents writer.old) (W.contents writer.new))) }
{
    let (report, witnesses) = reported(rt, alloc, turns, opener, script)?;
    let (text, events) = checked_events(alloc, form, script.programs(), &report, &witnesses)?;
    let events = events_text(alloc, &events)?;
    write_script(context, script, &events)?;
    write_answer(writer, text.as_bytes())?;
    Ok(report.statuses)
}

// Returns what threads report of the cluster of a script, with its kills, and what each process did.
fn reported<R: Threads + Wait + Clock + Sync, O: Opener<R> + Sync>(
    rt: &R,
    alloc: Global,
    turns: u64,
    opener: &O,
    script: &ClusterScript,
) -> Result<(Report, Vec<Witness>), CommandError>
    requires { 1 ≤ length script.now.cluster.processes }
    ensures report { IfOk result (λ r. IsReport ((store : O.Store) → IsTrue (O.Store.is_clean store)) (programs_of script.now.cluster) r.0) }
    ensures error { IfErr result (IsErrorOfScript script.now) }
{
    let config = config_of(alloc, turns, script)?;
    match run_and_keep_witnesses(rt, alloc, &config, &OpenGate, opener) {
        Ok(done) => Ok(done),
        Err(fault) => Err(error_of_run(fault)),
    }
}
