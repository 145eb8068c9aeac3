//! The command `run`: a cluster of logged processes, a thread for each.

ghost use Rattle.std.specs.Prelude.{◌≡◌, ◌⊎◌, ◌≤◌, ℕ, List, IsTrue, length, map, IfOk, IfErr, OnOk};
ghost use Rattle.std.specs.Io.KnownBytes.{Appends, Keeps};
ghost use Rattle.om_interval.specs.declared.pid.TheConstants.{MAX_PROCESSES};
ghost use Rattle.om_process.specs.Images.{program_of};
ghost use Rattle.om_report.specs.Reports.{IsReport};
ghost use Rattle.om_scripts.specs.Programs.{programs_of};
ghost use Rattle.om_commands.specs.Command.{IsSilent};
ghost use Rattle.om_run_commands.specs.Run.{IsRawAnswer, outputs_of};
ghost use Rattle.om_run_commands.specs.RunText.{run_text_in};
ghost use Rattle.om_run_commands.specs.steps.Modes.{IsToldAnswer};
ghost use Rattle.om_run_commands.specs.steps.Scripts.{IsErrorOfScript};

use crate::cluster_script::ClusterScript;
use crate::error::error_of_run;
use crate::run_text::{raw_text, report_text};
use om_commands::{BytesForm, CommandError, write_answer};
use om_interval::{MAX_PROCESSES, Pid};
use om_process::Status;
use om_runner::{Config, Gate, Opener, Report, run_cluster};
use std::alloc::{AllocError, Global};
use std::io::Write;
use std::sync::Wait;
use std::thread::Threads;
use std::time::Clock;

// How often a worker asks the gate, which is open.
const GATE_TURNS: u64 = 1;

// Lets each process start at once.
#[derive(Drop)]
pub(crate) struct OpenGate;

impl Gate for OpenGate {
    fn may_start(&self, _pid: Pid) -> bool {
        true
    }
}

// Runs the cluster of a script with a thread for each process over stores that `opener` makes, and then writes what each put out
// and how each ended, which is answered too. A worker takes at most so many `turns`. Refused, nothing is written, unless it was the
// writer that refused.
pub(crate) fn run<R: Threads + Wait + Clock + Sync, O: Opener<R> + Sync, W: Write>(
    rt: &R,
    alloc: Global,
    form: BytesForm,
    turns: u64,
    opener: &O,
    script: &ClusterScript,
    writer: &mut W,
) -> Result<Vec<Status>, CommandError>
    requires { 1 ≤ length script.now.cluster.processes }
    ensures text { IfOk result (λ statuses. (text : List ℕ)
        × IsToldAnswer form ((store : O.Store) → IsTrue (O.Store.is_clean store)) statuses.items script.now text
        × Appends (W.contents writer.old) (W.contents writer.new) text) }
    ensures error { IfErr result (IsErrorOfScript script.now) }
    ensures silent { IfErr result (λ error. IsSilent error (Keeps (W.contents writer.old) (W.contents writer.new))) }
{
    let report = report_of(rt, alloc, turns, opener, script)?;
    write_report(alloc, form, script, report, writer)
}

// Runs as `run` does, but writes the bytes alone that the process of a name put out.
pub(crate) fn run_raw<R: Threads + Wait + Clock + Sync, O: Opener<R> + Sync, W: Write>(
    rt: &R,
    alloc: Global,
    name: &str,
    turns: u64,
    opener: &O,
    script: &ClusterScript,
    writer: &mut W,
) -> Result<Vec<Status>, CommandError>
    requires { 1 ≤ length script.now.cluster.processes }
    ensures text { IfOk result (λ statuses. (text : List ℕ)
        × IsRawAnswer name.now ((store : O.Store) → IsTrue (O.Store.is_clean store)) statuses.items script.now text
        × Appends (W.contents writer.old) (W.contents writer.new) text) }
    ensures error { IfErr result (IsErrorOfScript script.now) }
    ensures silent { IfErr result (λ error. IsSilent error (Keeps (W.contents writer.old) (W.contents writer.new))) }
{
    let report = report_of(rt, alloc, turns, opener, script)?;
    let text = raw_text(alloc, name, script.programs(), &report.released)?;
    write_answer(writer, &text)?;
    Ok(report.statuses)
}

// Writes what a run of the cluster of a script ends with, and answers how its processes ended.
pub(crate) fn write_report<W: Write>(
    alloc: Global,
    form: BytesForm,
    script: &ClusterScript,
    report: Report,
    writer: &mut W,
) -> Result<Vec<Status>, CommandError>
    requires released { length report.released.items ≡ length (programs_of script.now.cluster) }
    requires statuses { length report.statuses.items ≡ length (programs_of script.now.cluster) }
    ensures text { OnOk result (Appends (W.contents writer.old) (W.contents writer.new)
        (run_text_in form script.now.cluster (outputs_of report) report.statuses.items)) }
    ensures statuses { IfOk result (λ statuses. statuses ≡ report.statuses) }
    ensures error { IfErr result (λ error. (error ≡ CommandError.NoMemory) ⊎ (error ≡ CommandError.CannotWrite)) }
    ensures silent { IfErr result (λ error. IsSilent error (Keeps (W.contents writer.old) (W.contents writer.new))) }
{
    let text = report_text(alloc, form, script.programs(), &report)?;
    write_answer(writer, text.as_bytes())?;
    Ok(report.statuses)
}

// Returns what a run of the cluster of a script ends with.
fn report_of<R: Threads + Wait + Clock + Sync, O: Opener<R> + Sync>(
    rt: &R,
    alloc: Global,
    turns: u64,
    opener: &O,
    script: &ClusterScript,
) -> Result<Report, CommandError>
    requires { 1 ≤ length script.now.cluster.processes }
    ensures report { IfOk result (IsReport ((store : O.Store) → IsTrue (O.Store.is_clean store)) (programs_of script.now.cluster)) }
    ensures error { IfErr result (IsErrorOfScript script.now) }
{
    let config = config_of(alloc, turns, script)?;
    match run_cluster(rt, alloc, &config, &OpenGate, opener) {
        Ok(report) => Ok(report),
        Err(fault) => Err(error_of_run(fault)),
    }
}

// Returns the cluster of a script, and how it is run.
pub(crate) fn config_of(
    alloc: Global,
    turns: u64,
    script: &ClusterScript,
) -> Result<Config, AllocError>
    ensures programs { IfOk result (λ config. map program_of config.images.items ≡ programs_of script.now.cluster) }
    ensures few { IfOk result (λ config. length config.images.items ≤ MAX_PROCESSES) }
    ensures kills { IfOk result (λ config. config.kills.items ≡ script.now.kills) }
    ensures flush { IfOk result (λ config. config.flush ≡ script.now.flush) }
    ensures checkpoint { IfOk result (λ config. config.checkpoint ≡ script.now.checkpoint) }
    ensures fuel { IfOk result (λ config. config.fuel ≡ script.now.fuel) }
    ensures turns { IfOk result (λ config. config.turns ≡ turns) }
    ensures gate { IfOk result (λ config. config.gate_turns ≡ GATE_TURNS) }
{
    let programs = script.programs();
    let n = programs.n();
    prove!(n <= MAX_PROCESSES);
    Ok(Config {
        images: programs.images(alloc)?,
        kills: script.kills().to_vec(alloc)?,
        flush: script.flush(),
        checkpoint: script.checkpoint(),
        fuel: script.fuel(),
        turns,
        gate_turns: GATE_TURNS,
    })
}
