//! The command `run --record`: a cluster that is run, and what its threads did.

ghost use Rattle.std.specs.Prelude.{◌≡◌, ◌⊎◌, ◌≤◌, ℕ, List, IsTrue, length, IfOk, IfErr};
ghost use Rattle.std.specs.Io.KnownBytes.{Appends, Keeps};
ghost use Rattle.om_report.specs.Reports.{IsReport};
ghost use Rattle.om_scripts.specs.Programs.{programs_of};
ghost use Rattle.om_commands.specs.Command.{IsSilent};
ghost use Rattle.om_run_commands.specs.steps.Modes.{IsToldAnswer};
ghost use Rattle.om_run_commands.specs.steps.Scripts.{IsErrorOfScript};

use crate::cluster_script::ClusterScript;
use crate::context::RunContext;
use crate::error::error_of_run;
use crate::record_text::Frames;
use crate::run::{OpenGate, config_of, write_report};
use om_commands::{BytesForm, CommandError};
use om_process::Status;
use om_runner::{Opener, Record, Report, Scribe, run_and_record};
use om_scripts::Programs;
use std::alloc::{AllocError, Global};
use std::io::Write;
use std::sync::Wait;
use std::thread::Threads;
use std::time::Clock;

// Runs as `run` of [`crate::run`] does, and writes what the threads do as a script of `sim` to the file of the context, as they do
// it: the lines of programs and processes, and then the events in one order, with comments. What they did until a run was refused
// is written too, if it can be.
pub(crate) fn run_recorded<
    R: Threads + Wait + Clock + Sync,
    O: Opener<R> + Sync,
    C: RunContext,
    W: Write,
>(
    rt: &R,
    alloc: Global,
    form: BytesForm,
    turns: u64,
    opener: &O,
    context: &mut C,
    script: &ClusterScript,
    writer: &mut W,
) -> Result<Vec<Status>, CommandError>
    requires { 1 ≤ length script.now.cluster.processes }
    ensures text { IfOk result (λ statuses. (text : List ℕ)
        × IsToldAnswer form ((store : O.Store) → IsTrue (O.Store.is_clean store)) statuses.items script.now text
        × Appends (W.contents writer.old) (W.contents writer.new) text) }
    ensures error { IfErr result (IsErrorOfScript script.now) }
    ensures silent { IfErr result (λ error. IsSilent error (Keeps (W.contents writer.old) (W.contents writer.new))) }
{
    let report = recorded(rt, alloc, turns, opener, context, script)?;
    write_report(alloc, form, script, report, writer)
}

// Why what the threads did is not all written.
#[derive(Clone, Copy, Debug, PartialEq, Eq)]
enum ScriptFault {
    Memory,
    Refused,
}

impl From<AllocError> for ScriptFault {
    fn from(_: AllocError) -> ScriptFault {
        ScriptFault::Memory
    }
}

// Writes what the threads do to the file of the context.
#[derive(Drop)]
struct ScriptWriter<'a, 'c, C> {
    alloc: Global,
    programs: &'a Programs,
    context: &'c mut C,
    frames: Frames,
    // Why nothing more is written, where it is so.
    fault: Option<ScriptFault>,
}

impl<'a, 'c, C: RunContext> ScriptWriter<'a, 'c, C> {
    fn write(&mut self, part: &Record) -> Result<(), ScriptFault> {
        let text = self.frames.part_text(self.alloc, self.programs, part)?;
        match self.context.write(text.as_bytes()) {
            Ok(()) => Ok(()),
            Err(_) => Err(ScriptFault::Refused),
        }
    }
}

impl<'a, 'c, C: RunContext> Scribe for ScriptWriter<'a, 'c, C> {
    fn take_down(&mut self, part: &Record) {
        if self.fault.is_some() {
            return;
        }
        self.fault = self.write(part).err();
    }
}

// Writes the lines of programs and processes, with which the script begins. Returns why not all of it is written.
fn begin<C: RunContext>(context: &mut C, script: &ClusterScript) -> Option<ScriptFault> {
    match context.write(script.lines()) {
        Ok(()) => None,
        Err(_) => Some(ScriptFault::Refused),
    }
}

// Returns whether all is written.
fn written(fault: Option<ScriptFault>) -> Result<(), CommandError>
    ensures { IfErr result (λ error. (error ≡ CommandError.NoMemory) ⊎ (error ≡ CommandError.CannotWrite)) }
{
    match fault {
        None => Ok(()),
        Some(ScriptFault::Memory) => Err(CommandError::NoMemory),
        Some(ScriptFault::Refused) => Err(CommandError::CannotWrite),
    }
}

// Returns what a run of the cluster of a script ends with. What the threads do is written as they do it.
fn recorded<R: Threads + Wait + Clock + Sync, O: Opener<R> + Sync, C: RunContext>(
    rt: &R,
    alloc: Global,
    turns: u64,
    opener: &O,
    context: &mut C,
    script: &ClusterScript,
) -> Result<Report, CommandError>
    requires { 1 ≤ length script.now.cluster.processes }
    ensures report { IfOk result (IsReport ((store : O.Store) → IsTrue (O.Store.is_clean store)) (programs_of script.now.cluster)) }
    ensures error { IfErr result (IsErrorOfScript script.now) }
{
    let fault = begin(context, script);
    let writer = ScriptWriter {
        alloc,
        programs: script.programs(),
        context,
        frames: Frames::new(alloc),
        fault,
    };
    let (ended, fault) = report_of(rt, alloc, turns, opener, script, writer);
    let report = ended?;
    written(fault)?;
    Ok(report)
}

// Returns what a run of the cluster of a script ends with, while the writer takes down what the threads do, and why it is not all
// written.
fn report_of<R: Threads + Wait + Clock + Sync, O: Opener<R> + Sync, C: RunContext>(
    rt: &R,
    alloc: Global,
    turns: u64,
    opener: &O,
    script: &ClusterScript,
    writer: ScriptWriter<'_, '_, C>,
) -> (Result<Report, CommandError>, Option<ScriptFault>)
    requires { 1 ≤ length script.now.cluster.processes }
    ensures report { IfOk result.0 (IsReport ((store : O.Store) → IsTrue (O.Store.is_clean store)) (programs_of script.now.cluster)) }
    ensures error { IfErr result.0 (IsErrorOfScript script.now) }
{
    let Ok(config) = config_of(alloc, turns, script) else {
        return (Err(CommandError::NoMemory), writer.fault);
    };
    let (ended, writer) = run_and_record(rt, alloc, &config, &OpenGate, opener, writer);
    match ended {
        Ok(report) => (Ok(report), writer.fault),
        Err(fault) => (Err(error_of_run(fault)), writer.fault),
    }
}
