//! The command `run --follow`: a cluster whose outputs are written as they are released.

ghost use Rattle.std.specs.Prelude.{◌≡◌, ◌≤◌, ◌⊎◌, ℕ, IfErr, IfOk, IsTrue, List, OnOk, length, string_bytes};
ghost use Rattle.std.specs.Io.KnownBytes.{Appends, Keeps};
ghost use Rattle.om_runner.specs.Telling.{told_of};
ghost use Rattle.om_run_commands.specs.ClusterScript.{ClusterFile};
ghost use Rattle.om_run_commands.specs.steps.Errors.{error_of_run};
ghost use Rattle.om_run_commands.specs.Follow.{IsPartOf, told_text};
ghost use Rattle.om_run_commands.specs.steps.Lines.{told_line};
ghost use Rattle.om_run_commands.specs.steps.Modes.{IsFollowedTo};
ghost use Rattle.om_run_commands.specs.Run.{IsByKind};
ghost use Rattle.om_run_commands.specs.steps.Scripts.{IsErrorOfScript};
ghost use Rattle.om_run_commands.specs.RunText.{ends_text};

use crate::cluster_script::ClusterScript;
use crate::error::error_of_run;
use crate::run::{OpenGate, config_of};
use crate::run_text::push_ends;
use om_commands::{BytesForm, CommandError, name_of, push_output, write_answer};
use om_interval::Pid;
use om_manager::Output;
use om_process::Status;
use om_runner::{FollowFault, Follower, Opener, run_and_follow};
use om_scripts::Programs;
use std::alloc::{AllocError, Global};
use std::io::Write;
use std::sync::Wait;
use std::thread::Threads;
use std::time::Clock;

// Writes the line of each output that it is told of.
#[derive(Drop)]
struct Lines<'a, W: Write + Drop> {
    alloc: Global,
    form: BytesForm,
    programs: &'a Programs,
    writer: W,
    // Whether it wants no more because memory ran out.
    lacks_memory: bool,
}

// Makes the line of an output of a process.
fn line_of(
    alloc: Global,
    form: BytesForm,
    programs: &Programs,
    pid: Pid,
    output: &Output,
) -> Result<String, AllocError>
    ensures { IfOk result (λ line. string_bytes line ≡ told_line form programs.now (told_of pid output.now)) }
{
    let mut text = String::new(alloc);
    push_output(
        alloc,
        &mut text,
        form,
        name_of(programs, pid.index()),
        output.seq,
        output.bytes.as_slice(),
    )?;
    Ok(text)
}

impl<'a, W: Write + Drop> Follower for Lines<'a, W> {
    ghost Tells = { λ before after told. ((after.programs.now ≡ before.programs.now) × (after.form ≡ before.form))
        × Appends (W.contents before.writer) (W.contents after.writer) (told_text before.form before.programs.now told) };

    fn tell(&mut self, pid: Pid, output: &Output) -> bool {
        let Ok(line) = line_of(self.alloc, self.form, self.programs, pid, output) else {
            self.lacks_memory = true;
            return false;
        };
        write_answer(&mut self.writer, line.as_bytes()).is_ok()
    }

    fn pause(&mut self) -> bool {
        true
    }
}

// Runs as `run` of [`crate::run`] does, but each output is written as soon as it is released: the lines of a process in order
// and each once, those of different processes in the order in which they were released. At the end comes how each process
// ended. Where the run is refused, what was released by then is written; less where memory ran out or the writer refused.
pub(crate) fn run_followed<R: Threads + Wait + Clock + Sync, O: Opener<R> + Sync, W: Write + Drop>(
    rt: &R,
    alloc: Global,
    form: BytesForm,
    turns: u64,
    opener: &O,
    script: &ClusterScript,
    writer: W,
) -> (Result<Vec<Status>, CommandError>, W)
    requires { 1 ≤ length script.now.cluster.processes }
    ensures text { IfOk result.0 (λ statuses. (text : List ℕ)
        × IsFollowedTo form ((store : O.Store) → IsTrue (O.Store.is_clean store)) statuses.items script.now text
        × Appends (W.contents writer) (W.contents result.1) text) }
    ensures error { IfErr result.0 (IsErrorOfScript script.now) }
    ensures partly { IfErr result.0 (λ error. IsByKind error
        (IsPartOf (told_text form script.now.cluster) ((store : O.Store) → IsTrue (O.Store.is_clean store)) script.now (W.contents writer) (W.contents result.1))
        (Keeps (W.contents writer) (W.contents result.1))) }
{
    let programs = script.programs();
    let Ok(config) = config_of(alloc, turns, script) else {
        return (Err(CommandError::NoMemory), writer);
    };
    let lines = Lines {
        alloc,
        form,
        programs,
        writer,
        lacks_memory: false,
    };
    let (ended, lines) = run_and_follow(rt, alloc, &config, &OpenGate, opener, lines);
    let Lines {
        mut writer,
        lacks_memory,
        ..
    } = lines;
    let report = match ended {
        Ok(report) => report,
        Err(fault) => return (Err(error_of(fault, lacks_memory)), writer),
    };
    match write_ends(alloc, programs, &report.statuses, &mut writer) {
        Ok(()) => (Ok(report.statuses), writer),
        Err(error) => (Err(error), writer),
    }
}

// Returns why a run that was followed came to no end, as the caller is told.
pub(crate) fn error_of(fault: FollowFault, lacks_memory: bool) -> CommandError
    ensures error { (script : ClusterFile) → 1 ≤ length script.cluster.processes → IsErrorOfScript script result }
    ensures unwanted { fault ≡ FollowFault.Unwanted → (result ≡ CommandError.NoMemory) ⊎ (result ≡ CommandError.CannotWrite) }
    ensures run { (f : _) → fault ≡ FollowFault.Run f → result ≡ error_of_run f }
{
    match fault {
        FollowFault::Run(fault) => error_of_run(fault),
        FollowFault::Unwanted if lacks_memory => CommandError::NoMemory,
        FollowFault::Unwanted => CommandError::CannotWrite,
    }
}

// Writes how each process ended.
fn write_ends<W: Write>(
    alloc: Global,
    programs: &Programs,
    statuses: &[Status],
    writer: &mut W,
) -> Result<(), CommandError>
    requires { length statuses.now ≤ length programs.now.processes }
    ensures text { OnOk result (Appends (W.contents writer.old) (W.contents writer.new) (ends_text programs.now statuses.now)) }
    ensures error { IfErr result (λ e. (e ≡ CommandError.NoMemory) ⊎ (e ≡ CommandError.CannotWrite)) }
{
    let mut text = String::new(alloc);
    push_ends(&mut text, programs, statuses)?;
    write_answer(writer, text.as_bytes())
}
