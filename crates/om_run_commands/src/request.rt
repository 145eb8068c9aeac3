//! The request `run`: a cluster file is read once, and its cluster is run as it is asked for.

ghost use Rattle.std.specs.Prelude.{◌≡◌, ◌≤◌, ℕ, List, IsTrue, length, IfSome, IfErr, IfOk};
ghost use Rattle.std.specs.Io.KnownBytes.{Appends, Keeps};
ghost use Rattle.om_run_commands.specs.Modes.{IsAnswerIn, IsErrorIn, IsFollowing, IsPartIn, IsPartOfScriptIn, IsRunIn, IsSilentIn};
ghost use Rattle.om_run_commands.specs.Run.{IsByKind};
ghost use Rattle.om_run_commands.specs.steps.Modes.{IsErrorOfScriptIn};

use crate::check::{run_checked, run_with_witness};
use crate::cluster_script::ClusterScript;
use crate::context::RunContext;
use crate::followed::run_followed;
use crate::followed_raw::run_followed_raw;
use crate::mode::RunMode;
use crate::random_kills::RandomKills;
use crate::recorded::run_recorded;
use crate::run::{run, run_raw};
use om_commands::{BytesForm, CommandError, read_input};
use om_process::Status;
use om_runner::Opener;
use std::alloc::{AllocError, Global};
use std::io::{Read, Write};
use std::sync::Wait;
use std::thread::Threads;
use std::time::Clock;

/// Reads a cluster file whole, has the context make ready what its run needs, and runs its cluster with a thread for each process
/// over stores that `opener` makes. A worker takes at most so many `turns`. Then what each process put out, with its bytes in the
/// form, and how each ended is written; how each ended is answered too, by process, and the context learns it. What else comes about
/// is by the mode.
///
/// - `Check`: plays, in one thread, the run without failures in which each process receives what it received in its threads, and
///   writes the text of that run, to the byte. Refused at last with `Unlike` where the threads' outputs or statuses are not
///   those of that run, or there is none.
/// - `Witness`: the same, and before the text that run is written to the context's file, as a script of `sim`.
/// - `Record`: what the threads did is written to the context's file, as a script of `sim` with comments; what they did until a
///   run was refused too, if it can be.
/// - `Follow`: writes each output as soon as it is released, the lines of a process in order and each once, and at the end how each
///   process ended. Where the run is refused, what was released by then is written; less where memory ran out or the writer refused.
/// - `Raw`: writes only the bytes that the process of this name put out, one output behind the other. Refused with `NoSuchProcess`
///   where there is none of this name, before anything is made ready.
/// - `FollowRaw`: the same bytes, each output as soon as it is released. Where the run is refused, those that were released by then.
///
/// Refused, nothing is written but with `Follow` and `FollowRaw`, unless it was the writer that refused. A file that is refused has nothing made
/// ready.
pub fn run_file<
    R: Threads + Wait + Clock + Sync,
    O: Opener<R> + Sync,
    C: RunContext,
    I: Read,
    W: Write + Drop,
>(
    rt: &R,
    alloc: Global,
    mode: RunMode<'_>,
    form: BytesForm,
    turns: u64,
    opener: &O,
    context: &mut C,
    reader: &mut I,
    writer: W,
) -> (Result<Vec<Status>, CommandError>, W)
    ensures text { IfSome (I.remaining reader.old) (λ bytes. IfOk result.0 (λ statuses. (text : List ℕ)
        × IsRunIn mode.entry form ((store : O.Store) → IsTrue (O.Store.is_clean store)) statuses.items bytes text
        × Appends (W.contents writer) (W.contents result.1) text)) }
    ensures error { IfSome (I.remaining reader.old) (λ bytes. IfErr result.0 (IsErrorIn mode.entry bytes)) }
    ensures silent { IsSilentIn mode.entry result.0 (W.contents writer) (W.contents result.1) }
    ensures partly { IsFollowing mode.entry → IfSome (I.remaining reader.old) (λ bytes. IfErr result.0 (λ error. IsByKind error
        (IsPartIn mode.entry form ((store : O.Store) → IsTrue (O.Store.is_clean store)) bytes (W.contents writer) (W.contents result.1))
        (Keeps (W.contents writer) (W.contents result.1)))) }
{
    match read_input(
        alloc,
        reader,
        ClusterScript::new(alloc, mode.writes_script()),
    ) {
        Ok(script) => run_read(
            rt, alloc, mode, form, turns, opener, context, script, writer,
        ),
        Err(error) => (Err(error), writer),
    }
}

// Runs the cluster of a script that was read, with kills in place of its own where the context has some drawn.
fn run_read<R: Threads + Wait + Clock + Sync, O: Opener<R> + Sync, C: RunContext, W: Write + Drop>(
    rt: &R,
    alloc: Global,
    mode: RunMode<'_>,
    form: BytesForm,
    turns: u64,
    opener: &O,
    context: &mut C,
    script: ClusterScript,
    writer: W,
) -> (Result<Vec<Status>, CommandError>, W)
    ensures text { IfOk result.0 (λ statuses. (text : List ℕ)
        × IsAnswerIn mode.entry form ((store : O.Store) → IsTrue (O.Store.is_clean store)) statuses.items script text
        × Appends (W.contents writer) (W.contents result.1) text) }
    ensures error { IfErr result.0 (IsErrorOfScriptIn mode.entry script) }
    ensures silent { IsSilentIn mode.entry result.0 (W.contents writer) (W.contents result.1) }
    ensures partly { IsFollowing mode.entry → IfErr result.0 (λ error. IsByKind error
        (IsPartOfScriptIn mode.entry form ((store : O.Store) → IsTrue (O.Store.is_clean store)) script (W.contents writer) (W.contents result.1))
        (Keeps (W.contents writer) (W.contents result.1))) }
{
    let mut script = script;
    if draw_kills(alloc, context.random_kills(), &mut script).is_err() {
        drop(script);
        return (Err(CommandError::NoMemory), writer);
    }
    let told = run_script(
        rt, alloc, mode, form, turns, opener, context, &script, writer,
    );
    drop(script);
    told
}

// Has a script have kills that are drawn in place of its own, where any are and there is a process.
fn draw_kills(
    alloc: Global,
    random_kills: Option<RandomKills>,
    script: &mut ClusterScript,
) -> Result<(), AllocError>
    ensures { script.new ≡ record script.old { kills = script.new.kills } }
{
    let Some(random_kills) = random_kills else {
        return Ok(());
    };
    let n = script.programs().n();
    if n > 0 {
        script.set_kills(random_kills.of(alloc, n)?);
    }
    Ok(())
}

// Runs the cluster of a script, for which the context makes ready, and which has a process, and the one that is asked for, or is
// refused.
fn run_script<
    R: Threads + Wait + Clock + Sync,
    O: Opener<R> + Sync,
    C: RunContext,
    W: Write + Drop,
>(
    rt: &R,
    alloc: Global,
    mode: RunMode<'_>,
    form: BytesForm,
    turns: u64,
    opener: &O,
    context: &mut C,
    script: &ClusterScript,
    writer: W,
) -> (Result<Vec<Status>, CommandError>, W)
    ensures text { IfOk result.0 (λ statuses. (text : List ℕ)
        × IsAnswerIn mode.entry form ((store : O.Store) → IsTrue (O.Store.is_clean store)) statuses.items script.now text
        × Appends (W.contents writer) (W.contents result.1) text) }
    ensures error { IfErr result.0 (IsErrorOfScriptIn mode.entry script.now) }
    ensures silent { IsSilentIn mode.entry result.0 (W.contents writer) (W.contents result.1) }
    ensures partly { IsFollowing mode.entry → IfErr result.0 (λ error. IsByKind error
        (IsPartOfScriptIn mode.entry form ((store : O.Store) → IsTrue (O.Store.is_clean store)) script.now (W.contents writer) (W.contents result.1))
        (Keeps (W.contents writer) (W.contents result.1))) }
{
    if script.programs().n() == 0 {
        return (Err(CommandError::EmptyScript), writer);
    }
    if mode.lacks(script.programs()) {
        return (Err(CommandError::NoSuchProcess), writer);
    }
    if let Err(error) = context.begin(script) {
        return (Err(error), writer);
    }
    let (outcome, writer) = run_in(
        rt, alloc, mode, form, turns, opener, context, script, writer,
    );
    tell_end(context, script, &outcome);
    (outcome, writer)
}

// Has the context learn how its run ended.
fn tell_end<C: RunContext>(
    context: &mut C,
    script: &ClusterScript,
    outcome: &Result<Vec<Status>, CommandError>,
) {
    match outcome {
        Ok(statuses) => context.end(script, Ok(statuses.as_slice())),
        Err(error) => context.end(script, Err(*error)),
    }
}

// Runs the cluster of a script by the mode.
fn run_in<R: Threads + Wait + Clock + Sync, O: Opener<R> + Sync, C: RunContext, W: Write + Drop>(
    rt: &R,
    alloc: Global,
    mode: RunMode<'_>,
    form: BytesForm,
    turns: u64,
    opener: &O,
    context: &mut C,
    script: &ClusterScript,
    writer: W,
) -> (Result<Vec<Status>, CommandError>, W)
    requires { 1 ≤ length script.now.cluster.processes }
    ensures text { IfOk result.0 (λ statuses. (text : List ℕ)
        × IsAnswerIn mode.entry form ((store : O.Store) → IsTrue (O.Store.is_clean store)) statuses.items script.now text
        × Appends (W.contents writer) (W.contents result.1) text) }
    ensures error { IfErr result.0 (IsErrorOfScriptIn mode.entry script.now) }
    ensures silent { IsSilentIn mode.entry result.0 (W.contents writer) (W.contents result.1) }
    ensures partly { IsFollowing mode.entry → IfErr result.0 (λ error. IsByKind error
        (IsPartOfScriptIn mode.entry form ((store : O.Store) → IsTrue (O.Store.is_clean store)) script.now (W.contents writer) (W.contents result.1))
        (Keeps (W.contents writer) (W.contents result.1))) }
{
    let mut writer = writer;
    let to = &mut writer;
    match mode {
        RunMode::Plain => {
            let outcome = run(rt, alloc, form, turns, opener, script, to);
            (outcome, writer)
        }
        RunMode::Check => {
            let outcome = run_checked(rt, alloc, form, turns, opener, script, to);
            (outcome, writer)
        }
        RunMode::Witness => {
            let outcome = run_with_witness(rt, alloc, form, turns, opener, context, script, to);
            (outcome, writer)
        }
        RunMode::Record => {
            let outcome = run_recorded(rt, alloc, form, turns, opener, context, script, to);
            (outcome, writer)
        }
        RunMode::Follow => run_followed(rt, alloc, form, turns, opener, script, writer),
        RunMode::Raw(name) => {
            let outcome = run_raw(rt, alloc, name, turns, opener, script, to);
            (outcome, writer)
        }
        RunMode::FollowRaw(name) => run_followed_raw(
            rt, alloc, name, turns, opener, script, writer,
        ),
    }
}
