//! The run that is asked for.

ghost use Rattle.std.specs.Prelude.{◌≡◌, ℕ, List, IsTrue, IfSome, IfErr, IfOk};
ghost use Rattle.std.specs.Io.KnownBytes.{Appends, Keeps};
ghost use Rattle.om_commands.specs.Command.{IsSilent};
ghost use Rattle.om_run_commands.specs.Modes.{IsFollowing, IsPartIn};
ghost use Rattle.om_run_commands.specs.Run.{IsByKind};
ghost use Rattle.om_run_request.specs.Asked.{IsAskedRun, IsErrorOfAsked, form_of, mode_of};

use crate::modes::{form_of, mode_of};
use om_arguments::Running;
use om_commands::CommandError;
use om_process::Status;
use om_run_commands::{RunContext, run_file};
use om_runner::Opener;
use std::alloc::Global;
use std::io::{Read, Write};
use std::sync::Wait;
use std::thread::Threads;
use std::time::Clock;

/// Runs the cluster of a cluster file as it is asked for, over stores that `opener` makes, as [`run_file`] does: with `--check` or
/// `--witness` it is compared with the run without failures that it comes to, with `--record` what threads did is written, with `--follow`
/// outputs are written as they are released, with `--raw` the bytes of one process alone; bytes in the form that is asked for, and a worker
/// takes at most as many turns as are asked for. Answers how each process ended.
///
/// Refused, nothing is written but with `--follow`, unless it was the writer that refused; with `--follow` what was released by then.
pub fn run_asked<
    R: Threads + Wait + Clock + Sync,
    O: Opener<R> + Sync,
    C: RunContext,
    I: Read,
    W: Write + Drop,
>(
    rt: &R,
    alloc: Global,
    running: Running<'_>,
    opener: &O,
    context: &mut C,
    reader: &mut I,
    writer: W,
) -> (Result<Vec<Status>, CommandError>, W)
    ensures text { IfSome (I.remaining reader.old) (λ bytes. IfOk result.0 (λ statuses. (text : List ℕ)
        × IsAskedRun running.entry ((store : O.Store) → IsTrue (O.Store.is_clean store)) statuses.items bytes text
        × Appends (W.contents writer) (W.contents result.1) text)) }
    ensures error { IfSome (I.remaining reader.old) (λ bytes. IfErr result.0 (IsErrorOfAsked running.entry bytes)) }
    ensures silent { (IsFollowing (mode_of running.entry.checking) → ⊥)
        → IfErr result.0 (λ error. IsSilent error (Keeps (W.contents writer) (W.contents result.1))) }
    ensures partly { IsFollowing (mode_of running.entry.checking) → IfSome (I.remaining reader.old) (λ bytes. IfErr result.0 (λ error. IsByKind error
        (IsPartIn (mode_of running.entry.checking) (form_of running.entry.form) ((store : O.Store) → IsTrue (O.Store.is_clean store)) bytes
        (W.contents writer) (W.contents result.1))
        (Keeps (W.contents writer) (W.contents result.1)))) }
{
    let mode = mode_of(running.checking);
    let form = form_of(running.form);
    run_file(
        rt,
        alloc,
        mode,
        form,
        running.turns,
        opener,
        context,
        reader,
        writer,
    )
}
