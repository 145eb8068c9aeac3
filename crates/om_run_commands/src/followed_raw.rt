//! The command `run --follow --raw`: a cluster of which the bytes of one process are written as they are released.

ghost use Rattle.std.specs.Prelude.{◌≡◌, ◌≤◌, ℕ, IfErr, IfOk, IsTrue, List, length};
ghost use Rattle.std.specs.Io.KnownBytes.{Appends, Keeps};
ghost use Rattle.om_run_commands.specs.Follow.{IsBytesAnswer, IsFollowedRawAnswer, IsPartOf, IsRawPartOf, bytes_told};
ghost use Rattle.om_run_commands.specs.Run.{IsByKind};
ghost use Rattle.om_run_commands.specs.steps.Scripts.{IsErrorOfRawScript, IsErrorOfScript};

use crate::cluster_script::ClusterScript;
use crate::followed::error_of;
use crate::run::{OpenGate, config_of};
use om_commands::{CommandError, write_answer};
use om_interval::Pid;
use om_manager::Output;
use om_process::Status;
use om_runner::{Follower, Opener, run_and_follow};
use std::alloc::Global;
use std::io::Write;
use std::sync::Wait;
use std::thread::Threads;
use std::time::Clock;

// Writes the bytes of each output of one process that it is told of.
#[derive(Drop)]
struct Bytes<W: Write + Drop> {
    pid: Pid,
    writer: W,
}

impl<W: Write + Drop> Follower for Bytes<W> {
    ghost Tells = { λ before after told. (after.pid ≡ before.pid)
        × Appends (W.contents before.writer) (W.contents after.writer) (bytes_told before.pid told) };

    fn tell(&mut self, pid: Pid, output: &Output) -> bool {
        if pid != self.pid {
            return true;
        }
        write_answer(&mut self.writer, output.bytes.as_slice()).is_ok()
    }

    fn pause(&mut self) -> bool {
        true
    }
}

// Runs as `run_followed` does, but writes of the outputs those of the process of a name alone, and of these the bytes alone. Refused
// where there is no such process.
pub(crate) fn run_followed_raw<
    R: Threads + Wait + Clock + Sync,
    O: Opener<R> + Sync,
    W: Write + Drop,
>(
    rt: &R,
    alloc: Global,
    name: &str,
    turns: u64,
    opener: &O,
    script: &ClusterScript,
    writer: W,
) -> (Result<Vec<Status>, CommandError>, W)
    requires { 1 ≤ length script.now.cluster.processes }
    ensures text { IfOk result.0 (λ statuses. (text : List ℕ)
        × IsFollowedRawAnswer name.now ((store : O.Store) → IsTrue (O.Store.is_clean store)) statuses.items script.now text
        × Appends (W.contents writer) (W.contents result.1) text) }
    ensures error { IfErr result.0 (IsErrorOfRawScript name.now script.now) }
    ensures partly { IfErr result.0 (λ error. IsByKind error
        (IsRawPartOf name.now ((store : O.Store) → IsTrue (O.Store.is_clean store)) script.now (W.contents writer) (W.contents result.1))
        (Keeps (W.contents writer) (W.contents result.1))) }
{
    match script.programs().place(name) {
        Some(p) => run_followed_bytes(rt, alloc, Pid::at(p), turns, opener, script, writer),
        None => (Err(CommandError::NoSuchProcess), writer),
    }
}

// Runs as `run_followed_raw` does, by the number of the process.
fn run_followed_bytes<R: Threads + Wait + Clock + Sync, O: Opener<R> + Sync, W: Write + Drop>(
    rt: &R,
    alloc: Global,
    pid: Pid,
    turns: u64,
    opener: &O,
    script: &ClusterScript,
    writer: W,
) -> (Result<Vec<Status>, CommandError>, W)
    requires { 1 ≤ length script.now.cluster.processes }
    ensures text { IfOk result.0 (λ statuses. (text : List ℕ)
        × IsBytesAnswer pid ((store : O.Store) → IsTrue (O.Store.is_clean store)) statuses.items script.now text
        × Appends (W.contents writer) (W.contents result.1) text) }
    ensures error { IfErr result.0 (IsErrorOfScript script.now) }
    ensures partly { IfErr result.0 (λ error. IsByKind error
        (IsPartOf (bytes_told pid) ((store : O.Store) → IsTrue (O.Store.is_clean store)) script.now (W.contents writer) (W.contents result.1))
        (Keeps (W.contents writer) (W.contents result.1))) }
{
    let Ok(config) = config_of(alloc, turns, script) else {
        return (Err(CommandError::NoMemory), writer);
    };
    let bytes = Bytes { pid, writer };
    let (ended, bytes) = run_and_follow(rt, alloc, &config, &OpenGate, opener, bytes);
    let Bytes { writer, .. } = bytes;
    match ended {
        Ok(report) => (Ok(report.statuses), writer),
        Err(fault) => (Err(error_of(fault, false)), writer),
    }
}
