//! The program `omlog`: commands on message logs, checkpoints and recovery states of message-passing programs.
#![tactic(auto)]

use std::process::ExitCode;

fn main(rt: HostRuntime) -> ExitCode {
    om_program::run(&rt, &rt)
}
