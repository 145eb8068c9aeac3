//! Outputs that the manager is handed.

ghost use Rattle.std.specs.Prelude.{◌<◌, length, map};
ghost use Rattle.om_manager.specs.State.{held_by, process_count};
ghost use Rattle.om_member.specs.Keeps.{Keeps};
ghost use Rattle.om_member.specs.Handed.{AreHandedUpTo, AreTaken, IsHanded, MayHandIn, held_as, outputs_from};

use crate::handed::HandedOutput;
use crate::manager_access::ManagerAccess;
use om_interval::Pid;
use om_manager::{OutputError, OutputNote};
use om_process::ProcCore;
use std::alloc::Global;

// Hands an output in.
fn hand_one<O: ManagerAccess, M: HandedOutput>(
    access: &mut O,
    alloc: Global,
    pid: Pid,
    round: u32,
    output: &M,
) -> Result<OutputNote, OutputError>
    requires { O.Takes pid (M.made output.now).seq (held_as (M.made output.now)) }
    ensures { IsHanded (O.state access.old) round pid (M.made output.now) result (O.state access.new) }
{
    let (interval, number) = (output.interval(), output.number());
    access.note_output(alloc, pid, round, interval, number, output.bytes())
}

/// Hands outputs of a process in, in order, up to the first that is refused.
pub fn hand_all<O: ManagerAccess, M: HandedOutput>(
    access: &mut O,
    alloc: Global,
    pid: Pid,
    round: u32,
    outputs: &[M],
) -> Result<(), OutputError>
    requires { AreTaken O.Takes pid (map M.made outputs.now) }
    ensures { AreHandedUpTo (O.state access.old) round pid (map M.made outputs.now) result (O.state access.new) }
{
    for i in 0..outputs.len() {
        hand_one(access, alloc, pid, round, &outputs[i])?;
    }
    Ok(())
}

/// Hands in the outputs of a process that the manager has not, in order, up to the first that is refused.
pub fn hand_in<O: ManagerAccess>(
    core: &ProcCore,
    access: &mut O,
    alloc: Global,
    pid: Pid,
) -> Result<(), OutputError>
    requires known { pid < process_count (O.state access.old) }
    requires taken { MayHandIn O.Takes pid core.now }
    ensures keeps { Keeps (O.state access.old) (O.state access.new) }
    ensures handed { AreHandedUpTo (O.state access.old) core.now.round pid
        (outputs_from core.now (length (held_by (O.state access.old) pid))) result (O.state access.new) }
{
    let next = access.manager().next_output(pid);
    hand_all(access, alloc, pid, core.round(), core.outputs_from(next))
}
