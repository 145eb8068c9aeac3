//! What the store of a process held, as a manager that starts anew is told it.

ghost use Rattle.std.specs.Prelude.{◌≡◌, map};
ghost use Rattle.om_member.specs.Handed.{AreTaken};
ghost use Rattle.om_take_up.specs.TakenUp.{IsTakenUp};

use om_interval::Pid;
use om_manager::{OutputError, RecordError};
use om_member::{HandedOutput, ManagerAccess, hand_all, tell_all};
use om_process::PendingRow;
use std::alloc::Global;
use thiserror::Error;

/// Why a manager did not take all that the store of a process held.
#[derive(Clone, Copy, Debug, PartialEq, Eq, Error)]
pub enum TakeUpFault {
    /// It refused a row.
    #[error("{0}")]
    Row(RecordError),
    /// It refused an output.
    #[error("{0}")]
    Output(OutputError),
}

impl From<RecordError> for TakeUpFault {
    ghost use Rattle.om_take_up.specs.declared.taking.TakeUpFault.TheVariants.{Row};

    ghost from_gives = { λ e fault. fault ≡ Row e };

    fn from(e: RecordError) -> TakeUpFault {
        TakeUpFault::Row(e)
    }
}

impl From<OutputError> for TakeUpFault {
    ghost use Rattle.om_take_up.specs.declared.taking.TakeUpFault.TheVariants.{Output};

    ghost from_gives = { λ e fault. fault ≡ Output e };

    fn from(e: OutputError) -> TakeUpFault {
        TakeUpFault::Output(e)
    }
}

/// Tells a manager what the store of a process held: the rows of its records in order, and then its outputs in order.
///
/// Refused with `Row` at the first row that the manager refuses, and with `Output` at the first output; it has taken what stands before.
pub fn take_up<O: ManagerAccess, M: HandedOutput>(
    access: &mut O,
    alloc: Global,
    pid: Pid,
    round: u32,
    rows: &[PendingRow],
    outputs: &[M],
) -> Result<(), TakeUpFault>
    requires { AreTaken O.Takes pid (map M.made outputs.now) }
    ensures { IsTakenUp (O.state access.old) round pid rows.now (map M.made outputs.now) result (O.state access.new) }
{
    let (_, end) = tell_all(access, alloc, pid, round, rows);
    end?;
    hand_all(access, alloc, pid, round, outputs)?;
    Ok(())
}
