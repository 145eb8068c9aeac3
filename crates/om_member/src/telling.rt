//! Rows that the manager is told.

ghost use Rattle.std.specs.Prelude.{◌≡◌, drop};
ghost use Rattle.om_process.specs.Core.{with_pending};
ghost use Rattle.om_member.specs.Keeps.{Keeps};
ghost use Rattle.om_member.specs.Told.{IsTold, IsToldAtOnce, IsToldUpTo};

use crate::manager_access::ManagerAccess;
use crate::own_rows::{OwnRows, row_of};
use om_interval::Pid;
use om_manager::RecordError;
use om_process::{PendingRow, ProcCore};
use om_recover::Note;
use std::alloc::Global;

// Offers a row to the manager.
fn tell<O: ManagerAccess>(
    access: &mut O,
    alloc: Global,
    pid: Pid,
    round: u32,
    row: &PendingRow,
) -> Result<Note, RecordError>
    ensures { IsTold (O.state access.old) round pid row.now result (O.state access.new) }
{
    access.note(alloc, round, row_of(pid, row))
}

/// Offers rows of a process to the manager, in order, up to the first that is refused, and says how many were not.
pub fn tell_all<O: ManagerAccess>(
    access: &mut O,
    alloc: Global,
    pid: Pid,
    round: u32,
    rows: &[PendingRow],
) -> (usize, Result<(), RecordError>)
    ensures { IsToldUpTo (O.state access.old) round pid rows.now result.0 result.1 (O.state access.new) }
{
    for count in 0..rows.len() {
        if let Err(fault) = tell(access, alloc, pid, round, &rows[count]) {
            return (count, Err(fault));
        }
    }
    (rows.len(), Ok(()))
}

/// Offers the pending rows of a process to the manager, in order, up to the first that is refused. Says how many were not
/// refused; those are pending no longer.
pub fn note<O: ManagerAccess>(
    core: &mut ProcCore,
    access: &mut O,
    alloc: Global,
    pid: Pid,
) -> (usize, Result<(), RecordError>)
    ensures told { IsToldUpTo (O.state access.old) core.old.round pid core.old.pending result.0 result.1 (O.state access.new) }
    ensures keeps { Keeps (O.state access.old) (O.state access.new) }
    ensures core { core.new ≡ with_pending core.old (drop result.0 core.old.pending) }
{
    // The look tells what holds of every manager.
    let _ = access.manager();
    let (count, end) = tell_all(access, alloc, pid, core.round(), core.pending());
    core.noted(count);
    (count, end)
}

/// Offers the pending rows of a process to the manager at once, in order, up to the first that is refused. Says how many were not
/// refused; those are pending no longer.
pub fn note_at_once<O: ManagerAccess>(
    core: &mut ProcCore,
    access: &mut O,
    alloc: Global,
    pid: Pid,
) -> (usize, Result<(), RecordError>)
    ensures told { IsToldAtOnce (O.state access.old) core.old.round pid core.old.pending result.0 result.1 (O.state access.new) }
    ensures keeps { Keeps (O.state access.old) (O.state access.new) }
    ensures core { core.new ≡ with_pending core.old (drop result.0 core.old.pending) }
{
    let rows = core.pending();
    let (count, end) = access.note_rows(alloc, core.round(), &OwnRows { pid, rows });
    core.noted(count);
    (count, end)
}
