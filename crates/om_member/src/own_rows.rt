//! Pending rows of a process, as the manager is told them.

ghost use Rattle.std.specs.Prelude.{◌≡◌};
ghost use Rattle.om_member.specs.Told.{row_for};

use om_interval::Pid;
use om_process::PendingRow;
use om_recover::{Row, RowKind, RowList};

/// Pending rows of a process, to be told to the manager.
#[derive(Clone, Copy)]
pub struct OwnRows<'a> {
    /// The process.
    pub pid: Pid,
    /// The rows, in order.
    pub rows: &'a [PendingRow],
}

impl RowList for OwnRows<'_> {
    ghost use Rattle.om_member.specs.Told.{rows_for};

    ghost rows = { λ own. rows_for own.pid own.rows.now };

    fn len(&self) -> usize {
        self.rows.len()
    }

    fn row(&self, place: usize) -> Row {
        row_of(self.pid, &self.rows[place])
    }
}

/// Returns a pending row of a process, as the manager is told it.
pub fn row_of(pid: Pid, row: &PendingRow) -> Row
    ensures { result ≡ row_for pid row.now }
{
    Row {
        kind: if row.ckpt {
            RowKind::Checkpoint
        } else {
            RowKind::Log
        },
        pid,
        interval: row.x,
        vec: row.vec,
        got: row.got,
    }
}
