//! How rows of a process are added that are noted at once.

ghost use Rattle.std.specs.Prelude.{◌≡◌, All, Ok, Err, length, MatchResult};
ghost use Rattle.om_recover.specs.Rows.{Rows, IsLawful};
ghost use Rattle.om_recover.specs.Recoverable.{IsRecoverable};
ghost use Rattle.om_recover.specs.Offered.{AreOfferedUpTo, offered};
ghost use Rattle.om_recover.specs.steps.Fresh.{AreAdded};
ghost use Rattle.om_recover.specs.declared.note.Note.{Note};

use crate::note::NoteError;
use crate::row::Row;
use crate::row_list::RowList;
use crate::rows::index::Index;
use crate::search::fresh::Fresh;
use om_interval::{DepVec, Pid};

/// What came of rows that were offered in order.
#[derive(Clone, Copy)]
pub struct AddedRows {
    /// How many were added or known, from the first on.
    pub count: usize,
    /// Why the next was refused, if it was.
    pub end: Result<(), NoteError>,
    /// What became stable above the state.
    pub fresh: Option<Fresh>,
}

/// Adds rows of a process in order, up to the first that is refused.
pub fn add_rows<L: RowList>(index: &mut Index, state: &DepVec, _pid: Pid, rows: &L) -> AddedRows
    requires of_one { All (λ row. row.pid ≡ _pid) (L.rows rows.now) }
    requires lawful { IsLawful (length state.now) index.old }
    requires state { IsRecoverable (length state.now) index.old state.now }
    ensures answer { AreOfferedUpTo (length state.now) index.old (L.rows rows.now) result.count result.end index.new }
    ensures added { AreAdded (length state.now) index.old index.new _pid state.now result.fresh }
{
    let mut fresh = None;
    let many = rows.len();
    for count in 0..many {
        let row = rows.row(count);
        if let Err(fault) = add_row(index, state, &row, &mut fresh) {
            return AddedRows {
                count,
                end: Err(fault),
                fresh,
            };
        }
    }
    AddedRows {
        count: many,
        end: Ok(()),
        fresh,
    }
}

// Adds a row, unless it is known.
fn add_row(
    index: &mut Index,
    state: &DepVec,
    row: &Row,
    fresh: &mut Option<Fresh>,
) -> Result<(), NoteError>
    requires { (before : Rows) × AreAdded (length state.now) before index.old row.now.pid state.now fresh.old }
    ensures answer { MatchResult result
        (λ _. (note : Note) × offered (length state.now) index.old row.now (Ok note) index.new)
        (λ fault. offered (length state.now) index.old row.now (Err fault) index.new) }
    ensures added { (before : Rows) → AreAdded (length state.now) before index.old row.now.pid state.now fresh.old
        → AreAdded (length state.now) before index.new row.now.pid state.now fresh.new }
{
    let x = row.interval;
    if let Some(answer) = index.answer(state.n(), row) {
        return match answer {
            Ok(_) => Ok(()),
            Err(fault) => Err(fault),
        };
    }
    let is_new = index.makes_stable(row);
    let Ok(()) = index.add(row) else {
        return Err(NoteError::Memory);
    };
    if !is_new {
        return Ok(());
    }
    if x <= state.get(row.pid) {
        return Ok(());
    }
    *fresh = Some(Fresh::with(*fresh, x));
    Ok(())
}
