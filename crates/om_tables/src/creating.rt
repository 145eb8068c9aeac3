//! The two tables are made.
ghost use Rattle.std.specs.Prelude.{◌≡◌, IsTrue, OnOk, OnErr};
ghost use Rattle.om_tables.specs.Store.{LeavesCommitted};
ghost use Rattle.om_tables.specs.steps.Statements.{Follows, Makes, HasNoTables, HasReceipts, HoldsNothing, IsIdle, IsSameReference};
ghost use Rattle.sqlite.specs.Held.{state};
ghost use Rattle.sqlite.specs.State.{HasCleanDisk};

use crate::refusal::{Refusal, commit, execute};
use sqlite::{Alter, Connection, Transaction};

fn create_receipts<S: Alter>(tx: &mut Transaction<'_, S>) -> Result<usize, Refusal>
    ensures same_reference { IsSameReference tx.old.conn.ghost_name tx.new.conn.ghost_name }
    ensures makes { Makes HasNoTables HasReceipts
        (state S.Store tx.old.conn.now) (state S.Store tx.new.conn.now) result }
    ensures clean { HasCleanDisk (state S.Store tx.new.conn.now) → HasCleanDisk (state S.Store tx.old.conn.now) }
{
    execute(
        tx,
        "CREATE TABLE receipts (x INTEGER PRIMARY KEY, body BLOB NOT NULL)",
        &[],
    )
}

fn create_checkpoints<S: Alter>(tx: &mut Transaction<'_, S>) -> Result<usize, Refusal>
    ensures same_reference { IsSameReference tx.old.conn.ghost_name tx.new.conn.ghost_name }
    ensures makes { Makes HasReceipts HoldsNothing
        (state S.Store tx.old.conn.now) (state S.Store tx.new.conn.now) result }
    ensures clean { HasCleanDisk (state S.Store tx.new.conn.now) → HasCleanDisk (state S.Store tx.old.conn.now) }
{
    execute(
        tx,
        "CREATE TABLE checkpoints (x INTEGER PRIMARY KEY, body BLOB NOT NULL)",
        &[],
    )
}

pub(crate) fn create_both<S: Alter>(tx: &mut Transaction<'_, S>) -> Result<(), Refusal>
    ensures same_reference { IsSameReference tx.old.conn.ghost_name tx.new.conn.ghost_name }
    ensures makes { Makes HasNoTables HoldsNothing
        (state S.Store tx.old.conn.now) (state S.Store tx.new.conn.now) result }
    ensures clean { HasCleanDisk (state S.Store tx.new.conn.now) → HasCleanDisk (state S.Store tx.old.conn.now) }
{
    create_receipts(tx)?;
    create_checkpoints(tx)?;
    Ok(())
}

// Makes both tables, or none.
pub(crate) fn create_tables<S: Alter>(conn: &mut Connection<S>) -> Result<(), Refusal>
    requires idle { IsIdle (state S.Store conn.old) }
    ensures idle { IsIdle (state S.Store conn.new) }
    ensures made { HasCleanDisk (state S.Store conn.new) → HasNoTables (state S.Store conn.old).now
        → OnOk result (HoldsNothing (state S.Store conn.new).now) }
    ensures settled { HasCleanDisk (state S.Store conn.new)
        → OnOk result ((state S.Store conn.new).committed ≡ (state S.Store conn.new).now) }
    ensures refused { HasCleanDisk (state S.Store conn.new) → IsTrue (state S.Store conn.new).is_open
        → OnErr result (LeavesCommitted (state S.Store conn.old) (state S.Store conn.new)) }
    ensures follows { Follows (state S.Store conn.old) (state S.Store conn.new) }
{
    let mut tx = conn.transaction();
    create_both(&mut tx)?;
    commit(tx)
}
