//! Batches of records are written.
ghost use Rattle.om_tables.specs.steps.Statements.{Performs, Transacts, IsIdle, IsSameReference, IsWithinIntervals};
ghost use Rattle.om_stable.specs.Batches.{pruned_to, with_new, written};
ghost use Rattle.om_stable.specs.Content.{with_receipts, bytes_of};
ghost use Rattle.sqlite.specs.Held.{state};

use crate::deleting::prune_both;
use crate::inserting::{insert_checkpoint, insert_receipts};
use crate::refusal::{Refusal, commit};
use om_stable::{NewCheckpoint, WriteBatch};
use sqlite::{Alter, Connection, Transaction};

fn insert_new<S: Alter>(
    tx: &mut Transaction<'_, S>,
    checkpoint: Option<NewCheckpoint<'_>>,
) -> Result<(), Refusal>
    ensures same_reference { IsSameReference tx.old.conn.ghost_name tx.new.conn.ghost_name }
    ensures performs { Performs (λ c. with_new c checkpoint.entry)
        (state S.Store tx.old.conn.now) (state S.Store tx.new.conn.now) result }
{
    if let Some(new) = checkpoint {
        insert_checkpoint(tx, new.x, new.bytes)?;
    }
    Ok(())
}

fn prune_to<S: Alter>(tx: &mut Transaction<'_, S>, to: Option<u32>) -> Result<(), Refusal>
    ensures same_reference { IsSameReference tx.old.conn.ghost_name tx.new.conn.ghost_name }
    ensures performs { Performs (λ c. pruned_to c to)
        (state S.Store tx.old.conn.now) (state S.Store tx.new.conn.now) result }
{
    if let Some(at) = to {
        prune_both(tx, at)?;
    }
    Ok(())
}

fn insert_both<S: Alter>(tx: &mut Transaction<'_, S>, batch: &WriteBatch<'_>) -> Result<(), Refusal>
    requires { IsWithinIntervals batch.now }
    ensures same_reference { IsSameReference tx.old.conn.ghost_name tx.new.conn.ghost_name }
    ensures performs { Performs (λ c. with_new (with_receipts c batch.now.first (bytes_of batch.now.receipts.now)) batch.now.checkpoint)
        (state S.Store tx.old.conn.now) (state S.Store tx.new.conn.now) result }
{
    insert_receipts(tx, batch.first, batch.receipts)?;
    insert_new(tx, batch.checkpoint)?;
    Ok(())
}

pub(crate) fn write_records<S: Alter>(
    tx: &mut Transaction<'_, S>,
    batch: &WriteBatch<'_>,
) -> Result<(), Refusal>
    requires { IsWithinIntervals batch.now }
    ensures same_reference { IsSameReference tx.old.conn.ghost_name tx.new.conn.ghost_name }
    ensures performs { Performs (written batch.now) (state S.Store tx.old.conn.now) (state S.Store tx.new.conn.now) result }
{
    insert_both(tx, batch)?;
    prune_to(tx, batch.prune_to)?;
    Ok(())
}

// Writes the records of a batch, or nothing of it.
pub(crate) fn write<S: Alter>(
    conn: &mut Connection<S>,
    batch: &WriteBatch<'_>,
) -> Result<(), Refusal>
    requires fits { IsWithinIntervals batch.now }
    requires idle { IsIdle (state S.Store conn.old) }
    ensures idle { IsIdle (state S.Store conn.new) }
    ensures transacts { Transacts (written batch.now) (state S.Store conn.old) (state S.Store conn.new) result }
{
    let mut tx = conn.transaction();
    write_records(&mut tx, batch)?;
    commit(tx)
}
