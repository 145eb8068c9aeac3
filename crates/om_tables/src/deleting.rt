//! Records are removed.
ghost use Rattle.std.specs.Prelude.{nat_le, nat_lt};
ghost use Rattle.std.specs.FinMap as finite;
ghost use Rattle.om_tables.specs.steps.Statements.{Performs, Transacts, IsIdle, IsSameReference};
ghost use Rattle.om_stable.specs.Content.{kept_by_cut, kept_by_prune};
ghost use Rattle.sqlite.specs.Held.{state};

use crate::refusal::{Refusal, commit, execute};
use sqlite::{Alter, Connection, Transaction, params};

fn cut_receipts<S: Alter>(tx: &mut Transaction<'_, S>, r: u32) -> Result<usize, Refusal>
    ensures same_reference { IsSameReference tx.old.conn.ghost_name tx.new.conn.ghost_name }
    ensures performs { Performs (λ k. record k { receipts = finite.retain_keys k.receipts (λ x. nat_le x r) })
        (state S.Store tx.old.conn.now) (state S.Store tx.new.conn.now) result }
{
    execute(tx, "DELETE FROM receipts WHERE x > ?1", params![r])
}

fn cut_checkpoints<S: Alter>(tx: &mut Transaction<'_, S>, r: u32) -> Result<usize, Refusal>
    ensures same_reference { IsSameReference tx.old.conn.ghost_name tx.new.conn.ghost_name }
    ensures performs { Performs (λ k. record k { checkpoints = finite.retain_keys k.checkpoints (λ x. nat_le x r) })
        (state S.Store tx.old.conn.now) (state S.Store tx.new.conn.now) result }
{
    execute(tx, "DELETE FROM checkpoints WHERE x > ?1", params![r])
}

fn prune_receipts<S: Alter>(tx: &mut Transaction<'_, S>, c: u32) -> Result<usize, Refusal>
    ensures same_reference { IsSameReference tx.old.conn.ghost_name tx.new.conn.ghost_name }
    ensures performs { Performs (λ k. record k { receipts = finite.retain_keys k.receipts (λ x. nat_lt c x) })
        (state S.Store tx.old.conn.now) (state S.Store tx.new.conn.now) result }
{
    execute(tx, "DELETE FROM receipts WHERE x <= ?1", params![c])
}

fn prune_checkpoints<S: Alter>(tx: &mut Transaction<'_, S>, c: u32) -> Result<usize, Refusal>
    ensures same_reference { IsSameReference tx.old.conn.ghost_name tx.new.conn.ghost_name }
    ensures performs { Performs (λ k. record k { checkpoints = finite.retain_keys k.checkpoints (λ x. nat_le c x) })
        (state S.Store tx.old.conn.now) (state S.Store tx.new.conn.now) result }
{
    execute(tx, "DELETE FROM checkpoints WHERE x < ?1", params![c])
}

fn cut_both<S: Alter>(tx: &mut Transaction<'_, S>, r: u32) -> Result<(), Refusal>
    ensures same_reference { IsSameReference tx.old.conn.ghost_name tx.new.conn.ghost_name }
    ensures performs { Performs (λ k. kept_by_cut k r)
        (state S.Store tx.old.conn.now) (state S.Store tx.new.conn.now) result }
{
    cut_receipts(tx, r)?;
    cut_checkpoints(tx, r)?;
    Ok(())
}

// Removes what stands above `r`, or nothing.
pub(crate) fn cut<S: Alter>(conn: &mut Connection<S>, r: u32) -> Result<(), Refusal>
    requires idle { IsIdle (state S.Store conn.old) }
    ensures idle { IsIdle (state S.Store conn.new) }
    ensures transacts { Transacts (λ c. kept_by_cut c r) (state S.Store conn.old) (state S.Store conn.new) result }
{
    let mut tx = conn.transaction();
    cut_both(&mut tx, r)?;
    commit(tx)
}

pub(crate) fn prune_both<S: Alter>(tx: &mut Transaction<'_, S>, at: u32) -> Result<(), Refusal>
    ensures same_reference { IsSameReference tx.old.conn.ghost_name tx.new.conn.ghost_name }
    ensures performs { Performs (λ k. kept_by_prune k at)
        (state S.Store tx.old.conn.now) (state S.Store tx.new.conn.now) result }
{
    prune_receipts(tx, at)?;
    prune_checkpoints(tx, at)?;
    Ok(())
}

// Removes what a prune to `at` removes, or nothing.
pub(crate) fn prune<S: Alter>(conn: &mut Connection<S>, at: u32) -> Result<(), Refusal>
    requires idle { IsIdle (state S.Store conn.old) }
    ensures idle { IsIdle (state S.Store conn.new) }
    ensures transacts { Transacts (λ c. kept_by_prune c at) (state S.Store conn.old) (state S.Store conn.new) result }
{
    let mut tx = conn.transaction();
    prune_both(&mut tx, at)?;
    commit(tx)
}
