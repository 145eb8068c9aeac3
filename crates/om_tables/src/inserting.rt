//! Records are put.
ghost use Rattle.std.specs.Prelude.{◌+◌, ◌≤◌, [], ◌∷◌, length};
ghost use Rattle.om_tables.specs.steps.Statements.{Performs, Transacts, IsIdle, IsSameReference};
ghost use Rattle.om_stable.specs.Content.{with_receipts, with_checkpoint, bytes_of};
ghost use Rattle.om_stable.specs.declared.stable.TheConstants.{INTERVALS};
ghost use Rattle.std.specs.FinMap as finite;
ghost use Rattle.sqlite.specs.Held.{state};

use crate::refusal::{Refusal, commit, execute};
use sqlite::{Alter, Connection, Transaction, params};

// How many receipts one statement inserts at most.
const PER_STATEMENT: usize = 4;

fn insert_receipt<S: Alter>(
    tx: &mut Transaction<'_, S>,
    x: u32,
    body: &[u8],
) -> Result<usize, Refusal>
    ensures same_reference { IsSameReference tx.old.conn.ghost_name tx.new.conn.ghost_name }
    ensures performs { Performs (λ c. record c { receipts = finite.insert c.receipts x body.now })
        (state S.Store tx.old.conn.now) (state S.Store tx.new.conn.now) result }
{
    execute(
        tx,
        "INSERT INTO receipts (x, body) VALUES (?1, ?2)",
        params![x, body],
    )
}

pub(crate) fn insert_checkpoint<S: Alter>(
    tx: &mut Transaction<'_, S>,
    x: u32,
    body: &[u8],
) -> Result<usize, Refusal>
    ensures same_reference { IsSameReference tx.old.conn.ghost_name tx.new.conn.ghost_name }
    ensures performs { Performs (λ c. with_checkpoint c x body.now)
        (state S.Store tx.old.conn.now) (state S.Store tx.new.conn.now) result }
{
    execute(
        tx,
        "INSERT INTO checkpoints (x, body) VALUES (?1, ?2)",
        params![x, body],
    )
}

fn insert_each<S: Alter>(
    tx: &mut Transaction<'_, S>,
    first: u32,
    recs: &[Vec<u8>],
) -> Result<(), Refusal>
    requires { first + length recs.now ≤ INTERVALS }
    ensures same_reference { IsSameReference tx.old.conn.ghost_name tx.new.conn.ghost_name }
    ensures performs { Performs (λ c. with_receipts c first (bytes_of recs.now))
        (state S.Store tx.old.conn.now) (state S.Store tx.new.conn.now) result }
{
    for (i, body) in recs.iter().enumerate() {
        insert_receipt(tx, first + i as u32, body)?;
    }
    Ok(())
}

// Inserts them by one statement, which costs half of what four do.
fn insert_four<S: Alter>(
    tx: &mut Transaction<'_, S>,
    first: u32,
    a: &[u8],
    b: &[u8],
    c: &[u8],
    d: &[u8],
) -> Result<usize, Refusal>
    requires { first + 4 ≤ INTERVALS }
    ensures same_reference { IsSameReference tx.old.conn.ghost_name tx.new.conn.ghost_name }
    ensures performs { Performs (λ k. with_receipts k first (a.now ∷ b.now ∷ c.now ∷ d.now ∷ []))
        (state S.Store tx.old.conn.now) (state S.Store tx.new.conn.now) result }
{
    execute(
        tx,
        "INSERT INTO receipts (x, body) VALUES (?1, ?2), (?3, ?4), (?5, ?6), (?7, ?8)",
        params![first, a, first + 1, b, first + 2, c, first + 3, d],
    )
}

// Inserts a few receipts: four by one statement, others one by one.
fn insert_few<S: Alter>(
    tx: &mut Transaction<'_, S>,
    first: u32,
    recs: &[Vec<u8>],
) -> Result<(), Refusal>
    requires { first + length recs.now ≤ INTERVALS }
    ensures same_reference { IsSameReference tx.old.conn.ghost_name tx.new.conn.ghost_name }
    ensures performs { Performs (λ c. with_receipts c first (bytes_of recs.now))
        (state S.Store tx.old.conn.now) (state S.Store tx.new.conn.now) result }
{
    let [a, b, c, d] = recs else {
        return insert_each(tx, first, recs);
    };
    insert_four(tx, first, a, b, c, d)?;
    Ok(())
}

pub(crate) fn insert_receipts<S: Alter>(
    tx: &mut Transaction<'_, S>,
    first: u32,
    recs: &[Vec<u8>],
) -> Result<(), Refusal>
    requires { first + length recs.now ≤ INTERVALS }
    ensures same_reference { IsSameReference tx.old.conn.ghost_name tx.new.conn.ghost_name }
    ensures performs { Performs (λ c. with_receipts c first (bytes_of recs.now))
        (state S.Store tx.old.conn.now) (state S.Store tx.new.conn.now) result }
{
    let mut at = 0;
    while at < recs.len() {
        let end = recs.len().min(at + PER_STATEMENT);
        insert_few(tx, first + at as u32, &recs[at..end])?;
        at = end;
    }
    Ok(())
}

// Puts receipts from interval `first` on, all or none.
pub(crate) fn put_receipts<S: Alter>(
    conn: &mut Connection<S>,
    first: u32,
    recs: &[Vec<u8>],
) -> Result<(), Refusal>
    requires fits { first + length recs.now ≤ INTERVALS }
    requires idle { IsIdle (state S.Store conn.old) }
    ensures idle { IsIdle (state S.Store conn.new) }
    ensures transacts { Transacts (λ c. with_receipts c first (bytes_of recs.now))
        (state S.Store conn.old) (state S.Store conn.new) result }
{
    let mut tx = conn.transaction();
    insert_receipts(&mut tx, first, recs)?;
    commit(tx)
}

// Puts the checkpoint of interval `x`, or nothing.
pub(crate) fn put_checkpoint<S: Alter>(
    conn: &mut Connection<S>,
    x: u32,
    body: &[u8],
) -> Result<(), Refusal>
    requires idle { IsIdle (state S.Store conn.old) }
    ensures idle { IsIdle (state S.Store conn.new) }
    ensures transacts { Transacts (λ c. with_checkpoint c x body.now) (state S.Store conn.old) (state S.Store conn.new) result }
{
    let mut tx = conn.transaction();
    insert_checkpoint(&mut tx, x, body)?;
    commit(tx)
}
