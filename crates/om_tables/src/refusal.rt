//! Statements are run, and what the database answers where it refuses one is handed on as it is. Nothing but a statement, a
//! row that is read and want of memory makes a refusal.
ghost use Rattle.std.specs.Prelude.{◌≡◌, false, IsTrue, IfOk, IfErr, OnOk};
ghost use Rattle.sqlite.specs.Held.{state};
ghost use Rattle.sqlite.specs.Order.{column};
ghost use Rattle.sqlite.specs.State.{HasCleanDisk, ExecutesInside, FailsToQuery, KeepsCounts, Shown, Shows, Survives, CommitsShowing};
ghost use Rattle.sqlite.specs.Steps.{FailsToCommit};
ghost use Rattle.sqlite.specs.Values.{bound};
ghost use Rattle.om_tables.specs.steps.Answers.{answered};
ghost use Rattle.om_tables.specs.steps.Statements.{IsSameReference};

use sqlite::types::{FromSql, ValueRef};
use sqlite::{Alter, Connection, Error, ErrorCode, Row, Transaction};
use std::alloc::{AllocError, AllocFailed};
use std::fmt;

/// What a database answered where it refused a statement, or that memory ran out as an answer was taken.
#[derive(Clone, Copy, Debug, PartialEq, Eq)]
pub struct Refusal {
    error: Error,
}

impl Refusal {
    /// Returns the database's error.
    pub fn error(&self) -> Error
        ensures { result ≡ self.now.error }
    {
        self.error
    }
}

impl fmt::Display for Refusal {
    fn fmt<W: fmt::Write>(&self, f: &mut fmt::Formatter<W>) -> fmt::Result {
        write!(f, "{}", self.error)
    }
}

impl From<AllocError> for Refusal {
    ghost use Rattle.std.specs.Prelude.{◌≡◌};
    ghost use Rattle.om_tables.specs.Refusals.{out_of_memory};

    ghost from_gives = { λ _ e. e ≡ out_of_memory };

    fn from(_: AllocError) -> Refusal {
        Refusal {
            error: Error::SqliteFailure(ErrorCode::OutOfMemory),
        }
    }
}

impl<T: Drop> From<AllocFailed<T>> for Refusal {
    ghost use Rattle.std.specs.Prelude.{◌≡◌};
    ghost use Rattle.om_tables.specs.Refusals.{out_of_memory};

    ghost from_gives = { λ _ e. e ≡ out_of_memory };

    fn from(_: AllocFailed<T>) -> Refusal {
        Refusal {
            error: Error::SqliteFailure(ErrorCode::OutOfMemory),
        }
    }
}

// Runs a statement inside a transaction.
pub(crate) fn execute<S: Alter>(
    tx: &mut Transaction<'_, S>,
    sql: &str,
    params: &[ValueRef<'_>],
) -> Result<usize, Refusal>
    ensures same_reference { IsSameReference tx.old.conn.ghost_name tx.new.conn.ghost_name }
    ensures ended { (state S.Store tx.old.conn.now).in_transaction ≡ false → tx.new.conn.now ≡ tx.old.conn.now }
    ensures runs { HasCleanDisk (state S.Store tx.new.conn.now) → IsTrue (state S.Store tx.old.conn.now).in_transaction
        → ExecutesInside 0 sql.now (bound params.now) (state S.Store tx.old.conn.now) (state S.Store tx.new.conn.now) (answered result) }
    ensures survives { Survives (state S.Store tx.old.conn.now) (state S.Store tx.new.conn.now) (λ _. ⊥) }
{
    match tx.execute(sql, params) {
        Ok(count) => Ok(count),
        Err(error) => Err(Refusal { error }),
    }
}

// Commits a transaction.
pub(crate) fn commit<S: Alter>(tx: Transaction<'_, S>) -> Result<(), Refusal>
    ensures ended { tx.exit.0.now.in_transaction ≡ false }
    ensures ok { HasCleanDisk (state S.Store tx.exit.0.now)
        → OnOk result (IsTrue (state S.Store tx.entry.conn.now).in_transaction
        × Shows (state S.Store tx.entry.conn.now) (state S.Store tx.exit.0.now) (state S.Store tx.entry.conn.now).now
        (state S.Store tx.entry.conn.now).now false) }
    ensures err { HasCleanDisk (state S.Store tx.exit.0.now)
        → IfErr result (λ r. FailsToCommit (state S.Store tx.entry.conn.now) (state S.Store tx.exit.0.now) r.error) }
    ensures survives { Survives (state S.Store tx.entry.conn.now) (state S.Store tx.exit.0.now)
        (λ db. db ≡ (state S.Store tx.entry.conn.now).now.trees) }
{
    match tx.commit() {
        Ok(()) => Ok(()),
        Err(error) => Err(Refusal { error }),
    }
}

// Returns all rows of a query.
pub(crate) fn query_all<S: Alter>(
    conn: &mut Connection<S>,
    sql: &str,
    params: &[ValueRef<'_>],
) -> Result<Vec<Row>, Refusal>
    ensures ok { HasCleanDisk (state S.Store conn.new) → IfOk result (λ rows.
        Shown sql.now (bound params.now) (state S.Store conn.old) (state S.Store conn.new) rows.items) }
    ensures err { HasCleanDisk (state S.Store conn.new) → IfErr result (λ r.
        FailsToQuery sql.now (bound params.now) (state S.Store conn.old) (state S.Store conn.new) r.error) }
    ensures mode { conn.old.in_transaction ≡ false → conn.new.in_transaction ≡ false }
    ensures survives { Survives (state S.Store conn.old) (state S.Store conn.new)
        (CommitsShowing sql.now (bound params.now) (state S.Store conn.old)) }
{
    match conn.query_all(sql, params) {
        Ok(rows) => Ok(rows),
        Err(error) => Err(Refusal { error }),
    }
}

// Returns what a column of a row reads as.
pub(crate) fn read<T: FromSql>(row: &Row, at: usize) -> Result<T, Refusal>
    ensures { IfOk result (T.FromSql.reads_as (column row.now at)) }
{
    match row.get(at) {
        Ok(read) => Ok(read),
        Err(error) => Err(Refusal { error }),
    }
}
