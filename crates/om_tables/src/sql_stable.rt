//! The store over tables, as a `Stable`.
ghost use Rattle.std.specs.Prelude.{◌≡◌, ◌≢◌, ◌≤◌, ◌+◌, length, ℕ, [], ◌∷◌, map, codes, false, IsTrue, Some, None, ◌↔◌, is_ok, IsSome, IfOk, IfErr, IfSome, IsErrOf, OnOk, OnErr};
ghost use Rattle.std.specs.Result.{result_err};
ghost use Rattle.std.specs.FinMap as map;
ghost use Rattle.om_stable.specs.declared.error.StoreError.TheVariants.{Fault};
ghost use Rattle.om_stable.specs.Batches.{IsHeld, written};
ghost use Rattle.om_stable.specs.Content.{IsFree, IsTaken};
ghost use Rattle.om_stable.specs.declared.ledger.TheConstants.{LEDGER_NUMBERS};
ghost use Rattle.om_stable.specs.declared.stable.TheConstants.{INTERVALS};
ghost use Rattle.om_tables.specs.Refusals.{TellsRefusal, out_of_memory};
ghost use Rattle.om_tables.specs.Tables.{no_schema};
ghost use Rattle.om_tables.specs.Store.{content_in, IsFormed, HasBothTables, LeavesCommitted, is_sure};
ghost use Rattle.om_tables.specs.steps.Statements.{CountsFault, Same, StaysSure, IsWithinIntervals};
ghost use Rattle.sqlite.specs.Held.{state};

use crate::creating::create_tables;
use crate::error::TablesError;
use crate::refusal::Refusal;
use crate::{deleting, further, inserting, reading, writing};
use om_stable::{Ledger, LedgerTable, NewCheckpoint, Stable, StoreError, WriteBatch};
use sqlite::{Alter, Connection, Error, ErrorCode};
use sqlite_schema::schema::{Constraint, Schema, Table};
use std::alloc::Global;
use std::marker::Model;

/// One process's store in two tables of a database, `receipts` and `checkpoints`. What it holds is known as long as the
/// connection is open and its disk has returned what was written. It answers Fault where the database refused a
/// statement for another cause than memory.
#[derive(Drop)]
pub struct SqlStable<S: Alter> {
    conn: Connection<S>,
    failures: u64,
    last: Option<Refusal>,
}

impl<S: Alter> Model for SqlStable<S> {
    ghost use Rattle.std.specs.Prelude.{◌≡◌, false};
    ghost use Rattle.om_tables.specs.Store.{Tables};
    ghost use Rattle.om_tables.specs.steps.Codes.{tables_code};

    ghost Value = { Tables S };

    ghost coded = { tables_code S.code };

    ghost view = { λ s. record { connection = s.conn; failures = s.failures; last = s.last } };

    ghost invariant = { λ s. s.conn.in_transaction ≡ false };
}

impl<S: Alter> SqlStable<S> {
    /// Makes the tables in a database that has nothing. A refusal hands the connection back: Present, where there is a
    /// table, an index or a view, or Refused, with what the database answered. Then the database stands as it was, or as it was last
    /// committed.
    pub fn create(
        _alloc: Global,
        mut conn: Connection<S>,
    ) -> Result<SqlStable<S>, (TablesError, Connection<S>)>
        requires { conn.in_transaction ≡ false }
        ensures sound { IfOk result (λ s. IsTrue (is_sure (state S.Store s.connection)) → IsFormed (state S.Store s.connection)) }
        ensures empty { IfOk result (λ s. IsTrue (is_sure (state S.Store s.connection))
            → content_in (state S.Store s.connection).now ≡ record { receipts = map.empty; checkpoints = map.empty }) }
        ensures clean { IfOk result (λ s. IsTrue (is_sure (state S.Store s.connection)) → IsTrue (is_sure (state S.Store conn))) }
        ensures count { IfOk result (λ s. s.failures ≡ 0) }
        ensures none { OnOk result ((state S.Store conn).now.schema ≡ no_schema) }
        ensures present { IfErr result (λ e. (e.0 ≡ TablesError.Present) ↔ ((state S.Store conn).now.schema ≢ no_schema)) }
        ensures untouched { IfErr result (λ e. e.0 ≡ TablesError.Present → e.1 ≡ conn) }
        ensures undone { IfErr result (λ e. e.0 ≢ TablesError.Present → IsTrue (is_sure (state S.Store e.1))
            → LeavesCommitted (state S.Store conn) (state S.Store e.1)) }
        ensures other { IfErr result (λ e. e.0 ≢ TablesError.NoTables) }
        ensures idle { IfErr result (λ e. e.1.in_transaction ≡ false) }
    {
        let schema = conn.schema();
        if !schema.tables.is_empty() || !schema.indexes.is_empty() || !schema.views.is_empty() {
            return Err((TablesError::Present, conn));
        }
        match create_tables(&mut conn) {
            Ok(()) => Ok(SqlStable {
                conn,
                failures: 0,
                last: None,
            }),
            Err(refusal) => Err((TablesError::Refused(refusal), conn)),
        }
    }

    /// Takes a database that has the two tables. A refusal hands the connection back: NoTables.
    pub fn adopt(
        _alloc: Global,
        conn: Connection<S>,
    ) -> Result<SqlStable<S>, (TablesError, Connection<S>)>
        requires { conn.in_transaction ≡ false }
        ensures same { IfOk result (λ s. s.connection ≡ conn) }
        ensures count { IfOk result (λ s. s.failures ≡ 0) }
        ensures tables { OnOk result (HasBothTables (state S.Store conn).now.schema) }
        ensures refused { IfErr result (λ e. e ≡ (TablesError.NoTables, conn)) }
        ensures no_tables { OnErr result (HasBothTables (state S.Store conn).now.schema → ⊥) }
    {
        if !has_both_tables(conn.schema()) {
            return Err((TablesError::NoTables, conn));
        }
        Ok(SqlStable::over(conn))
    }

    /// Gives back the connection, with its tables.
    pub fn into_connection(self) -> Connection<S>
        ensures { result ≡ self.connection }
    {
        let SqlStable {
            conn,
            failures: _,
            last: _,
        } = self;
        conn
    }

    /// Returns what the database answered to the last statement of the last call that ran any, where it refused that.
    pub fn last_refusal(&self) -> Option<Refusal>
        ensures { result ≡ self.now.last }
    {
        self.last
    }

    // Returns a store over the connection, which has failed at nothing yet.
    pub(crate) fn over(conn: Connection<S>) -> SqlStable<S>
        requires { conn.in_transaction ≡ false }
        ensures connection { result.connection ≡ conn }
        ensures count { result.failures ≡ 0 }
    {
        SqlStable {
            conn,
            failures: 0,
            last: None,
        }
    }

    // Puts rows into a further table, all of them or none. A number that is taken answers Present.
    pub(crate) fn put_rows(
        &mut self,
        table: LedgerTable,
        first: u64,
        recs: &[Vec<u8>],
    ) -> Result<(), StoreError>
        requires { first + length recs.now ≤ LEDGER_NUMBERS }
        ensures tells { TellsRefusal self.new.last (result_err result) }
        ensures fault { CountsFault (result_err result) self.old.failures self.new.failures }
        ensures count { self.old.failures ≤ self.new.failures }
    {
        let put = further::put_rows(&mut self.conn, table, first, recs);
        put_told(&mut self.failures, &mut self.last, put)
    }

    // Returns the rows of a further table, ascending.
    pub(crate) fn all_in(
        &mut self,
        alloc: Global,
        table: LedgerTable,
    ) -> Result<Vec<(u64, Vec<u8>)>, StoreError>
        ensures never_present { result ≢ Err StoreError.Present }
        ensures tells { TellsRefusal self.new.last (result_err result) }
        ensures fault { CountsFault (result_err result) self.old.failures self.new.failures }
        ensures count { self.old.failures ≤ self.new.failures }
    {
        let found = further::all_in(&mut self.conn, alloc, table);
        told(&mut self.failures, &mut self.last, found)
    }

    // Writes a batch into all five tables, all of it or nothing. A number that is taken answers Present.
    pub(crate) fn write_five(&mut self, batch: &WriteBatch<'_>) -> Result<(), StoreError>
        requires receipts { IsWithinIntervals batch.now }
        requires outputs { batch.now.outputs.first + length batch.now.outputs.recs.now ≤ LEDGER_NUMBERS }
        requires senders { batch.now.senders.first + length batch.now.senders.recs.now ≤ LEDGER_NUMBERS }
        ensures tells { TellsRefusal self.new.last (result_err result) }
        ensures fault { CountsFault (result_err result) self.old.failures self.new.failures }
        ensures count { self.old.failures ≤ self.new.failures }
    {
        let written = further::write_five(&mut self.conn, batch);
        put_told(&mut self.failures, &mut self.last, written)
    }

    // Answers Present where one of the `count` intervals from `first` on has a receipt.
    fn check_receipts(&mut self, first: u32, count: usize) -> Result<(), StoreError>
        requires { first + count ≤ INTERVALS }
        ensures free { IsTrue (is_sure (state S.Store self.new.connection)) → IsFormed (state S.Store self.old.connection)
            → OnOk result (IsFree (content_in (state S.Store self.old.connection).now).receipts first count) }
        ensures present { IsTrue (is_sure (state S.Store self.new.connection)) → IsFormed (state S.Store self.old.connection)
            → IsErrOf result StoreError.Present → IsTaken (content_in (state S.Store self.old.connection).now).receipts first count }
        ensures same { IsTrue (is_sure (state S.Store self.new.connection)) → IsFormed (state S.Store self.old.connection)
            → Same (state S.Store self.old.connection) (state S.Store self.new.connection) }
        ensures clean { StaysSure (state S.Store self.old.connection) (state S.Store self.new.connection) }
        ensures tells { TellsRefusal self.new.last (result_err result) }
        ensures fault { CountsFault (result_err result) self.old.failures self.new.failures }
        ensures count { self.old.failures ≤ self.new.failures }
        ensures kept { result_err result ≢ Some Fault → self.new.failures ≡ self.old.failures }
    {
        let found = reading::has_any_receipt(&mut self.conn, first, count);
        if told(&mut self.failures, &mut self.last, found)? {
            return Err(StoreError::Present);
        }
        Ok(())
    }

    // Answers Present where `x` has a checkpoint.
    fn check_checkpoint(&mut self, x: u32) -> Result<(), StoreError>
        ensures free { IsTrue (is_sure (state S.Store self.new.connection)) → IsFormed (state S.Store self.old.connection)
            → OnOk result (map.get (content_in (state S.Store self.old.connection).now).checkpoints x ≡ None) }
        ensures present { IsTrue (is_sure (state S.Store self.new.connection)) → IsFormed (state S.Store self.old.connection)
            → IsErrOf result StoreError.Present → IsSome (map.get (content_in (state S.Store self.old.connection).now).checkpoints x) }
        ensures same { IsTrue (is_sure (state S.Store self.new.connection)) → IsFormed (state S.Store self.old.connection)
            → Same (state S.Store self.old.connection) (state S.Store self.new.connection) }
        ensures clean { StaysSure (state S.Store self.old.connection) (state S.Store self.new.connection) }
        ensures tells { TellsRefusal self.new.last (result_err result) }
        ensures fault { CountsFault (result_err result) self.old.failures self.new.failures }
        ensures count { self.old.failures ≤ self.new.failures }
        ensures kept { result_err result ≢ Some Fault → self.new.failures ≡ self.old.failures }
    {
        let found = reading::has_checkpoint(&mut self.conn, x);
        if told(&mut self.failures, &mut self.last, found)? {
            return Err(StoreError::Present);
        }
        Ok(())
    }

    // Answers Present where the checkpoint has the interval of another, if it is one.
    fn check_new(&mut self, checkpoint: Option<NewCheckpoint<'_>>) -> Result<(), StoreError>
        ensures free { IsTrue (is_sure (state S.Store self.new.connection)) → IsFormed (state S.Store self.old.connection)
            → OnOk result (IfSome checkpoint.entry (λ c. map.get (content_in (state S.Store self.old.connection).now).checkpoints c.x ≡ None)) }
        ensures present { IsTrue (is_sure (state S.Store self.new.connection)) → IsFormed (state S.Store self.old.connection)
            → IsErrOf result StoreError.Present → IsHeld (content_in (state S.Store self.old.connection).now) checkpoint.entry }
        ensures same { IsTrue (is_sure (state S.Store self.new.connection)) → IsFormed (state S.Store self.old.connection)
            → Same (state S.Store self.old.connection) (state S.Store self.new.connection) }
        ensures clean { StaysSure (state S.Store self.old.connection) (state S.Store self.new.connection) }
        ensures tells { TellsRefusal self.new.last (result_err result) }
        ensures fault { CountsFault (result_err result) self.old.failures self.new.failures }
        ensures count { self.old.failures ≤ self.new.failures }
        ensures kept { result_err result ≢ Some Fault → self.new.failures ≡ self.old.failures }
    {
        match checkpoint {
            Some(new) => self.check_checkpoint(new.x),
            None => Ok(()),
        }
    }

    // Writes the records of a batch, all of them or none.
    fn write(&mut self, batch: &WriteBatch<'_>) -> Result<(), StoreError>
        requires { IsWithinIntervals batch.now }
        ensures put { IsTrue (is_sure (state S.Store self.new.connection)) → IsFormed (state S.Store self.old.connection)
            → OnOk result (content_in (state S.Store self.new.connection).now ≡ written batch.now (content_in (state S.Store self.old.connection).now)) }
        ensures refused { IsTrue (is_sure (state S.Store self.new.connection)) → IsFormed (state S.Store self.old.connection)
            → OnErr result (content_in (state S.Store self.new.connection).now ≡ content_in (state S.Store self.old.connection).now) }
        ensures formed { IsTrue (is_sure (state S.Store self.new.connection)) → IsFormed (state S.Store self.old.connection)
            → IsFormed (state S.Store self.new.connection) }
        ensures clean { StaysSure (state S.Store self.old.connection) (state S.Store self.new.connection) }
        ensures never_present { result ≢ Err StoreError.Present }
        ensures tells { TellsRefusal self.new.last (result_err result) }
        ensures fault { CountsFault (result_err result) self.old.failures self.new.failures }
        ensures count { self.old.failures ≤ self.new.failures }
    {
        let done = writing::write(&mut self.conn, batch);
        told(&mut self.failures, &mut self.last, done)
    }
}

// Returns whether a database has the two tables of a store, and nothing beside them.
fn has_both_tables(schema: &Schema) -> bool
    ensures { IsTrue result ↔ HasBothTables schema.now }
{
    if !schema.indexes.is_empty() || !schema.views.is_empty() {
        return false;
    }
    are_receipts_and_checkpoints(schema.tables.as_slice())
}

fn are_receipts_and_checkpoints(tables: &[Table]) -> bool
    ensures { IsTrue result ↔ (map (λ t. t.name) tables.now ≡ codes "receipts" ∷ codes "checkpoints" ∷ []) }
{
    let [receipts, checkpoints] = tables else {
        return false;
    };
    if receipts.name.as_slice() != b"receipts".as_slice() {
        return false;
    }
    checkpoints.name.as_slice() == b"checkpoints".as_slice()
}

// Notes what a statement answered, and counts a refusal, except out of memory.
fn told<T>(
    failures: &mut u64,
    last: &mut Option<Refusal>,
    outcome: Result<T, Refusal>,
) -> Result<T, StoreError>
    ensures ok { IfOk result (λ x. outcome ≡ Ok x) }
    ensures err { is_ok result ≡ is_ok outcome }
    ensures last { last.new ≡ result_err outcome }
    ensures tells { TellsRefusal last.new (result_err result) }
    ensures never_present { result ≢ Err StoreError.Present }
    ensures memory { IsErrOf result StoreError.Memory ↔ (result_err outcome ≡ Some out_of_memory) }
    ensures fault { CountsFault (result_err result) failures.old failures.new }
    ensures count { failures.old ≤ failures.new }
    ensures kept { result_err result ≢ Some Fault → failures.new ≡ failures.old }
{
    match outcome {
        Ok(x) => {
            *last = None;
            Ok(x)
        }
        Err(refusal) => {
            *last = Some(refusal);
            if is_out_of_memory(refusal) {
                return Err(StoreError::Memory);
            }
            *failures = failures.saturating_add(1);
            Err(StoreError::Fault)
        }
    }
}

fn is_out_of_memory(refusal: Refusal) -> bool
    ensures { IsTrue result ↔ (refusal ≡ out_of_memory) }
{
    matches!(
        refusal.error(),
        Error::SqliteFailure(ErrorCode::OutOfMemory)
    )
}

// Notes what a statement answered, and counts a refusal, except out of memory and a number that is taken.
fn put_told(
    failures: &mut u64,
    last: &mut Option<Refusal>,
    outcome: Result<(), Refusal>,
) -> Result<(), StoreError>
    ensures ok { is_ok result ≡ is_ok outcome }
    ensures tells { TellsRefusal last.new (result_err result) }
    ensures last { last.new ≡ result_err outcome }
    ensures fault { CountsFault (result_err result) failures.old failures.new }
    ensures count { failures.old ≤ failures.new }
{
    if is_taken(&outcome) {
        *last = outcome.err();
        return Err(StoreError::Present);
    }
    told(failures, last, outcome)
}

// Returns whether a number that was to be put is taken.
fn is_taken(outcome: &Result<(), Refusal>) -> bool
    ensures { IsTrue result → is_ok outcome.now ≡ false }
{
    match outcome {
        Ok(()) => false,
        Err(refusal) => matches!(
            refusal.error(),
            Error::SqliteFailure(ErrorCode::ConstraintViolation(Constraint::PrimaryKey))
        ),
    }
}

impl<S: Alter + Drop> Stable for SqlStable<S> {
    ghost content = { λ s. content_in (state S.Store s.connection).now };

    ghost failed = { λ s. s.failures };

    ghost is_clean = { λ s. is_sure (state S.Store s.connection) };

    ghost IsSound = { λ s. IsFormed (state S.Store s.connection) };

    // The count rises at a fault alone, and what a call tells is what the database answered.
    ghost call_gives = { λ old error new. (error ≢ Some Fault → new.failures ≡ old.failures) × TellsRefusal new.last error };

    fn put_receipts(
        &mut self,
        _alloc: Global,
        first: u32,
        recs: &[Vec<u8>],
    ) -> Result<(), StoreError> {
        let found = reading::has_any_receipt(&mut self.conn, first, recs.len());
        if told(&mut self.failures, &mut self.last, found)? {
            return Err(StoreError::Present);
        }
        let put = inserting::put_receipts(&mut self.conn, first, recs);
        told(&mut self.failures, &mut self.last, put)
    }

    fn put_checkpoint(&mut self, _alloc: Global, x: u32, bytes: &[u8]) -> Result<(), StoreError> {
        let found = reading::has_checkpoint(&mut self.conn, x);
        if told(&mut self.failures, &mut self.last, found)? {
            return Err(StoreError::Present);
        }
        let put = inserting::put_checkpoint(&mut self.conn, x, bytes);
        told(&mut self.failures, &mut self.last, put)
    }

    fn effective(&mut self, _alloc: Global, x: u32) -> Result<Option<(u32, Vec<u8>)>, StoreError> {
        let found = reading::effective(&mut self.conn, x);
        told(&mut self.failures, &mut self.last, found)
    }

    fn receipts(
        &mut self,
        alloc: Global,
        after: u32,
        to: u32,
    ) -> Result<Vec<(u32, Vec<u8>)>, StoreError> {
        let found = reading::receipts(&mut self.conn, alloc, after, to);
        told(&mut self.failures, &mut self.last, found)
    }

    fn cut(&mut self, _alloc: Global, r: u32) -> Result<(), StoreError> {
        let done = deleting::cut(&mut self.conn, r);
        told(&mut self.failures, &mut self.last, done)
    }

    fn prune(&mut self, _alloc: Global, c: u32) -> Result<(), StoreError> {
        let done = deleting::prune(&mut self.conn, c);
        told(&mut self.failures, &mut self.last, done)
    }

    fn failures(&self) -> u64 {
        self.failures
    }
}

// It keeps nothing beside its records.
impl<S: Alter + Drop> Ledger for SqlStable<S> {
    ghost use Rattle.std.specs.Prelude.{false, refl};
    ghost use Rattle.om_stable.specs.Ledger.{blank};

    ghost ledger = { λ _. blank };

    ghost keeps = { λ _. false };

    ghost stays = { λ old new error clean gives. refl };

    fn put_in(
        &mut self,
        _alloc: Global,
        _table: LedgerTable,
        _first: u64,
        _recs: &[Vec<u8>],
    ) -> Result<(), StoreError> {
        Ok(())
    }

    fn all_in(
        &mut self,
        alloc: Global,
        _table: LedgerTable,
    ) -> Result<Vec<(u64, Vec<u8>)>, StoreError> {
        Ok(Vec::new(alloc))
    }

    fn put_batch(&mut self, _alloc: Global, batch: &WriteBatch<'_>) -> Result<(), StoreError> {
        self.check_receipts(batch.first, batch.receipts.len())?;
        self.check_new(batch.checkpoint)?;
        self.write(batch)
    }
}
