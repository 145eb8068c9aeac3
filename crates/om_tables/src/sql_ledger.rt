//! The store over five tables, as a `Ledger`.
ghost use Rattle.std.specs.Prelude.{◌≡◌, ◌≢◌, ◌⊎◌, codes, false, IsTrue, Some, ◌↔◌, IfOk, IfErr, OnErr, OnOk};
ghost use Rattle.om_tables.specs.Tables.{no_schema};
ghost use Rattle.om_tables.specs.Store.{content_in, HasFiveTables, HasTable};
ghost use Rattle.sqlite.specs.Held.{state};

use crate::error::TablesError;
use crate::further::create_five;
use crate::sql_stable::SqlStable;
use om_stable::{Ledger, LedgerTable, Stable, StoreError, WriteBatch};
use sqlite::{Alter, Connection};
use sqlite_schema::schema::{Schema, Table};
use std::alloc::Global;
use std::marker::Model;

// How many tables it has.
const TABLES: usize = 5;

/// One process's store in five tables of a database, to be taken up again after a crash of the whole program: those of
/// `SqlStable`, and `outputs`, `senders` and `about`. It does not say that it is clean, since a file that an earlier run left
/// may hold anything. It answers Fault where the database refused a statement for another cause than memory or a number that
/// is taken.
#[derive(Drop)]
pub struct SqlLedger<S: Alter> {
    store: SqlStable<S>,
}

impl<S: Alter> Model for SqlLedger<S> {
    ghost use Rattle.om_tables.specs.Store.{Tables};
    ghost use Rattle.om_tables.specs.steps.Codes.{tables_code};

    ghost Value = { Tables S };

    ghost coded = { tables_code S.code };

    ghost view = { λ s. s.store };
}

impl<S: Alter> SqlLedger<S> {
    /// Takes a store up again: makes its five tables in a database that has nothing, and takes one that has these five and
    /// nothing beside them, in any order. A refusal hands the connection back: NoTables, where it has others, or Refused, with what
    /// the database answered.
    pub fn take_up(
        _alloc: Global,
        mut conn: Connection<S>,
    ) -> Result<SqlLedger<S>, (TablesError, Connection<S>)>
        requires { conn.in_transaction ≡ false }
        ensures count { IfOk result (λ s. s.failures ≡ 0) }
        ensures tables { OnOk result (((state S.Store conn).now.schema ≡ no_schema) ⊎ HasFiveTables (state S.Store conn).now.schema) }
        ensures same { IfOk result (λ s. (state S.Store conn).now.schema ≢ no_schema → s.connection ≡ conn) }
        ensures others { IfErr result (λ e. (e.0 ≡ TablesError.NoTables)
            ↔ (((state S.Store conn).now.schema ≢ no_schema) × (HasFiveTables (state S.Store conn).now.schema → ⊥))) }
        ensures untouched { IfErr result (λ e. e.0 ≡ TablesError.NoTables → e.1 ≡ conn) }
        ensures never_present { IfErr result (λ e. e.0 ≢ TablesError.Present) }
        ensures idle { IfErr result (λ e. e.1.in_transaction ≡ false) }
    {
        if has_nothing(conn.schema()) {
            return match create_five(&mut conn) {
                Ok(()) => Ok(SqlLedger {
                    store: SqlStable::over(conn),
                }),
                Err(refusal) => Err((TablesError::Refused(refusal), conn)),
            };
        }
        SqlLedger::adopt(conn)
    }

    /// Takes a store as it is, where a database has its five tables and nothing beside them, in any order. A refusal hands the
    /// connection back: NoTables.
    pub fn adopt(conn: Connection<S>) -> Result<SqlLedger<S>, (TablesError, Connection<S>)>
        requires { conn.in_transaction ≡ false }
        ensures taken { IfOk result (λ s. (s.connection ≡ conn) × (s.failures ≡ 0)) }
        ensures tables { OnOk result (HasFiveTables (state S.Store conn).now.schema) }
        ensures refused { IfErr result (λ e. e ≡ (TablesError.NoTables, conn)) }
        ensures others { OnErr result (HasFiveTables (state S.Store conn).now.schema → ⊥) }
    {
        if !has_five_tables(conn.schema()) {
            return Err((TablesError::NoTables, conn));
        }
        Ok(SqlLedger {
            store: SqlStable::over(conn),
        })
    }

    /// Returns the connection, with its tables.
    pub fn into_connection(self) -> Connection<S>
        ensures { result ≡ self.connection }
    {
        self.store.into_connection()
    }
}

// Returns whether a database has no table, index or view.
fn has_nothing(schema: &Schema) -> bool
    ensures { IsTrue result ↔ (schema.now ≡ no_schema) }
{
    if !schema.tables.is_empty() || !schema.indexes.is_empty() {
        return false;
    }
    schema.views.is_empty()
}

// Returns whether a database has the five tables of a ledger, and nothing beside them.
fn has_five_tables(schema: &Schema) -> bool
    ensures { IsTrue result ↔ HasFiveTables schema.now }
{
    if !schema.indexes.is_empty() || !schema.views.is_empty() {
        return false;
    }
    let tables = schema.tables.as_slice();
    if tables.len() != TABLES || !has_records(tables) {
        return false;
    }
    has_further(tables)
}

// Returns whether the tables of records are among them.
fn has_records(tables: &[Table]) -> bool
    ensures { IsTrue result ↔ (HasTable tables.now (codes "receipts") × HasTable tables.now (codes "checkpoints")) }
{
    has_table(tables, b"receipts") && has_table(tables, b"checkpoints")
}

// Returns whether the further tables of a ledger are among them.
fn has_further(tables: &[Table]) -> bool
    ensures { IsTrue result ↔ (HasTable tables.now (codes "outputs") × HasTable tables.now (codes "senders") × HasTable tables.now (codes "about")) }
{
    if !has_table(tables, b"outputs") {
        return false;
    }
    has_table(tables, b"senders") && has_table(tables, b"about")
}

// Returns whether one of the tables has this name.
fn has_table(tables: &[Table], name: &[u8]) -> bool
    ensures { IsTrue result ↔ HasTable tables.now name.now }
{
    tables.iter().any(|table| table.name.as_slice() == name)
}

impl<S: Alter + Drop> Stable for SqlLedger<S> {
    ghost use Rattle.om_stable.specs.declared.error.StoreError.TheVariants.{Fault};
    ghost use Rattle.om_tables.specs.Refusals.{TellsRefusal};

    ghost content = { λ s. content_in (state S.Store s.connection).now };

    ghost failed = { λ s. s.failures };

    ghost is_clean = { λ _. false };

    ghost IsSound = { λ _. Unit {0} };

    // The count rises at a fault alone, and what a call tells is what the database answered.
    ghost call_gives = { λ old error new. (error ≢ Some Fault → new.failures ≡ old.failures) × TellsRefusal new.last error };

    fn put_receipts(
        &mut self,
        alloc: Global,
        first: u32,
        recs: &[Vec<u8>],
    ) -> Result<(), StoreError> {
        self.store.put_receipts(alloc, first, recs)
    }

    fn put_checkpoint(&mut self, alloc: Global, x: u32, bytes: &[u8]) -> Result<(), StoreError> {
        self.store.put_checkpoint(alloc, x, bytes)
    }

    fn effective(&mut self, alloc: Global, x: u32) -> Result<Option<(u32, Vec<u8>)>, StoreError> {
        self.store.effective(alloc, x)
    }

    fn receipts(
        &mut self,
        alloc: Global,
        after: u32,
        to: u32,
    ) -> Result<Vec<(u32, Vec<u8>)>, StoreError> {
        self.store.receipts(alloc, after, to)
    }

    fn cut(&mut self, alloc: Global, r: u32) -> Result<(), StoreError> {
        self.store.cut(alloc, r)
    }

    fn prune(&mut self, alloc: Global, c: u32) -> Result<(), StoreError> {
        self.store.prune(alloc, c)
    }

    fn failures(&self) -> u64 {
        self.store.failures()
    }
}

impl<S: Alter + Drop> Ledger for SqlLedger<S> {
    ghost use Rattle.std.specs.Prelude.{true, refl};
    ghost use Rattle.om_stable.specs.Ledger.{blank};

    // Nothing is said of what they hold, as it is never clean.
    ghost ledger = { λ _. blank };

    ghost keeps = { λ _. true };

    ghost stays = { λ old new error clean gives. refl };

    fn put_in(
        &mut self,
        _alloc: Global,
        table: LedgerTable,
        first: u64,
        recs: &[Vec<u8>],
    ) -> Result<(), StoreError> {
        self.store.put_rows(table, first, recs)
    }

    fn all_in(
        &mut self,
        alloc: Global,
        table: LedgerTable,
    ) -> Result<Vec<(u64, Vec<u8>)>, StoreError> {
        self.store.all_in(alloc, table)
    }

    fn put_batch(&mut self, _alloc: Global, batch: &WriteBatch<'_>) -> Result<(), StoreError> {
        self.store.write_five(batch)
    }
}
