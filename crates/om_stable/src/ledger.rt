//! Stores that keep what a later run needs beside their records.

ghost use Rattle.std.specs.Prelude.{◌≡◌, ◌≢◌, ℕ, ◌+◌, ◌≤◌, Bool, true, false, Option, length, IsTrue, IfOk, OnOk, OnErr, IsErrOf};
ghost use Rattle.std.specs.FinMap as map;
ghost use Rattle.om_stable.specs.declared.error.StoreError.{StoreError};
ghost use Rattle.om_stable.specs.Content.{IsFree, IsTaken, bytes_of, rows_of};
ghost use Rattle.om_stable.specs.Calls.{IsCleanCall, UsesStore};
ghost use Rattle.om_stable.specs.Batches.{Collides, HasRoom, HasTableRoom, entered, written};
ghost use Rattle.om_stable.specs.declared.stable.TheConstants.{INTERVALS};
ghost use Rattle.om_stable.specs.Ledger.{LedgerContent, in_table, with_rows};

use crate::batch::WriteBatch;
use crate::error::StoreError;
use crate::stable::Stable;
use std::alloc::Global;

/// How many numbers a table of a ledger has, from 0 on: those of a database's integers that are not negative.
pub const LEDGER_NUMBERS: u64 = 9_223_372_036_854_775_808;

/// A table that a ledger keeps beside its records.
#[derive(Clone, Copy, Debug, PartialEq, Eq)]
pub enum LedgerTable {
    /// Released outputs, by their numbers.
    Outputs,
    /// Senders of receipts, by how many receipts come before.
    Senders,
    /// What the store is of, at 0.
    About,
}

/// Records for a table of a ledger, at `first`, `first + 1`, ..
#[derive(Clone, Copy, Debug)]
pub struct LedgerRows<'a> {
    pub first: u64,
    pub recs: &'a [Vec<u8>],
}

/// A store that keeps beside its records what a run needs that takes it up after a crash of the whole program, or a store
/// that keeps nothing there and passes over what it is given.
///
/// What a call does is known where the store is clean as the call ends and was sound as it began, as with `Stable`.
pub trait Ledger: Stable {
    /// What its tables hold.
    ghost ledger: { Self → LedgerContent };

    /// Whether it keeps what is put into its tables.
    ghost keeps: { Self → Bool };

    /// Puts records into a table at `first`, `first + 1`, .., all of them or none. Refused as `put_receipts` is, with the
    /// store as it was: Present, Fault, Memory.
    fn put_in(
        &mut self,
        alloc: Global,
        table: LedgerTable,
        first: u64,
        recs: &[Vec<u8>],
    ) -> Result<(), StoreError>
        requires { first + length recs.now ≤ LEDGER_NUMBERS }
        ensures put { IsCleanCall Self.is_clean Self.IsSound self.old self.new → IsTrue (keeps self.old)
            → OnOk result (ledger self.new ≡ with_rows (ledger self.old) table first (bytes_of recs.now)) }
        ensures free { IsCleanCall Self.is_clean Self.IsSound self.old self.new → IsTrue (keeps self.old)
            → OnOk result (IsFree (in_table (ledger self.old) table) first (length recs.now)) }
        ensures present { IsCleanCall Self.is_clean Self.IsSound self.old self.new → IsErrOf result StoreError.Present
            → IsTaken (in_table (ledger self.old) table) first (length recs.now) }
        ensures passed { IsCleanCall Self.is_clean Self.IsSound self.old self.new → keeps self.old ≡ false
            → ledger self.new ≡ ledger self.old }
        ensures refused { IsCleanCall Self.is_clean Self.IsSound self.old self.new
            → OnErr result (ledger self.new ≡ ledger self.old) }
        ensures records { IsCleanCall Self.is_clean Self.IsSound self.old self.new
            → Self.content self.new ≡ Self.content self.old }
        ensures kind { keeps self.new ≡ keeps self.old }
        ensures call { UsesStore Self.failed Self.is_clean Self.IsSound self.old (IsErrOf result StoreError.Fault) self.new };

    /// Returns the records of a table, ascending.
    fn all_in(
        &mut self,
        alloc: Global,
        table: LedgerTable,
    ) -> Result<Vec<(u64, Vec<u8>)>, StoreError>
        ensures found { IsCleanCall Self.is_clean Self.IsSound self.old self.new
            → IfOk result (λ found. rows_of found.items ≡ map.entries (in_table (ledger self.old) table)) }
        ensures same { IsCleanCall Self.is_clean Self.IsSound self.old self.new → ledger self.new ≡ ledger self.old }
        ensures records { IsCleanCall Self.is_clean Self.IsSound self.old self.new
            → Self.content self.new ≡ Self.content self.old }
        ensures kind { keeps self.new ≡ keeps self.old }
        ensures never_present { result ≢ Err StoreError.Present }
        ensures call { UsesStore Self.failed Self.is_clean Self.IsSound self.old (IsErrOf result StoreError.Fault) self.new };

    /// Writes a batch in one transaction, all of it or nothing. Refused as `put_in` is, with the store as it was: Present,
    /// Fault, Memory.
    fn put_batch(&mut self, alloc: Global, batch: &WriteBatch<'_>) -> Result<(), StoreError>
        requires receipts { batch.now.first + length batch.now.receipts.now ≤ INTERVALS }
        requires outputs { batch.now.outputs.first + length batch.now.outputs.recs.now ≤ LEDGER_NUMBERS }
        requires senders { batch.now.senders.first + length batch.now.senders.recs.now ≤ LEDGER_NUMBERS }
        ensures put { IsCleanCall Self.is_clean Self.IsSound self.old self.new
            → OnOk result (Self.content self.new ≡ written batch.now (Self.content self.old)) }
        ensures put_in { IsCleanCall Self.is_clean Self.IsSound self.old self.new → IsTrue (keeps self.old)
            → OnOk result (ledger self.new ≡ entered batch.now (ledger self.old)) }
        ensures free { IsCleanCall Self.is_clean Self.IsSound self.old self.new
            → OnOk result (HasRoom batch.now (Self.content self.old)) }
        ensures free_in { IsCleanCall Self.is_clean Self.IsSound self.old self.new → IsTrue (keeps self.old)
            → OnOk result (HasTableRoom batch.now (ledger self.old)) }
        ensures present { IsCleanCall Self.is_clean Self.IsSound self.old self.new → IsErrOf result StoreError.Present
            → Collides batch.now (Self.content self.old) (ledger self.old) }
        ensures passed { IsCleanCall Self.is_clean Self.IsSound self.old self.new → keeps self.old ≡ false
            → ledger self.new ≡ ledger self.old }
        ensures refused { IsCleanCall Self.is_clean Self.IsSound self.old self.new
            → OnErr result (Self.content self.new ≡ Self.content self.old) }
        ensures refused_in { IsCleanCall Self.is_clean Self.IsSound self.old self.new
            → OnErr result (ledger self.new ≡ ledger self.old) }
        ensures kind { keeps self.new ≡ keeps self.old }
        ensures call { UsesStore Self.failed Self.is_clean Self.IsSound self.old (IsErrOf result StoreError.Fault) self.new };

    /// A call of `Stable` leaves the tables as they are.
    ghost stays: { (old new : Self) (error : Option StoreError) → IsCleanCall Self.is_clean Self.IsSound old new
        → Self.call_gives old error new → ledger new ≡ ledger old };
}
