//! A store in memory that a later run of the same program can take up.

ghost use Rattle.std.specs.Prelude.{◌≡◌, ◌≢◌, ◌⊎◌, ◌+◌, ◌≤◌, true, Some, length, OnOk, OnErr, IsErrOf};
ghost use Rattle.om_stable.specs.Content.{nothing, with_all, bytes_of, IsFree, IsTaken};
ghost use Rattle.om_stable.specs.Batches.{HasTableRoom, entered};
ghost use Rattle.om_stable.specs.Ledger.{blank};

use crate::batch::WriteBatch;
use crate::error::StoreError;
use crate::ledger::{LEDGER_NUMBERS, Ledger, LedgerTable};
use crate::mem_stable::MemStable;
use crate::row_tree::RowTree;
use crate::stable::Stable;
use std::alloc::Global;
use std::marker::Model;

/// One process's store and its ledger in memory, to be taken up by a later run of the same program. It is always clean and
/// never answers Fault.
#[derive(Debug, Drop)]
pub struct MemLedger {
    records: MemStable,
    outputs: RowTree,
    senders: RowTree,
    about: RowTree,
}

impl Model for MemLedger {
    ghost use Rattle.om_stable.specs.Ledger.{LedgerStore};
    ghost use Rattle.om_stable.specs.steps.Codes.{ledger_code};

    ghost Value = { LedgerStore };

    ghost coded = { ledger_code };

    ghost view = { λ s. record {
      content = s.records;
      ledger = record { outputs = s.outputs; senders = s.senders; about = s.about };
    } };
}

impl MemLedger {
    /// Returns a store that holds nothing. It takes no memory until something is put.
    pub fn new(alloc: Global) -> Self
        ensures records { result.content ≡ nothing }
        ensures tables { result.ledger ≡ blank }
    {
        MemLedger {
            records: MemStable::new(alloc),
            outputs: RowTree::new(alloc),
            senders: RowTree::new(alloc),
            about: RowTree::new(alloc),
        }
    }

    // Enters the outputs and the senders of a batch, all of them or none.
    fn enter(&mut self, alloc: Global, batch: &WriteBatch<'_>) -> Result<(), StoreError>
        requires outputs { batch.now.outputs.first + length batch.now.outputs.recs.now ≤ LEDGER_NUMBERS }
        requires senders { batch.now.senders.first + length batch.now.senders.recs.now ≤ LEDGER_NUMBERS }
        ensures put { OnOk result (self.new.ledger ≡ entered batch.now self.old.ledger) }
        ensures free { OnOk result (HasTableRoom batch.now self.old.ledger) }
        ensures present { IsErrOf result StoreError.Present
            → IsTaken self.old.ledger.outputs batch.now.outputs.first (length batch.now.outputs.recs.now)
            ⊎ IsTaken self.old.ledger.senders batch.now.senders.first (length batch.now.senders.recs.now) }
        ensures refused { OnErr result (self.new.ledger ≡ self.old.ledger) }
        ensures records { self.new.content ≡ self.old.content }
        ensures never_fault { result ≢ Err StoreError.Fault }
    {
        let (outputs, senders) = (batch.outputs, batch.senders);
        put_rows(alloc, &mut self.outputs, outputs.first, outputs.recs)?;
        if let Err(error) = put_rows(alloc, &mut self.senders, senders.first, senders.recs) {
            // What was put goes again, so the tables are as they were.
            self.outputs.remove_run(outputs.first, outputs.recs.len());
            return Err(error);
        }
        Ok(())
    }
}

impl Stable for MemLedger {
    ghost use Rattle.om_stable.specs.declared.error.StoreError.TheVariants.{Fault};

    ghost content = { λ s. s.content };

    ghost failed = { λ _. 0 };

    ghost is_clean = { λ _. true };

    ghost IsSound = { λ _. Unit {0} };

    ghost call_gives = { λ old error new. (error ≢ Some Fault) × (new.ledger ≡ old.ledger) };

    fn put_receipts(
        &mut self,
        alloc: Global,
        first: u32,
        recs: &[Vec<u8>],
    ) -> Result<(), StoreError> {
        self.records.put_receipts(alloc, first, recs)
    }

    fn put_checkpoint(&mut self, alloc: Global, x: u32, bytes: &[u8]) -> Result<(), StoreError> {
        self.records.put_checkpoint(alloc, x, bytes)
    }

    fn effective(&mut self, alloc: Global, x: u32) -> Result<Option<(u32, Vec<u8>)>, StoreError> {
        self.records.effective(alloc, x)
    }

    fn receipts(
        &mut self,
        alloc: Global,
        after: u32,
        to: u32,
    ) -> Result<Vec<(u32, Vec<u8>)>, StoreError> {
        self.records.receipts(alloc, after, to)
    }

    fn cut(&mut self, alloc: Global, r: u32) -> Result<(), StoreError> {
        self.records.cut(alloc, r)
    }

    fn prune(&mut self, alloc: Global, c: u32) -> Result<(), StoreError> {
        self.records.prune(alloc, c)
    }

    fn failures(&self) -> u64 {
        0
    }
}

impl Ledger for MemLedger {
    ghost ledger = { λ s. s.ledger };

    ghost keeps = { λ _. true };

    ghost stays = { λ old new error clean gives. gives.1 };

    fn put_in(
        &mut self,
        alloc: Global,
        table: LedgerTable,
        first: u64,
        recs: &[Vec<u8>],
    ) -> Result<(), StoreError> {
        match table {
            LedgerTable::Outputs => put_rows(alloc, &mut self.outputs, first, recs),
            LedgerTable::Senders => put_rows(alloc, &mut self.senders, first, recs),
            LedgerTable::About => put_rows(alloc, &mut self.about, first, recs),
        }
    }

    fn all_in(
        &mut self,
        alloc: Global,
        table: LedgerTable,
    ) -> Result<Vec<(u64, Vec<u8>)>, StoreError> {
        let found = match table {
            LedgerTable::Outputs => self.outputs.all(alloc)?,
            LedgerTable::Senders => self.senders.all(alloc)?,
            LedgerTable::About => self.about.all(alloc)?,
        };
        Ok(found)
    }

    fn put_batch(&mut self, alloc: Global, batch: &WriteBatch<'_>) -> Result<(), StoreError> {
        self.enter(alloc, batch)?;
        if let Err(error) = self.records.put_batch(alloc, batch) {
            // What was entered goes again, so the tables are as they were.
            self.outputs
                .remove_run(batch.outputs.first, batch.outputs.recs.len());
            self.senders
                .remove_run(batch.senders.first, batch.senders.recs.len());
            return Err(error);
        }
        Ok(())
    }
}

// Puts copies of the records at `first`, `first + 1`, .., all of them or none.
fn put_rows(
    alloc: Global,
    tree: &mut RowTree,
    first: u64,
    recs: &[Vec<u8>],
) -> Result<(), StoreError>
    requires { first + length recs.now ≤ LEDGER_NUMBERS }
    ensures put { OnOk result (tree.new ≡ with_all tree.old first (bytes_of recs.now)) }
    ensures free { OnOk result (IsFree tree.old first (length recs.now)) }
    ensures present { IsErrOf result StoreError.Present → IsTaken tree.old first (length recs.now) }
    ensures refused { OnErr result (tree.new ≡ tree.old) }
    ensures never_fault { result ≢ Err StoreError.Fault }
{
    if tree.has_any(first, recs.len()) {
        return Err(StoreError::Present);
    }
    tree.insert_all(alloc, first, recs)?;
    Ok(())
}
