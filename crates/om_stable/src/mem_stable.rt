//! A store in memory.

ghost use Rattle.std.specs.Prelude.{◌≡◌, ◌≢◌, true, Some, None, IfSome, IsErrOf, OnErr, OnOk};
ghost use Rattle.std.specs.FinMap as map;
ghost use Rattle.om_stable.specs.Batches.{IsHeld, pruned_to, with_new};
ghost use Rattle.om_stable.specs.Content.{kept_by_prune};
ghost use Rattle.om_stable.specs.steps.TakenBack.{without_new};

use crate::batch::{NewCheckpoint, WriteBatch};
use crate::error::StoreError;
use crate::ledger::{Ledger, LedgerTable};
use crate::receipts::Receipts;
use crate::record_tree::RecordTree;
use crate::stable::Stable;
use std::alloc::Global;
use std::marker::Model;

/// One process's store in memory. It is always clean and never answers Fault.
#[derive(Debug, Drop)]
pub struct MemStable {
    receipts: Receipts,
    checkpoints: RecordTree,
}

impl Model for MemStable {
    ghost use Rattle.om_stable.specs.Content.{Content};
    ghost use Rattle.om_stable.specs.steps.Codes.{content_code};

    ghost Value = { Content };

    ghost coded = { content_code };

    ghost view = { λ s. record { receipts = s.receipts; checkpoints = s.checkpoints } };
}

impl MemStable {
    /// Makes a store that holds nothing. It takes no memory until something is put.
    pub fn new(alloc: Global) -> Self
        ensures receipts { result.receipts ≡ map.empty }
        ensures checkpoints { result.checkpoints ≡ map.empty }
    {
        MemStable {
            receipts: Receipts::new(alloc),
            checkpoints: RecordTree::new(alloc),
        }
    }

    // Removes the checkpoints below `c`, and the receipts at or below it.
    pub(crate) fn drop_below(&mut self, c: u32)
        ensures { self.new ≡ kept_by_prune self.old c }
    {
        self.receipts.keep_from(u64::from(c) + 1);
        self.checkpoints.keep_from(u64::from(c));
    }

    // Prunes, where something is to be pruned.
    fn prune_to(&mut self, to: Option<u32>)
        ensures { self.new ≡ pruned_to self.old to }
    {
        if let Some(c) = to {
            self.drop_below(c);
        }
    }

    // Puts a checkpoint, where there is one.
    fn put_new(
        &mut self,
        alloc: Global,
        checkpoint: Option<NewCheckpoint<'_>>,
    ) -> Result<(), StoreError>
        ensures put { OnOk result (self.new ≡ with_new self.old checkpoint.entry) }
        ensures free { OnOk result (IfSome checkpoint.entry (λ c. map.get self.old.checkpoints c.x ≡ None)) }
        ensures present { IsErrOf result StoreError.Present → IsHeld self.old checkpoint.entry }
        ensures refused { OnErr result (self.new ≡ self.old) }
        ensures never_fault { result ≢ Err StoreError.Fault }
    {
        match checkpoint {
            Some(new) => self.put_checkpoint(alloc, new.x, new.bytes),
            None => Ok(()),
        }
    }

    // Removes a checkpoint again, where there is one, so the checkpoints are as they were before it was put.
    fn take_back(&mut self, checkpoint: Option<NewCheckpoint<'_>>)
        ensures receipts { self.new.receipts ≡ self.old.receipts }
        ensures checkpoints { self.new.checkpoints ≡ without_new self.old.checkpoints checkpoint.entry }
    {
        if let Some(new) = checkpoint {
            self.checkpoints.remove(new.x);
        }
    }
}

impl Stable for MemStable {
    ghost use Rattle.om_stable.specs.declared.error.StoreError.TheVariants.{Fault};

    ghost content = { λ s. s };

    ghost failed = { λ _. 0 };

    ghost is_clean = { λ _. true };

    ghost IsSound = { λ _. Unit {0} };

    ghost call_gives = { λ _ error _. error ≢ Some Fault };

    fn put_receipts(
        &mut self,
        alloc: Global,
        first: u32,
        recs: &[Vec<u8>],
    ) -> Result<(), StoreError> {
        if self.receipts.has_any(first, recs.len()) {
            return Err(StoreError::Present);
        }
        self.receipts.insert_all(alloc, first, recs)?;
        Ok(())
    }

    fn put_checkpoint(&mut self, alloc: Global, x: u32, bytes: &[u8]) -> Result<(), StoreError> {
        if self.checkpoints.has(x) {
            return Err(StoreError::Present);
        }
        self.checkpoints.insert(alloc, x, bytes)?;
        Ok(())
    }

    fn effective(&mut self, alloc: Global, x: u32) -> Result<Option<(u32, Vec<u8>)>, StoreError> {
        Ok(self.checkpoints.effective(alloc, x)?)
    }

    fn receipts(
        &mut self,
        alloc: Global,
        after: u32,
        to: u32,
    ) -> Result<Vec<(u32, Vec<u8>)>, StoreError> {
        Ok(self.receipts.between(alloc, after, to)?)
    }

    fn cut(&mut self, _alloc: Global, r: u32) -> Result<(), StoreError> {
        self.receipts.keep_up_to(r);
        self.checkpoints.keep_up_to(r);
        Ok(())
    }

    fn prune(&mut self, _alloc: Global, c: u32) -> Result<(), StoreError> {
        self.drop_below(c);
        Ok(())
    }

    fn failures(&self) -> u64 {
        0
    }
}

// It keeps nothing beside its records.
impl Ledger for MemStable {
    ghost use Rattle.std.specs.Prelude.{false, refl};
    ghost use Rattle.om_stable.specs.Ledger.{blank};

    ghost ledger = { λ _. blank };

    ghost keeps = { λ _. false };

    ghost stays = { λ old new error clean gives. refl };

    fn put_in(
        &mut self,
        _alloc: Global,
        _table: LedgerTable,
        _first: u64,
        _recs: &[Vec<u8>],
    ) -> Result<(), StoreError> {
        Ok(())
    }

    fn all_in(
        &mut self,
        alloc: Global,
        _table: LedgerTable,
    ) -> Result<Vec<(u64, Vec<u8>)>, StoreError> {
        Ok(Vec::new(alloc))
    }

    fn put_batch(&mut self, alloc: Global, batch: &WriteBatch<'_>) -> Result<(), StoreError> {
        self.put_new(alloc, batch.checkpoint)?;
        if let Err(error) = self.put_receipts(alloc, batch.first, batch.receipts) {
            self.take_back(batch.checkpoint);
            return Err(error);
        }
        self.prune_to(batch.prune_to);
        Ok(())
    }
}
