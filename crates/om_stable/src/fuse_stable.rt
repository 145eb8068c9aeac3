//! A store that fails on purpose.

ghost use Rattle.std.specs.Prelude.{◌≡◌};

use crate::batch::WriteBatch;
use crate::error::StoreError;
use crate::ledger::{Ledger, LedgerTable};
use crate::stable::Stable;
use std::alloc::Global;

/// Where a fuse stops a call.
#[derive(Clone, Copy, Debug, PartialEq, Eq)]
pub enum Stop {
    /// This many calls pass before it.
    After(u64),
    /// It has been, and every call passes.
    Past,
}

impl Stop {
    ghost use Rattle.std.specs.Prelude.{is_err, OnErr, Err};
    ghost use Rattle.om_stable.specs.steps.Stop.{stops_next, after_call};

    // Counts a call, and answers Fault at the one to be stopped.
    fn pass(&mut self) -> Result<(), StoreError>
        ensures stops { is_err result ≡ stops_next self.old }
        ensures fault { OnErr result (result ≡ Err StoreError.Fault) }
        ensures next { self.new ≡ after_call self.old }
    {
        match *self {
            Stop::After(0) => {
                *self = Stop::Past;
                return Err(StoreError::Fault);
            }
            Stop::After(calls) => *self = Stop::After(calls - 1),
            Stop::Past => {}
        }
        Ok(())
    }
}

/// A store that fails on purpose, once: it passes some calls to the store behind it, answers Fault
/// to the next without a call of that store, and then passes every call. `failures` counts as none.
#[derive(Debug, Drop)]
pub struct FuseStable<S> {
    /// The store behind the fuse.
    pub inner: S,
    /// Where the next call stands.
    pub stop: Stop,
}

impl<S: Stable> FuseStable<S> {
    /// Passes `calls` calls before the one that it stops.
    pub fn new(inner: S, calls: u64) -> Self
        ensures inner { result.inner ≡ inner }
        ensures stop { result.stop ≡ Stop.After calls }
    {
        FuseStable {
            inner,
            stop: Stop::After(calls),
        }
    }
}

impl<S: Stable> Stable for FuseStable<S> {
    ghost use Rattle.std.specs.Prelude.{◌≡◌, Some};
    ghost use Rattle.om_stable.specs.Count.{Rose};
    ghost use Rattle.std.specs.Bool.{MatchBool};
    ghost use Rattle.om_stable.specs.steps.Stop.{stops_next, after_call, failed_behind};
    ghost use Rattle.om_stable.specs.declared.error.StoreError.TheVariants.{Fault};

    ghost content = { λ f. S.content f.inner };

    ghost failed = { λ f. failed_behind f.stop (S.failed f.inner) };

    ghost is_clean = { λ f. S.is_clean f.inner };

    ghost IsSound = { λ f. S.IsSound f.inner };

    // At the stop a call answers Fault and leaves the inner store alone. Any other call is the
    // inner store's, and answers Fault only where that store's own count rose.
    ghost call_gives = { λ old error new.
        (new.stop ≡ after_call old.stop)
        × MatchBool (stops_next old.stop)
        ((error ≡ Some Fault) × (new.inner ≡ old.inner))
        (S.call_gives old.inner error new.inner
        × (error ≡ Some Fault → Rose (S.failed old.inner) (S.failed new.inner))) };

    fn put_receipts(
        &mut self,
        alloc: Global,
        first: u32,
        recs: &[Vec<u8>],
    ) -> Result<(), StoreError> {
        self.stop.pass()?;
        self.inner.put_receipts(alloc, first, recs)
    }

    fn put_checkpoint(&mut self, alloc: Global, x: u32, bytes: &[u8]) -> Result<(), StoreError> {
        self.stop.pass()?;
        self.inner.put_checkpoint(alloc, x, bytes)
    }

    fn effective(&mut self, alloc: Global, x: u32) -> Result<Option<(u32, Vec<u8>)>, StoreError> {
        self.stop.pass()?;
        self.inner.effective(alloc, x)
    }

    fn receipts(
        &mut self,
        alloc: Global,
        after: u32,
        to: u32,
    ) -> Result<Vec<(u32, Vec<u8>)>, StoreError> {
        self.stop.pass()?;
        self.inner.receipts(alloc, after, to)
    }

    fn cut(&mut self, alloc: Global, r: u32) -> Result<(), StoreError> {
        self.stop.pass()?;
        self.inner.cut(alloc, r)
    }

    fn prune(&mut self, alloc: Global, c: u32) -> Result<(), StoreError> {
        self.stop.pass()?;
        self.inner.prune(alloc, c)
    }

    fn failures(&self) -> u64 {
        let inner = self.inner.failures();
        match self.stop {
            Stop::After(_) => inner,
            Stop::Past => inner.saturating_add(1),
        }
    }
}

impl<S: Ledger> Ledger for FuseStable<S> {
    ghost use Rattle.std.proofs.Common.{rules};

    ghost ledger = { λ f. S.ledger f.inner };

    ghost keeps = { λ f. S.keeps f.inner };

    ghost stays = { Prim.search rules };

    fn put_in(
        &mut self,
        alloc: Global,
        table: LedgerTable,
        first: u64,
        recs: &[Vec<u8>],
    ) -> Result<(), StoreError> {
        self.stop.pass()?;
        self.inner.put_in(alloc, table, first, recs)
    }

    fn all_in(
        &mut self,
        alloc: Global,
        table: LedgerTable,
    ) -> Result<Vec<(u64, Vec<u8>)>, StoreError> {
        self.stop.pass()?;
        self.inner.all_in(alloc, table)
    }

    fn put_batch(&mut self, alloc: Global, batch: &WriteBatch<'_>) -> Result<(), StoreError> {
        self.stop.pass()?;
        self.inner.put_batch(alloc, batch)
    }
}
