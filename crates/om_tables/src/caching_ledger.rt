//! A ledger that answers a second reading of its receipts from the first.
//!
//! A run that takes a store up reads the same receipts twice before it changes anything there: to tell what they stand for, and
//! to replay them.

ghost use Rattle.std.specs.Prelude.{◌≡◌, nat_le, IfOk, IfSome, IsTrue, filter};
ghost use Rattle.om_stable.specs.Content.{Records, between, rows_of};
ghost use Rattle.om_tables.specs.Cached.{Covers, IsOf};

use om_stable::{Ledger, LedgerTable, Stable, StoreError, WriteBatch};
use std::alloc::{AllocError, Global};
use std::mem;

/// The receipts above `after` and at or below `to`, as they were read.
#[derive(Debug, Drop)]
pub struct CachedReceipts {
    pub after: u32,
    pub to: u32,
    pub rows: Vec<(u32, Vec<u8>)>,
}

/// What is kept of the receipts that were read.
#[derive(Debug, Drop)]
pub enum Cache {
    /// Nothing was read or changed yet.
    Empty,
    /// The first reading; nothing was changed since.
    Holds(CachedReceipts),
    /// It was handed out, or something was changed: nothing more is kept.
    Spent,
}

/// A ledger that keeps the first receipts that are read of it, until they are read again, or until a call may change a record.
#[derive(Debug, Drop)]
pub struct CachingLedger<S> {
    /// The ledger behind the cache.
    pub inner: S,
    pub cache: Cache,
}

impl<S: Ledger> CachingLedger<S> {
    /// Keeps what is read first of `inner`.
    pub fn new(inner: S) -> Self
        ensures inner { result.inner ≡ inner }
        ensures cache { result.cache ≡ Cache.Empty }
    {
        CachingLedger {
            inner,
            cache: Cache::Empty,
        }
    }
}

impl Cache {
    // Hands out the receipts above `after` and at or below `to`, where these were read; what is kept is then spent.
    fn take(&mut self, after: u32, to: u32) -> Option<Vec<(u32, Vec<u8>)>>
        ensures found { (held : Records) → IsOf held self.old
            → IfSome result (λ rows. rows_of rows.items ≡ between held after to) }
        ensures kept { (held : Records) → IsOf held self.old → IsOf held self.new }
    {
        if !self.has(after, to) {
            return None;
        }
        match mem::replace(self, Cache::Spent) {
            Cache::Holds(cached) => Some(up_to(cached.rows, to)),
            Cache::Empty | Cache::Spent => None,
        }
    }

    // Returns whether the receipts above `after` and at or below `to` are kept.
    fn has(&self, after: u32, to: u32) -> bool
        ensures { IsTrue result → Covers self.now after to }
    {
        match self {
            Cache::Holds(cached) => cached.after == after && to <= cached.to,
            Cache::Empty | Cache::Spent => false,
        }
    }

    // Keeps these receipts, which are those above `after` and at or below `to`, where nothing was read before. Where there is no
    // memory for them, nothing is kept.
    fn fill(&mut self, alloc: Global, after: u32, to: u32, rows: &[(u32, Vec<u8>)])
        ensures kept { (held : Records) → IsOf held self.old → rows_of rows.now ≡ between held after to → IsOf held self.new }
    {
        if !matches!(self, Cache::Empty) {
            return;
        }
        *self = match copied(alloc, rows) {
            Ok(rows) => Cache::Holds(CachedReceipts { after, to, rows }),
            Err(_) => Cache::Spent,
        };
    }

    // Keeps nothing more.
    fn spend(&mut self)
        ensures { self.new ≡ Cache.Spent }
    {
        *self = Cache::Spent;
    }
}

// Returns those of some receipts that are at or below `to`.
fn up_to(mut rows: Vec<(u32, Vec<u8>)>, to: u32) -> Vec<(u32, Vec<u8>)>
    ensures { rows_of result.items ≡ filter (λ e. nat_le e.0 to) (rows_of rows.items) }
{
    rows.retain(|row| row.0 <= to);
    rows
}

// Copies some receipts.
fn copied(alloc: Global, rows: &[(u32, Vec<u8>)]) -> Result<Vec<(u32, Vec<u8>)>, AllocError>
    ensures { IfOk result (λ copy. rows_of copy.items ≡ rows_of rows.now) }
{
    let mut copy = Vec::with_capacity(alloc, rows.len())?;
    for row in rows {
        copy.push((row.0, Vec::from_slice(alloc, &row.1)?))?;
    }
    Ok(copy)
}

impl<S: Ledger> Stable for CachingLedger<S> {
    ghost use Rattle.std.specs.Prelude.{◌≡◌, ◌⊎◌, None, IsTrue};
    ghost use Rattle.om_tables.specs.Cached.{IsOf};

    ghost content = { λ s. S.content s.inner };

    ghost failed = { λ s. S.failed s.inner };

    ghost is_clean = { λ s. S.is_clean s.inner };

    // The inner ledger is sound, and what is kept is of the receipts that it holds, as long as that is known.
    ghost IsSound = { λ s. S.IsSound s.inner × (IsTrue (S.is_clean s.inner) → IsOf (S.content s.inner).receipts s.cache) };

    // A call is the inner ledger's, or it leaves that alone and answers no error.
    ghost call_gives = { λ old error new. S.call_gives old.inner error new.inner ⊎ ((error ≡ None) × (new.inner ≡ old.inner)) };

    fn put_receipts(
        &mut self,
        alloc: Global,
        first: u32,
        recs: &[Vec<u8>],
    ) -> Result<(), StoreError> {
        self.cache.spend();
        self.inner.put_receipts(alloc, first, recs)
    }

    fn put_checkpoint(&mut self, alloc: Global, x: u32, bytes: &[u8]) -> Result<(), StoreError> {
        self.cache.spend();
        self.inner.put_checkpoint(alloc, x, bytes)
    }

    fn effective(&mut self, alloc: Global, x: u32) -> Result<Option<(u32, Vec<u8>)>, StoreError> {
        self.inner.effective(alloc, x)
    }

    fn receipts(
        &mut self,
        alloc: Global,
        after: u32,
        to: u32,
    ) -> Result<Vec<(u32, Vec<u8>)>, StoreError> {
        if let Some(rows) = self.cache.take(after, to) {
            return Ok(rows);
        }
        let rows = self.inner.receipts(alloc, after, to)?;
        self.cache.fill(alloc, after, to, &rows);
        Ok(rows)
    }

    fn cut(&mut self, alloc: Global, r: u32) -> Result<(), StoreError> {
        self.cache.spend();
        self.inner.cut(alloc, r)
    }

    fn prune(&mut self, alloc: Global, c: u32) -> Result<(), StoreError> {
        self.cache.spend();
        self.inner.prune(alloc, c)
    }

    fn failures(&self) -> u64 {
        self.inner.failures()
    }
}

impl<S: Ledger> Ledger for CachingLedger<S> {
    ghost ledger = { λ s. S.ledger s.inner };

    ghost keeps = { λ s. S.keeps s.inner };

    ghost use Rattle.std.proofs.Common.{rules};

    ghost stays = { Prim.search rules };

    fn put_in(
        &mut self,
        alloc: Global,
        table: LedgerTable,
        first: u64,
        recs: &[Vec<u8>],
    ) -> Result<(), StoreError> {
        self.inner.put_in(alloc, table, first, recs)
    }

    fn all_in(
        &mut self,
        alloc: Global,
        table: LedgerTable,
    ) -> Result<Vec<(u64, Vec<u8>)>, StoreError> {
        self.inner.all_in(alloc, table)
    }

    fn put_batch(&mut self, alloc: Global, batch: &WriteBatch<'_>) -> Result<(), StoreError> {
        self.cache.spend();
        self.inner.put_batch(alloc, batch)
    }
}
