//! What is put into a store, and removed from it, at once.

use crate::ledger::LedgerRows;

/// A checkpoint to be put.
#[derive(Clone, Copy, Debug)]
pub struct NewCheckpoint<'a> {
    /// Its interval.
    pub x: u32,
    pub bytes: &'a [u8],
}

/// What is put into a store, and removed from it, in one transaction.
#[derive(Clone, Copy, Debug)]
pub struct WriteBatch<'a> {
    /// The interval of the first of the receipts, which are put there, at the next one, ..
    pub first: u32,
    pub receipts: &'a [Vec<u8>],
    pub checkpoint: Option<NewCheckpoint<'a>>,
    pub outputs: LedgerRows<'a>,
    pub senders: LedgerRows<'a>,
    /// The interval before which checkpoints go, and up to which receipts go, once all else is put.
    pub prune_to: Option<u32>,
}
