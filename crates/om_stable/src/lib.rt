//! One process's store: receipts and checkpoints by interval, in memory or behind a fuse, and what it keeps beside them for a run
//! that takes it up after a crash of the whole program.
//!
//! A call costs a copy of the bytes that it puts or reads, and a descent of a tree, but for a receipt right behind the last. Nothing
//! is trusted here.
//!
//! In an order of reading: `stable` (the trait, and what each call leaves), `error`, `mem_stable` (in memory), `receipts`
//! (in a run, or in a tree), `record_run` (records without a gap), `record_list` (records in order), `record_tree` (records by
//! interval), `fuse_stable` (a store that stops after so many calls), `ledger` (the trait of stores that are taken up
//! again), `batch` (what is written in one transaction), `mem_ledger` (such a store in memory), `row_tree` (its tables), `laws` (theorems over the definitions).
#![tactic(auto)]

mod batch;
mod error;
mod fuse_stable;
pub mod laws;
mod ledger;
mod mem_ledger;
mod mem_stable;
mod receipts;
mod record_list;
mod record_run;
mod record_tree;
mod row_tree;
mod stable;

pub use batch::{NewCheckpoint, WriteBatch};
pub use error::StoreError;
pub use fuse_stable::{FuseStable, Stop};
pub use ledger::{LEDGER_NUMBERS, Ledger, LedgerRows, LedgerTable};
pub use mem_ledger::MemLedger;
pub use mem_stable::MemStable;
pub use stable::{INTERVALS, LAST_COUNT, Stable};
