//! One process's store in two tables of a database, that a person can open and look at; or in five, to be taken up again after
//! a crash of the whole program.
//!
//! A call is one transaction of a few statements; it costs what SQLite's trees cost. The kit's `sqlite` is trusted as far as
//! its statements go, and the disk as far as the store says that it is clean.
//!
//! In an order of reading: `sql_stable` (the store, its calls), `creating` (the tables), `inserting`, `reading`, `deleting`, `writing` (all of that in one transaction),
//! `refusal` (statements are run, and what refuses them), `error`, `laws` (theorems over the definitions), `sql_ledger` (the store of five tables), `further` (what it has beside records),
//! `caching_ledger` (a ledger whose first reading is kept for the second).
#![tactic(auto)]

mod caching_ledger;
mod creating;
mod deleting;
mod error;
mod further;
mod inserting;
pub mod laws;
mod reading;
mod refusal;
mod sql_ledger;
mod sql_stable;
mod writing;

pub use caching_ledger::{Cache, CachedReceipts, CachingLedger};
pub use error::TablesError;
pub use refusal::Refusal;
pub use sql_ledger::SqlLedger;
pub use sql_stable::SqlStable;
