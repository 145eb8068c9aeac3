//! The records that processes note, and the greatest recoverable state of the system that they allow (direct dependency
//! vectors after Johnson and Zwaenepoel 1990; stable intervals may have gaps).
//!
//! A note costs a descent of a tree for itself and for each interval that it makes stable, and a search where the state may
//! rise; one in order needs no descent. Nothing is trusted here.
//!
//! In an order of reading:
//!
//! - what is noted: `row`, `row_list`, `note` (the answers), `records` (the calls), `adding` (rows that are noted at once), `laws`
//!   (theorems over the definitions)
//! - the search: `search`, over rows that it is lent as a `Shelf` (`shelf`); `work` and `step` (what is counted); `numbers`
//!   (numbers by process, read where they lie)
//! - the rows: `rows`, whose index is a `Shelf`
#![tactic(auto)]

mod adding;
pub mod laws;
mod note;
mod numbers;
mod records;
mod row;
mod row_list;
mod rows;
mod search;
mod shelf;
mod step;
mod work;

pub use note::{Note, NoteError, NotedRows};
pub use records::Records;
pub use row::{Row, RowKind};
pub use row_list::RowList;
pub use work::Work;
