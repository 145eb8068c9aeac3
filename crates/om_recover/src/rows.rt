//! The rows, as they are kept.
//!
//! In an order of reading: `index` (all of them, a `Shelf`), `trees` (by process), `run_logs` (how the logs of a run lie),
//! `lent` (vectors, read where they lie), `logs` and `bases` (the logs, the checkpoints), `answer` (whether a row is new),
//! `lookup`, `nearest` and `stable` (what is read), `adding`, `laying` and `storing` (what is added), `cutting` and
//! `dropping` (what is dropped), `first` (no rows).

mod adding;
mod answer;
mod bases;
mod cutting;
mod dropping;
mod first;
pub mod index;
mod laying;
mod lent;
mod logs;
mod lookup;
mod nearest;
mod run_logs;
mod stable;
mod storing;
mod trees;
