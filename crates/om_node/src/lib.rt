//! A process over its store, in one thread, and the flights by which what it stores gets there in another.
//!
//! A node hands what is to be stored to its store and goes on. One flight is under way at a time; when it has landed, its rows are
//! pending, and what it let go is dropped. A ticket says that the store that comes back is the one that went, with just what went along.
//!
//! In an order of reading: `node` (a process that is up or down, and its store), `transaction` (what is stored at once), `keeping` (what a store is
//! given for a run that takes it up), `flying` (how a transaction gets to the thread that writes the store, and back), `worker_fault`.
#![tactic(auto)]

mod flying;
mod keeping;
mod node;
mod transaction;
mod worker_fault;

pub use flying::{FarEnds, FlightChannel, Landing, WriteRequest, flight_channel, write_all};
pub use keeping::{Deposit, Due, Limits, NewRows};
pub use node::{DownNode, Node};
pub use transaction::{SentStore, Transaction};
pub use worker_fault::WorkerFault;
