//! A manager that starts anew: it is told of each process what its store held, and that it failed.
//!
//! A call costs what the calls of the manager cost: one for each row and each output, or for each process.
//!
//! In an order of reading: `taking` (the rows and outputs of a store), `failing` (the round in which all failed), `laws`.
#![tactic(auto)]

pub use failing::fail_all;
pub use taking::{TakeUpFault, take_up};

mod failing;
pub mod laws;
mod taking;
