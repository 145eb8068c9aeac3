//! What a worker has, and by what it reaches the manager.
//!
//! The thread of a process is a worker. It takes the lock of the board only where there is something to tell or to learn.
//!
//! In an order of reading:
//!
//! - `worker_state`: where the process of a worker stands
//! - `manager_link`: what a worker does with the board, under its lock (`LockedBoard` of om_report)
#![tactic(auto)]

mod manager_link;
mod worker_state;

pub use manager_link::{ManagerLink, ManagerPhase, RoundOutcome};
pub use worker_state::{TurnOutcome, WorkerState};
