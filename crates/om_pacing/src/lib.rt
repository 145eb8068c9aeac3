//! When a worker goes on, yields and sleeps.
//!
//! In an order of reading: `barrier` (where a process waits until all are up), `idle` (the turns in which nothing happens) and `spin_policy` (whether a worker
//! yields before it sleeps).
#![tactic(auto)]

mod barrier;
mod idle;
mod spin_policy;

pub use barrier::Barrier;
pub use idle::{FIRST_SLEEP, IDLE_TURNS, Idle, LONGEST_SLEEP, Passed, Pause};
pub use spin_policy::{FEWEST_RESTS, MOST_RESTS, SpinPolicy};
