//! What the threads of a cluster have in common: the ground that they share, and what the thread of a process is to do.
//!
//! The worker that does it (om_worker) and what starts and joins the threads (om_threads) stand on this, and neither on the
//! other. The kit's locks and channels are trusted.
//!
//! In an order of reading:
//!
//! - what a run is given: `config`, `opener` (when a process may start, and who makes the stores)
//! - `ground`: what all threads share
//! - `process_thread`: what the thread of a process begins with and what it owes; `finished`: what it brings back
//! - `store_maker`: what it needs of an opener; `admission`: how a process is let in; `told_fault`: what the run's caller is told where it is not
#![tactic(auto)]

mod admission;
mod config;
mod finished;
mod ground;
mod opener;
mod process_thread;
mod store_maker;
mod told_fault;

pub use admission::{admit, admitted};
pub use config::Config;
pub use finished::Finished;
pub use ground::{Census, Cluster, Ground, ground_of, stop_all};
pub use opener::{Gate, OpenFault, Opener};
pub use process_thread::{Job, ProcessThread};
pub use store_maker::StoreMaker;
pub use told_fault::{load_fault, open_fault, run_fault};
