//! The threads of a cluster: they are started and joined, and what they bring back becomes a report.
//!
//! What a thread does is a type parameter (`ProcessThread` of om_cluster), so that nothing here stands on the worker. The kit's
//! threads, locks and channels are trusted, and the stores as far as they say that they are clean.
//!
//! In an order of reading:
//!
//! - `cluster`: the threads, from the first store to the report; `starting` (they are started and joined), `main_task` (what is done
//!   beside them), `settle` (what is left in the inboxes), `results` (what they bring back)
//! - `followed`: outputs that are told as they are released; `recorded`: what threads do is taken down
#![tactic(auto)]

mod cluster;
mod followed;
mod main_task;
mod recorded;
mod results;
mod settle;
mod starting;

pub use cluster::{run_and_keep_stores, run_and_keep_witnesses};
pub use followed::run_and_follow;
pub use recorded::run_and_record;
