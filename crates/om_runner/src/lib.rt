//! A cluster run by threads: a worker for each process, over the board, the frontier and the inboxes that they share.
//!
//! What starts and joins the threads (om_threads) and the worker that each runs (om_worker) are put together here. The kit's
//! threads, locks and channels are trusted, and the stores as far as they say that they are clean.
//!
//! In an order of reading:
//!
//! - `in_memory` (an opener that makes stores in memory), `watched` (one whose processes are watched)
//! - `cluster`: the runs of a cluster
#![tactic(auto)]

mod cluster;
mod in_memory;
mod watched;

pub use cluster::{
    run_and_follow, run_and_keep_stores, run_and_keep_witnesses, run_and_record, run_cluster,
};
pub use in_memory::InMemory;
pub use om_board::{
    Blank, Board, CAPACITY, Front, Frontier, Inbox, Naming, Pass, PutAnswer, PutPass, Shared,
    TakePass, laws,
};
pub use om_cluster::{Config, Gate, OpenFault, Opener};
pub use om_following::{FollowFault, Follower};
pub use om_observers::{Act, Doing, Letter, Progress, Record, Scribe, Sight, Watch};
pub use om_pacing::IDLE_TURNS;
pub use om_report::{Report, RunFault};
pub use watched::Watched;
