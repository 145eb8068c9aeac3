//! The thread of one process of a cluster, over the board, the frontier and the inboxes that all share.
//!
//! A turn of a worker takes the lock only where there is something to tell or to learn, and one that waits for a round reads
//! the frontier without it; a worker that has nothing to do sleeps. The kit's locks and channels are trusted, and the
//! stores as far as they say that they are clean.
//!
//! In an order of reading:
//!
//! - `working`: what the thread of a process does, from the gate to the end (om_cluster: what all threads share, and what each owes)
//! - `taking_up`: how a process is taken up from what an earlier run left
//! - `turns` and `worker`: what a thread does, turn by turn; `worker::rounds`, `worker::storing`, `worker::resting`
//! - what a worker has: its node (om_node), its way to the manager and its ends of inboxes (om_worker_parts)
#![tactic(auto)]

mod taking_up;
mod turns;
mod worker;
mod working;

pub use working::WorkerThread;
