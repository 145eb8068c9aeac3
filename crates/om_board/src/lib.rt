//! What the threads of a cluster share: the board, which is the manager under a lock; the frontier, which shows the manager's
//! front without it; and the inboxes, by which messages go from one thread to another.
//!
//! A call of the board costs what the manager's call costs, a copy of the front, and the lock; a reading of the frontier copies
//! the front and takes no lock. The kit's locks, atomic tables and channels are trusted.
//!
//! In an order of reading:
//!
//! - the manager: `shared` (what the threads share), `board` (the calls under the lock), `waiting` (what processes tell of
//!   their waiting)
//! - the front: `front` (what is shown), `frontier` (the readings), `cell` (the words in which it is posted), `laws`
//! - between threads: `inbox`, with `order` and `hand` (the rule that its messages keep, in proofs alone); `bell` (by which one
//!   wakes another)
#![tactic(auto)]

mod bell;
mod board;
mod cell;
mod front;
mod frontier;
mod hand;
mod inbox;
pub mod laws;
mod order;
mod shared;
mod waiting;

pub use bell::{Bell, SenderSet, SpinOutcome, ring_all};
pub use board::Board;
pub use front::Front;
pub use frontier::{Blank, Frontier, Naming, Pass};
pub use inbox::{CAPACITY, Inbox, PutAnswer, PutPass, TakePass};
pub use shared::Shared;
pub use waiting::Waiting;
