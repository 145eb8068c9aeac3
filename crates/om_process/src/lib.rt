//! One logged process: it runs and receives, and where its receipts lead is a matter of its program alone.
//!
//! A turn costs what its machine costs; a message and an output cost their bytes. A replay carries out the instructions between
//! the checkpoint and the receipt once. The stores are trusted as far as they say that they are clean.
//!
//! In an order of reading:
//!
//! - a process: `proc_core` (its parts, and the reads), `image`, `status`, `row`, `limits`, `laws` (theorems over the definitions)
//! - what it does: `start`, `plan` (at an event of the machine) and `turns`, `accept` (a message), `delivering` (for the first time, or
//!   once more), `fifo`, `queues` and `outbox` (what it made), `trim`
//! - what it stores: `log` (receipts that are not stored yet), `storing`, `flight` (what is stored while it goes on)
//! - how it comes back: `replay`, `restoring` (from a checkpoint), `repeating` (one receipt after another), `down` (after a round)
//!
//! The methods of `ProcCore` stand in the files of what they do: `start`, `turns`, `accept`, `delivering`, `outbox`, `trim`, `storing`,
//! `flight`, `replay`, `restoring`, `repeating` and `down`.
#![tactic(auto)]

pub use accept::Accept;
pub use down::Down;
pub use flight::{Flight, Spelled};
pub use image::Image;
pub use limits::{LAST_INTERVAL, LAST_NUMBER, LAST_OUTPUT, REFUSED};
pub use proc_core::ProcCore;
pub use queues::{Made, Sent};
pub use replay::ReplayFault;
pub use row::PendingRow;
pub use start::StartFault;
pub use status::Status;
pub use turns::RunEnd;
pub use witness::Witness;

mod accept;
mod delivering;
mod down;
mod fifo;
mod flight;
mod image;
pub mod laws;
mod limits;
mod log;
mod outbox;
mod plan;
mod proc_core;
mod queues;
mod repeating;
mod replay;
mod restoring;
mod row;
mod start;
mod status;
mod storing;
mod trim;
mod turns;
mod witness;
