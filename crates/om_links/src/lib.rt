//! The inboxes of a cluster, and the ends of them that one process has.
//!
//! In an order of reading: `network` (the inboxes of all processes), `links` (the ends that one process has), `received` (what a
//! resend may leave out).
#![tactic(auto)]

mod links;
mod network;
mod received;

pub use links::{Links, Taken};
pub use network::{Ends, Network, connected};
pub use received::Received;
