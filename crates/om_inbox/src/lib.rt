//! Bytes that one thread reads while another does something else, and looks now and then whether a stop is wished.
//!
//! In an order of reading: `front` (bytes that were taken out, and the wish among them), `inbox` (what was read, and who takes it).
#![tactic(auto)]

pub use inbox::{Inbox, Taker};

mod front;
mod inbox;
