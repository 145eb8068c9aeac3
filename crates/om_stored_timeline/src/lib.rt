//! The process of a store at any moment that the store knows of: what its receipts did to it, as a timeline.
//!
//! In an order of reading: `reading` (what is read of a store), `following` (a machine that goes along receipts), `telling` (what they
//! did), `standing` (in which interval the process stands at first).
#![tactic(auto)]

pub use following::MOST_BEHIND;
pub use standing::{StoredTimeline, stored_timeline};

mod following;
mod reading;
mod standing;
mod telling;
