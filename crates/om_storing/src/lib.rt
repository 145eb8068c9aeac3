//! What the store of a process is given, and when: its log and its checkpoints by the number of receipts, and what a run that takes
//! the store up has to find there.
//!
//! It goes there at once where the store is quick; else a flight takes it, and one is under way at a time.
//!
//! In an order of reading: `kept` (how much of what a process did stands in its store) and `storing` (what the store is given, and when).
#![tactic(auto)]

mod kept;
mod storing;

pub use kept::Kept;
pub use storing::Storing;
