//! What a run of a cluster ends with, and the board under its lock.
//!
//! In an order of reading: `fault` (why a run came to no end), `released` (the outputs that a manager has released), `report`, `harvest` (the outputs of a process
//! whose run is over); and `locked_board` (the board under its lock, as a process reaches its manager).
#![tactic(auto)]

mod fault;
mod harvest;
mod locked_board;
mod released;
mod report;

pub use fault::RunFault;
pub use harvest::{Harvest, all_met, gathered_in};
pub use locked_board::LockedBoard;
pub use released::{copy_of, released_of};
pub use report::{FollowedReport, Report};
