//! The manager of a cluster: what its processes noted and handed in, the greatest recoverable state and the output that it
//! releases, and the rounds of recovery in which all that is beyond that state is cut (incarnations after Strom and Yemini
//! 1985).
//!
//! Each call costs what its records cost (om_recover); an output costs its bytes, and is moved no more. Nothing is trusted
//! here.
//!
//! In an order of reading: `manager` (what is held, and the reads), `notes` (records and outputs), `output_log` (the outputs of
//! one process), `rounds` (failures, joins, the end of a round), `presence` (who is in), `answers`.
#![tactic(auto)]

mod answers;
mod manager;
mod notes;
mod output_log;
mod presence;
mod rounds;

pub use answers::{FailError, Gathered, JoinError, OutputError, OutputNote, RecordError};
pub use manager::Manager;
pub use output_log::Output;
pub use rounds::is_last_round;
