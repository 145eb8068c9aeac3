//! A look into the store of a process: what it holds, to where it can be replayed, and how the process goes on from there.
//!
//! In an order of reading:
//!
//! - what a store holds: `content` (the text of all), `lines` (a record as a line), `gathering` (the checkpoints), `stops` (how
//!   far replays go), `spans` (intervals as ranges), `reading`, `fault`
//! - what a run is told that takes it up: `rows` (a manager's, and the senders of receipts), `about` (what the store is of)
//! - how a process goes on: `tracing`, `trace_text` (its lines), `writes` (what instructions write)
#![tactic(auto)]

mod about;
mod content;
mod fault;
mod gathering;
mod lines;
mod reading;
mod rows;
mod spans;
mod stops;
mod trace_text;
mod tracing;
mod writes;

pub use about::{ABOUT_KIND, ABOUT_VERSION, about_of};
pub use content::content_text;
pub use fault::LookFault;
pub use rows::{RowsFault, stored_rows, stored_senders};
pub use tracing::{Traced, trace};
