//! All processes of a cluster, their stores and their manager, in one thread: a world, and what it is at each point, whatever was
//! refused: a point of a run without failures.
//!
//! An event costs what its process, store and manager cost: what was received is kept by clauses alone. The stores are trusted as far
//! as they say that they are clean.
//!
//! In an order of reading:
//!
//! - what there is: `event` (events and answers), `world` (the parts, and the reads), `process_state`; `entry` and `remembered` (what
//!   was received, which clauses alone know), `since` (the last finished round); `laws` (theorems over the definitions)
//! - `start`, and `play`: one event after another; `stopping`: the end; `stopped`: what is left of a world, which `taking_up` takes up
//! - the events: `run`, `give`, `frames` (what is sent), `storing` (flushes and checkpoints), `failing`, `joining`, `resume`, `trim`,
//!   `prune`, `restart`
#![tactic(auto)]

pub use entry::Entry;
pub use event::{Answer, Event, Refusal};
pub use process_state::ProcessState;
pub use stopped::Stopped;
pub use taking_up::NotTakenUp;
pub use world::World;

mod entry;
mod event;
mod failing;
mod frames;
mod give;
mod joining;
pub mod laws;
mod play;
mod process_state;
mod prune;
mod remembered;
mod restart;
mod resume;
mod run;
mod since;
mod start;
mod stopped;
mod stopping;
mod storing;
mod taking_up;
mod trim;
mod world;
