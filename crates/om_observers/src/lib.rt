//! What observes a run of a cluster: who is told what its threads do, each only where somebody asks for it.
//!
//! A run without observers pays a test of an option for each. Those that are asked for take a lock of their own: the recorder's
//! at each act, the herald's at each call of the manager, a process's at each turn that is shown. What stands in a lock says
//! nothing to a contract, so what is told is tested, by records that are played and by texts.
//!
//! In an order of reading:
//!
//! - `observers`: who observes a run, in one value
//! - `diary`: what a worker tells of its process
//! - `recorder`: what the threads did, in one order, part by part
//! - `witness`: what one process did, but for what was rolled back
//! - `herald`: outputs as they are released
//! - `watch`, with `sight` and `progress`: what the processes do, for whoever looks while they run
#![tactic(auto)]

mod diary;
mod herald;
mod observers;
mod progress;
mod recorder;
mod sight;
mod watch;
mod witness;

pub use diary::Diary;
pub use herald::{Herald, Release};
pub use observers::Observers;
pub use progress::Progress;
pub use recorder::{Act, Letter, Record, Recorder, Scribe};
pub use sight::{Doing, Sight};
pub use watch::Watch;
pub use witness::Past;
