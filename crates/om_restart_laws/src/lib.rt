//! Laws of restarts: what a start comes to that finds stores whose records are true of a run without failures.
//!
//! - `laws`: the rows that such stores stand for are true of that run, their recovery state cuts it to one that is a run too, nothing
//!   is lost that the stores could serve, and replays stand where that run leads; however often that happens, all is one run
#![tactic(auto)]

pub mod laws;
