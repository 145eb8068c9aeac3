//! Any moment of a record, forward and back, as one of its processes sees it.
//!
//! In an order of reading: `deed` (what an event did to the process), `alone` (its machine, run again without the process around
//! it), `player` (the world, which plays a long run in parts), `kind` and `tape` (the record, played
//! as far as was asked), `reel` (such a record, or one of which all is told at once), `stage` (machines that are kept), `timeline` (a position, with the machine there), `whole` (all
//! that a record did to one process), `fault`.
#![tactic(auto)]

pub use alone::{Alone, copy_of};
pub use deed::Deed;
pub use fault::PlayFault;
pub use tape::Peek;
pub use timeline::{Position, Timeline};

mod alone;
mod deed;
mod fault;
mod kind;
mod player;
mod reel;
mod stage;
mod tape;
mod timeline;
mod whole;
