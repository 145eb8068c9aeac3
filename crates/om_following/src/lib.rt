//! Who follows a run of a cluster.
//!
//! A follower is told of a cluster's outputs as they are released: of each once, in order, and of nothing else.
//!
//! In an order of reading: `follower` (who is told), `followed_outputs` and `following` (what it is told, and when).
#![tactic(auto)]

mod followed_outputs;
mod follower;
mod following;

pub use followed_outputs::FollowedOutputs;
pub use follower::{FollowFault, Follower};
pub use following::Following;
