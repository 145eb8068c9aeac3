//! Processes, state intervals, dependency vectors and incarnations: the words that every layer above shares.
//!
//! A read of a vector costs one access; two vectors are compared place by place, at most 16. Nothing is trusted here.
//!
//! In an order of reading: `pid` (a process), `dep_vec` (what an interval depends on), `tag` (what a message carries of its
//! sender), `starts` (where incarnations begin) and `shared_blocks` (those of one process), `verdict` (what a round of recovery says to
//! a process), `bounds` (what a process need not keep), `laws` (theorems over the definitions).
#![tactic(auto)]

mod bounds;
mod dep_vec;
pub mod laws;
mod pid;
mod shared_blocks;
mod starts;
mod tag;
mod verdict;

pub use bounds::Bounds;
pub use dep_vec::DepVec;
pub use pid::{MAX_PROCESSES, Pid};
pub use starts::Starts;
pub use tag::Tag;
pub use verdict::Verdict;
