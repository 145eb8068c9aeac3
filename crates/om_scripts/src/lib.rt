//! The programs of a cluster and its processes, as the lines of a script give them.
//!
//! A name is looked up by its hash; an image is written once. Nothing is trusted here but the kit's maps.
//!
//! In an order of reading: `programs` (what the lines build), `image` (a memory from words), `names` (which names there may
//! be), `named` (values by name), `laws` (the limits, as numbers).
#![tactic(auto)]

mod image;
pub mod laws;
mod named;
mod names;
mod programs;

pub use names::{MAX_NAME, name_of};
pub use programs::{MAX_KILLS, Programs};
