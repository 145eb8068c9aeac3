//! The commands that look into a store: `replay` and `show`, over any store, over a connection, and over the bytes of a database's file
//! and of its log. Text out. What stands in the bytes is known from here on; that they are a file's is for whoever read them.
//!
//! In an order of reading:
//!
//! - `opening`: a database of bytes, and whether what was told of it is known
//! - `replaying`, `stepping`: the command `replay`, without and with `--steps`
//! - `showing`, `bodies`: the command `show`, without and with `--bodies`
#![tactic(auto)]

mod bodies;
mod opening;
mod replaying;
mod showing;
mod stepping;

pub use bodies::{show_all_bodies, show_bodies, show_bodies_in, show_bodies_over};
pub use opening::{known, opened};
pub use replaying::{replay_in, replay_over};
pub use showing::{show_all, show_in, show_over};
pub use stepping::{steps_in, steps_over};
