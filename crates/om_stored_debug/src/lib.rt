//! The command `debug` over a store: its process under gdb, forward and back.
//!
//! In an order of reading: `command` (over any store), `held` (over the store that the bytes of a database hold).
#![tactic(auto)]

pub use command::{debug_store, open_store};
pub use held::debug_in;

mod command;
mod held;
