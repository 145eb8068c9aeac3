//! The command `debug`: processes of a record under gdb.
//!
//! In an order of reading: `command` (one process), `all` (all of them), `symbols` (the files that gdb asks for), `error`.
#![tactic(auto)]

pub use all::{debug_all, open_all};
pub use command::{debug, open};
pub use error::DebugError;
pub use symbols::Symbols;

mod all;
mod command;
mod error;
mod symbols;
