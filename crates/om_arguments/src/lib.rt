//! The command line: what its words ask for, and how a command ends.
//!
//! - `commands`: the subcommands, their helps and options (`building` puts them together); `arguments`: their requests; both with `debug_request`, `draw_request`,
//!   `explore_request` and `look_requests`; `mistake` (what is wrong with a value)
//! - `ending`: the status, and the line on standard error
#![tactic(auto)]

mod arguments;
mod building;
mod commands;
mod debug_request;
mod draw_request;
mod ending;
mod explore_request;
mod look_requests;
mod mistake;

pub use arguments::{Asked, Checking, Kills, OutputForm, Request, Running, parse};
pub use commands::{FRONTIER_HELP, HELP, IMAGE_HELP, RUN_HELP, SIM_HELP};
pub use debug_request::{DEBUG_HELP, SymbolFile};
pub use draw_request::Lines;
pub use ending::{end, end_unasked, end_unread};
pub use explore_request::{EXPLORE_HELP, Exploring};
pub use look_requests::{Look, REPLAY_HELP};
