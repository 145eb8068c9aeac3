//! A process of a record under gdb, forward and back: what gdb's remote protocol asks of a timeline.
//!
//! In an order of reading: `moment` (what comes next to the process), `watching` (which watchpoint that meets), `stop` (why the
//! process stands, as it is told), `wish` (who may wish a stop), `debugger` (a process, where it is to stop, and what packets ask of
//! it), `moving` (forward to a stop, and back to one), `standing` (where it stands, for one who shows several), `monitor` (commands of the user).
#![tactic(auto)]

pub use debugger::{Debugger, Reply};
pub use monitor::HELP;
pub use stop::Stop;
pub use wish::Wish;

mod debugger;
mod moment;
mod monitor;
mod moving;
mod standing;
mod stop;
mod watching;
mod wish;
