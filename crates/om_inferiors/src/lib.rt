//! Several processes of a record under gdb, forward and back, in one time.
//!
//! Each process is an inferior of its own, and all stand at one moment of the record. In an order of reading: `inferior` (a process,
//! its number and its name), `moving` (all forward to a stop, and back to one), `stop` (a stop as it is told), `inferiors` (what
//! packets ask of them), `monitor` (commands of the user), `shown` (one process, or all), `serving` (packets in, packets out).
#![tactic(auto)]

pub use inferior::Inferior;
pub use inferiors::Inferiors;
pub use serving::{ServeError, serve};
pub use shown::Shown;

mod inferior;
mod inferiors;
mod monitor;
mod moving;
mod serving;
mod shown;
mod stop;
