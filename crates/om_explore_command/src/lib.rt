//! The command `explore`: the runs without failures that a cluster can come to, in different orders of receipts, and the texts that
//! they come to. One thread plays them; nothing fails in them, since whatever fails in a run, it comes to what a run without
//! failures comes to.
//!
//! In an order of reading:
//!
//! - `request`: an exploration of the bytes of a cluster file; `options`, `context` (what it has beside its input and its text)
//! - `outcome` (what a run comes to), `tally` (how often runs come to each text) with `texts`
//! - `exploration`: which runs are played, with `random` (orders that are drawn) and `gathering` (what is kept of them)
//! - `text`, with `difference` (where two texts differ)
//! - `laws`: what it says of other runs of the cluster
#![tactic(auto)]

mod context;
mod difference;
mod exploration;
mod gathering;
pub mod laws;
mod options;
mod outcome;
mod random;
mod request;
mod tally;
mod text;
mod texts;

pub use context::ExploreContext;
pub use difference::TextPosition;
pub use exploration::{Exploration, explored};
pub use options::Options;
pub use outcome::Outcome;
pub use request::explore_file;
pub use tally::Found;
