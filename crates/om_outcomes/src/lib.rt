//! How a command comes to its end: what refused it, and why, for whoever asks for more.
//!
//! In an order of reading:
//!
//! - `failure`: what is no good end
//! - `reasons`: why a command was refused, in more words
//! - `source`, `output`: what a command reads and writes, and why it could not
#![tactic(auto)]

mod failure;
mod output;
mod reasons;
mod source;

pub use failure::Failure;
pub use output::Output;
pub use reasons::Reasons;
pub use source::{Origin, Source, source_of};
