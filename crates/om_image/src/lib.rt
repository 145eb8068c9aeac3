//! The `program` line of a raw image.
//!
//! An image of n bytes costs a line of 9 bytes for every 4 of them; at most one byte more than a memory may have is read. What
//! a reader gives and a writer takes is trusted to them.
//!
//! In an order of reading: `command`, `line` (the line, and whether a script would take it), `words` (bytes as words of
//! the machine, and these as text), `laws` (what is written reads back), `error`.
#![tactic(auto)]

mod command;
mod error;
pub mod laws;
mod line;
mod words;

pub use command::image;
pub use error::ImageError;
