//! A database that is only read: what its file and the log beside it hold, as values, is opened as a database in memory. What was read
//! of files is known from here on: memory gives back what it was given.
//!
//! In an order of reading: `bytes` (what the two files hold), `error`.
#![tactic(auto)]

mod bytes;
mod error;

pub use bytes::{DatabaseBytes, still_answers};
pub use error::CopyError;
