//! The text of what a store keeps beside its records, for a run that takes it up.
//!
//! In an order of reading: `about` (what the store is of), `rows` (a row of a table as a line), `text` (all tables).
#![tactic(auto)]

mod about;
mod rows;
mod text;

pub use text::{all_text, ledger_text};
