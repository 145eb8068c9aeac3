//! Checked runs: what a witness may name, what a check refuses, and the texts of rings.

mod follows;
mod modes;
mod once;
mod plays;
mod random_kills;
mod records;
mod rings;
mod runs;
mod witnesses;
