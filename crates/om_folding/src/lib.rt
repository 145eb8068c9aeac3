//! Rows of zeros in the text of a memory, folded.
//!
//! In an order of reading: `folding` (the text), `lines` (its lines), `rows` (which lines are rows of zeros).
#![tactic(auto)]

mod folding;
mod lines;
mod rows;

pub use folding::fold_zero_rows;
