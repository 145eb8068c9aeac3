//! The text of a picture that is whole, as an SVG.
//!
//! It costs the text of each piece, which is written once. Nothing is trusted here but the names of processes and programs,
//! which are written as they are.
//!
//! In an order of reading: `text` (the whole), `shape_text` (marks and lines), `word_text`, `answer_text` (recovery states, refusals),
//! `laws` (no byte of a title, a state, a word or a script's name needs an escape).
#![tactic(auto)]

pub use text::picture_text;

mod answer_text;
pub mod laws;
mod shape_text;
mod text;
mod word_text;
