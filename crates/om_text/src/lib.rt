//! Texts in: bytes to lines, lines to words, words to values, and whole scripts over any meaning of a line.
//!
//! A text is read once, and each byte is looked at a few times; its lines and words are borrowed. Nothing is trusted here but
//! what the reader hands over.
//!
//! In an order of reading: `text` (the whole of an input), `lines`, `words`, `numbered` (lines with their numbers), `numbers`,
//! `script` (lines with a meaning), `error` (what can be wrong, and in which line), `laws` (theorems over the definitions).
#![tactic(auto)]

mod error;
pub mod laws;
mod lines;
mod numbered;
mod numbers;
mod script;
mod text;
mod words;

pub use error::{BuildError, LineError, ScriptError};
pub use numbered::numbered_lines;
pub use numbers::{hex_word, long_number_of, number_of};
pub use script::{Builder, read_script};
pub use text::{MAX_BYTES, MAX_TURNS, ReadError, read_text};
