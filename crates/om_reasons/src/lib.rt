//! Why a command was refused, in words for people: the rule that a faulty line breaks and how such a line is written, what may be
//! done about any other fault, and of a run that came to no end which processes had come to theirs.
//!
//! In an order of reading: `rules`, `advice`, `ends`.
#![tactic(auto)]

mod advice;
mod ends;
mod rules;

pub use advice::advice_on;
pub use ends::ends_text;
pub use rules::{form_of, rule_of};
