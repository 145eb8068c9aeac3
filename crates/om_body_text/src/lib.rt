//! The bodies of the messages that a store holds, as text.
//!
//! In an order of reading: `bodies`.
#![tactic(auto)]

mod bodies;

pub use bodies::bodies_text;
