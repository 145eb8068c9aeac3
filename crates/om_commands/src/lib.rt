//! The commands on message logs, checkpoints and recovery states of message-passing programs: text in, text out. Those that run a
//! cluster stand in a crate above, and so does `draw`.
//!
//! A command reads the whole of its input, then computes, then writes. Only what the reader, the writer and the stores answer
//! is trusted.
//!
//! In an order of reading:
//!
//! - what all share: `command` (reads the input, writes the answer), `error`
//! - `frontier`: with `record_script` (its lines), `report` (the texts of answers)
//! - `decode`: with `word_script`
//! - `sim`: with `sim_script` and `events` (its lines), `sim_text` (the lines of answers, and how the world stands), `bytes_text` (the bytes of outputs)
//! - `replay` with `state_text`, and `steps`; `show`
//! - `laws`
#![tactic(auto)]

mod bytes_text;
mod command;
pub mod decode;
mod error;
mod events;
pub mod frontier;
pub mod laws;
mod record_script;
pub mod replay;
mod report;
pub mod show;
pub mod sim;
mod sim_script;
mod sim_text;
mod state_text;
pub mod steps;
mod word_script;

pub use bytes_text::{BytesForm, push_bytes, push_bytes_in};
pub use command::{read_input, write_answer};
pub use error::CommandError;
pub use report::push_state;
pub use sim_script::SimScript;
pub use sim_text::{name_of, push_output, push_outputs};
