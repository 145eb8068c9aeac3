//! The words of events, of what is answered to them and of what a process is about to do, as text: each is written here alone, wherever
//! an event or an answer is shown. What the end of a run tells of processes that ended, trapped or wait has texts of its own, with more
//! in each (om_reasons, om_run_commands).
//!
//! In an order of reading: `status_text`, `event_text` (the lines of a script), `answer_text`.
#![tactic(auto)]

mod answer_text;
mod event_text;
mod status_text;

pub use answer_text::{accept_word, push_answer, refusal_word};
pub use event_text::push_event;
pub use status_text::push_status;
