//! The commands over cluster files: a cluster that is run by threads, what they did, and what it comes to. Text in, text out.
//!
//! A command reads the whole of its input once, then runs the cluster, then writes; where outputs are followed, it writes while the
//! cluster runs. Only what the reader, the writer, the stores and the threads answer is trusted.
//!
//! In an order of reading:
//!
//! - `request`: a run in all its modes, over the bytes of a cluster file; `mode`, `context` (what a run has beside its input and
//!   its text)
//! - what all modes share: `cluster_script` (the lines), `random_kills` (kills that are drawn in place of lines), `run_text` (the text of a run), `error`, `laws`
//! - `run`; `waiting` (what its processes wait for), `trapped` (which of them trapped),
//!   `refused_sends` (how many sends were refused), `kills_left` (which kills did not come)
//! - `check`: `run --check` and `run --witness`, with `checked` (the comparison) and `event_text` (the run without failures as a
//!   script)
//! - `followed`: `run --follow`; `followed_raw`: with `--raw` too
//! - `recorded`: `run --record`, with `record_text`
#![tactic(auto)]

mod check;
mod checked;
mod cluster_script;
mod context;
mod error;
mod event_text;
mod followed;
mod followed_raw;
mod kills_left;
pub mod laws;
mod mode;
mod random_kills;
mod record_text;
mod recorded;
mod refused_sends;
mod request;
mod run;
mod run_text;
mod trapped;
mod waiting;

pub use checked::{checked_events, checked_text};
pub use cluster_script::ClusterScript;
pub use context::RunContext;
pub use event_text::events_text;
pub use kills_left::{has_kills_left, kills_left_text};
pub use mode::RunMode;
pub use random_kills::{LAST_DRAWN, RandomKills};
pub use refused_sends::refused_sends_text;
pub use request::run_file;
pub use run_text::report_text;
pub use trapped::{has_trapped, trapped_text};
pub use waiting::waiting_text;
