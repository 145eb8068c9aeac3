//! The space-time picture of a run: which marks stand for which events, and where.
//!
//! A picture costs its events, and some 240 bytes for each mark; lanes are few, and a mark is settled once. It is told each
//! event with its answer, the frames and outputs that it made, and the recovery state behind it, and takes these at their
//! word: no world is known here. Nothing else is trusted.
//!
//! In an order of reading:
//!
//! - the drawing: `picture` (what is drawn, event by event), `own` (an event on its lane), `history` (marks that wait for their
//!   fate), `settle` (marks that are kept), `rounds` (marks that are cut), `ending` (the right side)
//! - where it stands: `placing` (the column of an event), `column`, `page` (all but the marks), `lane`, `frame` (messages),
//!   `measure` (how wide texts are), `counts`
//! - `laws`: which events stand right of which, what is cut, stored and released
#![tactic(auto)]

pub use picture::{MOST_NAME, Picture};

mod column;
mod counts;
mod ending;
mod frame;
mod history;
mod lane;
pub mod laws;
mod measure;
mod own;
mod page;
mod picture;
mod placing;
mod rounds;
mod settle;
