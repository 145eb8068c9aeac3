//! Runs without failures, played in one thread: the one that a run of a cluster comes to, and any that there can be.
//!
//! In an order of reading:
//!
//! - a run as it is played: `stage` (a world, with the messages that were not received), `lines` (those messages), `events` (each event
//!   by itself), `trail` (with all that happened)
//! - the run that witnesses name: `playing`, `player`
//! - any run: `resting` and `next` (what can be received next), `exploring` (in an order that is given), `walk` and `all` (in every order)
//! - `ended`, `laws` (what the end says), `fault`
#![tactic(auto)]

mod all;
mod ended;
mod events;
mod exploring;
mod fault;
pub mod laws;
mod lines;
mod next;
mod player;
mod playing;
mod resting;
mod stage;
mod trail;
mod walk;

pub use all::{Visitor, explore_all};
pub use exploring::{Delivery, End, Explored, Scheduler, explore};
pub use fault::PlayFault;
pub use playing::{play, play_and_keep_events};
