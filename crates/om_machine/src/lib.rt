//! A deterministic machine that runs RV32I, and RV32M where its program may use it: registers, memory, and one step at a time.
//!
//! A word is decoded into an entry of a table when it is first fetched and after it was stored to; a step after that is one match
//! on the entry's operation, and so are two steps that are often one behind the other.
//! Nothing is allocated while a machine runs. Nothing is trusted here.
//!
//! In an order of reading:
//!
//! - a machine: `machine` (its parts, and the reads), `limits`, `fault` (why there is none), `memory`, `comparison`
//! - what it does: `run` (many steps), `step` (one), `instruction` (what each does), `values` and `products` (what they
//!   compute), `effect`
//! - how it is fast: `entry` and `known` (the table of predecoded words), `predecode` (the entry of a word), `pairs` (two words in
//!   one entry), `interpreter` (the loop over entries)
//! - where it stops: `event`, and `finish` (the result of a call of its environment)
//! - `laws`: theorems over the definitions
#![tactic(auto)]

pub use event::{Cause, EnvCall, Event};
pub use fault::LoadFault;
pub use machine::Machine;
pub use run::Ran;

mod comparison;
mod effect;
mod entry;
mod event;
mod fault;
mod finish;
mod instruction;
mod interpreter;
mod known;
pub mod laws;
mod limits;
mod machine;
mod memory;
mod pairs;
mod predecode;
mod products;
mod run;
mod step;
mod values;
