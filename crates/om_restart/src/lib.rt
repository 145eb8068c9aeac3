//! What a store holds for a run that takes it up after a crash of the whole program.
//!
//! A process is not needed for a look, and nothing is written by one. What a store answers is trusted as far as it says that it is
//! clean.
//!
//! In an order of reading: `output` (an output as a store keeps it), `found` (all that is found in one store), `receiving` (its
//! receipts, as rows tell them), `finding` (the look).
#![tactic(auto)]

mod finding;
mod found;
mod output;
mod receiving;

pub use finding::{FindFault, find};
pub use found::Found;
pub use output::{OUTPUT_HEAD, output_record, read_output};
