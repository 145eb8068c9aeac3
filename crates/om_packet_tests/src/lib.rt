//! Tests of packets: sums as gdb's documentation and gdb itself write them, bytes that are none, what packets ask, and what is answered.
#![tactic(auto)]

#[cfg(test)]
mod answering;
#[cfg(test)]
mod asking;
#[cfg(test)]
mod reading;
#[cfg(test)]
mod writing;
