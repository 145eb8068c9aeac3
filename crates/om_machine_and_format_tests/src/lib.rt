//! Tests of what the house stands on: vectors, instructions, the machine, records and texts, whose values come from outside.
#![tactic(auto)]

#[cfg(test)]
mod format;
#[cfg(test)]
mod interval;
#[cfg(test)]
mod isa;
#[cfg(test)]
mod machine;
#[cfg(test)]
mod pages;
#[cfg(test)]
mod same;
#[cfg(test)]
mod text;
