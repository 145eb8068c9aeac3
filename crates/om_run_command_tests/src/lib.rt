//! Tests of the commands that run a cluster, and of what they stand on, over stores in memory.
#![tactic(auto)]

#[cfg(test)]
mod beside;
#[cfg(test)]
mod checks;
#[cfg(test)]
mod rows;
#[cfg(test)]
mod run;
#[cfg(test)]
mod streams;
#[cfg(test)]
mod waiting;
