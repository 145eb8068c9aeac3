//! Tests of a world: its events and their answers, and stores that stop and memory that is refused at any call; and of runs
//! without failures in every order that a scheduler picks.
#![tactic(auto)]

#[cfg(test)]
mod all;
#[cfg(test)]
mod events;
#[cfg(test)]
mod orders;
#[cfg(test)]
mod refused_memory;
#[cfg(test)]
mod restarted;
#[cfg(test)]
mod spelled;
#[cfg(test)]
mod stopped;
