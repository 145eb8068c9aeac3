//! Tests of programs and of the commands, but for those over stores and those that run a cluster; and of the command line: what
//! its words ask for, and what is told where they ask for nothing or a command is refused.
#![tactic(auto)]

#[cfg(test)]
mod commands;
#[cfg(test)]
mod ending;
#[cfg(test)]
mod endings;
#[cfg(test)]
mod folding;
#[cfg(test)]
mod image;
#[cfg(test)]
mod programs;
#[cfg(test)]
mod reasons;
#[cfg(test)]
mod requests;
#[cfg(test)]
mod rows;
#[cfg(test)]
mod screen;
#[cfg(test)]
mod sim;
