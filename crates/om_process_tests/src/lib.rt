//! Tests of a process: its calls, and how it is stored, replayed and rolled back; and of looks into stores: what they hold, and
//! how processes go on.
#![tactic(auto)]

#[cfg(test)]
mod calls;
#[cfg(test)]
mod contents;
#[cfg(test)]
mod flights;
#[cfg(test)]
mod parts;
#[cfg(test)]
mod replaying;
#[cfg(test)]
mod returning;
#[cfg(test)]
mod storing;
#[cfg(test)]
mod taken_up;
#[cfg(test)]
mod traces;
