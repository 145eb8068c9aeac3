//! Tests of a process of a record under gdb: packets as gdb writes them, with what is answered; and of bytes that one thread
//! reads and another takes.
#![tactic(auto)]

#[cfg(test)]
mod session;
#[cfg(test)]
mod takings;
