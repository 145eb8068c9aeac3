//! The entries of a run without failures.

use om_format::Body;
use om_interval::Pid;

/// A message that a process received, in a run without failures.
#[derive(Debug, Drop)]
pub struct Entry {
    pub to: Pid,
    pub from: Pid,
    /// The number of the message among those from its sender to its receiver.
    pub ssn: u32,
    /// The interval of the sender in which it was sent.
    pub interval: u32,
    pub body: Body,
}
