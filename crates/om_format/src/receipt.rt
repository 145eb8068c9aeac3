//! Receipts.

ghost use Rattle.std.specs.Prelude.{◌<◌};

use crate::body::Body;
use om_interval::Pid;

/// What a process keeps of a message that it received.
#[derive(Debug, Drop)]
pub struct Receipt {
    pub to: Pid,
    pub from: Pid,
    /// The interval of the receiver that the receipt begins: 1 and above.
    pub interval: u32,
    /// The interval of the sender in which the message was sent.
    pub sender_interval: u32,
    /// The number of the message among those from this sender to this receiver, from 0.
    pub ssn: u32,
    /// How many instructions the receiver had finished as it waited.
    pub count: u64,
    pub body: Body,
    // So many messages, and this one, were received in different intervals.
    pub ghost numbered: { ssn < interval },
}
