//! Messages on their way.

ghost use Rattle.std.specs.Prelude.{◌≡◌, IfOk};

use crate::body::Body;
use om_interval::{Pid, Tag};
use std::alloc::{AllocError, Global};

/// A message on its way.
#[derive(Debug, Drop)]
pub struct Message {
    pub from: Pid,
    pub to: Pid,
    /// The sender's incarnation, and the interval in which it sent the message.
    pub tag: Tag,
    /// The number of the message among those from this sender to this receiver, from 0.
    pub ssn: u32,
    pub body: Body,
}

impl Message {
    /// Copies the message. Long bytes are shared with the copy. Refused only where there are too many copies to be counted.
    pub fn copy(&self, alloc: Global) -> Result<Message, AllocError>
        ensures { IfOk result (λ copy. copy ≡ self.now) }
    {
        let body = self.body.copy(alloc)?;
        Ok(Message {
            from: self.from,
            to: self.to,
            tag: self.tag,
            ssn: self.ssn,
            body,
        })
    }
}
