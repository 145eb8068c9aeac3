//! The messages or outputs that are kept, as a checkpoint holds them.

ghost use Rattle.std.specs.Prelude.{◌≡◌, IfOk};
ghost use Rattle.om_format.specs.Queues.{queue_record};

use crate::body::Body;
use std::alloc::{AllocError, Global};

/// A message or an output that is kept, without its number.
#[derive(Debug, PartialEq, Eq, Drop)]
pub struct QueueEntry {
    /// The interval in which it was made.
    pub interval: u32,
    pub body: Body,
}

impl QueueEntry {
    /// Copies the entry. Long bytes are shared with the copy. Refused only where there are too many copies to be counted.
    pub fn copy(&self, alloc: Global) -> Result<QueueEntry, AllocError>
        ensures { IfOk result (λ copy. copy ≡ self.now) }
    {
        let body = self.body.copy(alloc)?;
        Ok(QueueEntry {
            interval: self.interval,
            body,
        })
    }
}

/// The kept end of a numbered list of messages or outputs, the oldest first.
#[derive(Debug, PartialEq, Eq, Drop)]
pub struct Queue {
    /// The number of the first entry.
    pub first: u64,
    pub entries: Vec<QueueEntry>,
}

impl Queue {
    /// Copies the queue. Long bytes are shared with the copy. Refused only where memory ran out, or there are too many copies to be
    /// counted.
    pub fn copy(&self, alloc: Global) -> Result<Queue, AllocError>
        ensures { IfOk result (λ copy. queue_record copy ≡ queue_record self.now) }
    {
        let mut entries = Vec::with_capacity(alloc, self.entries.len())?;
        for entry in &self.entries {
            entries.push(entry.copy(alloc)?)?;
        }
        Ok(Queue {
            first: self.first,
            entries,
        })
    }
}
