//! Queues of what a process made: the messages to one process, and the outputs.

ghost use Rattle.std.specs.Prelude.{◌≡◌, ◌+◌, ◌-◌, ◌<◌, ◌≤◌, drop, max, IfOk, OnOk, OnErr};
ghost use Rattle.om_format.specs.Queues.{queue_end, queue_record};
ghost use Rattle.om_process.specs.Kept.{numbered, sent_as, made_as};
ghost use Rattle.om_process.specs.Process.{empty_queue};
ghost use Rattle.om_process.specs.steps.Pieces.{with_entry};
ghost use Rattle.om_process.specs.Trims.{trimmed_queue};
ghost use Rattle.om_process.specs.declared.limits.TheConstants.{LAST_NUMBER, LAST_OUTPUT};

use crate::fifo::Fifo;
use om_format::{Body, Queue, QueueEntry};
use std::alloc::{AllocError, Global};
use std::marker::Model;

/// A message that was sent.
#[derive(Debug, PartialEq, Eq, Drop)]
pub struct Sent {
    /// Its number among the messages to the same process, from 0.
    pub ssn: u32,
    /// The interval in which it was sent.
    pub interval: u32,
    pub body: Body,
}

/// An output that was made.
#[derive(Debug, PartialEq, Eq, Drop)]
pub struct Made {
    /// Its number among the outputs, from 0.
    pub seq: u64,
    /// The interval in which it was made.
    pub interval: u32,
    pub bytes: Body,
}

/// The messages to one process that are kept, from the number `first` on.
#[derive(Debug, Drop)]
pub struct Messages {
    first: u32,
    kept: Fifo<Sent>,
}

impl Model for Messages {
    ghost use Rattle.std.specs.Prelude.{map};
    ghost use Rattle.om_format.specs.Queues.{QueueRecord};
    ghost use Rattle.om_process.specs.Kept.{sent_as};
    ghost use Rattle.om_process.specs.steps.Numbers.{AreNumbered, sent_entry};
    ghost use Rattle.om_process.specs.declared.limits.TheConstants.{LAST_NUMBER};

    ghost Value = { QueueRecord };

    ghost view = { λ q. record { first = q.first; entries = map sent_entry q.kept } };

    ghost invariant = { λ q. AreNumbered sent_as LAST_NUMBER
        (record { first = q.first; entries = map sent_entry q.kept }) q.kept };
}

impl Messages {
    /// Makes a queue of no messages yet.
    pub fn new(alloc: Global) -> Messages
        ensures { result ≡ empty_queue }
    {
        Messages {
            first: 0,
            kept: Fifo::new(alloc),
        }
    }

    /// Makes the messages of a queue of a checkpoint that ends at the number `stop`.
    pub fn of(alloc: Global, queue: Queue, stop: u32) -> Result<Messages, AllocError>
        requires { queue_end (queue_record queue) ≡ stop }
        ensures { IfOk result (λ messages. messages ≡ queue_record queue) }
    {
        let first = stop - queue.entries.len() as u32;
        let mut ssn = first;
        let mut kept = Vec::with_capacity(alloc, queue.entries.len())?;
        for entry in queue.entries {
            kept.push(Sent {
                ssn,
                interval: entry.interval,
                body: entry.body,
            })?;
            ssn += 1;
        }
        Ok(Messages {
            first,
            kept: Fifo::of(kept),
        })
    }

    /// Returns the messages, with their numbers.
    pub fn as_slice(&self) -> &[Sent]
        ensures { result.now ≡ numbered sent_as self.now.first self.now.entries }
    {
        self.kept.as_slice()
    }

    /// Adds a message, which gets the next number.
    pub fn push(&mut self, interval: u32, body: Body) -> Result<(), AllocError>
        requires { queue_end self.old < LAST_NUMBER }
        ensures ok { OnOk result (self.new ≡ with_entry (record { interval = interval; body = body }) self.old) }
        ensures err { OnErr result (self.new ≡ self.old) }
    {
        let ssn = self.first + self.kept.len() as u32;
        self.kept.push(Sent {
            ssn,
            interval,
            body,
        })?;
        Ok(())
    }

    /// Drops the messages numbered below the bound.
    pub fn trim(&mut self, bound: u32)
        ensures { self.new ≡ trimmed_queue bound self.old }
    {
        let gone = (bound.saturating_sub(self.first) as usize).min(self.kept.len());
        self.kept.drop_front(gone);
        self.first += gone as u32;
    }

    /// Copies the messages into a queue of a checkpoint.
    pub fn queue(&self, alloc: Global) -> Result<Queue, AllocError>
        ensures { IfOk result (λ queue. queue_record queue ≡ self.now) }
    {
        let mut entries = Vec::with_capacity(alloc, self.kept.len())?;
        for sent in self.kept.as_slice() {
            entries.push(QueueEntry {
                interval: sent.interval,
                body: sent.body.copy(alloc)?,
            })?;
        }
        Ok(Queue {
            first: u64::from(self.first),
            entries,
        })
    }
}

/// The outputs that are kept, from the number `first` on.
#[derive(Debug, Drop)]
pub struct Outputs {
    first: u64,
    kept: Fifo<Made>,
}

impl Model for Outputs {
    ghost use Rattle.std.specs.Prelude.{map};
    ghost use Rattle.om_format.specs.Queues.{QueueRecord};
    ghost use Rattle.om_process.specs.Kept.{made_as};
    ghost use Rattle.om_process.specs.steps.Numbers.{AreNumbered, made_entry};
    ghost use Rattle.om_process.specs.declared.limits.TheConstants.{LAST_OUTPUT};

    ghost Value = { QueueRecord };

    ghost view = { λ q. record { first = q.first; entries = map made_entry q.kept } };

    ghost invariant = { λ q. AreNumbered made_as LAST_OUTPUT
        (record { first = q.first; entries = map made_entry q.kept }) q.kept };
}

impl Outputs {
    /// Makes a queue of no outputs yet.
    pub fn new(alloc: Global) -> Outputs
        ensures { result ≡ empty_queue }
    {
        Outputs {
            first: 0,
            kept: Fifo::new(alloc),
        }
    }

    /// Makes the outputs of a queue of a checkpoint.
    pub fn of(alloc: Global, queue: Queue) -> Result<Outputs, AllocError>
        requires { queue_end (queue_record queue) ≤ LAST_OUTPUT }
        ensures { IfOk result (λ outputs. outputs ≡ queue_record queue) }
    {
        let first = queue.first;
        let mut seq = first;
        let mut kept = Vec::with_capacity(alloc, queue.entries.len())?;
        for entry in queue.entries {
            kept.push(Made {
                seq,
                interval: entry.interval,
                bytes: entry.body,
            })?;
            seq += 1;
        }
        Ok(Outputs {
            first,
            kept: Fifo::of(kept),
        })
    }

    /// Returns the outputs numbered `seq` and above, with their numbers.
    pub fn above(&self, seq: u64) -> &[Made]
        ensures { result.now ≡ numbered made_as (max self.now.first seq) (drop (seq - self.now.first) self.now.entries) }
    {
        let before = seq.saturating_sub(self.first).min(self.kept.len() as u64);
        &self.kept.as_slice()[before as usize..]
    }

    /// Adds an output, which gets the next number.
    pub fn push(&mut self, interval: u32, bytes: Body) -> Result<(), AllocError>
        requires { queue_end self.old < LAST_OUTPUT }
        ensures ok { OnOk result (self.new ≡ with_entry (record { interval = interval; body = bytes }) self.old) }
        ensures err { OnErr result (self.new ≡ self.old) }
    {
        let seq = self.first + self.kept.len() as u64;
        self.kept.push(Made {
            seq,
            interval,
            bytes,
        })?;
        Ok(())
    }

    /// Drops the outputs numbered below the bound.
    pub fn trim(&mut self, bound: u64)
        ensures { self.new ≡ trimmed_queue bound self.old }
    {
        let gone = bound.saturating_sub(self.first).min(self.kept.len() as u64);
        self.kept.drop_front(gone as usize);
        self.first += gone;
    }

    /// Copies the outputs into a queue of a checkpoint.
    pub fn queue(&self, alloc: Global) -> Result<Queue, AllocError>
        ensures { IfOk result (λ queue. queue_record queue ≡ self.now) }
    {
        let mut entries = Vec::with_capacity(alloc, self.kept.len())?;
        for made in self.kept.as_slice() {
            entries.push(QueueEntry {
                interval: made.interval,
                body: made.bytes.copy(alloc)?,
            })?;
        }
        Ok(Queue {
            first: self.first,
            entries,
        })
    }
}
