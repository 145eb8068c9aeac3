//! A process that is up, and its reads.

ghost use Rattle.std.specs.Prelude.{◌≡◌, slice_index, sum};
ghost use Rattle.om_process.specs.Core.{AreLast, cluster_size, move_of, status_of};
ghost use Rattle.om_process.specs.Starting.{IsPlace};
ghost use Rattle.om_process.specs.Frames.{outputs_of};
ghost use Rattle.om_format.specs.Queues.{queue_end};

use crate::log::Logged;
use crate::plan::plan_at;
use crate::queues::{Messages, Outputs};
use crate::row::PendingRow;
use crate::status::Status;
use om_interval::{DepVec, Pid, Starts};
use om_machine::Machine;
use std::marker::Model;

/// A process that is up: its machine, what it made and got, and its volatile log.
#[derive(Debug, Drop)]
pub struct ProcCore {
    pub(crate) pid: Pid,
    pub(crate) machine: Machine,
    pub(crate) interval: u32,
    pub(crate) vec: DepVec,
    pub(crate) got: DepVec,
    pub(crate) sent: DepVec,
    pub(crate) made: u64,
    pub(crate) outbox: Vec<Messages>,
    pub(crate) outputs: Outputs,
    pub(crate) log: Vec<Logged>,
    pub(crate) pending: Vec<PendingRow>,
    pub(crate) inc: u32,
    pub(crate) round: u32,
    pub(crate) starts: Starts,
}

impl Model for ProcCore {
    ghost use Rattle.std.specs.Prelude.{◌++◌, ◌∷◌, [], length, map};
    ghost use Rattle.om_process.specs.Core.{CoreState};
    ghost use Rattle.om_process.specs.steps.Lawful.{IsCore};
    ghost use Rattle.om_process.specs.steps.Views.{logged_record};

    ghost Value = { CoreState };

    ghost view = { λ c. record {
      own = c.pid;
      now = record {
        machine = c.machine;
        interval = c.interval;
        vec = c.vec;
        got = c.got;
        queues = c.outbox.items ++ c.outputs ∷ [];
      };
      log = map logged_record c.log.items;
      pending = c.pending.items;
      inc = c.inc;
      round = c.round;
      starts = c.starts;
    } };

    ghost invariant = { λ c. IsCore (record {
      own = c.pid;
      count = c.machine.count;
      interval = c.interval;
      vec = c.vec;
      got = c.got;
      sent = c.sent;
      made = c.made;
      outbox = c.outbox.items;
      outputs = c.outputs;
      log = map logged_record c.log.items;
      starts = c.starts;
    }) };
}

impl ProcCore {
    /// Returns what the process is about to do.
    pub fn status(&self) -> Status
        ensures { result ≡ status_of (move_of self.now) }
    {
        plan_at(&self.machine, &self.sent, self.machine.peek()).status()
    }

    /// Returns the interval that the process is in.
    pub fn interval(&self) -> u32
        ensures interval { result ≡ self.now.now.interval }
        ensures log { AreLast result self.now.log }
    {
        self.interval
    }

    /// Returns the direct dependencies of the interval that the process is in.
    pub fn vec(&self) -> &DepVec
        ensures vec { result.now ≡ self.now.now.vec }
        ensures own { slice_index result.now self.now.own ≡ self.now.now.interval }
        ensures place { IsPlace self.now.own (cluster_size self.now.now) }
    {
        &self.vec
    }

    /// Returns how many messages were received, by sender.
    pub fn got(&self) -> &DepVec
        ensures got { result.now ≡ self.now.now.got }
        ensures received { sum result.now ≡ self.now.now.interval }
    {
        &self.got
    }

    /// Returns how many outputs were made.
    pub fn made(&self) -> u64
        ensures { result ≡ queue_end (outputs_of self.now) }
    {
        self.made
    }

    /// Returns the incarnation of the process.
    pub fn inc(&self) -> u32
        ensures { result ≡ self.now.inc }
    {
        self.inc
    }

    /// Returns the number of the last round of recovery that the process knows.
    pub fn round(&self) -> u32
        ensures { result ≡ self.now.round }
    {
        self.round
    }

    /// Returns the machine of the process.
    pub fn machine(&self) -> &Machine
        ensures { result.now ≡ self.now.now.machine }
    {
        &self.machine
    }

    /// Returns the rows that the manager is still to be told of.
    pub fn pending(&self) -> &[PendingRow]
        ensures { result.now ≡ self.now.pending }
    {
        &self.pending
    }
}
