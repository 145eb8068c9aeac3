//! The outputs of one process that were handed in.

ghost use Rattle.std.specs.Prelude.{◌≡◌, ◌<◌, ◌≤◌, ◌↔◌, [], length, map, slice_get, IsTrue, OnOk, OnErr, Some};
ghost use Rattle.om_manager.specs.Outputs.{held_of, within, AreNumbered};
ghost use Rattle.om_manager.specs.steps.OutputLog.{log_with, log_to, log_within, IsUpTo, LogNotes};

use crate::answers::{OutputError, OutputNote};
use om_bytes::Bytes;
use std::alloc::{AllocError, Global};
use std::marker::Model;

/// An output of a process.
#[derive(Debug, Drop)]
pub struct Output {
    /// Its number among the process's outputs, from 0.
    pub seq: u64,
    /// The interval in which it was made.
    pub interval: u32,
    pub bytes: Bytes,
}

/// The outputs of one process that were handed in and not cut. Those up to its place of the recovery state are released:
/// as the intervals of outputs never fall, they are the first ones, and their number is moved forward as the state rises.
#[derive(Debug, Drop)]
pub struct OutputLog {
    items: Vec<Output>,
    released: usize,
    limit: u32,
}

impl Model for OutputLog {
    ghost use Rattle.std.specs.Prelude.{map};
    ghost use Rattle.om_manager.specs.Outputs.{held_of};
    ghost use Rattle.om_manager.specs.steps.OutputLog.{LogState, IsLog};
    ghost use Rattle.om_manager.specs.steps.Codes.{coded_log};

    ghost Value = { LogState };

    ghost coded = { coded_log };

    ghost view = { λ l. record { held = map held_of l.items.items; limit = l.limit } };

    ghost invariant = { λ l. IsLog l.items.items l.released l.limit };
}

impl OutputLog {
    pub fn new(alloc: Global) -> OutputLog
        ensures held { result.held ≡ [] }
        ensures limit { result.limit ≡ 0 }
    {
        OutputLog {
            items: Vec::new(alloc),
            released: 0,
            limit: 0,
        }
    }

    /// Returns the number of the next output.
    pub fn next(&self) -> usize
        ensures { result ≡ length self.now.held }
    {
        self.items.len()
    }

    /// Takes the output that is offered under the number `seq`: the next one is added, and an earlier one has to be there.
    pub fn note(
        &mut self,
        alloc: Global,
        seq: u64,
        interval: u32,
        bytes: &[u8],
    ) -> Result<OutputNote, OutputError>
        ensures { LogNotes self.old seq (record { interval = interval; bytes = bytes.now }) result self.new }
    {
        let next = self.next() as u64;
        if seq < next {
            return if self.is_at(seq as usize, interval, bytes) {
                Ok(OutputNote::Known)
            } else {
                Err(OutputError::Differs)
            };
        }
        if seq > next {
            return Err(OutputError::Gap(next));
        }
        if !self.is_up_to(interval) {
            return Err(OutputError::Differs);
        }
        match self.push(alloc, interval, bytes) {
            Err(_) => Err(OutputError::Memory),
            Ok(()) if interval <= self.limit => Ok(OutputNote::Released),
            Ok(()) => Ok(OutputNote::Held),
        }
    }

    // Returns whether the output of this number is of this interval and has these bytes.
    fn is_at(&self, seq: usize, interval: u32, bytes: &[u8]) -> bool
        requires { seq < length self.now.held }
        ensures { IsTrue result ↔ (slice_get self.now.held seq ≡ Some (record { interval = interval; bytes = bytes.now })) }
    {
        is_output(&self.items[seq], interval, bytes)
    }

    // Returns whether no output was made after this interval.
    fn is_up_to(&self, interval: u32) -> bool
        ensures { IsTrue result ↔ IsUpTo self.now interval }
    {
        let next = self.items.len();
        next == 0 || self.items[next - 1].interval <= interval
    }

    // Keeps one output more.
    fn push(&mut self, alloc: Global, interval: u32, bytes: &[u8]) -> Result<(), AllocError>
        requires { IsUpTo self.old interval }
        ensures ok { OnOk result (self.new ≡ log_with self.old (record { interval = interval; bytes = bytes.now })) }
        ensures err { OnErr result (self.new ≡ self.old) }
    {
        let seq = self.items.len() as u64;
        let bytes = Bytes::from_slice(alloc, bytes)?;
        self.items.push(Output {
            seq,
            interval,
            bytes,
        })?;
        if interval <= self.limit {
            self.released = self.items.len();
        }
        Ok(())
    }

    /// Releases what is within a higher place of the recovery state.
    pub fn raise(&mut self, limit: u32)
        requires { self.old.limit ≤ limit }
        ensures { self.new ≡ log_to self.old limit }
    {
        while self.released < self.items.len() && self.items[self.released].interval <= limit {
            self.released += 1;
        }
        self.limit = limit;
    }

    /// Drops what is not released.
    pub fn cut(&mut self)
        ensures { self.new ≡ log_within self.old }
    {
        self.items.truncate(self.released);
    }

    /// Returns what is released.
    pub fn released(&self) -> &[Output]
        ensures outputs { map held_of result.now ≡ within self.now.held self.now.limit }
        ensures numbered { AreNumbered result.now }
    {
        &self.items[..self.released]
    }
}

fn is_output(output: &Output, interval: u32, bytes: &[u8]) -> bool
    ensures { IsTrue result ↔ ((output.now.interval ≡ interval) × (output.now.bytes ≡ bytes.now)) }
{
    output.interval == interval && output.bytes.as_slice() == bytes
}
