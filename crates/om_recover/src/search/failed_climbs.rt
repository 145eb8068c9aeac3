//! The climbs that failed, so that none is made again for nothing.

ghost use Rattle.std.specs.Prelude.{◌≡◌, ℕ, ◌<◌, ◌≤◌, ⊤, false, slice_index_or, Option, Some, None, MatchOption};
ghost use Rattle.om_recover.specs.steps.Memory.{HasPlace, IsKept, IsPartWithin, IsUpTo, IsWithout, part_of};
ghost use Rattle.om_interval.specs.declared.pid.TheConstants.{MAX_PROCESSES};

use om_interval::{DepVec, MAX_PROCESSES, Pid};

/// A climb that failed.
#[derive(Clone, Copy, Debug)]
pub struct FailedClimb {
    /// The interval from which it climbed.
    pub start: u32,
    /// How far it came.
    pub reached: DepVec,
    /// How far it came by what it read before the last: so far it comes whatever becomes of the last.
    pub passed: DepVec,
    /// The process that lacks a stable interval ..
    pub waits: Pid,
    /// .. at this one or above.
    pub from: u32,
}

impl FailedClimb {
    // Returns what is left of it where the interval that was read last is not in its way any longer: it lacks nothing.
    fn part(&self) -> FailedClimb
        ensures { result ≡ part_of self.now }
    {
        FailedClimb {
            start: self.start,
            reached: self.passed,
            passed: self.passed,
            waits: self.waits,
            from: 0,
        }
    }
}

/// Of each process the climb that is remembered, if there is one.
#[derive(Clone, Copy, Debug)]
pub struct FailedClimbs {
    pub(crate) places: [Option<FailedClimb>; MAX_PROCESSES],
    // Whether there may be one.
    any: bool,
    ghost nothing: { any ≡ false → (p : ℕ) → slice_index_or places p None ≡ None },
}

impl FailedClimbs {
    /// Makes a memory of no failed climb of any process.
    pub fn new() -> FailedClimbs
        ensures { (p : ℕ) → slice_index_or result.places p None ≡ None }
    {
        FailedClimbs {
            places: [None; MAX_PROCESSES],
            any: false,
        }
    }

    pub(crate) fn get(&self, pid: Pid) -> Option<&FailedClimb>
        ensures { MatchOption result (slice_index_or self.now.places pid None ≡ None)
            (λ memory. slice_index_or self.now.places pid None ≡ Some memory.now) }
    {
        match &self.places[pid.index()] {
            None => None,
            Some(memory) => Some(memory),
        }
    }

    fn put(&mut self, pid: Pid, memory: Option<FailedClimb>)
        ensures here { slice_index_or self.new.places pid None ≡ memory }
        ensures others { (q : ℕ) → (q ≡ pid → ⊥) → slice_index_or self.new.places q None ≡ slice_index_or self.old.places q None }
    {
        self.any = true;
        self.places[pid.index()] = memory;
    }

    // Remembers a climb, unless one from a lower start above the floor is remembered.
    pub(crate) fn keep(&mut self, pid: Pid, floor: u32, memory: FailedClimb)
        ensures { IsKept self.old.places self.new.places pid memory }
    {
        if let Some(known) = self.get(pid) {
            if floor < known.start && known.start < memory.start {
                return;
            }
        }
        self.put(pid, Some(memory));
    }

    // Forgets of the memories of the first `n` processes what came further, at a process, than to an interval.
    pub(crate) fn forget(&mut self, n: usize, pid: Pid, x: u32)
        requires within { n ≤ MAX_PROCESSES }
        requires places { (q : ℕ) → q < n → MatchOption (slice_index_or self.old.places q None) ⊤ (HasPlace pid) }
        ensures { IsWithout n self.old.places self.new.places pid x }
    {
        if !self.any {
            return;
        }
        for p in 0..n {
            let q = Pid::at(p);
            if self.is_beyond(q, pid, x) {
                self.put(q, self.part_within(q, pid, x));
            }
        }
    }

    // Returns whether a climb of a process is remembered that came further, at another, than to an interval.
    fn is_beyond(&self, of: Pid, pid: Pid, x: u32) -> bool
        requires { MatchOption (slice_index_or self.now.places of None) ⊤ (HasPlace pid) }
        ensures { result ≡ false → MatchOption (slice_index_or self.now.places of None) ⊤ (IsUpTo pid x) }
    {
        match &self.places[of.index()] {
            None => false,
            Some(memory) => x < memory.reached.get(pid) || x < memory.passed.get(pid),
        }
    }

    // Returns what is left of a process's memory, unless that came further, at another, than to an interval.
    fn part_within(&self, of: Pid, pid: Pid, x: u32) -> Option<FailedClimb>
        requires { MatchOption (slice_index_or self.now.places of None) ⊤ (HasPlace pid) }
        ensures { IsPartWithin (slice_index_or self.now.places of None) pid x result }
    {
        match &self.places[of.index()] {
            Some(memory) if memory.passed.get(pid) <= x => Some(memory.part()),
            _ => None,
        }
    }
}
