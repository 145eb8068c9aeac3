//! Where a process that is up waits until all are.

ghost use Rattle.std.specs.Prelude.{◌≡◌, ◌≤◌, ◌+◌, ◌*◌, ◌↔◌, IsTrue};
ghost use Rattle.om_interval.specs.declared.pid.TheConstants.{MAX_PROCESSES};

use om_interval::MAX_PROCESSES;
use std::sync::atomic::AtomicU64;
use std::sync::atomic::Ordering::SeqCst;

/// Has processes that come up wait for each other: each counts itself once at its start, when its store is made, and once in each
/// round, when its store is cut where it has to be. Until all have counted themselves nobody goes on: else one could store what
/// another's store contradicts that is not cut yet.
#[derive(Drop)]
pub struct Barrier<'a> {
    // How often processes came up, in all.
    returns: &'a AtomicU64,
    /// The number of processes.
    pub n: usize,
    /// How many returns the process waits for; 0 where it has passed.
    pub due: u64,
    ghost few: { n ≤ MAX_PROCESSES },
}

impl<'a> Barrier<'a> {
    /// Makes the barrier of one of n processes, which is not up yet.
    pub fn new(returns: &'a AtomicU64, n: usize) -> Barrier<'a>
        requires { n ≤ MAX_PROCESSES }
        ensures { result.n ≡ n }
    {
        Barrier { returns, n, due: 0 }
    }

    /// Counts the process, which came up in this round, and says whether it was the last.
    pub fn arrive(&mut self, round: u32) -> bool
        ensures due { self.new.due ≡ (round + 1) * self.old.n }
        ensures n { self.new.n ≡ self.old.n }
    {
        self.due = (u64::from(round) + 1) * self.n as u64;
        self.returns.fetch_add(1, SeqCst).wrapping_add(1) >= self.due
    }

    /// Returns whether the process has passed.
    pub fn is_passed(&self) -> bool
        ensures { IsTrue result ↔ self.now.due ≡ 0 }
    {
        self.due == 0
    }

    /// Passes where all have come up, and says whether they have.
    pub fn pass(&mut self) -> bool
        ensures passed { IsTrue result → self.new.due ≡ 0 }
        ensures waits { (IsTrue result → ⊥) → self.new.due ≡ self.old.due }
        ensures n { self.new.n ≡ self.old.n }
    {
        let is_open = self.returns.load(SeqCst) >= self.due;
        if is_open {
            self.due = 0;
        }
        is_open
    }
}
