//! Whether a worker that has nothing to do yields before it sleeps.

ghost use Rattle.std.specs.Prelude.{◌≡◌, ◌≤◌, ◌↔◌, ◌-◌, ◌*◌, min, IsTrue};
ghost use Rattle.om_pacing.specs.declared.spin_policy.TheConstants.{FEWEST_RESTS, MOST_RESTS};

/// In how many waits a worker sleeps at once, after a yield that gave a time slice away: twice as many each time, unless a yield was
/// worth while in between.
pub const FEWEST_RESTS: u32 = 1_024;

/// In how many waits a worker sleeps at once at most.
pub const MOST_RESTS: u32 = 16_384;

/// Says whether a worker yields before it sleeps. A yield costs less than a sleep that is ended, where nobody else has work for the
/// processor; beside busy programs it costs a time slice.
#[derive(Drop)]
pub struct SpinPolicy {
    /// In how many waits the worker still sleeps at once.
    pub rests: u32,
    /// In how many it sleeps at once after the next yield that gives a time slice away.
    pub next: u32,
    ghost few: { rests ≤ MOST_RESTS },
    ghost some: { FEWEST_RESTS ≤ next },
    ghost bounded: { next ≤ MOST_RESTS },
}

impl SpinPolicy {
    /// Makes the policy of a worker at its start.
    pub fn new() -> SpinPolicy
        ensures rests { result.rests ≡ 0 }
        ensures next { result.next ≡ FEWEST_RESTS }
    {
        SpinPolicy {
            rests: 0,
            next: FEWEST_RESTS,
        }
    }

    /// Returns whether the worker would yield before it sleeps.
    pub fn is_patient(&self) -> bool
        ensures { IsTrue result ↔ self.now.rests ≡ 0 }
    {
        self.rests == 0
    }

    /// Begins a wait, and says whether the worker yields first.
    pub fn begin(&mut self) -> bool
        ensures yields { IsTrue result ↔ self.old.rests ≡ 0 }
        ensures counted { self.new.rests ≡ self.old.rests - 1 }
        ensures same { self.new.next ≡ self.old.next }
    {
        let yields = self.rests == 0;
        self.rests = self.rests.saturating_sub(1);
        yields
    }

    /// Has the worker sleep at once in the next waits, as a yield gave a time slice away.
    pub fn end(&mut self)
        ensures rests { self.new.rests ≡ self.old.next }
        ensures doubled { self.new.next ≡ min (2 * self.old.next) MOST_RESTS }
    {
        self.rests = self.next;
        self.next = (2 * self.next).min(MOST_RESTS);
    }

    /// Forgets the yields that gave a time slice away, as the worker was woken while it yielded.
    pub fn gain(&mut self)
        ensures same { self.new.rests ≡ self.old.rests }
        ensures next { self.new.next ≡ FEWEST_RESTS }
    {
        self.next = FEWEST_RESTS;
    }
}
