//! What searches did, in proofs alone.

ghost use Rattle.std.specs.Prelude.{◌≡◌, ◌<◌, List, [], ◌∷◌, length};
ghost use Rattle.std.specs.Borrow.{ftrue};
ghost use Rattle.std.specs.Coded.{coded_list};
ghost use Rattle.om_recover.specs.Attempts.{Attempt};
ghost use Rattle.om_recover.specs.steps.Trail.{coded_attempt, after_step, with_look};

use crate::step::SearchStep;
use om_interval::{DepVec, Pid};
use std::marker::Model;

/// What searches did: their attempts, the newest first. It takes no bytes.
#[derive(Drop)]
pub struct Work {
    pub ghost attempts: { List Attempt } by { coded_list coded_attempt },
}

impl Model for Work {
    ghost also_owns = { λ _. ftrue };
}

impl Work {
    /// Makes work of which nothing is done yet.
    pub fn new() -> Work
        ensures { result.attempts ≡ [] }
    {
        Work {}
    }

    /// Adds an attempt that starts at an interval of a process, from a state.
    pub fn attempt(&mut self, pid: Pid, x: u32, state: &DepVec)
        ensures { self.new.attempts ≡ record { pid = pid; interval = x; state = state.now; looks = [] } ∷ self.old.attempts }
    {
        *self = Work::after(
            self,
            &SearchStep::Attempt {
                pid,
                interval: x,
                state: *state,
            },
        );
    }

    // Adds a look to the newest attempt.
    pub(crate) fn add_look(&mut self, pid: Pid, x: u32)
        requires { 0 < length self.old.attempts }
        ensures { self.new.attempts ≡ with_look self.old.attempts pid x }
    {
        *self = Work::after(self, &SearchStep::Look { pid, interval: x });
    }

    fn after(_before: &Work, _step: &SearchStep) -> Work
        ensures { result.attempts ≡ after_step _before.now.attempts _step.now }
    {
        Work {}
    }
}
