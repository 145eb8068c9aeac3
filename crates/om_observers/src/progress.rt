//! How far a cluster has come.

ghost use Rattle.std.specs.Prelude.{◌≡◌, ◌<◌, ◌≤◌, ◌+◌, ◌↔◌, IsTrue};
ghost use Rattle.om_observers.specs.Watching.{IsNewest, capped, newness, sum_over};

use crate::sight::Sight;
use om_board::Front;
use std::fmt;

/// How far a cluster has come, by what was seen of its processes. Sums that have no room are the highest number.
#[derive(Clone, Copy, Debug, PartialEq, Eq)]
pub struct Progress {
    /// The instructions of all.
    pub count: u64,
    /// The messages that were put into inboxes.
    pub put: u64,
    /// The messages that were taken from inboxes.
    pub taken: u64,
    /// The newest of what was read of the manager.
    pub front: Option<Front>,
}

// Returns whether one front is newer than the other. None is the oldest.
fn is_newer(one: &Option<Front>, other: &Option<Front>) -> bool
    ensures { IsTrue result ↔ newness other.now < newness one.now }
{
    let Some(one) = one else {
        return false;
    };
    match other {
        Some(other) => one.version > other.version,
        None => true,
    }
}

impl Progress {
    /// Makes the progress of a cluster of whose processes this was seen.
    pub fn of(sights: &[Sight]) -> Progress
        ensures count { result.count ≡ sum_over (λ s. s.count) sights.now }
        ensures put { result.put ≡ sum_over (λ s. s.put) sights.now }
        ensures taken { result.taken ≡ sum_over (λ s. s.taken) sights.now }
        ensures newest { IsNewest sights.now result.front }
    {
        let mut progress = Progress {
            count: 0,
            put: 0,
            taken: 0,
            front: None,
        };
        for sight in sights {
            progress = progress.with(sight);
        }
        progress
    }

    // Adds what was seen of one more process.
    fn with(self, sight: &Sight) -> Progress
        ensures count { result.count ≡ capped (self.count + sight.now.count) }
        ensures put { result.put ≡ capped (self.put + sight.now.put) }
        ensures taken { result.taken ≡ capped (self.taken + sight.now.taken) }
        ensures newer { newness self.front < newness sight.now.front → result.front ≡ sight.now.front }
        ensures kept { newness sight.now.front ≤ newness self.front → result.front ≡ self.front }
    {
        let front = if is_newer(&sight.front, &self.front) {
            sight.front
        } else {
            self.front
        };
        Progress {
            count: self.count.saturating_add(sight.count),
            put: self.put.saturating_add(sight.put),
            taken: self.taken.saturating_add(sight.taken),
            front,
        }
    }
}

impl fmt::Display for Progress {
    fn fmt<W: fmt::Write>(&self, f: &mut fmt::Formatter<W>) -> fmt::Result {
        let Progress {
            count,
            put,
            taken,
            ..
        } = self;
        write!(f, "{count} instructions, {put} messages put, {taken} taken")?;
        let Some(front) = &self.front else {
            return Ok(());
        };
        write!(f, ", round {}, recovery state", front.round)?;
        for number in front.vec.as_slice() {
            write!(f, " {number}")?;
        }
        Ok(())
    }
}
