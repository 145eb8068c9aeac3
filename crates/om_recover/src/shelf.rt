//! What lies between the search and the rows.

ghost use Rattle.std.specs.Prelude.{◌≡◌, ℕ, ◌<◌, length, IsTrue};
ghost use Rattle.om_recover.specs.Rows.{Rows, HasRow, Has, IsLawful};
ghost use Rattle.om_recover.specs.steps.Trail.{with_look};
ghost use Rattle.om_recover.specs.steps.Climbing.{AllEndBy, EndsBy, TellsLeast};

use crate::work::Work;
use om_interval::{DepVec, Pid};

/// Rows, as a search is lent them.
pub trait Shelf {
    ghost rows: { Self → Rows };

    /// The numbers of the vector of an interval that has a row: the one call that reads it.
    fn look(&self, pid: Pid, x: u32, work: &mut Work) -> &[u32]
        requires attempted { 0 < length work.old.attempts }
        requires lawful { (n : ℕ) × IsLawful n (rows self.now) }
        requires there { (kind : _) × Has (rows self.now) kind pid x }
        ensures vec { (row : _) → HasRow (rows self.now) row → row.pid ≡ pid → row.interval ≡ x → row.vec ≡ result.now }
        ensures counted { work.new.attempts ≡ with_look work.old.attempts pid x };

    /// Returns whether it is seen at once that no stable interval of a process is above this one.
    fn ends_by(&self, pid: Pid, x: u32) -> bool
        ensures { IsTrue result → EndsBy (rows self.now) pid x };

    /// Returns whether it is seen at once that no process has a stable interval above its place of a state.
    fn all_end_by(&self, state: &DepVec) -> bool
        ensures { IsTrue result → AllEndBy (rows self.now) state.now };

    /// The least stable interval of a process at or above an interval.
    fn least_stable(&self, pid: Pid, from: u32) -> Option<u32>
        ensures { TellsLeast (rows self.now) pid from result };
}
