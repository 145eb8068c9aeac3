//! Which processes are in a gathering.

ghost use Rattle.std.specs.Prelude.{◌≡◌, ◌≢◌, ℕ, ◌<◌, ◌≤◌, ◌↔◌, length, slice_index, IsTrue};
ghost use Rattle.om_interval.specs.Starts.{is_named};
ghost use Rattle.om_interval.specs.declared.pid.TheConstants.{MAX_PROCESSES};
ghost use Rattle.om_manager.specs.Gatherings.{presence_of, AreAllIn, begins};
ghost use Rattle.om_manager.specs.declared.presence.Presence.TheVariants.{Away};

use om_interval::{DepVec, MAX_PROCESSES, Pid};

/// Whether a process is in a gathering.
#[derive(Clone, Copy, Debug, PartialEq, Eq)]
pub enum Presence {
    /// It is not in.
    Away,
    /// It failed.
    Failed,
    /// It joined, and was in this interval.
    Joined(u32),
}

/// Returns whether each of the first `n` processes is in.
pub fn are_all_in(presences: &[Presence; MAX_PROCESSES], n: usize) -> bool
    requires { n ≤ MAX_PROCESSES }
    ensures { IsTrue result ↔ AreAllIn n presences.now }
{
    presences[..n].iter().all(is_in)
}

fn is_in(presence: &Presence) -> bool
    ensures { IsTrue result ↔ (presence.now ≢ Away) }
{
    *presence != Presence::Away
}

/// Returns which processes begin an incarnation: those that failed, and those that were beyond the state.
pub fn new_incarnations(
    presences: &[Presence; MAX_PROCESSES],
    state: &DepVec,
) -> [bool; MAX_PROCESSES]
    ensures { (p : ℕ) → p < length state.now → is_named result p ≡ begins (presence_of presences.now p) (slice_index state.now p) }
{
    let mut who = [false; MAX_PROCESSES];
    for p in 0..state.n() {
        who[p] = is_to_begin(presences[p], state.get(Pid::at(p)));
    }
    who
}

fn is_to_begin(presence: Presence, place: u32) -> bool
    ensures { result ≡ begins presence place }
{
    match presence {
        Presence::Away => false,
        Presence::Failed => true,
        Presence::Joined(current) => place < current,
    }
}
