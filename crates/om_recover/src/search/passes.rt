//! Passes over all processes, until none can be raised.

ghost use Rattle.std.specs.Prelude.{◌≡◌, ℕ, ◌+◌, ◌<◌, ◌≤◌, ◌⊎◌, length, slice_index, MatchOption};
ghost use Rattle.om_interval.specs.Vectors.{IsBelow};
ghost use Rattle.om_recover.specs.Rows.{IsLawful};
ghost use Rattle.om_recover.specs.Recoverable.{IsStable, IsRecoverable, IsGreatest};
ghost use Rattle.om_recover.specs.Climb.{IsLeastStable};
ghost use Rattle.om_recover.specs.steps.Climbing.{ArePassed, AreWithinOrStarted, IsAtRest, IsRaised, IsSearchedByEither, TellsLeast, IsOutOfReach};
ghost use Rattle.om_recover.specs.steps.Memory.{AreRemembered};
ghost use Rattle.om_recover.specs.Counted.{IsSearched};

use crate::search::climb::climb;
use crate::search::failed_climbs::FailedClimbs;
use crate::shelf::Shelf;
use crate::work::Work;
use om_interval::{DepVec, Pid};

/// Returns the greatest recoverable state, where each is within the given one or has the process at the interval
/// or above.
pub fn greatest_from<S: Shelf>(
    shelf: &S,
    state: &DepVec,
    pid: Pid,
    x: u32,
    memories: &mut FailedClimbs,
    work: &mut Work,
) -> DepVec
    requires lawful { IsLawful (length state.now) (S.rows shelf.now) }
    requires state { IsRecoverable (length state.now) (S.rows shelf.now) state.now }
    requires process { pid < length state.now }
    requires start { IsStable (S.rows shelf.now) pid x }
    requires above { slice_index state.now pid < x }
    requires remembered { AreRemembered (length state.now) (S.rows shelf.now) state.now memories.old.places }
    requires others { AreWithinOrStarted (length state.now) (S.rows shelf.now) state.now pid x }
    ensures greatest { IsGreatest (length state.now) (S.rows shelf.now) result }
    ensures remembered { AreRemembered (length state.now) (S.rows shelf.now) result memories.new.places }
    ensures counted { IsSearched (length state.now) (S.rows shelf.now) state.now pid x result work.old.attempts work.new.attempts }
{
    match climb(shelf, state, pid, x, memories, work) {
        None => *state,
        Some(climbed) => highest_from(shelf, &climbed, memories, work),
    }
}

/// Returns the greatest recoverable state, where each is within the given one or has the process at the lower of two intervals or
/// above. The higher is tried first: from there one climb does what each interval between would have a climb of its own for.
pub fn greatest_by_either<S: Shelf>(
    shelf: &S,
    state: &DepVec,
    pid: Pid,
    low: u32,
    high: u32,
    memories: &mut FailedClimbs,
    work: &mut Work,
) -> DepVec
    requires lawful { IsLawful (length state.now) (S.rows shelf.now) }
    requires state { IsRecoverable (length state.now) (S.rows shelf.now) state.now }
    requires process { pid < length state.now }
    requires low { IsStable (S.rows shelf.now) pid low }
    requires high { IsStable (S.rows shelf.now) pid high }
    requires above { slice_index state.now pid < low }
    requires order { low ≤ high }
    requires remembered { AreRemembered (length state.now) (S.rows shelf.now) state.now memories.old.places }
    requires others { AreWithinOrStarted (length state.now) (S.rows shelf.now) state.now pid low }
    ensures greatest { IsGreatest (length state.now) (S.rows shelf.now) result }
    ensures remembered { AreRemembered (length state.now) (S.rows shelf.now) result memories.new.places }
    ensures counted { IsSearchedByEither (length state.now) (S.rows shelf.now) state.now pid low high result work.old.attempts work.new.attempts }
{
    if low == high {
        return greatest_from(shelf, state, pid, low, memories, work);
    }
    match climb(shelf, state, pid, high, memories, work) {
        None => greatest_from(shelf, state, pid, low, memories, work),
        Some(climbed) => highest_from(shelf, &climbed, memories, work),
    }
}

// Returns what passes raise a recoverable state to, until no process can be raised.
fn highest_from<S: Shelf>(
    shelf: &S,
    state: &DepVec,
    memories: &mut FailedClimbs,
    work: &mut Work,
) -> DepVec
    requires lawful { IsLawful (length state.now) (S.rows shelf.now) }
    requires state { IsRecoverable (length state.now) (S.rows shelf.now) state.now }
    requires remembered { AreRemembered (length state.now) (S.rows shelf.now) state.now memories.old.places }
    ensures greatest { IsGreatest (length state.now) (S.rows shelf.now) result }
    ensures above { IsBelow state.now result }
    ensures remembered { AreRemembered (length state.now) (S.rows shelf.now) result memories.new.places }
    ensures counted { IsRaised (length state.now) (S.rows shelf.now) state.now result work.old.attempts work.new.attempts }
{
    let mut raised = *state;
    loop {
        if shelf.all_end_by(&raised) {
            return raised;
        }
        let higher = pass(shelf, &raised, memories, work);
        if higher.leq(&raised) {
            return raised;
        }
        raised = higher;
    }
}

// Makes one attempt for each process, at its least stable interval above the state.
fn pass<S: Shelf>(shelf: &S, state: &DepVec, memories: &mut FailedClimbs, work: &mut Work) -> DepVec
    requires lawful { IsLawful (length state.now) (S.rows shelf.now) }
    requires state { IsRecoverable (length state.now) (S.rows shelf.now) state.now }
    requires remembered { AreRemembered (length state.now) (S.rows shelf.now) state.now memories.old.places }
    ensures remembered { AreRemembered (length state.now) (S.rows shelf.now) result memories.new.places }
    ensures recoverable { IsRecoverable (length state.now) (S.rows shelf.now) result }
    ensures above { IsBelow state.now result }
    ensures at_rest { result ≡ state.now → IsAtRest (length state.now) (S.rows shelf.now) state.now }
    ensures counted { ArePassed (length state.now) (S.rows shelf.now) state.now result (length state.now)
        work.old.attempts work.new.attempts }
{
    let mut higher = *state;
    for p in 0..state.n() {
        let pid = Pid::at(p);
        if !shelf.ends_by(pid, higher.get(pid)) {
            higher = raised_at(shelf, &higher, pid, memories, work);
        }
    }
    higher
}

// Returns the state after an attempt at the process's least stable interval above it, if there is one.
fn raised_at<S: Shelf>(
    shelf: &S,
    state: &DepVec,
    pid: Pid,
    memories: &mut FailedClimbs,
    work: &mut Work,
) -> DepVec
    requires lawful { IsLawful (length state.now) (S.rows shelf.now) }
    requires state { IsRecoverable (length state.now) (S.rows shelf.now) state.now }
    requires process { pid < length state.now }
    requires remembered { AreRemembered (length state.now) (S.rows shelf.now) state.now memories.old.places }
    ensures remembered { AreRemembered (length state.now) (S.rows shelf.now) result memories.new.places }
    ensures recoverable { IsRecoverable (length state.now) (S.rows shelf.now) result }
    ensures above { IsBelow state.now result }
    ensures at_rest { result ≡ state.now → IsOutOfReach (length state.now) (S.rows shelf.now) pid (slice_index state.now pid + 1) }
    ensures counted { ArePassed (length state.now) (S.rows shelf.now) state.now result 1 work.old.attempts work.new.attempts }
{
    let Some(y) = least_above(shelf, state, pid) else {
        return *state;
    };
    match climb(shelf, state, pid, y, memories, work) {
        None => *state,
        Some(climbed) => climbed,
    }
}

// Returns the least stable interval of a process above its place of the state.
fn least_above<S: Shelf>(shelf: &S, state: &DepVec, pid: Pid) -> Option<u32>
    requires lawful { IsLawful (length state.now) (S.rows shelf.now) }
    requires process { pid < length state.now }
    ensures { TellsLeast (S.rows shelf.now) pid (slice_index state.now pid + 1) result }
{
    match state.get(pid).checked_add(1) {
        None => None,
        Some(from) => shelf.least_stable(pid, from),
    }
}
