//! Climbs: from a state to the least recoverable one with a process as high as asked.

ghost use Rattle.std.specs.Prelude.{◌≡◌, ◌<◌, ◌≤◌, length, slice_index, slice_set, MatchResult};
ghost use Rattle.om_interval.specs.Vectors.{IsBelow};
ghost use Rattle.om_recover.specs.Rows.{IsLawful};
ghost use Rattle.om_recover.specs.Recoverable.{IsStable, IsRecoverable, maximum_of};
ghost use Rattle.om_recover.specs.steps.Climbing.{TellsClimb, TellsBegin, TellsBehind, IsAttempted, IsUnderWay, IsClimbing, IsPassing, IsForced, IsBlocked, without_newest};
ghost use Rattle.om_recover.specs.steps.Memory.{IsRemembered, AreRemembered};

use crate::numbers::{is_below, number_of};
use crate::search::failed_climbs::{FailedClimb, FailedClimbs};
use crate::shelf::Shelf;
use crate::work::Work;
use om_interval::{DepVec, Pid};

/// Climbs from the state, with a process raised to an interval, to the least recoverable state there, if there is one.
pub fn climb<S: Shelf>(
    shelf: &S,
    state: &DepVec,
    pid: Pid,
    x: u32,
    memories: &mut FailedClimbs,
    work: &mut Work,
) -> Option<DepVec>
    requires lawful { IsLawful (length state.now) (S.rows shelf.now) }
    requires state { IsRecoverable (length state.now) (S.rows shelf.now) state.now }
    requires process { pid < length state.now }
    requires start { IsStable (S.rows shelf.now) pid x }
    requires above { slice_index state.now pid < x }
    requires remembered { AreRemembered (length state.now) (S.rows shelf.now) state.now memories.old.places }
    ensures climbed { TellsClimb (length state.now) (S.rows shelf.now) state.now pid x result }
    ensures counted { IsAttempted (S.rows shelf.now) state.now pid x work.old.attempts work.new.attempts }
    ensures remembered { AreRemembered (length state.now) (S.rows shelf.now) state.now memories.new.places }
{
    work.attempt(pid, x, state);
    match memories.get(pid) {
        Some(memory) if memory.start <= x => {
            let Some(begun) = begin_known(shelf, state, pid, x, memory) else {
                return None;
            };
            let way = ClimbProgress {
                reached: begun,
                passed: begun,
                looked: *state,
            };
            climb_on(shelf, state, pid, x, &way, memories, work)
        }
        _ => climb_anew(shelf, state, pid, x, memories, work),
    }
}

// Climbs with nothing remembered: most climbs end with the first look, which names nothing beyond the state.
fn climb_anew<S: Shelf>(
    shelf: &S,
    state: &DepVec,
    pid: Pid,
    x: u32,
    memories: &mut FailedClimbs,
    work: &mut Work,
) -> Option<DepVec>
    requires lawful { IsLawful (length state.now) (S.rows shelf.now) }
    requires state { IsRecoverable (length state.now) (S.rows shelf.now) state.now }
    requires process { pid < length state.now }
    requires start { IsStable (S.rows shelf.now) pid x }
    requires above { slice_index state.now pid < x }
    requires attempted { IsUnderWay (S.rows shelf.now) state.now pid x state.now (without_newest work.old.attempts) work.old.attempts }
    requires remembered { AreRemembered (length state.now) (S.rows shelf.now) state.now memories.old.places }
    ensures climbed { TellsClimb (length state.now) (S.rows shelf.now) state.now pid x result }
    ensures counted { IsAttempted (S.rows shelf.now) state.now pid x (without_newest work.old.attempts) work.new.attempts }
    ensures remembered { AreRemembered (length state.now) (S.rows shelf.now) state.now memories.new.places }
{
    let begun = raised_to(state, pid, x);
    let vec = shelf.look(pid, x, work);
    if is_below(vec, &begun) {
        return Some(begun);
    }
    match forced(shelf, &begun, vec) {
        Err(lacking) => {
            let memory = FailedClimb {
                start: x,
                reached: begun,
                passed: begun,
                waits: lacking,
                from: number_of(vec, lacking),
            };
            memories.keep(pid, state.get(pid), memory);
            None
        }
        Ok(higher) => {
            let way = ClimbProgress {
                reached: higher,
                passed: begun,
                looked: begun,
            };
            climb_on(shelf, state, pid, x, &way, memories, work)
        }
    }
}

// How far a climb has come.
#[derive(Clone, Copy)]
struct ClimbProgress {
    /// The state that is reached.
    reached: DepVec,
    /// How far it comes by what was read before the last.
    passed: DepVec,
    /// By process the interval whose vector was read last.
    looked: DepVec,
}

// Climbs on, until each interval that was reached is read, or one names what no stable interval reaches.
fn climb_on<S: Shelf>(
    shelf: &S,
    state: &DepVec,
    pid: Pid,
    x: u32,
    way: &ClimbProgress,
    memories: &mut FailedClimbs,
    work: &mut Work,
) -> Option<DepVec>
    requires lawful { IsLawful (length state.now) (S.rows shelf.now) }
    requires state { IsRecoverable (length state.now) (S.rows shelf.now) state.now }
    requires process { pid < length state.now }
    requires climbing { IsClimbing (length state.now) (S.rows shelf.now) state.now pid x way.now.reached way.now.looked }
    requires passing { IsPassing (length state.now) (S.rows shelf.now) state.now pid x way.now.reached way.now.passed }
    requires attempted { IsUnderWay (S.rows shelf.now) state.now pid x way.now.looked (without_newest work.old.attempts) work.old.attempts }
    requires remembered { AreRemembered (length state.now) (S.rows shelf.now) state.now memories.old.places }
    ensures climbed { TellsClimb (length state.now) (S.rows shelf.now) state.now pid x result }
    ensures counted { IsAttempted (S.rows shelf.now) state.now pid x (without_newest work.old.attempts) work.new.attempts }
    ensures remembered { AreRemembered (length state.now) (S.rows shelf.now) state.now memories.new.places }
{
    let mut reached = way.reached;
    let mut passed = way.passed;
    let mut looked = way.looked;
    while let Some(q) = first_behind(&looked, &reached) {
        let y = reached.get(q);
        looked.set(q, y);
        let vec = shelf.look(q, y, work);
        match forced(shelf, &reached, vec) {
            Err(lacking) => {
                let memory = FailedClimb {
                    start: x,
                    reached,
                    passed,
                    waits: lacking,
                    from: number_of(vec, lacking),
                };
                memories.keep(pid, state.get(pid), memory);
                return None;
            }
            Ok(higher) => {
                reached = higher;
                passed.set(q, y);
            }
        }
    }
    Some(reached)
}

// Returns where a climb begins that is remembered from its start or a lower one.
fn begin_known<S: Shelf>(
    shelf: &S,
    state: &DepVec,
    pid: Pid,
    x: u32,
    memory: &FailedClimb,
) -> Option<DepVec>
    requires lawful { IsLawful (length state.now) (S.rows shelf.now) }
    requires state { IsRecoverable (length state.now) (S.rows shelf.now) state.now }
    requires process { pid < length state.now }
    requires start { IsStable (S.rows shelf.now) pid x }
    requires above { slice_index state.now pid < x }
    requires known { memory.now.start ≤ x }
    requires remembered { IsRemembered (length state.now) (S.rows shelf.now) state.now pid memory.now }
    ensures { TellsBegin (length state.now) (S.rows shelf.now) state.now pid x result }
{
    let Some(_) = shelf.least_stable(memory.waits, memory.from) else {
        return None;
    };
    if memory.start == x {
        return Some(maximum(&memory.reached, state));
    }
    Some(raised_to(state, pid, x))
}

fn raised_to(state: &DepVec, pid: Pid, x: u32) -> DepVec
    requires { pid < length state.now }
    ensures { result ≡ slice_set state.now pid x }
{
    let mut raised = *state;
    raised.set(pid, x);
    raised
}

// Returns the greater of two vectors, place by place.
fn maximum(one: &DepVec, other: &DepVec) -> DepVec
    requires { length one.now ≡ length other.now }
    ensures { result ≡ maximum_of one.now other.now }
{
    let mut greater = *one;
    for p in 0..one.n() {
        let q = Pid::at(p);
        greater.join_tag(q, other.get(q));
    }
    greater
}

// Returns a process whose interval is below in the first vector.
fn first_behind(looked: &DepVec, reached: &DepVec) -> Option<Pid>
    requires { IsBelow looked.now reached.now }
    ensures { TellsBehind looked.now reached.now result }
{
    for p in 0..looked.n() {
        let q = Pid::at(p);
        if looked.get(q) < reached.get(q) {
            return Some(q);
        }
    }
    None
}

// Returns the state with each process that the vector names beyond it raised to its least stable interval there, or a process that
// has none.
fn forced<S: Shelf>(shelf: &S, state: &DepVec, vec: &[u32]) -> Result<DepVec, Pid>
    requires { length vec.now ≡ length state.now }
    ensures { MatchResult result (IsForced (S.rows shelf.now) state.now vec.now) (IsBlocked (S.rows shelf.now) state.now vec.now) }
{
    let mut higher = *state;
    for p in 0..state.n() {
        let q = Pid::at(p);
        if state.get(q) < number_of(vec, q) {
            match shelf.least_stable(q, number_of(vec, q)) {
                None => return Err(q),
                Some(y) => higher.set(q, y),
            }
        }
    }
    Ok(higher)
}
