//! The greatest recoverable state once a row is added.

ghost use Rattle.std.specs.Prelude.{◌≡◌, ℕ, ◌<◌, ◌≤◌, length};
ghost use Rattle.om_recover.specs.Recoverable.{IsGreatest};
ghost use Rattle.om_recover.specs.Rows.{Rows};
ghost use Rattle.om_recover.specs.steps.Fresh.{AreRaisable, IsCountedAtOnceFrom};
ghost use Rattle.om_recover.specs.steps.Indexed.{IsRaisable, IsCountedFrom};
ghost use Rattle.om_recover.specs.steps.Memory.{AreRemembered};

use crate::row::Row;
use crate::search::failed_climbs::FailedClimbs;
use crate::search::fresh::Fresh;
use crate::search::passes::{greatest_by_either, greatest_from};
use crate::shelf::Shelf;
use crate::work::Work;
use om_interval::{DepVec, Pid};

/// Returns the greatest recoverable state after a row was added, of which is known whether it made its interval
/// stable.
pub fn raised_by<S: Shelf>(
    after: &S,
    row: &Row,
    state: &DepVec,
    is_new: bool,
    memories: &mut FailedClimbs,
    work: &mut Work,
) -> DepVec
    requires { IsRaisable (length state.now) (S.rows after.now) row.now state.now is_new memories.old.places }
    ensures greatest { IsGreatest (length state.now) (S.rows after.now) result }
    ensures remembered { AreRemembered (length state.now) (S.rows after.now) result memories.new.places }
    ensures counted { IsCountedFrom (length state.now) (S.rows after.now) row.now state.now is_new result
        work.old.attempts work.new.attempts }
{
    if !is_new {
        return *state;
    }
    if row.interval <= state.get(row.pid) {
        return *state;
    }
    memories.forget(state.n(), row.pid, row.interval);
    greatest_from(after, state, row.pid, row.interval, memories, work)
}

/// Returns the greatest recoverable state after rows of a process were added, of which is told what became stable above the state: by
/// one search for all of them.
pub fn raised_by_rows<S: Shelf>(
    after: &S,
    pid: Pid,
    state: &DepVec,
    fresh: Option<Fresh>,
    memories: &mut FailedClimbs,
    work: &mut Work,
) -> DepVec
    requires { (before : Rows) × AreRaisable (length state.now) before (S.rows after.now) pid state.now fresh memories.old.places }
    ensures greatest { IsGreatest (length state.now) (S.rows after.now) result }
    ensures remembered { AreRemembered (length state.now) (S.rows after.now) result memories.new.places }
    ensures counted { IsCountedAtOnceFrom (length state.now) (S.rows after.now) pid state.now fresh result
        work.old.attempts work.new.attempts }
{
    match fresh {
        None => *state,
        Some(fresh) => {
            memories.forget(state.n(), pid, fresh.least);
            greatest_by_either(after, state, pid, fresh.least, fresh.high, memories, work)
        }
    }
}
