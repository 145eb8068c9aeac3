//! The nearest entry of a tree at or below an interval, and at or above it.

ghost use Rattle.std.specs.Prelude.{◌≡◌, ℕ, MatchOption};
ghost use Rattle.om_recover.specs.steps.Nearest.{IsNearestTo, IsNearestFrom, HasNoneTo, HasNoneFrom};

use om_interval::Pid;
use std::collections::BTreeMap;

/// Returns the nearest of a process's entries at or below an interval, with its own interval.
pub fn nearest_to<V>(entries: &BTreeMap<(Pid, u32), V>, pid: Pid, to: u32) -> Option<(u32, &V)>
    ensures { MatchOption result
        (HasNoneTo entries.now.entries pid to)
        (λ found. IsNearestTo entries.now.entries pid to found.0 found.1.now) }
{
    if entries.is_empty() {
        return None;
    }
    match entries.range(..=(pid, to)).next_back() {
        None => None,
        Some((place, value)) => {
            if place.0 == pid {
                Some((place.1, value))
            } else {
                None
            }
        }
    }
}

/// Returns the nearest of a process's entries at or above an interval, with its own interval.
pub fn nearest_from<V>(entries: &BTreeMap<(Pid, u32), V>, pid: Pid, from: u32) -> Option<(u32, &V)>
    ensures { MatchOption result
        (HasNoneFrom entries.now.entries pid from)
        (λ found. IsNearestFrom entries.now.entries pid from found.0 found.1.now) }
{
    if entries.is_empty() {
        return None;
    }
    match entries.range((pid, from)..).next() {
        None => None,
        Some((place, value)) => {
            if place.0 == pid {
                Some((place.1, value))
            } else {
                None
            }
        }
    }
}
