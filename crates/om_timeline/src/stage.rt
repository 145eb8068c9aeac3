//! Machines of a process that are kept, so that ways back are short.

ghost use Rattle.std.specs.Prelude.{◌≡◌, ◌↔◌, ◌-◌, ◌<◌, ◌≤◌, All, Contains, Some, length, slice_get, true};
ghost use Rattle.om_timeline.specs.Deeds.{turns_at};
ghost use Rattle.om_timeline.specs.declared.stage.Stage.{Stage};
ghost use Rattle.om_timeline.specs.Timeline.{IsUpTo};

use crate::deed::{Deed, turns_at};
use crate::timeline::Position;
use om_machine::Machine;

// How many bytes the machines that are kept have at most.
const MOST_BYTES: usize = 512 << 20;

// How many instructions and events lie at first between two positions that are kept on the way forward: as many as a machine has bytes,
// so that copying it costs little, but no fewer and no more than these.
const LEAST_SPACING: u64 = 20_000;

const MOST_SPACING: u64 = 100_000;

// How many bytes a machine is taken to have beside its memory.
const BESIDE_MEMORY: usize = 1024;

// The machine of the process at a position.
#[derive(Debug, Drop)]
pub(crate) struct Stage {
    pub(crate) machine: Machine,
    pub(crate) at: Position,
}

// Returns whether the one position is the other, or before it.
pub(crate) fn is_up_to(one: Position, other: Position) -> bool
    ensures { (result ≡ true) ↔ IsUpTo one.event one.turns other.event other.turns }
{
    one.event < other.event || one.event == other.event && one.turns <= other.turns
}

// Returns how many of the stages, which stand in order, are not behind a position.
pub(crate) fn up_to(stages: &[Stage], to: Position) -> usize
    ensures within { result ≤ length stages.now }
    ensures last { 0 < result → (stage : Stage) × (slice_get stages.now (result - 1) ≡ Some stage)
        × IsUpTo stage.at.event stage.at.turns to.event to.turns }
{
    let mut low = 0;
    let mut high = stages.len();
    'halves: while low < high {
        let middle = low + (high - low) / 2;
        if is_up_to(stages[middle].at, to) {
            low = middle + 1;
        } else {
            high = middle;
        }
    }
    low
}

// Returns whether all of the stages, which stand in order, are before a position.
pub(crate) fn are_up_to(stages: &[Stage], to: Position) -> bool {
    match stages.last() {
        Some(stage) => is_up_to(stage.at, to),
        None => true,
    }
}

// Returns how many instructions and events lie at first between two positions where machines like this one are kept.
pub(crate) fn spacing_of(machine: &Machine) -> u64 {
    let bytes = machine.memory().len() as u64;
    bytes.max(LEAST_SPACING).min(MOST_SPACING)
}

// Returns whether no more are to be kept of machines like this one.
pub(crate) fn is_full(stages: &[Stage], machine: &Machine) -> bool {
    let bytes = machine.memory().len().saturating_add(BESIDE_MEMORY);
    stages.len().saturating_mul(bytes) >= MOST_BYTES
}

// Lets every second one go.
pub(crate) fn thin(stages: &mut Vec<Stage>)
    ensures { All (Contains stages.old.items) stages.new.items }
{
    let left = stages.len().div_ceil(2);
    'thinned: for place in 1..left {
        stages.swap(place, 2 * place);
    }
    stages.truncate(left);
}

// Returns a position so many instructions and events before another, or the first.
pub(crate) fn before(deeds: &[Deed], to: Position, ticks: u64) -> Position
    requires { to.turns ≤ turns_at deeds.now to.event }
    ensures order { IsUpTo result.event result.turns to.event to.turns }
    ensures few { result.turns ≤ turns_at deeds.now result.event }
{
    if ticks <= to.turns {
        return Position {
            event: to.event,
            turns: to.turns - ticks,
        };
    }
    let mut left = ticks - to.turns;
    for passed in 0..to.event {
        let event = to.event - 1 - passed;
        let turns = turns_at(deeds, event);
        if left <= turns {
            return Position {
                event,
                turns: turns - left,
            };
        }
        // The event itself is one, too.
        left = (left - turns).saturating_sub(1);
    }
    Position { event: 0, turns: 0 }
}
