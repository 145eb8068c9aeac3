//! What comes next to a process at a position.

ghost use Rattle.std.specs.Prelude.{◌≡◌};
ghost use Rattle.om_debug.specs.Moments.{is_at_instruction, is_down, next_at};

use om_timeline::{Deed, Position};

// What comes next to the process.
#[derive(Clone, Copy, Debug, PartialEq, Eq)]
pub(crate) enum Next {
    // Nothing: the event is of others.
    Still,
    // So many instructions, at least one.
    Instructions(u64),
    // A message is received.
    Receipt,
    // It fails.
    Failure,
    // It comes back.
    Return,
}

// Returns whether the process is down behind so many events.
#[tactic(auto, using(crate::proofs::Quiet::down_read, crate::proofs::Quiet::down_past, crate::proofs::Quiet::down_first))]
pub(crate) fn is_down(deeds: &[Deed], event: usize) -> bool
    ensures { result ≡ is_down deeds.now event }
{
    if event == 0 {
        return false;
    }
    if event > deeds.len() {
        return false;
    }
    match &deeds[event - 1] {
        Deed::Nothing => false,
        Deed::Ran(_) => false,
        Deed::Took(..) => false,
        Deed::Fell => true,
        Deed::Back(_) => false,
    }
}

// Returns what comes next at a position.
#[tactic(auto, using(crate::proofs::Quiet::next_read, crate::proofs::Quiet::next_past))]
pub(crate) fn next_at(deeds: &[Deed], at: Position) -> Next
    ensures { result ≡ next_at deeds.now at.event at.turns }
{
    if at.event >= deeds.len() {
        return Next::Still;
    }
    match &deeds[at.event] {
        Deed::Nothing => Next::Still,
        Deed::Ran(turns) => {
            if at.turns < *turns {
                Next::Instructions(*turns - at.turns)
            } else {
                Next::Still
            }
        }
        Deed::Took(..) => Next::Receipt,
        Deed::Fell => {
            if is_down(deeds, at.event) {
                Next::Still
            } else {
                Next::Failure
            }
        }
        Deed::Back(_) => Next::Return,
    }
}

// Returns whether the process stands at an instruction that comes next.
pub(crate) fn is_at_instruction(next: Next) -> bool
    ensures { result ≡ is_at_instruction next }
{
    match next {
        Next::Still => false,
        Next::Instructions(_) => true,
        Next::Receipt => true,
        Next::Failure => false,
        Next::Return => false,
    }
}
