//! What an event did.

ghost use Rattle.std.specs.Prelude.{◌≡◌};
ghost use Rattle.om_timeline.specs.Deeds.{turns_at};

use om_format::Body;
use om_machine::Machine;

/// What an event did to the machine of one process.
#[derive(Debug, Drop)]
pub enum Deed {
    /// It left the machine as it was.
    Nothing,
    /// The process took so many turns.
    Ran(u64),
    /// The process, which waited, received these bytes from the process of this number.
    Took(u32, Body),
    /// The process failed, or is down otherwise: the machine that it had is shown.
    Fell,
    /// The process came back with this machine.
    Back(Machine),
}

// Returns how many turns the deed at a place has.
#[tactic(auto, using(crate::proofs::Placing::turns_read, crate::proofs::Placing::none_behind))]
pub(crate) fn turns_at(deeds: &[Deed], event: usize) -> u64
    ensures { result ≡ turns_at deeds.now event }
{
    if event >= deeds.len() {
        return 0;
    }
    match &deeds[event] {
        Deed::Nothing => 0,
        Deed::Ran(turns) => *turns,
        Deed::Took(..) => 0,
        Deed::Fell => 0,
        Deed::Back(_) => 0,
    }
}
