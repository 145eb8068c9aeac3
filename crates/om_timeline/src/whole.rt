//! All that the events of a record did to one process, told at once.

ghost use Rattle.std.specs.Prelude.{◌≡◌, length};

use crate::deed::Deed;
use om_interval::Pid;
use om_machine::Machine;
use om_world::Event;

// What each event did, of which as many are told as there are.
#[derive(Drop)]
pub(crate) struct Whole {
    pub(crate) process: Pid,
    pub(crate) n: u32,
    // Its machine at the start.
    pub(crate) first: Machine,
    pub(crate) events: Vec<Event>,
    pub(crate) deeds: Vec<Deed>,
    ghost all_told: { length deeds.items ≡ length events.items },
}
