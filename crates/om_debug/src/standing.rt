//! Where a process stands and how, for one who shows several.

ghost use Rattle.std.specs.Prelude.{◌≡◌, ◌↔◌, ◌≤◌, IfOk, IfErr, OnOk, length, string_bytes, true, false};
ghost use Rattle.om_process.specs.Core.{status_of};
ghost use Rattle.om_timeline.specs.Deeds.{turns_at};
ghost use Rattle.om_timeline.specs.Timeline.{machine_here};
ghost use Rattle.om_debug.specs.Moments.{is_still, next_at};
ghost use Rattle.om_debug.specs.Stops.{standing, ChangesPositionAlone};
ghost use Rattle.om_debug.specs.Standing.{standing_text};
ghost use Rattle.om_world.specs.Texts.{status_text};

use crate::debugger::Debugger;
use crate::moment::{Next, is_down, next_at};
use om_event_text::push_status;
use om_machine::Machine;
use om_process::Status;
use om_timeline::{PlayFault, Position};
use std::alloc::{AllocError, Global};

fn status_text(alloc: Global, status: Status) -> Result<String, AllocError>
    ensures { IfOk result (λ text. string_bytes text ≡ status_text status) }
{
    let mut text = String::new(alloc);
    push_status(&mut text, status)?;
    Ok(text)
}

fn is_still(next: Next) -> bool
    ensures { result ≡ is_still next }
{
    match next {
        Next::Still => true,
        Next::Instructions(_) => false,
        Next::Receipt => false,
        Next::Failure => false,
        Next::Return => false,
    }
}

impl Debugger {
    /// Returns the position of the process.
    pub fn position(&self) -> Position
        ensures event { result.event ≡ self.now.timeline.event }
        ensures turns { result.turns ≡ self.now.timeline.turns }
        ensures within { result.event ≤ length self.now.timeline.deeds }
        ensures few { result.turns ≤ turns_at self.now.timeline.deeds result.event }
    {
        self.timeline.position()
    }

    /// Returns the machine of the process at its position: where it is down, the one that it had.
    pub fn machine(&self) -> &Machine
        ensures { result.now ≡ machine_here self.now.timeline }
    {
        self.timeline.machine()
    }

    /// Returns whether nothing comes to the process in what is left of the next event.
    pub fn is_still(&self) -> bool
        ensures { result ≡ is_still (next_at self.now.timeline.deeds self.now.timeline.event self.now.timeline.turns) }
    {
        is_still(next_at(self.timeline.deeds(), self.timeline.position()))
    }

    /// Returns how the process stands: `ready`, `waiting`, `ended` with its code, `trapped` with the number of the cause, or
    /// `down`. Refused only where memory ran out.
    pub fn standing_text(&self) -> Result<String, AllocError>
        ensures { IfOk result (λ text. string_bytes text ≡ standing_text self.now) }
    {
        if is_down(self.timeline.deeds(), self.timeline.position().event) {
            return String::from_str(self.alloc, "down");
        }
        status_text(self.alloc, self.timeline.status())
    }

    /// Goes to a position, forward or back, and tells whether it is one of those that were played: else it stays. Refused where memory
    /// ran out, and then it stands at a position before that.
    pub fn go_to(&mut self, to: Position) -> Result<bool, PlayFault>
        ensures stands { ChangesPositionAlone self.old self.new }
        ensures there { IfOk result (λ there. there ≡ true → self.new ≡ standing self.old to.event to.turns) }
        ensures played { IfOk result (λ there. (there ≡ true)
            ↔ ((to.event ≤ length self.old.timeline.deeds) × (to.turns ≤ turns_at self.old.timeline.deeds to.event))) }
    {
        let there = self.timeline.go_to(self.alloc, to)?;
        Ok(there)
    }
}
