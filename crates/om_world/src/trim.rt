//! What processes and stores need not keep.

ghost use Rattle.om_world.specs.Happened.{Happened};
ghost use Rattle.om_world.specs.declared.event.Event.{Event};
ghost use Rattle.om_world.specs.Played.{IsFaultless};
ghost use Rattle.om_world.specs.steps.Moves.{Keeps, answered};

use crate::event::{Answer, Refusal};
use crate::world::World;
use om_interval::Pid;
use om_stable::Stable;

impl<S: Stable> World<S> {
    // Drops what the manager says that a process need not keep.
    pub(crate) fn trim(&mut self, p: usize) -> Result<Answer, Refusal>
        ensures happened { Happened self.old (Event.Trim p) (answered result) self.new }
        ensures keeps { Keeps self.old self.new }
        ensures faultless { IsFaultless (answered result) }
    {
        self.is_up(p)?;
        let bounds = self.manager.bounds(Pid::at(p));
        let member = &mut self.members[p];
        member.trim(&bounds)?;
        Ok(Answer::Trimmed)
    }
}
