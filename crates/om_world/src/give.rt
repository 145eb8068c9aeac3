//! Messages that are offered to the processes.

ghost use Rattle.om_world.specs.Happened.{Happened};
ghost use Rattle.om_world.specs.Played.{IsFaultless};
ghost use Rattle.om_world.specs.declared.event.Event.{Event};
ghost use Rattle.om_world.specs.steps.Moves.{Keeps, answered};

use crate::event::{Answer, Refusal};
use crate::remembered::Remembered;
use crate::world::World;
use om_process::Accept;
use om_stable::Stable;
use std::alloc::Global;

impl<S: Stable> World<S> {
    // Offers a frame to a process.
    pub(crate) fn give(&mut self, alloc: Global, p: usize, f: usize) -> Result<Answer, Refusal>
        ensures happened { Happened self.old (Event.Give p f) (answered result) self.new }
        ensures keeps { Keeps self.old self.new }
        ensures faultless { IsFaultless (answered result) }
    {
        self.is_up(p)?;
        if f >= self.frames.len() {
            return Err(Refusal::NoFrame);
        }
        let message = &self.frames[f];
        let member = &mut self.members[p];
        let told = member.accept(alloc, message)?;
        match told {
            Accept::Taken(x) => {
                self.live = Remembered::longer(&self.live, message);
                Ok(Answer::Given(Accept::Taken(x)))
            }
            Accept::Memory => Err(Refusal::Memory),
            answer => Ok(Answer::Given(answer)),
        }
    }
}
