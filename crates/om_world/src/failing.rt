//! Processes that fail.

ghost use Rattle.std.specs.Prelude.{◌≡◌, ◌<◌, length, slice_get, Some, false};
ghost use Rattle.om_world.specs.Failures.{live_after, since_after};
ghost use Rattle.om_world.specs.Happened.{Happened};
ghost use Rattle.om_world.specs.Played.{IsFaultless};
ghost use Rattle.om_world.specs.World.{IsKnown};
ghost use Rattle.om_world.specs.declared.event.Event.{Event};
ghost use Rattle.om_world.specs.declared.process_state.ProcessState.{ProcessState};
ghost use Rattle.om_world.specs.steps.Gathering.{HasDeclaredAt, IsFailure};
ghost use Rattle.om_world.specs.steps.Moves.{Keeps, answered};

use crate::event::{Answer, Refusal};
use crate::process_state::ProcessState;
use crate::remembered::Remembered;
use crate::since::Since;
use crate::world::World;
use om_interval::Pid;
use om_manager::{FailError, Gathered, Manager};
use om_stable::Stable;
use std::alloc::Global;

// What a failure comes to.
#[derive(Clone, Copy)]
pub(crate) enum Failure {
    // It is declared already, or a round has finished since: nothing happens.
    Known,
    // The round that the process joined has finished: it is down, and nothing is declared.
    Settled,
    // It is to be declared.
    New,
}

// Cuts what was received to the recovery state, where the round is finished.
pub(crate) fn cut_where_finished(
    live: &mut Remembered,
    since: &mut Since,
    manager: &Manager,
    told: Gathered,
)
    ensures live { live.new.entries ≡ live_after told manager.now live.old.entries }
    ensures since { since.new ≡ since_after told live.old.entries since.old }
{
    if told == Gathered::Finished {
        since.finish(live);
        *live = Remembered::cut(live, &manager.recovery());
    }
}

impl<S: Stable> World<S> {
    // Returns what a failure of the process comes to.
    fn failure(&self, p: usize) -> Failure
        requires { p < length self.now.programs }
        ensures { IsFailure self.now p result }
    {
        match self.place(p) {
            ProcessState::Up => Failure::New,
            ProcessState::In => {
                if self.has_news(p) {
                    Failure::Settled
                } else {
                    Failure::New
                }
            }
            ProcessState::Down { declared } => {
                if declared || self.has_news(p) {
                    Failure::Known
                } else {
                    Failure::New
                }
            }
        }
    }

    // Declares the failure of a process that is down.
    fn declare(&mut self, alloc: Global, p: usize) -> Result<Gathered, FailError>
        requires { slice_get self.old.places p ≡ Some (ProcessState.Down false) }
        ensures { HasDeclaredAt self.old p result self.new }
    {
        let member = &mut self.members[p];
        let told = member.declare(&mut self.manager, alloc, Pid::at(p))?;
        cut_where_finished(&mut self.live, &mut self.since, &self.manager, told);
        Ok(told)
    }
}

impl<S: Stable> World<S> {
    // Takes a process down, and declares its failure where that is due.
    pub(crate) fn fail(&mut self, alloc: Global, p: usize) -> Result<Answer, Refusal>
        ensures happened { IsKnown self.new → Happened self.old (Event.Fail p) (answered result) self.new }
        ensures keeps { Keeps self.old self.new }
        ensures faultless { IsFaultless (answered result) }
    {
        if p >= self.images.len() {
            return Err(Refusal::NoProcess);
        }
        match self.failure(p) {
            Failure::Known => Err(Refusal::NotUp),
            Failure::Settled => {
                self.take_down(p);
                Ok(Answer::Down)
            }
            Failure::New => {
                self.take_down(p);
                let told = self.declare(alloc, p)?;
                Ok(Answer::Gathered(told))
            }
        }
    }
}
