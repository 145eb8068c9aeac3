//! Processes that join a gathering.

ghost use Rattle.std.specs.Prelude.{◌≡◌, ◌≢◌, IfErr, IfOk, None, Ok, Result};
ghost use Rattle.om_manager.specs.declared.answers.Gathered.{Gathered};
ghost use Rattle.om_manager.specs.declared.answers.JoinError.{JoinError};
ghost use Rattle.om_world.specs.Changes.{IsUp};
ghost use Rattle.om_world.specs.Happened.{Happened};
ghost use Rattle.om_world.specs.Played.{IsCounted};
ghost use Rattle.om_world.specs.World.{IsKnown};
ghost use Rattle.om_world.specs.declared.event.Event.{Event};
ghost use Rattle.om_world.specs.declared.event.Refusal.{Refusal};
ghost use Rattle.om_world.specs.steps.Gathering.{HasEntered};
ghost use Rattle.om_world.specs.steps.Moves.{Keeps, answered, refusal_of_join, told_of};
ghost use Rattle.om_world.specs.steps.Faultless.{IsFaultlessOver};

use crate::event::{Answer, Refusal};
use crate::failing::cut_where_finished;
use crate::world::World;
use om_interval::Pid;
use om_manager::{Gathered, JoinError};
use om_member::{Batch, NotUp};
use om_stable::Stable;
use std::alloc::Global;

// Returns what is told of a process that joins.
fn told_joined(answer: Result<Result<Gathered, JoinError>, NotUp>) -> Result<Gathered, Refusal>
    ensures { result ≡ told_of refusal_of_join answer }
{
    Ok(answer??)
}

impl<S: Stable> World<S> {
    // Returns whether a gathering is open.
    fn is_gathering(&self) -> Result<(), Refusal>
        ensures open { IfOk result (λ _. self.now.manager.gathering ≢ None) }
        ensures closed { IfErr result (λ why. (why ≡ Refusal.NoRound) × (self.now.manager.gathering ≡ None)) }
    {
        if self.manager.gathering() {
            Ok(())
        } else {
            Err(Refusal::NoRound)
        }
    }

    // Takes a process that is up into the gathering.
    fn enter(&mut self, alloc: Global, p: usize) -> Result<Gathered, Refusal>
        requires { IsUp self.old p }
        ensures { (answer : Result Gathered JoinError) × HasEntered self.old p answer self.new
            × (result ≡ told_of refusal_of_join (Ok answer)) }
    {
        let member = &mut self.members[p];
        let told = told_joined(member.join(&mut self.manager, alloc, Pid::at(p)))?;
        cut_where_finished(&mut self.live, &mut self.since, &self.manager, told);
        Ok(told)
    }
}

impl<S: Stable> World<S> {
    // Stores the volatile log of a process, notes its pending rows and hands its outputs in, and then takes it into the
    // gathering.
    pub(crate) fn join(&mut self, alloc: Global, p: usize) -> Result<Answer, Refusal>
        ensures happened { IsKnown self.new → Happened self.old (Event.Join p) (answered result) self.new }
        ensures keeps { Keeps self.old self.new }
        ensures counted { IsCounted self.old self.new (answered result) }
        ensures faultless { IsFaultlessOver S.failed (answered result) }
    {
        self.is_up(p)?;
        self.is_gathering()?;
        self.store(alloc, p, Batch::Log)?;
        self.note(alloc, p)?;
        self.hand_in(alloc, p)?;
        let told = self.enter(alloc, p)?;
        Ok(Answer::Gathered(told))
    }
}
