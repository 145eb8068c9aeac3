//! Runs of the processes.

ghost use Rattle.std.specs.Prelude.{◌≡◌, length, IfErr, IfOk, Result, Ok, slice_get, Some};
ghost use Rattle.om_manager.specs.declared.answers.OutputError.{OutputError};
ghost use Rattle.om_process.specs.Core.{CoreState};
ghost use Rattle.om_process.specs.Frames.{outputs_of};
ghost use Rattle.om_world.specs.Changes.{IsUp};
ghost use Rattle.om_world.specs.Happened.{Happened};
ghost use Rattle.om_world.specs.Played.{IsFaultless};
ghost use Rattle.om_world.specs.World.{IsKnown};
ghost use Rattle.om_world.specs.declared.event.Event.{Event};
ghost use Rattle.om_world.specs.declared.event.Refusal.{Refusal};
ghost use Rattle.om_world.specs.steps.Moves.{HasRunAt, Keeps, TakesTurnsAt, answered, told_of};
ghost use Rattle.om_world.specs.steps.Running.{AreKept, HasHandedIn, refusal_of_output};

use crate::event::{Answer, Refusal};
use crate::world::World;
use om_interval::{MAX_PROCESSES, Pid};
use om_manager::OutputError;
use om_member::NotUp;
use om_process::{ProcCore, RunEnd};
use om_stable::Stable;
use std::alloc::{AllocError, Global};

// Returns what is told of a run.
fn told_ran(answer: Result<Result<RunEnd, AllocError>, NotUp>) -> Result<RunEnd, Refusal>
    ensures { result ≡ told_of (λ _. Refusal.Memory) answer }
{
    Ok(answer??)
}

// Returns what is told of outputs that a process handed in.
fn told_handed(answer: Result<Result<(), OutputError>, NotUp>) -> Result<(), Refusal>
    ensures { result ≡ told_of refusal_of_output answer }
{
    answer??;
    Ok(())
}

// Returns how many messages to each process a process keeps.
pub(crate) fn messages_kept(core: &ProcCore) -> [usize; MAX_PROCESSES]
    ensures { AreKept core.now result }
{
    let mut counts = [0; MAX_PROCESSES];
    for to in 0..core.vec().n() {
        counts[to] = core.outbox(Pid::at(to)).len();
    }
    counts
}

impl<S: Stable> World<S> {
    // Runs a process that is up.
    pub(crate) fn turns(&mut self, alloc: Global, p: usize, fuel: u64) -> Result<RunEnd, Refusal>
        requires { IsUp self.old p }
        ensures goes_on { TakesTurnsAt self.old.cores p fuel self.new.cores }
        ensures rest { self.new ≡ record self.old { cores = self.new.cores } }
        ensures ran { IfOk result (λ ran. HasRunAt self.old.cores p fuel ran self.new.cores) }
        ensures stopped { IfErr result (λ why. why ≡ Refusal.Memory) }
    {
        let member = &mut self.members[p];
        told_ran(member.run(alloc, fuel))
    }

    // Returns how many messages to each process a process keeps: none where it is down.
    fn messages(&self, p: usize) -> [usize; MAX_PROCESSES]
        requires { IsUp self.now p }
        ensures { (c : CoreState) × (slice_get self.now.cores p ≡ Some (Some c)) × AreKept c result }
    {
        let member = &self.members[p];
        match member.core() {
            Some(core) => messages_kept(core),
            None => [0; MAX_PROCESSES],
        }
    }

    // Returns how many outputs a process keeps: none where it is down.
    fn outputs(&self, p: usize) -> usize
        requires { IsUp self.now p }
        ensures { (c : CoreState) × (slice_get self.now.cores p ≡ Some (Some c)) × (result ≡ length (outputs_of c).entries) }
    {
        let member = &self.members[p];
        match member.core() {
            Some(core) => core.outputs_from(0).len(),
            None => 0,
        }
    }

    // Hands in what a process that is up made and the manager has not.
    pub(crate) fn hand_in(&mut self, alloc: Global, p: usize) -> Result<(), Refusal>
        requires { IsUp self.old p }
        ensures { (end : Result (Unit {0}) OutputError) × HasHandedIn self.old p end self.new
            × (result ≡ told_of refusal_of_output (Ok end)) }
    {
        let member = &self.members[p];
        told_handed(member.hand_in(&mut self.manager, alloc, Pid::at(p)))
    }
}

impl<S: Stable> World<S> {
    // Runs a process that is up. Its new messages become frames, and its outputs are handed in.
    pub(crate) fn run(&mut self, alloc: Global, p: usize, fuel: u64) -> Result<Answer, Refusal>
        ensures happened { IsKnown self.new → Happened self.old (Event.Run p fuel) (answered result) self.new }
        ensures keeps { Keeps self.old self.new }
        ensures faultless { IsFaultless (answered result) }
    {
        self.is_up(p)?;
        let messages = self.messages(p);
        let outputs = self.outputs(p);
        let ran = self.turns(alloc, p, fuel)?;
        let sent = self.send(alloc, p, &messages)?;
        let made = self.outputs(p) - outputs;
        self.hand_in(alloc, p)?;
        Ok(Answer::Ran {
            steps: ran.steps,
            status: ran.status,
            sent,
            made,
        })
    }
}
