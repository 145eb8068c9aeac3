//! Processes that are taken down, and that are up again after a finished round.

ghost use Rattle.std.specs.Prelude.{◌≡◌, ◌≢◌, ◌<◌, ◌↔◌, length, slice_get, false, true, Err, IfErr, IfOk, IsTrue, Ok, OnErr, OnOk, Some};
ghost use Rattle.om_process.specs.declared.replay.ReplayFault.{ReplayFault};
ghost use Rattle.om_world.specs.Failures.{HasNews, IsToGoOn, taken_down};
ghost use Rattle.om_world.specs.Happened.{Happened, Refused};
ghost use Rattle.om_world.specs.Played.{IsCounted};
ghost use Rattle.om_world.specs.World.{IsKnown};
ghost use Rattle.om_world.specs.declared.event.Event.{Event};
ghost use Rattle.om_world.specs.declared.event.Refusal.{Refusal};
ghost use Rattle.om_world.specs.declared.process_state.ProcessState.TheVariants as places;
ghost use Rattle.om_world.specs.steps.Moves.{Keeps, answered};
ghost use Rattle.om_world.specs.steps.Returning.{HasLeft, IsBeyond, IsDue, Returns};
ghost use Rattle.om_world.specs.Failures.{HasGoneOn};
ghost use Rattle.om_world.specs.steps.Faultless.{IsFaultlessOver, NeverFails};

use crate::event::{Answer, Refusal};
use crate::process_state::ProcessState;
use crate::world::World;
use om_interval::Pid;
use om_member::NotIn;
use om_process::{Down, ReplayFault};
use om_stable::Stable;
use std::alloc::{AllocError, Global};

// Returns what is told of a process that goes on.
fn told_on(answer: Result<Result<(), AllocError>, NotIn>) -> Result<(), Refusal>
    ensures on { IfOk answer (λ answer. IfOk answer (λ done. result ≡ Ok done)) }
    ensures stopped { IfOk answer (λ answer. OnErr answer (result ≡ Err Refusal.Memory)) }
    ensures not_in { OnErr answer (result ≡ Err Refusal.NotIn) }
{
    answer??;
    Ok(())
}

impl<S: Stable> World<S> {
    // Returns whether a round is finished that is newer than those that the process knew when it was last up.
    pub(crate) fn has_news(&self, p: usize) -> bool
        requires { p < length self.now.programs }
        ensures { IsTrue result ↔ HasNews self.now p }
    {
        let member = &self.members[p];
        member.round < self.manager.round()
    }

    // Takes a process down, with nothing declared.
    pub(crate) fn take_down(&mut self, p: usize)
        requires there { p < length self.old.programs }
        requires undeclared { slice_get self.old.places p ≢ Some (places.Down true) }
        ensures { self.new ≡ taken_down self.old p false }
    {
        let member = &mut self.members[p];
        member.fail();
    }

    // Takes a process down that is in.
    fn leave(&mut self, p: usize)
        requires { p < length self.old.programs }
        ensures { HasLeft self.old p self.new }
    {
        match self.place(p) {
            ProcessState::In => self.take_down(p),
            _ => {}
        }
    }

    // Lets a process that is in and not rolled back go on as it was.
    fn go_on(&mut self, alloc: Global, p: usize) -> Result<(), Refusal>
        requires there { p < length self.old.programs }
        requires due { IsToGoOn self.old p }
        ensures on { OnOk result (HasGoneOn self.old p self.new) }
        ensures refused { OnErr result (self.new ≡ self.old) }
        ensures stopped { IfErr result (λ why. why ≡ Refusal.Memory) }
    {
        let verdict = self.manager.verdict(Pid::at(p));
        let member = &mut self.members[p];
        told_on(member.go_on(alloc, self.manager.starts(), &verdict))
    }

    // Brings a process back that a round found, and says in which interval and incarnation it is.
    fn bring_back(&mut self, alloc: Global, p: usize) -> Result<(u32, u32), ReplayFault>
        requires there { p < length self.old.programs }
        requires news { HasNews self.old p }
        ensures back { Returns self.old p result self.new }
        ensures faultless { NeverFails S.failed → result ≢ Err ReplayFault.Fault }
    {
        let verdict = self.manager.verdict(Pid::at(p));
        let down = Down {
            pid: Pid::at(p),
            n: self.manager.recovery().n(),
        };
        let member = &mut self.members[p];
        member.come_back(alloc, down, self.manager.starts(), &verdict)
    }

    // Returns whether a process is rolled back as it comes up again: it is down, or the last round says so.
    fn comes_back(&self, p: usize) -> Result<bool, Refusal>
        ensures there { OnOk result (p < length self.now.programs) }
        ensures due { IfOk result (λ back. IsDue self.now p back) }
        ensures beyond { OnOk result (IsKnown self.now → IsBeyond self.now p) }
        ensures refused { IsKnown self.now → IfErr result (λ why. Refused self.now (Event.Resume p) why self.now) }
        ensures faultless { result ≢ Err Refusal.Fault }
    {
        if p >= self.images.len() {
            return Err(Refusal::NoProcess);
        }
        if !self.has_news(p) {
            return Err(Refusal::NotIn);
        }
        match self.place(p) {
            // Who is up knows the last round, where what the stores hold is known.
            ProcessState::Up => Err(Refusal::NotIn),
            ProcessState::In => Ok(self.manager.verdict(Pid::at(p)).back),
            ProcessState::Down { declared: _ } => Ok(true),
        }
    }

    // Brings a process that is in or down up again after a newer round: replayed from its store where it is down or
    // the round rolls it back, else as it was. Where it is not replayed, a process that was to be rolled back is down.
    pub(crate) fn resume(&mut self, alloc: Global, p: usize) -> Result<Answer, Refusal>
        ensures happened { IsKnown self.new → Happened self.old (Event.Resume p) (answered result) self.new }
        ensures keeps { Keeps self.old self.new }
        ensures counted { IsCounted self.old self.new (answered result) }
        ensures faultless { IsFaultlessOver S.failed (answered result) }
    {
        let back = self.comes_back(p)?;
        if !back {
            self.go_on(alloc, p)?;
            return Ok(Answer::GoesOn);
        }
        self.leave(p);
        let (interval, inc) = self.bring_back(alloc, p)?;
        Ok(Answer::Back { interval, inc })
    }
}
