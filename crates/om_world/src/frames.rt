//! Messages that become frames.

ghost use Rattle.std.specs.Prelude.{ℕ, ◌≡◌, ◌≤◌, ◌<◌, ◌++◌, drop, length, slice_get, slice_index, Some, IfOk, OnErr, OnOk};
ghost use Rattle.om_world.specs.declared.event.Event.{Event};
ghost use Rattle.om_world.specs.Played.{IsFaultless};
ghost use Rattle.om_world.specs.steps.Moves.{Keeps, answered};
ghost use Rattle.om_world.specs.steps.Running.{HasSent, KeepsMore, messages_past};
ghost use Rattle.om_process.specs.Core.{CoreState, cluster_size};
ghost use Rattle.om_process.specs.Frames.{messages_to};
ghost use Rattle.om_world.specs.Changes.{IsUp, messages_behind};
ghost use Rattle.om_world.specs.steps.Running.{messages_in};
ghost use Rattle.om_world.specs.Happened.{Happened};

use crate::event::{Answer, Refusal};
use crate::world::World;
use om_format::Message;
use om_interval::{MAX_PROCESSES, Pid};
use om_process::ProcCore;
use om_stable::Stable;
use std::alloc::{AllocError, Global};

// Adds the messages to a process behind the first few that are kept, on their way.
fn add_frames(
    frames: &mut Vec<Message>,
    alloc: Global,
    core: &ProcCore,
    to: Pid,
    few: usize,
) -> Result<(), AllocError>
    requires there { to < cluster_size core.now.now }
    requires few { few ≤ length (messages_to core.now to).entries }
    ensures { OnOk result (frames.new.items ≡ frames.old.items ++ drop few (messages_in core.now to)) }
{
    for k in few..core.outbox(to).len() {
        let Some(frame) = core.frame(alloc, to, k)? else {
            unreachable!()
        };
        frames.push(frame)?;
    }
    Ok(())
}

// Returns the messages to each process behind the first few that are kept, on their way.
fn frames_behind(
    alloc: Global,
    core: &ProcCore,
    few: &[usize; MAX_PROCESSES],
) -> Result<Vec<Message>, AllocError>
    requires { (to : ℕ) → to < cluster_size core.now.now → slice_index few.now to ≤ length (messages_to core.now to).entries }
    ensures { IfOk result (λ frames. frames.items ≡ messages_behind core.now (λ to. slice_index few.now to) (cluster_size core.now.now)) }
{
    let mut frames = Vec::new(alloc);
    for to in 0..core.vec().n() {
        add_frames(&mut frames, alloc, core, Pid::at(to), few[to])?;
    }
    Ok(frames)
}

impl<S: Stable> World<S> {
    // Returns, of the messages that a process keeps, those behind the first few to each process, on their way: none where it
    // is down.
    fn frames_past(
        &self,
        alloc: Global,
        p: usize,
        few: &[usize; MAX_PROCESSES],
    ) -> Result<Vec<Message>, AllocError>
        requires { KeepsMore self.now.cores p few.now }
        ensures { IfOk result (λ frames. (c : CoreState) × (slice_get self.now.cores p ≡ Some (Some c))
            × (frames.items ≡ messages_past c few.now)) }
    {
        let member = &self.members[p];
        match member.core() {
            Some(core) => frames_behind(alloc, core, few),
            None => Ok(Vec::new(alloc)),
        }
    }

    // Makes the messages of a process behind the first few to each process new frames, and says how many they are.
    pub(crate) fn send(
        &mut self,
        alloc: Global,
        p: usize,
        few: &[usize; MAX_PROCESSES],
    ) -> Result<usize, AllocError>
        requires up { IsUp self.old p }
        requires more { KeepsMore self.old.cores p few.now }
        ensures sent { IfOk result (λ sent. HasSent self.old p few.now sent self.new) }
        ensures refused { OnErr result (self.new ≡ self.old) }
    {
        let mut frames = self.frames_past(alloc, p, few)?;
        let sent = frames.len();
        self.frames.append(&mut frames)?;
        Ok(sent)
    }

    // Makes each message that a process keeps a new frame.
    pub(crate) fn resend(&mut self, alloc: Global, p: usize) -> Result<Answer, Refusal>
        ensures happened { Happened self.old (Event.Resend p) (answered result) self.new }
        ensures keeps { Keeps self.old self.new }
        ensures faultless { IsFaultless (answered result) }
    {
        self.is_up(p)?;
        let mut frames = self.frames_past(alloc, p, &[0; MAX_PROCESSES])?;
        let count = frames.len();
        self.frames.append(&mut frames)?;
        Ok(Answer::Resent(count))
    }
}
