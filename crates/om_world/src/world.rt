//! The world.

ghost use Rattle.std.specs.Prelude.{◌≡◌, ◌<◌, length, map, slice_get, IfOk, IfErr, IfNone, IfSome, IsTrue, Some, true};
ghost use Rattle.om_process.specs.Core.{CoreState, cluster_size};
ghost use Rattle.om_world.specs.Changes.{IsUp};
ghost use Rattle.om_world.specs.steps.NotRunning.{NotRunning};
ghost use Rattle.om_world.specs.Holds.{Holds};
ghost use Rattle.om_world.specs.World.{IsKnown, all_clean};

use crate::event::Refusal;
use crate::process_state::ProcessState;
use crate::remembered::Remembered;
use crate::since::Since;
use om_format::Message;
use om_interval::Pid;
use om_manager::Manager;
use om_member::Member;
use om_process::{Image, ProcCore};
use om_stable::Stable;
use std::marker::Model;
use std::snapshot::Snapshot;

/// The processes of a cluster with their stores and their manager, what was received, and the frames that were made.
#[derive(Drop)]
pub struct World<S: Stable> {
    pub(crate) images: Vec<Image>,
    // What was received and not cut.
    pub(crate) live: Remembered,
    pub(crate) frames: Vec<Message>,
    // By process.
    pub(crate) members: Vec<Member<S>>,
    pub(crate) manager: Manager,
    // What the stores were before the start.
    pub(crate) origins: Snapshot<Vec<S>>,
    // The last finished round.
    pub(crate) since: Since,
}

impl<S: Stable> Model for World<S> {
    ghost use Rattle.std.specs.Prelude.{map, ◌≡◌, true};
    ghost use Rattle.om_world.specs.World.{WorldState, program_of};
    ghost use Rattle.om_world.specs.steps.Codes.{coded_health, coded_since};
    ghost use Rattle.om_world.specs.steps.Members.{health_of, seen, sound_in};
    ghost use Rattle.om_world.specs.steps.Sound.{IsWorld};
    ghost use Rattle.om_stable.specs.steps.Codes.{content_code};
    ghost use Rattle.om_manager.specs.steps.Codes.{coded_manager};
    ghost use Rattle.std.specs.Coded.{codes};

    ghost Value = { WorldState };

    ghost coded = { Prim.hlevel (codes, coded_health, coded_since, content_code, coded_manager) };

    ghost view = { λ w. seen S.content (health_of S.is_clean S.failed) (map program_of w.images.items) w.live.entries
        w.frames.items w.members.items w.manager (record { origins = map S.content w.origins.value.items; since = w.since }) };

    ghost invariant = { λ w. IsWorld (sound_in S.IsSound) w.members.items
        (seen S.content (health_of S.is_clean S.failed) (map program_of w.images.items) w.live.entries w.frames.items
        w.members.items w.manager (record { origins = map S.content w.origins.value.items; since = w.since })) };
}

impl<S: Stable> World<S> {
    /// Returns the frames that were made since the world started, was taken up or was last restarted, in the order in which they were made.
    pub fn frames(&self) -> &[Message]
        ensures { result.now ≡ self.now.frames }
    {
        &self.frames
    }

    /// Returns the manager.
    pub fn manager(&self) -> &Manager
        ensures { result.now ≡ self.now.manager }
    {
        &self.manager
    }

    /// Returns the core of a process: none where the process is down, and where there is no such process.
    pub fn core(&self, pid: Pid) -> Option<&ProcCore>
        ensures some { IfSome result (λ core. slice_get self.now.cores pid ≡ Some (Some core.now)) }
        ensures own { IfSome result (λ core. core.now.own ≡ pid) }
        ensures size { IfSome result (λ core. cluster_size core.now.now ≡ length self.now.programs) }
        ensures none { IfNone result ((core : CoreState) → slice_get self.now.cores pid ≡ Some (Some core) → ⊥) }
    {
        match self.members.get(pid.index()) {
            Some(member) => member.core(),
            None => None,
        }
    }
}

impl<S: Stable> World<S> {
    // Tells what holds of a world of which all is known; and over stores that are always clean, that all are.
    pub(crate) fn told(&self)
        ensures holds { IsKnown self.now → Holds self.now }
        ensures always { ((store : S) → IsTrue (S.is_clean store)) → all_clean self.now.health ≡ true }
    {
        // Only a look: what is told holds of every world, by its type.
        let _ = &self.live;
    }

    // Returns where a process stands.
    pub(crate) fn place(&self, p: usize) -> ProcessState
        requires { p < length self.now.programs }
        ensures { slice_get self.now.places p ≡ Some result }
    {
        let member = &self.members[p];
        ProcessState::of(&member.standing)
    }

    // Returns whether the process is there and up.
    pub(crate) fn is_up(&self, p: usize) -> Result<(), Refusal>
        ensures up { IfOk result (λ _. IsUp self.now p) }
        ensures there { IfOk result (λ _. p < length self.now.programs) }
        ensures not_running { IfErr result (λ why. NotRunning self.now p why self.now) }
    {
        if p >= self.images.len() {
            return Err(Refusal::NoProcess);
        }
        if self.place(p) != ProcessState::Up {
            return Err(Refusal::NotUp);
        }
        Ok(())
    }
}
