//! What is left of a world that ended.

ghost use Rattle.std.specs.Prelude.{◌≡◌, ◌<◌, ◌≤◌, IfOk, List, length, map};
ghost use Rattle.om_interval.specs.declared.pid.TheConstants.{MAX_PROCESSES};
ghost use Rattle.om_manager.specs.Outputs.{AreNumbered, held_of};
ghost use Rattle.om_manager.specs.State.{released_by};
ghost use Rattle.om_world.specs.Stopped.{IsLeft, along};
ghost use Rattle.om_world.specs.World.{IsKnown};
ghost use Rattle.om_world.specs.declared.entry.Entry.{Entry};
ghost use Rattle.om_world.specs.steps.Restarting.{CanRestart};
ghost use Rattle.om_world.specs.steps.Sound.{HasShape};

use crate::remembered::Remembered;
use crate::since::Since;
use crate::stopping::stores_of;
use om_interval::Pid;
use om_manager::{Manager, Output};
use om_member::Member;
use om_process::Image;
use om_stable::Stable;
use std::alloc::{AllocError, Global};
use std::marker::Model;
use std::snapshot::Snapshot;

/// What is left of a world that ended: its programs, its stores and what it had released, by process. Clauses see the world as it
/// ended, with all processes down and no frame left.
#[derive(Drop)]
pub struct Stopped<S: Stable> {
    pub(crate) images: Vec<Image>,
    // By process, each down over its store.
    pub(crate) members: Vec<Member<S>>,
    // By process, what was released.
    pub(crate) released: Vec<Vec<Output>>,
    // Whether each process knew the last finished round, and whether one had stored since.
    pub(crate) current: bool,
    pub(crate) since: Since,
    // What clauses alone know: what was received, the manager, and what the stores were before the start.
    pub(crate) live: Remembered,
    pub(crate) manager: Snapshot<Manager>,
    pub(crate) origins: Snapshot<Vec<S>>,
}

impl<S: Stable> Model for Stopped<S> {
    ghost use Rattle.std.specs.Prelude.{[], map};
    ghost use Rattle.om_world.specs.World.{WorldState, program_of};
    ghost use Rattle.om_world.specs.steps.Codes.{coded_health, coded_since};
    ghost use Rattle.om_world.specs.steps.Members.{health_of, seen, sound_in};
    ghost use Rattle.om_world.specs.steps.Stopping.{IsStopped};
    ghost use Rattle.om_stable.specs.steps.Codes.{content_code};
    ghost use Rattle.om_manager.specs.steps.Codes.{coded_manager};
    ghost use Rattle.std.specs.Coded.{codes};

    ghost Value = { WorldState };

    ghost coded = { Prim.hlevel (codes, coded_health, coded_since, content_code, coded_manager) };

    ghost view = { λ l. seen S.content (health_of S.is_clean S.failed) (map program_of l.images.items) l.live.entries
        [] l.members.items l.manager.value (record { origins = map S.content l.origins.value.items; since = l.since }) };

    ghost invariant = { λ l. IsStopped (sound_in S.IsSound) l.members.items l.released.items l.current
        (seen S.content (health_of S.is_clean S.failed) (map program_of l.images.items) l.live.entries [] l.members.items
        l.manager.value (record { origins = map S.content l.origins.value.items; since = l.since })) };
}

impl<S: Stable> Stopped<S> {
    // Returns how many processes there are.
    pub(crate) fn size(&self) -> usize
        ensures programs { result ≡ length self.now.programs }
        ensures some { 1 ≤ result }
        ensures few { result ≤ MAX_PROCESSES }
    {
        self.images.len()
    }

    // Tells what holds of what is left of a world, by its type.
    pub(crate) fn told(&self)
        ensures shape { HasShape self.now }
        ensures stands { IsKnown self.now → (run : List Entry) → IsLeft self.now run → CanRestart (along self.now run) }
    {
        let _ = &self.images;
    }

    /// Returns the outputs of a process that were released, in order.
    pub fn released(&self, pid: Pid) -> &[Output]
        requires { pid < length self.now.programs }
        ensures outputs { map held_of result.now ≡ released_by self.now.manager pid }
        ensures numbered { AreNumbered result.now }
    {
        let p = pid.index();
        let outputs = &self.released[p];
        outputs.as_slice()
    }

    /// Returns the stores, by process. Refused for memory, they are dropped as they are.
    pub fn into_stores(self, alloc: Global) -> Result<Vec<S>, AllocError>
        ensures { IfOk result (λ stores. map S.content stores.items ≡ self.contents) }
    {
        let Stopped { members, .. } = self;
        stores_of(alloc, members)
    }
}
