//! What the manager and the stores need not keep.

ghost use Rattle.std.specs.Prelude.{◌≡◌, ◌≢◌, ◌<◌, length, Err};
ghost use Rattle.om_stable.specs.declared.error.StoreError.{StoreError};
ghost use Rattle.om_world.specs.Happened.{Happened};
ghost use Rattle.om_world.specs.Played.{IsCounted};
ghost use Rattle.om_world.specs.World.{IsKnown};
ghost use Rattle.om_world.specs.declared.event.Event.{Event};
ghost use Rattle.om_world.specs.steps.Moves.{Keeps, answered};
ghost use Rattle.om_world.specs.steps.Pruning.{AllPruned, HasPruned, ManagerPruned};
ghost use Rattle.om_world.specs.steps.Faultless.{IsFaultlessOver, NeverFails};

use crate::event::{Answer, Refusal};
use crate::world::World;
use om_interval::Pid;
use om_stable::{Stable, StoreError};
use std::alloc::Global;

impl<S: Stable> World<S> {
    // Returns how many processes there are, each with its store.
    pub(crate) fn size(&self) -> usize
        ensures programs { result ≡ length self.now.programs }
        ensures stores { result ≡ length self.now.contents }
    {
        self.images.len()
    }

    // Prunes the manager.
    fn prune_manager(&mut self)
        ensures pruned { ManagerPruned self.old.manager self.new.manager }
        ensures rest { self.new ≡ record self.old { manager = self.new.manager } }
    {
        self.manager.prune();
    }

    // Prunes the store of a process to its effective checkpoint.
    fn prune_store(&mut self, alloc: Global, p: usize) -> Result<(), StoreError>
        requires { p < length self.old.programs }
        ensures pruned { HasPruned self.old p result self.new }
        ensures faultless { NeverFails S.failed → result ≢ Err StoreError.Fault }
    {
        let member = &mut self.members[p];
        member.prune(alloc, self.manager.effective(Pid::at(p)))
    }

    // Prunes the stores in order, up to the first that refuses.
    fn prune_stores(&mut self, alloc: Global) -> Result<(), StoreError>
        ensures pruned { AllPruned self.old result self.new }
        ensures faultless { NeverFails S.failed → result ≢ Err StoreError.Fault }
    {
        for p in 0..self.size() {
            self.prune_store(alloc, p)?;
        }
        Ok(())
    }

    // Drops what the manager need not keep, and then from each store what stands before its effective checkpoint.
    pub(crate) fn prune(&mut self, alloc: Global) -> Result<Answer, Refusal>
        ensures happened { IsKnown self.new → Happened self.old Event.Prune (answered result) self.new }
        ensures keeps { Keeps self.old self.new }
        ensures counted { IsCounted self.old self.new (answered result) }
        ensures faultless { IsFaultlessOver S.failed (answered result) }
    {
        self.prune_manager();
        self.prune_stores(alloc)?;
        Ok(Answer::Pruned)
    }
}
