//! Worlds over what is left of worlds that ended.

ghost use Rattle.std.specs.Prelude.{◌≡◌, ◌≢◌, ◌≤◌, ◌<◌, List, length, cond, false, Err, IfErr, IfOk, IsTrue, OnOk, true};
ghost use Rattle.om_look.specs.Rows.{AreRowsOf};
ghost use Rattle.om_look.specs.declared.rows.RowsFault.{RowsFault};
ghost use Rattle.om_manager.specs.Sound.{IsManager, KeepsReleased};
ghost use Rattle.om_manager.specs.State.{process_count, released_by};
ghost use Rattle.om_world.specs.Changes.{HasFailed, NoneFell};
ghost use Rattle.om_world.specs.Disk.{AreTrue, held_in};
ghost use Rattle.om_world.specs.Happened.{Happened};
ghost use Rattle.om_world.specs.Holds.{Holds};
ghost use Rattle.om_world.specs.Restarted.{HasRestarted, anew};
ghost use Rattle.om_world.specs.Started.{IsNew};
ghost use Rattle.om_world.specs.Stopped.{IsLeft, IsWhole, along};
ghost use Rattle.om_world.specs.World.{IsKnown, all_clean};
ghost use Rattle.om_world.specs.declared.entry.Entry.{Entry};
ghost use Rattle.om_world.specs.declared.event.Answer.TheVariants as answers;
ghost use Rattle.om_world.specs.declared.event.Event.{Event};
ghost use Rattle.om_world.specs.declared.event.Refusal.{Refusal};
ghost use Rattle.om_world.specs.steps.Restarting.{HasRead, HasToldStores, IsAnew, IsRefusal, refusal_of_rows};
ghost use Rattle.om_world.specs.steps.Faultless.{CountsFault, HasNoFaultOver, IsUndamaged, NeverFails};

use crate::event::Refusal;
use crate::remembered::Remembered;
use crate::restart::put_down;
use crate::since::Since;
use crate::start::new_manager;
use crate::stopped::Stopped;
use crate::world::World;
use om_interval::Pid;
use om_look::{RowsFault, stored_rows};
use om_manager::Manager;
use om_process::PendingRow;
use om_stable::Stable;
use om_take_up::{fail_all, take_up};
use std::alloc::Global;

/// Why no world was taken up, and what it was to be taken up from, as it was but for how its stores stand.
#[derive(Drop)]
pub struct NotTakenUp<S: Stable> {
    pub why: Refusal,
    pub left: Stopped<S>,
}

impl<S: Stable> Stopped<S> {
    // Returns the rows that the store of a process stands for.
    fn rows_at(&mut self, alloc: Global, p: usize) -> Result<Vec<PendingRow>, RowsFault>
        requires { p < length self.old.programs }
        ensures read { HasRead self.old self.new }
        ensures rows { IsKnown self.new → IfOk result (λ rows. AreRowsOf p (length self.old.programs) (held_in self.old p) rows.items) }
        ensures counted { result ≡ Err RowsFault.Fault → HasFailed self.old p self.new }
        ensures faultless { NeverFails S.failed → result ≢ Err RowsFault.Fault }
        ensures stands { IsKnown self.new → (run : List Entry) → IsLeft self.old run → AreTrue self.old.programs run (held_in self.old) }
        ensures whole { IsKnown self.new → IsWhole self.old → IfErr result (λ fault. refusal_of_rows fault ≢ Refusal.Damaged) }
    {
        let n = self.size();
        let member = &mut self.members[p];
        stored_rows(alloc, &mut member.store, Pid::at(p), n)
    }

    // Tells a new manager what each store held, and what was released of its process.
    fn tell_stores(&mut self, alloc: Global, manager: &mut Manager) -> Result<(), Refusal>
        requires fresh { IsNew (length self.old.programs) manager.old }
        requires sound { IsManager manager.old }
        ensures told { OnOk result (HasToldStores self.old manager.old (length self.old.programs) self.new manager.new) }
        ensures read { HasRead self.old self.new }
        ensures refused { IfErr result IsRefusal }
        ensures counted { CountsFault self.old result self.new }
        ensures faultless { HasNoFaultOver S.failed result }
        ensures whole { IsUndamaged self.old result self.new }
    {
        for p in 0..self.size() {
            let rows = self.rows_at(alloc, p)?;
            self.told();
            let pid = Pid::at(p);
            take_up(manager, alloc, pid, 0, &rows, self.released(pid))?;
        }
        Ok(())
    }

    // Returns whether a manager releases as many outputs of each of the first n processes as were released.
    fn has_released(&self, manager: &Manager, n: usize) -> bool
        requires many { n ≤ length self.now.programs }
        requires size { n ≤ process_count manager.now }
        ensures released { result ≡ true → (p : _) → p < n
            → length (released_by self.now.manager p) ≤ length (released_by manager.now p) }
        ensures fewer { result ≡ false → (p : _) × (p < n)
            × (length (released_by manager.now p) < length (released_by self.now.manager p)) }
    {
        self.told();
        for p in 0..n {
            let pid = Pid::at(p);
            let released = manager.released(pid);
            let now = released.len();
            let outputs = self.released(pid);
            let before = outputs.len();
            if now < before {
                return false;
            }
        }
        true
    }

    // Makes the manager that starts over what is left: it releases all that was released.
    fn manager_anew(&mut self, alloc: Global) -> Result<Manager, Refusal>
        ensures made { IfOk result (λ manager. IsAnew self.new manager) }
        ensures read { HasRead self.old self.new }
        ensures refused { IfErr result IsRefusal }
        ensures counted { CountsFault self.old result self.new }
        ensures faultless { HasNoFaultOver S.failed result }
        ensures whole { IsUndamaged self.old result self.new }
    {
        let n = self.size();
        let mut manager = new_manager(alloc, n)?;
        self.tell_stores(alloc, &mut manager)?;
        self.told();
        if !self.has_released(&manager, n) {
            return Err(Refusal::Damaged);
        }
        fail_all(&mut manager, alloc)?;
        Ok(manager)
    }

    // Makes the world over what is left, with this manager.
    fn into_world(self, alloc: Global, manager: Manager) -> World<S>
        requires anew { IsAnew self manager }
        requires whole { IsWhole self }
        ensures { (run : List Entry) × IsLeft self run × (result ≡ anew (along self run) manager) }
    {
        let Stopped {
            images,
            mut members,
            current,
            since,
            live,
            origins,
            ..
        } = self;
        put_down(&mut members);
        let run = run_of(live, since, current);
        World {
            images,
            live: Remembered::cut(&run, &manager.recovery()),
            frames: Vec::new(alloc),
            members,
            manager,
            origins,
            since: Since::at(run),
        }
    }
}

// Returns what was received, or what had been before the last finished round.
fn run_of(live: Remembered, since: Since, current: bool) -> Remembered
    ensures { result.entries ≡ cond current live.entries since.before }
{
    if current {
        live
    } else {
        let Since { before, .. } = since;
        before
    }
}

impl<S: Stable> World<S> {
    /// Takes up what is left of a world that ended, as the event of a restart does: a new manager is told what the stores hold, and what
    /// was released, and that each process failed. Each process is down, and comes back by `resume`.
    ///
    /// Refused with `Fault` where a store fails, with `Damaged` where a store lacks what it held, and with `Memory`; what was left is
    /// handed back, and nothing of it changes but how its stores stand. Where the stores held nothing before the start and are clean,
    /// nothing is damaged.
    pub fn take_up(alloc: Global, left: Stopped<S>) -> Result<World<S>, NotTakenUp<S>>
        requires { IsWhole left }
        ensures restarted { IfOk result (λ w. IsKnown w → HasRestarted left w) }
        ensures holds { IfOk result (λ w. IsKnown w → Holds w) }
        ensures released { IfOk result (λ w. KeepsReleased left.manager w.manager) }
        ensures size { IfOk result (λ w. process_count w.manager ≡ process_count left.manager) }
        ensures programs { IfOk result (λ w. w.programs ≡ left.programs) }
        ensures origins { IfOk result (λ w. w.origins ≡ left.origins) }
        ensures clean { IfOk result (λ w. all_clean w.health ≡ true → all_clean left.health ≡ true) }
        ensures counts { IfOk result (λ w. NoneFell left.health w.health) }
        ensures always { IfOk result (λ w. ((store : S) → IsTrue (S.is_clean store)) → all_clean w.health ≡ true) }
        ensures refused { IfErr result (λ e. IsKnown e.left → Happened left Event.Restart (answers.Refused e.why) e.left) }
        ensures faultless { NeverFails S.failed → IfErr result (λ e. e.why ≢ Refusal.Fault) }
    {
        let mut left = left;
        match left.manager_anew(alloc) {
            Ok(manager) => {
                let world = left.into_world(alloc, manager);
                world.told();
                Ok(world)
            }
            Err(why) => Err(NotTakenUp { why, left }),
        }
    }
}
