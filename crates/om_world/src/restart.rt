//! The restart of a world: all that runs ends, and a new manager starts over the stores.

ghost use Rattle.std.specs.Prelude.{◌≡◌, ◌≢◌, ◌<◌, List, [], length, map, cond, Err, IfErr, IfOk, IsErrOf, OnOk, false, slice_get, slice_index, true};
ghost use Rattle.om_look.specs.Rows.{AreRowsOf};
ghost use Rattle.om_look.specs.declared.rows.RowsFault.{RowsFault};
ghost use Rattle.om_manager.specs.Sound.{IsManager};
ghost use Rattle.om_world.specs.Changes.{HasFailed};
ghost use Rattle.om_world.specs.Disk.{AreTrue, held_in};
ghost use Rattle.om_world.specs.Failures.{HasNews};
ghost use Rattle.om_world.specs.Happened.{Happened};
ghost use Rattle.om_world.specs.Live.{cut_list};
ghost use Rattle.om_world.specs.Played.{IsCounted};
ghost use Rattle.om_world.specs.Restarted.{anew};
ghost use Rattle.om_world.specs.Started.{IsNew};
ghost use Rattle.om_world.specs.Stopped.{AreCurrent, IsLeft, IsWhole, along};
ghost use Rattle.om_world.specs.World.{IsKnown};
ghost use Rattle.om_world.specs.declared.entry.Entry.{Entry};
ghost use Rattle.om_world.specs.declared.event.Event.{Event};
ghost use Rattle.om_world.specs.declared.event.Refusal.{Refusal};
ghost use Rattle.om_world.specs.steps.Members.{downed};
ghost use Rattle.om_world.specs.steps.Moves.{Keeps, answered};
ghost use Rattle.om_world.specs.steps.Restarting.{HasRead, HasToldStores, IsAnew, IsRefusal, left_run, refusal_of_rows};
ghost use Rattle.om_world.specs.steps.Faultless.{CountsFault, HasNoFaultOver, IsFaultlessOver, IsUndamaged, NeverFails};

use crate::event::{Answer, Refusal};
use crate::remembered::Remembered;
use crate::since::Since;
use crate::start::new_manager;
use crate::world::World;
use om_interval::{DepVec, Pid};
use om_look::{RowsFault, stored_rows};
use om_manager::Manager;
use om_member::{Member, MemberState};
use om_process::PendingRow;
use om_stable::Stable;
use om_take_up::{fail_all, take_up};
use std::alloc::Global;

// Takes each process down, declared, as before any round.
pub(crate) fn put_down<S: Stable>(members: &mut Vec<Member<S>>)
    ensures { members.new.items ≡ map downed members.old.items }
{
    for p in 0..members.len() {
        let member = &mut members[p];
        member.standing = MemberState::Down { declared: true };
        member.round = 0;
    }
}

// Leaves of what was received what a restart recovers: of what was received last, or before the last finished round.
fn begin_live(live: &mut Remembered, since: &mut Since, state: &DepVec, current: bool)
    ensures live { live.new.entries ≡ cut_list state.now (cond current live.old.entries since.old.before) }
    ensures since { since.new ≡ record { before = cond current live.old.entries since.old.before; stored = false } }
{
    since.restart(live, current);
    *live = Remembered::cut(since.before(), state);
}

impl<S: Stable> World<S> {
    /// Returns whether what is on the disks is known to be of one run: each process knows the last finished round, or none has stored
    /// since. Only then a world restarts, and what is left of it can be taken up.
    pub fn is_settled(&self) -> bool
        ensures settled { result ≡ true → IsWhole self.now }
        ensures unsettled { result ≡ false → ((p : _) × (p < length self.now.programs) × HasNews self.now p) × (self.now.since.stored ≡ true) }
    {
        match self.settled() {
            Ok(_) => true,
            Err(_) => false,
        }
    }

    // Returns whether each process knows the last finished round.
    pub(crate) fn is_current(&self) -> bool
        ensures current { result ≡ true → AreCurrent self.now }
        ensures news { result ≡ false → (p : _) × (p < length self.now.programs) × HasNews self.now p }
    {
        for p in 0..self.size() {
            if self.has_news(p) {
                return false;
            }
        }
        true
    }

    // Returns whether each process knows the last finished round, and refuses a world in which one does not and one has stored since.
    fn settled(&self) -> Result<bool, Refusal>
        ensures left { IfOk result (λ current. IsLeft self.now (left_run current self.now)) }
        ensures unsettled { IfErr result (λ why. (why ≡ Refusal.Unsettled)
            × ((p : _) × (p < length self.now.programs) × HasNews self.now p) × (self.now.since.stored ≡ true)) }
    {
        if self.is_current() {
            return Ok(true);
        }
        if self.since.has_stored() {
            return Err(Refusal::Unsettled);
        }
        Ok(false)
    }

    // Returns the rows that the store of a process stands for.
    fn rows_at(&mut self, alloc: Global, p: usize) -> Result<Vec<PendingRow>, RowsFault>
        requires { p < length self.old.programs }
        ensures read { HasRead self.old self.new }
        ensures rows { IsKnown self.new → IfOk result (λ rows. AreRowsOf p (length self.old.programs) (held_in self.old p) rows.items) }
        ensures counted { result ≡ Err RowsFault.Fault → HasFailed self.old p self.new }
        ensures faultless { NeverFails S.failed → result ≢ Err RowsFault.Fault }
        ensures stands { IsKnown self.new → (run : List Entry) → IsLeft self.old run → AreTrue self.old.programs run (held_in self.old) }
        ensures whole { IsKnown self.new → IsWhole self.old → IfErr result (λ fault. refusal_of_rows fault ≢ Refusal.Damaged) }
    {
        let n = self.size();
        let member = &mut self.members[p];
        stored_rows(alloc, &mut member.store, Pid::at(p), n)
    }

    // Tells a new manager what each store held, and what was released of its process.
    fn tell_stores(&mut self, alloc: Global, manager: &mut Manager) -> Result<(), Refusal>
        requires fresh { IsNew (length self.old.programs) manager.old }
        requires sound { IsManager manager.old }
        ensures told { OnOk result (HasToldStores self.old manager.old (length self.old.programs) self.new manager.new) }
        ensures read { HasRead self.old self.new }
        ensures refused { IfErr result IsRefusal }
        ensures counted { CountsFault self.old result self.new }
        ensures faultless { HasNoFaultOver S.failed result }
        ensures whole { IsUndamaged self.old result self.new }
    {
        for p in 0..self.size() {
            let rows = self.rows_at(alloc, p)?;
            let pid = Pid::at(p);
            take_up(manager, alloc, pid, 0, &rows, self.manager.released(pid))?;
        }
        Ok(())
    }

    // Makes the manager that a restart starts with: it recovers no less than this one.
    fn manager_anew(&mut self, alloc: Global) -> Result<Manager, Refusal>
        ensures made { IfOk result (λ manager. IsAnew self.new manager) }
        ensures read { HasRead self.old self.new }
        ensures refused { IfErr result IsRefusal }
        ensures counted { CountsFault self.old result self.new }
        ensures faultless { HasNoFaultOver S.failed result }
        ensures whole { IsUndamaged self.old result self.new }
    {
        let count = self.manager.recovery().n();
        let mut manager = new_manager(alloc, count)?;
        self.tell_stores(alloc, &mut manager)?;
        if !self.manager.recovery().leq(&manager.recovery()) {
            return Err(Refusal::Damaged);
        }
        fail_all(&mut manager, alloc)?;
        Ok(manager)
    }

    // Ends all that runs, and puts a new manager in the place of this one.
    fn begin_anew(&mut self, manager: Manager, current: bool)
        requires anew { IsAnew self.old manager }
        requires left { IsLeft self.old (left_run current self.old) }
        ensures { self.new ≡ anew (along self.old (left_run current self.old)) manager }
    {
        put_down(&mut self.members);
        self.frames.clear();
        begin_live(
            &mut self.live,
            &mut self.since,
            &manager.recovery(),
            current,
        );
        self.manager = manager;
    }

    // Ends all that runs: a new manager starts over the stores, to which each process has failed.
    pub(crate) fn restart(&mut self, alloc: Global) -> Result<Answer, Refusal>
        ensures happened { IsKnown self.new → Happened self.old Event.Restart (answered result) self.new }
        ensures keeps { Keeps self.old self.new }
        ensures counted { IsCounted self.old self.new (answered result) }
        ensures faultless { IsFaultlessOver S.failed (answered result) }
    {
        let current = self.settled()?;
        let manager = self.manager_anew(alloc)?;
        self.begin_anew(manager, current);
        Ok(Answer::Restarted)
    }
}
