//! Records that are stored, and rows that are noted.

ghost use Rattle.std.specs.Prelude.{ℕ, ◌≡◌, IfOk, OnErr, OnOk, Result, Err, Ok};
ghost use Rattle.om_world.specs.Changes.{IsUp};
ghost use Rattle.om_member.specs.Members.{core_of};
ghost use Rattle.om_stable.specs.declared.error.StoreError.{StoreError};
ghost use Rattle.om_world.specs.Happened.{Happened};
ghost use Rattle.om_world.specs.Played.{IsCounted};
ghost use Rattle.om_world.specs.World.{IsKnown};
ghost use Rattle.om_manager.specs.declared.answers.RecordError.{RecordError};
ghost use Rattle.om_world.specs.declared.event.Event.{Event};
ghost use Rattle.om_world.specs.declared.event.Refusal.{Refusal};
ghost use Rattle.om_world.specs.steps.Moves.{HasCalled, HasTold, Keeps, TellsStored, answered, count_of, event_of, refusal_of_record, refusal_of_store, rows_of, told_of};
ghost use Rattle.om_world.specs.steps.Faultless.{HasNoFaultOver, IsFaultlessOver};

use crate::event::{Answer, Refusal};
use crate::world::World;
use om_interval::Pid;
use om_manager::RecordError;
use om_member::{Batch, Member, NotUp};
use om_stable::{Stable, StoreError};
use std::alloc::Global;

// Returns what is told of records that a process stored.
fn told_stored(answer: Result<Result<(), StoreError>, NotUp>) -> Result<(), Refusal>
    ensures { result ≡ told_of refusal_of_store answer }
{
    answer??;
    Ok(())
}

// Returns what is told of rows that a process had noted.
fn told_noted(answer: Result<(usize, Result<(), RecordError>), NotUp>) -> Result<usize, Refusal>
    ensures noted { IfOk answer (λ told. result ≡ told_of refusal_of_record (Ok (count_of told.0 told.1))) }
    ensures not_up { OnErr answer (result ≡ Err Refusal.NotUp) }
{
    let (count, end) = answer?;
    end?;
    Ok(count)
}

// Returns whether rows of a process are pending.
#[tactic(auto, using(crate::proofs::Pending::rows_there, crate::proofs::Pending::no_rows_there))]
fn has_pending<S: Stable>(member: &Member<S>) -> bool
    ensures { result ≡ rows_of (core_of member.now.standing) }
{
    match member.core() {
        Some(core) => !core.pending().is_empty(),
        None => false,
    }
}

impl<S: Stable> World<S> {
    // Stores a batch of what a process that is up keeps.
    pub(crate) fn store(&mut self, alloc: Global, p: usize, kind: Batch) -> Result<(), Refusal>
        requires { IsUp self.old p }
        ensures called { (answer : Result (Unit {0}) StoreError) × HasCalled kind self.old p answer self.new
            × (result ≡ told_of refusal_of_store (Ok answer)) }
        ensures stored { OnOk result (TellsStored self.new p) }
        ensures faultless { HasNoFaultOver S.failed result }
    {
        let member = &mut self.members[p];
        let told = told_stored(member.store(alloc, kind));
        let has_rows = has_pending(member);
        self.since.note_stored(&told, has_rows);
        told
    }

    // Notes the pending rows of a process that is up, and says how many they are.
    pub(crate) fn note(&mut self, alloc: Global, p: usize) -> Result<usize, Refusal>
        requires up { IsUp self.old p }
        requires stored { TellsStored self.old p }
        ensures { (count : ℕ) × (end : Result (Unit {0}) RecordError) × HasTold self.old p count end self.new
            × (result ≡ told_of refusal_of_record (Ok (count_of count end))) }
    {
        let member = &mut self.members[p];
        told_noted(member.note(&mut self.manager, alloc, Pid::at(p)))
    }
}

impl<S: Stable> World<S> {
    // Stores a batch of what a process keeps, and notes its pending rows.
    pub(crate) fn record(&mut self, alloc: Global, p: usize, kind: Batch) -> Result<Answer, Refusal>
        ensures happened { IsKnown self.new → Happened self.old (event_of kind p) (answered result) self.new }
        ensures keeps { Keeps self.old self.new }
        ensures counted { IsCounted self.old self.new (answered result) }
        ensures faultless { IsFaultlessOver S.failed (answered result) }
    {
        self.is_up(p)?;
        self.store(alloc, p, kind)?;
        let count = self.note(alloc, p)?;
        Ok(Answer::Noted(count))
    }

    // Stores a checkpoint of what a process is now, and leaves its row pending.
    pub(crate) fn spell(&mut self, alloc: Global, p: usize) -> Result<Answer, Refusal>
        ensures happened { IsKnown self.new → Happened self.old (Event.Spell p) (answered result) self.new }
        ensures keeps { Keeps self.old self.new }
        ensures counted { IsCounted self.old self.new (answered result) }
        ensures faultless { IsFaultlessOver S.failed (answered result) }
    {
        self.is_up(p)?;
        self.store(alloc, p, Batch::Checkpoint)?;
        Ok(Answer::Noted(0))
    }
}
