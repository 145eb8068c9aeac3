//! Events that are played.

ghost use Rattle.std.specs.Prelude.{◌≡◌, All, IfOk, IsTrue, OnErr, length, true};
ghost use Rattle.om_manager.specs.Sound.{KeepsReleased};
ghost use Rattle.om_manager.specs.State.{process_count};
ghost use Rattle.om_world.specs.Changes.{NoneFell};
ghost use Rattle.om_world.specs.Happened.{Happened};
ghost use Rattle.om_world.specs.Holds.{Holds};
ghost use Rattle.om_world.specs.Played.{IsCounted, IsFaultless, Played, Step};
ghost use Rattle.om_world.specs.World.{IsKnown, all_clean};
ghost use Rattle.om_world.specs.steps.Moves.{Keeps, answered};
ghost use Rattle.om_world.specs.steps.Faultless.{NeverFails};

use crate::event::{Answer, Event, Refusal};
use crate::world::World;
use om_member::Batch;
use om_stable::Stable;
use std::alloc::{AllocError, Global};

// Returns what is told of an event.
fn answer_of(told: Result<Answer, Refusal>) -> Answer
    ensures { result ≡ answered told }
{
    match told {
        Ok(answer) => answer,
        Err(why) => Answer::Refused(why),
    }
}

impl<S: Stable> World<S> {
    // Returns what an event comes to.
    fn outcome(&mut self, alloc: Global, event: Event) -> Result<Answer, Refusal>
        ensures happened { IsKnown self.new → Happened self.old event (answered result) self.new }
        ensures keeps { Keeps self.old self.new }
        ensures counted { IsCounted self.old self.new (answered result) }
        ensures faultless { NeverFails S.failed → IsKnown self.new → IsFaultless (answered result) }
    {
        match event {
            Event::Run { process, fuel } => self.run(alloc, process, fuel),
            Event::Give { process, frame } => self.give(alloc, process, frame),
            Event::Flush { process } => self.record(alloc, process, Batch::Log),
            Event::FlushFirst { process, count } => self.record(
                alloc,
                process,
                Batch::First(count),
            ),
            Event::Checkpoint { process } => self.record(alloc, process, Batch::Checkpoint),
            Event::Spell { process } => self.spell(alloc, process),
            Event::Resend { process } => self.resend(alloc, process),
            Event::Trim { process } => self.trim(process),
            Event::Fail { process } => self.fail(alloc, process),
            Event::Join { process } => self.join(alloc, process),
            Event::Resume { process } => self.resume(alloc, process),
            Event::Prune => self.prune(alloc),
            Event::Restart => self.restart(alloc),
        }
    }

    // Plays one event.
    fn happen(&mut self, alloc: Global, event: Event) -> Answer
        ensures step { IsKnown self.new → Step self.old event result self.new }
        ensures keeps { Keeps self.old self.new }
        ensures counted { IsCounted self.old self.new result }
        ensures faultless { NeverFails S.failed → IsKnown self.new → IsFaultless result }
    {
        let answer = answer_of(self.outcome(alloc, event));
        self.told();
        answer
    }

    /// Plays events in order, and answers each. An event that is refused, out of memory too, is answered so, and the
    /// next is played. Only where there is no room for the answers is the call refused, and then no event is played.
    ///
    /// Where the stores held nothing before the start and are clean as the call ends, each event did what its answer says,
    /// and after each the world is a point of a run without failures (`Holds`; after Johnson and Zwaenepoel 1990). Stores of
    /// a type that is always clean are (`always`), and over stores of a type that never counts a failure no event is answered
    /// with a fault (`faultless`): both are so of stores in memory. Whatever the stores do, no count of failures falls (`counts`), and
    /// an event is answered with a fault only where one rises (`counted`).
    pub fn play(&mut self, alloc: Global, events: &[Event]) -> Result<Vec<Answer>, AllocError>
        ensures played { IsKnown self.new → IfOk result (λ answers. Played self.old events.now answers.items self.new) }
        ensures count { IfOk result (λ answers. length answers.items ≡ length events.now) }
        ensures counted { IfOk result (λ answers. All (IsCounted self.old self.new) answers.items) }
        ensures counts { NoneFell self.old.health self.new.health }
        ensures faultless { NeverFails S.failed → IsKnown self.new
            → IfOk result (λ answers. All IsFaultless answers.items) }
        ensures holds { IsKnown self.new → Holds self.new }
        ensures released { KeepsReleased self.old.manager self.new.manager }
        ensures size { process_count self.new.manager ≡ process_count self.old.manager }
        ensures clean { all_clean self.new.health ≡ true → all_clean self.old.health ≡ true }
        ensures always { ((store : S) → IsTrue (S.is_clean store)) → all_clean self.new.health ≡ true }
        ensures origins { self.new.origins ≡ self.old.origins }
        ensures refused { OnErr result (self.new ≡ self.old) }
    {
        self.told();
        let mut answers = Vec::with_capacity(alloc, events.len())?;
        for k in 0..events.len() {
            let event = events[k];
            let answer = self.happen(alloc, event);
            answers.push_reserved(answer);
        }
        self.told();
        Ok(answers)
    }
}
