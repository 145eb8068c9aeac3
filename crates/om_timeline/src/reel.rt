//! What each event did to one process: the events of a record that is played only as far as was asked, or all at once.

ghost use Rattle.std.specs.Prelude.{◌≡◌, ◌∷◌, ◌++◌, [], IfOk, IfSome, MatchOption, None, OnErr, Some, length};
ghost use Rattle.om_world.specs.Holds.{Holds};
ghost use Rattle.om_world.specs.World.{IsKnown, WorldState};
ghost use Rattle.om_timeline.specs.declared.deed.Deed.{Deed};
ghost use Rattle.om_timeline.specs.declared.tape.Peek.{Peek};
ghost use Rattle.om_timeline.specs.Timeline.{CanBegin, StaysUnknown};
ghost use Rattle.om_timeline.specs.steps.Filmed.{IsFilmed, IsMachineAt};
ghost use Rattle.om_timeline.specs.steps.Reels.{tape_from};

use crate::deed::Deed;
use crate::fault::PlayFault;
use crate::tape::{Peek, Tape};
use crate::whole::Whole;
use om_interval::Pid;
use om_machine::Machine;
use om_stable::MemStable;
use om_world::{Event, World};
use std::alloc::{AllocError, Global};
use std::marker::Model;

// Where it is known from.
#[derive(Drop)]
pub(crate) enum Source {
    // From a record, which is played.
    Played(Tape),
    // It was told at once.
    Told(Whole),
}

// What the events did, as far as is known.
#[derive(Drop)]
pub(crate) struct Reel {
    source: Source,
}

impl Model for Reel {
    ghost use Rattle.om_timeline.specs.steps.Reels.{ReelState, reel_of};
    ghost use Rattle.om_world.specs.steps.Codes.{coded_health};
    ghost use Rattle.om_stable.specs.steps.Codes.{content_code};
    ghost use Rattle.om_manager.specs.steps.Codes.{coded_manager};
    ghost use Rattle.std.specs.Coded.{codes};

    ghost Value = { ReelState };

    ghost coded = { Prim.hlevel (codes, coded_health, content_code, coded_manager) };

    ghost view = { λ r. reel_of r.source };
}

impl Reel {
    // Makes the reel of a record, none of whose events was played. None, where the world has no such process, or it has finished too
    // many instructions.
    pub(crate) fn played(
        alloc: Global,
        world: World<MemStable>,
        events: Vec<Event>,
        process: Pid,
    ) -> Result<Option<Reel>, AllocError>
        requires known { IsKnown world }
        requires holds { Holds world }
        ensures own { IfOk result (λ made. IfSome made (λ reel. reel.own ≡ process)) }
        ensures begun { IfOk result (λ made. IfSome made (λ reel. reel.begun ≡ Some world)) }
        ensures events { IfOk result (λ made. IfSome made (λ reel. reel.events ≡ events.items)) }
        ensures deeds { IfOk result (λ made. IfSome made (λ reel. reel.deeds ≡ [])) }
        ensures first { IfOk result (λ made. IfSome made (λ reel. IsMachineAt process world reel.first)) }
        ensures can { IfOk result (λ made. MatchOption made (CanBegin world process → ⊥) (λ reel. CanBegin world process)) }
    {
        match Tape::new(alloc, world, events, process)? {
            Some(tape) => Ok(Some(Reel {
                source: Source::Played(tape),
            })),
            None => Ok(None),
        }
    }

    // Makes the reel of events, each of which did this.
    pub(crate) fn told(
        process: Pid,
        n: u32,
        first: Machine,
        events: Vec<Event>,
        deeds: Vec<Deed>,
    ) -> Reel
        requires { length deeds.items ≡ length events.items }
        ensures { result ≡ record { own = process; n = n; first = first; begun = None; events = events.items; deeds = deeds.items } }
    {
        Reel {
            source: Source::Told(Whole {
                process,
                n,
                first,
                events,
                deeds,
            }),
        }
    }

    // Returns what the events that are known did.
    pub(crate) fn deeds(&self) -> &[Deed]
        ensures { result.now ≡ self.now.deeds }
    {
        match &self.source {
            Source::Played(tape) => tape.deeds(),
            Source::Told(whole) => &whole.deeds,
        }
    }

    // Returns the events of the record.
    pub(crate) fn events(&self) -> &[Event]
        ensures { result.now ≡ self.now.events }
    {
        match &self.source {
            Source::Played(tape) => tape.events(),
            Source::Told(whole) => &whole.events,
        }
    }

    // Returns how many processes there are.
    pub(crate) fn n(&self) -> u32
        ensures { result ≡ self.now.n }
    {
        match &self.source {
            Source::Played(tape) => tape.n(),
            Source::Told(whole) => whole.n,
        }
    }

    // Returns the machine of the process at the start.
    pub(crate) fn first(&self) -> &Machine
        ensures { result.now ≡ self.now.first }
    {
        match &self.source {
            Source::Played(tape) => tape.first(),
            Source::Told(whole) => &whole.first,
        }
    }

    // Tells that a record that is played is that of a world.
    pub(crate) fn told_of(&self)
        ensures { IfSome self.now.begun (λ begun. (last : WorldState) × IsFilmed (tape_from self.now begun) last) }
    {
        match &self.source {
            Source::Played(tape) => tape.told(),
            Source::Told(_) => {}
        }
    }

    // Plays one event more of a record, or a part of it. After a fault the same fault is answered from then on.
    pub(crate) fn film(&mut self, alloc: Global) -> Result<Peek, PlayFault>
        ensures next { IfOk result (λ look. look ≡ Peek.Next
            → (deed : Deed) × (self.new ≡ record self.old { deeds = self.old.deeds ++ deed ∷ [] })) }
        ensures not_yet { IfOk result (λ look. StaysUnknown self.old look self.new) }
        ensures end { IfOk result (λ look. look ≡ Peek.End → self.new ≡ self.old) }
        ensures all { IfOk result (λ look. look ≡ Peek.End → length self.old.deeds ≡ length self.old.events) }
        ensures refused { OnErr result (self.new ≡ self.old) }
    {
        match &mut self.source {
            Source::Played(tape) => tape.film(alloc),
            Source::Told(_) => Ok(Peek::End),
        }
    }
}
