//! A position on the tape, with the machine there.

ghost use Rattle.std.specs.Prelude.{◌≡◌, ◌↔◌, ◌++◌, ◌+◌, ◌<◌, ◌≤◌, List, IfOk, IfSome, MatchOption, OnErr, OnOk, false, length, true};
ghost use Rattle.om_world.specs.Holds.{Holds};
ghost use Rattle.om_world.specs.World.{IsKnown};
ghost use Rattle.om_process.specs.Core.{status_of};
ghost use Rattle.om_timeline.specs.declared.deed.Deed.{Deed};
ghost use Rattle.om_timeline.specs.declared.tape.Peek.{Peek};
ghost use Rattle.om_timeline.specs.Alone.{move_alone};
ghost use Rattle.om_timeline.specs.Deeds.{turns_at};
ghost use Rattle.om_timeline.specs.Shown.{ShownAt};
ghost use Rattle.om_timeline.specs.Timeline.{CanBegin, IsBegin, IsUpTo, at, machine_here, told_timeline, with_deeds, StaysUnknown};
ghost use Rattle.om_timeline.specs.steps.Kept.{IsComing};
ghost use Rattle.om_timeline.specs.steps.Placed.{IsLeft, StaysOf};

use crate::alone::{Alone, copy_of};
use crate::deed::{Deed, turns_at};
use crate::fault::PlayFault;
use crate::reel::Reel;
use crate::stage::{Stage, are_up_to, before, is_full, is_up_to, spacing_of, thin, up_to};
use crate::tape::Peek;
use om_interval::Pid;
use om_machine::Machine;
use om_process::Status;
use om_stable::MemStable;
use om_world::{Event, World};
use std::alloc::{AllocError, Global};
use std::marker::Model;

/// A position of a record, as one of its processes sees it: how many events have happened, and how many instructions of the next
/// one, where that is a run of the process.
#[derive(Clone, Copy, Debug, PartialEq, Eq, PartialOrd, Ord)]
pub struct Position {
    pub event: usize,
    pub turns: u64,
}

// How many lie at most before a position that was gone back to, from one that is kept.
const NEAR: u64 = 4_000;

/// A record, and a process of it at a position. The record is played only as far as was asked.
#[derive(Drop)]
pub struct Timeline {
    tape: Reel,
    here: Alone,
    at: Position,
    // Where ways may begin, beside before the first event: in their order.
    stages: Vec<Stage>,
    // How many instructions and events lie between two of them.
    spacing: u64,
    // How many instructions and events were passed since one of them was left.
    passed: u64,
}

impl Model for Timeline {
    ghost use Rattle.om_timeline.specs.Timeline.{TimelineState};
    ghost use Rattle.om_timeline.specs.steps.Kept.{IsKept};
    ghost use Rattle.om_world.specs.steps.Codes.{coded_health};
    ghost use Rattle.om_stable.specs.steps.Codes.{content_code};
    ghost use Rattle.om_manager.specs.steps.Codes.{coded_manager};
    ghost use Rattle.std.specs.Coded.{codes};

    ghost Value = { TimelineState };

    ghost coded = { Prim.hlevel (codes, coded_health, content_code, coded_manager) };

    ghost view = { λ t. record {
      process = t.tape.own;
      n = t.tape.n;
      first = t.tape.first;
      begun = t.tape.begun;
      events = t.tape.events;
      deeds = t.tape.deeds;
      event = t.at.event;
      turns = t.at.turns;
    } };

    ghost invariant = { λ t. IsKept t.tape t.here.machine t.here.own t.here.n t.at.event t.at.turns t.stages.items };
}

impl Timeline {
    /// Begins before the first event of a record, with the world that it begins with. None, where the world has no such process, where it
    /// is down, and where it has finished more than 4,294,967,295 instructions. Refused where memory ran out.
    pub fn new(
        alloc: Global,
        world: World<MemStable>,
        events: Vec<Event>,
        process: Pid,
    ) -> Result<Option<Timeline>, AllocError>
        requires known { IsKnown world }
        requires holds { Holds world }
        ensures begun { IfOk result (λ made. IfSome made (λ t. IsBegin t process world events.items)) }
        ensures can { IfOk result (λ made. MatchOption made (CanBegin world process → ⊥) (λ t. CanBegin world process)) }
    {
        let Some(tape) = Reel::played(alloc, world, events, process)? else {
            return Ok(None);
        };
        let machine = copy_of(alloc, tape.first())?;
        let spacing = spacing_of(&machine);
        let here = Alone {
            machine,
            own: process.index() as u32,
            n: tape.n(),
        };
        Ok(Some(Timeline {
            tape,
            here,
            at: Position { event: 0, turns: 0 },
            stages: Vec::new(alloc),
            spacing,
            passed: 0,
        }))
    }

    /// Begins before the first event of a record of which all is known: what each event did to the process, and the machine that it had.
    /// Refused where memory ran out.
    pub fn told(
        alloc: Global,
        process: Pid,
        n: u32,
        first: Machine,
        events: Vec<Event>,
        deeds: Vec<Deed>,
    ) -> Result<Timeline, AllocError>
        requires { length deeds.items ≡ length events.items }
        ensures { IfOk result (λ t. t ≡ told_timeline process n first events.items deeds.items) }
    {
        let tape = Reel::told(process, n, first, events, deeds);
        let machine = copy_of(alloc, tape.first())?;
        let spacing = spacing_of(&machine);
        let here = Alone {
            machine,
            own: process.index() as u32,
            n,
        };
        Ok(Timeline {
            tape,
            here,
            at: Position { event: 0, turns: 0 },
            stages: Vec::new(alloc),
            spacing,
            passed: 0,
        })
    }

    /// Returns the position at which the process stands in the record.
    pub fn position(&self) -> Position
        ensures event { result.event ≡ self.now.event }
        ensures turns { result.turns ≡ self.now.turns }
        ensures within { result.event ≤ length self.now.deeds }
        ensures few { result.turns ≤ turns_at self.now.deeds result.event }
    {
        self.at
    }

    /// Returns the machine of the process at the position: of a process that is down, the one that it had.
    pub fn machine(&self) -> &Machine
        ensures here { result.now ≡ machine_here self.now }
        ensures shown { IfSome self.now.begun
            (λ begun. ShownAt self.now.process self.now.first begun self.now.events self.now.event self.now.turns result.now) }
    {
        self.tape.told_of();
        &self.here.machine
    }

    /// Returns what the process is about to do at the position: where it is down, what it was about to do.
    pub fn status(&self) -> Status
        ensures { status_of (move_alone self.now.process self.now.n (machine_here self.now)) ≡ result }
    {
        self.here.status()
    }

    /// Returns the events of the record.
    pub fn events(&self) -> &[Event]
        ensures { result.now ≡ self.now.events }
    {
        self.tape.events()
    }

    /// Returns what the events that were played did to the process.
    pub fn deeds(&self) -> &[Deed]
        ensures deeds { result.now ≡ self.now.deeds }
        ensures within { self.now.event ≤ length result.now }
    {
        self.tape.deeds()
    }

    /// Plays the record up to the next event and over it, where that was not played so far, and tells whether there is one. Of a run of very
    /// many instructions a part is played, and nothing is known of it until all are (`NotYet`). The position stays, and so does all that was
    /// played. After a fault the same fault is answered from then on.
    pub fn look(&mut self, alloc: Global) -> Result<Peek, PlayFault>
        ensures more { IfOk result (λ look. (deeds : List Deed) × (self.new ≡ with_deeds self.old (self.old.deeds ++ deeds))) }
        ensures there { IfOk result (λ look. look ≡ Peek.Next → self.new.event < length self.new.deeds) }
        ensures not_yet { IfOk result (λ look. StaysUnknown self.old look self.new) }
        ensures end { IfOk result (λ look. look ≡ Peek.End → length self.old.events ≤ self.old.event) }
        ensures refused { OnErr result (self.new ≡ self.old) }
    {
        if self.passed >= self.spacing {
            self.keep_on(alloc);
        }
        if self.at.event < self.tape.deeds().len() {
            return Ok(Peek::Next);
        }
        self.film(alloc)
    }

    // Keeps the position, where none behind it is kept.
    fn keep_on(&mut self, alloc: Global)
        ensures { self.new ≡ self.old }
    {
        self.passed = 0;
        if are_up_to(&self.stages, self.at) {
            self.keep(alloc);
        }
    }

    // Keeps the position. Where memory runs out it is not kept, and nothing is lost but time.
    fn keep(&mut self, alloc: Global)
        ensures { self.new ≡ self.old }
    {
        self.make_room();
        if let Ok(machine) = copy_of(alloc, &self.here.machine) {
            let place = up_to(&self.stages, self.at);
            let at = self.at;
            let _ = self.stages.insert(place, Stage { machine, at });
        }
    }

    // Lets some of those go that are kept, where there are very many.
    fn make_room(&mut self)
        ensures { self.new ≡ self.old }
    {
        if is_full(&self.stages, &self.here.machine) {
            thin(&mut self.stages);
            self.spacing = self.spacing.saturating_mul(2);
        }
    }

    // Plays one event more, or a part of it.
    fn film(&mut self, alloc: Global) -> Result<Peek, PlayFault>
        requires { length self.old.deeds ≤ self.old.event }
        ensures more { IfOk result (λ look. (deeds : List Deed) × (self.new ≡ with_deeds self.old (self.old.deeds ++ deeds))) }
        ensures there { IfOk result (λ look. look ≡ Peek.Next → self.new.event < length self.new.deeds) }
        ensures not_yet { IfOk result (λ look. StaysUnknown self.old look self.new) }
        ensures end { IfOk result (λ look. look ≡ Peek.End → length self.old.events ≤ self.old.event) }
        ensures refused { OnErr result (self.new ≡ self.old) }
    {
        self.tape.film(alloc)
    }

    /// Goes on by one instruction of the next event, and tells whether there is one.
    pub fn step_one(&mut self) -> bool
        ensures went { result ≡ true → self.new ≡ at self.old self.old.event (self.old.turns + 1) }
        ensures at_end { result ≡ false → self.new ≡ self.old }
        ensures left { result ≡ false → turns_at self.old.deeds self.old.event ≤ self.old.turns }
    {
        let left = turns_at(self.tape.deeds(), self.at.event);
        if self.at.turns >= left {
            return false;
        }
        self.step_many(1);
        true
    }

    /// Goes on by so many instructions of the next event, which are left of it.
    pub fn step_many(&mut self, turns: u64)
        requires { self.old.turns + turns ≤ turns_at self.old.deeds self.old.event }
        ensures { self.new ≡ at self.old self.old.event (self.old.turns + turns) }
    {
        // No deed has more turns than fit.
        let _ = turns_at(self.tape.deeds(), self.at.event);
        let all = self.at.turns + turns;
        self.here.go(turns);
        self.at.turns = all;
        self.passed = self.passed.saturating_add(turns);
    }

    /// Goes on to behind the next event, and tells whether one was played. Refused where memory ran out, and then it stands where it stood.
    pub fn pass(&mut self, alloc: Global) -> Result<bool, AllocError>
        ensures passed { IfOk result (λ went. went ≡ true → self.new ≡ at self.old (self.old.event + 1) 0) }
        ensures at_end { IfOk result (λ went. went ≡ false → self.new ≡ self.old) }
        ensures none { IfOk result (λ went. went ≡ false → length self.old.deeds ≤ self.old.event) }
        ensures refused { OnErr result (self.new ≡ self.old) }
    {
        let deeds = self.tape.deeds();
        if self.at.event >= deeds.len() {
            return Ok(false);
        }
        self.here
            .finish(alloc, &deeds[self.at.event], self.at.turns)?;
        let left = turns_at(deeds, self.at.event).saturating_sub(self.at.turns);
        self.passed = self.passed.saturating_add(left).saturating_add(1);
        self.at = Position {
            event: self.at.event + 1,
            turns: 0,
        };
        Ok(true)
    }

    /// Goes back to before the first event. Refused where memory ran out, and then it stands where it stood.
    pub fn rewind(&mut self, alloc: Global) -> Result<(), AllocError>
        ensures begun { OnOk result (self.new ≡ at self.old 0 0) }
        ensures refused { OnErr result (self.new ≡ self.old) }
    {
        self.here.machine = copy_of(alloc, self.tape.first())?;
        self.at = Position { event: 0, turns: 0 };
        self.passed = 0;
        Ok(())
    }

    /// Goes to a position, forward or back. Returns whether that position was played; where it was not, nothing moves. Refused where
    /// memory ran out: then it stands at some position before that one.
    pub fn go_to(&mut self, alloc: Global, to: Position) -> Result<bool, AllocError>
        ensures there { IfOk result (λ there. there ≡ true → self.new ≡ at self.old to.event to.turns) }
        ensures not_there { IfOk result (λ there. there ≡ false → self.new ≡ self.old) }
        ensures played { IfOk result (λ there. (there ≡ true)
            ↔ ((to.event ≤ length self.old.deeds) × (to.turns ≤ turns_at self.old.deeds to.event))) }
        ensures stays { StaysOf self.old self.new }
    {
        let deeds = self.tape.deeds();
        if to.event > deeds.len() {
            return Ok(false);
        }
        if to.turns > turns_at(deeds, to.event) {
            return Ok(false);
        }
        self.jump(alloc, to)?;
        Ok(true)
    }

    // Goes to a position that was played.
    #[tactic(auto, using(crate::proofs::Walking::came, crate::proofs::Walking::coming_to, crate::proofs::Walking::coming_then, crate::proofs::Walking::coming_order, crate::proofs::Walking::coming_event, crate::proofs::Walking::coming_turns, crate::proofs::Walking::stays_come, crate::proofs::Walking::stays_coming))]
    fn jump(&mut self, alloc: Global, to: Position) -> Result<(), AllocError>
        requires event { to.event ≤ length self.old.deeds }
        requires turns { to.turns ≤ turns_at self.old.deeds to.event }
        ensures there { OnOk result (self.new ≡ at self.old to.event to.turns) }
        ensures stays { StaysOf self.old self.new }
    {
        self.start_for(alloc, to)?;
        self.approach(alloc, to)?;
        self.advance(alloc, to)
    }

    // Goes to where the way to a position begins: to the last position that is kept and not behind that, or it stays where it is nearer.
    #[tactic(auto, using(crate::proofs::Walking::coming_here, crate::proofs::Walking::coming_to, crate::proofs::Walking::stays_coming))]
    fn start_for(&mut self, alloc: Global, to: Position) -> Result<(), AllocError>
        ensures coming { OnOk result (IsComing self.old self.new to.event to.turns) }
        ensures refused { OnErr result (self.new ≡ self.old) }
    {
        if self.is_far(to) {
            return self.go_to_kept(alloc, to);
        }
        Ok(())
    }

    // Returns whether a position lies before this one, or one is kept between the two.
    fn is_far(&self, to: Position) -> bool
        ensures { result ≡ false → IsUpTo self.now.event self.now.turns to.event to.turns }
    {
        if !is_up_to(self.at, to) {
            return true;
        }
        let place = up_to(&self.stages, to);
        place > 0 && !is_up_to(self.stages[place - 1].at, self.at)
    }

    /// Goes back to the last position that is kept and not behind another one, or to before the first event. Refused where memory ran
    /// out, and then it stands where it stood.
    #[tactic(auto, using(crate::proofs::Walking::begun_gone, crate::proofs::Walking::begun_order))]
    pub fn go_to_kept(&mut self, alloc: Global, to: Position) -> Result<(), AllocError>
        ensures gone { OnOk result (StaysOf self.old self.new) }
        ensures order { OnOk result (IsUpTo self.new.event self.new.turns to.event to.turns) }
        ensures refused { OnErr result (self.new ≡ self.old) }
    {
        let place = up_to(&self.stages, to);
        if place == 0 {
            self.rewind(alloc)?;
            return Ok(());
        }
        let stage = &self.stages[place - 1];
        self.here.machine = copy_of(alloc, &stage.machine)?;
        self.at = stage.at;
        self.passed = 0;
        Ok(())
    }

    // Goes on to near a position where that is far, and keeps where it stands then.
    #[tactic(auto, using(crate::proofs::Walking::coming_here, crate::proofs::Walking::coming_at, crate::proofs::Walking::up_event))]
    fn approach(&mut self, alloc: Global, to: Position) -> Result<(), AllocError>
        requires order { IsUpTo self.old.event self.old.turns to.event to.turns }
        requires event { to.event ≤ length self.old.deeds }
        requires turns { to.turns ≤ turns_at self.old.deeds to.event }
        ensures coming { OnOk result (IsComing self.old self.new to.event to.turns) }
        ensures stays { StaysOf self.old self.new }
    {
        let near = before(self.tape.deeds(), to, NEAR);
        if is_up_to(near, self.at) {
            return Ok(());
        }
        self.advance(alloc, near)?;
        self.keep(alloc);
        Ok(())
    }

    // Goes on to a position that is not before this one.
    #[tactic(auto, using(crate::proofs::Walking::gone_there, crate::proofs::Walking::jumped, crate::proofs::Walking::stays_then, crate::proofs::Walking::few_left, crate::proofs::Walking::few_there, crate::proofs::Walking::left_turns, crate::proofs::Walking::left_event, crate::proofs::Walking::left_deeds, crate::proofs::Walking::stays_left, crate::proofs::Walking::same_order, crate::proofs::Walking::less_event))]
    fn advance(&mut self, alloc: Global, to: Position) -> Result<(), AllocError>
        requires order { IsUpTo self.old.event self.old.turns to.event to.turns }
        requires event { to.event ≤ length self.old.deeds }
        requires turns { to.turns ≤ turns_at self.old.deeds to.event }
        ensures there { OnOk result (self.new ≡ at self.old to.event to.turns) }
        ensures stays { StaysOf self.old self.new }
    {
        if to.event == self.at.event {
            self.step_many(to.turns - self.at.turns);
            return Ok(());
        }
        self.leave(alloc, to.event)?;
        self.walk(alloc, to.event)?;
        self.step_many(to.turns);
        Ok(())
    }

    // Goes to behind the next event, where a position behind it was played.
    #[tactic(auto, using(crate::proofs::Walking::left_on))]
    fn leave(&mut self, alloc: Global, to: usize) -> Result<(), AllocError>
        requires order { self.old.event < to }
        requires played { to ≤ length self.old.deeds }
        ensures left { OnOk result (IsLeft self.old self.new to) }
        ensures refused { OnErr result (self.new ≡ self.old) }
    {
        self.pass(alloc)?;
        Ok(())
    }

    // Goes on from before an event to before another that was played.
    #[tactic(auto, using(crate::proofs::Walking::begun_at, crate::proofs::Walking::walked_on, crate::proofs::Walking::walked_to, crate::proofs::Walking::stays_at))]
    fn walk(&mut self, alloc: Global, to: usize) -> Result<(), AllocError>
        requires before { self.old.turns ≡ 0 }
        requires order { self.old.event ≤ to }
        requires played { to ≤ length self.old.deeds }
        ensures there { OnOk result (self.new ≡ at self.old to 0) }
        ensures stays { StaysOf self.old self.new }
    {
        for event in self.at.event..to {
            // The proof counts by it.
            let _ = event;
            self.pass(alloc)?;
        }
        Ok(())
    }
}
