//! Forward to a stop, and back to one.
#![tactic(auto, using(crate::proofs::Moved::moved_then, crate::proofs::Moved::same_then, crate::proofs::Moved::moved_at, crate::proofs::Moved::moved_to, crate::proofs::Moved::moved_with, crate::proofs::Moved::moved_same, crate::proofs::Moved::moved_not))]

ghost use Rattle.std.specs.Prelude.{◌≡◌, ◌↔◌, ◌+◌, ◌-◌, ◌<◌, ◌≤◌, IfOk, IfSome, MatchOption, None, OnOk, false, length, true};
ghost use Rattle.om_debug.specs.Moments.{next_at};
ghost use Rattle.om_debug.specs.Monitor.{IsAtEvent};
ghost use Rattle.om_timeline.specs.declared.tape.Peek.{Peek};
ghost use Rattle.om_timeline.specs.Deeds.{turns_at};
ghost use Rattle.om_debug.specs.Stops.{IsBefore, IsBehind, IsFrom, IsLast, IsLookedBack, IsMoved, IsPartBack, IsPassed, IsQuiet, IsQuietRest, IsRunBack, IsStepBack, IsStillBefore, IsWithin, StandsFor, breaks_here, has_stops, standing, stop_here, watch_here, ChangesTimelineAlone, ChangesPositionAlone};
ghost use Rattle.om_debug.specs.steps.Scanning.{IsOver, IsPart};
ghost use Rattle.om_debug.specs.steps.Stepping.{before_last};
ghost use Rattle.om_debug.specs.Told.{ReadsNothing};

use crate::debugger::Debugger;
use crate::moment::{Next, is_at_instruction, is_down, next_at};
use crate::stop::Stop;
use crate::watching::watch_met;
use crate::wish::Wish;
use om_process::Status;
use om_requests::{Resume, Watch};
use om_timeline::{Deed, Peek, PlayFault, Position};

// How many pieces of a way are gone at most without a stop.
const MOST_PIECES: u64 = u64::MAX;

// How many instructions are made at most in one piece.
const MOST_AT_ONCE: u64 = 100_000;

// How many pieces are gone until one who may wish a stop is asked again.
const PIECES_UNASKED: u64 = 64;

// Asks, before each so many pieces, whether a stop is wished.
fn is_paused<R: Wish>(pieces: u64, reader: &mut R) -> bool
    ensures { R.remaining reader.new ≡ R.remaining reader.old }
{
    pieces.is_multiple_of(PIECES_UNASKED) && reader.is_there()
}

// Returns whether pc has come out of what is to be stepped over.
fn is_done(how: Resume, pc: u32) -> bool {
    match how {
        Resume::Step => true,
        Resume::Range(from, to) => pc < from || to <= pc,
        Resume::Continue => false,
    }
}

// Returns whether the one position is before the other.
fn is_before(one: Position, other: Position) -> bool
    ensures { (result ≡ true) ↔ IsBefore one.event one.turns other.event other.turns }
{
    one.event < other.event || one.event == other.event && one.turns < other.turns
}

// Returns how many turns are left of the event at a position.
#[tactic(auto, using(crate::proofs::Quiet::turns_read, crate::proofs::Quiet::turns_past))]
fn turns_left(deeds: &[Deed], at: Position) -> u64
    ensures { result ≡ turns_at deeds.now at.event - at.turns }
{
    if at.event >= deeds.len() {
        return 0;
    }
    match &deeds[at.event] {
        Deed::Nothing => 0,
        Deed::Ran(turns) => turns.saturating_sub(at.turns),
        Deed::Took(..) => 0,
        Deed::Fell => 0,
        Deed::Back(_) => 0,
    }
}

impl Debugger {
    // Goes on to the first stop at or behind the position, or to where a stop is wished.
    #[tactic(auto, using(crate::proofs::Moved::moved_then, crate::proofs::Moved::same_then, crate::proofs::Moved::moved_not, crate::proofs::Quiet::passed_not, crate::proofs::Quiet::passed_then))]
    pub(crate) fn forward<R: Wish>(
        &mut self,
        how: Resume,
        reader: &mut R,
    ) -> Result<Stop, PlayFault>
        ensures moved { IsMoved self.old.timeline self.new.timeline }
        ensures same { ChangesTimelineAlone self.old self.new }
        ensures passed { OnOk result (IsPassed self.old self.new) }
        ensures stands { IfOk result (λ stop. StandsFor self.new stop) }
        ensures unread { ReadsNothing R.remaining reader.old reader.new }
    {
        'pieces: for pieces in 0..MOST_PIECES {
            if let Some(stop) = self.advance(how)? {
                return Ok(stop);
            }
            if is_paused(pieces, reader) {
                return Ok(Stop::Paused);
            }
        }
        Ok(Stop::Paused)
    }

    // Makes a piece of the way, and returns what stops it.
    #[tactic(auto, using(crate::proofs::Moved::moved_then, crate::proofs::Moved::same_then, crate::proofs::Quiet::passed_then, crate::proofs::Quiet::within_of))]
    fn advance(&mut self, how: Resume) -> Result<Option<Stop>, PlayFault>
        ensures within { IsWithin self.old.timeline }
        ensures moved { IsMoved self.old.timeline self.new.timeline }
        ensures same { ChangesTimelineAlone self.old self.new }
        ensures passed { OnOk result (IsPassed self.old self.new) }
        ensures stands { IfOk result (λ stop. IfSome stop (λ stop. StandsFor self.new stop)) }
    {
        let _ = self.timeline.position();
        match self.look()? {
            Peek::Next => {
                let stop = self.go_on(how)?;
                Ok(stop)
            }
            Peek::NotYet => Ok(None),
            Peek::End => Ok(Some(Stop::End)),
        }
    }

    /// Goes on by a piece of the way where the next event was played, and tells what stops it: nothing of it is made where that is right
    /// before what comes next. A piece is one instruction, or what else comes next, or many instructions where nothing can stop between
    /// them. Refused where memory ran out, and then it stands where it stood.
    #[tactic(auto, using(crate::proofs::Moved::moved_not, crate::proofs::Quiet::passed_not, crate::proofs::Quiet::within_of))]
    pub fn go_on(&mut self, how: Resume) -> Result<Option<Stop>, PlayFault>
        ensures within { IsWithin self.old.timeline }
        ensures moved { IsMoved self.old.timeline self.new.timeline }
        ensures same { ChangesTimelineAlone self.old self.new }
        ensures passed { OnOk result (IsPassed self.old self.new) }
        ensures stands { IfOk result (λ stop. IfSome stop (λ stop. StandsFor self.new stop)) }
    {
        let _ = self.timeline.position();
        if let Some(stop) = self.stop_here() {
            return Ok(Some(stop));
        }
        let next = self.next();
        self.make(how)?;
        Ok(self.stop_behind(next, how))
    }

    /// Plays the record up to the next event and over it, or a part of it, and tells which. The process stays. Refused where memory ran
    /// out, or the record is not played on.
    #[tactic(auto, using(crate::proofs::Moved::moved_with, crate::proofs::Moved::moved_same, crate::proofs::Moved::moved_not, crate::proofs::Quiet::passed_look, crate::proofs::Quiet::end_look, crate::proofs::Quiet::within_of))]
    pub fn look(&mut self) -> Result<Peek, PlayFault>
        ensures before { IsWithin self.old.timeline }
        ensures moved { IsMoved self.old.timeline self.new.timeline }
        ensures same { ChangesTimelineAlone self.old self.new }
        ensures passed { OnOk result (IsPassed self.old self.new) }
        ensures within { OnOk result (IsWithin self.new.timeline) }
        ensures end { IfOk result (λ look. look ≡ Peek.End → length self.new.timeline.events ≤ self.new.timeline.event) }
    {
        let _ = self.timeline.position();
        let look = self.timeline.look(self.alloc)?;
        let _ = self.timeline.position();
        Ok(look)
    }

    // Returns what comes next.
    fn next(&self) -> Next
        ensures { result ≡ next_at self.now.timeline.deeds self.now.timeline.event self.now.timeline.turns }
    {
        next_at(self.timeline.deeds(), self.timeline.position())
    }

    // Returns how many instructions are left of the event.
    fn turns_left(&self) -> u64
        ensures { result ≡ turns_at self.now.timeline.deeds self.now.timeline.event - self.now.timeline.turns }
    {
        turns_left(self.timeline.deeds(), self.timeline.position())
    }

    // Returns what stops the process right before what comes next.
    fn stop_here(&self) -> Option<Stop>
        ensures is { result ≡ stop_here self.now }
        ensures stands { IfSome result (λ stop. StandsFor self.now stop) }
    {
        if self.breaks_here() {
            return Some(Stop::Break);
        }
        match self.watch_here() {
            Some(watch) => Some(Stop::Watched(watch)),
            None => None,
        }
    }

    // Returns whether the next instruction has a breakpoint.
    fn breaks_here(&self) -> bool
        ensures { result ≡ breaks_here self.now }
    {
        is_at_instruction(self.next()) && self.breaks.contains(&self.timeline.machine().pc())
    }

    // Returns the watchpoint that what comes next meets.
    fn watch_here(&self) -> Option<Watch>
        ensures { result ≡ watch_here self.now }
    {
        watch_met(
            &self.watches,
            self.timeline.machine(),
            self.timeline.deeds(),
            self.timeline.position(),
        )
    }

    // Returns what stops the process right behind what came to it.
    fn stop_behind(&self, next: Next, how: Resume) -> Option<Stop>
        ensures { IfSome result (λ stop. StandsFor self.now stop) }
    {
        match next {
            Next::Still => return None,
            Next::Failure => return Some(Stop::Failed),
            _ => {}
        }
        if let Status::Trapped(cause) = self.timeline.status() {
            return Some(Stop::Trapped(cause));
        }
        if is_done(how, self.timeline.machine().pc()) {
            Some(Stop::Stepped)
        } else {
            None
        }
    }

    // Makes what comes next: of instructions one, or many where nothing can stop between them.
    #[tactic(auto, using(crate::proofs::Quiet::rest_last))]
    fn make(&mut self, how: Resume) -> Result<(), PlayFault>
        requires quiet { stop_here self.old ≡ None }
        ensures moved { IsMoved self.old.timeline self.new.timeline }
        ensures same { ChangesTimelineAlone self.old self.new }
        ensures passed { OnOk result (IsPassed self.old self.new) }
    {
        if self.is_free(how) {
            return self.make_freely();
        }
        if self.turns_left() > 1 {
            self.step();
            return Ok(());
        }
        self.pass()
    }

    // Makes the rest of the event, or as much of it as is made at once.
    fn make_freely(&mut self) -> Result<(), PlayFault>
        requires quiet { IsQuietRest self.old }
        ensures moved { IsMoved self.old.timeline self.new.timeline }
        ensures same { ChangesTimelineAlone self.old self.new }
        ensures passed { OnOk result (IsPassed self.old self.new) }
    {
        if self.turns_left() > MOST_AT_ONCE {
            self.step_many(MOST_AT_ONCE);
            return Ok(());
        }
        self.pass()
    }

    // Returns whether the process is to go on, and nothing can stop it in the rest of the event.
    #[tactic(auto, using(crate::proofs::Quiet::rest_empty))]
    fn is_free(&self, how: Resume) -> bool
        ensures { result ≡ true → IsQuietRest self.now }
    {
        if self.breaks.len() > 0 || self.watches.len() > 0 {
            return false;
        }
        how == Resume::Continue
    }

    // Makes one instruction.
    #[tactic(auto, using(crate::proofs::Moved::moved_at, crate::proofs::Moved::moved_same, crate::proofs::Quiet::one_if))]
    fn step(&mut self)
        requires quiet { stop_here self.old ≡ None }
        ensures moved { IsMoved self.old.timeline self.new.timeline }
        ensures same { ChangesTimelineAlone self.old self.new }
        ensures passed { IsPassed self.old self.new }
    {
        self.timeline.step_one();
    }

    // Makes so many instructions of the event.
    #[tactic(auto, using(crate::proofs::Moved::moved_at))]
    fn step_many(&mut self, turns: u64)
        requires quiet { IsQuietRest self.old }
        requires left { self.old.timeline.turns + turns ≤ turns_at self.old.timeline.deeds self.old.timeline.event }
        ensures moved { IsMoved self.old.timeline self.new.timeline }
        ensures same { ChangesTimelineAlone self.old self.new }
        ensures passed { IsPassed self.old self.new }
    {
        self.timeline.step_many(turns);
    }

    // Makes the rest of the event.
    #[tactic(auto, using(crate::proofs::Moved::moved_at, crate::proofs::Moved::moved_same, crate::proofs::Moved::moved_not, crate::proofs::Quiet::event_if))]
    fn pass(&mut self) -> Result<(), PlayFault>
        requires quiet { IsQuietRest self.old }
        ensures moved { IsMoved self.old.timeline self.new.timeline }
        ensures same { ChangesTimelineAlone self.old self.new }
        ensures passed { OnOk result (IsPassed self.old self.new) }
    {
        self.timeline.pass(self.alloc)?;
        Ok(())
    }

    /// Goes back by what came last to the process, and tells a breakpoint where it then stands. Where what came last accesses what is
    /// watched, the process stays right behind that access. Refused where memory ran out: then it stands somewhere before where it stood.
    #[tactic(auto, using(crate::proofs::Moved::moved_then, crate::proofs::Moved::same_then, crate::proofs::Moved::moved_not, crate::proofs::Stepping::stepped_as, crate::proofs::Stepping::last_stands, crate::proofs::Stepping::within_stands, crate::proofs::Stepping::few_stands, crate::proofs::Stepping::last_within, crate::proofs::Backwards::stands_then))]
    pub fn step_back(&mut self) -> Result<Stop, PlayFault>
        ensures stands { ChangesPositionAlone self.old self.new }
        ensures moved { IsMoved self.old.timeline self.new.timeline }
        ensures same { ChangesTimelineAlone self.old self.new }
        ensures back { IfOk result (λ stop. IsStepBack self.old self.new stop) }
    {
        let behind = self.timeline.position();
        let Some(before) = self.last() else {
            return Ok(Stop::Begin);
        };
        self.stand_at(before)?;
        let stop = self.stepped_back(behind)?;
        Ok(stop)
    }

    // Goes to a position that was played.
    #[tactic(auto, using(crate::proofs::Moved::moved_to, crate::proofs::Moved::moved_at))]
    fn stand_at(&mut self, to: Position) -> Result<(), PlayFault>
        requires event { to.event ≤ length self.old.timeline.deeds }
        requires turns { to.turns ≤ turns_at self.old.timeline.deeds to.event }
        ensures moved { IsMoved self.old.timeline self.new.timeline }
        ensures same { ChangesTimelineAlone self.old self.new }
        ensures stands { ChangesPositionAlone self.old self.new }
        ensures there { OnOk result (self.new ≡ standing self.old to.event to.turns) }
    {
        self.timeline.go_to(self.alloc, to)?;
        Ok(())
    }

    // Returns why a step back from right behind what comes next stops, and where it does.
    #[tactic(auto, using(crate::proofs::Moved::moved_not, crate::proofs::Backwards::stands_not))]
    fn stepped_back(&mut self, behind: Position) -> Result<Stop, PlayFault>
        requires event { behind.event ≤ length self.old.timeline.deeds }
        requires turns { behind.turns ≤ turns_at self.old.timeline.deeds behind.event }
        requires last { IsLast self.old.timeline.deeds self.old.timeline.event self.old.timeline.turns behind.event behind.turns }
        ensures stands { ChangesPositionAlone self.old self.new }
        ensures moved { IsMoved self.old.timeline self.new.timeline }
        ensures same { ChangesTimelineAlone self.old self.new }
        ensures back { IfOk result (λ stop. IsStepBack (standing self.old behind.event behind.turns) self.new stop) }
    {
        if let Some(watch) = self.watch_here() {
            self.stand_at(behind)?;
            return Ok(Stop::Watched(watch));
        }
        if self.breaks_here() {
            return Ok(Stop::Break);
        }
        Ok(Stop::Stepped)
    }

    /// Goes back to the last breakpoint before the position, or to right behind the last access to what is watched. Meanwhile the reader is
    /// asked whether a stop is wished. Refused where memory ran out, and then it stands at a position before that.
    #[tactic(auto, using(crate::proofs::Backwards::stands_not, crate::proofs::Backwards::stands_then, crate::proofs::Backwards::stands_moved, crate::proofs::Backwards::stands_same, crate::proofs::Backwards::run_start, crate::proofs::Backwards::run_more, crate::proofs::Backwards::run_stop))]
    pub fn run_back<R: Wish>(&mut self, reader: &mut R) -> Result<Stop, PlayFault>
        ensures stands { ChangesPositionAlone self.old self.new }
        ensures moved { IsMoved self.old.timeline self.new.timeline }
        ensures same { ChangesTimelineAlone self.old self.new }
        ensures back { IfOk result (λ stop. IsRunBack self.old self.new stop) }
        ensures unread { ReadsNothing R.remaining reader.old reader.new }
    {
        'parts: for _ in 0..MOST_PIECES {
            match self.part_back(reader)? {
                Some(stop) => return Ok(stop),
                None => {}
            }
        }
        Ok(Stop::Paused)
    }

    /// Goes back to the last stop as `run_back` does, but no further than it takes to know that nothing stops from an event on: then it
    /// tells no stop. Where neither a breakpoint nor a watchpoint is set it stays. Refused where memory ran out, and then it stands at a
    /// position before that.
    #[tactic(auto, using(crate::proofs::Backwards::stands_not, crate::proofs::Backwards::stands_then, crate::proofs::Backwards::run_start, crate::proofs::Backwards::run_stop, crate::proofs::Looking::looked_none))]
    pub fn look_back<R: Wish>(
        &mut self,
        event: usize,
        reader: &mut R,
    ) -> Result<Option<Stop>, PlayFault>
        ensures stands { ChangesPositionAlone self.old self.new }
        ensures back { IfOk result (λ stop. IsLookedBack event self.old self.new stop) }
        ensures unread { ReadsNothing R.remaining reader.old reader.new }
    {
        'parts: for _ in 0..MOST_PIECES {
            let Some(before) = self.last_from(event) else {
                return Ok(None);
            };
            match self.part_behind(before, event, reader)? {
                Some(stop) => return Ok(Some(stop)),
                None => {}
            }
        }
        Ok(Some(Stop::Paused))
    }

    // Goes back to a position that is kept, or to the last stop behind that, if there is one.
    #[tactic(auto, using(crate::proofs::Backwards::stands_then, crate::proofs::Backwards::back_begin))]
    fn part_back<R: Wish>(&mut self, reader: &mut R) -> Result<Option<Stop>, PlayFault>
        ensures stands { ChangesPositionAlone self.old self.new }
        ensures back { IfOk result (λ stop. IsPartBack self.old self.new stop) }
        ensures unread { ReadsNothing R.remaining reader.old reader.new }
    {
        match self.last_watched() {
            Some(before) => self.part_behind(before, 0, reader),
            None => {
                self.stand_first()?;
                Ok(Some(Stop::Begin))
            }
        }
    }

    // Goes back as `part_back` does, where what came last to the process came in this event or behind it: it goes no further back than to
    // before that.
    #[tactic(auto, using(crate::proofs::Backwards::stands_then, crate::proofs::Backwards::back_quiet, crate::proofs::Backwards::back_breaks, crate::proofs::Backwards::back_meets, crate::proofs::Backwards::back_paused, crate::proofs::Backwards::again_at))]
    fn part_behind<R: Wish>(
        &mut self,
        before: Position,
        event: usize,
        reader: &mut R,
    ) -> Result<Option<Stop>, PlayFault>
        requires last { IsLast self.old.timeline.deeds before.event before.turns self.old.timeline.event self.old.timeline.turns }
        requires event { event ≤ before.event }
        ensures stands { ChangesPositionAlone self.old self.new }
        ensures back { IfOk result (λ stop. IsPartBack self.old self.new stop) }
        ensures unread { ReadsNothing R.remaining reader.old reader.new }
    {
        let end = self.timeline.position();
        self.stand_kept(before, event)?;
        let begin = self.timeline.position();
        match self.last_stop(end, reader)? {
            Part::Quiet => {
                self.stand_at(begin)?;
                Ok(None)
            }
            Part::Breaks(at) => {
                self.stand_at(at)?;
                Ok(Some(Stop::Break))
            }
            Part::Meets(at, watch) => {
                self.stand_at(at)?;
                Ok(Some(Stop::Watched(watch)))
            }
            Part::Paused => {
                self.stand_at(end)?;
                Ok(Some(Stop::Paused))
            }
        }
    }

    // Goes back to before the first event.
    fn stand_first(&mut self) -> Result<(), PlayFault>
        ensures stands { ChangesPositionAlone self.old self.new }
        ensures there { OnOk result (self.new ≡ standing self.old 0 0) }
    {
        self.timeline.rewind(self.alloc)?;
        Ok(())
    }

    // Goes back to the last position that is kept and not behind another one, or to before an event where that is later.
    #[tactic(auto, using(crate::proofs::Backwards::stands_then, crate::proofs::Looking::event_from))]
    fn stand_kept(&mut self, to: Position, event: usize) -> Result<(), PlayFault>
        requires played { to.event ≤ length self.old.timeline.deeds }
        requires event { event ≤ to.event }
        ensures stands { ChangesPositionAlone self.old self.new }
        ensures order { OnOk result (IsFrom self.new.timeline.event self.new.timeline.turns to.event to.turns) }
    {
        self.timeline.go_to_kept(self.alloc, to)?;
        if self.timeline.position().event < event {
            self.stand_at(Position { event, turns: 0 })?;
        }
        Ok(())
    }

    // Returns whether anything may stop the process: a breakpoint or a watchpoint is set.
    fn has_stops(&self) -> bool
        ensures { result ≡ has_stops self.now }
    {
        self.breaks.len() > 0 || self.watches.len() > 0
    }

    // Returns the position before what came last to the process, where anything may have stopped it before here.
    #[tactic(auto, using(crate::proofs::Backwards::still_quiet, crate::proofs::Looking::none_quiet))]
    fn last_watched(&self) -> Option<Position>
        ensures { MatchOption result (IsQuiet self.now.breaks self.now.watches self.now.timeline 0 0 self.now.timeline.event self.now.timeline.turns)
            (λ at. IsLast self.now.timeline.deeds at.event at.turns self.now.timeline.event self.now.timeline.turns) }
    {
        if !self.has_stops() {
            return None;
        }
        self.last()
    }

    // Returns the position of `last_watched`, where that came in this event or behind it.
    #[tactic(auto, using(crate::proofs::Looking::last_quiet, crate::proofs::Looking::quiet_from))]
    fn last_from(&self, event: usize) -> Option<Position>
        ensures { MatchOption result (IsQuiet self.now.breaks self.now.watches self.now.timeline event 0 self.now.timeline.event self.now.timeline.turns)
            (λ at. IsLast self.now.timeline.deeds at.event at.turns self.now.timeline.event self.now.timeline.turns × (event ≤ at.event)) }
    {
        match self.last_watched() {
            Some(before) if before.event >= event => Some(before),
            _ => None,
        }
    }

    // Returns what stops between here and another position, which was played.
    #[tactic(auto, using(crate::proofs::Backwards::stands_not, crate::proofs::Backwards::stands_then, crate::proofs::Backwards::part_start, crate::proofs::Backwards::part_end, crate::proofs::Backwards::inside_standing))]
    fn last_stop<R: Wish>(&mut self, end: Position, reader: &mut R) -> Result<Part, PlayFault>
        requires event { end.event ≤ length self.old.timeline.deeds }
        requires turns { end.turns ≤ turns_at self.old.timeline.deeds end.event }
        ensures stands { ChangesPositionAlone self.old self.new }
        ensures part { IfOk result (λ part. IsPart self.old end.event end.turns end.event end.turns part) }
        ensures unread { ReadsNothing R.remaining reader.old reader.new }
    {
        let mut last = Part::Quiet;
        'pieces: for pieces in 0..MOST_PIECES {
            if !is_before(self.timeline.position(), end) {
                return Ok(last);
            }
            if is_paused(pieces, reader) {
                return Ok(Part::Paused);
            }
            last = self.back_over(last)?;
        }
        Ok(Part::Paused)
    }

    // Makes what comes next, and tells where one stops who comes back over it, or else what was known before.
    #[tactic(auto, using(crate::proofs::Backwards::over_on, crate::proofs::Backwards::over_breaks, crate::proofs::Backwards::over_meets, crate::proofs::Backwards::breaks_stop, crate::proofs::Backwards::none_stop))]
    fn back_over(&mut self, last: Part) -> Result<Part, PlayFault>
        requires played { self.old.timeline.event < length self.old.timeline.deeds }
        ensures stands { ChangesPositionAlone self.old self.new }
        ensures over { IfOk result (λ part. IsOver self.old self.new last part) }
    {
        let at = self.timeline.position();
        let watch = self.watch_here();
        let breaks = self.breaks_here();
        self.step_over()?;
        match watch {
            Some(watch) => {
                let behind = self.timeline.position();
                return Ok(Part::Meets(behind, watch));
            }
            None => {}
        }
        if breaks {
            return Ok(Part::Breaks(at));
        }
        Ok(last)
    }

    // Makes one instruction, or what else comes next.
    fn step_over(&mut self) -> Result<(), PlayFault>
        requires played { self.old.timeline.event < length self.old.timeline.deeds }
        ensures stands { ChangesPositionAlone self.old self.new }
        ensures behind { OnOk result (IsBehind self.old.timeline.deeds self.old.timeline.event self.old.timeline.turns self.new.timeline.event self.new.timeline.turns) }
    {
        if self.turns_left() > 1 {
            self.timeline.step_one();
        } else {
            self.timeline.pass(self.alloc)?;
        }
        Ok(())
    }

    /// Goes to before an event, or to the end where the record has no such event. Refused where memory ran out, or the record is not
    /// played on: then it stands at a position before that.
    pub fn go_to_event(&mut self, event: usize) -> Result<(), PlayFault>
        ensures moved { IsMoved self.old.timeline self.new.timeline }
        ensures same { ChangesTimelineAlone self.old self.new }
        ensures there { OnOk result (IsAtEvent event self.new.timeline) }
    {
        'pieces: for _ in 0..MOST_PIECES {
            if self.go_nearer(event)? {
                return Ok(());
            }
        }
        // No record has so many events.
        Err(PlayFault::TooLong)
    }

    // Goes to before an event, or plays one event more, and tells whether it stands there or at the end.
    fn go_nearer(&mut self, event: usize) -> Result<bool, PlayFault>
        ensures moved { IsMoved self.old.timeline self.new.timeline }
        ensures same { ChangesTimelineAlone self.old self.new }
        ensures there { IfOk result (λ there. there ≡ true → IsAtEvent event self.new.timeline) }
    {
        let to = Position { event, turns: 0 };
        if self.timeline.go_to(self.alloc, to)? {
            return Ok(true);
        }
        // So many were played.
        let last = Position {
            event: self.timeline.deeds().len(),
            turns: 0,
        };
        self.timeline.go_to(self.alloc, last)?;
        Ok(self.timeline.look(self.alloc)? == Peek::End)
    }

    // Returns the position before what came last to the process.
    fn last(&self) -> Option<Position>
        ensures { MatchOption result (IsStillBefore self.now.timeline.deeds self.now.timeline.event self.now.timeline.turns)
            (λ at. IsLast self.now.timeline.deeds at.event at.turns self.now.timeline.event self.now.timeline.turns) }
    {
        last_before(self.timeline.deeds(), self.timeline.position())
    }
}

// What stops one who comes back over a part of a record: the last that does.
#[derive(Clone, Copy)]
enum Part {
    // Nothing does.
    Quiet,
    // At this position a breakpoint.
    Breaks(Position),
    // Right before this position an access to what is watched.
    Meets(Position, Watch),
    // It is not known, since a stop was wished.
    Paused,
}

// Returns the position before what came last to the process before another position.
#[tactic(auto, using(crate::proofs::Stepping::last_turn, crate::proofs::Stepping::last_back, crate::proofs::Stepping::still_none, crate::proofs::Stepping::still_back, crate::proofs::Stepping::still_all))]
fn last_before(deeds: &[Deed], at: Position) -> Option<Position>
    requires { at.turns ≤ turns_at deeds.now at.event }
    ensures { MatchOption result (IsStillBefore deeds.now at.event at.turns) (λ last. IsLast deeds.now last.event last.turns at.event at.turns) }
{
    if at.turns > 0 {
        return Some(Position {
            event: at.event,
            turns: at.turns - 1,
        });
    }
    let mut event = at.event;
    'events: while event > 0 {
        event -= 1;
        match before_last(deeds, event) {
            Some(turns) => return Some(Position { event, turns }),
            None => {}
        }
    }
    None
}

// Returns how many instructions of an event stand before the last thing that it did to the process, if it did any.
#[tactic(auto, using(crate::proofs::Stepping::last_read, crate::proofs::Stepping::last_past))]
fn before_last(deeds: &[Deed], event: usize) -> Option<u64>
    ensures { result ≡ before_last deeds.now event }
{
    if event >= deeds.len() {
        return None;
    }
    match &deeds[event] {
        Deed::Nothing => None,
        Deed::Ran(turns) => { if *turns > 0 { Some(*turns - 1) } else { None } }
        Deed::Took(..) => Some(0),
        Deed::Fell => { if is_down(deeds, event) { None } else { Some(0) } }
        Deed::Back(_) => Some(0),
    }
}
