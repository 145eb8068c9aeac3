//! All processes forward to a stop, and back to one.

ghost use Rattle.std.specs.Prelude.{◌≡◌, ◌≢◌, ◌⊎◌, ◌<◌, List, IfOk, IfSome, OnOk, false, length, slice_get, true};
ghost use Rattle.om_timeline.specs.Timeline.{IsUpTo};
ghost use Rattle.om_inferiors.specs.declared.inferior.Inferior.{Inferior};
ghost use Rattle.om_inferiors.specs.Moving.{AreBack, AreOn, IsLastOf, IsNoStepBack, IsRunBackAt, IsStepBackAt, StandsAt};
ghost use Rattle.om_inferiors.specs.steps.Lasting.{OthersStay, IsBehindAt, IsLastUpTo, IsLaterOf, IsLookedBackAt};
ghost use Rattle.om_debug.specs.Told.{ReadsNothing};

use crate::inferior::Inferior;
use om_debug::{Stop, Wish};
use om_requests::Resume;
use om_timeline::{Peek, PlayFault, Position};

// How many pieces of a way are gone at most without a stop.
const MOST_PIECES: u64 = u64::MAX;

// How many pieces of an event are gone until one who may wish a stop is asked again.
const PIECES_UNASKED: u64 = 64;

// Which process stopped, and why.
#[derive(Clone, Copy)]
pub(crate) struct Stopped {
    pub(crate) place: usize,
    pub(crate) stop: Stop,
}

// Returns the event before which the process stands that is furthest back.
fn first_event(all: &[Inferior]) -> usize {
    let mut first = usize::MAX;
    for inferior in all {
        first = first.min(inferior.debugger.position().event);
    }
    first
}

// Returns who is at an event that does something to it.
fn mover(all: &[Inferior], event: usize) -> Option<usize>
    ensures { IfSome result (λ place. place < length all.now) }
{
    for (place, inferior) in all.iter().enumerate() {
        if inferior.debugger.position().event == event && !inferior.debugger.is_still() {
            return Some(place);
        }
    }
    None
}

fn go_on_at(all: &mut [Inferior], place: usize, how: Resume) -> Result<Option<Stop>, PlayFault>
    requires { place < length all.old }
    ensures on { OnOk result (AreOn all.old all.new) }
    ensures stands { IfOk result (λ stop. IfSome stop (StandsAt all.new place)) }
    ensures others { OthersStay place all.old all.new }
{
    let inferior = &mut all[place];
    inferior.debugger.go_on(how)
}

fn look_at(all: &mut [Inferior], place: usize) -> Result<Peek, PlayFault>
    requires { place < length all.old }
    ensures on { OnOk result (AreOn all.old all.new) }
    ensures end { IfOk result (λ look. look ≡ Peek.End → StandsAt all.new place Stop.End) }
{
    let inferior = &mut all[place];
    inferior.debugger.look()
}

// Plays up to an event and over it for all that stand before it.
#[tactic(auto, using(crate::proofs::Each::are_on_same, crate::proofs::Each::are_on_then, crate::proofs::Each::length_on))]
fn look_all(all: &mut [Inferior], event: usize) -> Result<Peek, PlayFault>
    ensures { OnOk result (AreOn all.old all.new) }
{
    for place in 0..all.len() {
        if all[place].debugger.position().event == event {
            match look_at(all, place)? {
                Peek::Next => {}
                Peek::NotYet => return Ok(Peek::NotYet),
                Peek::End => return Ok(Peek::End),
            }
        }
    }
    Ok(Peek::Next)
}

// Goes on with one until it stops or the event is over, or for some pieces.
#[tactic(auto, using(crate::proofs::Each::are_on_same, crate::proofs::Each::are_on_then, crate::proofs::Each::length_on))]
fn run_at(
    all: &mut [Inferior],
    place: usize,
    event: usize,
    how: Resume,
) -> Result<Option<Stop>, PlayFault>
    requires { place < length all.old }
    ensures on { OnOk result (AreOn all.old all.new) }
    ensures stands { IfOk result (λ stop. IfSome stop (StandsAt all.new place)) }
{
    for _ in 0..PIECES_UNASKED {
        if let Some(stop) = go_on_at(all, place, how)? {
            return Ok(Some(stop));
        }
        if all[place].debugger.position().event != event {
            return Ok(None);
        }
    }
    Ok(None)
}

// Takes all but one over an event to whom nothing comes in it, or, where the one fails in it, who fail too.
#[tactic(auto, using(crate::proofs::Each::are_on_same, crate::proofs::Each::are_on_then, crate::proofs::Each::length_on))]
fn follow(all: &mut [Inferior], event: usize, first: usize, fails: bool) -> Result<(), PlayFault>
    ensures on { OnOk result (AreOn all.old all.new) }
    ensures first { slice_get all.new first ≡ slice_get all.old first }
{
    for place in 0..all.len() {
        if place != first && is_passing(&all[place], event, fails) {
            go_on_at(all, place, Resume::Continue)?;
        }
    }
    Ok(())
}

// Returns whether a process stands at an event in which nothing comes to it, or, where another one fails in it, its failure: one event
// may take down all, and then nothing else comes in it to anyone.
fn is_passing(inferior: &Inferior, event: usize, fails: bool) -> bool {
    inferior.debugger.position().event == event && (fails || inferior.debugger.is_still())
}

// Takes what comes next to anyone, or a part of it, and tells what stops there. The one at a place goes on as is wished, and all others
// until something stops them.
#[tactic(auto, using(crate::proofs::Each::are_on_same, crate::proofs::Each::are_on_then, crate::proofs::Each::length_on))]
fn piece(all: &mut [Inferior], who: usize, how: Resume) -> Result<Option<Stopped>, PlayFault>
    requires { who < length all.old }
    ensures on { OnOk result (AreOn all.old all.new) }
    ensures stands { IfOk result (λ stopped. IfSome stopped (λ s. StandsAt all.new s.place s.stop)) }
{
    let event = first_event(all);
    if all[who].debugger.position().event == event {
        match look_at(all, who)? {
            Peek::Next => {}
            Peek::NotYet => return Ok(None),
            Peek::End => {
                return Ok(Some(Stopped {
                    place: who,
                    stop: Stop::End,
                }));
            }
        }
    }
    if look_all(all, event)? != Peek::Next {
        return Ok(None);
    }
    step_event(all, event, who, how)
}

#[tactic(auto, using(crate::proofs::Each::are_on_same, crate::proofs::Each::are_on_then, crate::proofs::Each::length_on, crate::proofs::Each::stands_kept))]
fn step_event(
    all: &mut [Inferior],
    event: usize,
    who: usize,
    how: Resume,
) -> Result<Option<Stopped>, PlayFault>
    ensures on { OnOk result (AreOn all.old all.new) }
    ensures stands { IfOk result (λ stopped. IfSome stopped (λ s. StandsAt all.new s.place s.stop)) }
{
    let Some(place) = mover(all, event) else {
        follow(all, event, all.len(), false)?;
        return Ok(None);
    };
    let how = if place == who { how } else { Resume::Continue };
    match run_at(all, place, event, how)? {
        Some(stop) => {
            follow_moved(all, event, place, stop == Stop::Failed)?;
            Ok(Some(Stopped { place, stop }))
        }
        None => {
            follow_moved(all, event, place, false)?;
            Ok(None)
        }
    }
}

// Takes all over an event, where one has gone over it, or failed in it.
#[tactic(auto, using(crate::proofs::Each::are_on_same, crate::proofs::Each::are_on_then, crate::proofs::Each::length_on))]
fn follow_moved(
    all: &mut [Inferior],
    event: usize,
    first: usize,
    fails: bool,
) -> Result<(), PlayFault>
    requires { first < length all.old }
    ensures on { OnOk result (AreOn all.old all.new) }
    ensures first { slice_get all.new first ≡ slice_get all.old first }
{
    if all[first].debugger.position().event != event {
        follow(all, event, first, fails)?;
    }
    Ok(())
}

// Goes on to the first stop at or behind the moment, or to where a stop is wished.
#[tactic(auto, using(crate::proofs::Each::are_on_same, crate::proofs::Each::are_on_then, crate::proofs::Each::length_on))]
pub(crate) fn forward<R: Wish>(
    all: &mut [Inferior],
    who: usize,
    how: Resume,
    reader: &mut R,
) -> Result<Stopped, PlayFault>
    requires { who < length all.old }
    ensures on { OnOk result (AreOn all.old all.new) }
    ensures stands { IfOk result (λ s. StandsAt all.new s.place s.stop) }
    ensures unread { ReadsNothing R.remaining reader.old reader.new }
{
    let paused = Stopped {
        place: who,
        stop: Stop::Paused,
    };
    'pieces: for _ in 0..MOST_PIECES {
        if let Some(stopped) = piece(all, who, how)? {
            return Ok(stopped);
        }
        if reader.is_there() {
            return Ok(paused);
        }
    }
    Ok(paused)
}

fn run_back_at<R: Wish>(
    all: &mut [Inferior],
    place: usize,
    reader: &mut R,
) -> Result<Stop, PlayFault>
    requires { place < length all.old }
    ensures back { AreBack all.old all.new }
    ensures told { IfOk result (IsRunBackAt all.old all.new place) }
    ensures others { OthersStay place all.old all.new }
    ensures unread { ReadsNothing R.remaining reader.old reader.new }
{
    let inferior = &mut all[place];
    inferior.debugger.run_back(reader)
}

fn step_back_at(all: &mut [Inferior], place: usize) -> Result<Stop, PlayFault>
    requires { place < length all.old }
    ensures back { AreBack all.old all.new }
    ensures told { IfOk result (IsStepBackAt all.old all.new place) }
    ensures others { OthersStay place all.old all.new }
{
    let inferior = &mut all[place];
    inferior.debugger.step_back()
}

fn look_back_at<R: Wish>(
    all: &mut [Inferior],
    place: usize,
    event: usize,
    reader: &mut R,
) -> Result<Option<Stop>, PlayFault>
    requires { place < length all.old }
    ensures back { AreBack all.old all.new }
    ensures told { IfOk result (IsLookedBackAt all.old all.new place event) }
    ensures others { OthersStay place all.old all.new }
    ensures unread { ReadsNothing R.remaining reader.old reader.new }
{
    let inferior = &mut all[place];
    inferior.debugger.look_back(event, reader)
}

fn go_to_at(all: &mut [Inferior], place: usize, to: Position) -> Result<bool, PlayFault>
    requires { place < length all.old }
    ensures back { AreBack all.old all.new }
    ensures others { OthersStay place all.old all.new }
{
    let inferior = &mut all[place];
    inferior.debugger.go_to(to)
}

// Returns whether the one stop is behind the other in time: of two at one position a breakpoint is.
fn is_later(all: &[Inferior], one: Stopped, other: Stopped) -> bool
    requires one { one.place < length all.now }
    requires other { other.place < length all.now }
    ensures later { result ≡ true → IsBehindAt all.now other.place one.place }
    ensures earlier { result ≡ false → IsBehindAt all.now one.place other.place }
{
    let (here, there) = (
        all[one.place].debugger.position(),
        all[other.place].debugger.position(),
    );
    if here == there {
        return one.stop == Stop::Break;
    }
    is_up_to(there, here)
}

// Returns whether the one position is the other, or before it.
fn is_up_to(one: Position, other: Position) -> bool
    ensures yes { result ≡ true → IsUpTo one.event one.turns other.event other.turns }
    ensures no { result ≡ false → IsUpTo other.event other.turns one.event one.turns }
{
    one.event < other.event || one.event == other.event && one.turns <= other.turns
}

// Goes back to the last stop before the moment: with a step the one at a place goes back by what came last to it.
#[tactic(auto, using(crate::proofs::Each::are_back_same, crate::proofs::Each::are_back_then, crate::proofs::Each::length_back))]
pub(crate) fn backward<R: Wish>(
    all: &mut [Inferior],
    who: usize,
    steps: bool,
    reader: &mut R,
) -> Result<Stopped, PlayFault>
    requires { who < length all.old }
    ensures back { AreBack all.old all.new }
    ensures last { IfOk result (λ s. IsLastOf all.old all.new s.place s.stop ⊎ IsNoStepBack all.old all.new s.place s.stop) }
    ensures within { IfOk result (λ s. s.place < length all.new) }
    ensures unread { ReadsNothing R.remaining reader.old reader.new }
{
    if steps {
        match step_back_at(all, who)? {
            // It stays behind what it accessed: something may have stopped another one later.
            Stop::Watched(_) => {}
            // Nothing came to it: nobody moves.
            Stop::Begin => {
                return Ok(Stopped {
                    place: who,
                    stop: Stop::Begin,
                });
            }
            stop => return last_with(all, Stopped { place: who, stop }, reader),
        }
    }
    let stop = run_back_at(all, who, reader)?;
    last_with(all, Stopped { place: who, stop }, reader)
}

// Looks at all others for a later stop, and then takes all to the latest of all, which is told.
#[tactic(auto, using(crate::proofs::Each::are_back_same, crate::proofs::Each::are_back_then, crate::proofs::Each::length_back))]
fn last_with<R: Wish>(
    all: &mut [Inferior],
    first: Stopped,
    reader: &mut R,
) -> Result<Stopped, PlayFault>
    requires { first.place < length all.old }
    ensures back { AreBack all.old all.new }
    ensures last { IfOk result (λ s. (mids : List Inferior) × IsLastUpTo all.old mids first.place first.stop (length all.old) s.place s.stop
        × (slice_get all.new s.place ≡ slice_get mids s.place)) }
    ensures within { IfOk result (λ s. s.place < length all.new) }
    ensures unread { ReadsNothing R.remaining reader.old reader.new }
{
    let last = last_of(all, first, reader)?;
    stand_with(all, last.place)?;
    Ok(last)
}

// Looks at all others for a later stop, and tells the latest of all.
#[tactic(auto, using(crate::proofs::Each::are_back_same, crate::proofs::Each::are_back_then, crate::proofs::Each::length_back, crate::proofs::Lasting::last_first, crate::proofs::Lasting::untouched_first))]
fn last_of<R: Wish>(
    all: &mut [Inferior],
    first: Stopped,
    reader: &mut R,
) -> Result<Stopped, PlayFault>
    requires { first.place < length all.old }
    ensures back { AreBack all.old all.new }
    ensures last { IfOk result (λ s. IsLastUpTo all.old all.new first.place first.stop (length all.old) s.place s.stop) }
    ensures within { IfOk result (λ s. s.place < length all.new) }
    ensures unread { ReadsNothing R.remaining reader.old reader.new }
{
    let mut last = first;
    for place in 0..all.len() {
        if place != first.place {
            last = later_of(all, last, place, reader)?;
        }
    }
    Ok(last)
}

// Returns the event before which the one at a place stands, or in which it does.
fn event_at(all: &[Inferior], place: usize) -> usize
    requires { place < length all.now }
    ensures { (there : Inferior) → slice_get all.now place ≡ Some there → result ≡ there.debugger.timeline.event }
{
    all[place].debugger.position().event
}

// Looks for a stop of the one at a place that is later than another one, and tells the later of both.
#[tactic(auto, using(crate::proofs::Each::length_back))]
fn later_of<R: Wish>(
    all: &mut [Inferior],
    last: Stopped,
    place: usize,
    reader: &mut R,
) -> Result<Stopped, PlayFault>
    requires place { place < length all.old }
    requires last { last.place < length all.old }
    requires apart { last.place ≢ place }
    ensures back { AreBack all.old all.new }
    ensures later { IfOk result (λ s. IsLaterOf all.old all.new last.place last.stop place s.place s.stop) }
    ensures others { OthersStay place all.old all.new }
    ensures unread { ReadsNothing R.remaining reader.old reader.new }
{
    let event = event_at(all, last.place);
    let Some(stop) = look_back_at(all, place, event, reader)? else {
        return Ok(last);
    };
    let here = Stopped { place, stop };
    if is_later(all, here, last) {
        Ok(here)
    } else {
        Ok(last)
    }
}

// Takes all others to before the event at which one stands, or in which it does.
#[tactic(auto, using(crate::proofs::Each::are_back_same, crate::proofs::Each::are_back_then, crate::proofs::Each::length_back))]
fn stand_with(all: &mut [Inferior], place: usize) -> Result<(), PlayFault>
    requires { place < length all.old }
    ensures back { AreBack all.old all.new }
    ensures stays { slice_get all.new place ≡ slice_get all.old place }
{
    let event = all[place].debugger.position().event;
    for other in 0..all.len() {
        if other != place {
            go_to_at(all, other, Position { event, turns: 0 })?;
        }
    }
    Ok(())
}
