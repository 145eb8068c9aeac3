//! What each event of a record did to one process. The record is played only as far as was asked.

ghost use Rattle.std.specs.Prelude.{◌≡◌, ◌∷◌, ◌++◌, ◌≤◌, List, [], IfOk, IfSome, MatchOption, None, OnErr, Some, false, length, true};
ghost use Rattle.om_world.specs.Holds.{Holds};
ghost use Rattle.om_world.specs.World.{IsKnown, WorldState};
ghost use Rattle.om_timeline.specs.declared.deed.Deed.{Deed};
ghost use Rattle.om_timeline.specs.declared.tape.Peek.{Peek};
ghost use Rattle.om_timeline.specs.Timeline.{CanBegin, StaysUnknown};
ghost use Rattle.om_timeline.specs.steps.Filmed.{HasSeat, IsDeed, IsFilmed, IsMachineAt, IsPlayedDeed, IsRead};

use crate::alone::copy_of;
use crate::deed::Deed;
use crate::fault::PlayFault;
use crate::kind::{Kind, kind_of};
use crate::player::Player;
use om_interval::Pid;
use om_machine::Machine;
use om_process::LAST_NUMBER;
use om_stable::MemStable;
use om_world::{Answer, Event, World};
use std::alloc::{AllocError, Global};
use std::marker::Model;
use std::snapshot::Snapshot;

// Returns whether the process is one of so many, and has finished no more instructions than are played.
pub(crate) fn is_seated(world: &World<MemStable>, process: Pid, n: u32) -> bool
    ensures seated { result ≡ true → HasSeat process n world.now }
    ensures unseated { result ≡ false → HasSeat process n world.now → ⊥ }
{
    match world.core(process) {
        Some(core) => {
            core.vec().n() as u32 == n && core.machine().count() <= u64::from(LAST_NUMBER)
        }
        None => true,
    }
}

// Returns the receipt of the frame of a number.
#[tactic(auto, using(crate::proofs::Reading::is_received))]
fn received(
    alloc: Global,
    world: &World<MemStable>,
    process: Pid,
    frame: usize,
) -> Result<Deed, AllocError>
    ensures { IfOk result (λ deed. IsDeed deed process world.now (Kind.Took frame)) }
{
    match world.frames().get(frame) {
        Some(message) => Ok(Deed::Took(message.from.index() as u32, message.body.copy(alloc)?)),
        None => Err(AllocError),
    }
}

// Copies the machine that the process has.
#[tactic(auto, using(crate::proofs::Reading::is_machine))]
fn machine_now(alloc: Global, world: &World<MemStable>, process: Pid) -> Result<Deed, AllocError>
    ensures { IfOk result (λ deed. IsDeed deed process world.now Kind.Back) }
{
    match world.core(process) {
        Some(core) => Ok(Deed::Back(copy_of(alloc, core.machine())?)),
        None => Ok(Deed::Fell),
    }
}

// Returns what an event of a kind did to the process, which the world behind it shows.
pub(crate) fn deed_of(
    alloc: Global,
    world: &World<MemStable>,
    process: Pid,
    kind: Kind,
) -> Result<Deed, AllocError>
    ensures { IfOk result (λ deed. IsDeed deed process world.now kind) }
{
    if world.core(process).is_none() {
        return Ok(Deed::Fell);
    }
    match kind {
        Kind::Nothing => Ok(Deed::Nothing),
        Kind::Ran(turns) => Ok(Deed::Ran(turns)),
        Kind::Took(frame) => received(alloc, world, process, frame),
        Kind::Back => machine_now(alloc, world, process),
        Kind::NoMemory => Err(AllocError),
    }
}

/// What comes of a look at the next event.
#[derive(Clone, Copy, Debug, PartialEq, Eq)]
pub enum Peek {
    /// It was played.
    Next,
    /// A part of it was played, and it is to be looked at again.
    NotYet,
    /// There is none.
    End,
}

// What the events of a record did to one process, as far as the record was played.
#[derive(Drop)]
pub(crate) struct Tape {
    process: Pid,
    n: u32,
    // Its machine at the start.
    first: Machine,
    begun: Snapshot<World<MemStable>>,
    events: Vec<Event>,
    deeds: Vec<Deed>,
    // The world behind the events that were played.
    player: Player,
    // Why the record is not played on.
    fault: Option<PlayFault>,
}

impl Model for Tape {
    ghost use Rattle.std.specs.Prelude.{length};
    ghost use Rattle.om_timeline.specs.steps.Filmed.{IsTape, TapeState};
    ghost use Rattle.om_world.specs.steps.Codes.{coded_health};
    ghost use Rattle.om_stable.specs.steps.Codes.{content_code};
    ghost use Rattle.om_manager.specs.steps.Codes.{coded_manager};
    ghost use Rattle.std.specs.Coded.{codes};

    ghost Value = { TapeState };

    ghost coded = { Prim.hlevel (codes, coded_health, content_code, coded_manager) };

    ghost view = { λ t. record {
      own = t.process;
      n = t.n;
      first = t.first;
      begun = t.begun.value;
      events = t.events.items;
      deeds = t.deeds.items;
    } };

    ghost invariant = { λ t. IsTape (record {
      own = t.process;
      n = t.n;
      first = t.first;
      begun = t.begun.value;
      events = t.events.items;
      deeds = t.deeds.items;
    }) t.fault t.player };
}

impl Tape {
    // Makes the tape of no event yet. None, where the world has no such process, or it has finished too many
    // instructions.
    #[tactic(auto, using(crate::proofs::Taping::none_there, crate::proofs::Taping::none_seated, crate::proofs::Taping::can_begin))]
    pub(crate) fn new(
        alloc: Global,
        world: World<MemStable>,
        events: Vec<Event>,
        process: Pid,
    ) -> Result<Option<Tape>, AllocError>
        requires known { IsKnown world }
        requires holds { Holds world }
        ensures own { IfOk result (λ made. IfSome made (λ tape. tape.own ≡ process)) }
        ensures begun { IfOk result (λ made. IfSome made (λ tape. tape.begun ≡ world)) }
        ensures events { IfOk result (λ made. IfSome made (λ tape. tape.events ≡ events.items)) }
        ensures deeds { IfOk result (λ made. IfSome made (λ tape. tape.deeds ≡ [])) }
        ensures first { IfOk result (λ made. IfSome made (λ tape. IsMachineAt process world tape.first)) }
        ensures can { IfOk result (λ made. MatchOption made (CanBegin world process → ⊥) (λ tape. CanBegin world process)) }
    {
        let Some(core) = world.core(process) else {
            return Ok(None);
        };
        let n = core.vec().n() as u32;
        if !is_seated(&world, process, n) {
            return Ok(None);
        }
        let first = copy_of(alloc, core.machine())?;
        Ok(Some(Tape {
            process,
            n,
            first,
            begun: Snapshot::of(&world),
            events,
            deeds: Vec::new(alloc),
            player: Player::new(world),
            fault: None,
        }))
    }

    // Returns what the events that were played did.
    pub(crate) fn deeds(&self) -> &[Deed]
        ensures { result.now ≡ self.now.deeds }
    {
        &self.deeds
    }

    // Returns the events of the record.
    pub(crate) fn events(&self) -> &[Event]
        ensures { result.now ≡ self.now.events }
    {
        &self.events
    }

    // Returns how many processes there are.
    pub(crate) fn n(&self) -> u32
        ensures { result ≡ self.now.n }
    {
        self.n
    }

    // Returns the machine of the process at the start.
    pub(crate) fn first(&self) -> &Machine
        ensures { result.now ≡ self.now.first }
    {
        &self.first
    }

    // Tells that the tape is one of a world that was played.
    pub(crate) fn told(&self)
        ensures filmed { (last : WorldState) × IsFilmed self.now last }
        ensures within { length self.now.deeds ≤ length self.now.events }
    {
        // Only a look: it holds of every tape, by its type.
        let _ = &self.deeds;
    }

    // Plays one event more, or a part of it. After a fault the same fault is answered from then on.
    pub(crate) fn film(&mut self, alloc: Global) -> Result<Peek, PlayFault>
        ensures next { IfOk result (λ look. look ≡ Peek.Next
            → (deed : Deed) × (self.new ≡ record self.old { deeds = self.old.deeds ++ deed ∷ [] })) }
        ensures not_yet { IfOk result (λ look. StaysUnknown self.old look self.new) }
        ensures end { IfOk result (λ look. look ≡ Peek.End → self.new ≡ self.old) }
        ensures all { IfOk result (λ look. look ≡ Peek.End → length self.old.deeds ≡ length self.old.events) }
        ensures refused { OnErr result (self.new ≡ self.old) }
    {
        match self.fault {
            Some(fault) => return Err(fault),
            None => {}
        }
        let place = self.deeds.len();
        if place >= self.events.len() {
            return Ok(Peek::End);
        }
        self.deeds.try_reserve(1)?;
        let event = self.events[place];
        match next_deed(alloc, &mut self.player, self.process, self.n, event) {
            Ok(Some(deed)) => {
                self.deeds.push_reserved(deed);
                Ok(Peek::Next)
            }
            Ok(None) => Ok(Peek::NotYet),
            Err(fault) => {
                self.fault = Some(fault);
                Err(fault)
            }
        }
    }
}

// Plays an event, and reads what it did to the process: none, where a part of it was played.
#[tactic(auto, using(crate::proofs::Reading::is_played))]
fn next_deed(
    alloc: Global,
    player: &mut Player,
    process: Pid,
    n: u32,
    event: Event,
) -> Result<Option<Deed>, PlayFault>
    requires { IfSome player.old.begun (λ begun. begun ≡ event) }
    ensures taken { IfOk result (λ deed. IfSome deed (λ deed. IsPlayedDeed process n player.old.before event deed player.new)) }
    ensures part { IfOk result (λ deed. deed ≡ None → player.new ≡ record { before = player.old.before; begun = Some event }) }
{
    let Some(answer) = player.play(alloc, event)? else {
        return Ok(None);
    };
    let deed = read_deed(alloc, player.world(), process, n, event, answer)?;
    Ok(Some(deed))
}

// Returns what an event that was answered so did to the process, which the world behind it shows.
fn read_deed(
    alloc: Global,
    world: &World<MemStable>,
    process: Pid,
    n: u32,
    event: Event,
    answer: Answer,
) -> Result<Deed, PlayFault>
    ensures { IfOk result (λ deed. IsRead process n event answer deed world.now) }
{
    if !is_seated(world, process, n) {
        return Err(PlayFault::TooLong);
    }
    let kind = kind_of(process.index(), answer, event);
    Ok(deed_of(alloc, world, process, kind)?)
}
