//! A world that plays events, a long run in parts.

ghost use Rattle.std.specs.Prelude.{◌≡◌, ◌↔◌, ◌∷◌, ◌≤◌, [], IfOk, IfSome, MatchOption, None, OnErr, Some, length, true};
ghost use Rattle.om_world.specs.declared.event.Event.{Event};
ghost use Rattle.om_world.specs.Played.{Step};
ghost use Rattle.om_world.specs.World.{IsKnown};
ghost use Rattle.om_timeline.specs.steps.Parts.{HasSilent, IsAhead, IsPlayed, IsSilent, UsesUp};

use crate::alone::{Alone, copy_of};
use om_interval::{MAX_PROCESSES, Pid};
use om_stable::MemStable;
use om_world::{Answer, Event, World};
use std::alloc::{AllocError, Global};
use std::marker::Model;
use std::snapshot::Snapshot;

// How many turns of a run are taken at most in one part.
const MOST_AT_ONCE: u64 = 50_000;

// A run of which a part was played, in which the process made nothing.
#[derive(Drop)]
pub(crate) struct Part {
    // The world before the run, which only proofs see.
    before: Snapshot<World<MemStable>>,
    process: usize,
    fuel: u64,
    // How many turns were taken.
    done: u64,
    // The machine of the process behind them.
    ahead: Alone,
}

// A world between events, or in a run that was begun.
#[derive(Drop)]
pub(crate) struct Player {
    world: World<MemStable>,
    part: Option<Part>,
}

impl Model for Player {
    ghost use Rattle.om_timeline.specs.steps.Parts.{IsPlayer, PlayerState, player_of};
    ghost use Rattle.om_world.specs.steps.Codes.{coded_health};
    ghost use Rattle.om_stable.specs.steps.Codes.{content_code};
    ghost use Rattle.om_manager.specs.steps.Codes.{coded_manager};
    ghost use Rattle.std.specs.Coded.{codes};

    ghost Value = { PlayerState };

    ghost coded = { Prim.hlevel (codes, coded_health, content_code, coded_manager) };

    ghost view = { λ s. player_of s.part s.world };

    ghost invariant = { λ s. IsPlayer s.part s.world };
}

// Returns the one answer.
fn only(answers: &[Answer]) -> Answer
    requires { length answers.now ≡ 1 }
    ensures { answers.now ≡ result ∷ [] }
{
    match answers {
        [answer] => *answer,
        _ => unreachable!(),
    }
}

// Plays an event of a world whose stores are clean.
pub(crate) fn play_one(
    alloc: Global,
    world: &mut World<MemStable>,
    event: Event,
) -> Result<Answer, AllocError>
    requires { IsKnown world.old }
    ensures played { IfOk result (λ answer. Step world.old event answer world.new) }
    ensures known { IsKnown world.new }
    ensures refused { OnErr result (world.new ≡ world.old) }
{
    let answers = world.play(alloc, &[event])?;
    Ok(only(&answers))
}

// Returns whether a run of so many turns took them all.
fn uses_up(answer: Answer, turns: u64) -> bool
    ensures { (result ≡ true) ↔ UsesUp turns answer }
{
    match answer {
        Answer::Ran { steps, .. } => turns <= steps,
        _ => false,
    }
}

impl Player {
    // Makes a player that stands between events.
    pub(crate) fn new(world: World<MemStable>) -> Player
        requires { IsKnown world }
        ensures before { result.before ≡ world }
        ensures begun { result.begun ≡ None }
    {
        Player { world, part: None }
    }

    // Returns the world, where no run has begun.
    pub(crate) fn world(&self) -> &World<MemStable>
        ensures { self.now.begun ≡ None → result.now ≡ self.now.before }
    {
        &self.world
    }

    // Plays an event, or a part of a run: then there is no answer yet, and the same event is to be played again.
    pub(crate) fn play(&mut self, alloc: Global, event: Event) -> Result<Option<Answer>, AllocError>
        requires { IfSome self.old.begun (λ begun. begun ≡ event) }
        ensures whole { IfOk result (λ told. IfSome told (λ answer. IsPlayed self.old.before event answer self.new)) }
        ensures part { IfOk result (λ told. told ≡ None → self.new ≡ record { before = self.old.before; begun = Some event }) }
    {
        match self.part.take() {
            Some(part) => self.go_on(alloc, part, MOST_AT_ONCE),
            None => self.begin(alloc, event, MOST_AT_ONCE),
        }
    }

    // Plays an event as `play` does that has not begun: so many turns are a part.
    fn begin(
        &mut self,
        alloc: Global,
        event: Event,
        turns: u64,
    ) -> Result<Option<Answer>, AllocError>
        requires { self.old.begun ≡ None }
        ensures whole { IfOk result (λ told. IfSome told (λ answer. IsPlayed self.old.before event answer self.new)) }
        ensures part { IfOk result (λ told. told ≡ None → self.new ≡ record { before = self.old.before; begun = Some event }) }
    {
        match event {
            Event::Run { process, fuel } if fuel > turns => {
                match self.ahead(alloc, process, turns)? {
                    Some(ahead) => self.first(alloc, process, fuel, turns, ahead),
                    None => self.whole(alloc, event),
                }
            }
            _ => self.whole(alloc, event),
        }
    }

    // Plays an event whole.
    fn whole(&mut self, alloc: Global, event: Event) -> Result<Option<Answer>, AllocError>
        requires { self.old.begun ≡ None }
        ensures whole { IfOk result (λ told. MatchOption told ⊥ (λ answer. IsPlayed self.old.before event answer self.new)) }
    {
        let answer = play_one(alloc, &mut self.world, event)?;
        Ok(Some(answer))
    }

    // Returns the machine of a process so many turns on, if the process makes nothing in them.
    #[tactic(auto, using(crate::proofs::Parting::ahead_of))]
    fn ahead(&self, alloc: Global, process: usize, turns: u64) -> Result<Option<Alone>, AllocError>
        requires { self.now.begun ≡ None }
        ensures { IfOk result (λ ahead. IfSome ahead (IsAhead self.now.before process turns)) }
    {
        if process >= MAX_PROCESSES {
            return Ok(None);
        }
        let Some(core) = self.world.core(Pid::at(process)) else {
            return Ok(None);
        };
        let mut ahead = Alone {
            machine: copy_of(alloc, core.machine())?,
            own: process as u32,
            n: core.vec().n() as u32,
        };
        if !ahead.go_silently(turns) {
            return Ok(None);
        }
        Ok(Some(ahead))
    }

    // Plays the first part of a run.
    #[tactic(auto, using(crate::proofs::Parting::first_part, crate::proofs::Parting::step_short))]
    fn first(
        &mut self,
        alloc: Global,
        process: usize,
        fuel: u64,
        turns: u64,
        ahead: Alone,
    ) -> Result<Option<Answer>, AllocError>
        requires begun { self.old.begun ≡ None }
        requires ahead { IsAhead self.old.before process turns ahead }
        requires within { turns ≤ fuel }
        ensures whole { IfOk result (λ told. IfSome told (λ answer. IsPlayed self.old.before (Event.Run process fuel) answer self.new)) }
        ensures part { IfOk result (λ told. told ≡ None → self.new ≡ record { before = self.old.before; begun = Some (Event.Run process fuel) }) }
    {
        let before = Snapshot::of(&self.world);
        let run = Event::Run {
            process,
            fuel: turns,
        };
        let answer = play_one(alloc, &mut self.world, run)?;
        if !uses_up(answer, turns) {
            return Ok(Some(answer));
        }
        self.part = Some(Part {
            before,
            process,
            fuel,
            done: turns,
            ahead,
        });
        Ok(None)
    }

    // Plays one part more of a run, or its rest.
    #[tactic(auto, using(crate::proofs::Parting::next_part))]
    fn go_on(
        &mut self,
        alloc: Global,
        mut part: Part,
        turns: u64,
    ) -> Result<Option<Answer>, AllocError>
        requires begun { self.old.begun ≡ None }
        requires few { part.done ≤ part.fuel }
        requires silent { IsSilent part.before.value part.process part.done part.ahead.own part.ahead.n part.ahead.machine self.old.before }
        ensures whole { IfOk result (λ told. IfSome told (λ answer. IsPlayed part.before.value (Event.Run part.process part.fuel) answer self.new)) }
        ensures part { IfOk result (λ told. told ≡ None → self.new ≡ record { before = part.before.value; begun = Some (Event.Run part.process part.fuel) }) }
    {
        if part.fuel - part.done <= turns {
            return self.last(alloc, part);
        }
        if !part.ahead.go_silently(turns) {
            return self.last(alloc, part);
        }
        let run = Event::Run {
            process: part.process,
            fuel: turns,
        };
        let answer = play_one(alloc, &mut self.world, run)?;
        if !uses_up(answer, turns) {
            // It is up, and goes on as its machine did.
            return Err(AllocError);
        }
        part.done += turns;
        self.part = Some(part);
        Ok(None)
    }

    // Plays what is left of a run.
    #[tactic(auto, using(crate::proofs::Parting::step_over, crate::proofs::Parting::ran_within))]
    fn last(&mut self, alloc: Global, part: Part) -> Result<Option<Answer>, AllocError>
        requires begun { self.old.begun ≡ None }
        requires few { part.done ≤ part.fuel }
        requires silent { HasSilent part.before.value part.process part.done self.old.before }
        ensures whole { IfOk result (λ told. MatchOption told ⊥ (λ answer. IsPlayed part.before.value (Event.Run part.process part.fuel) answer self.new)) }
    {
        let run = Event::Run {
            process: part.process,
            fuel: part.fuel - part.done,
        };
        match play_one(alloc, &mut self.world, run)? {
            Answer::Ran {
                steps,
                status,
                sent,
                made,
            } => Ok(Some(Answer::Ran {
                steps: part.done + steps,
                status,
                sent,
                made,
            })),
            // It is up.
            _ => Err(AllocError),
        }
    }
}
