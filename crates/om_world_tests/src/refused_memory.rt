//! The run with a failure, where memory may run out: up to there each answer is the run's, and once the refused event is played again
//! the run comes to its end. In the gate memory is ample; tools/refused-memory refuses each allocation in turn.

use crate::events::{FAILURE_ANSWERS, PASSED_ON_ANSWERS, RUN_WITH_A_FAILURE, check_the_end, line};
use om_process::StartFault;
use om_stable::{MemStable, Stable};
use om_world::{Answer, Event, Refusal, World};
use std::alloc::Global;
use std::process::Abort;

const MEMORY: Answer = Answer::Refused(Refusal::Memory);

// The world at its start, made once more where memory ran out.
fn started(rt: &impl Abort, alloc: Global) -> World<MemStable> {
    match line(alloc) {
        Ok(world) => world,
        Err(fault) => {
            assert!(rt; fault == StartFault::Memory);
            line(alloc).expect(rt, "a world")
        }
    }
}

// The answer to an event; where there is no room for it either, out of memory.
fn answer_to<S: Stable>(alloc: Global, world: &mut World<S>, event: Event) -> Answer {
    match world.play(alloc, &[event]) {
        Ok(answers) => answers.first().copied().unwrap_or(MEMORY),
        Err(_) => MEMORY,
    }
}

// Returns how many messages an event sends by its answer.
fn sent_by(answer: Answer) -> usize {
    match answer {
        Answer::Ran {
            steps: _,
            status: _,
            sent,
            made: _,
        } => sent,
        _ => 0,
    }
}

// Plays an event again that memory was refused. A run may have sent what did not become a frame: then it is sent again.
fn play_again<S: Stable>(alloc: Global, world: &mut World<S>, event: Event, frame: usize) -> bool {
    if answer_to(alloc, world, event) == MEMORY {
        return false;
    }
    if let Event::Run { process, fuel: _ } = event {
        if answer_to(alloc, world, Event::Give { process, frame })
            == Answer::Refused(Refusal::NoFrame)
        {
            return answer_to(alloc, world, Event::Resend { process }) != MEMORY;
        }
    }
    true
}

// The answer that the run has at a place. The last three are those to a run and two flushes.
fn wanted(k: usize) -> Option<Answer> {
    match PASSED_ON_ANSWERS.get(k) {
        Some(answer) => Some(*answer),
        None => FAILURE_ANSWERS.get(k - PASSED_ON_ANSWERS.len()).copied(),
    }
}

fn check_run<S: Stable>(rt: &impl Abort, alloc: Global, world: &mut World<S>) {
    let mut frames = 0usize;
    for (k, event) in RUN_WITH_A_FAILURE.iter().enumerate() {
        let told = answer_to(alloc, world, *event);
        let answer = wanted(k).unwrap_or(told);
        let is_right = if told == MEMORY {
            play_again(alloc, world, *event, frames)
        } else {
            told == answer
        };
        assert!(rt; is_right, "event {k}");
        frames = frames.wrapping_add(sent_by(answer));
    }
}

#[test]
fn a_run_goes_on_without_memory(rt: HostRuntime) {
    let mut world = started(&rt, rt.alloc());
    check_run(&rt, rt.alloc(), &mut world);
    check_the_end(&rt, &world);
    drop(world);
}
